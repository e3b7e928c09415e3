ghost use Rattle.std.specs.Prelude.{◌≡◌, ◌≤◌, length, false};
ghost use Rattle.std.specs.Str.{bytes_eq};
ghost use Rattle.gff_tree.specs.Label.{label_limit, has_zero, label_of, label_text};

use std::marker::Model;

/// How many bytes a label has at most.
pub const LABEL_BYTES: usize = 16;

/// The name of a field: at most 16 bytes, none of them zero. Contracts see it as the list of its
/// bytes.
#[derive(Drop)]
pub struct Label {
    bytes: [u8; 16],
    len: usize,
}

impl Model for Label {
    ghost use Rattle.std.specs.Prelude.{◌≡◌, List, ℕ, ◌≤◌, take, false};
    ghost use Rattle.gff_tree.specs.Label.{label_limit, has_zero};

    ghost Value = { List ℕ };

    ghost view = { λ a. take a.len a.bytes };

    ghost invariant = { λ a. (a.len ≤ label_limit) × (has_zero (take a.len a.bytes) ≡ false) };
}

fn contains_zero(text: &[u8]) -> bool
    ensures { result ≡ has_zero text.now }
{
    text.iter().any(|b| *b == 0)
}

/// The bytes before the first zero byte.
pub fn before_zero(raw: &[u8]) -> &[u8]
    ensures text { result.now ≡ label_text raw.now }
    ensures bound { length result.now ≤ length raw.now }
    ensures no_zero { has_zero result.now ≡ false }
{
    for (i, b) in raw.iter().enumerate() {
        if *b == 0 {
            return &raw[..i];
        }
    }
    raw
}

impl Label {
    /// The label of a text: none where it has more than 16 bytes or a zero byte.
    pub fn of(text: &[u8]) -> Option<Label>
        ensures label { result ≡ label_of text.now }
    {
        if text.len() > LABEL_BYTES {
            return None;
        }
        if contains_zero(text) {
            None
        } else {
            Some(Label::held(text))
        }
    }

    /// The label of these bytes, which are few enough and have no zero byte among them.
    pub fn held(text: &[u8]) -> Label
        requires bound { length text.now ≤ label_limit }
        requires no_zero { has_zero text.now ≡ false }
        ensures same { result ≡ text.now }
    {
        let mut bytes = [0; LABEL_BYTES];
        let len = text.len();
        bytes[..len].copy_from_slice(text);
        Label { bytes, len }
    }

    /// Its bytes.
    pub fn bytes(&self) -> &[u8]
        ensures same { result.now ≡ self.now }
        ensures bound { length self.now ≤ label_limit }
        ensures no_zero { has_zero self.now ≡ false }
    {
        &self.bytes[..self.len]
    }

    /// Whether two labels have the same bytes.
    pub fn same(&self, other: &Label) -> bool
        ensures same { result ≡ bytes_eq self.now other.now }
    {
        self.bytes() == other.bytes()
    }
}
