ghost use Rattle.std.specs.Prelude.{◌≡◌, ◌++◌, ◌≤◌, [], length, take, IfOk};
ghost use Rattle.nwq_value.specs.Limits.{text_limit};

use crate::kept::Kept;
use crate::memory::NoMemory;
use std::alloc::Global;
use std::marker::Model;
use std::rc::Rc;

/// How many bytes a text has at most.
pub const TEXT_BYTES: usize = 8192;

/// A string value: a list of at most [`TEXT_BYTES`] bytes, of any values.
///
/// Copies share the bytes, so a copy takes no memory.
#[derive(Drop)]
pub struct Text {
    bytes: Rc<Kept>,
}

impl Model for Text {
    ghost use Rattle.std.specs.Prelude.{List, ℕ, ◌≤◌, length};
    ghost use Rattle.nwq_value.specs.Kept.{bytes_of};
    ghost use Rattle.nwq_value.specs.Limits.{text_limit};

    ghost Value = { List ℕ };

    ghost view = { λ a. bytes_of a.bytes.value };

    ghost invariant = { λ a. length (bytes_of a.bytes.value) ≤ text_limit };
}

/// The first `n` bytes, or all where there are fewer.
#[tactic(auto, using(crate::proofs::TextLemmas::take_all))]
fn prefix(bytes: &[u8], n: usize) -> &[u8]
    ensures kept { result.now ≡ take n bytes.now }
    ensures bound { length result.now ≤ n }
{
    if bytes.len() <= n { bytes } else { &bytes[..n] }
}

impl Text {
    /// The text without bytes.
    pub fn empty(alloc: Global) -> Result<Text, NoMemory>
        ensures empty { IfOk result (λ text. text ≡ []) }
    {
        Ok(Text {
            bytes: Rc::new(alloc, Kept::of(alloc, &[])?)?,
        })
    }

    /// The first [`TEXT_BYTES`] of these bytes.
    pub fn of(alloc: Global, bytes: &[u8]) -> Result<Text, NoMemory>
        ensures ok { IfOk result (λ text. text ≡ take text_limit bytes.now) }
    {
        let bytes = Kept::of(alloc, prefix(bytes, TEXT_BYTES))?;
        Ok(Text {
            bytes: Rc::new(alloc, bytes)?,
        })
    }

    pub fn bytes(&self) -> &[u8]
        ensures same { result.now ≡ self.now }
        ensures bound { length self.now ≤ text_limit }
    {
        self.bytes.as_slice()
    }

    /// An equal text, which shares the bytes.
    pub fn copy(&self, _alloc: Global) -> Result<Text, NoMemory>
        ensures ok { IfOk result (λ text. text ≡ self.now) }
    {
        Ok(Text {
            bytes: self.bytes.clone()?,
        })
    }

    /// The first [`TEXT_BYTES`] bytes of both texts in a row.
    #[tactic(auto, using(crate::proofs::TextLemmas::take_joined))]
    pub fn join(&self, alloc: Global, other: &Text) -> Result<Text, NoMemory>
        ensures ok { IfOk result (λ text. text ≡ take text_limit (self.now ++ other.now)) }
    {
        let first = self.bytes();
        let second = prefix(other.bytes(), TEXT_BYTES - first.len());
        let bytes = Kept::joined(alloc, first, second)?;
        Ok(Text {
            bytes: Rc::new(alloc, bytes)?,
        })
    }
}
