ghost use Rattle.std.specs.Prelude.{◌≡◌, ◌≤◌, [], length, IfOk};
ghost use Rattle.nwq_value.specs.Limits.{text_limit};

use nwq_value::{Items, NoMemory, Text};
use std::alloc::Global;
use std::marker::Model;

/// How many bytes are shared at least: what is shorter takes no more when it is copied.
const SHARED_LEAST: usize = 64;

/// How many bytes are shared at most: those of a text.
const SHARED_MOST: usize = 8_192;

/// Where bytes are kept.
#[derive(Drop)]
pub(crate) enum Place {
    Own(Items<u8>),
    Shared(Text),
}

/// A list of bytes of any length and any values, its own or shared with others.
#[derive(Drop)]
pub struct SharedBytes {
    place: Place,
}

impl Model for SharedBytes {
    ghost use Rattle.std.specs.Prelude.{List, ℕ};
    ghost use Rattle.shared_bytes.specs.Places.{bytes_at};

    ghost Value = { List ℕ };

    ghost view = { λ b. bytes_at b.place };
}

/// The text of bytes that it has room for.
fn text_of(alloc: Global, bytes: &[u8]) -> Result<Text, NoMemory>
    requires few { length bytes.now ≤ text_limit }
    ensures ok { IfOk result (λ text. text ≡ bytes.now) }
{
    let text = Text::of(alloc, bytes)?;
    Ok(text)
}

impl SharedBytes {
    /// No bytes.
    pub fn new(alloc: Global) -> SharedBytes
        ensures none { result ≡ [] }
    {
        SharedBytes::of_items(Items::new(alloc))
    }

    /// These bytes, which nobody else has.
    pub fn of_items(bytes: Items<u8>) -> SharedBytes
        ensures same { result ≡ bytes }
    {
        SharedBytes {
            place: Place::Own(bytes),
        }
    }

    /// A copy of these bytes, whose copies share their memory where they have 64 to
    /// 8,192 bytes.
    pub fn of_slice(alloc: Global, bytes: &[u8]) -> Result<SharedBytes, NoMemory>
        ensures ok { IfOk result (λ copy. copy ≡ bytes.now) }
    {
        if bytes.len() < SHARED_LEAST || bytes.len() > SHARED_MOST {
            return Ok(SharedBytes::of_items(Items::of_slice(alloc, bytes)?));
        }
        Ok(SharedBytes {
            place: Place::Shared(text_of(alloc, bytes)?),
        })
    }

    /// The bytes of a text, shared with it.
    pub fn of_text(alloc: Global, text: &Text) -> Result<SharedBytes, NoMemory>
        ensures ok { IfOk result (λ copy. copy ≡ text.now) }
    {
        Ok(SharedBytes {
            place: Place::Shared(text.copy(alloc)?),
        })
    }

    pub fn as_slice(&self) -> &[u8]
        ensures same { result.now ≡ self.now }
    {
        match &self.place {
            Place::Own(bytes) => bytes.as_slice(),
            Place::Shared(text) => text.bytes(),
        }
    }

    pub fn len(&self) -> usize
        ensures len { result ≡ length self.now }
    {
        self.as_slice().len()
    }

    /// Equal bytes, which are shared where these can be.
    pub fn copy(&self, alloc: Global) -> Result<SharedBytes, NoMemory>
        ensures ok { IfOk result (λ copy. copy ≡ self.now) }
    {
        match &self.place {
            Place::Own(bytes) => SharedBytes::of_slice(alloc, bytes.as_slice()),
            Place::Shared(text) => SharedBytes::of_text(alloc, text),
        }
    }
}
