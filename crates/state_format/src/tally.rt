ghost use Rattle.std.specs.Prelude.{◌≡◌, ◌++◌, [], length, OnOk};

use crate::written::Writer;
use nwq_value::NoMemory;
use proof_notes::Notes;
use std::marker::Model;

/// A count of bytes, of which none is kept. Contracts see the bytes that were counted.
#[derive(Drop)]
pub struct Tally {
    size: u64,
    counted: Notes<u8>,
}

impl Model for Tally {
    ghost use Rattle.std.specs.Prelude.{◌≡◌, ℕ, List, length};

    ghost Value = { List ℕ };

    ghost view = { λ t. t.counted.all };

    ghost invariant = { λ t. t.size ≡ length t.counted.all };
}

impl Tally {
    /// Of no bytes.
    pub fn new() -> Tally
        ensures empty { result ≡ [] }
    {
        Tally {
            size: 0,
            counted: Notes::new(),
        }
    }

    /// How many bytes were counted.
    pub fn size(&self) -> u64
        ensures size { result ≡ length self.now }
    {
        self.size
    }

    /// Counts bytes more. A size that 64 bits don't hold is one that no memory holds.
    fn count(&mut self, bytes: &[u8]) -> Result<(), NoMemory>
        ensures counted { OnOk result (self.new ≡ self.old ++ bytes.now) }
    {
        match self.size.checked_add(bytes.len() as u64) {
            None => Err(NoMemory),
            Some(size) => {
                self.size = size;
                self.counted = self.counted.then(&bytes);
                Ok(())
            }
        }
    }
}

impl Writer for Tally {
    ghost taken = { λ t. t };

    fn put(&mut self, bytes: &[u8]) -> Result<(), NoMemory> {
        self.count(bytes)
    }
}
