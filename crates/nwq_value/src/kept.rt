//! The bytes of a text: few of them stand beside the count of their owners, so that most texts take
//! one piece of memory and not two.
ghost use Rattle.std.specs.Prelude.{◌≡◌, ◌≤◌, ◌+◌, [], ◌++◌, length, IfOk};
ghost use Rattle.nwq_value.specs.Kept.{bytes_of};

use crate::memory::NoMemory;
use std::alloc::Global;
use std::marker::Model;

/// How many bytes are few: what a piece of memory of 64 bytes has room for.
const FEW: usize = 31;

/// At most [`FEW`] bytes, in the value itself.
#[derive(Drop)]
pub(crate) struct Few {
    len: u8,
    bytes: [u8; FEW],
}

impl Model for Few {
    ghost use Rattle.std.specs.Prelude.{List, ℕ, ◌≤◌, take};

    ghost Value = { List ℕ };

    ghost view = { λ f. take f.len f.bytes };

    ghost invariant = { λ f. f.len ≤ 31 };
}

/// Where the bytes are kept.
#[derive(Drop)]
pub(crate) enum Kept {
    Few(Few),
    Many(Vec<u8>),
}

impl Few {
    /// No bytes.
    fn new() -> Few
        ensures none { result ≡ [] }
    {
        Few {
            len: 0,
            bytes: [0; FEW],
        }
    }

    /// Puts bytes last.
    #[inline(always)]
    fn push(&mut self, bytes: &[u8])
        requires room { length self.old + length bytes.now ≤ 31 }
        ensures pushed { self.new ≡ self.old ++ bytes.now }
    {
        let from = usize::from(self.len);
        let to = from + bytes.len();
        self.bytes[from..to].copy_from_slice(bytes);
        self.len = to as u8;
    }

    fn as_slice(&self) -> &[u8]
        ensures same { result.now ≡ self.now }
    {
        &self.bytes[..usize::from(self.len)]
    }
}

impl Kept {
    /// The bytes of both lists in a row.
    pub(crate) fn joined(alloc: Global, first: &[u8], second: &[u8]) -> Result<Kept, NoMemory>
        requires small { length first.now + length second.now ≤ 16384 }
        ensures ok { IfOk result (λ kept. bytes_of kept ≡ first.now ++ second.now) }
    {
        let len = first.len() + second.len();
        if len <= FEW {
            let mut few = Few::new();
            few.push(first);
            few.push(second);
            return Ok(Kept::Few(few));
        }
        let mut many = Vec::with_capacity(alloc, len)?;
        many.extend_from_slice(first)?;
        many.extend_from_slice(second)?;
        Ok(Kept::Many(many))
    }

    /// The bytes of a list.
    pub(crate) fn of(alloc: Global, bytes: &[u8]) -> Result<Kept, NoMemory>
        ensures ok { IfOk result (λ kept. bytes_of kept ≡ bytes.now) }
    {
        if bytes.len() <= FEW {
            let mut few = Few::new();
            few.push(bytes);
            return Ok(Kept::Few(few));
        }
        Ok(Kept::Many(Vec::from_slice(alloc, bytes)?))
    }

    pub(crate) fn as_slice(&self) -> &[u8]
        ensures same { result.now ≡ bytes_of self.now }
    {
        match self {
            Kept::Few(few) => few.as_slice(),
            Kept::Many(many) => many.as_slice(),
        }
    }
}
