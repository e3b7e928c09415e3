ghost use Rattle.std.specs.Prelude.{◌≡◌, ◌<◌, [], get_or, OnOk, OnErr, length};
ghost use Rattle.stack_lists.specs.Rows.{PutAt, SameNumbers};

use nwq_value::{Items, NoMemory};
use std::alloc::Global;
use std::marker::Model;

/// A number for each place, 0 where none was put.
#[derive(Drop)]
pub struct Places {
    numbers: Items<u32>,
}

impl Model for Places {
    ghost use Rattle.std.specs.Prelude.{List, ℕ};

    ghost Value = { List ℕ };

    ghost view = { λ p. p.numbers };
}

impl Places {
    pub fn new(alloc: Global) -> Places
        ensures empty { result ≡ [] }
    {
        Places {
            numbers: Items::new(alloc),
        }
    }

    /// From this place on no number was put.
    pub fn end(&self) -> usize
        ensures end { result ≡ length self.now }
    {
        self.numbers.len()
    }

    #[tactic(auto, using(crate::proofs::Numbers::getting))]
    pub fn get(&self, place: u32) -> u32
        ensures number { result ≡ get_or self.now place 0 }
    {
        match self.numbers.get(place as usize) {
            None => 0,
            Some(number) => *number,
        }
    }

    /// Puts a number at a place.
    #[tactic(auto, using(crate::proofs::Numbers::putting))]
    pub fn put(&mut self, place: u32, number: u32) -> Result<(), NoMemory>
        ensures put { OnOk result (PutAt self.old self.new place number) }
        ensures there { OnOk result (place < length self.new) }
        ensures err { OnErr result (SameNumbers self.old self.new) }
    {
        extend(&mut self.numbers, place as usize)?;
        self.numbers.set(place as usize, number);
        Ok(())
    }

    /// Puts a number at a place where there was one, which takes no memory.
    #[tactic(auto, using(crate::proofs::Numbers::clearing))]
    pub fn set(&mut self, place: u32, number: u32)
        requires there { place < length self.old }
        ensures put { PutAt self.old self.new place number }
    {
        self.numbers.set(place as usize, number);
    }

    /// Puts 0 at a place.
    #[tactic(auto, using(crate::proofs::Numbers::clearing))]
    pub fn clear(&mut self, place: u32)
        ensures cleared { PutAt self.old self.new place 0 }
    {
        if (place as usize) < self.numbers.len() {
            self.numbers.set(place as usize, 0);
        }
    }
}

/// Puts zeros last, until there is a number at the place.
#[tactic(auto, using(crate::proofs::Numbers::extending))]
fn extend(numbers: &mut Items<u32>, place: usize) -> Result<(), NoMemory>
    ensures same { SameNumbers numbers.old numbers.new }
    ensures there { OnOk result (place < length numbers.new) }
{
    while numbers.len() <= place {
        numbers.push(0)?;
    }
    Ok(())
}
