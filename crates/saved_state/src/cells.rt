ghost use Rattle.std.specs.Prelude.{◌≡◌, [], ◌∷◌, ◌++◌, length, slice_get, OnOk, OnErr};
ghost use Rattle.std.specs.Option.{option_copied};

use crate::cell::Cell;
use crate::pages::Pages;
use nwq_value::NoMemory;
use std::alloc::Global;
use std::marker::Model;

/// Where a list has its cells: few are its own, which takes one piece of memory; pages are shared.
#[derive(Drop)]
pub(crate) enum Kept {
    Own(Vec<Cell>),
    Shared(Pages),
}

/// Cells in the order of their places, the lowest first.
#[derive(Drop)]
pub struct Cells {
    pub(crate) kept: Kept,
}

impl Model for Cells {
    ghost use Rattle.std.specs.Prelude.{List};
    ghost use Rattle.saved_state.specs.declared.cell.Cell.{Cell};
    ghost use Rattle.saved_state.specs.Kept.{listed};

    ghost Value = { List Cell };

    ghost view = { λ c. listed c.kept };
}

impl Cells {
    /// The list without cells; takes no memory.
    pub fn new(alloc: Global) -> Cells
        ensures empty { result ≡ [] }
    {
        Cells::own(Vec::new(alloc))
    }

    /// These cells.
    pub(crate) fn own(cells: Vec<Cell>) -> Cells
        ensures cells { result ≡ cells.items }
    {
        Cells {
            kept: Kept::Own(cells),
        }
    }

    /// The cells of these pages.
    pub(crate) fn shared(pages: Pages) -> Cells
        ensures cells { result ≡ pages }
    {
        Cells {
            kept: Kept::Shared(pages),
        }
    }

    /// How many cells there are.
    pub fn len(&self) -> usize
        ensures count { result ≡ length self.now }
    {
        match &self.kept {
            Kept::Own(cells) => cells.len(),
            Kept::Shared(pages) => pages.len(),
        }
    }

    /// The cell at place `i`, counted from 0; `None` exactly from the count on.
    pub fn get(&self, i: usize) -> Option<&Cell>
        ensures cell { option_copied result ≡ slice_get self.now i }
    {
        match &self.kept {
            Kept::Own(cells) => cells.as_slice().get(i),
            Kept::Shared(pages) => pages.get(i),
        }
    }

    /// Puts a cell last. After `NoMemory` it is dropped and the list is as before.
    pub fn push(&mut self, cell: Cell) -> Result<(), NoMemory>
        ensures ok { OnOk result (self.new ≡ self.old ++ cell ∷ []) }
        ensures err { OnErr result (self.new ≡ self.old) }
    {
        match &mut self.kept {
            Kept::Own(cells) => {
                cells.push(cell)?;
                Ok(())
            }
            Kept::Shared(pages) => pages.push(cell),
        }
    }
}
