ghost use Rattle.std.specs.Prelude.{◌≡◌, ◌<◌, ◌≤◌, [], ◌∷◌, ◌++◌, length, take, drop, slice_get};
ghost use Rattle.std.specs.Prelude.{slice_set, Some, OnOk, OnErr, IfOk};
ghost use Rattle.saved_state.specs.Pages.{page_limit};

use crate::cell::Cell;
use nwq_value::NoMemory;
use std::alloc::Global;
use std::marker::Model;
use std::rc::Rc;

/// How many cells a page has at most.
pub const PAGE_CELLS: usize = 64;

/// Cells that stand next to one another on a page, as a part of a list of cells.
///
/// Pieces share a page until one of them is written: that one then gets a page of its own.
#[derive(Drop)]
pub struct Piece {
    page: Rc<Vec<Cell>>,
    /// The first cell of the page that is used.
    first: usize,
    /// How many cells are used.
    count: usize,
    /// How many cells of the list lie beneath.
    start: usize,
}

impl Model for Piece {
    ghost use Rattle.std.specs.Prelude.{take, drop};
    ghost use Rattle.saved_state.specs.Pages.{Part, IsOnPage};

    ghost Value = { Part };

    ghost view = { λ p. record {
      cells = take p.count (drop p.first p.page.value.items);
      start = p.start;
    } };

    ghost invariant = { λ p. IsOnPage p.first p.count p.page.value.items };
}

impl Piece {
    /// One cell on a page of its own, over no others.
    pub fn of(alloc: Global, cell: Cell) -> Result<Piece, NoMemory>
        ensures made { IfOk result (λ piece. piece ≡ record { cells = cell ∷ []; start = 0 }) }
    {
        let mut cells = Vec::new(alloc);
        cells.push(cell)?;
        Ok(Piece {
            page: Rc::new(alloc, cells)?,
            first: 0,
            count: 1,
            start: 0,
        })
    }

    pub fn len(&self) -> usize
        ensures count { result ≡ length self.now.cells }
        ensures bound { result ≤ page_limit }
    {
        self.count
    }

    pub fn start(&self) -> usize
        ensures start { result ≡ self.now.start }
    {
        self.start
    }

    /// The cell over so many others of the piece.
    pub fn at(&self, i: usize) -> &Cell
        requires inside { i < length self.now.cells }
        ensures cell { slice_get self.now.cells i ≡ Some result.now }
    {
        &self.page[self.first + i]
    }

    /// The cells from `from` up to, and without, `to`, over no others. The page is shared.
    #[tactic(auto, using(crate::proofs::Pieces::part_is))]
    pub fn part(&self, from: usize, to: usize) -> Result<Piece, NoMemory>
        requires inside { to ≤ length self.now.cells }
        requires order { from ≤ to }
        ensures part { IfOk result (λ piece. piece
            ≡ record { cells = drop from (take to self.now.cells); start = 0 }) }
    {
        Ok(Piece {
            page: self.page.clone()?,
            first: self.first + from,
            count: to - from,
            start: 0,
        })
    }

    /// Leaves out all but the `n` lowest cells.
    pub fn keep(&mut self, n: usize)
        requires inside { n ≤ length self.old.cells }
        ensures kept { self.new ≡ record self.old { cells = take n self.old.cells } }
    {
        self.count = n;
    }

    /// The same cells over `start` others.
    pub fn set_start(&mut self, start: usize)
        ensures moved { self.new ≡ record self.old { start = start } }
    {
        self.start = start;
    }

    /// Replaces a cell. After `NoMemory` it is dropped and the piece is as before.
    #[tactic(auto, using(crate::proofs::Pieces::set_is))]
    pub fn set(&mut self, alloc: Global, i: usize, cell: Cell) -> Result<(), NoMemory>
        requires inside { i < length self.old.cells }
        ensures ok { OnOk result
            (self.new ≡ record self.old { cells = slice_set self.old.cells i cell }) }
        ensures err { OnErr result (self.new ≡ self.old) }
    {
        let at = self.first + i;
        match Rc::get_mut(&mut self.page) {
            Some(page) => {
                replace(page, at, cell);
                return Ok(());
            }
            None => {}
        }
        let mut page = copies(alloc, self.page.as_slice())?;
        replace(&mut page, at, cell);
        self.page = Rc::new(alloc, page)?;
        Ok(())
    }

    /// Puts a cell on top. After `NoMemory` it is dropped and the piece is as before.
    #[tactic(auto, using(crate::proofs::Pieces::push_steps))]
    pub fn push(&mut self, alloc: Global, cell: Cell) -> Result<(), NoMemory>
        requires room { length self.old.cells < page_limit }
        ensures ok { OnOk result
            (self.new ≡ record self.old { cells = self.old.cells ++ cell ∷ [] }) }
        ensures err { OnErr result (self.new ≡ self.old) }
    {
        let end = self.first + self.count;
        if end < PAGE_CELLS {
            match Rc::get_mut(&mut self.page) {
                Some(page) => {
                    page.truncate(end);
                    page.push(cell)?;
                    self.count += 1;
                    return Ok(());
                }
                None => {}
            }
        }
        let mut page = copies(alloc, &self.page[self.first..end])?;
        page.push(cell)?;
        self.page = Rc::new(alloc, page)?;
        self.first = 0;
        self.count += 1;
        Ok(())
    }
}

/// Equal cells, in the same order.
pub(crate) fn copies(alloc: Global, cells: &[Cell]) -> Result<Vec<Cell>, NoMemory>
    ensures same { IfOk result (λ all. all.items ≡ cells.now) }
{
    let mut all = Vec::with_capacity(alloc, cells.len())?;
    for cell in cells {
        all.push(cell.copy(alloc)?)?;
    }
    Ok(all)
}

/// Puts a cell in the place of another one, which is dropped.
fn replace(page: &mut Vec<Cell>, at: usize, cell: Cell)
    requires inside { at < length page.old.items }
    ensures set { page.new.items ≡ slice_set page.old.items at cell }
{
    page[at] = cell;
}
