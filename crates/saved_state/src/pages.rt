ghost use Rattle.std.specs.Prelude.{◌≡◌, ◌<◌, ◌≤◌, [], ◌∷◌, ◌++◌, ◌-◌, length, take, drop};
ghost use Rattle.std.specs.Prelude.{slice_get, slice_set, Some, IfSome, IfNone, OnOk, OnErr, IfOk};
ghost use Rattle.std.specs.Option.{option_copied};
ghost use Rattle.saved_state.specs.Pages.{flat, AreStacked, IsFull, IsInPiece, IsPlace};
ghost use Rattle.saved_state.specs.Pages.{IsTopWithRoom};

use crate::cell::Cell;
use crate::piece::{PAGE_CELLS, Piece};
use nwq_value::NoMemory;
use std::alloc::Global;
use std::marker::Model;

/// Cells in the order of their places, the lowest first, on pages.
///
/// Lists that were made of one another share the pages on which their cells stand.
pub struct Pages {
    pieces: Vec<Piece>,
    len: usize,
}

impl Model for Pages {
    ghost use Rattle.std.specs.Prelude.{List};
    ghost use Rattle.saved_state.specs.declared.cell.Cell.{Cell};
    ghost use Rattle.saved_state.specs.Pages.{flat, IsRow};

    ghost Value = { List Cell };

    ghost view = { λ c. flat c.pieces.items };

    ghost invariant = { λ c. IsRow c.len c.pieces.items };
}

impl Drop for Pages {
    fn drop(self) {
        let Pages { pieces, len: _ } = self;
        drop(pieces);
    }
}

impl Pages {
    /// The list without cells; takes no memory.
    pub fn new(alloc: Global) -> Pages
        ensures empty { result ≡ [] }
    {
        Pages {
            pieces: Vec::new(alloc),
            len: 0,
        }
    }

    /// Where the list has its memory from.
    pub(crate) fn allocator(&self) -> Global {
        *self.pieces.allocator()
    }

    /// How many cells there are.
    #[inline(always)]
    pub fn len(&self) -> usize
        ensures count { result ≡ length self.now }
    {
        self.len
    }

    /// The cell at place `i`, counted from 0; `None` exactly from the count on.
    pub fn get(&self, i: usize) -> Option<&Cell>
        ensures cell { option_copied result ≡ slice_get self.now i }
    {
        if i < self.len() {
            Some(self.at(i))
        } else {
            None
        }
    }

    /// Puts a cell last. After `NoMemory` it is dropped and the list is as before.
    #[tactic(auto, using(crate::proofs::Rows::pushed_is, crate::proofs::Rows::row_pushed))]
    pub fn push(&mut self, cell: Cell) -> Result<(), NoMemory>
        ensures ok { OnOk result (self.new ≡ self.old ++ cell ∷ []) }
        ensures err { OnErr result (self.new ≡ self.old) }
    {
        match top_with_room(self.pieces.as_slice()) {
            None => self.begin_page(cell),
            Some(k) => {
                let Some(len) = self.len.checked_add(1) else {
                    drop(cell);
                    return Err(NoMemory);
                };
                let alloc = *self.pieces.allocator();
                let piece = &mut self.pieces[k];
                piece.push(alloc, cell)?;
                self.len = len;
                Ok(())
            }
        }
    }

    /// Puts a cell last, on a page of its own. After `NoMemory` it is dropped and the list is as
    /// before.
    pub(crate) fn begin_page(&mut self, cell: Cell) -> Result<(), NoMemory>
        ensures ok { OnOk result (self.new ≡ self.old ++ cell ∷ []) }
        ensures err { OnErr result (self.new ≡ self.old) }
    {
        let alloc = *self.pieces.allocator();
        let piece = Piece::of(alloc, cell)?;
        self.add(piece)
    }

    /// Puts the cells of a piece last. After `NoMemory` it is dropped and the list is as before.
    #[tactic(auto, using(crate::proofs::Rows::flat_more, crate::proofs::Rows::row_more))]
    fn add(&mut self, piece: Piece) -> Result<(), NoMemory>
        ensures ok { OnOk result (self.new ≡ self.old ++ piece.cells) }
        ensures err { OnErr result (self.new ≡ self.old) }
    {
        let mut piece = piece;
        let Some(len) = self.len.checked_add(piece.len()) else {
            drop(piece);
            return Err(NoMemory);
        };
        piece.set_start(self.len);
        self.pieces.push(piece)?;
        self.len = len;
        Ok(())
    }

    /// The cell at a place.
    #[inline(never)]
    #[tactic(auto, using(crate::proofs::Rows::got_is))]
    pub(crate) fn at(&self, place: usize) -> &Cell
        requires inside { place < length self.now }
        ensures cell { slice_get self.now place ≡ Some result.now }
    {
        let pieces = self.pieces.as_slice();
        let (k, i) = locate(pieces, place);
        let piece = &pieces[k];
        piece.at(i)
    }

    /// Replaces the cell at a place. After `NoMemory` the new one is dropped and the list is as
    /// before.
    #[inline(never)]
    #[tactic(auto, using(crate::proofs::Rows::written_is, crate::proofs::Rows::row_written))]
    pub(crate) fn set(&mut self, place: usize, cell: Cell) -> Result<(), NoMemory>
        requires inside { place < length self.old }
        ensures ok { OnOk result (self.new ≡ slice_set self.old place cell) }
        ensures err { OnErr result (self.new ≡ self.old) }
    {
        let (k, i) = locate(self.pieces.as_slice(), place);
        let alloc = *self.pieces.allocator();
        let piece = &mut self.pieces[k];
        piece.set(alloc, i, cell)
    }

    /// Drops all cells but the `n` lowest.
    #[inline(never)]
    #[tactic(auto, using(crate::proofs::Rows::kept_view, crate::proofs::Rows::row_kept))]
    pub(crate) fn truncate(&mut self, n: usize)
        requires inside { n ≤ length self.old }
        ensures kept { self.new ≡ take n self.old }
    {
        if n == 0 {
            self.pieces.clear();
            self.len = 0;
            return;
        }
        let (k, i) = locate(self.pieces.as_slice(), n - 1);
        self.pieces.truncate(k + 1);
        let piece = &mut self.pieces[k];
        piece.keep(i + 1);
        self.len = n;
    }

    /// The cells from one place up to, and without, another. Their pages are shared.
    pub(crate) fn part(&self, from: usize, to: usize) -> Result<Pages, NoMemory>
        requires order { from ≤ to }
        requires inside { to ≤ length self.now }
        ensures part { IfOk result (λ part. part ≡ drop from (take to self.now)) }
    {
        let mut part = Pages::new(*self.pieces.allocator());
        if from < to {
            part.share(self.pieces.as_slice(), from, to)?;
        }
        Ok(part)
    }

    /// Puts the cells from one place of a row of pieces up to, and without, another last.
    #[tactic(auto, using(crate::proofs::Rows::part_steps))]
    fn share(&mut self, pieces: &[Piece], from: usize, to: usize) -> Result<(), NoMemory>
        requires empty { self.old ≡ [] }
        requires stacked { AreStacked 0 pieces.now }
        requires order { from < to }
        requires inside { to ≤ length (flat pieces.now) }
        ensures part { OnOk result (self.new ≡ drop from (take to (flat pieces.now))) }
    {
        for k in piece_at(pieces, from)..pieces.len() {
            let piece = &pieces[k];
            if to <= piece.start() {
                return Ok(());
            }
            self.add_part(piece, from, to)?;
        }
        Ok(())
    }

    /// Puts the cells of a piece from one place of its row up to, and without, another last.
    #[tactic(auto, using(crate::proofs::Rows::part_some, crate::proofs::Rows::part_none))]
    fn add_part(&mut self, piece: &Piece, from: usize, to: usize) -> Result<(), NoMemory>
        ensures part { OnOk result (self.new ≡ self.old
            ++ drop (from - piece.now.start) (take (to - piece.now.start) piece.now.cells)) }
    {
        let first = from.saturating_sub(piece.start());
        let end = to.saturating_sub(piece.start()).min(piece.len());
        if first < end {
            self.add(piece.part(first, end)?)
        } else {
            Ok(())
        }
    }

    /// Puts the cells of another list last.
    #[tactic(auto, using(crate::proofs::Rows::taken_more))]
    pub(crate) fn append(&mut self, other: &Pages) -> Result<(), NoMemory>
        ensures ok { OnOk result (self.new ≡ self.old ++ other.now) }
    {
        let pieces = other.pieces.as_slice();
        for piece in pieces {
            self.add(piece.part(0, piece.len())?)?;
        }
        Ok(())
    }
}

/// The last piece, where it has fewer cells than a page can have.
#[tactic(auto, using(crate::proofs::Rows::full_lemmas))]
fn top_with_room(pieces: &[Piece]) -> Option<usize>
    ensures top { IfSome result (λ k. IsTopWithRoom k pieces.now) }
    ensures full { IfNone result (IsFull pieces.now) }
{
    match pieces.len() {
        0 => None,
        n => {
            if pieces[n - 1].len() < PAGE_CELLS {
                Some(n - 1)
            } else {
                None
            }
        }
    }
}

/// Which piece the cell at a place is in, and how many cells of that piece lie beneath it.
#[tactic(auto, using(crate::proofs::Rows::place_is))]
fn locate(pieces: &[Piece], place: usize) -> (usize, usize)
    requires stacked { AreStacked 0 pieces.now }
    requires inside { place < length (flat pieces.now) }
    ensures place { IsPlace place result.0 result.1 pieces.now }
{
    let k = piece_at(pieces, place);
    let i = place - pieces[k].start();
    (k, i)
}

/// Which piece the cell at a place is in.
#[tactic(auto, using(crate::proofs::Rows::search_steps))]
fn piece_at(pieces: &[Piece], place: usize) -> usize
    requires stacked { AreStacked 0 pieces.now }
    requires inside { place < length (flat pieces.now) }
    ensures piece { IsInPiece place result pieces.now }
{
    let mut low = 0;
    let mut high = pieces.len();
    while high - low > 1 {
        let middle = low + (high - low) / 2;
        if pieces[middle].start() <= place {
            low = middle;
        } else {
            high = middle;
        }
    }
    low
}
