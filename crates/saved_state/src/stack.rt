ghost use Rattle.std.specs.Prelude.{◌≡◌, ◌≢◌, ◌<◌, ◌≤◌, ℕ, Some, [], ◌∷◌, length, drop, OnOk};
ghost use Rattle.std.specs.Prelude.{OnErr, IfOk, IfSome, slice_get, slice_set, take, ◌+◌, ◌++◌};
ghost use Rattle.saved_state.specs.Cells.{cell_at, with_cell, captured, resumed, run_written};
ghost use Rattle.std.specs.Prelude.{if◌then◌else◌, true, false};
ghost use Rattle.saved_state.specs.declared.cell.Cell.TheVariants.{Value as ValueCell};
ghost use Rattle.saved_state.specs.declared.cell.Cell.TheVariants.{Base as BaseCell};
ghost use Rattle.nwq_value.specs.declared.value.Value.TheVariants.{Int as IntValue};

use crate::cell::Cell;
use crate::pile::Pile;
use crate::saved::Saved;
use nwq_value::{NoMemory, Value};
use std::alloc::Global;
use std::marker::Model;

/// The cells of a running script, and BP, the place right beneath which its globals lie.
///
/// Places count the cells beneath, from 0 at the bottom.
pub struct Stack {
    cells: Pile,
    bp: usize,
}

impl Model for Stack {
    ghost use Rattle.std.specs.Prelude.{reverse};
    ghost use Rattle.saved_state.specs.Cells.{StackView};

    ghost Value = { StackView };

    ghost view = { λ s. record { cells = reverse s.cells; bp = s.bp } };
}

impl Drop for Stack {
    fn drop(self) {
        let Stack { cells, bp: _ } = self;
        drop(cells);
    }
}

impl Stack {
    /// The stack without cells, whose BP is 0.
    pub fn new(alloc: Global) -> Stack
        ensures empty { result ≡ record { cells = []; bp = 0 } }
    {
        Stack {
            cells: Pile::new(alloc),
            bp: 0,
        }
    }

    /// Puts a cell on top. After `NoMemory` the cell is dropped and the stack is as before.
    #[inline(always)]
    pub fn push(&mut self, cell: Cell) -> Result<(), NoMemory>
        ensures ok { OnOk result (self.new ≡ record self.old { cells = cell ∷ self.old.cells }) }
        ensures err { OnErr result (self.new ≡ self.old) }
    {
        self.cells.push(cell)
    }

    /// Puts copies of `count` cells on top, in their order: those over which `above` others lie.
    /// After `NoMemory` some of them may be there.
    #[inline(always)]
    pub fn push_copies(&mut self, above: usize, count: usize) -> Result<(), NoMemory>
        requires inside { above + count ≤ length self.old.cells }
        ensures ok { OnOk result (self.new ≡ record self.old {
          cells = take count (drop above self.old.cells) ++ self.old.cells;
        }) }
    {
        self.cells.push_copies(above, count)
    }

    /// How many cells there are: the place of the next one that is pushed.
    #[inline(always)]
    pub fn len(&self) -> usize
        ensures count { result ≡ length self.now.cells }
    {
        self.cells.len()
    }

    /// BP: offsets from it reach the cells beneath it.
    #[inline(always)]
    pub fn bp(&self) -> usize
        ensures bp { result ≡ self.now.bp }
    {
        self.bp
    }

    /// The cell at a place.
    #[inline(always)]
    pub fn at(&self, place: usize) -> &Cell
        requires inside { place < length self.now.cells }
        ensures cell { cell_at self.now.cells place ≡ Some result.now }
    {
        self.cells.at(place)
    }

    /// The cell over which so many others lie.
    #[inline(always)]
    pub fn down(&self, depth: usize) -> &Cell
        requires inside { depth < length self.now.cells }
        ensures cell { slice_get self.now.cells depth ≡ Some result.now }
    {
        self.cells.down(depth)
    }

    /// The int over which so many others lie, where it can be read at once. `None` says nothing:
    /// the cell may hold an int all the same.
    #[inline(always)]
    pub fn int_near(&self, depth: usize) -> Option<i32>
        ensures int { IfSome result (λ n. slice_get self.now.cells depth
            ≡ Some (ValueCell (IntValue n))) }
    {
        self.cells.int_near(depth)
    }

    /// Drops the topmost cell. BP stays, even where its place is that cell's.
    #[inline(always)]
    pub fn drop_one(&mut self)
        requires some { 0 < length self.old.cells }
        ensures dropped { self.new ≡ record self.old { cells = drop 1 self.old.cells } }
    {
        self.cells.drop_one();
    }

    /// Puts a value in the place of the two topmost cells, of which the upper one holds the int
    /// `y`. `false` says that the value was dropped and nothing was done, since they don't both lie
    /// where this takes no look-up.
    #[inline(always)]
    pub fn fold_near(&mut self, y: i32, value: Value) -> bool
        requires upper { slice_get self.old.cells 0 ≡ Some (ValueCell (IntValue y)) }
        ensures folded { result ≡ true → self.new ≡ record self.old {
          cells = drop 1 (slice_set self.old.cells 1 (ValueCell value));
        } }
        ensures same { result ≡ false → self.new ≡ self.old }
    {
        let _upper = y;
        self.cells.fold_near(Cell::Value(value))
    }

    /// Drops the `n` topmost cells. BP stays, even where its place is among them.
    #[inline(always)]
    pub fn drop_top(&mut self, n: usize)
        requires inside { n ≤ length self.old.cells }
        ensures dropped { self.new ≡ record self.old { cells = drop n self.old.cells } }
    {
        self.cells.drop_top(n);
    }

    /// Puts a value into the cell at a place. After `NoMemory` it is dropped and the stack is as
    /// before.
    #[inline(always)]
    pub fn set(&mut self, place: usize, value: Value) -> Result<(), NoMemory>
        requires inside { place < length self.old.cells }
        requires no_base { (bp : ℕ) → cell_at self.old.cells place ≢ Some (BaseCell bp) }
        ensures ok { OnOk result (self.new
            ≡ record self.old { cells = with_cell self.old.cells place (ValueCell value) }) }
        ensures err { OnErr result (self.new ≡ self.old) }
    {
        self.cells.set(place, Cell::Value(value))
    }

    /// Puts a value into the cell over which so many others lie, in the same way.
    #[inline(always)]
    pub fn set_down(&mut self, depth: usize, value: Value) -> Result<(), NoMemory>
        requires inside { depth < length self.old.cells }
        requires no_base { (bp : ℕ) → slice_get self.old.cells depth ≢ Some (BaseCell bp) }
        ensures ok { OnOk result (self.new
            ≡ record self.old { cells = slice_set self.old.cells depth (ValueCell value) }) }
        ensures err { OnErr result (self.new ≡ self.old) }
    {
        self.cells.set_down(depth, Cell::Value(value))
    }

    /// Writes copies of `count` cells, over which `from` others lie, onto those over which `onto`
    /// others lie, the lowest first. `false` says that nothing was done, since the cells don't all
    /// lie where this takes no look-up for each. After `NoMemory` some of them may be written.
    #[inline(always)]
    pub fn copy_down(&mut self, from: usize, onto: usize, count: usize) -> Result<bool, NoMemory>
        requires order { from ≤ onto }
        requires inside { onto + count ≤ length self.old.cells }
        ensures ok { IfOk result (λ done. self.new ≡ (if done then record self.old {
          cells = run_written onto from count self.old.cells;
        } else self.old)) }
    {
        self.cells.copy_down(from, onto, count)
    }

    /// Sets BP to a place, which may be the one over the top.
    pub fn set_bp(&mut self, place: usize)
        requires inside { place ≤ length self.old.cells }
        ensures bp { self.new ≡ record self.old { bp = place } }
    {
        self.bp = place;
    }

    /// The state of a script that is to resume at a place of its code, with the `globals` cells
    /// right beneath BP and the `locals` topmost cells. A base cell among them is kept like any
    /// other; compiled code asks for none.
    pub fn capture(
        &mut self,
        script: u32,
        place: u32,
        globals: usize,
        locals: usize,
    ) -> Result<Saved, NoMemory>
        requires bp { self.old.bp ≤ length self.old.cells }
        requires globals { globals ≤ self.old.bp }
        requires locals { locals ≤ length self.old.cells }
        ensures state { IfOk result
            (λ saved. saved ≡ captured script place globals locals self.old) }
        ensures same { self.new ≡ self.old }
    {
        let len = self.cells.len();
        Ok(Saved {
            script,
            place,
            globals: self.cells.part(self.bp - globals, self.bp)?,
            locals: self.cells.part(len - locals, len)?,
        })
    }
}

/// The stack with which a captured state begins: its globals, over them a base cell that holds BP
/// 0, over it its locals, and BP at the base cell's place. After `NoMemory` the state is dropped.
pub fn resume(saved: Saved) -> Result<Stack, NoMemory>
    ensures stack { IfOk result (λ stack. stack ≡ resumed saved) }
{
    let bp = saved.globals.len();
    let mut cells = Pile::of(saved.globals)?;
    cells.push(Cell::Base(0))?;
    cells.append(saved.locals)?;
    Ok(Stack { cells, bp })
}
