ghost use Rattle.std.specs.Prelude.{◌≡◌, ◌<◌, ◌≤◌, ◌-◌, [], ◌∷◌, ◌++◌, length, take, drop};
ghost use Rattle.std.specs.Prelude.{slice_get, true, false};
ghost use Rattle.std.specs.Prelude.{slice_set, Some, OnOk, OnErr, IfOk, IfSome, IsTrue, ◌+◌, ◌^◌};
ghost use Rattle.std.specs.Vec.{vec_len, vec_capacity};
ghost use Rattle.std.specs.Prelude.{if◌then◌else◌};
ghost use Rattle.saved_state.specs.Cells.{run_written};
ghost use Rattle.saved_state.specs.Kept.{EndsPlainly, OwnsFew, listed, owns_nothing};
ghost use Rattle.nwq_value.specs.declared.value.Value.TheVariants.{Int as IntValue};
ghost use Rattle.nwq_value.specs.declared.value.Value.TheVariants.{Object as ObjectValue};
ghost use Rattle.saved_state.specs.declared.cell.Cell.TheVariants.{Value as ValueCell};

use crate::cell::Cell;
use crate::cells::{Cells, Kept};
use crate::pages::Pages;
use crate::piece::copies;
use nwq_value::{NoMemory, Value};
use std::alloc::Global;
use std::marker::Model;
use std::mem;
use std::mem::ManuallyDrop;

/// The most cells that the pages of a pile hold, so that lengths can be added.
const MOST_LOW: usize = 0x4000_0000_0000_0000;

/// The most cells that are copied where their pages could be shared: to make pages of so few, and
/// copies of these once they are written, takes longer.
const FEW: usize = 16;

/// Cells of which the topmost are in a list that nobody shares, so that a push or a drop there is
/// no more than a comparison and a store.
pub struct Pile {
    low: Pages,
    top: Vec<Cell>,
}

impl Model for Pile {
    ghost use Rattle.std.specs.Prelude.{List, ◌<◌, ◌^◌, ◌++◌, length};
    ghost use Rattle.saved_state.specs.declared.cell.Cell.{Cell};

    ghost Value = { List Cell };

    ghost view = { λ p. p.low ++ p.top.items };

    ghost invariant = { λ p. length p.low < 2 ^ 62 };
}

impl Drop for Pile {
    fn drop(self) {
        let Pile { low, top } = self;
        drop(low);
        drop(top);
    }
}

impl Pile {
    /// No cells; takes no memory.
    pub fn new(alloc: Global) -> Pile
        ensures empty { result ≡ [] }
    {
        Pile {
            low: Pages::new(alloc),
            top: Vec::new(alloc),
        }
    }

    /// These cells, with room for a few more on top.
    pub fn of(cells: Cells) -> Result<Pile, NoMemory>
        ensures cells { IfOk result (λ pile. pile ≡ cells) }
    {
        match cells.kept {
            Kept::Own(cells) => Pile::of_own(cells),
            Kept::Shared(low) => Pile::of_pages(low),
        }
    }

    /// The cells of these pages, which stay where they are.
    #[tactic(auto, using(crate::proofs::Piles::alone))]
    fn of_pages(low: Pages) -> Result<Pile, NoMemory>
        ensures cells { IfOk result (λ pile. pile ≡ low) }
    {
        if low.len() >= MOST_LOW {
            drop(low);
            return Err(NoMemory);
        }
        let top = Vec::with_capacity(low.allocator(), FEW)?;
        Ok(Pile { low, top })
    }

    /// The cells are moved, since a list that grows costs more than a new one.
    fn of_own(cells: Vec<Cell>) -> Result<Pile, NoMemory>
        ensures cells { IfOk result (λ pile. pile ≡ cells.items) }
    {
        let mut cells = cells;
        let mut top = Vec::with_capacity(*cells.allocator(), FEW)?;
        top.append(&mut cells)?;
        let low = Pages::new(*top.allocator());
        Ok(Pile { low, top })
    }

    /// How many cells there are.
    #[inline(always)]
    #[tactic(auto, using(crate::proofs::Piles::size_is))]
    pub fn len(&self) -> usize
        ensures count { result ≡ length self.now }
    {
        self.low.len() + self.top.len()
    }

    /// Puts a cell on top. After `NoMemory` it is dropped and the cells are as before.
    #[inline(always)]
    #[tactic(auto, using(crate::proofs::Piles::pushed_is))]
    pub fn push(&mut self, cell: Cell) -> Result<(), NoMemory>
        ensures ok { OnOk result (self.new ≡ self.old ++ cell ∷ []) }
        ensures err { OnErr result (self.new ≡ self.old) }
    {
        if self.top.len() == self.top.capacity() {
            match make_room(&mut self.top, 1) {
                Ok(()) => {}
                Err(error) => {
                    let_go(cell);
                    return Err(error);
                }
            }
        }
        self.top.push_reserved(cell);
        Ok(())
    }

    /// Puts copies of so many cells on top, over which so many others lie. After `NoMemory` some of
    /// them may be there.
    #[inline(never)]
    #[tactic(auto, using(crate::proofs::Piles::run_lemmas))]
    pub fn push_copies(&mut self, above: usize, count: usize) -> Result<(), NoMemory>
        requires inside { above + count ≤ length self.old }
        ensures ok { OnOk result (self.new ≡ self.old
            ++ take count (drop (length self.old - (above + count)) self.old)) }
    {
        let all = self.top.len();
        let len = self.len();
        if above + count <= all {
            make_room(&mut self.top, count)?;
            copy_up(&mut self.top, all - (above + count), count)
        } else {
            self.push_each(len - (above + count), count)
        }
    }

    /// The same one by one, from a place on.
    #[tactic(auto, using(crate::proofs::Piles::each_lemmas))]
    fn push_each(&mut self, first: usize, count: usize) -> Result<(), NoMemory>
        requires inside { first + count ≤ length self.old }
        ensures ok { OnOk result (self.new ≡ self.old ++ take count (drop first self.old)) }
    {
        let alloc = self.low.allocator();
        let len = self.len();
        for place in first..first + count {
            let copy = self.at(place).copy(alloc)?;
            self.push(copy)?;
        }
        Ok(())
    }

    /// The cell at a place.
    #[inline(always)]
    #[tactic(auto, using(crate::proofs::Piles::got_lemmas))]
    pub fn at(&self, place: usize) -> &Cell
        requires inside { place < length self.now }
        ensures cell { slice_get self.now place ≡ Some result.now }
    {
        let low = self.low.len();
        if low <= place {
            &self.top[place - low]
        } else {
            self.low.at(place)
        }
    }

    /// The cell over which so many others lie.
    #[inline(always)]
    #[tactic(auto, using(crate::proofs::Piles::down_lemmas))]
    pub fn down(&self, depth: usize) -> &Cell
        requires inside { depth < length self.now }
        ensures cell { slice_get self.now (length self.now - 1 - depth) ≡ Some result.now }
    {
        let count = self.top.len();
        if depth < count {
            &self.top[count - 1 - depth]
        } else {
            self.down_apart(depth)
        }
    }

    /// The same by a call of its own, so that the way of cells on top stays short.
    #[inline(never)]
    fn down_apart(&self, depth: usize) -> &Cell
        requires inside { depth < length self.now }
        ensures cell { slice_get self.now (length self.now - 1 - depth) ≡ Some result.now }
    {
        self.at(self.len() - 1 - depth)
    }

    /// The int over which so many others lie, where it is among the cells on top: whoever asks has
    /// a way of its own for other cells, and so a short one for ints.
    #[inline(always)]
    #[tactic(auto, using(crate::proofs::Piles::down_lemmas))]
    pub fn int_near(&self, depth: usize) -> Option<i32>
        ensures int { IfSome result (λ n. slice_get self.now (length self.now - 1 - depth)
            ≡ Some (ValueCell (IntValue n))) }
        ensures inside { IfSome result (λ _n. depth < length self.now) }
    {
        let count = self.top.len();
        if depth >= count {
            return None;
        }
        match &self.top[count - 1 - depth] {
            Cell::Value(Value::Int(n)) => Some(*n),
            _ => None,
        }
    }

    /// Replaces the cell at a place. After `NoMemory` the new one is dropped and the cells are as
    /// before.
    #[inline(always)]
    #[tactic(auto, using(crate::proofs::Piles::set_lemmas))]
    pub fn set(&mut self, place: usize, cell: Cell) -> Result<(), NoMemory>
        requires inside { place < length self.old }
        ensures ok { OnOk result (self.new ≡ slice_set self.old place cell) }
        ensures err { OnErr result (self.new ≡ self.old) }
    {
        let low = self.low.len();
        if low <= place {
            put_over(&mut self.top, place - low, cell);
            Ok(())
        } else {
            self.low.set(place, cell)
        }
    }

    /// Replaces the cell over which so many others lie, in the same way.
    #[inline(always)]
    #[tactic(auto, using(crate::proofs::Piles::set_down_lemmas))]
    pub fn set_down(&mut self, depth: usize, cell: Cell) -> Result<(), NoMemory>
        requires inside { depth < length self.old }
        ensures ok { OnOk result
            (self.new ≡ slice_set self.old (length self.old - 1 - depth) cell) }
        ensures err { OnErr result (self.new ≡ self.old) }
    {
        let count = self.top.len();
        if depth < count {
            put_over(&mut self.top, count - 1 - depth, cell);
            Ok(())
        } else {
            self.set_apart(depth, cell)
        }
    }

    /// The same by a call of its own.
    #[inline(never)]
    fn set_apart(&mut self, depth: usize, cell: Cell) -> Result<(), NoMemory>
        requires inside { depth < length self.old }
        ensures ok { OnOk result
            (self.new ≡ slice_set self.old (length self.old - 1 - depth) cell) }
        ensures err { OnErr result (self.new ≡ self.old) }
    {
        let place = self.len() - 1 - depth;
        self.set(place, cell)
    }

    /// Writes copies of so many cells, over which `from` lie, onto those over which `onto` lie, the
    /// lowest first. `false` says that nothing was done, since not all of them are on top. After
    /// `NoMemory` some of them may be written.
    #[inline(always)]
    #[tactic(auto, using(crate::proofs::Runs::written_on_top))]
    pub fn copy_down(&mut self, from: usize, onto: usize, count: usize) -> Result<bool, NoMemory>
        requires order { from ≤ onto }
        requires inside { onto + count ≤ length self.old }
        ensures ok { IfOk result (λ done. self.new ≡ (if done then run_written
            (length self.old - (onto + count)) (length self.old - (from + count)) count self.old
            else self.old)) }
    {
        let all = self.top.len();
        if onto + count > all {
            return Ok(false);
        }
        write_run(
            &mut self.top,
            all - (from + count),
            all - (onto + count),
            count,
        )?;
        Ok(true)
    }

    /// Drops the topmost cell.
    #[inline(always)]
    #[tactic(auto, using(crate::proofs::Piles::less_lemmas))]
    pub fn drop_one(&mut self)
        requires some { 0 < length self.old }
        ensures left { self.new ≡ take (length self.old - 1) self.old }
    {
        if self.top.len() > 0 {
            drop_last(&mut self.top);
        } else {
            self.drop_top(1);
        }
    }

    /// Puts a cell in the place of the two topmost ones, of which the upper one owns no memory.
    /// `false` says that it was dropped, since not both are in the list on top.
    #[inline(always)]
    #[tactic(auto, using(crate::proofs::Folds::fold_lemmas))]
    pub fn fold_near(&mut self, cell: Cell) -> bool
        requires plain { EndsPlainly self.old }
        ensures folded { result ≡ true → self.new ≡ take (length self.old - 1)
            (slice_set self.old (length self.old - 2) cell) }
        ensures two { result ≡ true → 2 ≤ length self.old }
        ensures same { result ≡ false → self.new ≡ self.old }
    {
        if self.top.len() < 2 {
            return false;
        }
        fold_top(&mut self.top, cell);
        true
    }

    /// Drops so many of the topmost cells.
    #[inline(always)]
    #[tactic(auto, using(crate::proofs::Piles::less_lemmas))]
    pub fn drop_top(&mut self, n: usize)
        requires inside { n ≤ length self.old }
        ensures left { self.new ≡ take (length self.old - n) self.old }
    {
        let count = self.top.len();
        if n <= count {
            keep_first(&mut self.top, count - n);
        } else {
            drop_low(&mut self.low, &mut self.top, n);
        }
    }

    /// Puts the cells of a list last. After `NoMemory` they are dropped.
    #[tactic(auto, using(crate::proofs::Piles::settled_lemmas))]
    pub fn append(&mut self, other: Cells) -> Result<(), NoMemory>
        ensures ok { OnOk result (self.new ≡ self.old ++ other) }
    {
        match other.kept {
            Kept::Own(cells) => self.move_on_top(cells),
            Kept::Shared(pages) => {
                settle(&mut self.low, &mut self.top)?;
                join(&mut self.low, &pages)
            }
        }
    }

    /// Moves cells on top. After `NoMemory` they are dropped.
    #[tactic(auto, using(crate::proofs::Piles::moved_is))]
    fn move_on_top(&mut self, cells: Vec<Cell>) -> Result<(), NoMemory>
        ensures ok { OnOk result (self.new ≡ self.old ++ cells.items) }
    {
        let mut cells = cells;
        self.top.append(&mut cells)?;
        Ok(())
    }

    /// The cells from one place up to, and without, another: few of those on top as copies, others
    /// by pages that are shared from now on.
    pub fn part(&mut self, from: usize, to: usize) -> Result<Cells, NoMemory>
        requires order { from ≤ to }
        requires inside { to ≤ length self.old }
        ensures same { self.new ≡ self.old }
        ensures part { IfOk result (λ part. part ≡ drop from (take to self.old)) }
    {
        let kept = self.kept_part(from, to)?;
        Ok(Cells { kept })
    }

    /// The same, as they are kept.
    #[tactic(auto, using(crate::proofs::Piles::part_lemmas))]
    fn kept_part(&mut self, from: usize, to: usize) -> Result<Kept, NoMemory>
        requires order { from ≤ to }
        requires inside { to ≤ length self.old }
        ensures same { self.new ≡ self.old }
        ensures part { IfOk result (λ part. listed part ≡ drop from (take to self.old)) }
        ensures few { IfOk result OwnsFew }
    {
        let low = self.low.len();
        if to <= low {
            return Ok(Kept::Shared(self.low.part(from, to)?));
        }
        if low <= from && to - from <= FEW {
            let alloc = self.low.allocator();
            return Ok(Kept::Own(copies(alloc, &self.top[from - low..to - low])?));
        }
        settle(&mut self.low, &mut self.top)?;
        Ok(Kept::Shared(self.low.part(from, to)?))
    }
}

/// Makes room for so many more cells, and for a few at least, so that a list seldom grows again: a
/// call of its own, since it is rare.
#[inline(never)]
fn make_room(top: &mut Vec<Cell>, more: usize) -> Result<(), NoMemory>
    ensures same { top.new.items ≡ top.old.items }
    ensures room { OnOk result (vec_len top.new + more ≤ vec_capacity top.new) }
{
    let room = if more < FEW { FEW } else { more };
    top.reserve(room)?;
    Ok(())
}

/// Puts copies of so many cells last, from an index on.
#[tactic(auto, using(crate::proofs::Piles::copy_lemmas))]
fn copy_up(top: &mut Vec<Cell>, first: usize, count: usize) -> Result<(), NoMemory>
    requires inside { first + count ≤ length top.old.items }
    requires room { vec_len top.old + count ≤ vec_capacity top.old }
    ensures ok { OnOk result
        (top.new.items ≡ top.old.items ++ take count (drop first top.old.items)) }
{
    let alloc = *top.allocator();
    let len = top.len();
    for index in first..first + count {
        copy_last(alloc, top, index)?;
    }
    Ok(())
}

/// Puts a copy of the cell at an index last. Ints and objects are copied here.
#[inline(always)]
#[tactic(auto, using(crate::proofs::Piles::last_copy))]
fn copy_last(alloc: Global, top: &mut Vec<Cell>, index: usize) -> Result<(), NoMemory>
    requires inside { index < length top.old.items }
    requires room { vec_len top.old < vec_capacity top.old }
    ensures copied { OnOk result
        (top.new.items ≡ top.old.items ++ take 1 (drop index top.old.items)) }
    ensures len { OnOk result (vec_len top.new ≡ vec_len top.old + 1) }
    ensures capacity { OnOk result (vec_capacity top.new ≡ vec_capacity top.old) }
{
    match &top[index] {
        Cell::Value(Value::Int(n)) => {
            let copy = *n;
            top.push_reserved(Cell::Value(Value::Int(copy)));
            Ok(())
        }
        _ => copy_last_other(alloc, top, index),
    }
}

/// The same where it isn't an int: two tests are shorter than a jump table.
#[inline(always)]
#[tactic(auto, using(crate::proofs::Piles::last_copy))]
fn copy_last_other(alloc: Global, top: &mut Vec<Cell>, index: usize) -> Result<(), NoMemory>
    requires inside { index < length top.old.items }
    requires room { vec_len top.old < vec_capacity top.old }
    ensures copied { OnOk result
        (top.new.items ≡ top.old.items ++ take 1 (drop index top.old.items)) }
    ensures len { OnOk result (vec_len top.new ≡ vec_len top.old + 1) }
    ensures capacity { OnOk result (vec_capacity top.new ≡ vec_capacity top.old) }
{
    match &top[index] {
        Cell::Value(Value::Object(n)) => {
            let copy = *n;
            top.push_reserved(Cell::Value(Value::Object(copy)));
            Ok(())
        }
        _ => copy_last_apart(alloc, top, index),
    }
}

/// The same by a call of its own.
#[inline(never)]
#[tactic(auto, using(crate::proofs::Piles::last_copy))]
fn copy_last_apart(alloc: Global, top: &mut Vec<Cell>, index: usize) -> Result<(), NoMemory>
    requires inside { index < length top.old.items }
    requires room { vec_len top.old < vec_capacity top.old }
    ensures copied { OnOk result
        (top.new.items ≡ top.old.items ++ take 1 (drop index top.old.items)) }
    ensures len { OnOk result (vec_len top.new ≡ vec_len top.old + 1) }
    ensures capacity { OnOk result (vec_capacity top.new ≡ vec_capacity top.old) }
{
    let copy = top[index].copy(alloc)?;
    top.push_reserved(copy);
    Ok(())
}

/// Writes copies of so many cells, from an index on, onto those from another index on that is no
/// greater, so that each is read before it is written.
#[inline(always)]
#[tactic(auto, using(crate::proofs::Runs::write_lemmas))]
fn write_run(top: &mut Vec<Cell>, first: usize, to: usize, count: usize) -> Result<(), NoMemory>
    requires order { to ≤ first }
    requires inside { first + count ≤ length top.old.items }
    ensures ok { OnOk result (top.new.items ≡ run_written to first count top.old.items) }
{
    let alloc = *top.allocator();
    let len = top.len();
    for index in 0..count {
        copy_over(alloc, top, first + index, to + index)?;
    }
    Ok(())
}

/// Puts a copy of a cell in the place of another one, which is dropped. Ints and objects are
/// copied here.
#[inline(always)]
#[tactic(auto, using(crate::proofs::Runs::one_put))]
fn copy_over(alloc: Global, top: &mut Vec<Cell>, from: usize, onto: usize) -> Result<(), NoMemory>
    requires from { from < length top.old.items }
    requires onto { onto < length top.old.items }
    ensures put { OnOk result (IfSome (slice_get top.old.items from)
        (λ cell. top.new.items ≡ slice_set top.old.items onto cell)) }
{
    match &top[from] {
        Cell::Value(Value::Int(n)) => {
            let copy = *n;
            put_int(top, onto, copy);
            Ok(())
        }
        _ => copy_over_other(alloc, top, from, onto),
    }
}

/// The same where it isn't an int.
#[inline(always)]
#[tactic(auto, using(crate::proofs::Runs::one_put))]
fn copy_over_other(
    alloc: Global,
    top: &mut Vec<Cell>,
    from: usize,
    onto: usize,
) -> Result<(), NoMemory>
    requires from { from < length top.old.items }
    requires onto { onto < length top.old.items }
    ensures put { OnOk result (IfSome (slice_get top.old.items from)
        (λ cell. top.new.items ≡ slice_set top.old.items onto cell)) }
{
    match &top[from] {
        Cell::Value(Value::Object(n)) => {
            let copy = *n;
            put_object(top, onto, copy);
            Ok(())
        }
        _ => copy_over_apart(alloc, top, from, onto),
    }
}

/// The same by a call of its own.
#[inline(never)]
#[tactic(auto, using(crate::proofs::Runs::one_put))]
fn copy_over_apart(
    alloc: Global,
    top: &mut Vec<Cell>,
    from: usize,
    onto: usize,
) -> Result<(), NoMemory>
    requires from { from < length top.old.items }
    requires onto { onto < length top.old.items }
    ensures put { OnOk result (IfSome (slice_get top.old.items from)
        (λ cell. top.new.items ≡ slice_set top.old.items onto cell)) }
{
    let copy = top[from].copy(alloc)?;
    put_over(top, onto, copy);
    Ok(())
}

/// Drops a cell that may own memory: a call of its own, so that the way of ints stays short.
#[inline(never)]
fn let_go(cell: Cell) {
    drop(cell);
}

/// Puts a cell in the place of another one, which is dropped.
#[inline(always)]
fn put_over(top: &mut Vec<Cell>, index: usize, cell: Cell)
    requires inside { index < length top.old.items }
    ensures put { top.new.items ≡ slice_set top.old.items index cell }
{
    match cell {
        Cell::Value(Value::Int(n)) => put_int(top, index, n),
        other => let_go(mem::replace(&mut top[index], other)),
    }
}

/// Puts an int in the place of a cell. Over another int it is no more than a store.
#[inline(always)]
fn put_int(top: &mut Vec<Cell>, index: usize, n: i32)
    requires inside { index < length top.old.items }
    ensures put { top.new.items ≡ slice_set top.old.items index (ValueCell (IntValue n)) }
{
    match &mut top[index] {
        Cell::Value(Value::Int(old)) => *old = n,
        other => let_go(mem::replace(other, Cell::Value(Value::Int(n)))),
    }
}

/// The same of an object.
#[inline(always)]
fn put_object(top: &mut Vec<Cell>, index: usize, n: u32)
    requires inside { index < length top.old.items }
    ensures put { top.new.items ≡ slice_set top.old.items index (ValueCell (ObjectValue n)) }
{
    match &mut top[index] {
        Cell::Value(Value::Object(old)) => *old = n,
        other => let_go(mem::replace(other, Cell::Value(Value::Object(n)))),
    }
}

/// Drops the last cell. That it holds an int is seen before the list changes, so that whoever has
/// read it doesn't look twice.
#[inline(always)]
fn drop_last(top: &mut Vec<Cell>)
    requires some { 0 < length top.old.items }
    ensures left { top.new.items ≡ take (length top.old.items - 1) top.old.items }
{
    if ends_with_int(top.as_slice()) {
        drop_plain(top);
    } else {
        drop_other(top);
    }
}

/// The same of any cell, by a call of its own.
#[inline(never)]
fn drop_other(top: &mut Vec<Cell>)
    requires some { 0 < length top.old.items }
    ensures left { top.new.items ≡ take (length top.old.items - 1) top.old.items }
{
    drop(top.take_last());
}

/// Whether a cell holds an int, and so owns no memory.
#[inline(always)]
fn is_int(cell: &Cell) -> bool
    ensures plain { IsTrue result → owns_nothing cell.now ≡ true }
{
    match cell {
        Cell::Value(Value::Int(_)) => true,
        _ => false,
    }
}

/// Whether the last cell holds an int.
#[inline(always)]
#[tactic(auto, using(crate::proofs::Lasts::int_lemmas))]
fn ends_with_int(top: &[Cell]) -> bool
    requires some { 0 < length top.now }
    ensures plain { IsTrue result → EndsPlainly top.now }
{
    is_int(&top[top.len() - 1])
}

/// Drops the last cell, which owns no memory, without a look at it.
#[inline(always)]
#[tactic(auto, using(crate::proofs::Lasts::some_last))]
fn drop_plain(top: &mut Vec<Cell>)
    requires last { EndsPlainly top.old.items }
    ensures left { top.new.items ≡ take (length top.old.items - 1) top.old.items }
{
    let _cell = ManuallyDrop::new(top.take_last());
}

/// Puts a cell in the place of the two last ones, of which the last one owns no memory. That one is
/// seen to be so before anything is written.
#[inline(always)]
#[tactic(auto, using(crate::proofs::Folds::last_lemmas))]
fn fold_top(top: &mut Vec<Cell>, cell: Cell)
    requires two { 2 ≤ length top.old.items }
    requires plain { EndsPlainly top.old.items }
    ensures folded { top.new.items ≡ take (length top.old.items - 1)
        (slice_set top.old.items (length top.old.items - 2) cell) }
{
    let lower = top.len() - 2;
    put_over(top, lower, cell);
    drop_plain(top);
}

/// Drops all cells but the `n` first ones.
#[inline(always)]
#[tactic(auto, using(crate::proofs::Piles::first_lemmas))]
fn keep_first(top: &mut Vec<Cell>, n: usize)
    requires inside { n ≤ length top.old.items }
    ensures kept { top.new.items ≡ take n top.old.items }
{
    let mut left = top.len() - n;
    while left > 0 {
        left -= 1;
        drop_last(top);
    }
}

/// Drops all cells on top, and so many of the others that `n` go: a call of its own, since it is
/// rare.
#[inline(never)]
fn drop_low(low: &mut Pages, top: &mut Vec<Cell>, n: usize)
    requires over { length top.old.items ≤ n }
    requires inside { n ≤ length low.old + length top.old.items }
    ensures low { low.new ≡ take (length low.old - (n - length top.old.items)) low.old }
    ensures few { length low.new ≤ length low.old }
    ensures top { top.new.items ≡ [] }
{
    let left = low.len() - (n - top.len());
    top.clear();
    low.truncate(left);
}

/// Puts the cells of other pages last. After `NoMemory` none are left.
fn join(low: &mut Pages, more: &Pages) -> Result<(), NoMemory>
    requires few { length low.old < 2 ^ 62 }
    ensures few { length low.new < 2 ^ 62 }
    ensures ok { OnOk result (low.new ≡ low.old ++ more.now) }
{
    if more.len() >= MOST_LOW - low.len() {
        return Err(NoMemory);
    }
    match low.append(more) {
        Ok(()) => Ok(()),
        Err(error) => {
            low.truncate(0);
            Err(error)
        }
    }
}

/// Moves cells onto pages, over those that stand there. After `NoMemory` both are as before.
#[tactic(auto, using(crate::proofs::Piles::copied_back))]
fn settle(low: &mut Pages, top: &mut Vec<Cell>) -> Result<(), NoMemory>
    requires few { length low.old < 2 ^ 62 }
    ensures few { length low.new < 2 ^ 62 }
    ensures moved { OnOk result (low.new ≡ low.old ++ top.old.items) }
    ensures none { OnOk result (top.new.items ≡ []) }
    ensures low { OnErr result (low.new ≡ low.old) }
    ensures top { OnErr result (top.new.items ≡ top.old.items) }
{
    let len = low.len();
    if top.len() >= MOST_LOW - len {
        return Err(NoMemory);
    }
    match put_copies(low, top.as_slice()) {
        Ok(()) => {
            top.clear();
            Ok(())
        }
        Err(error) => {
            low.truncate(len);
            Err(error)
        }
    }
}

/// Puts copies of these cells last. After `NoMemory` some of them may be there.
fn put_copies(low: &mut Pages, top: &[Cell]) -> Result<(), NoMemory>
    ensures put { OnOk result (low.new ≡ low.old ++ top.now) }
    ensures kept { take (length low.old) low.new ≡ low.old }
    ensures longer { length low.old ≤ length low.new }
{
    let alloc = low.allocator();
    for cell in top {
        let copy = cell.copy(alloc)?;
        low.push(copy)?;
    }
    Ok(())
}
