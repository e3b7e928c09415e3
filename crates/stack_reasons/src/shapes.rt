ghost use Rattle.std.specs.Prelude.{◌≡◌, ◌≢◌, ◌↔◌, ◌<◌, IfOk, IfSome, IsTrue, reverse, slice_get};
ghost use Rattle.std.specs.Prelude.{◌++◌, map, ℕ};
ghost use Rattle.stack_shape.specs.Rule.{top_first};
ghost use Rattle.stack_shape.specs.Stored.{stored_shape};
ghost use Rattle.stack_shape.specs.declared.shape.Slot.TheVariants.{Of};
ghost use Rattle.stack_reasons.specs.Ways.{entered, left_by};

use nwq_value::{NoMemory, Ty};
use stack_shape::{Shape, Slot, Slots, StoredTypes, Unders};
use std::alloc::Global;

/// Equal lists of slots.
fn copy_unders(alloc: Global, unders: &[Slots]) -> Result<Unders, NoMemory>
    ensures { IfOk result (λ copy. copy ≡ unders.now) }
{
    let mut copy = Unders::new(alloc);
    for under in unders {
        copy.push(Slots::of_slice(alloc, under.as_slice())?)?;
    }
    Ok(copy)
}

/// An equal shape.
pub fn copy_shape(alloc: Global, shape: &Shape) -> Result<Shape, NoMemory>
    ensures { IfOk result (λ copy. top_first copy ≡ top_first shape.now) }
{
    let cells = Slots::of_slice(alloc, shape.cells.as_slice())?;
    let under = Slots::of_slice(alloc, shape.under.as_slice())?;
    let saved = copy_unders(alloc, shape.saved.as_slice())?;
    Ok(Shape {
        cells,
        under,
        saved,
        pending: shape.pending,
    })
}

/// The shape with which a called routine begins on its caller's stack.
pub fn entered(alloc: Global, shape: &Shape) -> Result<Shape, NoMemory>
    ensures { IfOk result (λ first. top_first first ≡ entered (top_first shape.now)) }
{
    let cells = Slots::of_slice(alloc, shape.cells.as_slice())?;
    let under = Slots::of_slice(alloc, shape.under.as_slice())?;
    Ok(Shape {
        cells,
        under,
        saved: Unders::new(alloc),
        pending: 0,
    })
}

/// The shape with which its caller goes on, where it ends with the shape `last`.
pub fn left_by(alloc: Global, last: &Shape, shape: &Shape) -> Result<Shape, NoMemory>
    ensures { IfOk result (λ after. top_first after
        ≡ left_by (top_first last.now) (top_first shape.now)) }
{
    let cells = Slots::of_slice(alloc, last.cells.as_slice())?;
    let under = Slots::of_slice(alloc, shape.under.as_slice())?;
    let saved = copy_unders(alloc, shape.saved.as_slice())?;
    Ok(Shape {
        cells,
        under,
        saved,
        pending: shape.pending,
    })
}

/// Puts values of these types on top, the last first.
#[tactic(auto, using(crate::proofs::Walking::put_types))]
fn put_types(slots: &mut Slots, types: &[Ty]) -> Result<(), NoMemory>
    ensures { IfOk result (λ _. reverse slots.new ≡ map Of types.now ++ reverse slots.old) }
{
    let mut i = types.len();
    while i > 0 {
        i -= 1;
        slots.push(Slot::Of(types[i]))?;
    }
    Ok(())
}

/// The shape with which what a STORE_STATE stores resumes.
#[tactic(auto, using(crate::proofs::Walking::stored))]
pub fn stored_shape(alloc: Global, types: &StoredTypes) -> Result<Shape, NoMemory>
    ensures { IfOk result (λ first. top_first first ≡ stored_shape types.now) }
{
    let mut under = Slots::new(alloc);
    put_types(&mut under, types.globals.as_slice())?;
    let mut cells = Slots::of_slice(alloc, under.as_slice())?;
    cells.push(Slot::Base)?;
    put_types(&mut cells, types.locals.as_slice())?;
    Ok(Shape {
        cells,
        under,
        saved: Unders::new(alloc),
        pending: 0,
    })
}

/// The slot at a depth, counted from 0 at the top.
fn slot_at(slots: &[Slot], depth: usize) -> Option<Slot>
    ensures { result ≡ slice_get (reverse slots.now) depth }
{
    if depth < slots.len() {
        Some(slots[slots.len() - 1 - depth])
    } else {
        None
    }
}

/// Whether both lists have the same slot at a depth, or neither has one.
fn same_at(a: &[Slot], b: &[Slot], depth: usize) -> bool
    ensures { IsTrue result ↔ (slice_get (reverse a.now) depth ≡ slice_get (reverse b.now) depth) }
{
    match (slot_at(a, depth), slot_at(b, depth)) {
        (Some(a), Some(b)) => a == b,
        (None, None) => true,
        (Some(_), None) => false,
        (None, Some(_)) => false,
    }
}

/// The first depth at which the lists differ, counted from 0 at their tops, if there is one.
pub fn first_difference(a: &[Slot], b: &[Slot]) -> Option<usize>
    ensures differ { IfSome result (λ depth. slice_get (reverse a.now) depth
        ≢ slice_get (reverse b.now) depth) }
    ensures first { IfSome result (λ depth. (above : ℕ) → above < depth
        → slice_get (reverse a.now) above ≡ slice_get (reverse b.now) above) }
{
    let most = if a.len() < b.len() { b.len() } else { a.len() };
    for depth in 0..most {
        if !same_at(a, b, depth) {
            return Some(depth);
        }
    }
    None
}

/// Whether the cells are seen to differ.
#[tactic(auto, using(crate::proofs::Walking::differing))]
pub fn cells_differ(a: &Shape, b: &Shape) -> bool
    ensures { IsTrue result → (reverse a.now.cells ≡ reverse b.now.cells) → ⊥ }
{
    first_difference(a.cells.as_slice(), b.cells.as_slice()).is_some()
}

/// Whether the shapes are seen to differ, in their cells or beneath BP.
#[tactic(auto, using(crate::proofs::Walking::differing))]
pub fn shapes_differ(a: &Shape, b: &Shape) -> bool
    ensures { IsTrue result → (top_first a.now ≡ top_first b.now) → ⊥ }
{
    if first_difference(a.cells.as_slice(), b.cells.as_slice()).is_some() {
        return true;
    }
    first_difference(a.under.as_slice(), b.under.as_slice()).is_some() || a.pending != b.pending
}
