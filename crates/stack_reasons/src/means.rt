ghost use Rattle.std.specs.Prelude.{◌≡◌, IfSome};
ghost use Rattle.stack_reasons.specs.Walks.{AreThere, IsThere};

use crate::home::{Home, Judged, Spot};
use ncs_file::{Code, store};
use nwq_value::NoMemory;
use stack_shape::Shape;
use std::alloc::Global;

/// At most so many steps are made.
const MOST_STEPS: u32 = 1_000_000;

/// So many steps are made of small code too.
const FIRST_STEPS: u32 = 1_000;

/// At most so many slots are copied, so that large stacks cost no more than many steps.
const MOST_SLOTS: usize = 0x100_0000;

/// What a search may still spend, and where a place was kept that was looked at.
#[derive(Drop)]
pub struct Means {
    steps: u32,
    slots: usize,
    /// For each place of the file one more than its index among the places that were seen last. It
    /// is only a hint, since a routine that calls itself writes over it.
    marks: Vec<u32>,
}

/// All that a search of this code may spend: a thousand steps, and four for each instruction.
pub fn all_means(alloc: Global, code: &Code) -> Result<Means, NoMemory> {
    let most = code.count().saturating_mul(4).saturating_add(FIRST_STEPS);
    let places = store(code).len();
    let mut marks = Vec::with_capacity(alloc, places)?;
    for _place in 0..places {
        marks.push(0)?;
    }
    Ok(Means {
        steps: if most < MOST_STEPS { most } else { MOST_STEPS },
        slots: MOST_SLOTS,
        marks,
    })
}

/// How many slots a copy of the shape takes.
fn size_of(shape: &Shape) -> usize {
    let mut size = shape.cells.len().saturating_add(shape.under.len());
    for under in shape.saved.as_slice() {
        size = size.saturating_add(under.len());
    }
    size
}

/// Whether a step on this shape can still be paid, which it then is.
pub fn pay(means: &mut Means, shape: &Shape) -> bool {
    let size = size_of(shape);
    if means.steps == 0 || means.slots < size {
        return false;
    }
    means.steps -= 1;
    means.slots -= size;
    true
}

/// Notes that the place is the next one to be kept.
pub fn mark(means: &mut Means, place: u32, seen: usize) {
    let at = place as usize;
    if at < means.marks.len() && seen < 0xFFFF_FFFF {
        means.marks[at] = seen as u32 + 1;
    }
}

/// What was seen at this place, if it is found by its mark.
#[tactic(auto, using(crate::proofs::Walking::knowing))]
pub fn known<'a>(
    judged: &Judged<'_>,
    home: &Home,
    seen: &'a [Spot],
    means: &Means,
    place: u32,
) -> Option<&'a Spot>
    requires seen { AreThere judged.now.table.now judged.now.code.now home.now seen.now }
    ensures there { IfSome result (λ spot. IsThere judged.now.table.now judged.now.code.now
        home.now spot.now) }
    ensures place { IfSome result (λ spot. spot.now.place ≡ place) }
{
    let _ = judged;
    let _ = home;
    let at = place as usize;
    if at >= means.marks.len() {
        return None;
    }
    let number = means.marks[at] as usize;
    if number == 0 || seen.len() < number {
        return None;
    }
    let spot = &seen[number - 1];
    if spot.place == place {
        Some(spot)
    } else {
        None
    }
}
