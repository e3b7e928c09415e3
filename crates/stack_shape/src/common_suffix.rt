ghost use Rattle.std.specs.Prelude.{◌≡◌, ◌≢◌, ◌<◌, slice_get, [], IfOk, reverse, take, length, ◌≤◌};
ghost use Rattle.stack_shape.specs.Suffix.{LongestSuffix};

use crate::shape::{Shape, Slot, Slots, Unders};
use crate::top_first::same_at;
use nwq_value::NoMemory;
use std::alloc::Global;

/// How many slots from the top are the same in both lists.
#[tactic(auto, using(crate::proofs::Tops::take_next))]
fn common_count(a: &[Slot], b: &[Slot]) -> usize
    ensures first { result ≤ length a.now }
    ensures second { result ≤ length b.now }
    ensures same { take result (reverse a.now) ≡ take result (reverse b.now) }
    ensures last { result < length a.now → result < length b.now
        → slice_get (reverse a.now) result ≢ slice_get (reverse b.now) result }
{
    let mut count = 0;
    while count < a.len() && count < b.len() && same_at(a, b, count) {
        count += 1;
    }
    count
}

/// The longest list that both lists end with.
fn longest_suffix(alloc: Global, a: &[Slot], b: &[Slot]) -> Result<Slots, NoMemory>
    ensures { IfOk result (λ common. LongestSuffix a.now b.now common) }
{
    Slots::of_slice(alloc, &a[a.len() - common_count(a, b)..])
}

/// What two shapes have in common from the top: the longest lists with which the cells of both end,
/// and with which what is beneath BP ends in both, and nothing saved or pending.
pub fn suffix(alloc: Global, a: &Shape, b: &Shape) -> Result<Shape, NoMemory>
    ensures cells { IfOk result (λ common. LongestSuffix a.now.cells b.now.cells common.cells) }
    ensures under { IfOk result (λ common. LongestSuffix a.now.under b.now.under common.under) }
    ensures saved { IfOk result (λ common. common.saved ≡ []) }
    ensures pending { IfOk result (λ common. common.pending ≡ 0) }
{
    Ok(Shape {
        cells: longest_suffix(alloc, a.cells.as_slice(), b.cells.as_slice())?,
        under: longest_suffix(alloc, a.under.as_slice(), b.under.as_slice())?,
        saved: Unders::new(alloc),
        pending: 0,
    })
}
