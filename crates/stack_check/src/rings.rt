ghost use Rattle.std.specs.Prelude.{◌≡◌, ◌<◌, ◌^◌, IfSome, IsTrue, ◌↔◌, true};
ghost use Rattle.stack_rules.specs.Rules.{WellStacked};
ghost use Rattle.stack_check.specs.Inference.{IsCall, Keeps};
ghost use Rattle.stack_check.specs.Rings.{IsCalledAt, IsEdge, IsEdgeFrom, IsWay};

use crate::facts::{Facts, Trial};
use crate::judged::Judged;
use crate::visit::end_of;
use ncs_code::{Op, jump_place};
use stack_lists::{Heap, Held, Side, Todo};

/// A list of a trial.
#[derive(Clone, Copy, PartialEq, Eq)]
pub struct Window {
    pub trial: u32,
    pub side: Side,
}

/// A way along calls from one list to another. In every table the slots beneath the one's own and
/// `down` more are no more than those beneath the other's and `up` more.
#[derive(Clone, Copy)]
pub struct Way {
    pub from: Window,
    pub to: Window,
    pub up: u64,
    pub down: u64,
}

/// One call: which list of the called routine's, how many slots the caller has in that list, and
/// how many the routine's trial began with.
#[derive(Clone, Copy)]
pub struct Edge {
    pub side: Side,
    pub up: u32,
    pub down: u32,
}

/// The routine that the instruction at a place calls.
fn target_at(judged: &Judged<'_>, place: u32) -> Option<u32>
    ensures { IfSome result (λ target. IsCall judged.now.code.now place target) }
{
    match judged.code.op_at(place) {
        None => None,
        Some((op, size)) => {
            let _next = end_of(judged.code, &op, place, size);
            match op {
                Op::Jsr { offset } => Some(jump_place(place, offset)),
                _ => None,
            }
        }
    }
}

/// The trial that counts for the routine that is called at a place.
#[tactic(auto, using(crate::proofs::RingLemmas::calling))]
fn called_at(judged: &Judged<'_>, facts: &Facts, place: u32) -> Option<u32>
    ensures { IfSome result (λ number. IsCalledAt judged.now.code.now facts.now place number) }
{
    match target_at(judged, place) {
        None => None,
        Some(target) => {
            let number = facts.called.get(target);
            if number == 0 { None } else { Some(number) }
        }
    }
}

/// A call, seen from one kind of list to the same kind.
fn edge_on(heap: &Heap, held: Held, callee: Trial, side: Side) -> Edge
    ensures { IsEdge heap.now held callee side result }
{
    match side {
        Side::Cells => Edge {
            side,
            up: heap.slots.depth(held.cells),
            down: heap.slots.depth(callee.taken),
        },
        Side::Under => Edge {
            side,
            up: heap.slots.depth(held.under),
            down: heap.slots.depth(callee.under),
        },
    }
}

/// Whether the first edge leaves no more unseen than the second.
fn leaves_less(first: Edge, unseen: u32, second: Edge, other: u32) -> bool {
    first.up as u64 + unseen as u64 + second.down as u64
        <= second.up as u64 + other as u64 + first.down as u64
}

/// The call that had a window of the caller's grow, to the list that lies on it.
#[tactic(auto, using(crate::proofs::RingLemmas::is_edge_from))]
fn edge_from(heap: &Heap, held: Held, callee: Trial, side: Side) -> Option<Edge>
    ensures { IfSome result (λ edge. IsEdgeFrom heap.now held callee side edge) }
{
    let first = heap.saved.is_empty(held.saved);
    match side {
        Side::Under => {
            if first {
                Some(edge_on(heap, held, callee, Side::Under))
            } else {
                None
            }
        }
        Side::Cells => {
            let cells = edge_on(heap, held, callee, Side::Cells);
            if first {
                return Some(cells);
            }
            let under = edge_on(heap, held, callee, Side::Under);
            if leaves_less(cells, callee.unseen.cells, under, callee.unseen.under) {
                Some(cells)
            } else {
                Some(under)
            }
        }
    }
}

/// The same way and one call further: the one that made the window grow last.
#[tactic(auto, using(crate::proofs::RingLemmas::following))]
fn next_way(judged: &Judged<'_>, heap: &Heap, facts: &Facts, todo: &Todo, way: Way) -> Option<Way>
    requires keeps { Keeps judged.now.table.now judged.now.code.now heap.now facts.now }
    requires way { IsWay judged.now.table.now judged.now.code.now heap.now facts.now way }
    ensures { IfSome result (λ next. IsWay judged.now.table.now judged.now.code.now heap.now
        facts.now next) }
{
    if way.up >= 1 << 62 || way.down >= 1 << 62 {
        return None;
    }
    let place = todo.growth(way.to.trial, way.to.side);
    match facts.rows.find(way.to.trial, place) {
        None => None,
        Some(held) => match called_at(judged, facts, place) {
            None => None,
            Some(number) => match facts.trials.get(number as usize) {
                None => None,
                Some(callee) => match edge_from(heap, held, *callee, way.to.side) {
                    None => None,
                    Some(edge) => Some(Way {
                        from: way.from,
                        to: Window {
                            trial: number,
                            side: edge.side,
                        },
                        up: way.up + edge.up as u64,
                        down: way.down + edge.down as u64,
                    }),
                },
            },
        },
    }
}

/// The way of no call, from a list to itself.
#[tactic(auto, using(crate::proofs::RingLemmas::turning))]
fn no_way(judged: &Judged<'_>, heap: &Heap, facts: &Facts, at: Window) -> Option<Way>
    ensures { IfSome result (λ way. IsWay judged.now.table.now judged.now.code.now heap.now
        facts.now way) }
{
    let _ = judged;
    let _ = heap;
    match facts.trials.get(at.trial as usize) {
        None => None,
        Some(_) => Some(Way {
            from: at,
            to: at,
            up: 0,
            down: 0,
        }),
    }
}

/// The way from where this one ends, where one begins anew there.
fn renewed(judged: &Judged<'_>, heap: &Heap, facts: &Facts, way: Way, anew: bool) -> Way
    requires way { IsWay judged.now.table.now judged.now.code.now heap.now facts.now way }
    ensures { IsWay judged.now.table.now judged.now.code.now heap.now facts.now result }
{
    if !anew {
        return way;
    }
    match no_way(judged, heap, facts, way.to) {
        None => way,
        Some(way) => way,
    }
}

fn same_window(a: Window, b: Window) -> bool
    ensures { IsTrue result ↔ (a ≡ b) }
{
    a == b
}

/// Whether a way comes back to where it began.
fn is_round(way: Way) -> bool
    ensures { result ≡ true → way.from ≡ way.to }
{
    same_window(way.from, way.to)
}

/// Whether the windows on this way, which calls made grow last, grow for ever: the way comes back
/// to a list, and more lies beneath it than beneath itself. It begins anew at each power of two, so
/// a round that lies further on is found.
#[tactic(auto, using(crate::proofs::RingLemmas::turning))]
fn search(judged: &Judged<'_>, heap: &Heap, facts: &Facts, todo: &Todo, first: Way) -> bool
    requires keeps { Keeps judged.now.table.now judged.now.code.now heap.now facts.now }
    requires way { IsWay judged.now.table.now judged.now.code.now heap.now facts.now first }
    ensures none { result ≡ true → WellStacked judged.now.table.now judged.now.code.now → ⊥ }
{
    let most = (facts.trials.len() as u64).saturating_mul(8);
    let mut way = first;
    let mut due = 1u64;
    let mut count = 0u64;
    while count < most {
        match next_way(judged, heap, facts, todo, way) {
            None => return false,
            Some(next) => {
                if is_round(next) {
                    return next.up < next.down;
                }
                way = renewed(judged, heap, facts, next, count == due);
            }
        }
        if count == due {
            due = due.saturating_mul(2);
        }
        count += 1;
    }
    false
}

/// Whether a window that a call made grow grows for ever.
pub fn grows_for_ever(
    judged: &Judged<'_>,
    heap: &Heap,
    facts: &Facts,
    todo: &Todo,
    window: Window,
) -> bool
    requires keeps { Keeps judged.now.table.now judged.now.code.now heap.now facts.now }
    ensures none { result ≡ true → WellStacked judged.now.table.now judged.now.code.now → ⊥ }
{
    match no_way(judged, heap, facts, window) {
        None => false,
        Some(way) => search(judged, heap, facts, todo, way),
    }
}
