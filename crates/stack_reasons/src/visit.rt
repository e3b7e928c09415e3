ghost use Rattle.std.specs.Prelude.{◌≡◌, ◌<◌, ◌^◌, ◌↔◌, IfOk, IsTrue, Some};
ghost use Rattle.ncs_code.specs.Plain.{plain, Retn};
ghost use Rattle.ncs_code.specs.File.{op_at};
ghost use Rattle.machine_rules.specs.Act.{next_place};
ghost use Rattle.stack_shape.specs.Rule.{IsOneStep, rule, top_first};
ghost use Rattle.stack_reasons.specs.Ways.{IsEnded};
ghost use Rattle.stack_reasons.specs.Walks.{IsLead, IsThere, IsVisited};

use crate::home::{Home, Judged, Spot};
use crate::leads::{Lead, leads_of};
use crate::reason::{Reason, Trouble};
use crate::shapes::copy_shape;
use ncs_code::Op;
use nwq_value::NoMemory;
use stack_shape::{Entry, Shape, step};
use std::alloc::Global;

/// What one place of a routine came to.
#[derive(Drop)]
pub enum Visited {
    /// Nothing follows.
    Nothing,
    Wrong(Trouble),
    /// What is wrong in a routine that is called there.
    Found(Reason),
    One(Spot),
    Two(Spot, Spot),
    /// The routine ends there.
    Returned,
}

/// The places to which an instruction leads, with the shape after it.
#[tactic(auto, using(crate::proofs::Walking::stepping))]
fn spread(
    alloc: Global,
    judged: &Judged<'_>,
    home: &Home,
    spot: &Spot,
    op: &Op<'_>,
    lead: Lead,
    after: Shape,
) -> Result<Visited, NoMemory>
    requires there { IsThere judged.now.table.now judged.now.code.now home.now spot.now }
    requires op { op_at judged.now.code.now spot.now.place ≡ Some (plain op.now) }
    requires one { IsOneStep (plain op.now) }
    requires after { rule judged.now.table.now (plain op.now) (top_first spot.now.shape)
        ≡ Some (top_first after) }
    requires lead { IsLead spot.now.place (plain op.now) lead }
    ensures { IfOk result (λ visited. IsVisited judged.now.table.now judged.now.code.now home.now
        spot.now visited) }
{
    let _ = judged;
    let _ = home;
    let _ = spot;
    let _ = op;
    match lead {
        Lead::One(place) => Ok(Visited::One(Spot {
            place,
            shape: after,
        })),
        Lead::Two(first, second) => {
            let shape = copy_shape(alloc, &after)?;
            let first = Spot {
                place: first,
                shape,
            };
            let second = Spot {
                place: second,
                shape: after,
            };
            Ok(Visited::Two(first, second))
        }
    }
}

/// An instruction with a rule of one shape.
#[tactic(auto, using(crate::proofs::Walking::stepping))]
pub fn stepped(
    alloc: Global,
    judged: &Judged<'_>,
    home: &Home,
    spot: &Spot,
    op: &Op<'_>,
    next: u32,
) -> Result<Visited, NoMemory>
    requires there { IsThere judged.now.table.now judged.now.code.now home.now spot.now }
    requires op { op_at judged.now.code.now spot.now.place ≡ Some (plain op.now) }
    requires one { IsOneStep (plain op.now) }
    requires next { next ≡ next_place spot.now.place (plain op.now) }
    requires bound { spot.now.place < 2 ^ 31 }
    ensures { IfOk result (λ visited. IsVisited judged.now.table.now judged.now.code.now home.now
        spot.now visited) }
{
    if spot.shape.pending >= 0x8000_0000 {
        return Ok(Visited::Nothing);
    }
    match step(alloc, op, &spot.shape, judged.table)? {
        None => Ok(Visited::Wrong(Trouble::NoRule)),
        Some(after) => {
            let lead = leads_of(op, spot.place, next);
            spread(alloc, judged, home, spot, op, lead, after)
        }
    }
}

/// Whether each SAVEBP is ended, and no state is pending.
#[tactic(auto, using(crate::proofs::Walking::ending))]
fn is_ended(shape: &Shape) -> bool
    ensures { IsTrue result ↔ IsEnded (top_first shape.now) }
{
    shape.saved.is_empty() && shape.pending == 0
}

/// RETN.
#[tactic(auto, using(crate::proofs::Walking::returning))]
pub fn returned(judged: &Judged<'_>, home: &Home, spot: &Spot) -> Visited
    requires there { IsThere judged.now.table.now judged.now.code.now home.now spot.now }
    requires op { op_at judged.now.code.now spot.now.place ≡ Some Retn }
    ensures { IsVisited judged.now.table.now judged.now.code.now home.now spot.now result }
{
    let _ = judged;
    match home.entry {
        Entry::Start => Visited::Nothing,
        Entry::Stored(_) => Visited::Nothing,
        Entry::Called(_) => {
            if is_ended(&spot.shape) {
                Visited::Returned
            } else {
                Visited::Wrong(Trouble::NotEnded)
            }
        }
    }
}
