ghost use Rattle.std.specs.Prelude.{◌≡◌, ◌<◌, ◌^◌, IfOk, IfSome, Some};
ghost use Rattle.ncs_code.specs.Plain.{StoreState, plain};
ghost use Rattle.ncs_code.specs.File.{op_at};
ghost use Rattle.machine_rules.specs.Act.{next_place};
ghost use Rattle.stack_reasons.specs.Reasons.{IsReason};
ghost use Rattle.stack_reasons.specs.Walks.{Enters, GoesInto, IsHome, IsLast, IsThere, IsTurned};
ghost use Rattle.stack_reasons.specs.Walks.{IsVisited, IsWalked, TrailFits};

use crate::home::{Home, Judged, Spot};
use crate::leads::{Kind, end_of, kind_of};
use crate::means::{Means, known, mark, pay};
use crate::reason::{Reason, Trouble};
use crate::shapes::{entered, left_by, stored_shape};
use crate::trail::{Trail, Turned, Walked, again, begin, settle, take};
use crate::visit::{Visited, returned, stepped};
use ncs_code::Op;
use nwq_value::NoMemory;
use stack_shape::{Entry, stored_types};
use std::alloc::Global;

/// More turns than any search takes.
const MOST_TURNS: u32 = 4_000_000;

/// The routine that a JSR calls, on the stack that is there.
#[tactic(auto, using(crate::proofs::Walking::calling))]
fn enter(
    alloc: Global,
    judged: &Judged<'_>,
    home: &Home,
    spot: &Spot,
    target: u32,
    next: u32,
) -> Result<Home, NoMemory>
    requires home { IsHome judged.now.table.now judged.now.code.now home.now }
    requires there { IsThere judged.now.table.now judged.now.code.now home.now spot.now }
    requires call { GoesInto judged.now.code.now spot.now.place target next }
    ensures home { IfOk result (λ callee. IsHome judged.now.table.now judged.now.code.now callee) }
    ensures enters { IfOk result (λ callee. Enters judged.now.code.now spot.now callee next) }
{
    let _ = judged;
    let _ = home;
    let _ = next;
    let first = entered(alloc, &spot.shape)?;
    Ok(Home {
        entry: Entry::Called(target),
        called_at: Some(spot.place),
        at: target,
        first,
    })
}

/// The place behind a call, with what the called routine leaves.
#[tactic(auto, using(crate::proofs::Walking::calling))]
fn leave(
    alloc: Global,
    judged: &Judged<'_>,
    home: &Home,
    spot: &Spot,
    callee: &Home,
    last: &Spot,
    next: u32,
) -> Result<Spot, NoMemory>
    requires there { IsThere judged.now.table.now judged.now.code.now home.now spot.now }
    requires enters { Enters judged.now.code.now spot.now callee.now next }
    requires last { IsLast judged.now.table.now judged.now.code.now callee.now last.now }
    ensures { IfOk result (λ after. IsThere judged.now.table.now judged.now.code.now home.now
        after) }
{
    let _ = judged;
    let _ = home;
    let _ = callee;
    let shape = left_by(alloc, &last.shape, &spot.shape)?;
    Ok(Spot { place: next, shape })
}

/// What a call comes to.
fn behind(
    alloc: Global,
    judged: &Judged<'_>,
    home: &Home,
    spot: &Spot,
    callee: &Home,
    walked: Walked,
    next: u32,
) -> Result<Visited, NoMemory>
    requires there { IsThere judged.now.table.now judged.now.code.now home.now spot.now }
    requires enters { Enters judged.now.code.now spot.now callee.now next }
    requires walked { IsWalked judged.now.table.now judged.now.code.now callee.now walked }
    ensures { IfOk result (λ visited. IsVisited judged.now.table.now judged.now.code.now home.now
        spot.now visited) }
{
    match walked {
        Walked::Found(reason) => Ok(Visited::Found(reason)),
        Walked::Ended(None) => Ok(Visited::Nothing),
        Walked::Ended(Some(last)) => {
            let after = leave(alloc, judged, home, spot, callee, &last, next);
            drop(last);
            match after {
                Err(error) => Err(error),
                Ok(after) => Ok(Visited::One(after)),
            }
        }
    }
}

/// JSR.
#[cycle(walk)]
fn call(
    alloc: Global,
    judged: &Judged<'_>,
    home: &Home,
    spot: &Spot,
    target: u32,
    next: u32,
    depth: u32,
    means: &mut Means,
) -> Result<Visited, NoMemory>
    requires home { IsHome judged.now.table.now judged.now.code.now home.now }
    requires there { IsThere judged.now.table.now judged.now.code.now home.now spot.now }
    requires call { GoesInto judged.now.code.now spot.now.place target next }
    ensures { IfOk result (λ visited. IsVisited judged.now.table.now judged.now.code.now home.now
        spot.now visited) }
{
    if depth == 0 {
        return Ok(Visited::Nothing);
    }
    let callee = enter(alloc, judged, home, spot, target, next)?;
    match walk(alloc, judged, &callee, depth - 1, means) {
        Err(error) => {
            drop(callee);
            Err(error)
        }
        Ok(walked) => {
            let visited = behind(alloc, judged, home, spot, &callee, walked, next);
            drop(callee);
            visited
        }
    }
}

/// What a STORE_STATE stores, with so many bytes of globals and of locals, if all of it is there.
#[tactic(auto, using(crate::proofs::Walking::storing))]
fn stored_home(
    alloc: Global,
    judged: &Judged<'_>,
    home: &Home,
    spot: &Spot,
    globals: u32,
    locals: u32,
) -> Result<Option<Home>, NoMemory>
    requires home { IsHome judged.now.table.now judged.now.code.now home.now }
    requires there { IsThere judged.now.table.now judged.now.code.now home.now spot.now }
    requires op { op_at judged.now.code.now spot.now.place ≡ Some (StoreState globals locals) }
    requires bound { spot.now.place < 2 ^ 31 }
    ensures home { IfOk result (λ stored. IfSome stored (λ stored. IsHome judged.now.table.now
        judged.now.code.now stored)) }
{
    let _ = judged;
    let _ = home;
    let under = spot.shape.under.as_slice();
    let cells = spot.shape.cells.as_slice();
    match stored_types(alloc, globals, locals, &under, &cells)? {
        None => Ok(None),
        Some(types) => {
            let first = stored_shape(alloc, &types);
            drop(types);
            Ok(Some(Home {
                entry: Entry::Stored(spot.place),
                called_at: None,
                at: spot.place + 16,
                first: first?,
            }))
        }
    }
}

/// A reason in what a STORE_STATE stores.
#[cycle(walk)]
fn store(
    alloc: Global,
    judged: &Judged<'_>,
    stored: &Home,
    depth: u32,
    means: &mut Means,
) -> Result<Option<Reason>, NoMemory>
    requires home { IsHome judged.now.table.now judged.now.code.now stored.now }
    ensures reason { IfOk result (λ reason. IfSome reason (λ reason. IsReason judged.now.table.now
        judged.now.code.now reason)) }
{
    if depth == 0 {
        return Ok(None);
    }
    match walk(alloc, judged, stored, depth - 1, means)? {
        Walked::Found(reason) => Ok(Some(reason)),
        Walked::Ended(last) => {
            drop(last);
            Ok(None)
        }
    }
}

/// An instruction at a place to which a run comes, and the place behind it.
#[derive(Clone, Copy)]
pub struct At<'a> {
    pub spot: &'a Spot,
    pub op: &'a Op<'a>,
    pub next: u32,
}

/// STORE_STATE, of so many bytes of globals and of locals.
#[cycle(walk)]
#[tactic(auto, using(crate::proofs::Walking::storing))]
fn visit_store(
    alloc: Global,
    judged: &Judged<'_>,
    home: &Home,
    at: &At<'_>,
    globals: u32,
    locals: u32,
    depth: u32,
    means: &mut Means,
) -> Result<Visited, NoMemory>
    requires home { IsHome judged.now.table.now judged.now.code.now home.now }
    requires there { IsThere judged.now.table.now judged.now.code.now home.now at.now.spot.now }
    requires op { op_at judged.now.code.now at.now.spot.now.place ≡ Some (plain at.now.op.now) }
    requires stores { plain at.now.op.now ≡ StoreState globals locals }
    requires next { at.now.next ≡ next_place at.now.spot.now.place (plain at.now.op.now) }
    requires bound { at.now.spot.now.place < 2 ^ 31 }
    ensures { IfOk result (λ visited. IsVisited judged.now.table.now judged.now.code.now home.now
        at.now.spot.now visited) }
{
    if let Some(stored) = stored_home(alloc, judged, home, at.spot, globals, locals)? {
        let reason = store(alloc, judged, &stored, depth, means);
        drop(stored);
        if let Some(reason) = reason? {
            return Ok(Visited::Found(reason));
        }
    }
    stepped(alloc, judged, home, at.spot, at.op, at.next)
}

/// Looks at the instruction at a place.
#[cycle(walk)]
#[tactic(auto, using(crate::proofs::Walking::visiting))]
fn visit(
    alloc: Global,
    judged: &Judged<'_>,
    home: &Home,
    spot: &Spot,
    depth: u32,
    means: &mut Means,
) -> Result<Visited, NoMemory>
    requires home { IsHome judged.now.table.now judged.now.code.now home.now }
    requires there { IsThere judged.now.table.now judged.now.code.now home.now spot.now }
    ensures { IfOk result (λ visited. IsVisited judged.now.table.now judged.now.code.now home.now
        spot.now visited) }
{
    match judged.code.op_at(spot.place) {
        None => Ok(Visited::Wrong(Trouble::NothingThere)),
        Some((op, size)) => {
            let next = end_of(judged.code, &op, spot.place, size);
            match kind_of(&op, spot.place) {
                Kind::Call(target) => {
                    call(alloc, judged, home, spot, target, next, depth, means)
                }
                Kind::Return => Ok(returned(judged, home, spot)),
                Kind::Store(globals, locals) => {
                    let at = At {
                        spot,
                        op: &op,
                        next,
                    };
                    visit_store(alloc, judged, home, &at, globals, locals, depth, means)
                }
                Kind::Step => stepped(alloc, judged, home, spot, &op, next),
            }
        }
    }
}

/// Looks at a place of a routine, unless it was looked at before or nothing is left to pay for it.
#[cycle(walk)]
fn turn(
    alloc: Global,
    judged: &Judged<'_>,
    home: &Home,
    trail: &mut Trail,
    spot: Spot,
    depth: u32,
    means: &mut Means,
) -> Result<Turned, NoMemory>
    requires home { IsHome judged.now.table.now judged.now.code.now home.now }
    requires fits { TrailFits judged.now.table.now judged.now.code.now home.now trail.old }
    requires there { IsThere judged.now.table.now judged.now.code.now home.now spot }
    ensures { IfOk result (λ turned. IsTurned judged.now.table.now judged.now.code.now home.now
        trail.new turned) }
{
    if let Some(other) = known(judged, home, trail.seen.as_slice(), means, spot.place) {
        return match again(alloc, judged, home, other, spot)? {
            None => Ok(Turned::On),
            Some(reason) => Ok(Turned::Found(reason)),
        };
    }
    if !pay(means, &spot.shape) {
        drop(spot);
        return Ok(Turned::On);
    }
    match visit(alloc, judged, home, &spot, depth, means) {
        Err(error) => {
            drop(spot);
            Err(error)
        }
        Ok(visited) => {
            mark(means, spot.place, trail.seen.len());
            settle(judged, home, trail, spot, visited)
        }
    }
}

/// Goes over a routine, up to the first place at which something is wrong.
#[cycle(walk)]
pub fn walk(
    alloc: Global,
    judged: &Judged<'_>,
    home: &Home,
    depth: u32,
    means: &mut Means,
) -> Result<Walked, NoMemory>
    requires home { IsHome judged.now.table.now judged.now.code.now home.now }
    ensures { IfOk result (λ walked. IsWalked judged.now.table.now judged.now.code.now home.now
        walked) }
{
    let mut trail = begin(alloc, judged, home)?;
    for _turn in 0..MOST_TURNS {
        let Some(spot) = take(judged, home, &mut trail) else {
            break;
        };
        match turn(alloc, judged, home, &mut trail, spot, depth, means) {
            Err(error) => {
                drop(trail);
                return Err(error);
            }
            Ok(Turned::On) => {}
            Ok(Turned::Found(reason)) => {
                drop(trail);
                return Ok(Walked::Found(reason));
            }
        }
    }
    let Trail { work, seen, last } = trail;
    drop(work);
    drop(seen);
    Ok(Walked::Ended(last))
}
