ghost use Rattle.std.specs.Prelude.{◌≡◌, IfOk, IfSome};
ghost use Rattle.stack_reasons.specs.Reasons.{IsReason};
ghost use Rattle.stack_reasons.specs.Walks.{IsHome, IsLast, IsThere, IsTurned, IsVisited};
ghost use Rattle.stack_reasons.specs.Walks.{IsWrong, TrailFits};

use crate::home::{Home, Judged, Spot};
use crate::reason::{Reason, Trouble};
use crate::shapes::{cells_differ, copy_shape, shapes_differ};
use crate::visit::Visited;
use nwq_value::NoMemory;
use std::alloc::Global;

/// What is kept of the run of a routine.
#[derive(Drop)]
pub struct Trail {
    /// The places that are to be looked at.
    pub work: Vec<Spot>,
    /// Those that were.
    pub seen: Vec<Spot>,
    /// The RETN to which the run came first.
    pub last: Option<Spot>,
}

/// What one place of a routine leaves.
#[derive(Drop)]
pub enum Turned {
    On,
    Found(Reason),
}

/// What the run of a routine came to.
#[derive(Drop)]
pub enum Walked {
    Found(Reason),
    /// It ends there, if it ends.
    Ended(Option<Spot>),
}

/// What is kept at first: the place at which the routine begins is to be looked at.
#[tactic(auto, using(crate::proofs::Walking::beginning))]
pub fn begin(alloc: Global, judged: &Judged<'_>, home: &Home) -> Result<Trail, NoMemory>
    requires home { IsHome judged.now.table.now judged.now.code.now home.now }
    ensures { IfOk result (λ trail. TrailFits judged.now.table.now judged.now.code.now home.now
        trail) }
{
    let _ = judged;
    let shape = copy_shape(alloc, &home.first)?;
    let spot = Spot {
        place: home.at,
        shape,
    };
    let mut work = Vec::new(alloc);
    work.push(spot)?;
    Ok(Trail {
        work,
        seen: Vec::new(alloc),
        last: None,
    })
}

/// The place that is looked at next.
#[tactic(auto, using(crate::proofs::Walking::taking))]
pub fn take(judged: &Judged<'_>, home: &Home, trail: &mut Trail) -> Option<Spot>
    requires fits { TrailFits judged.now.table.now judged.now.code.now home.now trail.old }
    ensures fits { TrailFits judged.now.table.now judged.now.code.now home.now trail.new }
    ensures there { IfSome result (λ spot. IsThere judged.now.table.now judged.now.code.now
        home.now spot) }
{
    let _ = judged;
    let _ = home;
    trail.work.pop()
}

/// Has a place looked at later.
#[tactic(auto, using(crate::proofs::Walking::putting))]
fn add(judged: &Judged<'_>, home: &Home, trail: &mut Trail, spot: Spot) -> Result<(), NoMemory>
    requires fits { TrailFits judged.now.table.now judged.now.code.now home.now trail.old }
    requires there { IsThere judged.now.table.now judged.now.code.now home.now spot }
    ensures fits { IfOk result (λ _. TrailFits judged.now.table.now judged.now.code.now home.now
        trail.new) }
{
    let _ = judged;
    let _ = home;
    trail.work.push(spot)?;
    Ok(())
}

/// Keeps a place that was looked at.
#[tactic(auto, using(crate::proofs::Walking::putting))]
fn keep(judged: &Judged<'_>, home: &Home, trail: &mut Trail, spot: Spot) -> Result<(), NoMemory>
    requires fits { TrailFits judged.now.table.now judged.now.code.now home.now trail.old }
    requires there { IsThere judged.now.table.now judged.now.code.now home.now spot }
    ensures fits { IfOk result (λ _. TrailFits judged.now.table.now judged.now.code.now home.now
        trail.new) }
{
    let _ = judged;
    let _ = home;
    trail.seen.push(spot)?;
    Ok(())
}

/// What is wrong at a place of the routine, as the reason why the code is refused.
#[tactic(auto, using(crate::proofs::Walking::telling))]
fn reason_of(judged: &Judged<'_>, home: &Home, spot: Spot, trouble: Trouble) -> Reason
    requires home { IsHome judged.now.table.now judged.now.code.now home.now }
    requires there { IsThere judged.now.table.now judged.now.code.now home.now spot }
    requires wrong { IsWrong judged.now.table.now judged.now.code.now home.now spot trouble }
    ensures { IsReason judged.now.table.now judged.now.code.now result }
{
    let _ = judged;
    let Spot { place, shape } = spot;
    Reason {
        entry: home.entry,
        called_at: home.called_at,
        place,
        shape,
        trouble,
    }
}

/// A place that was looked at before, with another shape perhaps.
#[tactic(auto, using(crate::proofs::Walking::telling))]
pub fn again(
    alloc: Global,
    judged: &Judged<'_>,
    home: &Home,
    other: &Spot,
    spot: Spot,
) -> Result<Option<Reason>, NoMemory>
    requires home { IsHome judged.now.table.now judged.now.code.now home.now }
    requires there { IsThere judged.now.table.now judged.now.code.now home.now spot }
    requires other { IsThere judged.now.table.now judged.now.code.now home.now other.now }
    requires place { other.now.place ≡ spot.place }
    ensures { IfOk result (λ reason. IfSome reason (λ reason. IsReason judged.now.table.now
        judged.now.code.now reason)) }
{
    if shapes_differ(&spot.shape, &other.shape) {
        let trouble = Trouble::OtherCells(copy_shape(alloc, &other.shape)?);
        Ok(Some(reason_of(judged, home, spot, trouble)))
    } else {
        drop(spot);
        Ok(None)
    }
}

/// The routine ends at a place, and perhaps at another one.
#[tactic(auto, using(crate::proofs::Walking::telling))]
fn end(judged: &Judged<'_>, home: &Home, trail: &mut Trail, spot: Spot) -> Turned
    requires home { IsHome judged.now.table.now judged.now.code.now home.now }
    requires fits { TrailFits judged.now.table.now judged.now.code.now home.now trail.old }
    requires last { IsLast judged.now.table.now judged.now.code.now home.now spot }
    ensures { IsTurned judged.now.table.now judged.now.code.now home.now trail.new result }
{
    match trail.last.take() {
        None => {
            trail.last = Some(spot);
            Turned::On
        }
        Some(other) => {
            if cells_differ(&spot.shape, &other.shape) {
                let Spot { place, shape } = other;
                let trouble = Trouble::OtherResult(place, shape);
                Turned::Found(reason_of(judged, home, spot, trouble))
            } else {
                drop(spot);
                trail.last = Some(other);
                Turned::On
            }
        }
    }
}

/// Keeps what a place came to.
#[tactic(auto, using(crate::proofs::Walking::telling))]
pub fn settle(
    judged: &Judged<'_>,
    home: &Home,
    trail: &mut Trail,
    spot: Spot,
    visited: Visited,
) -> Result<Turned, NoMemory>
    requires home { IsHome judged.now.table.now judged.now.code.now home.now }
    requires fits { TrailFits judged.now.table.now judged.now.code.now home.now trail.old }
    requires there { IsThere judged.now.table.now judged.now.code.now home.now spot }
    requires visited { IsVisited judged.now.table.now judged.now.code.now home.now spot visited }
    ensures { IfOk result (λ turned. IsTurned judged.now.table.now judged.now.code.now home.now
        trail.new turned) }
{
    match visited {
        Visited::Nothing => keep(judged, home, trail, spot)?,
        Visited::Wrong(trouble) => {
            return Ok(Turned::Found(reason_of(judged, home, spot, trouble)));
        }
        Visited::Found(reason) => {
            drop(spot);
            return Ok(Turned::Found(reason));
        }
        Visited::One(next) => {
            keep(judged, home, trail, spot)?;
            add(judged, home, trail, next)?;
        }
        Visited::Two(first, second) => {
            keep(judged, home, trail, spot)?;
            add(judged, home, trail, first)?;
            add(judged, home, trail, second)?;
        }
        Visited::Returned => return Ok(end(judged, home, trail, spot)),
    }
    Ok(Turned::On)
}
