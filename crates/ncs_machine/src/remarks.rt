//! What is remarked where an entry ends before its end.
ghost use Rattle.std.specs.Prelude.{◌≡◌, ◌≤◌, ◌++◌, ◌∷◌, [], length, take, IfOk, IfSome, OnOk};
ghost use Rattle.std.specs.Prelude.{Some};
ghost use Rattle.std.specs.List.{flat_map};
ghost use Rattle.ncs_machine.specs.Remarks.{IsRemark, MayRemark, returns_of};
ghost use Rattle.ncs_machine.specs.Remarks.{time_of, under_way, waits_for};
ghost use Rattle.ncs_machine.specs.Steps.{state};

use crate::begun::{Begun, spot_of};
use crate::entry::Ran;
use crate::machine::Machine;
use machine_frames::Frame;
use nwq_value::NoMemory;
use play_remarks::{Ending, Remark, Spot};
use saved_state::Saved;
use std::alloc::Global;
use world_core::World;

/// How many calls under way are remarked at most, the innermost.
const MOST_RETURNS: usize = 1_000;

/// The last time of a play.
const LAST_TIME: u64 = 4_294_967_295;

/// A time of a play.
fn time_of(clock: u64) -> u32
    ensures time { result ≡ time_of clock }
{
    if clock <= LAST_TIME {
        clock as u32
    } else {
        u32::MAX
    }
}

/// Puts a place last, unless the most are there.
#[tactic(auto, using(crate::proofs::RemarkLemmas::put_lemmas))]
fn put_spot(returns: &mut Vec<Spot>, spot: Spot, most: usize) -> Result<(), NoMemory>
    requires few { length returns.old.items ≤ most }
    ensures put { OnOk result
        (returns.new.items ≡ take most (returns.old.items ++ spot ∷ [])) }
{
    if returns.len() < most {
        returns.push(spot)?;
    }
    Ok(())
}

/// Puts the places behind a script's own calls under way last.
fn put_returns(frame: &Frame, returns: &mut Vec<Spot>, most: usize) -> Result<(), NoMemory>
    requires few { length returns.old.items ≤ most }
    ensures put { OnOk result
        (returns.new.items ≡ take most (returns.old.items ++ returns_of frame.now)) }
{
    let script = frame.script();
    for i in 0..most {
        match frame.return_at(i) {
            None => return Ok(()),
            Some(place) => put_spot(returns, Spot { script, place }, most)?,
        }
    }
    Ok(())
}

/// Puts those behind the calls under way of the scripts that wait last, the newest first.
fn put_waiting(machine: &Machine, returns: &mut Vec<Spot>, most: usize) -> Result<(), NoMemory>
    requires few { length returns.old.items ≤ most }
    ensures put { OnOk result (returns.new.items
        ≡ take most (returns.old.items ++ flat_map waits_for machine.now.waiting)) }
{
    let count = machine.waiting_count();
    for i in 0..count {
        match machine.waiting_at(i) {
            None => unreachable!(),
            Some(frame) => {
                put_spot(returns, spot_of(frame), most)?;
                put_returns(frame, returns, most)?;
            }
        }
    }
    Ok(())
}

/// The places behind all the calls under way, innermost first.
fn returns_of(alloc: Global, machine: &Machine, most: usize) -> Result<Vec<Spot>, NoMemory>
    ensures returns { IfOk result (λ returns. returns.items
        ≡ take most (under_way machine.now.running machine.now.waiting)) }
{
    let mut returns = Vec::new(alloc);
    put_returns(machine.frame(), &mut returns, most)?;
    put_waiting(machine, &mut returns, most)?;
    Ok(returns)
}

/// The remark of an entry that began so and ended so before its end.
fn remark_of(
    alloc: Global,
    ending: Ending,
    begun: &Begun,
    machine: &Machine,
    world: &World<Saved>,
) -> Result<Remark, NoMemory>
    ensures remark { IfOk result (IsRemark ending begun.now (state machine.now world.now.world)) }
{
    let returns = returns_of(alloc, machine, MOST_RETURNS)?;
    let values = Vec::from_slice(alloc, begun.ints())?;
    Ok(Remark {
        ending,
        time: time_of(world.clock()),
        at: spot_of(machine.frame()),
        returns,
        begun: begun.spot(),
        values,
    })
}

/// The same of a run that ended so: `None` exactly where it ended well, or for want of memory.
fn run_remark(
    alloc: Global,
    ran: Ran,
    begun: &Begun,
    machine: &Machine,
    world: &World<Saved>,
) -> Result<Option<Remark>, NoMemory>
    ensures remark { IfOk result (MayRemark ran begun.now (state machine.now world.now.world)) }
{
    let ending = match ran {
        Ran::Divide => Ending::Divide,
        Ran::Limit => Ending::Limit,
        Ran::Ended | Ran::NoMemory => return Ok(None),
    };
    Ok(Some(remark_of(alloc, ending, begun, machine, world)?))
}

/// The same, where the world keeps one more remark and there is memory for it.
pub(crate) fn end_remark(
    alloc: Global,
    ran: Ran,
    begun: &Begun,
    machine: &Machine,
    world: &World<Saved>,
) -> Option<Remark>
    ensures remark { IfSome result (λ remark. MayRemark ran begun.now
        (state machine.now world.now.world) (Some remark)) }
{
    if !world.keeps_remarks() {
        return None;
    }
    match run_remark(alloc, ran, begun, machine, world) {
        Ok(remark) => remark,
        Err(NoMemory) => None,
    }
}
