//! The state of a play that is broken off: its size is counted first, and its bytes are made only
//! where a file may have as many.
ghost use Rattle.std.specs.Prelude.{◌≡◌, length, IfOk, MatchResult};
ghost use Rattle.std.specs.List.{AllByRecursion};
ghost use Rattle.std.specs.Option.{option_map};
ghost use Rattle.world_parts.specs.Saved.{put_together};
ghost use Rattle.module_player.specs.Limits.{limits_in};
ghost use Rattle.state_format.specs.Fields.{parts_bytes};
ghost use Rattle.state_parts.specs.Keeping.{KindHasValues};
ghost use Rattle.play_save.specs.Keeping.{IsKept, QueuesHaveValues};
ghost use Rattle.play_save.specs.Telling.{IsTold, IsToldAs, resting_parts};
ghost use Rattle.play_save.specs.States.{IsLargeState, IsStateFor, IsWrittenState, MayCount};
ghost use Rattle.play_save.specs.States.{MayList, MayRest};

use crate::put::put_resting;
use crate::told::{Numbers, PlayCounts, Resting};
use area_tree::Area;
use engine_table::laws::one_header;
use module_player::PlayLimits;
use ncs_code::spelling_laws;
use ncs_machine::Scripts;
use nwq_value::{FILE_BYTES, NoMemory};
use saved_state::Saved;
use stack_check::fits_too;
use stack_rules::states_hold_values;
use state_format::{SaveFault, Tally, roomy};
use state_parts::entries;
use std::alloc::Global;
use world_core::{World, WorldParts};

/// How many bytes a play's state has.
#[tactic(auto, unfolding(state_format::specs::Fields::parts_bytes))]
fn size_of(play: &Resting<'_>) -> Result<u64, NoMemory>
    requires counted { length play.now.things.now ≡ length play.now.area.now.objects }
    requires queues { QueuesHaveValues play.now.things.now }
    requires entries { AllByRecursion (λ e. KindHasValues e.kind) play.now.entries.now }
    ensures size { IfOk result (λ size. size ≡ length (parts_bytes (resting_parts play.now))) }
    ensures told { IfOk result (λ size. IsTold play.now) }
{
    let mut tally = Tally::new();
    put_resting(&mut tally, play)?;
    Ok(tally.size())
}

/// The bytes of a play's state, which has so many.
#[tactic(auto, unfolding(state_format::specs::Fields::parts_bytes))]
fn bytes_of(alloc: Global, play: &Resting<'_>, size: u64) -> Result<Vec<u8>, NoMemory>
    requires counted { length play.now.things.now ≡ length play.now.area.now.objects }
    requires queues { QueuesHaveValues play.now.things.now }
    requires entries { AllByRecursion (λ e. KindHasValues e.kind) play.now.entries.now }
    ensures bytes { IfOk result (λ v. v.items ≡ parts_bytes (resting_parts play.now)) }
{
    let mut out = roomy(alloc, size)?;
    put_resting(&mut out, play)?;
    Ok(out.into_vec())
}

/// The bytes of a play's state, unless they are more than a file may have: that is decided before
/// any is made.
fn state_bytes(alloc: Global, play: &Resting<'_>) -> Result<Vec<u8>, SaveFault>
    requires counted { length play.now.things.now ≡ length play.now.area.now.objects }
    requires queues { QueuesHaveValues play.now.things.now }
    requires entries { AllByRecursion (λ e. KindHasValues e.kind) play.now.entries.now }
    ensures exact { MatchResult result
        (λ v. IsWrittenState (IsToldAs play.now) v.items) (IsLargeState (IsToldAs play.now)) }
{
    let size = size_of(play)?;
    if size > FILE_BYTES as u64 {
        return Err(SaveFault::Large(size));
    }
    let bytes = bytes_of(alloc, play, size)?;
    Ok(bytes)
}

/// The bytes of the state of a world that was taken apart.
fn saved_bytes(
    alloc: Global,
    header: &Option<Vec<u8>>,
    scripts: &Scripts,
    file: &[u8],
    area: &Area,
    saved: WorldParts<Saved>,
    limits: PlayLimits,
    counts: PlayCounts,
) -> Result<Vec<u8>, SaveFault>
    requires counted { length saved.objects ≡ length area.now.objects }
    requires queues { QueuesHaveValues saved.objects }
    requires entries { AllByRecursion (λ e. KindHasValues e.kind) saved.agenda.waiting.entries }
    ensures exact { MatchResult result
        (λ v. IsWrittenState (IsKept (option_map (λ text. text.items) header.now) scripts.now
        file.now (limits_in limits) counts.taken counts.done (put_together area.now saved)) v.items)
        (IsLargeState (IsKept (option_map (λ text. text.items) header.now) scripts.now
        file.now (limits_in limits) counts.taken counts.done (put_together area.now saved))) }
{
    let WorldParts {
        clock,
        objects: things,
        agenda,
        random,
        version,
    } = saved;
    let next = agenda.next_number();
    let waiting = entries(alloc, agenda)?;
    let numbers = Numbers {
        version,
        limit: limits.instructions,
        entries: limits.entries,
        until: limits.until,
        clock,
        taken: counts.taken,
        done: counts.done,
        next,
    };
    let listed = scripts.as_slice();
    let left = random.as_slice();
    let beside = things.as_slice();
    let waits = waiting.as_slice();
    let play = Resting {
        header,
        scripts: listed,
        file,
        numbers,
        random: left,
        area,
        things: beside,
        entries: waits,
    };
    state_bytes(alloc, &play)
}

/// The bytes of the state of a play that isn't inside an entry, where these aren't more than a file
/// may have: that is decided before any is made, and nothing of the play is copied. `header` is
/// nothing for the built-in one, and `area` the bytes of the area's file as they were first read.
/// Memory runs out also where a list has more than 4,294,967,295 members, which no field counts.
pub fn put_play(
    alloc: Global,
    header: Option<Vec<u8>>,
    scripts: &Scripts,
    area: Vec<u8>,
    world: World<Saved>,
    limits: PlayLimits,
    taken: u64,
    done: u64,
) -> Result<Vec<u8>, SaveFault>
    requires listed { MayList (option_map (λ text. text.items) header) scripts.now }
    requires rests { MayRest scripts.now area.items world.world }
    requires come { MayCount (limits_in limits) world.world taken done }
    // The bytes are those of a state of the play, or so many has one of it.
    ensures exact { MatchResult result
        (λ v. IsWrittenState (IsStateFor (option_map (λ text. text.items) header) scripts.now
        area.items (limits_in limits) taken done world.world) v.items)
        (IsLargeState (IsStateFor (option_map (λ text. text.items) header) scripts.now area.items
        (limits_in limits) taken done world.world)) }
{
    spelling_laws();
    fits_too();
    one_header();
    states_hold_values::<()>();
    world.keeps();
    match world.into_parts() {
        Err(NoMemory) => Err(SaveFault::NoMemory),
        Ok((objects, saved)) => {
            objects.keeps();
            let file = area.as_slice();
            let counts = PlayCounts { taken, done };
            saved_bytes(
                alloc, &header, scripts, file, &objects, saved, limits, counts,
            )
        }
    }
}
