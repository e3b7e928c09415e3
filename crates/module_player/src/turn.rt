//! One turn of a play: the next entry, where one is due, and its lines.
ghost use Rattle.std.specs.Prelude.{◌≡◌, ◌<◌, ◌+◌, ◌^◌, ◌⊎◌, [], IsTrue};
ghost use Rattle.nwq_outside.specs.Outside.{CountsDone, Takes as TakesPiece};
ghost use Rattle.nwq_outside.specs.declared.answer.Done.TheVariants as done;
ghost use Rattle.world_rules.specs.Trace.{trace_text};
ghost use Rattle.world_rules.specs.Turns.{begin, drained};
ghost use Rattle.world_rules.specs.Plays.{entered_as};
ghost use Rattle.ncs_machine.specs.InSetting.{seen};
ghost use Rattle.ncs_machine.specs.Settings.{FitIn, host_in};
ghost use Rattle.module_player.specs.Cuts.{IsCutAt, IsCutIn, WhereCutIn};
ghost use Rattle.module_player.specs.CodePlays.{runner_in};
ghost use Rattle.module_player.specs.Premises.{IsReady, MayTake};
ghost use Rattle.module_player.specs.Turns.{CountsNext, Takes, TakesText, Turns, lines_of};
ghost use Rattle.module_player.specs.Turns.{lines_text};

use crate::entry::enter;
use crate::limits::PlayLimits;
use delay_agenda::Entry;
use ncs_machine::{PlaySetting, entries_keep_fits};
use nwq_outside::{Done, Sink};
use saved_state::Saved;
use std::alloc::Global;
use std::mem;
use world_core::World;

/// What comes of a turn.
#[derive(Clone, Copy)]
pub enum TurnOutcome {
    /// An entry is over, after so many instructions.
    Goes(u64),
    /// An entry was stopped, after so many.
    Stops(u64),
    /// No entry is due.
    Rests,
    /// The sink failed.
    Fault,
    NoMemory,
}

/// How many bytes of room at most are kept for the lines of the next entry.
const KEPT_ROOM: usize = 65536;

/// A new text begins, in the room of the last one unless that is much.
fn begin_text(text: &mut Vec<u8>)
    ensures empty { text.new.items ≡ [] }
{
    if text.capacity() <= KEPT_ROOM {
        text.clear();
    } else {
        let alloc = *text.allocator();
        drop(mem::replace(text, Vec::new(alloc)));
    }
}

/// Puts the lines that the world keeps in one piece, where there are any. It keeps none then. What
/// `text` holds is of no account, but its room is used.
#[tactic(auto, using(crate::proofs::Turning::put_lemmas))]
fn put_lines<S: Sink>(world: &mut World<Saved>, text: &mut Vec<u8>, out: &mut S) -> Done
    ensures drained { result ≡ done.Ok → world.new.world ≡ drained world.old.world }
    ensures taken { IsTrue S.tells → TakesPiece (trace_text world.old.world.trace) (S.taken
        out.old) (S.taken out.new) result }
    ensures counts { CountsDone result (S.faults out.old) (S.faults out.new) }
    ensures failed { result ≡ done.Failed → world.new.world ≡ drained world.old.world }
    ensures cut { result ≡ done.NoMemory → (world.new.world ≡ world.old.world)
        ⊎ (world.new.world ≡ drained world.old.world) }
{
    begin_text(text);
    match world.drain(text) {
        Err(_) => Done::NoMemory,
        Ok(()) => {
            if text.is_empty() {
                Done::Ok
            } else {
                out.put(text.as_slice())
            }
        }
    }
}

/// An entry that is begun, and its lines.
#[tactic(auto, using(crate::proofs::Turning::take_lemmas))]
fn take<S: Sink>(
    alloc: Global,
    setting: &PlaySetting<'_, '_>,
    world: &mut World<Saved>,
    entry: Entry<Saved>,
    limits: PlayLimits,
    text: &mut Vec<u8>,
    out: &mut S,
) -> TurnOutcome
    requires ready { IsReady (seen setting.now) 1 world.old.world world.old.room }
    requires takes { MayTake (seen setting.now) entry.kind world.old.world }
    ensures takes { Takes result (seen setting.now) limits.instructions (entered_as
        (runner_in (seen setting.now) limits.instructions) entry.kind entry.number world.old.world)
        world.old.world world.new.world }
    ensures taken { IsTrue S.tells → TakesText result (lines_text (entered_as
        (runner_in (seen setting.now) limits.instructions) entry.kind entry.number world.old.world))
        (S.taken out.old) (S.taken out.new) }
    ensures counts { CountsNext result (S.faults out.old) (S.faults out.new) }
    ensures cut { WhereCutIn result (IsCutIn (λ n. entered_as (runner_in (seen setting.now) n)
        entry.kind entry.number world.old.world) limits.instructions world.old.world
        world.new.world) }
{
    match enter(alloc, setting, world, entry, limits) {
        Err(_) => TurnOutcome::NoMemory,
        Ok(entered) => match put_lines(world, text, out) {
            Done::Ok => {
                if entered.stopped {
                    TurnOutcome::Stops(entered.count)
                } else {
                    TurnOutcome::Goes(entered.count)
                }
            }
            Done::Failed => TurnOutcome::Fault,
            Done::NoMemory => TurnOutcome::NoMemory,
        },
    }
}

/// The next entry that is due by a time, and its lines.
#[tactic(auto, using(crate::proofs::Turning::turn_lemmas))]
pub(crate) fn turn<S: Sink>(
    alloc: Global,
    setting: &PlaySetting<'_, '_>,
    world: &mut World<Saved>,
    limits: PlayLimits,
    text: &mut Vec<u8>,
    out: &mut S,
) -> TurnOutcome
    requires next { world.old.world.agenda.next + 1 < 2 ^ 62 }
    requires fit { FitIn (seen setting.now) world.old.world }
    ensures turns { Turns result (seen setting.now) limits.instructions
        (runner_in (seen setting.now) limits.instructions) (begin limits.until world.old.world)
        world.old.world world.new.world }
    ensures taken { IsTrue S.tells → TakesText result (trace_text (lines_of
        (runner_in (seen setting.now) limits.instructions) (begin limits.until world.old.world)))
        (S.taken out.old) (S.taken out.new) }
    ensures counts { CountsNext result (S.faults out.old) (S.faults out.new) }
    ensures cut { WhereCutIn result (IsCutAt (host_in (seen setting.now)) limits.instructions
        (begin limits.until world.old.world) world.old.world world.new.world) }
{
    entries_keep_fits();
    match world.begin(limits.until) {
        Err(_) => TurnOutcome::NoMemory,
        Ok(None) => TurnOutcome::Rests,
        Ok(Some(entry)) => take(alloc, setting, world, entry, limits, text, out),
    }
}
