//! Plays: entry after entry.
ghost use Rattle.std.specs.Prelude.{◌≡◌, ◌≢◌, ◌≤◌, ◌<◌, ◌+◌, ◌^◌, ◌++◌, [], IsTrue};
ghost use Rattle.nwq_outside.specs.Outside.{TookPrefix};
ghost use Rattle.world_rules.specs.Trace.{trace_text};
ghost use Rattle.world_rules.specs.Turns.{begin};
ghost use Rattle.world_rules.specs.Plays.{full};
ghost use Rattle.ncs_machine.specs.InSetting.{seen};
ghost use Rattle.ncs_machine.specs.Settings.{FitIn, host_in};
ghost use Rattle.module_player.specs.Answers.{CountsPlay, EndsAs, HasPlayed, IsLastEnd};
ghost use Rattle.module_player.specs.Answers.{TakesTrace, WherePlayed};
ghost use Rattle.module_player.specs.CodePlays.{played_before, played_in, played_on_in};
ghost use Rattle.module_player.specs.Cuts.{IsCutShort, WhereCut, cut_lines};
ghost use Rattle.module_player.specs.Premises.{MayGo, MayPlay};
ghost use Rattle.module_player.specs.declared.played.How.TheVariants as answer;

use crate::limits::PlayLimits;
use crate::played::{How, Played};
use crate::turn::{TurnOutcome, turn};
use ncs_machine::PlaySetting;
use nwq_outside::Sink;
use saved_state::Saved;
use std::alloc::Global;
use world_core::World;

/// How a play ends that has taken as many entries as it may: by whether a further one is due.
#[tactic(auto, using(crate::proofs::Playing::due_lemmas))]
fn last_end(world: &World<Saved>, until: u64) -> How
    ensures ending { IsLastEnd result (full (begin until world.now.world)) }
{
    match world.next_due() {
        None => How::Done,
        Some(due) => {
            if due <= until {
                How::EntryStop
            } else {
                How::Done
            }
        }
    }
}

/// The play that goes on after `taken` entries and `done` instructions.
#[tactic(auto, using(crate::proofs::Playing::play_lemmas))]
fn play_from<S: Sink>(
    alloc: Global,
    setting: &PlaySetting<'_, '_>,
    world: &mut World<Saved>,
    limits: PlayLimits,
    stop: u64,
    taken: u64,
    done: u64,
    out: &mut S,
) -> Played
    requires world { MayPlay (seen setting.now) world.old.world }
    requires goes { MayGo limits.entries stop taken done }
    ensures played { HasPlayed (seen setting.now) result (played_before taken done world.old.world)
        (played_on_in (seen setting.now) limits stop taken done world.old.world) S.tells (S.taken
        out.old) (S.taken out.new) (S.faults out.old) (S.faults out.new) world.new.world }
    ensures cut { WhereCut result.how (IsCutShort (host_in (seen setting.now)) limits.instructions
        limits.until (played_on_in (seen setting.now) limits result.entries taken done
        world.old.world) result.entries result.instructions world.new.world) }
    ensures told { IsTrue S.tells → WhereCut result.how (TookPrefix (cut_lines
        (host_in (seen setting.now)) limits.instructions limits.until (played_on_in
        (seen setting.now) limits result.entries taken done world.old.world)) (S.taken out.old ++
        trace_text (played_on_in (seen setting.now) limits result.entries taken done
        world.old.world).last.trace) (S.taken out.new)) }
{
    let mut count = done;
    let mut text = Vec::new(alloc);
    for number in taken..stop {
        if number == limits.entries {
            return Played {
                how: last_end(world, limits.until),
                entries: number,
                instructions: count,
            };
        }
        match turn(alloc, setting, world, limits, &mut text, out) {
            TurnOutcome::Goes(n) => count += n,
            TurnOutcome::Stops(n) => {
                return Played {
                    how: How::InstrStop,
                    entries: number + 1,
                    instructions: count + n,
                };
            }
            TurnOutcome::Rests => {
                return Played {
                    how: How::Done,
                    entries: number,
                    instructions: count,
                };
            }
            TurnOutcome::Fault => {
                return Played {
                    how: How::Fault,
                    entries: number,
                    instructions: count,
                };
            }
            TurnOutcome::NoMemory => {
                return Played {
                    how: How::NoMemory,
                    entries: number,
                    instructions: count,
                };
            }
        }
    }
    Played {
        how: How::Pause,
        entries: stop,
        instructions: count,
    }
}

/// Plays on: `taken` entries were taken before and `done` instructions executed, and the call ends
/// once `stop` entries were taken in all. Each entry's lines are put in one piece when it is over.
/// The first put that fails ends the call.
pub fn play_on<S: Sink>(
    alloc: Global,
    setting: &PlaySetting<'_, '_>,
    world: &mut World<Saved>,
    limits: PlayLimits,
    stop: u64,
    taken: u64,
    done: u64,
    out: &mut S,
) -> Played
    requires world { MayPlay (seen setting.now) world.old.world }
    requires goes { MayGo limits.entries stop taken done }
    // How the play ends, after how many entries and instructions, and in which world.
    ensures ending { EndsAs result.how (played_on_in (seen setting.now) limits stop taken done
        world.old.world).ending }
    ensures entries { WherePlayed result.how (result.entries ≡ (played_on_in (seen setting.now)
        limits stop taken done world.old.world).last.entries) }
    ensures instructions { WherePlayed result.how (result.instructions ≡ (played_on_in
        (seen setting.now) limits stop taken done world.old.world).last.count) }
    ensures world { WherePlayed result.how (world.new.world ≡ (played_on_in (seen setting.now)
        limits stop taken done world.old.world).last.world) }
    // The sink took the play's lines, or a prefix of them where the play was cut short.
    ensures trace { IsTrue S.tells → TakesTrace result.how (trace_text (played_on_in
        (seen setting.now) limits stop taken done world.old.world).last.trace) (S.taken out.old)
        (S.taken out.new) }
    ensures faults { CountsPlay result.how (S.faults out.old) (S.faults out.new) }
    // What the world keeps, so that its text can be put, and the play can go on.
    ensures fit { WherePlayed result.how (FitIn (seen setting.now) world.new.world) }
    ensures quiet { WherePlayed result.how (world.new.world.trace ≡ []) }
    ensures next { WherePlayed result.how (world.new.world.agenda.next < 2 ^ 62) }
    // Where it was cut short: the entries that are counted were finished, as if the play were
    // broken off behind them, and the world is the one there, or that of the next entry: not begun,
    // stopped after some of its instructions, or done. The sink took a prefix of that entry's
    // lines.
    ensures cut { WhereCut result.how (IsCutShort (host_in (seen setting.now)) limits.instructions
        limits.until (played_on_in (seen setting.now) limits result.entries taken done
        world.old.world) result.entries result.instructions world.new.world) }
    ensures told { IsTrue S.tells → WhereCut result.how (TookPrefix (cut_lines
        (host_in (seen setting.now)) limits.instructions limits.until (played_on_in
        (seen setting.now) limits result.entries taken done world.old.world)) (S.taken out.old ++
        trace_text (played_on_in (seen setting.now) limits result.entries taken done
        world.old.world).last.trace) (S.taken out.new)) }
    // How much at most was posted, and executed.
    ensures posted { WherePlayed result.how (world.new.world.agenda.next ≤
        world.old.world.agenda.next + 2 ^ 45) }
    ensures executed { WherePlayed result.how (result.instructions ≤ done + 2 ^ 45) }
{
    play_from(alloc, setting, world, limits, stop, taken, done, out)
}

/// Plays until no entry is due, or as many were taken as may be.
#[tactic(auto, using(crate::proofs::Whole::never_pauses))]
pub fn play<S: Sink>(
    alloc: Global,
    setting: &PlaySetting<'_, '_>,
    world: &mut World<Saved>,
    limits: PlayLimits,
    out: &mut S,
) -> Played
    requires world { MayPlay (seen setting.now) world.old.world }
    // How the play ends, after how many entries and instructions, and in which world.
    ensures ending { EndsAs result.how
        (played_in (seen setting.now) limits world.old.world).ending }
    ensures entries { WherePlayed result.how (result.entries ≡ (played_in (seen setting.now) limits
        world.old.world).last.entries) }
    ensures instructions { WherePlayed result.how (result.instructions ≡ (played_in
        (seen setting.now) limits world.old.world).last.count) }
    ensures world { WherePlayed result.how (world.new.world ≡ (played_in (seen setting.now) limits
        world.old.world).last.world) }
    // The sink took the play's lines, or a prefix of them where the play was cut short.
    ensures trace { IsTrue S.tells → TakesTrace result.how (trace_text (played_in (seen setting.now)
        limits world.old.world).last.trace) (S.taken out.old) (S.taken out.new) }
    ensures faults { CountsPlay result.how (S.faults out.old) (S.faults out.new) }
    // What the world keeps, so that its text can be put, and the play can go on.
    ensures fit { WherePlayed result.how (FitIn (seen setting.now) world.new.world) }
    ensures quiet { WherePlayed result.how (world.new.world.trace ≡ []) }
    ensures next { WherePlayed result.how (world.new.world.agenda.next < 2 ^ 62) }
    // Where it was cut short: the entries that are counted were finished, as if the play were
    // broken off behind them, and the world is the one there, or that of the next entry: not begun,
    // stopped after some of its instructions, or done. The sink took a prefix of that entry's
    // lines.
    ensures cut { WhereCut result.how (IsCutShort (host_in (seen setting.now)) limits.instructions
        limits.until (played_on_in (seen setting.now) limits result.entries 0 0 world.old.world)
        result.entries result.instructions world.new.world) }
    ensures told { IsTrue S.tells → WhereCut result.how (TookPrefix (cut_lines
        (host_in (seen setting.now)) limits.instructions limits.until (played_on_in
        (seen setting.now) limits result.entries 0 0 world.old.world)) (S.taken out.old ++
        trace_text (played_on_in (seen setting.now) limits result.entries 0 0
        world.old.world).last.trace) (S.taken out.new)) }
    // It isn't broken off.
    ensures whole { result.how ≢ answer.Pause }
{
    play_on(alloc, setting, world, limits, limits.entries + 1, 0, 0, out)
}
