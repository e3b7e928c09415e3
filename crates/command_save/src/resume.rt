//! The command that resumes: a state is read, and its play goes on.
ghost use Rattle.std.specs.Prelude.{◌≡◌, ◌≤◌, ℕ, length, IsTrue, IfErr};
ghost use Rattle.nwq_value.specs.Limits.{file_limit};
ghost use Rattle.nwq_outside.specs.Outside.{next};
ghost use Rattle.hook_table.specs.InHooks.{known_by};
ghost use Rattle.world_core.specs.Calls.{AreServing, cells_of};
ghost use Rattle.ncs_machine.specs.Host.{scripts_of};
ghost use Rattle.command_work.specs.Counts.{KeepsBut, Refusing, StopsArea};
ghost use Rattle.command_work.specs.Calls.{DoesOn, TalliesOn, TalliesPuts, IsName, DoesPuts};
ghost use Rattle.command_play.specs.Games.{tells};
ghost use Rattle.command_play.specs.Tellings.{StopsEnd};
ghost use Rattle.command_save.specs.Resumes.{resumes, resumes_state, state_in, state_named};
ghost use Rattle.command_save.specs.Tellings.{MayGoOn, StopsResume, rest_of};

use command_play::{Remarks, tell_end};
use command_plays::play_part;
use command_work::{AreaFlaw, Status, read_file, refuse_area};
use hook_table::Hooks;
use ncs_machine::PlaySetting;
use nwq_outside::{Files, Sink};
use nwq_value::NoMemory;
use play_save::{Opened, State, StateFault, read_state};
use std::alloc::Global;

/// The state of bytes, which are those of the file of this name.
#[tactic(auto, using(crate::proofs::FateLemmas::fates))]
fn state_of_bytes<S: Sink>(
    alloc: Global,
    name: &[u8],
    bytes: &[u8],
    out: &mut S,
) -> Result<State, Status>
    requires small { length bytes.now ≤ file_limit }
    ensures does { IsTrue S.tells → DoesPuts S.taken (state_in name.now bytes.now) out.old result
        out.new }
    ensures counts { TalliesPuts S.faults result out.old out.new }
    ensures only { IfErr result (Refusing Status.Area) }
{
    match read_state(alloc, bytes) {
        Ok(state) => {
            state.keeps();
            Ok(state)
        }
        Err(StateFault::Place(at)) => Err(refuse_area(alloc, name, AreaFlaw::State(at), out)),
        Err(StateFault::Unfit(rule)) => {
            Err(refuse_area(alloc, name, AreaFlaw::Unfit(rule), out))
        }
        Err(StateFault::NoMemory) => Err(Status::Memory),
    }
}

/// The state in the file of this name.
#[tactic(auto, using(crate::proofs::StepLemmas::steps), unfolding(crate::specs::Resumes::state_named))]
fn read_state_file<F: Files, S: Sink>(
    alloc: Global,
    name: &str,
    files: &mut F,
    out: &mut S,
) -> Result<State, Status>
    ensures does { IsTrue F.tells → IsTrue S.tells → DoesOn F.contents S.taken
        (state_named name.now) files.old out.old result files.new out.new }
    ensures counts { TalliesOn F.counts S.faults result files.old out.old files.new out.new }
    ensures same { F.contents files.new ≡ F.contents files.old }
    ensures once { F.reads files.new ≡ next (F.reads files.old) }
    ensures only { IfErr result StopsArea }
{
    match read_file(alloc, name, files, out) {
        Err(status) => Err(status),
        Ok(bytes) => state_of_bytes(alloc, name.as_bytes(), bytes.as_slice(), out),
    }
}

/// Plays on from what a state tells, and tells and leaves the end as every play does.
#[tactic(auto, using(crate::proofs::RestOfLemmas::rests, crate::proofs::StopLemmas::stops, command_work::specs::KeepsLemmas::keeps_all))]
fn play_rest<F: Files, S: Sink>(
    alloc: Global,
    opened: Opened,
    to: &str,
    hooks: &Hooks,
    files: &mut F,
    out: &mut S,
    remarks: &mut Remarks,
) -> Result<(), Status>
    requires hooks { AreServing (known_by hooks.now) }
    requires opened { MayGoOn opened }
    ensures does { IsTrue F.tells → IsTrue S.tells → DoesOn F.contents S.taken (tells to.now
        (scripts_of opened.scripts) (rest_of (cells_of (known_by hooks.now)) opened)) files.old
        out.old result files.new out.new }
    ensures counts { TalliesOn F.counts S.faults result files.old out.old files.new out.new }
    ensures names { KeepsBut (IsName to.now) (F.contents files.old) (F.contents files.new) }
    ensures unread { F.reads files.new ≡ F.reads files.old }
    ensures only { IfErr result StopsEnd }
{
    let Opened {
        table,
        scripts,
        world,
        limits,
        taken,
        done,
    } = opened;
    let stop = limits.entries + 1;
    let setting = PlaySetting::of(&scripts, &table, hooks);
    match play_part(alloc, &setting, world, limits, stop, taken, done, out) {
        Err(status) => {
            drop(table);
            drop(scripts);
            Err(status)
        }
        Ok((world, played)) => {
            drop(table);
            let end = tell_end(alloc, world, &scripts, &played, to, files, out, remarks);
            drop(scripts);
            end
        }
    }
}

/// Plays on from a state.
#[tactic(auto, using(crate::proofs::RestOfLemmas::states, command_work::specs::KeepsLemmas::keeps_all))]
fn resume_state<F: Files, S: Sink>(
    alloc: Global,
    state: State,
    to: &str,
    hooks: &Hooks,
    files: &mut F,
    out: &mut S,
    remarks: &mut Remarks,
) -> Result<(), Status>
    requires hooks { AreServing (known_by hooks.now) }
    ensures does { IsTrue F.tells → IsTrue S.tells → DoesOn F.contents S.taken (resumes_state
        (cells_of (known_by hooks.now)) to.now state) files.old out.old result files.new out.new }
    ensures counts { TalliesOn F.counts S.faults result files.old out.old files.new out.new }
    ensures names { KeepsBut (IsName to.now) (F.contents files.old) (F.contents files.new) }
    ensures unread { F.reads files.new ≡ F.reads files.old }
    ensures only { IfErr result StopsEnd }
{
    state.keeps();
    match state.restore(alloc) {
        Err(NoMemory) => Err(Status::Memory),
        Ok(opened) => play_rest(alloc, opened, to, hooks, files, out, remarks),
    }
}

/// Goes on with the play that was saved in the file `state`, and leaves the area of a play that is
/// done in the file `to`.
#[tactic(auto, using(crate::proofs::StepLemmas::steps, crate::proofs::StopLemmas::stops), unfolding(crate::specs::Resumes::resumes))]
pub fn resume_play<F: Files, S: Sink>(
    alloc: Global,
    state: &str,
    to: &str,
    hooks: &Hooks,
    files: &mut F,
    out: &mut S,
    remarks: &mut Remarks,
) -> Result<(), Status>
    requires hooks { AreServing (known_by hooks.now) }
    ensures does { IsTrue F.tells → IsTrue S.tells → DoesOn F.contents S.taken (resumes (cells_of
        (known_by hooks.now)) state.now to.now) files.old out.old result files.new out.new }
    ensures counts { TalliesOn F.counts S.faults result files.old out.old files.new out.new }
    // The file of the area that is left alone is written.
    ensures names { KeepsBut (IsName to.now) (F.contents files.old) (F.contents files.new) }
    // The state is read, once.
    ensures once { F.reads files.new ≡ next (F.reads files.old) }
    ensures only { IfErr result StopsResume }
{
    match read_state_file(alloc, state, files, out) {
        Err(status) => Err(status),
        Ok(state) => resume_state(alloc, state, to, hooks, files, out, remarks),
    }
}
