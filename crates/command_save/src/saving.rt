//! What is saved of a play, and how a play ends that is saved.
ghost use Rattle.std.specs.Prelude.{◌≡◌, ◌<◌, ◌≤◌, ◌^◌, ℕ, None, map, length, IsTrue, IfErr};
ghost use Rattle.std.specs.Prelude.{MatchResult};
ghost use Rattle.std.specs.Option.{option_map};
ghost use Rattle.plan_text.specs.Plans.{limits_of};
ghost use Rattle.saved_state.specs.declared.saved.Saved.{Saved as SavedView};
ghost use Rattle.world_rules.specs.Plays.{Progress, Played as PlayedView};
ghost use Rattle.ncs_machine.specs.Host.{scripts_of};
ghost use Rattle.module_player.specs.CodePlays.{code_end_text};
ghost use Rattle.module_player.specs.EndTexts.{HasText, IsEnding};
ghost use Rattle.play_save.specs.States.{IsLargeState, IsWrittenState};
ghost use Rattle.nwq_outside.specs.Outside.{Contents};
ghost use Rattle.command_work.specs.Work.{Does, Ends, Puts};
ghost use Rattle.command_work.specs.Counts.{Refusing, KeepsBut};
ghost use Rattle.command_work.specs.Calls.{TalliesOn, TalliesPuts, IsName};
ghost use Rattle.command_plays.specs.Tellings.{cut_of};
ghost use Rattle.command_play.specs.Tellings.{StopsGame};
ghost use Rattle.command_save.specs.Saves.{IsStateAt, saves_at, saves_by};
ghost use Rattle.command_save.specs.Tellings.{IsListing, IsProgress, MaySave, WhereBroken};

use crate::inputs::HeaderFile;
use crate::written::write_bytes;
use command_play::{Remarks, remark_endings, tell_limit};
use command_plays::limits_of;
use command_work::{AreaFlaw, Status, refuse_area};
use module_player::{How, Played, end_text};
use ncs_machine::Scripts;
use nwq_outside::{Files, Sink};
use nwq_value::Items;
use plan_text::Plan;
use play_save::{SaveFault, put_play};
use saved_state::Saved;
use std::alloc::Global;
use world_core::World;

/// A plan, and its scripts as they are listed.
#[derive(Clone, Copy)]
pub(crate) struct ListedPlan<'a> {
    pub plan: &'a Plan,
    pub scripts: &'a Scripts,
}

/// A play that was broken off: its world there, and how far it has come.
#[derive(Drop)]
pub(crate) struct BrokenPlay {
    pub world: World<Saved>,
    pub played: Played,
}

/// A play that was broken off in this world. What is remarked of the world is no part of it.
pub(crate) fn broken_off(
    alloc: Global,
    world: World<Saved>,
    played: Played,
    scripts: &Scripts,
    remarks: &mut Remarks,
) -> BrokenPlay
    ensures world { result.world ≡ world }
    ensures played { result.played ≡ played }
{
    let mut world = world;
    remark_endings(alloc, &mut world, scripts, remarks);
    BrokenPlay { world, played }
}

/// The text of a header, where it has one.
fn text_of(header: HeaderFile) -> Option<Vec<u8>>
    ensures text { option_map (λ text. text.items) result ≡ header.text }
{
    let HeaderFile { text, table } = header;
    drop(table);
    match text {
        None => None,
        Some(text) => Some(text.into_vec()),
    }
}

/// The bytes of the state of a play that isn't inside an entry.
#[tactic(auto, using(crate::proofs::StateLemmas::states))]
fn play_bytes(
    alloc: Global,
    header: HeaderFile,
    file: Items<u8>,
    listed: &ListedPlan<'_>,
    broken: BrokenPlay,
) -> Result<Vec<u8>, SaveFault>
    requires listing { IsListing header.text listed.now.plan.now listed.now.scripts.now }
    requires saves { MaySave listed.now.scripts.now file (limits_of listed.now.plan.now)
        broken.world.world broken.played }
    ensures saved { (p : Progress SavedView) → IsProgress broken.played broken.world.world p →
        MatchResult result
        (λ v. IsWrittenState (IsStateAt header file listed.now.plan.now
        (scripts_of listed.now.scripts.now) p) v.items)
        (IsLargeState (IsStateAt header file listed.now.plan.now
        (scripts_of listed.now.scripts.now) p)) }
{
    let BrokenPlay { world, played } = broken;
    let limits = limits_of(listed.plan);
    let header = text_of(header);
    put_play(
        alloc,
        header,
        listed.scripts,
        file.into_vec(),
        world,
        limits,
        played.entries,
        played.instructions,
    )
}

/// Saves a play that isn't inside an entry in the file of this name.
#[tactic(auto, using(crate::proofs::StateLemmas::saves, command_work::specs::KeepsLemmas::keeps_all))]
fn save_state<F: Files, S: Sink>(
    alloc: Global,
    header: HeaderFile,
    file: Items<u8>,
    listed: &ListedPlan<'_>,
    broken: BrokenPlay,
    name: &str,
    files: &mut F,
    out: &mut S,
) -> Result<(), Status>
    requires listing { IsListing header.text listed.now.plan.now listed.now.scripts.now }
    requires saves { MaySave listed.now.scripts.now file (limits_of listed.now.plan.now)
        broken.world.world broken.played }
    ensures does { IsTrue F.tells → IsTrue S.tells → (p : Progress SavedView) → IsProgress
        broken.played broken.world.world p → Does (saves_at header file listed.now.plan.now
        (scripts_of listed.now.scripts.now) name.now p) (F.contents files.old) (S.taken out.old)
        result (F.contents files.new) (S.taken out.new) }
    ensures counts { TalliesOn F.counts S.faults result files.old out.old files.new out.new }
    ensures names { KeepsBut (IsName name.now) (F.contents files.old) (F.contents files.new) }
    ensures unread { F.reads files.new ≡ F.reads files.old }
    ensures only { IfErr result (Refusing Status.Area) }
{
    let entries = broken.played.entries;
    match play_bytes(alloc, header, file, listed, broken) {
        Ok(bytes) => write_bytes(alloc, name, bytes.as_slice(), entries, files, out),
        Err(SaveFault::Large(size)) => {
            Err(refuse_area(alloc, name.as_bytes(), AreaFlaw::Large(size), out))
        }
        Err(SaveFault::NoMemory) => Err(Status::Memory),
    }
}

/// Tells the end of a play that a limit ended inside an entry.
#[tactic(auto, using(crate::proofs::StateLemmas::stopped))]
fn tell_stopped<S: Sink>(
    alloc: Global,
    world: World<Saved>,
    scripts: &Scripts,
    played: &Played,
    out: &mut S,
) -> Result<(), Status>
    requires told { HasText played.now.how }
    ensures does { IsTrue S.tells → (c : Contents) → (p : PlayedView SavedView) →
        IsEnding played.now p world.world →
        Does (Puts (code_end_text (scripts_of scripts.now) p) (Ends Status.Limit))
        c (S.taken out.old) result c (S.taken out.new) }
    ensures counts { TalliesPuts S.faults result out.old out.new }
    ensures only { IfErr result (Refusing Status.Limit) }
{
    match end_text(alloc, world, scripts, played) {
        Err(NoMemory) => Err(Status::Memory),
        Ok((area, text)) => {
            drop(area);
            tell_limit(text, out)
        }
    }
}

/// Saves a play as it was broken off, unless that was inside an entry.
#[tactic(auto, using(crate::proofs::StateLemmas::endings, command_work::specs::KeepsLemmas::keeps_all))]
pub(crate) fn save_broken<F: Files, S: Sink>(
    alloc: Global,
    header: HeaderFile,
    file: Items<u8>,
    listed: &ListedPlan<'_>,
    broken: BrokenPlay,
    name: &str,
    files: &mut F,
    out: &mut S,
) -> Result<(), Status>
    requires listing { IsListing header.text listed.now.plan.now listed.now.scripts.now }
    requires told { cut_of broken.played.how ≡ None }
    requires broken { WhereBroken broken.played.how (MaySave listed.now.scripts.now file
        (limits_of listed.now.plan.now) broken.world.world broken.played) }
    ensures does { IsTrue F.tells → IsTrue S.tells → (p : PlayedView SavedView) → IsEnding
        broken.played p broken.world.world → Does (saves_by p.ending header file listed.now.plan.now
        (scripts_of listed.now.scripts.now) name.now p) (F.contents files.old) (S.taken out.old)
        result (F.contents files.new) (S.taken out.new) }
    ensures counts { TalliesOn F.counts S.faults result files.old out.old files.new out.new }
    ensures names { KeepsBut (IsName name.now) (F.contents files.old) (F.contents files.new) }
    ensures unread { F.reads files.new ≡ F.reads files.old }
    ensures only { IfErr result StopsGame }
{
    match broken.played.how {
        How::Done | How::EntryStop | How::Pause => {
            save_state(alloc, header, file, listed, broken, name, files, out)
        }
        How::InstrStop => {
            drop(header);
            drop(file);
            let BrokenPlay { world, played } = broken;
            tell_stopped(alloc, world, listed.scripts, &played, out)
        }
        How::Fault | How::NoMemory => unreachable!(),
    }
}
