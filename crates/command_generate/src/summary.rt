//! The summary of a made play.
ghost use Rattle.std.specs.Prelude.{◌≡◌, ◌≤◌, ◌*◌, ◌++◌, ℕ, length, IsTrue, IfOk, IfErr, OnOk};
ghost use Rattle.nwq_outside.specs.Outside.{Contents};
ghost use Rattle.saved_state.specs.declared.saved.Saved.{Saved as SavedView};
ghost use Rattle.world_rules.specs.Trace.{trace_text};
ghost use Rattle.world_rules.specs.World.{World as WorldView};
ghost use Rattle.world_rules.specs.Plays.{Played as PlayedView};
ghost use Rattle.play_generator.specs.Made.{creatures_of, number_limit, rounds_of};
ghost use Rattle.module_player.specs.EndTexts.{HasText, IsEnding};
ghost use Rattle.nwq_outside.specs.declared.counts.FileCounts.{FileCounts};
ghost use Rattle.command_work.specs.Work.{Does, CutsShort};
ghost use Rattle.command_work.specs.Parts.{PutsWhole};
ghost use Rattle.command_work.specs.Counts.{Counted, Tallies, Refusing};
ghost use Rattle.trace_lines.specs.Lines.{newlines, AreOneLines};
ghost use Rattle.command_generate.specs.Generated.{numbered_words, made_line, summary, tells};

use command_plays::ending_of;
use command_work::{Status, put};
use module_player::{Played, put_end_line};
use nwq_outside::Sink;
use nwq_text::put_count;
use nwq_value::NoMemory;
use std::alloc::Global;
use trace_lines::plays_tell_lines;

/// How many creatures are made from a number.
fn creatures_of(number: u32) -> u32
    ensures count { result ≡ creatures_of number }
    ensures few { result ≤ 1000 }
{
    1 + number % 1000
}

/// How many rounds are made from a number.
fn rounds_of(number: u32) -> u32
    ensures count { result ≡ rounds_of number }
    ensures few { result ≤ 60 }
{
    1 + number / 1000 % 60
}

/// How many events so many creatures have in so many rounds.
#[tactic(auto, using(crate::proofs::SummaryLemmas::events_fit))]
fn events_of(creatures: u32, rounds: u32) -> u32
    requires few { creatures ≤ 1000 }
    requires rounds { rounds ≤ 60 }
    ensures count { result ≡ creatures * rounds }
{
    creatures * rounds
}

/// How many newlines a trace has: one for each line.
fn newlines_in(trace: &[u8]) -> u64
    ensures count { result ≡ newlines trace.now }
{
    trace.iter().filter(|byte| **byte == b'\n').count() as u64
}

/// Appends a number behind its words.
fn put_counted(out: &mut Vec<u8>, words: &[u8], n: u64) -> Result<(), NoMemory>
    ensures text { OnOk result (out.new.items ≡ out.old.items ++ numbered_words words.now n) }
{
    out.extend_from_slice(words)?;
    put_count(out, n)
}

/// Appends how much was made and told.
#[tactic(auto, unfolding(crate::specs::Generated::made_line))]
fn put_made(out: &mut Vec<u8>, creatures: u32, events: u32, trace: &[u8]) -> Result<(), NoMemory>
    ensures line { OnOk result (out.new.items ≡ out.old.items ++ made_line creatures events
        (newlines trace.now) (length trace.now)) }
{
    put_counted(out, b"generated creatures ", u64::from(creatures))?;
    put_counted(out, b" events ", u64::from(events))?;
    put_counted(out, b" lines ", newlines_in(trace))?;
    put_counted(out, b" bytes ", trace.len() as u64)?;
    out.push(b'\n')?;
    Ok(())
}

/// The summary of the play of a number, which left this trace and ended at this time.
fn summary_of(
    alloc: Global,
    number: u32,
    trace: &[u8],
    clock: u64,
    played: &Played,
) -> Result<Vec<u8>, NoMemory>
    requires number { number ≤ number_limit }
    requires told { HasText played.now.how }
    ensures text { IfOk result (λ text. (p : PlayedView SavedView) (w : WorldView SavedView)
        → IsEnding played.now p w → trace.now ≡ trace_text p.last.trace
        → AreOneLines p.last.trace → clock ≡ w.clock → text.items ≡ summary number p) }
{
    plays_tell_lines();
    let mut out = Vec::new(alloc);
    let creatures = creatures_of(number);
    let events = events_of(creatures, rounds_of(number));
    put_made(&mut out, creatures, events, trace)?;
    put_end_line(&mut out, played, clock)?;
    Ok(out)
}

/// Puts the summary of the play of a number.
fn put_summary<S: Sink>(
    alloc: Global,
    number: u32,
    trace: &[u8],
    clock: u64,
    played: &Played,
    out: &mut S,
) -> Result<(), Status>
    requires number { number ≤ number_limit }
    requires told { HasText played.now.how }
    ensures puts { IsTrue S.tells → (p : PlayedView SavedView) (w : WorldView SavedView) →
        IsEnding played.now p w → trace.now ≡ trace_text p.last.trace →
        AreOneLines p.last.trace → clock ≡ w.clock →
        PutsWhole (summary number p) (S.taken out.old) result (S.taken out.new) }
    ensures counts { (counts : FileCounts) → Tallies result (Counted counts (S.faults out.old))
        (Counted counts (S.faults out.new)) }
    ensures only { IfErr result CutsShort }
{
    put(summary_of(alloc, number, trace, clock, played), out)
}

/// Puts the summary of the play of a number, and ends as the play did.
#[tactic(auto, using(crate::proofs::SummaryLemmas::tellings))]
pub(crate) fn tell<S: Sink>(
    alloc: Global,
    number: u32,
    trace: &[u8],
    clock: u64,
    played: &Played,
    out: &mut S,
) -> Result<(), Status>
    requires number { number ≤ number_limit }
    requires told { HasText played.now.how }
    ensures does { IsTrue S.tells → (p : PlayedView SavedView) (w : WorldView SavedView) →
        IsEnding played.now p w → trace.now ≡ trace_text p.last.trace →
        AreOneLines p.last.trace → clock ≡ w.clock → (c : Contents) →
        Does (tells number p) c (S.taken out.old) result c (S.taken out.new) }
    ensures counts { (counts : FileCounts) → Tallies result (Counted counts (S.faults out.old))
        (Counted counts (S.faults out.new)) }
    ensures only { IfErr result (Refusing Status.Limit) }
{
    match put_summary(alloc, number, trace, clock, played, out) {
        Err(cut) => Err(cut),
        Ok(()) => ending_of(played.how),
    }
}
