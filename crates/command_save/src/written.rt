//! The file of a state.
ghost use Rattle.std.specs.Prelude.{◌≡◌, ◌++◌, IsTrue, IfOk, IfErr};
ghost use Rattle.command_work.specs.Work.{CutsShort};
ghost use Rattle.command_work.specs.Counts.{KeepsBut};
ghost use Rattle.command_work.specs.Calls.{DoesOn, TalliesOn, IsName};
ghost use Rattle.command_save.specs.Saves.{saved_line, state_told};

use command_work::{Status, put, write_file};
use nwq_outside::{Files, Sink};
use nwq_text::{put_count, put_text};
use nwq_value::NoMemory;
use std::alloc::Global;

/// The line that tells in which file a state was saved, and after how many entries.
fn saved_line(alloc: Global, name: &[u8], entries: u64) -> Result<Vec<u8>, NoMemory>
    ensures line { IfOk result (λ text. text.items ≡ saved_line name.now entries) }
{
    let mut text = Vec::new(alloc);
    text.extend_from_slice(b"saved ")?;
    put_text(&mut text, name)?;
    text.extend_from_slice(b" entries ")?;
    put_count(&mut text, entries)?;
    text.push(b'\n')?;
    Ok(text)
}

/// Writes the bytes of a state, and then tells so.
#[tactic(auto, using(crate::proofs::StepLemmas::steps, command_work::specs::Parts::puts_does), unfolding(crate::specs::Saves::state_told))]
pub(crate) fn write_bytes<F: Files, S: Sink>(
    alloc: Global,
    name: &str,
    bytes: &[u8],
    entries: u64,
    files: &mut F,
    out: &mut S,
) -> Result<(), Status>
    ensures does { IsTrue F.tells → IsTrue S.tells → DoesOn F.contents S.taken
        (state_told name.now bytes.now entries) files.old out.old result files.new out.new }
    ensures counts { TalliesOn F.counts S.faults result files.old out.old files.new out.new }
    ensures names { KeepsBut (IsName name.now) (F.contents files.old) (F.contents files.new) }
    ensures unread { F.reads files.new ≡ F.reads files.old }
    ensures only { IfErr result CutsShort }
{
    match write_file(name, bytes, files) {
        Err(status) => Err(status),
        Ok(()) => put(saved_line(alloc, name.as_bytes(), entries), out),
    }
}
