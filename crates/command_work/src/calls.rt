ghost use Rattle.std.specs.Prelude.{◌≡◌, ◌≤◌, ℕ, List, length, IsTrue, IfOk, IfErr};
ghost use Rattle.nwq_value.specs.Limits.{file_limit};
ghost use Rattle.nwq_outside.specs.Outside.{next};
ghost use Rattle.command_work.specs.Work.{Does, CutsShort, file_named, writes};
ghost use Rattle.command_work.specs.Parts.{PutsWhole};
ghost use Rattle.command_work.specs.Counts.{Counted, Tallies, CountsPut, KeepsBut, StopsRead};
ghost use Rattle.command_work.specs.Calls.{DoesOn, TalliesOn, TalliesPuts, IsName};

use crate::refusal::{refuse_absent, refuse_long};
use crate::status::Status;
use nwq_outside::{Done, Files, Read, Sink};
use nwq_value::{Items, NoMemory};
use std::alloc::Global;

/// Puts a text, if there was memory to make it.
pub(crate) fn put_line<S: Sink>(text: Result<Vec<u8>, NoMemory>, out: &mut S) -> Result<(), Status>
    ensures does { IsTrue S.tells → (whole : List ℕ) → IfOk text (λ t. t.items ≡ whole) →
        PutsWhole whole (S.taken out.old) result (S.taken out.new) }
    ensures counts { CountsPut result (S.faults out.old) (S.faults out.new) }
    ensures only { IfErr result CutsShort }
{
    match text {
        Err(_) => Err(Status::Memory),
        Ok(text) => match out.put(text.as_slice()) {
            Done::Ok => Ok(()),
            Done::Failed => Err(Status::Fault),
            Done::NoMemory => Err(Status::Memory),
        },
    }
}

/// Puts a text, if there was memory to make it.
#[tactic(auto, using(crate::proofs::Tallied::put_cut))]
pub fn put<S: Sink>(text: Result<Vec<u8>, NoMemory>, out: &mut S) -> Result<(), Status>
    ensures does { IsTrue S.tells → (whole : List ℕ) → IfOk text (λ t. t.items ≡ whole) →
        PutsWhole whole (S.taken out.old) result (S.taken out.new) }
    ensures counts { TalliesPuts S.faults result out.old out.new }
    ensures only { IfErr result CutsShort }
{
    match put_line(text, out) {
        Ok(()) => Ok(()),
        Err(cut) => Err(cut),
    }
}

/// Reads the file of this name.
#[tactic(auto, using(crate::proofs::FileLemmas::reads))]
pub fn read_file<F: Files, S: Sink>(
    alloc: Global,
    name: &str,
    files: &mut F,
    out: &mut S,
) -> Result<Items<u8>, Status>
    ensures does { IsTrue F.tells → IsTrue S.tells → DoesOn F.contents S.taken (file_named name.now)
        files.old out.old result files.new out.new }
    ensures counts { TalliesOn F.counts S.faults result files.old out.old files.new out.new }
    ensures same { F.contents files.new ≡ F.contents files.old }
    ensures once { F.reads files.new ≡ next (F.reads files.old) }
    ensures size { IfOk result (λ bytes. length bytes ≤ file_limit) }
    ensures only { IfErr result StopsRead }
{
    match files.read(alloc, name) {
        Read::Bytes(bytes) => Ok(Items::of_vec(bytes)),
        Read::Missing => Err(refuse_absent(alloc, name.as_bytes(), out)),
        Read::Failed => Err(Status::Fault),
        Read::Long => Err(refuse_long(alloc, name.as_bytes(), out)),
        Read::NoMemory => Err(Status::Memory),
    }
}

/// Writes these bytes under the name.
#[tactic(auto, using(crate::proofs::FileLemmas::wrote, crate::proofs::FileLemmas::write_cut, crate::specs::KeepsLemmas::keeps_write))]
pub fn write_file<F: Files>(name: &str, bytes: &[u8], files: &mut F) -> Result<(), Status>
    ensures does { IsTrue F.tells → (t : List ℕ) →
        Does (writes name.now bytes.now) (F.contents files.old) t result (F.contents files.new) t }
    ensures counts { (puts : ℕ) → Tallies result (Counted (F.counts files.old) puts)
        (Counted (F.counts files.new) puts) }
    ensures names { KeepsBut (IsName name.now) (F.contents files.old) (F.contents files.new) }
    ensures unread { F.reads files.new ≡ F.reads files.old }
    ensures only { IfErr result CutsShort }
{
    match files.write(name, bytes) {
        Done::Ok => Ok(()),
        Done::Failed => Err(Status::Fault),
        Done::NoMemory => Err(Status::Memory),
    }
}
