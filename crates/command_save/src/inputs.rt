//! The header and the area of a play that may be saved, with the bytes of their files.
ghost use Rattle.std.specs.Prelude.{◌≡◌, ◌≤◌, ℕ, length, IsTrue, IfOk, IfErr};
ghost use Rattle.nwq_value.specs.Limits.{file_limit};
ghost use Rattle.nwq_outside.specs.Outside.{next};
ghost use Rattle.play_save.specs.Rules.{IsAreaOf, IsHeaderOf};
ghost use Rattle.command_work.specs.Counts.{Refusing, StopsArea, StopsSource};
ghost use Rattle.command_work.specs.Calls.{DoesOn, TalliesOn, TalliesPuts, DoesPuts};
ghost use Rattle.command_sources.specs.Reads.{header_read};
ghost use Rattle.command_save.specs.Inputs.{area_in, area_named, header_in, header_named};
ghost use Rattle.command_save.specs.Inputs.{header_of};

use area_tree::Area;
use command_sources::{is_dash, table_of_text};
use command_work::{Status, read_file};
use engine_table::built_in;
use nwq_outside::{Files, Sink};
use nwq_value::{Items, NoMemory, Table};
use play_inputs::area_of_bytes;
use std::alloc::Global;

/// A header's table and text. The built-in header has no text.
#[derive(Drop)]
pub struct HeaderFile {
    pub text: Option<Items<u8>>,
    pub table: Table,
}

/// An area and the bytes of its file.
#[derive(Drop)]
pub struct AreaFile {
    pub bytes: Items<u8>,
    pub area: Area,
}

/// The header of a text, which is that of the file of this name.
#[tactic(auto, using(crate::proofs::StepLemmas::gives), unfolding(crate::specs::Inputs::header_in))]
fn header_of_text<S: Sink>(
    alloc: Global,
    name: &[u8],
    text: Items<u8>,
    out: &mut S,
) -> Result<HeaderFile, Status>
    requires small { length text ≤ file_limit }
    ensures does { IsTrue S.tells → DoesPuts S.taken (header_in name.now text) out.old result
        out.new }
    ensures counts { TalliesPuts S.faults result out.old out.new }
    ensures header { IfOk result (λ h. IsHeaderOf h.text h.table) }
    ensures only { IfErr result (Refusing Status.Script) }
{
    match table_of_text(alloc, name, text.as_slice(), out) {
        Err(status) => {
            drop(text);
            Err(status)
        }
        Ok(table) => Ok(HeaderFile {
            text: Some(text),
            table,
        }),
    }
}

/// The header in the file of this name.
#[tactic(auto, using(crate::proofs::StepLemmas::steps), unfolding(crate::specs::Inputs::header_named))]
fn header_of_file<F: Files, S: Sink>(
    alloc: Global,
    name: &str,
    files: &mut F,
    out: &mut S,
) -> Result<HeaderFile, Status>
    ensures does { IsTrue F.tells → IsTrue S.tells → DoesOn F.contents S.taken
        (header_named name.now) files.old out.old result files.new out.new }
    ensures counts { TalliesOn F.counts S.faults result files.old out.old files.new out.new }
    ensures same { F.contents files.new ≡ F.contents files.old }
    ensures once { F.reads files.new ≡ next (F.reads files.old) }
    ensures header { IfOk result (λ h. IsHeaderOf h.text h.table) }
    ensures only { IfErr result StopsSource }
{
    match read_file(alloc, name, files, out) {
        Err(status) => Err(status),
        Ok(text) => header_of_text(alloc, name.as_bytes(), text, out),
    }
}

/// The header that a word names: `-` is the built-in one, every other word a file.
#[tactic(auto, using(crate::proofs::StepLemmas::built), unfolding(crate::specs::Inputs::header_of))]
pub(crate) fn read_header<F: Files, S: Sink>(
    alloc: Global,
    word: &str,
    files: &mut F,
    out: &mut S,
) -> Result<HeaderFile, Status>
    ensures does { IsTrue F.tells → IsTrue S.tells → DoesOn F.contents S.taken (header_of word.now)
        files.old out.old result files.new out.new }
    ensures counts { TalliesOn F.counts S.faults result files.old out.old files.new out.new }
    ensures same { F.contents files.new ≡ F.contents files.old }
    ensures once { F.reads files.new ≡ header_read word.now (F.reads files.old) }
    ensures header { IfOk result (λ h. IsHeaderOf h.text h.table) }
    ensures only { IfErr result StopsSource }
{
    if !is_dash(word) {
        return header_of_file(alloc, word, files, out);
    }
    match built_in(alloc) {
        Ok(table) => Ok(HeaderFile { text: None, table }),
        Err(NoMemory) => Err(Status::Memory),
    }
}

/// The area of bytes, which are those of the file of this name.
#[tactic(auto, using(crate::proofs::StepLemmas::gives, crate::proofs::InputLemmas::inputs), unfolding(crate::specs::Inputs::area_in))]
fn area_with<S: Sink>(
    alloc: Global,
    name: &[u8],
    bytes: Items<u8>,
    out: &mut S,
) -> Result<AreaFile, Status>
    requires small { length bytes ≤ file_limit }
    ensures does { IsTrue S.tells → DoesPuts S.taken (area_in name.now bytes) out.old result out.new }
    ensures counts { TalliesPuts S.faults result out.old out.new }
    ensures area { IfOk result (λ a. IsAreaOf a.area.tree a.bytes) }
    ensures only { IfErr result (Refusing Status.Area) }
{
    match area_of_bytes(alloc, name, bytes.as_slice(), out) {
        Err(status) => {
            drop(bytes);
            Err(status)
        }
        Ok(area) => Ok(AreaFile { bytes, area }),
    }
}

/// The area of the file of this name.
#[tactic(auto, using(crate::proofs::StepLemmas::steps), unfolding(crate::specs::Inputs::area_named))]
pub(crate) fn read_area_file<F: Files, S: Sink>(
    alloc: Global,
    name: &str,
    files: &mut F,
    out: &mut S,
) -> Result<AreaFile, Status>
    ensures does { IsTrue F.tells → IsTrue S.tells → DoesOn F.contents S.taken (area_named name.now)
        files.old out.old result files.new out.new }
    ensures counts { TalliesOn F.counts S.faults result files.old out.old files.new out.new }
    ensures same { F.contents files.new ≡ F.contents files.old }
    ensures once { F.reads files.new ≡ next (F.reads files.old) }
    ensures area { IfOk result (λ a. IsAreaOf a.area.tree a.bytes) }
    ensures only { IfErr result StopsArea }
{
    match read_file(alloc, name, files, out) {
        Err(status) => Err(status),
        Ok(bytes) => area_with(alloc, name.as_bytes(), bytes, out),
    }
}
