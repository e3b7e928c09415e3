ghost use Rattle.std.specs.Prelude.{◌≡◌, ◌≤◌, ℕ, List, length, IsTrue, IfOk, IfErr};
ghost use Rattle.std.specs.Prelude.{bytes_eq, codes};
ghost use Rattle.nwq_value.specs.Limits.{file_limit};
ghost use Rattle.nwq_value.specs.Engine.{EngineTable};
ghost use Rattle.nwq_outside.specs.Outside.{next};
ghost use Rattle.engine_table.specs.Headers.{HasTable};
ghost use Rattle.command_work.specs.Counts.{Refusing, StopsSource};
ghost use Rattle.command_work.specs.Calls.{DoesOn, TalliesOn, TalliesPuts, DoesPuts};
ghost use Rattle.command_sources.specs.Headers.{table_in, table_of_word};
ghost use Rattle.command_sources.specs.Reads.{header_read};

use command_work::{Cause, Status, read_file, refuse_at};
use engine_table::{HeaderFault, built_in, read_header};
use nwq_outside::{Files, Sink};
use nwq_text::line_of;
use nwq_value::{NoMemory, Table};
use std::alloc::Global;

/// The table of a header's text, which is that of the file of this name.
#[tactic(auto, using(crate::proofs::HeaderLemmas::fates))]
pub fn table_of_text<S: Sink>(
    alloc: Global,
    name: &[u8],
    bytes: &[u8],
    out: &mut S,
) -> Result<Table, Status>
    requires { length bytes.now ≤ file_limit }
    ensures does { IsTrue S.tells → DoesPuts S.taken (table_in name.now bytes.now)
        out.old result out.new }
    ensures counts { TalliesPuts S.faults result out.old out.new }
    ensures has { IfOk result (HasTable bytes.now) }
    ensures only { IfErr result (Refusing Status.Script) }
{
    match read_header(alloc, bytes) {
        Ok(table) => Ok(table),
        Err(HeaderFault::Bad(at)) => {
            Err(refuse_at(alloc, name, line_of(bytes, at), at, Cause::Bad, out))
        }
        Err(HeaderFault::Header(at)) => {
            Err(refuse_at(alloc, name, line_of(bytes, at), at, Cause::Header, out))
        }
        Err(HeaderFault::Twice(at)) => {
            Err(refuse_at(alloc, name, line_of(bytes, at), at, Cause::Twice, out))
        }
        Err(HeaderFault::Many(at)) => {
            Err(refuse_at(alloc, name, line_of(bytes, at), at, Cause::Many, out))
        }
        Err(HeaderFault::NoMemory) => Err(Status::Memory),
    }
}

/// Whether a word names the built-in header.
pub fn is_dash(word: &str) -> bool
    ensures { result ≡ bytes_eq word.now (codes "-") }
{
    word == "-"
}

/// The table of the header that a word names: `-` is the built-in one, every other word a file.
#[tactic(auto, using(crate::proofs::Steps::steps, crate::proofs::HeaderLemmas::built), unfolding(crate::specs::Headers::table_of_word, crate::specs::Headers::table_named))]
pub fn read_table<F: Files, S: Sink>(
    alloc: Global,
    header: &str,
    files: &mut F,
    out: &mut S,
) -> Result<Table, Status>
    ensures does { IsTrue F.tells → IsTrue S.tells → DoesOn F.contents S.taken
        (table_of_word header.now) files.old out.old result files.new out.new }
    ensures counts { TalliesOn F.counts S.faults result files.old out.old files.new out.new }
    ensures same { F.contents files.new ≡ F.contents files.old }
    ensures once { F.reads files.new ≡ header_read header.now (F.reads files.old) }
    ensures only { IfErr result StopsSource }
{
    if is_dash(header) {
        match built_in(alloc) {
            Ok(table) => Ok(table),
            Err(NoMemory) => Err(Status::Memory),
        }
    } else {
        match read_file(alloc, header, files, out) {
            Err(status) => Err(status),
            Ok(bytes) => table_of_text(alloc, header.as_bytes(), bytes.as_slice(), out),
        }
    }
}
