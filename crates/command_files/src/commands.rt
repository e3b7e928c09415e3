//! The commands that turn a file into a text, or a text into a file.

ghost use Rattle.std.specs.Prelude.{◌≡◌, ℕ, length, codes, IsTrue, IfErr};
ghost use Rattle.nwq_outside.specs.Outside.{next};
ghost use Rattle.command_work.specs.Work.{CutsShort};
ghost use Rattle.command_work.specs.Counts.{KeepsBut, StopsArea, StopsCode};
ghost use Rattle.command_work.specs.Calls.{DoesOn, TalliesOn, IsName};
ghost use Rattle.command_files.specs.Texts.{done_line};
ghost use Rattle.command_files.specs.Commands.{shows_tree, writes_and_puts};
ghost use Rattle.command_files.specs.Commands.{disassembles, assembles};

use crate::assembly::read_assembly;
use crate::code::read_code;
use crate::texts::done_line;
use crate::tree::read_tree;
use command_work::{Status, put, write_file};
use gff_text::tree_text;
use ncs_text::disassemble;
use nwq_outside::{Files, Sink};
use nwq_value::NoMemory;
use std::alloc::Global;

/// Shows the tree of the GFF file of this name.
#[tactic(auto, using(crate::proofs::Steps::steps, command_work::specs::Parts::puts_does), unfolding(crate::specs::Commands::shows_tree))]
pub fn show_tree<F: Files, S: Sink>(
    alloc: Global,
    file: &str,
    files: &mut F,
    out: &mut S,
) -> Result<(), Status>
    ensures does { IsTrue F.tells → IsTrue S.tells → DoesOn F.contents S.taken (shows_tree file.now)
        files.old out.old result files.new out.new }
    ensures counts { TalliesOn F.counts S.faults result files.old out.old files.new out.new }
    ensures same { F.contents files.new ≡ F.contents files.old }
    ensures once { F.reads files.new ≡ next (F.reads files.old) }
    ensures only { IfErr result StopsArea }
{
    match read_tree(alloc, file, files, out) {
        Err(status) => Err(status),
        Ok(tree) => put(tree_text(alloc, &tree), out),
    }
}

/// Writes a file, and puts the line that tells what was done to it, with a number.
#[tactic(auto, using(crate::proofs::Steps::steps), unfolding(crate::specs::Commands::writes_and_puts))]
pub fn write_and_put<F: Files, S: Sink>(
    alloc: Global,
    to: &str,
    bytes: &[u8],
    done: &str,
    count: u64,
    files: &mut F,
    out: &mut S,
) -> Result<(), Status>
    ensures does { IsTrue F.tells → IsTrue S.tells → DoesOn F.contents S.taken
        (writes_and_puts to.now bytes.now (done_line done.now to.now count))
        files.old out.old result files.new out.new }
    ensures counts { TalliesOn F.counts S.faults result files.old out.old files.new out.new }
    ensures names { KeepsBut (IsName to.now) (F.contents files.old) (F.contents files.new) }
    ensures unread { F.reads files.new ≡ F.reads files.old }
    ensures only { IfErr result CutsShort }
{
    match write_file(to, bytes, files) {
        Err(status) => Err(status),
        Ok(()) => put(done_line(alloc, done, to.as_bytes(), count), out),
    }
}

/// Writes the text of the file of bytecode of this name under another.
#[tactic(auto, using(crate::proofs::Steps::steps, crate::proofs::CommandLemmas::bytes_wanted, command_work::specs::KeepsLemmas::keeps_all), unfolding(crate::specs::Commands::disassembles))]
pub fn disassemble_file<F: Files, S: Sink>(
    alloc: Global,
    file: &str,
    to: &str,
    files: &mut F,
    out: &mut S,
) -> Result<(), Status>
    ensures does { IsTrue F.tells → IsTrue S.tells → DoesOn F.contents S.taken
        (disassembles file.now to.now) files.old out.old result files.new out.new }
    ensures counts { TalliesOn F.counts S.faults result files.old out.old files.new out.new }
    ensures names { KeepsBut (IsName to.now) (F.contents files.old) (F.contents files.new) }
    ensures once { F.reads files.new ≡ next (F.reads files.old) }
    ensures only { IfErr result StopsCode }
{
    match read_code(alloc, file, files, out) {
        Err(status) => Err(status),
        Ok(code) => match disassemble(alloc, &code) {
            Err(NoMemory) => Err(Status::Memory),
            Ok(text) => {
                let count = u64::from(code.count());
                let text = text.as_slice();
                write_and_put(alloc, to, text, "disassembled ", count, files, out)
            }
        },
    }
}

/// Writes the file of the assembler text of this name under another.
#[tactic(auto, using(crate::proofs::Steps::steps, command_work::specs::KeepsLemmas::keeps_all), unfolding(crate::specs::Commands::assembles))]
pub fn assemble_file<F: Files, S: Sink>(
    alloc: Global,
    file: &str,
    to: &str,
    files: &mut F,
    out: &mut S,
) -> Result<(), Status>
    ensures does { IsTrue F.tells → IsTrue S.tells → DoesOn F.contents S.taken
        (assembles file.now to.now) files.old out.old result files.new out.new }
    ensures counts { TalliesOn F.counts S.faults result files.old out.old files.new out.new }
    ensures names { KeepsBut (IsName to.now) (F.contents files.old) (F.contents files.new) }
    ensures once { F.reads files.new ≡ next (F.reads files.old) }
    ensures only { IfErr result StopsCode }
{
    match read_assembly(alloc, file, files, out) {
        Err(status) => Err(status),
        Ok(bytes) => {
            let size = bytes.len() as u64;
            write_and_put(alloc, to, bytes.as_slice(), "assembled ", size, files, out)
        }
    }
}
