ghost use Rattle.std.specs.Prelude.{◌≡◌, ◌++◌, ℕ, codes, IfOk, IsTrue};
ghost use Rattle.nwq_outside.specs.declared.counts.CountOf.TheVariants.{Absences, Longs};
ghost use Rattle.nwq_outside.specs.declared.counts.FileCounts.{FileCounts};
ghost use Rattle.nwq_outside.specs.Outside.{Rose};
ghost use Rattle.nwq_text.specs.Escape.{escaped};
ghost use Rattle.command_work.specs.Refusal.{line_of, NoForm, Absent, TooLong, At};
ghost use Rattle.command_work.specs.Refusal.{BadCode, BadArea};
ghost use Rattle.command_work.specs.Parts.{Refuses};
ghost use Rattle.command_work.specs.Counts.{Counted, TalliesEnd, Refusing};
ghost use Rattle.command_work.specs.Calls.{TalliesStop};

use crate::calls::put_line;
use crate::cause::Cause;
use crate::flaw::{AreaFlaw, CodeFlaw, put_area_flaw, put_code_flaw};
use crate::status::Status;
use crate::text::put_ascii;
use nwq_outside::Sink;
use nwq_text::{put_number, put_text};
use nwq_value::NoMemory;
use std::alloc::Global;

/// A line of a word, a space and a file's name.
fn name_line(alloc: Global, word: &str, name: &[u8]) -> Result<Vec<u8>, NoMemory>
    ensures { IfOk result (λ text. text.items ≡ word.now ++ escaped name.now ++ codes "\n") }
{
    let mut text = Vec::new(alloc);
    put_ascii(&mut text, word)?;
    put_text(&mut text, name)?;
    put_ascii(&mut text, "\n")?;
    Ok(text)
}

/// The line for a place of a text.
fn place_line(
    alloc: Global,
    name: &[u8],
    line: u32,
    at: u32,
    cause: Cause,
) -> Result<Vec<u8>, NoMemory>
    ensures { IfOk result (λ text. text.items ≡ line_of (At name.now line at cause)) }
{
    let mut text = Vec::new(alloc);
    put_ascii(&mut text, "refused ")?;
    put_text(&mut text, name)?;
    put_ascii(&mut text, " ")?;
    put_number(&mut text, i64::from(line))?;
    put_ascii(&mut text, " ")?;
    put_number(&mut text, i64::from(at))?;
    put_ascii(&mut text, " ")?;
    put_ascii(&mut text, cause.word())?;
    put_ascii(&mut text, "\n")?;
    Ok(text)
}

/// The line for a file of bytecode or an assembler text.
fn code_line(alloc: Global, name: &[u8], flaw: CodeFlaw) -> Result<Vec<u8>, NoMemory>
    ensures { IfOk result (λ text. text.items ≡ line_of (BadCode name.now flaw)) }
{
    let mut text = Vec::new(alloc);
    put_ascii(&mut text, "refused ")?;
    put_text(&mut text, name)?;
    put_ascii(&mut text, " ")?;
    put_code_flaw(&mut text, flaw)?;
    put_ascii(&mut text, "\n")?;
    Ok(text)
}

/// The line for a GFF file, an area or a plan.
fn area_line(alloc: Global, name: &[u8], flaw: AreaFlaw) -> Result<Vec<u8>, NoMemory>
    ensures { IfOk result (λ text. text.items ≡ line_of (BadArea name.now flaw)) }
{
    let mut text = Vec::new(alloc);
    put_ascii(&mut text, "refused ")?;
    put_text(&mut text, name)?;
    put_ascii(&mut text, " ")?;
    put_area_flaw(&mut text, flaw)?;
    put_ascii(&mut text, "\n")?;
    Ok(text)
}

/// The line for words that are no form of a command.
fn form_line(alloc: Global) -> Result<Vec<u8>, NoMemory>
    ensures { IfOk result (λ text. text.items ≡ line_of NoForm) }
{
    Ok(Vec::from_slice(alloc, b"refused words\n")?)
}

/// Refuses words that are no form of a command.
#[tactic(auto, using(crate::proofs::Tallied::put_cut))]
pub fn refuse_form<S: Sink>(alloc: Global, out: &mut S) -> Status
    ensures does { IsTrue S.tells → Refuses NoForm (S.taken out.old) result (S.taken out.new) }
    ensures counts { TalliesStop S.faults result out.old out.new }
    ensures only { Refusing Status.Words result }
{
    match put_line(form_line(alloc), out) {
        Ok(()) => Status::Words,
        Err(cut) => cut,
    }
}

/// Refuses the text of a script or of a header at this place of the file with this name.
#[tactic(auto, using(crate::proofs::Tallied::put_cut))]
pub fn refuse_at<S: Sink>(
    alloc: Global,
    name: &[u8],
    line: u32,
    at: u32,
    cause: Cause,
    out: &mut S,
) -> Status
    ensures does { IsTrue S.tells →
        Refuses (At name.now line at cause) (S.taken out.old) result (S.taken out.new) }
    ensures counts { TalliesStop S.faults result out.old out.new }
    ensures only { Refusing Status.Script result }
{
    match put_line(place_line(alloc, name, line, at, cause), out) {
        Ok(()) => Status::Script,
        Err(cut) => cut,
    }
}

/// Refuses the file of bytecode, or the assembler text, of this name.
#[tactic(auto, using(crate::proofs::Tallied::put_cut))]
pub fn refuse_code<S: Sink>(alloc: Global, name: &[u8], flaw: CodeFlaw, out: &mut S) -> Status
    ensures does { IsTrue S.tells →
        Refuses (BadCode name.now flaw) (S.taken out.old) result (S.taken out.new) }
    ensures counts { TalliesStop S.faults result out.old out.new }
    ensures only { Refusing Status.Code result }
{
    match put_line(code_line(alloc, name, flaw), out) {
        Ok(()) => Status::Code,
        Err(cut) => cut,
    }
}

/// Refuses the GFF file, the area in it, or the plan, of this name.
#[tactic(auto, using(crate::proofs::Tallied::put_cut))]
pub fn refuse_area<S: Sink>(alloc: Global, name: &[u8], flaw: AreaFlaw, out: &mut S) -> Status
    ensures does { IsTrue S.tells →
        Refuses (BadArea name.now flaw) (S.taken out.old) result (S.taken out.new) }
    ensures counts { TalliesStop S.faults result out.old out.new }
    ensures only { Refusing Status.Area result }
{
    match put_line(area_line(alloc, name, flaw), out) {
        Ok(()) => Status::Area,
        Err(cut) => cut,
    }
}

/// Refuses a file of this name, which isn't there: its absence was counted just before.
#[tactic(auto, using(crate::proofs::Tallied::absent_cut))]
pub fn refuse_absent<S: Sink>(alloc: Global, name: &[u8], out: &mut S) -> Status
    ensures does { IsTrue S.tells →
        Refuses (Absent name.now) (S.taken out.old) result (S.taken out.new) }
    ensures counts { (before now : FileCounts) → Rose Absences before now → TalliesEnd result
        (Counted before (S.faults out.old)) (Counted now (S.faults out.new)) }
    ensures only { Refusing Status.Missing result }
{
    match put_line(name_line(alloc, "missing ", name), out) {
        Ok(()) => Status::Missing,
        Err(cut) => cut,
    }
}

/// Refuses a file of this name, which is too long: that was counted just before.
#[tactic(auto, using(crate::proofs::Tallied::long_cut))]
pub fn refuse_long<S: Sink>(alloc: Global, name: &[u8], out: &mut S) -> Status
    ensures does { IsTrue S.tells →
        Refuses (TooLong name.now) (S.taken out.old) result (S.taken out.new) }
    ensures counts { (before now : FileCounts) → Rose Longs before now → TalliesEnd result
        (Counted before (S.faults out.old)) (Counted now (S.faults out.new)) }
    ensures only { Refusing Status.Long result }
{
    match put_line(name_line(alloc, "long ", name), out) {
        Ok(()) => Status::Long,
        Err(cut) => cut,
    }
}
