//! The message after a command.

ghost use Rattle.std.specs.Prelude.{◌≡◌, ◌≤◌, bytes_eq, length, false, IfNone, IfSome};
ghost use Rattle.nwq_value.specs.Limits.{file_limit};

use crate::inputs::{Inputs, inputs_of};
use crate::notes::notes_on;
use crate::scripts::scripts_of;
use command_words::command_of;
use command_work::Status;
use message_lines::{LineFault, code_fault, list_fault, plan_fault, put_line_fault, table_fault};
use message_places::{
    Ask, Asking, Lister, Spot, include_of, line_of_file, name_in, put_by_token, put_cause,
    put_cause_open, put_of_scripts, read_named, table_of, token_at,
};
use message_sentences::{
    Told, kind_of, line_in, place_of_line, put_end, put_fault, put_flaw, put_head, put_kind,
    put_memory, put_name, put_no_text, put_sentence, put_usage, put_whole, put_words, same,
    told_by,
};
use message_stacks::put_why;
use nwq_outside::{Files, Sink};
use nwq_value::{NoMemory, Table, Text};
use play_remarks::Remark;
use real_files::Trouble;
use std::alloc::Global;

/// How the program ended: its number, the last line on standard output, the last name at which the
/// system failed, and the first word that is no text, where the words weren't taken for that. Of a
/// play: whether it came to its end and left no random numbers, where entries ended before their
/// end, the first 16 and one more where there are more, and its scripts' names by number.
#[derive(Clone, Copy)]
pub struct End<'a> {
    pub number: u8,
    pub line: &'a [u8],
    pub trouble: Option<&'a Trouble>,
    pub random_used_up: bool,
    pub remarks: &'a [Remark],
    pub names: &'a [Text],
    pub no_text: Option<&'a [u8]>,
}

/// The causes that are told by the header's table.
const CAUSES_BY_HEADER: [&[u8]; 4] = [b"arity", b"mismatch", b"unknown", b"redeclared"];

/// The table of the header, where a cause is told by it.
fn table_for<F: Files>(
    alloc: Global,
    inputs: Inputs<'_>,
    cause: &[u8],
    files: &mut F,
) -> Option<Table>
    ensures same { F.contents files.new ≡ F.contents files.old }
{
    if CAUSES_BY_HEADER.iter().any(|word| same(cause, word)) {
        table_of(alloc, inputs.header?, files)
    } else {
        None
    }
}

/// Whether the units tell why a token is refused for a cause: by types and counts, the member of
/// what is none, and a case that stands twice.
fn is_asked(cause: &[u8], token: &[u8]) -> bool {
    same(cause, b"mismatch")
        || same(cause, b"arity")
        || (same(cause, b"unknown") && same(token, b"."))
        || (same(cause, b"redeclared") && same(token, b"case"))
}

/// What a message asks of the units, for causes that are told by them.
fn ask_of<'a>(spot: Spot<'a>) -> Option<Ask<'a>>
    requires size { length spot.bytes.now ≤ file_limit }
    requires place { spot.at ≤ length spot.bytes.now }
{
    if same(spot.cause, b"syntax") {
        return Some(Ask::Following);
    }
    match token_at(spot.bytes, spot.at) {
        Some(token) if is_asked(spot.cause, token.text) => Some(Ask::Why(token.text)),
        _ => None,
    }
}

/// Appends the sentence for a place, and what the units and the header add to it.
fn put_told<F: Files>(
    alloc: Global,
    out: &mut Vec<u8>,
    inputs: Inputs<'_>,
    spot: Spot<'_>,
    files: &mut F,
) -> Result<(), NoMemory>
    requires size { length spot.bytes.now ≤ file_limit }
    requires place { spot.at ≤ length spot.bytes.now }
    ensures same { F.contents files.new ≡ F.contents files.old }
{
    let table = table_for(alloc, inputs, spot.cause, files);
    let Some(ask) = ask_of(spot) else {
        return put_by_token(alloc, out, spot, table.as_ref());
    };
    let scripts = scripts_of(alloc, inputs, files)?;
    let is_first = matches!(ask, Ask::Following);
    if is_first {
        put_cause_open(alloc, out, spot)?;
    }
    let answered = put_of_scripts(
        alloc,
        out,
        scripts.as_slice(),
        table.as_ref(),
        spot,
        ask,
        files,
    )?;
    if answered || is_first {
        return Ok(());
    }
    put_cause(out, spot)
}

/// Appends the message on a place of a source text.
fn put_place_message<F: Files>(
    alloc: Global,
    out: &mut Vec<u8>,
    inputs: Inputs<'_>,
    name: &str,
    at: u32,
    cause: &[u8],
    files: &mut F,
) -> Result<(), NoMemory>
    ensures same { F.contents files.new ≡ F.contents files.old }
{
    match read_named(alloc, name, files) {
        Some(bytes) if at as usize <= bytes.len() => {
            let spot = Spot {
                name: name.as_bytes(),
                bytes: bytes.as_slice(),
                at,
                cause,
            };
            put_head(out, spot.name, spot.bytes, at)?;
            put_told(alloc, out, inputs, spot, files)?;
            put_end(out, cause, spot.bytes, at)
        }
        _ => {
            put_name(out, name.as_bytes())?;
            put_words(out, ": error: the file is refused")?;
            put_kind(out, cause)
        }
    }
}

/// Whether a file that a command reads has this name.
fn is_named(file: Option<&str>, name: &str) -> bool
    ensures none { IfNone file.entry (result ≡ false) }
    ensures named { IfSome file.entry (λ f. result ≡ bytes_eq f.now name.now) }
{
    match file {
        Some(file) => file == name,
        None => false,
    }
}

/// What is wrong with a line of a file that is no source text.
fn fault_of<'a>(
    inputs: Inputs<'_>,
    name: &str,
    flaw: &[u8],
    text: &'a [u8],
    number: u64,
) -> LineFault<'a> {
    if same(kind_of(flaw), b"target") {
        LineFault {
            at: 0,
            sentence: "this instruction leads to no beginning of one",
            piece: b"",
            earlier: None,
        }
    } else if is_named(inputs.plan, name) {
        plan_fault(text, number)
    } else if is_named(inputs.list, name) {
        list_fault(text, number)
    } else if inputs.list.is_some() && name.as_bytes().ends_with(b".2da") {
        table_fault(text, number)
    } else {
        code_fault(text, number)
    }
}

/// Appends the message on a line of a file that is no source text.
fn put_line_message(
    out: &mut Vec<u8>,
    inputs: Inputs<'_>,
    name: &str,
    flaw: &[u8],
    text: &[u8],
    number: u64,
) -> Result<(), NoMemory>
    requires { length text.now ≤ file_limit }
{
    let fault = fault_of(inputs, name, flaw, text, number);
    let place = place_of_line(text, number);
    let at = place.saturating_add(fault.at).min(text.len());
    put_head(out, name.as_bytes(), text, at as u32)?;
    put_line_fault(out, fault)?;
    put_end(out, kind_of(flaw), text, at as u32)
}

/// Appends why the code of a file isn't well stacked under the command's header, and tells whether
/// a reason was found.
fn put_stacks<F: Files>(
    alloc: Global,
    out: &mut Vec<u8>,
    inputs: Inputs<'_>,
    name: &str,
    files: &mut F,
) -> bool
    ensures same { F.contents files.new ≡ F.contents files.old }
    ensures none { result ≡ false → out.new.items ≡ out.old.items }
{
    let Some(header) = inputs.header else {
        return false;
    };
    let Some(table) = table_of(alloc, header, files) else {
        return false;
    };
    match read_named(alloc, name, files) {
        None => false,
        Some(bytes) => matches!(put_why(alloc, bytes.as_slice(), &table, out), Ok(true)),
    }
}

/// Appends the message on a file that is no source text.
fn put_flaw_message<F: Files>(
    alloc: Global,
    out: &mut Vec<u8>,
    inputs: Inputs<'_>,
    name: &str,
    flaw: &[u8],
    files: &mut F,
) -> Result<(), NoMemory>
    ensures same { F.contents files.new ≡ F.contents files.old }
{
    if let Some(number) = line_in(flaw)
        && let Some(bytes) = read_named(alloc, name, files)
    {
        return put_line_message(out, inputs, name, flaw, bytes.as_slice(), number);
    }
    put_name(out, name.as_bytes())?;
    put_words(out, ": error: ")?;
    let is_told = same(kind_of(flaw), b"unstacked") && put_stacks(alloc, out, inputs, name, files);
    if !is_told {
        put_flaw(out, flaw)?;
    }
    put_kind(out, kind_of(flaw))
}

/// The line of a file, if the command reads it, that asks for another.
fn line_asking<F: Files>(
    alloc: Global,
    file: Option<&str>,
    lister: Lister,
    wanted: &[u8],
    files: &mut F,
) -> Result<Option<Asking>, NoMemory>
    ensures same { F.contents files.new ≡ F.contents files.old }
{
    match file {
        None => Ok(None),
        Some(name) => line_of_file(alloc, name, lister, wanted, files),
    }
}

/// The place that asks for a file that isn't there: an include, or a line of a plan or of a list.
fn asking_for<F: Files>(
    alloc: Global,
    inputs: Inputs<'_>,
    wanted: &[u8],
    files: &mut F,
) -> Result<Option<Asking>, NoMemory>
    ensures same { F.contents files.new ≡ F.contents files.old }
{
    if let Some(asking) = line_asking(alloc, inputs.list, Lister::Tables, wanted, files)? {
        return Ok(Some(asking));
    }
    if let Some(asking) = line_asking(alloc, inputs.plan, Lister::Plan, wanted, files)? {
        return Ok(Some(asking));
    }
    let scripts = scripts_of(alloc, inputs, files)?;
    include_in(alloc, scripts.as_slice(), wanted, files)
}

/// The first of these scripts that includes a file, itself or by another include.
fn include_in<F: Files>(
    alloc: Global,
    scripts: &[Text],
    wanted: &[u8],
    files: &mut F,
) -> Result<Option<Asking>, NoMemory>
    ensures same { F.contents files.new ≡ F.contents files.old }
{
    for script in scripts {
        if let Some(asking) = include_of(alloc, script, wanted, files)? {
            return Ok(Some(asking));
        }
    }
    Ok(None)
}

/// Appends the message on a file that isn't there.
fn put_missing<F: Files>(
    alloc: Global,
    out: &mut Vec<u8>,
    inputs: Inputs<'_>,
    name: &[u8],
    files: &mut F,
) -> Result<(), NoMemory>
    ensures same { F.contents files.new ≡ F.contents files.old }
{
    match asking_for(alloc, inputs, name, files)? {
        Some(asking) => put_asked(out, name, &asking),
        None => put_whole(out, name, "there is no such file", "missing"),
    }
}

fn put_asked(out: &mut Vec<u8>, name: &[u8], asking: &Asking) -> Result<(), NoMemory> {
    put_head(
        out,
        asking.name.as_bytes(),
        asking.bytes.as_slice(),
        asking.at,
    )?;
    put_sentence(out, "there is no file `%`, which this line asks for", name)?;
    put_end(out, b"missing", asking.bytes.as_slice(), asking.at)
}

/// Appends the message on what a line of refusal tells of the file of this name.
fn put_told_of<F: Files>(
    alloc: Global,
    out: &mut Vec<u8>,
    inputs: Inputs<'_>,
    told: Told<'_>,
    name: &str,
    files: &mut F,
) -> Result<(), NoMemory>
    ensures same { F.contents files.new ≡ F.contents files.old }
{
    match told {
        Told::Nothing => Ok(()),
        Told::Missing(_) => put_missing(alloc, out, inputs, name.as_bytes(), files),
        Told::Long(_) => put_whole(
            out,
            name.as_bytes(),
            "the file has more than 16,777,216 bytes",
            "long",
        ),
        Told::Place { at, cause, .. } => {
            put_place_message(alloc, out, inputs, name, at, cause, files)
        }
        Told::Flaw { flaw, .. } => put_flaw_message(alloc, out, inputs, name, flaw, files),
    }
}

/// The escaped name of the file of which a line of refusal tells.
fn name_told<'a>(told: Told<'a>) -> &'a [u8] {
    match told {
        Told::Nothing => b"",
        Told::Missing(name) | Told::Long(name) => name,
        Told::Place { name, .. } | Told::Flaw { name, .. } => name,
    }
}

/// Appends the message on what a line of refusal tells.
fn put_line_told<F: Files>(
    alloc: Global,
    out: &mut Vec<u8>,
    words: &[String],
    status: Status,
    line: &[u8],
    files: &mut F,
) -> Result<(), NoMemory>
    ensures same { F.contents files.new ≡ F.contents files.old }
{
    let inputs = inputs_of(command_of(words));
    let told = told_by(alloc, words, status, line)?;
    let name = name_in(alloc, name_told(told))?;
    put_told_of(alloc, out, inputs, told, name.as_str(), files)
}

/// Appends what is said after words that are no form of a command.
fn put_words_message(
    out: &mut Vec<u8>,
    words: &[String],
    no_text: Option<&[u8]>,
) -> Result<(), NoMemory> {
    match no_text {
        Some(word) => put_no_text(out, word),
        None => put_usage(out, words),
    }
}

/// The status of a number with which the program ends.
fn status_numbered(number: u8) -> Status {
    match number {
        1 => Status::Words,
        2 => Status::Script,
        3 => Status::Code,
        4 => Status::Area,
        5 => Status::Limit,
        6 => Status::Missing,
        7 => Status::Fault,
        8 => Status::Memory,
        9 => Status::Long,
        _ => Status::Done,
    }
}

/// The words after the program's name, which is the first of all.
fn after_name(all: &[String]) -> &[String] {
    match all.split_first() {
        Some((_name, words)) => words,
        None => all,
    }
}

/// The message after a command that was refused, or cut by a failed call. It is empty where nothing
/// is to be said.
fn message<F: Files>(
    alloc: Global,
    words: &[String],
    status: Status,
    end: End<'_>,
    files: &mut F,
) -> Result<Vec<u8>, NoMemory>
    ensures same { F.contents files.new ≡ F.contents files.old }
{
    let mut out = Vec::new(alloc);
    match status {
        Status::Words => put_words_message(&mut out, words, end.no_text)?,
        Status::Fault => put_fault(&mut out, end.trouble)?,
        _ => put_line_told(alloc, &mut out, words, status, end.line, files)?,
    }
    Ok(out)
}

/// Puts a message, unless it is empty. Where the sink doesn't take it, nothing more is done.
fn put<E: Sink>(text: &[u8], err: &mut E) {
    if !text.is_empty() {
        let _answer = err.put(text);
    }
}

/// Puts the notes on a command that did its work. Without memory for them there are none.
fn put_notes<F: Files, E: Sink>(
    alloc: Global,
    words: &[String],
    end: End<'_>,
    files: &mut F,
    err: &mut E,
)
    ensures same { F.contents files.new ≡ F.contents files.old }
{
    match notes_on(alloc, command_of(words), end, files) {
        Ok(text) => put(text.as_slice(), err),
        Err(NoMemory) => {}
    }
}

/// Puts the message after a command that was refused, or cut by a failed call.
fn put_message<F: Files, E: Sink>(
    alloc: Global,
    words: &[String],
    status: Status,
    end: End<'_>,
    files: &mut F,
    err: &mut E,
)
    ensures same { F.contents files.new ≡ F.contents files.old }
{
    match message(alloc, words, status, end, files) {
        Ok(text) => put(text.as_slice(), err),
        Err(NoMemory) => put_memory(err, &[]),
    }
}

/// Says why the program ended with its number, or what is to be noted where it did its work. `all`
/// are its words, the first of which is its name, and the files are those that the work read, as
/// they were kept. No file is written, and nothing that fails here has any effect but on what is
/// said.
pub fn tell_end<F: Files, E: Sink>(
    alloc: Global,
    all: &[String],
    end: End<'_>,
    files: &mut F,
    err: &mut E,
)
    ensures same { F.contents files.new ≡ F.contents files.old }
{
    let words = after_name(all);
    let status = status_numbered(end.number);
    match status {
        Status::Done | Status::Limit => put_notes(alloc, words, end, files, err),
        Status::Memory => put_memory(err, inputs_of(command_of(words)).budgets),
        _ => put_message(alloc, words, status, end, files, err),
    }
}
