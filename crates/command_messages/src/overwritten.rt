//! Notes on files that a command read and then wrote over.

ghost use Rattle.std.specs.Prelude.{◌≡◌, ◌∷◌, ◌++◌, [], codes, string_bytes, IfOk, OnOk};
ghost use Rattle.message_text.specs.Shown.{Appends};
ghost use Rattle.command_messages.specs.Overwritten as spec;
ghost use Rattle.command_messages.specs.Overwritten.{ShowAllLost, ShowsLost};

use command_words::Command;
use message_places::read_named;
use message_sentences::put_note;
use nwq_outside::Files;
use nwq_value::NoMemory;
use plan_text::{Plan, Script, read_plan};
use std::alloc::Global;

const READ: &str = "the command read this file as %, and then wrote over it";

const CODE: &str = "the command read this file as %, and then wrote the code of a script over it";

const SCRIPT: &str = "the command read this file as a script of the plan, and then wrote over it";

/// A word of a command's form, and the file that it names.
#[derive(Clone, Copy)]
pub(crate) struct Input<'a> {
    word: &'static str,
    file: &'a str,
}

/// The name under which a command leaves its work, unless no word gives it.
fn left_under<'a>(command: Command<'a>) -> Option<&'a str> {
    match command {
        Command::Disassemble(_file, to) | Command::Assemble(_file, to) => Some(to),
        Command::Play { to, .. } | Command::Resume { to, .. } => Some(to),
        Command::Save { state, .. } => Some(state),
        _ => None,
    }
}

fn add<'a>(inputs: &mut Vec<Input<'a>>, word: &'static str, file: &'a str) -> Result<(), NoMemory> {
    inputs.push(Input { word, file })?;
    Ok(())
}

/// The header, unless it is the built-in one, which is no file.
fn add_header<'a>(inputs: &mut Vec<Input<'a>>, header: &'a str) -> Result<(), NoMemory> {
    if header == "-" {
        return Ok(());
    }
    add(inputs, "HEADER", header)
}

/// What the play of a plan reads by its words.
fn add_plan<'a>(
    inputs: &mut Vec<Input<'a>>,
    header: &'a str,
    area: &'a str,
    plan: &'a str,
) -> Result<(), NoMemory> {
    add_header(inputs, header)?;
    add(inputs, "AREA", area)?;
    add(inputs, "PLAN", plan)
}

fn add_list<'a>(inputs: &mut Vec<Input<'a>>, list: Option<&'a str>) -> Result<(), NoMemory> {
    match list {
        Some(list) => add(inputs, "TABLES", list),
        None => Ok(()),
    }
}

/// The words by which a command that writes reads files, in the order of its form.
fn read_by<'a>(alloc: Global, command: Command<'a>) -> Result<Vec<Input<'a>>, NoMemory> {
    let mut inputs = Vec::new(alloc);
    match command {
        Command::Compile(header, _script) => add_header(&mut inputs, header)?,
        Command::Disassemble(file, _to) | Command::Assemble(file, _to) => {
            add(&mut inputs, "FILE", file)?;
        }
        Command::Play {
            header,
            area,
            plan,
            list,
            ..
        }
        | Command::Save {
            header,
            area,
            plan,
            list,
            ..
        } => {
            add_plan(&mut inputs, header, area, plan)?;
            add_list(&mut inputs, list)?;
        }
        Command::Resume { state, list, .. } => {
            add(&mut inputs, "STATE", state)?;
            add_list(&mut inputs, list)?;
        }
        _ => {}
    }
    Ok(inputs)
}

/// Whether this is the file of a script.
fn is_file_of(script: &Script, file: &[u8]) -> bool {
    let ending = if script.binary { ".ncs" } else { ".nss" };
    match file.strip_suffix(ending.as_bytes()) {
        Some(name) => name == script.name.bytes(),
        None => false,
    }
}

fn lists(plan: &Plan, file: &str) -> bool {
    plan.scripts
        .as_slice()
        .iter()
        .any(|script| is_file_of(script, file.as_bytes()))
}

/// Whether a script could have this file, by its ending.
fn ends_as_script(file: &[u8]) -> bool {
    file.ends_with(b".ncs") || file.ends_with(b".nss")
}

/// The plan of this name.
fn plan_named<F: Files>(alloc: Global, name: &str, files: &mut F) -> Option<Plan>
    ensures same { F.contents files.new ≡ F.contents files.old }
{
    let bytes = read_named(alloc, name, files)?;
    match read_plan(alloc, bytes.as_slice()) {
        Ok(plan) => Some(plan),
        Err(_) => None,
    }
}

/// Whether a plan lists a script that has this file. The plan is read only for a file that a script
/// could have.
fn is_listed<F: Files>(alloc: Global, plan: &str, file: &str, files: &mut F) -> bool
    ensures same { F.contents files.new ≡ F.contents files.old }
{
    if !ends_as_script(file.as_bytes()) {
        return false;
    }
    match plan_named(alloc, plan, files) {
        None => false,
        Some(plan) => lists(&plan, file),
    }
}

/// The name of a script's file of bytecode.
fn code_name(alloc: Global, script: &str) -> Result<String, NoMemory>
    ensures named { IfOk result (λ name. string_bytes name ≡ script.now ++ codes ".ncs") }
{
    let mut name = String::from_str(alloc, script)?;
    name.push_str(".ncs")?;
    Ok(name)
}

/// The files of bytecode of a plan's sources, which its play writes.
fn codes_of(alloc: Global, plan: &Plan) -> Result<Vec<String>, NoMemory> {
    let mut names = Vec::new(alloc);
    for script in plan.scripts.as_slice() {
        if !script.binary {
            let name = String::from_utf8_lossy(alloc, script.name.bytes())?;
            names.push(code_name(alloc, name.as_str())?)?;
        }
    }
    Ok(names)
}

/// The same for the plan of this name, which is read only where a word could name such a file.
fn codes_by_plan<F: Files>(
    alloc: Global,
    plan: &str,
    inputs: &[Input<'_>],
    files: &mut F,
) -> Result<Vec<String>, NoMemory>
    ensures same { F.contents files.new ≡ F.contents files.old }
{
    if !inputs
        .iter()
        .any(|input| ends_as_script(input.file.as_bytes()))
    {
        return Ok(Vec::new(alloc));
    }
    match plan_named(alloc, plan, files) {
        None => Ok(Vec::new(alloc)),
        Some(plan) => codes_of(alloc, &plan),
    }
}

fn one_name(alloc: Global, name: String) -> Result<Vec<String>, NoMemory>
    ensures one { IfOk result (λ names. names.items ≡ name ∷ []) }
{
    let mut names = Vec::new(alloc);
    names.push(name)?;
    Ok(names)
}

/// The files of bytecode that a command writes.
fn codes_by<F: Files>(
    alloc: Global,
    command: Command<'_>,
    inputs: &[Input<'_>],
    files: &mut F,
) -> Result<Vec<String>, NoMemory>
    ensures same { F.contents files.new ≡ F.contents files.old }
{
    match command {
        Command::Compile(_header, script) => one_name(alloc, code_name(alloc, script)?),
        Command::Play { plan, .. } | Command::Save { plan, .. } => {
            codes_by_plan(alloc, plan, inputs, files)
        }
        _ => Ok(Vec::new(alloc)),
    }
}

/// Whether a file is one of those that the command wrote.
fn is_written(written: &[String], file: &str) -> bool
    ensures { result ≡ spec.is_written written.now file.now }
{
    written.iter().any(|name| name.as_str() == file)
}

/// Appends the note on a word, if the command wrote over the file that it names.
#[tactic(auto, using(crate::proofs::LostLemmas::lost, crate::proofs::LostLemmas::kept))]
fn put_lost(
    out: &mut Vec<u8>,
    input: Input<'_>,
    written: &[String],
    sentence: &str,
) -> Result<(), NoMemory>
    ensures shows { OnOk result (Appends (ShowsLost
        (spec.is_written written.now input.entry.file.now) sentence.now input.entry)
        out.old.items out.new.items) }
{
    if is_written(written, input.file) {
        put_note(out, input.file.as_bytes(), sentence, input.word.as_bytes())
    } else {
        Ok(())
    }
}

/// Appends a note for each word whose file the command wrote over.
fn put_all_lost(
    out: &mut Vec<u8>,
    inputs: &[Input<'_>],
    written: &[String],
    sentence: &str,
) -> Result<(), NoMemory>
    ensures shows { OnOk result (Appends (ShowAllLost written.now sentence.now inputs.now)
        out.old.items out.new.items) }
{
    for input in inputs {
        put_lost(out, *input, written, sentence)?;
    }
    Ok(())
}

/// Appends notes on what a command read before it left its work under the same name.
fn put_left<F: Files>(
    alloc: Global,
    out: &mut Vec<u8>,
    command: Command<'_>,
    inputs: &[Input<'_>],
    files: &mut F,
) -> Result<(), NoMemory>
    ensures same { F.contents files.new ≡ F.contents files.old }
{
    let Some(file) = left_under(command) else {
        return Ok(());
    };
    let left = one_name(alloc, String::from_str(alloc, file)?)?;
    put_all_lost(out, inputs, left.as_slice(), READ)?;
    match command {
        Command::Play { plan, .. } | Command::Save { plan, .. }
            if is_listed(alloc, plan, file, files) => {
            put_note(out, file.as_bytes(), SCRIPT, &[])
        }
        _ => Ok(()),
    }
}

/// Appends notes on what a command read and then wrote over. What a play leaves isn't written where
/// a limit ended it, and the code of its scripts is.
pub(crate) fn put_overwritten<F: Files>(
    alloc: Global,
    out: &mut Vec<u8>,
    command: Command<'_>,
    is_left: bool,
    files: &mut F,
) -> Result<(), NoMemory>
    ensures same { F.contents files.new ≡ F.contents files.old }
{
    let inputs = read_by(alloc, command)?;
    let codes = codes_by(alloc, command, inputs.as_slice(), files)?;
    put_all_lost(out, inputs.as_slice(), codes.as_slice(), CODE)?;
    if is_left {
        put_left(alloc, out, command, inputs.as_slice(), files)
    } else {
        Ok(())
    }
}
