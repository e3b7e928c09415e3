//! Which line asks for a file that isn't there.

ghost use Rattle.std.specs.Prelude.{◌≡◌, ◌≤◌, length, IfOk, IfSome};
ghost use Rattle.nwq_value.specs.Limits.{file_limit};

use crate::units::read_named;
use message_sentences::same;
use nss_lexer::{Lexed, Token, TokenKind, next};
use nwq_outside::Files;
use nwq_text::Lines;
use nwq_value::{Items, NoMemory, Text};
use std::alloc::Global;

/// How many files are searched at most.
const MOST_FILES: usize = 1_024;

/// A place that asks for a file, in the file of this name.
#[derive(Drop)]
pub struct Asking {
    pub name: String,
    pub bytes: Items<u8>,
    pub at: u32,
    // The place stands in the file.
    ghost inside: { at ≤ length bytes },
    ghost size: { length bytes ≤ file_limit },
}

/// The file of an include, from the string of its directive: in lower case and with `.nss`.
fn file_of(alloc: Global, quoted: &[u8]) -> Result<Vec<u8>, NoMemory> {
    let mut name = Vec::new(alloc);
    for byte in quoted {
        if *byte != b'"' {
            name.push(byte.to_ascii_lowercase())?;
        }
    }
    name.extend_from_slice(b".nss")?;
    Ok(name)
}

/// Where the files of a script are searched for the one that asks: those that were found so far.
#[derive(Drop)]
struct Search {
    names: Vec<Text>,
}

fn has(names: &[Text], name: &[u8]) -> bool {
    names.iter().any(|other| other.bytes() == name)
}

/// Puts the name of a file last, unless it was found before.
fn find(alloc: Global, names: &mut Vec<Text>, name: &[u8]) -> Result<(), NoMemory> {
    if !has(names.as_slice(), name) && names.len() < MOST_FILES {
        names.push(Text::of(alloc, name)?)?;
    }
    Ok(())
}

fn is_directive(hash: Option<Token<'_>>, word: Option<Token<'_>>) -> bool {
    match (hash, word) {
        (Some(hash), Some(word)) => same(hash.text, b"#") && same(word.text, b"include"),
        _ => false,
    }
}

/// The place of the string with which a file asks for another. Names of other includes are put
/// last.
fn directive_for(
    alloc: Global,
    bytes: &[u8],
    wanted: &[u8],
    names: &mut Vec<Text>,
) -> Result<Option<u32>, NoMemory>
    requires { length bytes.now ≤ file_limit }
    ensures { IfOk result (λ found. IfSome found (λ at. at ≤ length bytes.now)) }
{
    let mut hash = None;
    let mut word = None;
    let mut at = 0;
    for _turn in 0..bytes.len() {
        let Lexed::Token(token) = next(bytes, 0, at) else {
            return Ok(None);
        };
        if matches!(token.kind, TokenKind::Text) && is_directive(hash, word) {
            let name = file_of(alloc, token.text)?;
            if name.as_slice() == wanted {
                return Ok(Some(token.start));
            }
            find(alloc, names, name.as_slice())?;
        }
        hash = word;
        word = Some(token);
        at = token.end;
    }
    Ok(None)
}

/// The place in this file that asks for another, if it is there and does. Names of other includes
/// are put last.
fn asking_in<F: Files>(
    alloc: Global,
    name: &Text,
    wanted: &[u8],
    names: &mut Vec<Text>,
    files: &mut F,
) -> Result<Option<Asking>, NoMemory>
    ensures same { F.contents files.new ≡ F.contents files.old }
{
    let name = String::from_utf8_lossy(alloc, name.bytes())?;
    let Some(bytes) = read_named(alloc, name.as_str(), files) else {
        return Ok(None);
    };
    match directive_for(alloc, bytes.as_slice(), wanted, names)? {
        None => Ok(None),
        Some(at) => Ok(Some(Asking { name, bytes, at })),
    }
}

/// The first of the files of a script, in the order in which they are found, that asks for another.
pub fn include_of<F: Files>(
    alloc: Global,
    script: &Text,
    wanted: &[u8],
    files: &mut F,
) -> Result<Option<Asking>, NoMemory>
    ensures same { F.contents files.new ≡ F.contents files.old }
{
    let mut names = Vec::new(alloc);
    let first = file_of(alloc, script.bytes())?;
    find(alloc, &mut names, first.as_slice())?;
    for i in 0..MOST_FILES {
        let name = match names.get(i) {
            None => return Ok(None),
            Some(name) => name.copy(alloc)?,
        };
        if let Some(asking) = asking_in(alloc, &name, wanted, &mut names, files)? {
            return Ok(Some(asking));
        }
    }
    Ok(None)
}

/// Whether a file has this name with an ending of four bytes.
fn is_file(wanted: &[u8], name: &[u8], ending: &[u8]) -> bool {
    wanted.len() > 4
        && &wanted[..wanted.len() - 4] == name
        && same(&wanted[wanted.len() - 4..], ending)
}

/// Whether a line of a plan lists the script, or the binary, of this file.
fn lists(line: &[u8], wanted: &[u8]) -> bool {
    match line {
        [b's', b'c', b'r', b'i', b'p', b't', b' ', name @ ..] => is_file(wanted, name, b".nss"),
        [b'b', b'i', b'n', b'a', b'r', b'y', b' ', name @ ..] => is_file(wanted, name, b".ncs"),
        _ => false,
    }
}

/// A text whose lines ask for files.
#[derive(Clone, Copy)]
pub enum Lister {
    Plan,
    Tables,
}

fn asks(lister: Lister, line: &[u8], wanted: &[u8]) -> bool {
    match lister {
        Lister::Plan => lists(line, wanted),
        Lister::Tables => is_file(wanted, line, b".2da"),
    }
}

/// The place of the first line that asks for a file.
fn line_for(text: &[u8], lister: Lister, wanted: &[u8]) -> Option<usize>
    ensures { IfSome result (λ at. at ≤ length text.now) }
{
    let mut lines = Lines::of(text);
    while let Some(line) = lines.next_line() {
        if asks(lister, line.bytes, wanted) {
            return Some(line.place);
        }
    }
    None
}

/// The line of the plan, or of the list of tables, of this name that asks for a file.
pub fn line_of_file<F: Files>(
    alloc: Global,
    name: &str,
    lister: Lister,
    wanted: &[u8],
    files: &mut F,
) -> Result<Option<Asking>, NoMemory>
    ensures same { F.contents files.new ≡ F.contents files.old }
{
    let Some(bytes) = read_named(alloc, name, files) else {
        return Ok(None);
    };
    match line_for(bytes.as_slice(), lister, wanted) {
        None => Ok(None),
        Some(at) => {
            let name = String::from_str(alloc, name)?;
            Ok(Some(Asking {
                name,
                bytes,
                at: at as u32,
            }))
        }
    }
}
