//! Commands with their files in memory, and what is said after them.

use command_messages::{End, tell_end};
use nwq_outside::{MemFiles, MemSink};
use nwq_value::NoMemory;
use std::alloc::Global;

/// A file in memory.
pub(crate) struct Held {
    pub name: &'static str,
    pub bytes: &'static [u8],
}

/// The words of a command, the files that it read, how it ended and what was said.
pub(crate) struct Row {
    pub words: &'static [&'static str],
    pub files: &'static [Held],
    pub number: u8,
    pub line: &'static [u8],
    pub said: &'static str,
}

fn files_of(alloc: Global, held: &[Held]) -> Result<MemFiles, NoMemory> {
    let mut files = MemFiles::new(alloc);
    for file in held {
        files.add(file.name, file.bytes)?;
    }
    Ok(files)
}

fn words_of(alloc: Global, words: &[&str]) -> Result<Vec<String>, NoMemory> {
    let mut all = Vec::new(alloc);
    for word in words {
        all.push(String::from_str(alloc, word)?)?;
    }
    Ok(all)
}

fn is_said(alloc: Global, row: &Row, random_used_up: bool) -> Result<bool, NoMemory> {
    let mut files = files_of(alloc, row.files)?;
    let words = words_of(alloc, row.words)?;
    let mut err = MemSink::new(alloc);
    let end = End {
        number: row.number,
        line: row.line,
        trouble: None,
        random_used_up,
        remarks: &[],
        names: &[],
        no_text: None,
    };
    tell_end(alloc, words.as_slice(), end, &mut files, &mut err);
    Ok(err.bytes() == row.said.as_bytes())
}

/// Whether all this is said.
pub(crate) fn are_said(alloc: Global, rows: &[Row]) -> bool {
    rows.iter()
        .all(|row| matches!(is_said(alloc, row, false), Ok(true)))
}

/// Whether all this is said of plays that left no random numbers.
pub(crate) fn are_said_used_up(alloc: Global, rows: &[Row]) -> bool {
    rows.iter()
        .all(|row| matches!(is_said(alloc, row, true), Ok(true)))
}

/// A file with these bytes, the line of its refusal and what is said of it.
pub(crate) struct Refused {
    pub bytes: &'static [u8],
    pub line: &'static [u8],
    pub said: &'static str,
}

fn is_told(
    alloc: Global,
    words: &[&str],
    name: &str,
    number: u8,
    row: &Refused,
) -> Result<bool, NoMemory> {
    let mut files = MemFiles::new(alloc);
    files.add(name, row.bytes)?;
    let all = words_of(alloc, words)?;
    let mut err = MemSink::new(alloc);
    let end = End {
        number,
        line: row.line,
        trouble: None,
        random_used_up: false,
        remarks: &[],
        names: &[],
        no_text: None,
    };
    tell_end(alloc, all.as_slice(), end, &mut files, &mut err);
    Ok(err.bytes() == row.said.as_bytes())
}

/// The place of the first row of which something else is said after these words and this status,
/// where the file of this name has its bytes.
pub(crate) fn first_untold(
    alloc: Global,
    words: &[&str],
    name: &str,
    number: u8,
    rows: &[Refused],
) -> Result<Option<usize>, NoMemory> {
    for (place, row) in rows.iter().enumerate() {
        if !is_told(alloc, words, name, number, row)? {
            return Ok(Some(place));
        }
    }
    Ok(None)
}
