//! The whole program over memory: its files, standard output and standard error are looked at once
//! it has ended. No crate stands on it, so these tests stand here.

use crate::end::{Watched, Words, end_of};
use crate::messages::Messages;
use command_messages::LastLine;
use kept_files::KeptFiles;
use nwq_outside::{MemFiles, MemSink};
use nwq_value::NoMemory;
use real_files::Trouble;
use std::alloc::Global;
use std::process::ExitCode;
use std::test::Fail;

impl Watched for KeptFiles<MemFiles> {
    fn trouble(&self) -> Option<&Trouble> {
        None
    }

    fn kept(&self) -> &MemFiles {
        &self.kept
    }
}

/// An area without objects.
const AREA: &[u8] = b"\
    GIT V3.28\0\0\0\x01\0\0\0D\0\0\0\0\0\0\0D\0\0\0\0\0\0\0D\0\0\0\0\0\0\0D\0\0\0\0\0\0\0D\0\0\0\0\
    \0\0\0\xff\xff\xff\xff\xff\xff\xff\xff\0\0\0\0";

/// The file of bytecode of `p`: a call of the code behind it, and two returns.
const NOTHING: &[u8] = b"NCS V1.0B\0\0\0\x17\x1e\0\0\0\0\x08 \0 \0";

/// A script that does nothing, one that calls hooks, a play of that with a table, and a script that
/// ends too soon.
const FILES: &[(&str, &[u8])] = &[
    ("p.nss", b"void main() {}"),
    (
        "q.nss",
        b"void main() { PrintString(IntToString(abs(-7)) + Get2DAString(\"x\",\"COST\",0)); }",
    ),
    ("x.plan", b"NWQ PLAN 1\nscript q\nstart 0 - q\n"),
    ("a.git", AREA),
    ("t.txt", b"x\n"),
    ("x.2da", b"2DA V2.0\n\n LABEL COST\n0 Sword 10\n"),
    ("r.nss", b"void main() {"),
];

/// All words, parted by spaces, the exit code, what is printed, how what standard error is told
/// begins, and what a file holds then.
type Row = (
    &'static str,
    u8,
    &'static [u8],
    &'static [u8],
    (&'static str, Option<&'static [u8]>),
);

const ROWS: &[Row] = &[
    (
        "nwq compile - p",
        0,
        b"compiled p.ncs 23\n",
        b"",
        ("p.ncs", Some(NOTHING)),
    ),
    (
        "nwq play - a.git x.plan f.git t.txt",
        0,
        b"0 #0 print 710\nend done clock 0 entries 1 instructions 13\n",
        b"a.git: note: ",
        ("f.git", Some(AREA)),
    ),
    (
        "nwq compile - r",
        2,
        b"refused r.nss 1 13 syntax\n",
        b"r.nss:1:14: error: ",
        ("r.ncs", None),
    ),
    (
        "nwq compile - s",
        6,
        b"missing s.nss\n",
        b"s.nss: error: ",
        ("s.ncs", None),
    ),
    (
        "nwq compile p",
        1,
        b"refused words\n",
        b"nwq",
        ("p.ncs", None),
    ),
    ("nwq", 1, b"refused words\n", b"nwq", ("p.ncs", None)),
    ("", 1, b"refused words\n", b"nwq", ("p.ncs", None)),
];

fn words_of(alloc: Global, line: &str) -> Result<Vec<String>, NoMemory> {
    let mut words: Vec<String> = Vec::new(alloc);
    for word in line.split_whitespace() {
        words.push(String::from_str(alloc, word)?)?;
    }
    Ok(words)
}

fn add_all(files: &mut MemFiles) -> Result<(), NoMemory> {
    for (name, bytes) in FILES {
        files.add(name, bytes)?;
    }
    Ok(())
}

/// What the program left: its exit code, its files, standard output and standard error.
#[derive(Drop)]
struct Left {
    code: ExitCode,
    files: KeptFiles<MemFiles>,
    out: LastLine<MemSink>,
    err: Messages<MemSink>,
}

/// Before anything is done.
fn begun(alloc: Global) -> Left {
    Left {
        code: ExitCode::SUCCESS,
        files: KeptFiles::new(alloc, MemFiles::new(alloc)),
        out: LastLine::new(alloc, MemSink::new(alloc)),
        err: Messages::new(MemSink::new(alloc)),
    }
}

/// Runs the program over the files.
fn run(alloc: Global, words: Words, left: &mut Left) -> Result<(), NoMemory> {
    add_all(&mut left.files.inner)?;
    left.code = end_of(alloc, words, &mut left.files, &mut left.out, &mut left.err);
    Ok(())
}

/// Whether standard error is told nothing, or what begins so.
fn is_told(told: &[u8], begins: &[u8]) -> bool {
    if begins.is_empty() {
        told.is_empty()
    } else {
        told.starts_with(begins) && told.ends_with(b"\n")
    }
}

fn is_as(left: &Left, row: &Row) -> bool {
    let (_line, code, text, told, (name, held)) = row;
    left.code == ExitCode::from(*code)
        && left.out.inner().bytes() == *text
        && is_told(left.err.inner.bytes(), told)
        && left.files.inner.get(name) == *held
}

/// Whether the program comes to what a row says.
fn comes(alloc: Global, words: Words, row: &Row) -> Result<bool, NoMemory> {
    let mut left = begun(alloc);
    run(alloc, words, &mut left)?;
    Ok(is_as(&left, row))
}

/// The place of the first row of which something else comes, if there is one.
fn first_wrong(alloc: Global) -> Result<Option<usize>, NoMemory> {
    for (place, row) in ROWS.iter().enumerate() {
        let words = words_of(alloc, row.0)?;
        if !comes(alloc, Words::All(words), row)? {
            return Ok(Some(place));
        }
    }
    Ok(None)
}

#[test]
fn the_program_over_memory(rt: HostRuntime) -> Result<(), Fail> {
    assert_eq!(rt; first_wrong(rt.alloc())?, None);
    Ok(())
}

/// Where words are no text, and where there is no memory for them.
const NO_TEXT: Row = (
    "",
    1,
    b"refused words\n",
    b"nwq 1.1: error: `caf\\xe9` is no text",
    ("p.ncs", None),
);

const NO_MEMORY: Row = ("", 8, b"", b"nwq", ("p.ncs", None));

#[test]
fn words_that_are_not_read(rt: HostRuntime) -> Result<(), Fail> {
    let word = Vec::from_slice(rt.alloc(), b"caf\xe9")?;
    assert!(rt; comes(rt.alloc(), Words::NoText(word), &NO_TEXT)?);
    assert!(rt; comes(rt.alloc(), Words::NoMemory, &NO_MEMORY)?);
    Ok(())
}

/// Where standard output takes nothing: the file is written, and the message says why there is no
/// line.
const CLOSED: Row = (
    "nwq compile - p",
    7,
    b"",
    b"standard output: error: ",
    ("p.ncs", Some(NOTHING)),
);

#[test]
fn a_put_that_fails(rt: HostRuntime) -> Result<(), Fail> {
    let mut sink = MemSink::new(rt.alloc());
    sink.fail_at(0)?;
    let mut left = begun(rt.alloc());
    left.out = LastLine::new(rt.alloc(), sink);
    run(
        rt.alloc(),
        Words::All(words_of(rt.alloc(), CLOSED.0)?),
        &mut left,
    )?;
    assert!(rt; is_as(&left, &CLOSED));
    Ok(())
}
