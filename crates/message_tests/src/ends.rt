//! Ends that no file explains: usage, the system's errors, a sink that fails.

use command_messages::{End, LastLine, tell_end};
use nwq_outside::{Done, MemFiles, MemSink, Sink};
use nwq_value::NoMemory;
use real_files::Trouble;
use std::alloc::Global;
use std::io::ErrorKind;
use std::test::Fail;

fn words_of(alloc: Global, words: &[&str]) -> Result<Vec<String>, NoMemory> {
    let mut all = Vec::new(alloc);
    for word in words {
        all.push(String::from_str(alloc, word)?)?;
    }
    Ok(all)
}

/// What is said after these words with this number, where the system failed at a name.
fn said(
    alloc: Global,
    words: &[&str],
    number: u8,
    trouble: Option<&Trouble>,
) -> Result<MemSink, NoMemory> {
    let all = words_of(alloc, words)?;
    let mut files = MemFiles::new(alloc);
    let mut err = MemSink::new(alloc);
    let end = End {
        number,
        line: b"",
        trouble,
        random_used_up: false,
        remarks: &[],
        names: &[],
        no_text: None,
    };
    tell_end(alloc, all.as_slice(), end, &mut files, &mut err);
    Ok(err)
}

fn begins(alloc: Global, words: &[&str], number: u8, wanted: &str) -> bool {
    match said(alloc, words, number, None) {
        Ok(err) => err.bytes().starts_with(wanted.as_bytes()),
        Err(NoMemory) => false,
    }
}

fn tells_trouble(alloc: Global, kind: ErrorKind, wanted: &str) -> Result<bool, NoMemory> {
    let trouble = Trouble {
        name: String::from_str(alloc, "a b.git")?,
        kind,
    };
    let err = said(alloc, &["nwq", "tree", "a b.git"], 7, Some(&trouble))?;
    Ok(err.bytes() == wanted.as_bytes())
}

/// Whether a sink that keeps the last line hands on both pieces, and keeps the second.
fn keeps_last(alloc: Global) -> bool {
    let mut out = LastLine::new(alloc, MemSink::new(alloc));
    let first = out.put(b"one\n");
    let second = out.put(b"two\n");
    matches!(first, Done::Ok)
        && matches!(second, Done::Ok)
        && out.line() == b"two\n".as_slice()
        && out.inner().bytes() == b"one\ntwo\n".as_slice()
}

/// Whether nothing but the answer of standard error comes of a message that it refuses.
fn fails_quietly(alloc: Global) -> Result<bool, NoMemory> {
    let all = words_of(alloc, &["nwq"])?;
    let mut files = MemFiles::new(alloc);
    let mut err = MemSink::new(alloc);
    err.fail_at(0)?;
    let end = End {
        number: 1,
        line: b"",
        trouble: None,
        random_used_up: false,
        remarks: &[],
        names: &[],
        no_text: None,
    };
    tell_end(alloc, all.as_slice(), end, &mut files, &mut err);
    Ok(err.bytes().is_empty() && err.calls() == 1)
}

/// Words that ask for usage, or for the version.
const ASKING: &[(&[&str], &str)] = &[
    (&["nwq"], "nwq 1.1\nusage:\n  nwq run HEADER SCRIPT  ("),
    (&["nwq", "help"], "nwq 1.1\nusage:\n"),
    (&["nwq", "help", "play"], "nwq 1.1\nusage:\n"),
    (&["nwq", "--help"], "nwq 1.1\nusage:\n"),
    (&["nwq", "-h"], "nwq 1.1\nusage:\n"),
    (&["nwq", "play", "--help"], "nwq 1.1\nusage:\n"),
];

/// Words that are no form of a command.
const WRONG: &[(&[&str], &str)] = &[
    (
        &["nwq", "rnu"],
        "nwq 1.1: error: `rnu` is no command [words]\nusage:\n",
    ),
    (
        &["nwq", "run", "-", "P"],
        "nwq 1.1: error: `P` is no name of a script",
    ),
    (
        &["nwq", "tree"],
        "nwq 1.1: error: `tree` takes FILE, and was given 0 words [words]\n",
    ),
    (
        &["nwq", "tree", "-x"],
        "nwq 1.1: error: `-x` begins with `-`",
    ),
    (
        &["nwq", "resume", "a.nwq"],
        "nwq 1.1: error: `resume` takes STATE TO [TABLES], and was given 1 word [words]\n",
    ),
    (
        &["nwq", "save", "-", "a", "p", "0", "s"],
        "nwq 1.1: error: `0` is no N: it is a number of 1 to 1,000,000, in digits [words]\n",
    ),
    (
        &["nwq", "generate", "1000001"],
        "nwq 1.1: error: `1000001` is no NUMBER: it is one of 0 to 1,000,000, in digits [words]\n",
    ),
    (
        &["nwq", "--version", "2"],
        "nwq 1.1: error: `--version` begins with `-`",
    ),
];

fn all_begin(alloc: Global, rows: &[(&[&str], &str)]) -> bool {
    rows.iter().all(|row| begins(alloc, row.0, 1, row.1))
}

#[test]
fn usage(rt: HostRuntime) {
    let alloc = rt.alloc();
    assert!(rt; all_begin(alloc, ASKING));
    assert!(rt; all_begin(alloc, WRONG));
}

/// Whether the version alone is told.
fn tells_version(alloc: Global) -> Result<bool, NoMemory> {
    let err = said(alloc, &["nwq", "--version"], 1, None)?;
    Ok(err.bytes() == b"nwq 1.1\n".as_slice())
}

/// Whether a word that is no text is told.
fn tells_no_text(alloc: Global) -> Result<bool, NoMemory> {
    let mut files = MemFiles::new(alloc);
    let mut err = MemSink::new(alloc);
    let end = End {
        number: 1,
        line: b"refused words\n",
        trouble: None,
        random_used_up: false,
        remarks: &[],
        names: &[],
        no_text: Some(b"caf\xe9"),
    };
    tell_end(alloc, &[], end, &mut files, &mut err);
    Ok(
        err.bytes().starts_with(
            b"nwq 1.1: error: `caf\\xe9` is no text: words are UTF-8 [words]\nusage:\n",
        ),
    )
}

#[test]
fn words(rt: HostRuntime) -> Result<(), Fail> {
    assert!(rt; tells_version(rt.alloc())?);
    assert!(rt; tells_no_text(rt.alloc())?);
    Ok(())
}

#[test]
fn troubles(rt: HostRuntime) {
    let alloc = rt.alloc();
    let denied = tells_trouble(
        alloc,
        ErrorKind::PermissionDenied,
        "a b.git: error: the file could not be read or written: permission denied [fault]\n",
    );
    assert!(rt; matches!(denied, Ok(true)));
}

/// Status 8 tells which budgets the command can use up.
#[test]
fn budgets(rt: HostRuntime) {
    let alloc = rt.alloc();
    assert!(rt;
        begins(
            alloc,
            &["nwq", "tree", "a.git"],
            8,
            "nwq: error: memory was refused by the system, or a fixed budget is used up: \
                268,435,456 bytes for the tree of the GFF file [memory]\n"
        )
    );
    assert!(rt;
        begins(
            alloc,
            &["nwq", "check", "h.nss", "a.ncs"],
            8,
            "nwq: error: memory was refused by the system, or a fixed budget is used up: \
                268,435,456 bytes for the strings of the header, or \
                33,554,432 rows or nodes, or 134,217,728 joined slots, \
                for the shapes of a file of bytecode [memory]\n"
        )
    );
    assert!(rt;
        begins(
            alloc,
            &["nwq", "compile", "-", "p"],
            8,
            "nwq: error: memory was refused by the system [memory]\n"
        )
    );
}

#[test]
fn sinks(rt: HostRuntime) {
    let alloc = rt.alloc();
    assert!(rt; keeps_last(alloc));
    assert!(rt; matches!(fails_quietly(alloc), Ok(true)));
}
