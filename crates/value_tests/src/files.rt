//! Calls on files and their answers, in memory and at the host, and how long a file may be.

use crate::host::files_of;
use nwq_outside::{Done, Files, MemFiles, Read};
use nwq_value::NoMemory;
use std::alloc::{AllocError, Global};
use std::fs;
use std::test::Fail;

/// What a read answers.
#[derive(Clone, Copy)]
pub(crate) enum Answer<'a> {
    /// Just these bytes.
    Bytes(&'a [u8]),
    Missing,
    Failed,
    Long,
}

/// A call under a name, and how it is answered.
#[derive(Clone, Copy)]
pub(crate) enum Call<'a> {
    Read(&'a str, Answer<'a>),
    Write(&'a str, &'a [u8], Done),
}

fn is_read(read: Read, answer: Answer<'_>) -> bool {
    match read {
        Read::Bytes(read) => matches!(answer, Answer::Bytes(bytes) if read.as_slice() == bytes),
        Read::Missing => matches!(answer, Answer::Missing),
        Read::Failed => matches!(answer, Answer::Failed),
        Read::Long => matches!(answer, Answer::Long),
        Read::NoMemory => false,
    }
}

/// Whether a call is answered so.
pub(crate) fn is_answered<F: Files>(alloc: Global, files: &mut F, call: Call<'_>) -> bool {
    match call {
        Call::Read(name, answer) => is_read(files.read(alloc, name), answer),
        Call::Write(name, bytes, done) => files.write(name, bytes) == done,
    }
}

/// Calls of which the second is to fail, on files that hold two texts.
const CALLS: &[Call<'static>] = &[
    Call::Write("a", b"new", Done::Ok),
    Call::Write("a", b"lost", Done::Failed),
    Call::Read("b", Answer::Missing),
    Call::Read("a", Answer::Bytes(b"new")),
    Call::Read("t", Answer::Bytes(b"text")),
];

/// Puts the two texts under their names, and lets the second call fail.
fn prepare(files: &mut MemFiles) -> Result<(), NoMemory> {
    files.add("a", b"old")?;
    files.add("t", b"text")?;
    files.fail_at(1)
}

#[test]
fn files_in_memory(rt: HostRuntime) -> Result<(), Fail> {
    let mut files = MemFiles::new(rt.alloc());
    prepare(&mut files)?;
    for (place, call) in CALLS.iter().enumerate() {
        assert!(rt; is_answered(rt.alloc(), &mut files, *call), "call {place}");
    }
    assert!(rt; files.get("a") == Some(b"new".as_slice()));
    Ok(())
}

/// Whether as many bytes as a file may have are read whole, and one more is too long.
fn adds_most(alloc: Global, files: &mut MemFiles) -> Result<bool, NoMemory> {
    let mut bytes = vec![in alloc; 0u8; 16_777_216]?;
    files.add("longest", bytes.as_slice())?;
    let longest = Call::Read("longest", Answer::Bytes(bytes.as_slice()));
    let is_whole = is_answered(alloc, files, longest);
    bytes.push(0)?;
    files.add("longer", bytes.as_slice())?;
    Ok(is_whole && is_answered(alloc, files, Call::Read("longer", Answer::Long)))
}

#[test]
fn long_files_in_memory(rt: HostRuntime) -> Result<(), Fail> {
    let mut files = MemFiles::new(rt.alloc());
    assert!(rt; adds_most(rt.alloc(), &mut files)?);
    Ok(())
}

/// Whether these bytes are written, and then read so.
fn writes<F: Files>(alloc: Global, files: &mut F, bytes: &[u8], read: Answer<'_>) -> bool {
    is_answered(alloc, files, Call::Write("long.bin", bytes, Done::Ok))
        && is_answered(alloc, files, Call::Read("long.bin", read))
}

/// The same as in memory, where the bytes are written.
pub(crate) fn writes_most<F: Files>(
    alloc: Global,
    files: &mut F,
    bytes: &mut Vec<u8>,
) -> Result<bool, AllocError> {
    let is_whole = writes(
        alloc,
        files,
        bytes.as_slice(),
        Answer::Bytes(bytes.as_slice()),
    );
    bytes.push(7)?;
    Ok(is_whole && writes(alloc, files, bytes.as_slice(), Answer::Long))
}

#[test]
fn long_files_of_the_host(rt: HostRuntime) -> Result<(), Fail> {
    let mut bytes = vec![in rt.alloc(); 7u8; 16_777_216]?;
    assert!(rt; writes_most(rt.alloc(), &mut files_of(&rt, &rt), &mut bytes)?);
    assert!(rt; matches!(fs::metadata(&rt, "long.bin"), Ok(data) if data.len() == 16_777_217));
    assert!(rt; fs::remove_file(&rt, "long.bin").is_ok());
    Ok(())
}
