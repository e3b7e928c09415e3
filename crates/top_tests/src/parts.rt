//! The parts of commands that read and write files, and put texts.

use command_work::{Status, put, read_file, write_file};
use nwq_outside::{MemFiles, MemSink};
use nwq_value::NoMemory;
use std::alloc::Global;
use std::test::Fail;

/// Whether a read gives these bytes.
fn is_read(
    alloc: Global,
    name: &str,
    bytes: &[u8],
    files: &mut MemFiles,
    out: &mut MemSink,
) -> bool {
    match read_file(alloc, name, files, out) {
        Ok(found) => found.as_slice() == bytes,
        Err(_) => false,
    }
}

/// Whether a read stops with this status.
fn stops(
    alloc: Global,
    name: &str,
    status: Status,
    files: &mut MemFiles,
    out: &mut MemSink,
) -> bool {
    match read_file(alloc, name, files, out) {
        Ok(_) => false,
        Err(found) => found == status,
    }
}

/// Whether a write of which the call is let fail is told as the fault.
fn is_fault(call: u64, files: &mut MemFiles) -> Result<bool, NoMemory> {
    files.fail_at(call)?;
    Ok(write_file("a", b"lost", files) == Err(Status::Fault))
}

/// Whether each of these calls does what it is to, one after the other.
fn all_hold(alloc: Global, files: &mut MemFiles, out: &mut MemSink) -> Result<[bool; 6], NoMemory> {
    let text = Vec::from_slice(alloc, b"text\n")?;
    let written = write_file("a", b"new", files) == Ok(());
    let read = is_read(alloc, "a", b"new", files, out);
    let taken = put(Ok(text), out) == Ok(());
    let stopped = stops(alloc, "b\\", Status::Missing, files, out);
    let told = out.bytes() == b"text\nmissing b\\\\\n".as_slice();
    let failed = is_fault(3, files)?;
    Ok([written, read, taken, stopped, told, failed])
}

#[test]
fn reads_writes_puts(rt: HostRuntime) -> Result<(), Fail> {
    let mut files = MemFiles::new(rt.alloc());
    let mut out = MemSink::new(rt.alloc());
    assert_eq!(rt; all_hold(rt.alloc(), &mut files, &mut out)?, [true; 6]);
    Ok(())
}
