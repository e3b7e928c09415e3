//! The parts of commands that read areas and plans, and write areas.

use area_tree::Area;
use command_work::Status;
use nwq_outside::{MemFiles, MemSink};
use nwq_value::NoMemory;
use play_inputs::{read_area, read_plan_file, write_area};
use std::alloc::Global;
use std::test::Fail;
use test_rows::samples::{Sample, bytes_of};

/// Files with `a`, an area, `b`, which is none, and two plans, of which `q` is none.
fn files_of(alloc: Global) -> Result<MemFiles, NoMemory> {
    let mut files = MemFiles::new(alloc);
    files.add("a", bytes_of(Sample::Tree))?;
    files.add("b", bytes_of(Sample::Broken))?;
    files.add("p", b"NWQ PLAN 1\nuntil 5\n")?;
    files.add("q", b"NWQ PLAN 1\nuntil\n")?;
    Ok(files)
}

/// Writes an area under the name `c`; whether that went well.
fn writes(alloc: Global, area: Area, files: &mut MemFiles, out: &mut MemSink) -> bool {
    write_area(alloc, "c", area, files, out).is_ok()
}

/// Whether the area of the file `a` goes back to the same bytes.
fn goes_back(alloc: Global, files: &mut MemFiles, out: &mut MemSink) -> bool {
    match read_area(alloc, "a", files, out) {
        Err(_) => false,
        Ok(area) => writes(alloc, area, files, out)
            && files.get("c") == Some(bytes_of(Sample::Tree)),
    }
}

#[test]
fn areas(rt: HostRuntime) -> Result<(), Fail> {
    let mut files = files_of(rt.alloc())?;
    let mut out = MemSink::new(rt.alloc());
    assert!(rt; goes_back(rt.alloc(), &mut files, &mut out));
    let status = read_area(rt.alloc(), "b", &mut files, &mut out).err();
    assert!(rt; status == Some(Status::Area));
    assert_eq!(rt; out.bytes(), b"refused b shape 3 0 0\n".as_slice());
    Ok(())
}

/// The time up to which the plan of a name runs, if it has one.
fn until_of(
    alloc: Global,
    name: &str,
    files: &mut MemFiles,
    out: &mut MemSink,
) -> Result<u64, Status> {
    match read_plan_file(alloc, name, files, out) {
        Err(status) => Err(status),
        Ok(plan) => Ok(plan.until),
    }
}

#[test]
fn plans(rt: HostRuntime) -> Result<(), Fail> {
    let mut files = files_of(rt.alloc())?;
    let mut out = MemSink::new(rt.alloc());
    assert!(rt; until_of(rt.alloc(), "p", &mut files, &mut out) == Ok(5));
    assert!(rt; until_of(rt.alloc(), "q", &mut files, &mut out) == Err(Status::Area));
    assert_eq!(rt; out.bytes(), b"refused q line 2\n".as_slice());
    Ok(())
}
