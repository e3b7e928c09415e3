//! The files of the program over a disk in memory: links, modes, a full disk, and calls that fail.

use crate::files::{Answer, Call, is_answered, writes_most};
use memory_disk::MemoryDisk;
use nwq_outside::{Done, Files};
use nwq_value::NoMemory;
use real_files::RealFiles;
use std::alloc::{AllocError, Global};
use std::io::ErrorKind;
use std::test::Fail;

/// What is on the disk, and how it is.
#[derive(Clone, Copy)]
enum Thing<'a> {
    File(&'a str, u32, &'a [u8]),
    Link(&'a str, &'a [u8]),
    Device(&'a str),
    /// What has this name can't be replaced.
    Mark(&'a str),
    /// A folder in which no file can be made.
    Close(&'a str),
    Room(usize),
    FailAt(u64),
    BreakAt(u64),
}

/// What is found in the end.
#[derive(Clone, Copy)]
enum End<'a> {
    Has(&'a str, &'a [u8]),
    Gone(&'a str),
    Mode(&'a str, u32),
    Link(&'a str, &'a [u8]),
    /// The last failure was at this name, and of this kind.
    Failed(&'a str, ErrorKind),
}

struct Case {
    things: &'static [Thing<'static>],
    calls: &'static [Call<'static>],
    ends: &'static [End<'static>],
}

fn put(disk: &mut MemoryDisk, thing: Thing<'_>) -> Result<(), NoMemory> {
    match thing {
        Thing::File(name, mode, bytes) => disk.add_file(name, mode, bytes),
        Thing::Link(name, text) => disk.add_link(name, text),
        Thing::Device(name) => disk.add_device(name, b""),
        Thing::Mark(name) => disk.mark(name),
        Thing::Close(folder) => disk.close(folder),
        Thing::Room(room) => {
            disk.set_room(room);
            Ok(())
        }
        Thing::FailAt(call) => disk.fail_at(call),
        Thing::BreakAt(call) => disk.break_at(call),
    }
}

fn files_with(alloc: Global, things: &[Thing<'_>]) -> Result<RealFiles<MemoryDisk>, NoMemory> {
    let mut disk = MemoryDisk::new(alloc);
    for thing in things {
        put(&mut disk, *thing)?;
    }
    Ok(RealFiles::new(alloc, disk))
}

fn is_so(files: &RealFiles<MemoryDisk>, end: End<'_>) -> bool {
    let disk = files.disk();
    match end {
        End::Has(name, bytes) => disk.bytes(name) == Some(bytes),
        End::Gone(name) => disk.bytes(name).is_none() && disk.link(name).is_none(),
        End::Mode(name, mode) => disk.mode(name) == Some(mode),
        End::Link(name, text) => disk.link(name) == Some(text),
        End::Failed(name, kind) => match files.trouble() {
            None => false,
            Some(trouble) => trouble.name.as_str() == name && trouble.kind == kind,
        },
    }
}

/// Links are followed from their own folders or from the root, and stay.
const LINKS: Case = Case {
    things: &[
        Thing::File("linked/old.txt", 0o644, b"old"),
        Thing::Link("linked/near", b"old.txt"),
        Thing::Link("far", b"linked/near"),
        Thing::File("/top/old.txt", 0o644, b"top"),
        Thing::Link("linked/root", b"/top/old.txt"),
        Thing::Link("linked/open", b"made.txt"),
    ],
    calls: &[
        Call::Read("far", Answer::Bytes(b"old")),
        Call::Write("far", b"new", Done::Ok),
        Call::Read("linked/near", Answer::Bytes(b"new")),
        Call::Read("linked/root", Answer::Bytes(b"top")),
        Call::Write("linked/root", b"", Done::Ok),
        Call::Read("linked/open", Answer::Missing),
        Call::Write("linked/open", b"made", Done::Ok),
    ],
    ends: &[
        End::Has("linked/old.txt", b"new"),
        End::Link("linked/near", b"old.txt"),
        End::Link("far", b"linked/near"),
        End::Has("/top/old.txt", b""),
        End::Has("linked/made.txt", b"made"),
        End::Gone("made.txt"),
        End::Gone("linked/0.nwq-new.tmp"),
    ],
};

/// A link to itself leads nowhere.
const LOOP: Case = Case {
    things: &[Thing::Link("loop", b"loop")],
    calls: &[
        Call::Read("loop", Answer::Failed),
        Call::Write("loop", b"lost", Done::Failed),
    ],
    ends: &[
        End::Link("loop", b"loop"),
        End::Failed("loop", ErrorKind::FilesystemLoop),
    ],
};

/// A file keeps its mode, and a file that may not be written stays as it is.
const MODES: Case = Case {
    things: &[
        Thing::File("a", 0o640, b"old"),
        Thing::File("b", 0o440, b"old"),
        Thing::Link("to_a", b"a"),
    ],
    calls: &[
        Call::Write("to_a", b"new", Done::Ok),
        Call::Write("b", b"new", Done::Failed),
    ],
    ends: &[
        End::Has("a", b"new"),
        End::Mode("a", 0o640),
        End::Has("b", b"old"),
        End::Mode("b", 0o440),
        End::Failed("b", ErrorKind::PermissionDenied),
    ],
};

/// Where the disk is full the old file stays, and no new one is left.
const FULL: Case = Case {
    things: &[Thing::File("a", 0o644, b"the old one"), Thing::Room(4)],
    calls: &[
        Call::Write("a", b"12345", Done::Failed),
        Call::Write("c", b"12345", Done::Failed),
        Call::Write("a", b"1234", Done::Ok),
        Call::Write("c", b"12345678901", Done::Ok),
    ],
    ends: &[
        End::Has("a", b"1234"),
        End::Has("c", b"12345678901"),
        End::Gone("0.nwq-new.tmp"),
        End::Failed("c", ErrorKind::StorageFull),
    ],
};

/// New names that something has are passed over.
const TAKEN: Case = Case {
    things: &[
        Thing::File("in/0.nwq-new.tmp", 0o600, b"other"),
        Thing::File("in/victim", 0o600, b"victim"),
        Thing::Link("in/1.nwq-new.tmp", b"victim"),
    ],
    calls: &[Call::Write("in/a", b"a", Done::Ok)],
    ends: &[
        End::Has("in/a", b"a"),
        End::Has("in/0.nwq-new.tmp", b"other"),
        End::Link("in/1.nwq-new.tmp", b"victim"),
        End::Has("in/victim", b"victim"),
        End::Gone("in/2.nwq-new.tmp"),
    ],
};

/// What can't be replaced is written into, and nothing is made in a closed folder.
const FIXED: Case = Case {
    things: &[
        Thing::File("mounted", 0o640, b"the old one"),
        Thing::Mark("mounted"),
        Thing::File("shut/a", 0o600, b"old"),
        Thing::Close("shut/"),
        Thing::Device("null"),
    ],
    calls: &[
        Call::Write("mounted", b"new", Done::Ok),
        Call::Write("shut/a", b"longer than the old", Done::Ok),
        Call::Write("null", b"any", Done::Ok),
        Call::Write("shut/b", b"lost", Done::Failed),
    ],
    ends: &[
        End::Has("mounted", b"new"),
        End::Mode("mounted", 0o640),
        End::Has("shut/a", b"longer than the old"),
        End::Has("null", b"any"),
        End::Gone("shut/b"),
        End::Gone("0.nwq-new.tmp"),
        End::Failed("shut/b", ErrorKind::NotFound),
    ],
};

/// A read that fails, and a write that breaks off and whose new file is left, since it can't be
/// removed either.
const FAILING: Case = Case {
    things: &[
        Thing::File("a", 0o644, b"old"),
        Thing::FailAt(0),
        Thing::BreakAt(3),
        Thing::FailAt(4),
    ],
    calls: &[
        Call::Read("a", Answer::Failed),
        Call::Write("a", b"newer", Done::Failed),
        Call::Write("a", b"newest", Done::Ok),
    ],
    ends: &[
        End::Has("a", b"newest"),
        End::Has("0.nwq-new.tmp", b"ne"),
        End::Failed("a", ErrorKind::Other),
    ],
};

const CASES: &[(&str, Case)] = &[
    ("links", LINKS),
    ("loop", LOOP),
    ("modes", MODES),
    ("full", FULL),
    ("taken", TAKEN),
    ("fixed", FIXED),
    ("failing", FAILING),
];

/// The place of the first call that is answered otherwise, or of the first end behind them that
/// isn't so, if there is one.
fn first_wrong(alloc: Global, case: &Case) -> Result<Option<usize>, NoMemory> {
    let mut files = files_with(alloc, case.things)?;
    let mut place = 0usize;
    for call in case.calls {
        if !is_answered(alloc, &mut files, *call) {
            return Ok(Some(place));
        }
        place = place.saturating_add(1);
    }
    for end in case.ends {
        if !is_so(&files, *end) {
            return Ok(Some(place));
        }
        place = place.saturating_add(1);
    }
    Ok(None)
}

#[test]
fn files_over_memory(rt: HostRuntime) -> Result<(), Fail> {
    for (title, case) in CASES {
        assert_eq!(rt; first_wrong(rt.alloc(), case)?, None, "{title}");
    }
    Ok(())
}

/// Files with a chain of so many links from the name `0`, whose last one leads to a file.
fn chain_of(alloc: Global, links: u32) -> Result<RealFiles<MemoryDisk>, NoMemory> {
    let mut disk = MemoryDisk::new(alloc);
    for link in 0..links {
        let name = format!(in alloc; "in/{link}")?;
        let next = format!(in alloc; "{}", link.saturating_add(1))?;
        disk.add_link(name.as_str(), next.as_bytes())?;
    }
    let last = format!(in alloc; "in/{links}")?;
    disk.add_file(last.as_str(), 0o644, b"last")?;
    Ok(RealFiles::new(alloc, disk))
}

/// As many links are followed as the system follows, and no more.
#[test]
fn chains_of_links(rt: HostRuntime) -> Result<(), Fail> {
    let mut files = chain_of(rt.alloc(), 40)?;
    let last = Call::Read("in/0", Answer::Bytes(b"last"));
    assert!(rt; is_answered(rt.alloc(), &mut files, last));
    assert!(rt; files.write("in/0", b"new") == Done::Ok);
    assert!(rt; is_so(&files, End::Has("in/40", b"new")));
    let mut files = chain_of(rt.alloc(), 41)?;
    assert!(rt; is_answered(rt.alloc(), &mut files, Call::Read("in/0", Answer::Failed)));
    assert!(rt; files.write("in/0", b"new") == Done::Failed);
    assert!(rt; is_so(&files, End::Has("in/41", b"last")));
    Ok(())
}

/// A write under a name of which one call is to fail or to break off.
#[derive(Clone, Copy)]
struct Broken<'a> {
    name: &'a str,
    /// Where the bytes are then.
    place: &'a str,
    wrong: Thing<'a>,
}

/// The answer of the write, if the old bytes or the new ones are there whole, with the old mode,
/// and the new ones where it went well.
fn answer_of(alloc: Global, broken: Broken<'_>) -> Result<Option<Done>, NoMemory> {
    let things = [
        Thing::File("to/a", 0o640, b"the old one"),
        Thing::File("to/a.ncs", 0o640, b"the old one"),
        Thing::Link("link", b"to/a"),
        broken.wrong,
    ];
    let mut files = files_with(alloc, &things)?;
    let done = files.write(broken.name, b"new");
    let is_new = is_so(&files, End::Has(broken.place, b"new"));
    let is_old = is_so(&files, End::Has(broken.place, b"the old one"));
    let is_kept = is_so(&files, End::Mode(broken.place, 0o640));
    if is_kept && (is_new || is_old && done != Done::Ok) {
        Ok(Some(done))
    } else {
        Ok(None)
    }
}

/// Whether a write leaves the old bytes or the new ones whichever call fails, and goes well from
/// the call on that it doesn't come to.
fn is_whole<'a>(
    alloc: Global,
    name: &'a str,
    place: &'a str,
    calls: u64,
) -> Result<bool, NoMemory> {
    for call in 0..8u64 {
        for wrong in [Thing::FailAt(call), Thing::BreakAt(call)] {
            let answer = answer_of(alloc, Broken { name, place, wrong })?;
            let wanted = if call < calls { Done::Failed } else { Done::Ok };
            if answer != Some(wanted) {
                return Ok(false);
            }
        }
    }
    Ok(true)
}

/// A write looks, asks whether it may write, makes the new file and renames it, and waits until the
/// folder is on the disk, but for compiled scripts; a link is looked at first.
#[test]
fn each_call_fails(rt: HostRuntime) -> Result<(), Fail> {
    assert!(rt; is_whole(rt.alloc(), "to/a", "to/a", 5)?);
    assert!(rt; is_whole(rt.alloc(), "to/a.ncs", "to/a.ncs", 4)?);
    assert!(rt; is_whole(rt.alloc(), "link", "to/a", 6)?);
    Ok(())
}

fn writes_long(alloc: Global) -> Result<bool, AllocError> {
    let mut bytes = vec![in alloc; 7u8; 16_777_216]?;
    let mut files = RealFiles::new(alloc, MemoryDisk::new(alloc));
    writes_most(alloc, &mut files, &mut bytes)
}

#[test]
fn long_files_over_memory(rt: HostRuntime) -> Result<(), Fail> {
    assert!(rt; writes_long(rt.alloc())?);
    Ok(())
}
