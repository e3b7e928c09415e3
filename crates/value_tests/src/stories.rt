//! What a write to the host's files leaves, and what a read of them finds.

use crate::files::{Answer, Call};
use crate::host::{Deed, State, Step, first_wrong};
use crate::refusing::{Refused, Refusing};
use nwq_outside::Done;
use std::alloc::{AllocError, Global};
use std::fs::{self, File};
use std::io::{self, ErrorKind, Read as _};
use std::os::fd::AsRawFd;
use std::os::unix::fs::symlink;
use std::test::Fail;

/// What is written is read, and read no more once it is removed. A folder is neither.
const KEPT: &[Step<'static>] = &[
    Step::Calls(Call::Write("kept.txt", b"kept \x00\xff\n", Done::Ok)),
    Step::Calls(Call::Read("kept.txt", Answer::Bytes(b"kept \x00\xff\n"))),
    Step::Calls(Call::Write("kept.txt", b"new", Done::Ok)),
    Step::Calls(Call::Read("kept.txt", Answer::Bytes(b"new"))),
    Step::Does(Deed::RemoveFile("kept.txt")),
    Step::Calls(Call::Read("kept.txt", Answer::Missing)),
    Step::Calls(Call::Read(".", Answer::Failed)),
    Step::Calls(Call::Write(".", b"lost", Done::Failed)),
];

/// A write to a link to a link to a file goes to the file, and leaves the links. Where a link leads
/// to nothing yet a file is made, and none where it leads to itself.
const LINKS: &[Step<'static>] = &[
    Step::Does(Deed::Folder("linked")),
    Step::Does(Deed::File("linked/old.txt", b"old")),
    Step::Does(Deed::Link("linked/near", "old.txt")),
    Step::Does(Deed::Link("far", "linked/near")),
    Step::Does(Deed::Link("linked/open", "made.txt")),
    Step::Does(Deed::Link("linked/loop", "loop")),
    Step::Calls(Call::Write("far", b"new", Done::Ok)),
    Step::Has("linked/old.txt", b"new"),
    Step::Is("linked/near", State::Link),
    Step::Is("far", State::Link),
    Step::Calls(Call::Write("linked/open", b"made", Done::Ok)),
    Step::Has("linked/made.txt", b"made"),
    Step::Calls(Call::Write("linked/loop", b"lost", Done::Failed)),
    Step::Is("linked/0.nwq-new.tmp", State::Gone),
    Step::Is("0.nwq-new.tmp", State::Gone),
    Step::Does(Deed::RemoveFile("far")),
    Step::Does(Deed::RemoveAll("linked")),
];

/// A write passes over the new names that are taken, one of them by a link to a file.
const TAKEN: &[Step<'static>] = &[
    Step::Does(Deed::Folder("taken")),
    Step::Does(Deed::File("taken/0.nwq-new.tmp", b"other")),
    Step::Does(Deed::File("taken/victim.txt", b"victim")),
    Step::Does(Deed::Link("taken/1.nwq-new.tmp", "victim.txt")),
    Step::Calls(Call::Write("taken/a.txt", b"a", Done::Ok)),
    Step::Has("taken/a.txt", b"a"),
    Step::Has("taken/0.nwq-new.tmp", b"other"),
    Step::Has("taken/victim.txt", b"victim"),
    Step::Is("taken/1.nwq-new.tmp", State::Link),
    Step::Is("taken/2.nwq-new.tmp", State::Gone),
    Step::Does(Deed::RemoveAll("taken")),
];

/// A write keeps the mode of a file, and leaves the file of its other names.
const MODES: &[Step<'static>] = &[
    Step::Does(Deed::Folder("modes")),
    Step::Does(Deed::File("modes/a.txt", b"old")),
    Step::Does(Deed::Mode("modes/a.txt", 0o640)),
    Step::Does(Deed::FurtherName("modes/b.txt", "modes/a.txt")),
    Step::Calls(Call::Write("modes/a.txt", b"new", Done::Ok)),
    Step::Is("modes/a.txt", State::Mode(0o640)),
    Step::Has("modes/b.txt", b"old"),
    Step::Does(Deed::RemoveAll("modes")),
];

/// A write of no bytes is one.
const EMPTY: &[Step<'static>] = &[
    Step::Does(Deed::File("empty.txt", b"old")),
    Step::Calls(Call::Write("empty.txt", b"", Done::Ok)),
    Step::Has("empty.txt", b""),
    Step::Does(Deed::RemoveFile("empty.txt")),
];

/// A folder is not written.
const FOLDER: &[Step<'static>] = &[
    Step::Does(Deed::Folder("folder")),
    Step::Calls(Call::Write("folder", b"lost", Done::Failed)),
    Step::Failed("folder", ErrorKind::IsADirectory),
    Step::Does(Deed::RemoveEmpty("folder")),
];

/// A device is written into.
const DEVICE: &[Step<'static>] = &[
    Step::Calls(Call::Write("/dev/null", b"lost", Done::Ok)),
    Step::Is("/dev/null", State::Device),
];

/// A name of 300 bytes.
const LONG: &str = "xxxxxxxxxxxxxxxxxxxxxxxxxxxxxxxxxxxxxxxxxxxxxxxxxxxxxxxxxxxxxxxxxxxxxxxxxxx\
    xxxxxxxxxxxxxxxxxxxxxxxxxxxxxxxxxxxxxxxxxxxxxxxxxxxxxxxxxxxxxxxxxxxxxxxxxxx\
    xxxxxxxxxxxxxxxxxxxxxxxxxxxxxxxxxxxxxxxxxxxxxxxxxxxxxxxxxxxxxxxxxxxxxxxxxxx\
    xxxxxxxxxxxxxxxxxxxxxxxxxxxxxxxxxxxxxxxxxxxxxxxxxxxxxxxxxxxxxxxxxxxxxxxxxxx";

/// Names that cannot be there, behind a file or a folder that isn't there, or so long, cannot be
/// written either.
const NOWHERE: &[Step<'static>] = &[
    Step::Does(Deed::File("plain.txt", b"plain")),
    Step::Calls(Call::Read("plain.txt/x", Answer::Missing)),
    Step::Calls(Call::Write("plain.txt/x", b"lost", Done::Failed)),
    Step::Calls(Call::Read("nowhere/x", Answer::Missing)),
    Step::Calls(Call::Write("nowhere/x", b"lost", Done::Failed)),
    Step::Calls(Call::Read(LONG, Answer::Missing)),
    Step::Calls(Call::Write(LONG, b"lost", Done::Failed)),
    Step::Has("plain.txt", b"plain"),
    Step::Does(Deed::RemoveFile("plain.txt")),
];

/// A link to itself is not read.
const ITSELF: &[Step<'static>] = &[
    Step::Does(Deed::Link("itself", "itself")),
    Step::Calls(Call::Read("itself", Answer::Failed)),
    Step::Failed("itself", ErrorKind::FilesystemLoop),
    Step::Does(Deed::RemoveFile("itself")),
];

const STORIES: &[(&str, &[Step<'static>])] = &[
    ("kept", KEPT),
    ("links", LINKS),
    ("taken", TAKEN),
    ("modes", MODES),
    ("empty", EMPTY),
    ("folder", FOLDER),
    ("device", DEVICE),
    ("nowhere", NOWHERE),
    ("itself", ITSELF),
];

#[test]
fn files_of_the_host(rt: HostRuntime) {
    for (title, steps) in STORIES {
        assert_eq!(rt; first_wrong(&rt, &rt, steps), None, "{title}");
    }
}

/// The place of the first step that isn't so where an open file of this process is written into by
/// its name, and by a link to that, if there is one.
fn first_wrong_open(rt: &HostRuntime, number: i32) -> Result<Option<usize>, AllocError> {
    let name = format!(in rt.alloc(); "/proc/self/fd/{number}")?;
    let steps = [
        Step::Does(Deed::Link("pipe", name.as_str())),
        Step::Calls(Call::Write(name.as_str(), b"in", Done::Ok)),
        Step::Calls(Call::Write("pipe", b"to", Done::Ok)),
        Step::Does(Deed::RemoveFile("pipe")),
    ];
    Ok(first_wrong(rt, rt, &steps))
}

/// Whether just these bytes are left to read.
fn gives<R: io::Read>(alloc: Global, reader: &mut R, bytes: &[u8]) -> bool {
    let mut read = Vec::new(alloc);
    match reader.read_to_end(&mut read) {
        Ok(_) => read.as_slice() == bytes,
        Err(_) => false,
    }
}

#[test]
fn a_pipe_is_written_into(rt: HostRuntime) -> Result<(), Fail> {
    let (mut reader, writer) = io::pipe(&rt)?;
    let wrong = first_wrong_open(&rt, writer.as_raw_fd());
    drop(writer);
    let given = gives(rt.alloc(), &mut reader, b"into");
    assert_eq!(rt; wrong?, None);
    assert!(rt; given);
    Ok(())
}

/// A write that is refused calls.
#[derive(Clone, Copy)]
struct RefusedWrite {
    refused: Refused,
    /// How the write fails.
    kind: ErrorKind,
    /// What is left under the new name.
    left: Step<'static>,
}

const REFUSED: &[RefusedWrite] = &[
    RefusedWrite {
        refused: Refused::Rename,
        kind: ErrorKind::StorageFull,
        left: Step::Is("0.nwq-new.tmp", State::Gone),
    },
    RefusedWrite {
        refused: Refused::FourthByte,
        kind: ErrorKind::StorageFull,
        left: Step::Is("0.nwq-new.tmp", State::Gone),
    },
    RefusedWrite {
        refused: Refused::Sync,
        kind: ErrorKind::StorageFull,
        left: Step::Is("0.nwq-new.tmp", State::Gone),
    },
    RefusedWrite {
        refused: Refused::RenameAndRemoval,
        kind: ErrorKind::StorageFull,
        left: Step::Has("0.nwq-new.tmp", b"never seen"),
    },
];

#[test]
fn refused_writes(rt: HostRuntime) {
    for (place, write) in REFUSED.iter().enumerate() {
        let host = Refusing {
            host: &rt,
            refused: write.refused,
        };
        let steps = [
            Step::Does(Deed::File("refused.txt", b"old")),
            Step::Calls(Call::Write("refused.txt", b"never seen", Done::Failed)),
            Step::Failed("refused.txt", write.kind),
            Step::Has("refused.txt", b"old"),
            Step::Does(Deed::RemoveFile("refused.txt")),
            write.left,
        ];
        assert_eq!(rt; first_wrong(&rt, host, &steps), None, "write {place}");
    }
    assert!(rt; fs::remove_file(&rt, "0.nwq-new.tmp").is_ok());
}

/// What can't be replaced, as where another file system is mounted on it, is written into.
#[test]
fn fixed_files(rt: HostRuntime) {
    let host = Refusing {
        host: &rt,
        refused: Refused::Mounted,
    };
    let steps = [
        Step::Does(Deed::File("fixed.txt", b"the old one")),
        Step::Does(Deed::Mode("fixed.txt", 0o640)),
        Step::Calls(Call::Write("fixed.txt", b"new", Done::Ok)),
        Step::Has("fixed.txt", b"new"),
        Step::Is("fixed.txt", State::Mode(0o640)),
        Step::Is("0.nwq-new.tmp", State::Gone),
        Step::Does(Deed::RemoveFile("fixed.txt")),
    ];
    assert_eq!(rt; first_wrong(&rt, host, &steps), None);
}

/// What is open already takes its bytes at its end, however many slashes its name has.
#[test]
fn an_open_file_is_written_at_its_end(rt: HostRuntime) -> Result<(), Fail> {
    fs::write(&rt, "open.txt", b"text\n")?;
    let open = File::open(&rt, "open.txt")?;
    let number = open.as_raw_fd();
    let name = format!(in rt.alloc(); "//dev//fd/{number}")?;
    let steps = [
        Step::Calls(Call::Write(name.as_str(), b"line\n", Done::Ok)),
        Step::Has("open.txt", b"text\nline\n"),
        Step::Does(Deed::RemoveFile("open.txt")),
    ];
    assert_eq!(rt; first_wrong(&rt, &rt, &steps), None);
    Ok(())
}

/// Makes so many links in a chain, in a folder of their own.
fn chain(rt: &HostRuntime, links: u32) -> Result<(), Fail> {
    fs::create_dir(rt, "chain")?;
    for number in 0..links {
        let next = number + 1;
        let name = format!(in rt.alloc(); "chain/{number}")?;
        let to = format!(in rt.alloc(); "{next}")?;
        symlink(rt, to.as_str(), name.as_str())?;
    }
    Ok(())
}

/// As many links are followed as the system follows.
#[test]
fn forty_links_are_followed(rt: HostRuntime) -> Result<(), Fail> {
    chain(&rt, 41)?;
    let steps = [
        Step::Calls(Call::Write("chain/1", b"far", Done::Ok)),
        Step::Has("chain/41", b"far"),
        Step::Calls(Call::Read("chain/1", Answer::Bytes(b"far"))),
        Step::Calls(Call::Write("chain/0", b"lost", Done::Failed)),
        Step::Failed("chain/0", ErrorKind::FilesystemLoop),
        Step::Calls(Call::Read("chain/0", Answer::Failed)),
        Step::Has("chain/41", b"far"),
        Step::Does(Deed::RemoveAll("chain")),
    ];
    assert_eq!(rt; first_wrong(&rt, &rt, &steps), None);
    Ok(())
}
