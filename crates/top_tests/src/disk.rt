//! Whole commands over the files of the program on a disk in memory. What they write to is a link,
//! and each call of the disk fails in turn: the file that the link leads to is as it was, or has
//! all that is written.

ghost use Rattle.hook_table.specs.InHooks.{known_by};
ghost use Rattle.world_core.specs.Calls.{AreServing};

use hook_table::Hooks;
use memory_disk::MemoryDisk;
use nwq_outside::MemSink;
use nwq_top::{Status, nwq_main};
use nwq_value::NoMemory;
use real_files::RealFiles;
use std::alloc::Global;
use test_rows::answers::{Held, Named, made, words_of};
use test_rows::bases::{Base, files_of};
use test_rows::samples::Sample;

/// Words that write to one name.
#[derive(Clone, Copy)]
pub struct Command<'a> {
    line: &'a str,
    base: Base,
    /// Names beside those.
    own: &'a [Named<'a>],
    to: &'a str,
    /// What is written.
    new: Held<'a>,
}

/// The words over these names, whatever they write.
macro_rules! written {
    ($line:expr, $base:expr, $to:expr) => {
        Command {
            line: $line,
            base: $base,
            own: &[],
            to: $to,
            new: Held::Something,
        }
    };
}

pub const COMMANDS: &[Command] = &[
    Command {
        line: "dis in out",
        base: Base::Nothing,
        own: &[("in", Held::Of(Sample::Nothing))],
        to: "out",
        new: Held::Of(Sample::Listing),
    },
    Command {
        line: "asm in out",
        base: Base::Nothing,
        own: &[("in", Held::Of(Sample::Listing))],
        to: "out",
        new: Held::Of(Sample::Nothing),
    },
    written!("compile - p", Base::Two, "p.ncs"),
    written!("play - a.git none.plan b.git", Base::Randoms, "b.git"),
    written!("save - a.git used.plan 1 s.nwq", Base::Randoms, "s.nwq"),
];

/// Where the link leads, and what is there at first.
const PLACE: &str = "kept/old";

const OLD: &[u8] = b"the old one";

/// Which call goes wrong, if one does.
#[derive(Clone, Copy)]
enum Wrong {
    Nothing,
    Fails(u64),
    Breaks(u64),
}

fn add_all(alloc: Global, names: &[Named], disk: &mut MemoryDisk) -> Result<(), NoMemory> {
    for (name, held) in names {
        if !matches!(held, Held::Nothing) {
            let bytes = made(alloc, *held)?;
            disk.add_file(name, 0o644, bytes.as_slice())?;
        }
    }
    Ok(())
}

/// The disk that a command is over.
fn disk_of(alloc: Global, command: &Command, wrong: Wrong) -> Result<MemoryDisk, NoMemory> {
    let mut disk = MemoryDisk::new(alloc);
    add_all(alloc, files_of(command.base), &mut disk)?;
    add_all(alloc, command.own, &mut disk)?;
    disk.add_file(PLACE, 0o640, OLD)?;
    disk.add_link(command.to, PLACE.as_bytes())?;
    match wrong {
        Wrong::Nothing => {}
        Wrong::Fails(call) => disk.fail_at(call)?,
        Wrong::Breaks(call) => disk.break_at(call)?,
    }
    Ok(disk)
}

/// Does a command, and says how it ended.
fn carry_out(
    alloc: Global,
    line: &str,
    files: &mut RealFiles<MemoryDisk>,
    hooks: &Hooks,
) -> Result<Status, NoMemory>
    requires hooks { AreServing (known_by hooks.now) }
{
    let words = words_of(alloc, line)?;
    let mut out = MemSink::new(alloc);
    Ok(nwq_main(alloc, words.as_slice(), files, &mut out, hooks))
}

/// Whether the link stands, and leads to a file of the old mode that has these bytes.
fn is_left(disk: &MemoryDisk, command: &Command, bytes: &[u8]) -> bool {
    disk.link(command.to) == Some(PLACE.as_bytes())
        && disk.mode(PLACE) == Some(0o640)
        && disk.bytes(PLACE) == Some(bytes)
}

/// Whether a command of which a call goes wrong leaves the old bytes or these, and says so.
fn is_whole(
    alloc: Global,
    command: &Command,
    new: &[u8],
    wrong: Wrong,
    hooks: &Hooks,
) -> Result<bool, NoMemory>
    requires hooks { AreServing (known_by hooks.now) }
{
    let mut files = RealFiles::new(alloc, disk_of(alloc, command, wrong)?);
    let status = carry_out(alloc, command.line, &mut files, hooks)?;
    let is_old = is_left(files.disk(), command, OLD);
    Ok(status != Status::Done && (is_old || is_left(files.disk(), command, new)))
}

/// The first of so many calls at which a command leaves something else, if there is one.
fn first_call(
    alloc: Global,
    command: &Command,
    new: &[u8],
    calls: u64,
    hooks: &Hooks,
) -> Result<Option<u64>, NoMemory>
    requires hooks { AreServing (known_by hooks.now) }
{
    for call in 0..calls {
        if !is_whole(alloc, command, new, Wrong::Fails(call), hooks)?
            || !is_whole(alloc, command, new, Wrong::Breaks(call), hooks)?
        {
            return Ok(Some(call));
        }
    }
    Ok(None)
}

/// Whether a command writes what it is to write, and leaves its file whole whichever call fails.
fn comes(alloc: Global, command: &Command, hooks: &Hooks) -> Result<bool, NoMemory>
    requires hooks { AreServing (known_by hooks.now) }
{
    let mut files = RealFiles::new(alloc, disk_of(alloc, command, Wrong::Nothing)?);
    let status = carry_out(alloc, command.line, &mut files, hooks)?;
    let Some(found) = files.disk().bytes(PLACE) else {
        return Ok(false);
    };
    let new = Vec::from_slice(alloc, found)?;
    let wanted = made(alloc, command.new)?;
    let is_new = match command.new {
        Held::Something => new.as_slice() != OLD,
        _ => new.as_slice() == wanted.as_slice(),
    };
    if status != Status::Done || !is_new || !is_left(files.disk(), command, new.as_slice()) {
        return Ok(false);
    }
    let calls = files.disk().calls();
    Ok(first_call(alloc, command, new.as_slice(), calls, hooks)?.is_none())
}

/// The place of the first command of which something else comes, if there is one.
pub fn first_command(alloc: Global, hooks: &Hooks) -> Result<Option<usize>, NoMemory>
    requires hooks { AreServing (known_by hooks.now) }
{
    for (place, command) in COMMANDS.iter().enumerate() {
        if !comes(alloc, command, hooks)? {
            return Ok(Some(place));
        }
    }
    Ok(None)
}
