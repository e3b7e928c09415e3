//! Stories of the host's files, told step by step.

use crate::files::{Call, is_answered};
use real_files::{HostDisk, RealFiles, Trouble};
use std::fs::{self, Permissions};
use std::io::{self, ErrorKind};
use std::os::unix::fs::{PermissionsExt, symlink};
use std::rt::Files as HostFiles;

/// What is done to the host's files under a name, which stands first.
#[derive(Clone, Copy)]
pub(crate) enum Deed<'a> {
    Folder(&'a str),
    File(&'a str, &'a [u8]),
    /// A link that leads there.
    Link(&'a str, &'a str),
    /// A further name of the file of this name.
    FurtherName(&'a str, &'a str),
    /// A file gets this mode.
    Mode(&'a str, u32),
    RemoveFile(&'a str),
    RemoveEmpty(&'a str),
    RemoveAll(&'a str),
}

/// What stands under a name.
#[derive(Clone, Copy)]
pub(crate) enum State {
    /// Nothing, not even a link.
    Gone,
    Link,
    /// What has this mode.
    Mode(u32),
    /// Neither a regular file nor a link.
    Device,
}

/// A step of a story.
#[derive(Clone, Copy)]
pub(crate) enum Step<'a> {
    Does(Deed<'a>),
    /// The files that are tested are called.
    Calls(Call<'a>),
    /// Their last failure was at this name, and of this kind.
    Failed(&'a str, ErrorKind),
    /// Just these bytes are in the file of the name.
    Has(&'a str, &'a [u8]),
    Is(&'a str, State),
}

fn does(rt: &HostRuntime, deed: Deed<'_>) -> io::Result<()> {
    match deed {
        Deed::Folder(name) => fs::create_dir(rt, name),
        Deed::File(name, bytes) => fs::write(rt, name, bytes),
        Deed::Link(name, to) => symlink(rt, to, name),
        Deed::FurtherName(name, of) => fs::hard_link(rt, of, name),
        Deed::Mode(name, mode) => fs::set_permissions(rt, name, Permissions::from_mode(mode)),
        Deed::RemoveFile(name) => fs::remove_file(rt, name),
        Deed::RemoveEmpty(name) => fs::remove_dir(rt, name),
        Deed::RemoveAll(name) => fs::remove_dir_all(rt, name),
    }
}

fn is_in(rt: &HostRuntime, name: &str, state: State) -> bool {
    match fs::symlink_metadata(rt, name) {
        Err(_) => matches!(state, State::Gone),
        Ok(data) => match state {
            State::Gone => false,
            State::Link => data.is_symlink(),
            State::Mode(mode) => data.permissions().mode() & 0o777 == mode,
            State::Device => !data.is_file() && !data.is_symlink(),
        },
    }
}

fn has(rt: &HostRuntime, name: &str, bytes: &[u8]) -> bool {
    match fs::read(rt, name) {
        Ok(read) => read.as_slice() == bytes,
        Err(_) => false,
    }
}

fn failed(trouble: Option<&Trouble>, name: &str, kind: ErrorKind) -> bool {
    match trouble {
        None => false,
        Some(trouble) => trouble.name.as_str() == name && trouble.kind == kind,
    }
}

/// Whether a step can be done, or is found to be so.
fn is_so<R: HostFiles>(
    rt: &HostRuntime,
    files: &mut RealFiles<HostDisk<R>>,
    step: Step<'_>,
) -> bool {
    match step {
        Step::Does(deed) => does(rt, deed).is_ok(),
        Step::Calls(call) => is_answered(rt.alloc(), files, call),
        Step::Failed(name, kind) => failed(files.trouble(), name, kind),
        Step::Has(name, bytes) => has(rt, name, bytes),
        Step::Is(name, state) => is_in(rt, name, state),
    }
}

/// The files of this host.
pub(crate) fn files_of<R: HostFiles>(rt: &HostRuntime, host: R) -> RealFiles<HostDisk<R>> {
    RealFiles::new(rt.alloc(), HostDisk::new(host, rt.stdout(), rt.stderr()))
}

/// The place of the first step that isn't so with the files of this host, if there is one.
pub(crate) fn first_wrong<R: HostFiles + Drop>(
    rt: &HostRuntime,
    host: R,
    steps: &[Step<'_>],
) -> Option<usize> {
    let mut files = files_of(rt, host);
    for (place, step) in steps.iter().enumerate() {
        if !is_so(rt, &mut files, *step) {
            return Some(place);
        }
    }
    None
}
