//! The disk of the host, the one part that is trusted: what it does is tested, and not proved.

ghost use Rattle.std.specs.Prelude.{false};
ghost use Rattle.real_files.specs.Disk.{no_names};

use crate::disk::{Disk, Failure, Made, Moved, Thing};
use std::alloc::Global;
use std::fs::{File, OpenFile, OpenOptions, Permissions};
use std::io::{self, Error, ErrorKind, Read, Write};
use std::os::unix::fs::PermissionsExt;
use std::rt::{Files as HostFiles, Stderr, Stdout};

/// The files of the host, and its standard output and error. It tells no names.
#[derive(Drop)]
pub struct HostDisk<R: HostFiles> {
    host: R,
    out: Stdout,
    err: Stderr,
}

impl<R: HostFiles> HostDisk<R> {
    pub fn new(host: R, out: Stdout, err: Stderr) -> Self {
        HostDisk { host, out, err }
    }
}

/// What is open already under a name.
#[derive(Clone, Copy)]
enum Opened {
    Out,
    Err,
    /// Another descriptor, or a file that the system makes up.
    Other,
}

/// What is open under this number.
fn descriptor(number: &str) -> Opened {
    match number {
        "1" => Opened::Out,
        "2" => Opened::Err,
        _ => Opened::Other,
    }
}

/// What is open already under a name, if it is no name in a folder of files.
fn what_is_open(name: &str) -> Option<Opened> {
    if !name.starts_with('/') {
        return None;
    }
    let mut parts = name.split('/').filter(|part| !part.is_empty());
    let first = parts.next().unwrap_or("");
    let second = parts.next().unwrap_or("");
    let third = parts.next().unwrap_or("");
    match (first, second, third) {
        ("dev", "stdout", "") => Some(Opened::Out),
        ("dev", "stderr", "") => Some(Opened::Err),
        ("dev", "stdin", "") => Some(Opened::Other),
        ("dev", "fd", number) => Some(descriptor(number)),
        ("proc", "self", "fd") => Some(descriptor(parts.next().unwrap_or(""))),
        ("proc", _, _) => Some(Opened::Other),
        _ => None,
    }
}

/// Why a call failed.
fn failure(error: &Error) -> Failure {
    match error.kind() {
        ErrorKind::OutOfMemory => Failure::NoMemory,
        kind => Failure::Kind(kind),
    }
}

/// Why a read failed. Nothing can be below what is no folder, nor under a name that is too long.
fn read_failure(error: &Error) -> Failure {
    match error.kind() {
        ErrorKind::NotFound | ErrorKind::NotADirectory | ErrorKind::InvalidFilename => {
            Failure::Absent
        }
        _ => failure(error),
    }
}

/// The end of a call that can be refused by a file system which has no such call.
fn if_any(end: io::Result<()>) -> io::Result<()> {
    match end {
        Ok(()) => Ok(()),
        Err(error) => match error.kind() {
            ErrorKind::InvalidInput | ErrorKind::Unsupported | ErrorKind::PermissionDenied => {
                Ok(())
            }
            _ => Err(error),
        },
    }
}

/// The first bytes of a file, at most so many.
fn front_of<R: HostFiles>(host: &R, alloc: Global, name: &str, most: u64) -> io::Result<Vec<u8>> {
    let file = File::open(host, name)?;
    let mut bytes = Vec::new(alloc);
    file.take(most).read_to_end(&mut bytes)?;
    Ok(bytes)
}

/// What a name in a folder is, links not followed.
fn thing_of<R: HostFiles>(host: &R, alloc: Global, name: &str) -> io::Result<Thing> {
    let about = match std::fs::symlink_metadata(host, name) {
        Ok(about) => about,
        Err(error) if error.kind() == ErrorKind::NotFound => return Ok(Thing::Nothing),
        Err(error) => return Err(error),
    };
    if about.is_symlink() {
        let text = host.read_link(alloc, name)?;
        return Ok(Thing::Link(text.into_string().into_bytes()));
    }
    if about.is_file() {
        return Ok(Thing::File(about.permissions().mode()));
    }
    Ok(Thing::Other)
}

/// Gives a file that was just made this mode and these bytes.
fn fill<F: Write + OpenFile>(
    file: &mut F,
    like: Option<u32>,
    bytes: &[u8],
    lasting: bool,
) -> io::Result<()> {
    if let Some(mode) = like {
        if_any(file.set_permissions(Permissions::from_mode(mode)))?;
    }
    file.write_all(bytes)?;
    if lasting {
        if_any(file.sync_all())?;
    }
    Ok(())
}

/// The folder of a name, as a name.
fn folder_of(name: &str) -> &str {
    match name.rsplit_once('/') {
        None => ".",
        Some(("", _)) => "/",
        Some((folder, _)) => folder,
    }
}

/// Waits until the disk has what a folder lists.
fn sync<R: HostFiles>(host: &R, folder: &str) -> io::Result<()> {
    let folder = File::open(host, folder)?;
    folder.sync_all()
}

/// Writes into what has this name, from its start or at its end.
fn write_at<R: HostFiles>(host: &R, name: &str, end: bool, bytes: &[u8]) -> io::Result<()> {
    let mut options = OpenOptions::new();
    options.write(true).append(end).truncate(!end);
    let mut file = options.open(host, name)?;
    file.write_all(bytes)
}

impl<R: HostFiles> Disk for HostDisk<R> {
    ghost tells = { false };

    ghost names = { λ _. no_names };

    fn files_are_bytes(&self) {}

    fn read(&mut self, alloc: Global, name: &str, most: u64) -> Result<Vec<u8>, Failure> {
        match front_of(&self.host, alloc, name, most) {
            Ok(bytes) => Ok(bytes),
            Err(error) => Err(read_failure(&error)),
        }
    }

    fn look(&mut self, alloc: Global, name: &str) -> Result<Thing, Failure> {
        if what_is_open(name).is_some() {
            return Ok(Thing::Other);
        }
        match thing_of(&self.host, alloc, name) {
            Ok(thing) => Ok(thing),
            Err(error) => Err(failure(&error)),
        }
    }

    fn may_write(&mut self, name: &str) -> Result<(), Failure> {
        match OpenOptions::new().write(true).open(&self.host, name) {
            Ok(_) => Ok(()),
            Err(error) => Err(failure(&error)),
        }
    }

    /// A name that is taken, also by a link, makes nothing.
    fn make(
        &mut self,
        new: &str,
        _name: &str,
        like: Option<u32>,
        bytes: &[u8],
        lasting: bool,
    ) -> Made {
        match File::create_new(&self.host, new) {
            Ok(mut file) => match fill(&mut file, like, bytes, lasting) {
                Ok(()) => Made::Whole,
                Err(error) => Made::Broken(failure(&error)),
            },
            Err(error) => match error.kind() {
                ErrorKind::AlreadyExists => Made::Taken,
                ErrorKind::PermissionDenied | ErrorKind::ReadOnlyFilesystem if like.is_some() => {
                    Made::Closed
                }
                _ => Made::Refused(failure(&error)),
            },
        }
    }

    /// A mount point, or another's file in a folder where each may remove only their own, stays.
    fn rename(&mut self, from: &str, to: &str) -> Moved {
        match std::fs::rename(&self.host, from, to) {
            Ok(()) => Moved::Done,
            Err(error) => match error.kind() {
                ErrorKind::PermissionDenied | ErrorKind::ResourceBusy | ErrorKind::CrossesDevices =>
                    Moved::Fixed,
                _ => Moved::Refused(failure(&error)),
            },
        }
    }

    fn remove(&mut self, name: &str) -> Result<(), Failure> {
        match std::fs::remove_file(&self.host, name) {
            Ok(()) => Ok(()),
            Err(error) => Err(failure(&error)),
        }
    }

    /// What is open already takes the bytes at its end, and never at an offset of its own.
    fn write_into(&mut self, name: &str, bytes: &[u8]) -> Result<(), Failure> {
        let end = match what_is_open(name) {
            Some(Opened::Out) => self.out.write_all(bytes),
            Some(Opened::Err) => self.err.write_all(bytes),
            Some(Opened::Other) => write_at(&self.host, name, true, bytes),
            None => write_at(&self.host, name, false, bytes),
        };
        match end {
            Ok(()) => Ok(()),
            Err(error) => Err(failure(&error)),
        }
    }

    fn sync_folder(&mut self, name: &str) -> Result<(), Failure> {
        match if_any(sync(&self.host, folder_of(name))) {
            Ok(()) => Ok(()),
            Err(error) => Err(failure(&error)),
        }
    }
}
