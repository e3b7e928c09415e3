//! Files of the host of which some calls are refused, as by a full disk.

use std::alloc::{Alloc, Allocator, Global};
use std::fs::{self, File, Metadata, OpenFile, OpenOptions, Permissions};
use std::io::{self, Error, ErrorKind, Read, Seek, SeekFrom, Write};
use std::rt::Files;

/// Which calls are refused.
#[derive(Clone, Copy)]
pub(crate) enum Refused {
    Rename,
    /// A rename, as where another file system is mounted on what is there.
    Mounted,
    /// The bytes of a file from the fourth on.
    FourthByte,
    Sync,
    /// A rename, and then the removal of the new file too.
    RenameAndRemoval,
}

/// A file of the host that is refused calls.
#[derive(Drop)]
pub(crate) struct Watched {
    file: File,
    refused: Refused,
    took: usize,
}

impl Read for Watched {
    fn read(&mut self, buf: &mut [u8]) -> io::Result<usize> {
        self.file.read(buf)
    }
}

impl Write for Watched {
    fn write(&mut self, bytes: &[u8]) -> io::Result<usize> {
        if matches!(self.refused, Refused::FourthByte) {
            if self.took >= 3 {
                return Err(Error::from(ErrorKind::StorageFull));
            }
            let Some(byte) = bytes.first() else {
                return Ok(0);
            };
            self.took += 1;
            return self.file.write(&[*byte]);
        }
        self.file.write(bytes)
    }

    fn flush(&mut self) -> io::Result<()> {
        self.file.flush()
    }
}

impl Seek for Watched {
    fn seek(&mut self, to: SeekFrom) -> io::Result<u64> {
        self.file.seek(to)
    }
}

impl OpenFile for Watched {
    fn metadata(&self) -> io::Result<Metadata> {
        self.file.metadata()
    }

    fn set_len(&self, size: u64) -> io::Result<()> {
        self.file.set_len(size)
    }

    fn sync_all(&self) -> io::Result<()> {
        if matches!(self.refused, Refused::Sync) {
            return Err(Error::from(ErrorKind::StorageFull));
        }
        self.file.sync_all()
    }

    fn sync_data(&self) -> io::Result<()> {
        self.file.sync_data()
    }

    fn set_permissions(&self, perm: Permissions) -> io::Result<()> {
        self.file.set_permissions(perm)
    }
}

/// The files of the host, with the calls that are refused.
#[derive(Drop)]
pub(crate) struct Refusing<'a> {
    pub(crate) host: &'a HostRuntime,
    pub(crate) refused: Refused,
}

impl Alloc for Refusing<'_> {
    type A = Global;

    fn alloc(&self) -> Global {
        self.host.alloc()
    }
}

impl Files for Refusing<'_> {
    type File = Watched;

    type Dir = <HostRuntime as Files>::Dir;

    fn open_file(&self, how: &OpenOptions, path: &str) -> io::Result<Watched> {
        Ok(Watched {
            file: self.host.open_file(how, path)?,
            refused: self.refused,
            took: 0,
        })
    }

    fn open_dir(&self, path: &str) -> io::Result<<HostRuntime as Files>::Dir> {
        self.host.open_dir(path)
    }

    fn metadata(&self, path: &str) -> io::Result<Metadata> {
        fs::metadata(self.host, path)
    }

    fn symlink_metadata(&self, path: &str) -> io::Result<Metadata> {
        fs::symlink_metadata(self.host, path)
    }

    fn copy(&self, from: &str, to: &str) -> io::Result<u64> {
        fs::copy(self.host, from, to)
    }

    fn rename(&self, from: &str, to: &str) -> io::Result<()> {
        match self.refused {
            Refused::Rename | Refused::RenameAndRemoval => {
                Err(Error::from(ErrorKind::StorageFull))
            }
            Refused::Mounted => Err(Error::from(ErrorKind::ResourceBusy)),
            _ => fs::rename(self.host, from, to),
        }
    }

    fn remove_file(&self, path: &str) -> io::Result<()> {
        match self.refused {
            Refused::RenameAndRemoval => Err(Error::from(ErrorKind::ReadOnlyFilesystem)),
            _ => fs::remove_file(self.host, path),
        }
    }

    fn create_dir(&self, path: &str) -> io::Result<()> {
        fs::create_dir(self.host, path)
    }

    fn remove_dir(&self, path: &str) -> io::Result<()> {
        fs::remove_dir(self.host, path)
    }

    fn remove_dir_all<B: Allocator>(&self, alloc: B, path: &str) -> io::Result<()> {
        self.host.remove_dir_all(alloc, path)
    }
}
