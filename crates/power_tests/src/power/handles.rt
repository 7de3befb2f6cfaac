//! Open files and listings of the disk.

use crate::power::disk::Shared;
use crate::power::folder::Node;
use crate::power::trouble::Act;
use folder_filing::StoredFile;
use std::fs::{Metadata, OpenFile, TryLockError};
use std::io;
use std::io::{Error, ErrorKind, Read, Seek, SeekFrom, Write};

/// An open file or folder. Bytes are written to the end of the file.
#[derive(Drop)]
pub(crate) struct Handle {
    pub(crate) disk: Shared,
    pub(crate) node: Node,
}

fn unsupported() -> Error {
    Error::from(ErrorKind::Unsupported)
}

impl Read for Handle {
    fn read(&mut self, _buf: &mut [u8]) -> io::Result<usize> {
        Err(unsupported())
    }
}

impl Write for Handle {
    fn write(&mut self, buf: &[u8]) -> io::Result<usize> {
        let written = self.disk.try_borrow_mut()?.write(self.node, buf)?;
        Ok(written.min(buf.len()))
    }

    fn flush(&mut self) -> io::Result<()> {
        Ok(())
    }
}

impl Seek for Handle {
    fn seek(&mut self, _to: SeekFrom) -> io::Result<u64> {
        Err(unsupported())
    }
}

impl OpenFile for Handle {
    fn metadata(&self) -> io::Result<Metadata> {
        self.disk.try_borrow_mut()?.metadata_of_open(self.node)
    }

    fn set_len(&self, _size: u64) -> io::Result<()> {
        Err(unsupported())
    }

    fn sync_all(&self) -> io::Result<()> {
        self.disk.try_borrow_mut()?.sync(self.node)
    }

    fn sync_data(&self) -> io::Result<()> {
        Err(unsupported())
    }
}

impl StoredFile for Handle {
    /// Locks nothing: each disk has one writer at a time.
    fn try_lock(&self) -> Result<(), TryLockError> {
        let called = match self.disk.try_borrow_mut() {
            Ok(disk) => {
                let mut disk = disk;
                disk.call(Act::Lock)
            }
            Err(error) => Err(Error::from(error)),
        };
        called.map_err(TryLockError::Error)
    }
}

/// The names of a folder when it was opened, in reverse order. Each read yields one.
#[derive(Drop)]
pub(crate) struct Listing {
    pub(crate) disk: Shared,
    pub(crate) names: Vec<[u8; 8]>,
}

/// Writes a name and a zero byte to `room`. Returns the number of bytes.
fn put_name(name: [u8; 8], room: &mut [u8]) -> usize {
    let mut count = 0usize;
    for (to, from) in room.iter_mut().zip(name.iter().chain(&[0])) {
        *to = *from;
        count = count.saturating_add(1);
        if *from == 0 {
            break;
        }
    }
    count
}

impl Read for Listing {
    fn read(&mut self, buf: &mut [u8]) -> io::Result<usize> {
        self.disk.try_borrow_mut()?.call(Act::List)?;
        let Some(name) = self.names.pop() else {
            return Ok(0);
        };
        let count = put_name(name, buf);
        Ok(count.min(buf.len()))
    }
}
