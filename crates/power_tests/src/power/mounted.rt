//! The disk as the files of a runtime.

use crate::power::disk::{Disk, Shared};
use crate::power::folder::Node;
use crate::power::handles::{Handle, Listing};
use crate::power::trouble::Act;
use std::alloc::{AllocError, Allocator, Global};
use std::fs::{Metadata, OpenOptions};
use std::io;
use std::io::{Error, ErrorKind};
use std::rt::Files;

/// A runtime whose files are on the disk.
#[derive(Drop)]
pub(crate) struct Mounted {
    pub(crate) alloc: Global,
    pub(crate) disk: Shared,
}

impl Clone for Mounted {
    fn clone(&self) -> Result<Self, AllocError> {
        Ok(Mounted {
            alloc: self.alloc,
            disk: self.disk.clone()?,
        })
    }
}

impl Alloc for Mounted {
    type A = Global;

    fn alloc(&self) -> Global {
        self.alloc
    }
}

/// Returns the names of a folder.
fn names(alloc: Global, disk: &mut Disk, path: &str) -> io::Result<Vec<[u8; 8]>> {
    disk.call(Act::List)?;
    let Node::Folder(folder) = disk.node(path)? else {
        return Err(Error::from(ErrorKind::NotADirectory));
    };
    let mut names = Vec::new(alloc);
    for entry in disk.folder(folder)?.entries() {
        names.push(entry.name.padded())?;
    }
    Ok(names)
}

impl Files for Mounted {
    type File = Handle;

    type Dir = Listing;

    /// Opens a file to read, or creates a new file.
    fn open_file(&self, how: &OpenOptions, path: &str) -> io::Result<Handle> {
        how.check()?;
        let mut disk = self.disk.try_borrow_mut()?;
        let node = if how.asks_create_new() {
            disk.create(path)?
        } else if how.asks_write() || how.asks_append() {
            return Err(Error::from(ErrorKind::Unsupported));
        } else {
            disk.open(path)?
        };
        Ok(Handle {
            disk: self.disk.clone()?,
            node,
        })
    }

    fn open_dir(&self, path: &str) -> io::Result<Listing> {
        let mut disk = self.disk.try_borrow_mut()?;
        Ok(Listing {
            disk: self.disk.clone()?,
            names: names(self.alloc, &mut *disk, path)?,
        })
    }

    fn metadata(&self, path: &str) -> io::Result<Metadata> {
        self.disk.try_borrow_mut()?.metadata(path)
    }

    fn symlink_metadata(&self, path: &str) -> io::Result<Metadata> {
        self.disk.try_borrow_mut()?.metadata(path)
    }

    fn copy(&self, _from: &str, _to: &str) -> io::Result<u64> {
        Err(Error::from(ErrorKind::Unsupported))
    }

    fn rename(&self, from: &str, to: &str) -> io::Result<()> {
        self.disk.try_borrow_mut()?.rename(from, to)
    }

    fn remove_file(&self, path: &str) -> io::Result<()> {
        self.disk.try_borrow_mut()?.remove_file(path)
    }

    fn create_dir(&self, path: &str) -> io::Result<()> {
        self.disk.try_borrow_mut()?.make_folder(path)
    }

    fn remove_dir(&self, path: &str) -> io::Result<()> {
        self.disk.try_borrow_mut()?.remove_folder(path)
    }

    fn remove_dir_all<B: Allocator>(&self, _alloc: B, _path: &str) -> io::Result<()> {
        Err(Error::from(ErrorKind::Unsupported))
    }

    fn hard_link(&self, original: &str, link: &str) -> io::Result<()> {
        self.disk.try_borrow_mut()?.link(original, link)
    }
}
