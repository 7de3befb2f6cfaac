//! A runtime without hard links, one whose folders can't be listed, and one whose subfolder another
//! program replaces.

use std::alloc::{AllocError, Allocator};
use std::fs::{Metadata, OpenOptions};
use std::io::{Error, Read};
use std::rt::Files;
use std::{fs, io};

/// The names of a folder, followed by this system error in place of the end.
#[derive(Drop)]
pub(crate) struct Listing<D: Read + Drop> {
    names: D,
    end: Option<i32>,
}

impl<D: Read + Drop> Read for Listing<D> {
    fn read(&mut self, room: &mut [u8]) -> io::Result<usize> {
        match (self.names.read(room), self.end) {
            (Ok(0), Some(error)) => Err(Error::from_raw_os_error(error)),
            (result, _) => result,
        }
    }
}

/// A runtime that refuses hard links, and fails the listing of folders with one name, with system
/// errors.
#[derive(Drop)]
pub(crate) struct Refusing<'a, R: Files + Drop> {
    pub(crate) rt: R,
    /// The error of each hard link, or `None` if hard links are made.
    pub(crate) links: Option<i32>,
    /// The end of the path of folders whose listing fails.
    pub(crate) listed: &'a str,
    /// The error of opening such a folder's listing.
    pub(crate) opening: Option<i32>,
    /// The error in place of the end of such a listing.
    pub(crate) end: Option<i32>,
    /// Where another program moves the subfolder S0000001, unless something is there, right after
    /// its file I0000001 got its name. At its path it makes a folder with a file of this name.
    pub(crate) moved: Option<&'a str>,
}

/// The file that another program puts in place of one that it moves.
pub(crate) const OF_ANOTHER: &[u8] = b"of another";

impl<R: Files + Drop> Refusing<'_, R> {
    /// Replaces the folder of the file at this path, which has just got its name, if it is to be
    /// moved.
    fn replace(&self, path: &str) -> io::Result<()> {
        let (Some(moved), Some((folder, "I0000001"))) = (self.moved, path.rsplit_once('/')) else {
            return Ok(());
        };
        if !folder.ends_with("S0000001") || self.rt.metadata(moved).is_ok() {
            return Ok(());
        }
        self.rt.rename(folder, moved)?;
        self.rt.create_dir(folder)?;
        fs::write(&self.rt, path, OF_ANOTHER)
    }
}

impl<R: Files + Clone + Drop> Clone for Refusing<'_, R> {
    fn clone(&self) -> Result<Self, AllocError> {
        Ok(Refusing {
            rt: self.rt.clone()?,
            links: self.links,
            listed: self.listed,
            opening: self.opening,
            end: self.end,
            moved: self.moved,
        })
    }
}

impl<R: Files + Alloc + Drop> Alloc for Refusing<'_, R> {
    type A = R::A;

    fn alloc(&self) -> R::A {
        self.rt.alloc()
    }
}

impl<R: Files + Drop> Files for Refusing<'_, R> {
    type File = R::File;

    type Dir = Listing<R::Dir>;

    fn open_file(&self, how: &OpenOptions, path: &str) -> io::Result<R::File> {
        self.rt.open_file(how, path)
    }

    fn open_dir(&self, path: &str) -> io::Result<Self::Dir> {
        let fails = path.ends_with(self.listed);
        if let (true, Some(error)) = (fails, self.opening) {
            return Err(Error::from_raw_os_error(error));
        }
        Ok(Listing {
            names: self.rt.open_dir(path)?,
            end: if fails { self.end } else { None },
        })
    }

    fn metadata(&self, path: &str) -> io::Result<Metadata> {
        self.rt.metadata(path)
    }

    fn symlink_metadata(&self, path: &str) -> io::Result<Metadata> {
        self.rt.symlink_metadata(path)
    }

    fn copy(&self, from: &str, to: &str) -> io::Result<u64> {
        self.rt.copy(from, to)
    }

    fn rename(&self, from: &str, to: &str) -> io::Result<()> {
        self.rt.rename(from, to)?;
        self.replace(to)
    }

    fn remove_file(&self, path: &str) -> io::Result<()> {
        self.rt.remove_file(path)
    }

    fn create_dir(&self, path: &str) -> io::Result<()> {
        self.rt.create_dir(path)
    }

    fn remove_dir(&self, path: &str) -> io::Result<()> {
        self.rt.remove_dir(path)
    }

    fn remove_dir_all<B: Allocator>(&self, alloc: B, path: &str) -> io::Result<()> {
        self.rt.remove_dir_all(alloc, path)
    }

    fn symlink(&self, original: &str, link: &str) -> io::Result<()> {
        self.rt.symlink(original, link)
    }

    fn hard_link(&self, original: &str, link: &str) -> io::Result<()> {
        match self.links {
            Some(error) => return Err(Error::from_raw_os_error(error)),
            None => self.rt.hard_link(original, link)?,
        }
        self.replace(link)
    }
}
