//! The files that a disk has, and the expected files.

use crate::power::disk::Disk;
use crate::power::folder::{Entry, Node};
use std::alloc::Global;
use std::io;
use std::io::{Error, ErrorKind};

/// The number of files per subfolder.
pub(crate) const PER: u32 = 2;

/// How files are arranged: in one folder, or in subfolders of two files each.
#[derive(Clone, Copy, PartialEq, Eq)]
pub(crate) enum Kept {
    Flat,
    Levels,
}

/// The location of a file: the number of its subfolder, 0 for the main folder, and its own number.
#[derive(Clone, Copy, PartialEq, Eq)]
struct Location {
    folder: u32,
    file: u32,
}

/// A file that must or may exist.
#[derive(Clone, Copy)]
pub(crate) struct Due<'a> {
    pub(crate) file: &'a [u8],
    pub(crate) must: bool,
    pub(crate) may: bool,
}

/// The files of a disk with their locations, and the greatest subfolder number, or 0.
#[derive(Drop)]
pub(crate) struct Filed {
    files: Vec<(Location, usize)>,
    last_folder: u32,
}

fn unexpected() -> Error {
    Error::from(ErrorKind::InvalidData)
}

/// Adds the files of a folder.
fn add_files(to: &mut Vec<(Location, usize)>, folder: u32, entries: &[Entry]) -> io::Result<()> {
    for entry in entries {
        match (entry.name.number(b'I'), entry.node) {
            (Some(file), Node::File(at)) => to.push((Location { folder, file }, at))?,
            _ => return Err(unexpected()),
        }
    }
    Ok(())
}

impl Filed {
    fn add(&mut self, disk: &Disk, kept: Kept, entry: Entry) -> io::Result<()> {
        if entry.name.is_draft() {
            return Ok(());
        }
        match (kept, entry.node) {
            (Kept::Flat, Node::File(_)) => add_files(&mut self.files, 0, &[entry]),
            (Kept::Levels, Node::Folder(at)) => {
                let folder = entry.name.number(b'S').ok_or(unexpected())?;
                self.last_folder = self.last_folder.max(folder);
                add_files(&mut self.files, folder, disk.folder(at)?.entries())
            }
            _ => Err(unexpected()),
        }
    }

    /// Returns the files of a disk. Fails if the disk has anything else but a draft.
    pub(crate) fn of(alloc: Global, disk: &Disk, kept: Kept) -> io::Result<Filed> {
        let mut filed = Filed {
            files: Vec::new(alloc),
            last_folder: 0,
        };
        for entry in disk.folder(0)?.entries() {
            filed.add(disk, kept, *entry)?;
        }
        Ok(filed)
    }

    /// Returns how many files have these bytes.
    fn count(&self, disk: &Disk, bytes: &[u8]) -> io::Result<usize> {
        let mut count = 0usize;
        for (_, at) in &self.files {
            if disk.file(*at)?.bytes() == bytes {
                count = count.saturating_add(1);
            }
        }
        Ok(count)
    }

    /// Returns whether each expected file exists once, and no other file.
    pub(crate) fn is_due(&self, disk: &Disk, due: &[Due]) -> io::Result<bool> {
        let mut files = 0usize;
        for due in due {
            let count = self.count(disk, due.file)?;
            if count < usize::from(due.must) || usize::from(due.may) < count {
                return Ok(false);
            }
            files = files.saturating_add(count);
        }
        Ok(files == self.files.len())
    }

    /// Returns the location of the next file.
    fn next_location(&self, kept: Kept) -> Location {
        let folder = self.last_folder;
        let mut last = 0u32;
        for (location, _) in &self.files {
            if location.folder == folder {
                last = last.max(location.file);
            }
        }
        let is_full = kept == Kept::Levels && (folder == 0 || last >= PER);
        if is_full {
            return Location {
                folder: folder.saturating_add(1),
                file: 1,
            };
        }
        Location {
            folder,
            file: last.saturating_add(1),
        }
    }

    /// Returns whether, in `now`, the file after the last one of `self` exists and has these bytes.
    pub(crate) fn is_next(
        &self,
        kept: Kept,
        disk: &Disk,
        now: &Filed,
        bytes: &[u8],
    ) -> io::Result<bool> {
        let next = self.next_location(kept);
        for (location, at) in &now.files {
            if *location == next {
                return Ok(disk.file(*at)?.bytes() == bytes);
            }
        }
        Ok(false)
    }
}
