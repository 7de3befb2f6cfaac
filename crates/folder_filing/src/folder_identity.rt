//! Checks whether a path still leads to the same folder, or to the same file.

use std::fs::Metadata;
use std::io::Error;
use std::os::unix::fs::MetadataExt;
use std::rt::Files;
use std::{fs, io};

/// The device and inode numbers of a folder or a file. While it is open or has a name, no other has
/// the same numbers.
#[derive(Clone, Copy, PartialEq, Eq)]
pub struct FolderIdentity {
    device: u64,
    inode: u64,
}

/// A folder with files: the number in the path by which it was opened, 0 for the folder of a writer
/// itself, and its identity.
#[derive(Clone, Copy, PartialEq, Eq)]
pub struct NumberedFolder {
    pub(crate) number: u32,
    pub(crate) identity: FolderIdentity,
}

impl FolderIdentity {
    pub(crate) fn of(folder: &Metadata) -> FolderIdentity {
        FolderIdentity {
            device: folder.dev(),
            inode: folder.ino(),
        }
    }

    /// Returns the identity of the folder at a path. Fails if its metadata cannot be read.
    pub(crate) fn at<R: Files>(rt: &R, path: &str) -> io::Result<FolderIdentity> {
        Ok(FolderIdentity::of(&fs::metadata(rt, path)?))
    }

    /// Returns the identity of what has a name, which for a symbolic link is the link itself. Fails
    /// if its metadata cannot be read.
    pub(crate) fn of_entry<R: Files>(rt: &R, path: &str) -> io::Result<FolderIdentity> {
        Ok(FolderIdentity::of(&fs::symlink_metadata(rt, path)?))
    }

    /// Returns the error for a path that leads to another folder.
    pub(crate) fn replaced() -> Error {
        Error::other("the folder was replaced by another one")
    }

    /// Fails if the path leads to another folder than this one, or if its metadata cannot be read.
    pub(crate) fn check_at<R: Files>(self, rt: &R, path: &str) -> io::Result<()> {
        if FolderIdentity::at(rt, path)? == self {
            return Ok(());
        }
        Err(FolderIdentity::replaced())
    }
}
