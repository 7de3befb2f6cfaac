//! Names committed files.
ghost use Rattle.folder_filing.specs.machine.Naming.{NameLeaves};

use crate::drafts::DraftPath;
use crate::folder_calls::FolderCalls;
use crate::folder_identity::FolderIdentity;
use crate::location::{Layout, Location};
use crate::named_file::NamedFile;
use std::io::{Error, ErrorKind};
use std::rt::Files;
use std::{fs, io};

/// The number of the system error `EPERM`, with which Linux refuses hard links on vfat and exFAT.
const NOT_PERMITTED: i32 = 1;

/// How a file got its new name.
#[derive(Clone, Copy, PartialEq, Eq)]
pub(crate) enum Named {
    /// By a hard link: the file also keeps its old name.
    Linked,
    /// By a rename: the file has only the new name.
    Renamed,
}

/// Why a file did not get a name, if another name or another attempt can succeed.
#[derive(Clone, Copy, PartialEq, Eq)]
pub(crate) enum Obstacle {
    /// The name is in use.
    InUse,
    /// The subfolder in the path does not exist, or was moved away while the file was named.
    Missing,
    /// The subfolder in the path is no directory.
    Blocked,
    /// The file system has no hard links.
    NoLinks,
}

/// The outcome of an attempt to name a file.
#[derive(Clone, Copy)]
pub(crate) enum Attempt {
    Named(NamedFile),
    Met(Obstacle),
}

/// The name that a file is to get: its location, and the path of that location.
#[derive(Clone, Copy)]
pub(crate) struct Target<'a> {
    pub(crate) location: Location,
    pub(crate) path: &'a str,
    pub(crate) layout: Layout,
    /// Whether the file and its name are synced to the disk.
    pub(crate) has_sync: bool,
    /// The subfolder in the path, or `None` if there is none.
    pub(crate) folder: Option<FolderIdentity>,
    /// Whether a missing subfolder is an obstacle, which leads to another attempt, rather than an
    /// error.
    pub(crate) may_miss: bool,
}

/// Returns whether an error of `hard_link` means that the file system has no hard links: `EPERM`,
/// `EOPNOTSUPP` or `ENOSYS`. `EPERM` is compared by its number, since its `ErrorKind` is also that
/// of `EACCES`, which does not mean that.
pub(crate) fn is_without_links(error: &Error) -> bool {
    error.kind() == ErrorKind::Unsupported || error.raw_os_error() == Some(NOT_PERMITTED)
}

/// Returns the obstacle that an error means, or `None` if another name or attempt would not help.
pub(crate) fn obstacle_of(error: &Error, target: Target<'_>) -> Option<Obstacle> {
    let in_levels = matches!(target.layout, Layout::Levels { .. });
    match error.kind() {
        ErrorKind::AlreadyExists => Some(Obstacle::InUse),
        ErrorKind::NotFound if in_levels && target.may_miss => Some(Obstacle::Missing),
        ErrorKind::NotADirectory if in_levels => Some(Obstacle::Blocked),
        _ => None,
    }
}

/// Fails with `AlreadyExists` if something exists at this path, and with the system's error if that
/// cannot be checked.
pub(crate) fn check_free<R: Files>(rt: &R, path: &str) -> io::Result<()> {
    match fs::symlink_metadata(rt, path) {
        Ok(_) => Err(Error::from(ErrorKind::AlreadyExists)),
        Err(error) if error.kind() == ErrorKind::NotFound => Ok(()),
        Err(error) => Err(error),
    }
}

/// Gives the file of a draft the target name by a hard link or, on a file system without hard
/// links, by a rename after a check that the name is free, which overwrites nothing while the
/// folder has no other writer.
///
/// After an error or an obstacle the file has only its old name.
pub(crate) fn name_file<R: Files + Alloc>(
    rt: &R,
    draft: &DraftPath<R::A>,
    target: Target<'_>,
    calls: &mut FolderCalls,
) -> io::Result<Attempt>
    ensures remaining { NameLeaves target.entry.has_sync draft.now target.entry.location result calls.old calls.new }
{
    match calls.link(rt, draft, target)? {
        None => {
            let file = NamedFile::newest(target, Named::Linked, calls);
            return Ok(Attempt::Named(file));
        }
        Some(Obstacle::NoLinks) => {}
        Some(obstacle) => return Ok(Attempt::Met(obstacle)),
    }
    if let Some(obstacle) = calls.look(rt, target)? {
        return Ok(Attempt::Met(obstacle));
    }
    match calls.rename(rt, draft, target)? {
        None => Ok(Attempt::Named(NamedFile::newest(target, Named::Renamed, calls))),
        Some(obstacle) => Ok(Attempt::Met(obstacle)),
    }
}
