//! The system calls that contracts can name.

use crate::folder_identity::{FolderIdentity, NumberedFolder};
use crate::location::Location;

/// A recorded system call of a [`FolderFiling`](crate::FolderFiling): each that created, named or
/// removed a file, each check that found a name free, each sync of a draft or of names, and each
/// call that failed; between them each reported commit.
#[derive(Clone, Copy)]
pub enum Call {
    /// The file of the draft with this number was created, under a name that was free. It is the
    /// file with this identity.
    Created {
        draft: u32,
        file: FolderIdentity,
    },
    /// The file of the draft was synced, with all bytes that were written to it.
    Written,
    /// The file of the draft with this number got the name of this location besides its own, by a
    /// hard link, which fails if the name is in use.
    Linked {
        draft: u32,
        location: Location,
    },
    /// The name of this location was checked and is free.
    SeenFree(Location),
    /// The file of the draft with this number was renamed to the name of this location, which
    /// replaces a file that has the name.
    Renamed {
        draft: u32,
        location: Location,
    },
    /// The name of this location was removed from the file with this identity; with `None` it was
    /// gone with its folder.
    Removed {
        location: Location,
        file: Option<FolderIdentity>,
    },
    /// The file at this location, the last one named, is in the subfolder with this identity: the
    /// subfolder's number led to it right before and right after the file was named. Its own entry
    /// is on the disk: the folder was synced after the subfolder was found there.
    Entered {
        location: Location,
        folder: FolderIdentity,
    },
    /// This folder was synced.
    Synced(NumberedFolder),
    /// The commit of the file at this location was reported as a success.
    Reported(Location),
    /// A system call failed, or memory ran out.
    Refused,
    /// The path of the folder led to another folder than the locked one.
    Replaced,
}
