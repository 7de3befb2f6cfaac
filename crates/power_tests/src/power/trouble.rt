//! What goes wrong with a disk.

use std::io::ErrorKind;

/// The kind of a call to the disk.
#[derive(Clone, Copy, PartialEq, Eq)]
pub(crate) enum Act {
    Open,
    Create,
    Lock,
    List,
    /// Reads the metadata of the disk's own folder.
    LookAtFolder,
    Look,
    Write,
    Sync,
    Link,
    Rename,
    Remove,
    MakeFolder,
    RemoveFolder,
}

impl Act {
    /// Returns whether this is a step of removing a draft: if the step fails, the draft remains
    /// until the next one is started.
    pub(crate) fn may_leave_draft(self) -> bool {
        matches!(self, Act::LookAtFolder | Act::Remove)
    }
}

/// What fails on a disk. Calls are counted from 0.
#[derive(Clone, Copy)]
pub(crate) struct Trouble {
    /// The first call without power, if power is lost.
    pub(crate) power_ends: Option<usize>,
    /// The call that fails, and its error, if one fails.
    pub(crate) failure: Option<(usize, ErrorKind)>,
    /// The most bytes that a write accepts.
    pub(crate) most: usize,
    /// Whether a file can have two names.
    pub(crate) has_links: bool,
}

impl Trouble {
    /// Nothing goes wrong.
    pub(crate) const NONE: Trouble = Trouble {
        power_ends: None,
        failure: None,
        most: usize::MAX,
        has_links: true,
    };
}
