//! The state of a filing's last commit, if commits are settled in groups.
ghost use Rattle.std.specs.Prelude.{◌≡◌};
ghost use Rattle.folder_filing.specs.Settling.{is_waiting};

use crate::location::Location;

/// The state of the last commit of a [`FolderFiling`](crate::FolderFiling).
#[derive(Clone, Copy)]
pub enum Pending {
    /// The commit is settled, or there was none.
    Settled,
    /// The file has no name yet, and its bytes may not be on the disk.
    Unnamed,
    /// The file has the name of this location, and its bytes are on the disk. The name may not be.
    Named(Location),
    /// The file is lost.
    Lost,
}

impl Pending {
    /// Returns whether the commit is not settled.
    pub(crate) fn is_waiting(self) -> bool
        ensures { result ≡ is_waiting self }
    {
        !matches!(self, Pending::Settled)
    }
}
