//! Files that were just named.
ghost use Rattle.std.specs.Prelude.{◌≡◌};
ghost use Rattle.folder_filing.specs.Naming.{IsNewest, standing};
ghost use Rattle.folder_filing.specs.Synced.{is_moved};

use crate::folder_calls::FolderCalls;
use crate::folder_identity::FolderIdentity;
use crate::location::Location;
use crate::naming::{Named, Target};

/// A file that the system has just named: only [`NamedFile::newest`] makes one.
#[derive(Clone, Copy)]
pub(crate) struct NamedFile {
    location: Location,
    how: Named,
    /// The subfolder that had this number right before the file was named.
    folder: Option<FolderIdentity>,
}

impl NamedFile {
    /// Returns the file that was named last, with the name of this target.
    pub(crate) fn newest(target: Target<'_>, how: Named, _calls: &FolderCalls) -> NamedFile
        requires { ∥ IsNewest target.location (standing _calls.now) ∥₁ }
        ensures location { result.location ≡ target.entry.location }
        ensures how { result.how ≡ how }
    {
        NamedFile {
            location: target.location,
            how,
            folder: target.folder,
        }
    }

    pub(crate) fn location(self) -> Location
        ensures { result ≡ self.location }
    {
        self.location
    }

    pub(crate) fn how(self) -> Named
        ensures { result ≡ self.how }
    {
        self.how
    }

    pub(crate) fn folder(self) -> Option<FolderIdentity>
        ensures { result ≡ self.folder }
    {
        self.folder
    }

    /// Returns whether the draft of the file was renamed from another folder.
    pub(crate) fn has_remaining(self) -> bool
        ensures { result ≡ is_moved self }
    {
        self.location.folder != 0 && self.how == Named::Renamed
    }
}
