//! The locations of files in a folder.
ghost use Rattle.std.specs.Prelude.{◌≡◌, ◌≤◌};
ghost use Rattle.folder_filing.specs.Locations.{next_location, order};

use crate::names::EntryKind;
use std::fmt;

/// The greatest number of seven digits.
pub(crate) const GREATEST: u32 = 9_999_999;

/// The layout of a folder of received files.
#[derive(Clone, Copy)]
pub enum Layout {
    /// All files are in the folder itself.
    Flat,
    /// The files are in subfolders of `per` files each.
    Levels { per: u32 },
}

/// The location of a file in a folder of received files: the numbers in its path. Locations are
/// ordered by folder, then by file.
#[derive(Clone, Copy)]
pub struct Location {
    /// The number of the file's subfolder; 0 in a layout without subfolders.
    pub folder: u32,
    /// The number of the file.
    pub file: u32,
}

impl Location {
    /// Returns the later of two locations.
    pub(crate) fn later(self, other: Location) -> Location
        ensures own { order self ≤ order result }
        ensures other { order other ≤ order result }
    {
        if self.folder > other.folder || self.folder == other.folder && self.file > other.file {
            self
        } else {
            other
        }
    }

    /// Returns the location after this one in the layout, or `None` if all numbers are in use. The
    /// last file of a subfolder is followed by the first of the next subfolder.
    pub(crate) fn next(self, layout: Layout) -> Option<Location>
        ensures { result ≡ next_location layout self }
    {
        let Location { folder, file } = self;
        let most = match layout {
            Layout::Flat => GREATEST,
            Layout::Levels { per } => per,
        };
        if file < most {
            return Some(Location {
                folder,
                file: file + 1,
            });
        }
        if matches!(layout, Layout::Flat) || folder >= GREATEST {
            return None;
        }
        Some(Location {
            folder: folder + 1,
            file: 1,
        })
    }
}

/// Prints the path of the file in the folder, as `I0000001` or `S0000001/I0000001`.
impl fmt::Display for Location {
    fn fmt<W: fmt::Write>(&self, f: &mut fmt::Formatter<W>) -> fmt::Result {
        let Location { folder, file } = *self;
        let file = EntryKind::File.name(file);
        if folder == 0 {
            return write!(f, "{file}");
        }
        let folder = EntryKind::Folder.name(folder);
        write!(f, "{folder}/{file}")
    }
}
