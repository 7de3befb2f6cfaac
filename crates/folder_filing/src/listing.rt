//! Lists a folder of received files, to continue its numbering.

use crate::drafts::{DraftPath, is_further_draft};
use crate::location::{Layout, Location};
use crate::names::EntryKind;
use std::alloc::{AllocError, Allocator};
use std::io::ErrorKind;
use std::rt::Files;
use std::{fs, io};

/// Returns the greatest number in names of this kind in a folder, if there is one, and the drafts of
/// all filings but the first: `DRAFT2` and so on. Ignores other names.
///
/// Fails if the folder cannot be listed to its end, or memory runs out.
fn entries_of<R: Files + Alloc + Clone + Drop>(
    rt: &R,
    dir: &str,
    kind: EntryKind,
) -> io::Result<(Option<u32>, Vec<DraftPath<R::A>, R::A>)> {
    let mut highest = None;
    let mut drafts = Vec::new(rt.alloc());
    for entry in fs::read_dir(rt, dir)? {
        match entry {
            Ok(entry) => {
                highest = highest.max(kind.number_of(&entry)?);
                if is_further_draft(entry.file_name()) {
                    drafts.push(DraftPath::found(rt.alloc(), dir, entry.file_name())?)?;
                }
            }
            // A name that is not UTF-8 is neither a number nor a draft.
            Err(error) if error.kind() == ErrorKind::InvalidFilename => {}
            Err(error) => return Err(error),
        }
    }
    Ok((highest, drafts))
}

/// Returns the path of the subfolder with this number.
pub(crate) fn folder_path<A: Allocator>(
    alloc: A,
    dir: &str,
    folder: u32,
) -> Result<String<A>, AllocError> {
    let name = EntryKind::Folder.name(folder);
    format!(in alloc; "{dir}/{name}")
}

/// What a folder of received files has, as far as its writer needs it.
#[derive(Drop)]
pub(crate) struct FolderContents<A: Allocator> {
    /// The location of the last file; its file number is 0 if there is none.
    pub(crate) last: Location,
    /// The drafts of a killed writer, except that of its first filing.
    pub(crate) drafts: Vec<DraftPath<A>, A>,
}

/// Returns the location of the last file of a folder with subfolders of `per` files. `highest` is
/// the greatest number of a subfolder.
fn last_in_levels<R: Files + Alloc + Clone + Drop>(
    rt: &R,
    dir: &str,
    per: u32,
    highest: Option<u32>,
) -> io::Result<Location> {
    // Without a subfolder, a subfolder 0 counts as full: the next file opens subfolder 1.
    let Some(folder) = highest else {
        return Ok(Location {
            folder: 0,
            file: per,
        });
    };
    let path = folder_path(rt.alloc(), dir, folder)?;
    let (file, _drafts) = entries_of(rt, path.as_str(), EntryKind::File)?;
    Ok(Location {
        folder,
        file: file.unwrap_or(0),
    })
}

/// Lists a folder of received files. Fails if it, or its last subfolder, cannot be listed.
pub(crate) fn contents_of<R: Files + Alloc + Clone + Drop>(
    rt: &R,
    dir: &str,
    layout: Layout,
) -> io::Result<FolderContents<R::A>> {
    let kind = match layout {
        Layout::Flat => EntryKind::File,
        Layout::Levels { .. } => EntryKind::Folder,
    };
    let (highest, drafts) = entries_of(rt, dir, kind)?;
    let last = match layout {
        Layout::Flat => Location {
            folder: 0,
            file: highest.unwrap_or(0),
        },
        Layout::Levels { per } => last_in_levels(rt, dir, per, highest)?,
    };
    Ok(FolderContents { last, drafts })
}
