//! The files that were named since the last sync of names.

use crate::entered_file::EnteredFile;
use crate::open_folder::OpenFolder;
use std::alloc::Allocator;
use std::cell::Cell;
use std::io;

/// A folder in which files have names that are not synced, and these files.
#[derive(Drop)]
pub(crate) struct NamedFolder<F: Drop, A: Allocator> {
    /// The open subfolder, or `None` for the locked folder.
    pub(crate) open: Option<OpenFolder<F>>,
    pub(crate) files: Vec<EnteredFile, A>,
}

/// The folders of a group.
pub(crate) type NamedFolders<F, A> = Vec<NamedFolder<F, A>, A>;

/// A group of commits: the files that were named since the last sync of names.
#[derive(Drop)]
pub(crate) struct Group<F: Drop, A: Allocator> {
    /// Whether commits are settled in groups.
    pub(crate) is_used: Cell<bool>,
    folders: Cell<NamedFolders<F, A>>,
}

impl<F: Drop, A: Allocator> NamedFolder<F, A> {
    /// Returns the folder in which a file was named, with that file. `open` is the subfolder, or
    /// `None` for the locked folder.
    pub(crate) fn of(
        alloc: A,
        open: Option<OpenFolder<F>>,
        file: EnteredFile,
    ) -> io::Result<NamedFolder<F, A>> {
        let mut files = Vec::new(alloc);
        files.push(file)?;
        Ok(NamedFolder { open, files })
    }

    /// Returns whether both are the same folder.
    fn is(&self, other: &NamedFolder<F, A>) -> bool {
        match (&self.open, &other.open) {
            (None, None) => true,
            (Some(folder), Some(other)) => folder.is(other),
            _ => false,
        }
    }

    fn add(&mut self, files: &[EnteredFile]) -> io::Result<()> {
        Ok(self.files.extend_from_slice(files)?)
    }
}

/// Appends a folder to the list, or its files to that of the same folder.
fn add<F: Drop, A: Allocator>(
    folders: &mut NamedFolders<F, A>,
    named: NamedFolder<F, A>,
) -> io::Result<()> {
    for index in 0..folders.len() {
        if let Some(folder) = folders.get_mut(index) {
            if folder.is(&named) {
                return folder.add(named.files.as_slice());
            }
        }
    }
    Ok(folders.push(named)?)
}

impl<F: Drop, A: Allocator> Group<F, A> {
    /// Creates an empty group, which is not in use.
    pub(crate) fn new(alloc: A) -> Group<F, A> {
        Group {
            is_used: Cell::new(false),
            folders: Cell::new(Vec::new(alloc)),
        }
    }

    /// Records a folder with a name that is not synced. Fails if memory runs out.
    pub(crate) fn add(&self, alloc: A, named: NamedFolder<F, A>) -> io::Result<()> {
        let mut folders = self.folders.replace(Vec::new(alloc));
        let added = add(&mut folders, named);
        self.folders.set(folders);
        added
    }

    /// Ends the group. Returns the folders that must be synced.
    pub(crate) fn end(&self, alloc: A) -> NamedFolders<F, A> {
        self.folders.replace(Vec::new(alloc))
    }
}
