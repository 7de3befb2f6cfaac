//! The paths that a dry run would give to files.
use indexmap::IndexMap;
use std::alloc::{AllocError, Allocator};
use std::hash::{BuildHasherDefault, FoldHasher};

/// The paths that a dry run gave so far, with their files.
#[derive(Drop)]
pub(crate) struct PlannedPaths<A: Allocator> {
    files: IndexMap<Vec<u8, A>, String<A>, BuildHasherDefault<FoldHasher>, A>,
}

impl<A: Allocator + Copy> PlannedPaths<A> {
    /// Returns a list without paths.
    pub(crate) fn new(alloc: A) -> PlannedPaths<A> {
        PlannedPaths {
            files: IndexMap::new(alloc),
        }
    }

    /// Returns the file that has this path, or `None`.
    pub(crate) fn file_at(&self, path: &str) -> Option<&str> {
        match self.files.get(path.as_bytes()) {
            Some(file) => Some(file.as_str()),
            None => None,
        }
    }

    /// Gives a path to a file.
    pub(crate) fn give(&mut self, alloc: A, path: &str, file: &str) -> Result<(), AllocError> {
        let path = Vec::from_slice(alloc, path.as_bytes())?;
        self.files.insert(path, String::from_str(alloc, file)?)?;
        Ok(())
    }
}
