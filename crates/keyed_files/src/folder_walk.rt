//! Walks over what is below a folder.
use crate::folder_names::{NameListing, NamedPath};
use crate::node_id::NodeId;
use failures::{Failure, ProgramError};
use indexmap::IndexMap;
use std::alloc::{AllocError, Allocator};
use std::fs::{self, Metadata};
use std::hash::{BuildHasherDefault, FoldHasher};
use std::io::{Error, ErrorKind};
use std::rt::Files;

/// The order of a walk.
#[derive(Clone, Copy, PartialEq, Eq)]
pub enum WalkOrder {
    /// In the order of names, with what is in a folder after the folder. Names that are not UTF-8
    /// precede the others of their folder. Memory grows with the entries of the entered folders.
    Names,
    /// In the order in which the system lists names, with what is in a folder after the others.
    /// Memory grows with the folders that are still to be listed.
    System,
}

/// What is at a path below a folder.
#[derive(Drop)]
pub struct WalkEntry<A: Allocator> {
    /// The path; if its name is not UTF-8, with `?` for each byte of the name that is not ASCII.
    pub path: String<A>,
    /// The metadata, or why there is none, or why a folder can't be listed to its end.
    pub found: Result<Metadata, ProgramError>,
}

/// Returns the last name of a path.
pub fn last_name(path: &str) -> &str {
    match path.rsplit_once('/') {
        Some((_, name)) => name,
        None => path,
    }
}

/// Files and folders.
type Nodes<A> = IndexMap<NodeId, (), BuildHasherDefault<FoldHasher>, A>;

/// Walks over what is below a folder. If symbolic links are followed, each file and each folder is
/// visited once.
#[derive(Drop)]
pub struct FolderWalk<'a, R: Files + Alloc> {
    rt: &'a R,
    order: WalkOrder,
    /// The folder that is not entered, if any.
    spared: Option<NodeId>,
    /// What was visited so far, if links are followed. Memory then grows with it.
    visited: Option<Nodes<R::A>>,
    /// The folder that is listed, in the system's order.
    dir: String<R::A>,
    listing: Option<NameListing<R::Dir, R::A>>,
    /// The paths still to be looked at or, in the system's order, to be listed; the next is the
    /// last.
    pending: Vec<NamedPath<R::A>, R::A>,
}

impl<'a, R: Files + Alloc> FolderWalk<'a, R>
where
    R::A: Copy,
{
    /// Starts a walk below a folder.
    ///
    /// Fails if the folder can't be opened or, in the order of names, listed; or if memory runs out.
    pub fn below(
        rt: &'a R,
        dir: &str,
        order: WalkOrder,
    ) -> Result<FolderWalk<'a, R>, ProgramError> {
        let mut walk = FolderWalk {
            rt,
            order,
            spared: None,
            visited: None,
            dir: String::from_str(rt.alloc(), dir)?,
            listing: None,
            pending: Vec::new(rt.alloc()),
        };
        walk.enter(dir)?;
        Ok(walk)
    }

    /// Does not enter this folder, by whatever path it is found.
    pub fn spare(&mut self, folder: Option<NodeId>) {
        self.spared = folder;
    }

    /// Follows symbolic links, or not.
    pub fn follow(&mut self, follows: bool) {
        self.visited = if follows {
            Some(IndexMap::new(self.rt.alloc()))
        } else {
            None
        };
    }

    /// Returns what is at a path, also through a link if links are followed, and whether it was
    /// visited before.
    fn found_at(&mut self, path: &str) -> Result<(Metadata, bool), ProgramError> {
        let looked = match self.visited {
            Some(_) => fs::metadata(self.rt, path),
            None => fs::symlink_metadata(self.rt, path),
        };
        let found = match looked {
            Ok(found) => found,
            Err(error) => return Err(ProgramError::of(Failure::Open, error)),
        };
        let Some(visited) = &mut self.visited else {
            return Ok((found, false));
        };
        let node = NodeId::of(&found);
        if visited.get_index_of(&node).is_some() {
            return Ok((found, true));
        }
        visited.insert(node, ())?;
        Ok((found, false))
    }

    /// Opens a folder; in the order of names, also reads its names.
    fn enter(&mut self, dir: &str) -> Result<(), ProgramError> {
        let mut listing = match NameListing::open(self.rt, dir) {
            Ok(listing) => listing,
            Err(error) => return Err(ProgramError::of(Failure::ReadFolder, error)),
        };
        if self.order == WalkOrder::System {
            self.listing = Some(listing);
            return Ok(());
        }
        let mut paths = Vec::new(self.rt.alloc());
        for _ in 0..u64::MAX {
            match listing.next()? {
                Some(path) => paths.push(path)?,
                None => break,
            }
        }
        paths.sort()?;
        for _ in 0..paths.len() {
            if let Some(path) = paths.pop() {
                self.pending.push(path)?;
            }
        }
        Ok(())
    }

    /// Returns what is at a path, or `None` if it was visited before. A folder that is not spared is
    /// entered or, in the system's order, added to those still to be listed.
    fn look(&mut self, is_text: bool, path: &str) -> Result<Option<Metadata>, ProgramError> {
        if !is_text {
            let error = Error::from(ErrorKind::InvalidFilename);
            return Err(ProgramError::System(Failure::Name, error));
        }
        let (found, is_repeated) = self.found_at(path)?;
        if is_repeated {
            return Ok(None);
        }
        if found.is_dir() && self.spared != Some(NodeId::of(&found)) {
            match self.order {
                WalkOrder::Names => self.enter(path)?,
                WalkOrder::System => {
                    let path = String::from_str(self.rt.alloc(), path)?;
                    self.pending.push((true, path))?;
                }
            }
        }
        Ok(Some(found))
    }

    /// Returns the next name of the folder that is listed, or `None` after the last.
    fn listed(&mut self) -> Result<Option<NamedPath<R::A>>, ProgramError> {
        match &mut self.listing {
            Some(listing) => listing.next(),
            None => Ok(None),
        }
    }

    /// Returns what is at the next path in the system's order, or `None` at the end.
    fn next_of_system(&mut self) -> Result<Option<WalkEntry<R::A>>, AllocError> {
        for _ in 0..u64::MAX {
            match self.listed() {
                Ok(Some((is_text, path))) => {
                    if let Some(found) = self.look(is_text, path.as_str()).transpose() {
                        return Ok(Some(WalkEntry { path, found }));
                    }
                    continue;
                }
                Ok(None) => {}
                Err(error) => {
                    let path = String::from_str(self.rt.alloc(), self.dir.as_str())?;
                    let found = Err(error);
                    self.listing = None;
                    return Ok(Some(WalkEntry { path, found }));
                }
            }
            let Some((_, path)) = self.pending.pop() else {
                break;
            };
            self.listing = None;
            if let Err(error) = self.enter(path.as_str()) {
                let found = Err(error);
                return Ok(Some(WalkEntry { path, found }));
            }
            self.dir = path;
        }
        Ok(None)
    }

    /// Returns what is at the next path, or `None` at the end. Fails if memory runs out.
    pub fn next(&mut self) -> Result<Option<WalkEntry<R::A>>, AllocError> {
        if self.order == WalkOrder::System {
            return self.next_of_system();
        }
        for _ in 0..u64::MAX {
            let Some((is_text, path)) = self.pending.pop() else {
                break;
            };
            if let Some(found) = self.look(is_text, path.as_str()).transpose() {
                return Ok(Some(WalkEntry { path, found }));
            }
        }
        Ok(None)
    }
}
