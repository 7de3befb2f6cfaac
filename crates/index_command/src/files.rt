//! Finds the files of a folder that a directory lists, and the DICOM files that it does not list
//! for their names.
ghost use Rattle.std.specs.Prelude.{◌≡◌};
ghost use Rattle.index_command.specs.Sorting.{fate};

use crate::kept::DIRECTORY;
use dicomdir::FileId;
use failures::{Failure, ProgramError};
use inspection::FileKind;
use keyed_files::{
    FolderWalk, Tally, WalkEntry, WalkOrder, has_vanished, is_draft, is_received_file,
    is_received_folder, kind_at, last_name,
};
use std::alloc::{AllocError, Allocator};
use std::rt::Files;

/// Which files below a folder are listed.
#[derive(Clone, Copy, PartialEq, Eq)]
pub(crate) enum ListedNames {
    /// Files named like received files: `I` and seven digits, in the folder itself and in folders
    /// named `S` and seven digits.
    Received,
    /// Each file whose path is a file ID, unless it is surely no DICOM file.
    Any,
}

/// What is done with a file that is no draft and no directory.
#[derive(Clone, Copy, PartialEq, Eq)]
pub(crate) enum Fate {
    /// It is listed if its path is a file ID; else a DICOM file counts as one of another name.
    Listed,
    /// It counts as a DICOM file of another name.
    OtherName,
    /// It counts as ignored.
    Ignored,
    /// Nothing.
    PassedOver,
}

/// The files below a folder.
#[derive(Drop)]
pub(crate) struct FoundFiles<A: Allocator> {
    alloc: A,
    names: ListedNames,
    /// Whether files that are no DICOM files are ignored.
    ignores_others: bool,
    /// The files that are listed.
    pub ids: Vec<FileId, A>,
    /// How many other DICOM files there are.
    pub others: usize,
    /// How many files are ignored, and how many links are not followed.
    pub tally: Tally,
}

/// Returns what is done with a file of this kind, which is unknown of a file that can't be opened.
fn fate_of(
    names: ListedNames,
    ignores_others: bool,
    is_received: bool,
    kind: Option<FileKind>,
) -> Fate
    ensures { result ≡ fate names ignores_others is_received kind }
{
    match (kind, names) {
        (Some(FileKind::Unclear | FileKind::Other), _) if ignores_others => Fate::Ignored,
        (Some(FileKind::Other), ListedNames::Any) => Fate::PassedOver,
        (_, ListedNames::Any) => Fate::Listed,
        (_, ListedNames::Received) if is_received => Fate::Listed,
        (Some(FileKind::Dicom), ListedNames::Received) => Fate::OtherName,
        (_, ListedNames::Received) => Fate::PassedOver,
    }
}

/// Returns the file ID that this path forms, if any.
fn file_id_of<A: Allocator>(alloc: A, path: &str) -> Result<Option<FileId>, AllocError> {
    let mut text = Vec::new(alloc);
    for byte in path.as_bytes() {
        text.push(if *byte == b'/' { b'\\' } else { *byte })?;
    }
    Ok(FileId::read(text.as_slice()))
}

impl<A: Allocator + Copy> FoundFiles<A> {
    /// Adds a file at this path below the folder, of this kind.
    fn add(
        &mut self,
        path: &str,
        is_received: bool,
        kind: Option<FileKind>,
    ) -> Result<(), AllocError> {
        match fate_of(self.names, self.ignores_others, is_received, kind) {
            Fate::Listed => match file_id_of(self.alloc, path)? {
                Some(id) => self.ids.push(id)?,
                None if kind == Some(FileKind::Dicom) => self.others = self
                    .others
                    .saturating_add(1),
                None => {}
            },
            Fate::OtherName => self.others = self.others.saturating_add(1),
            Fate::Ignored => self.tally.add_ignored(),
            Fate::PassedOver => {}
        }
        Ok(())
    }
}

/// Returns whether a path is that of a draft or a directory.
fn is_draft_or_directory(path: &str) -> bool {
    let name = last_name(path);
    is_draft(name) || name == DIRECTORY
}

/// Returns the error for a folder that can't be looked at or listed.
fn as_of_folder(error: ProgramError) -> ProgramError {
    match error {
        ProgramError::System(_, error) => ProgramError::of(Failure::ReadFolder, error),
        error => error,
    }
}

/// Visits an entry of the folder, whose path below the folder starts at offset `above` of its path.
/// An entry that is named like a received file need not be looked at, unless others are ignored.
fn visit<R: Files + Alloc>(
    rt: &R,
    entry: WalkEntry<R::A>,
    above: usize,
    found: &mut FoundFiles<R::A>,
) -> Result<(), ProgramError>
where
    R::A: Copy,
{
    let WalkEntry { path, found: there } = entry;
    let path = path.as_str();
    let below = path.get(above..).unwrap_or("");
    let is_received = found.names == ListedNames::Received && is_received_file(below);
    let is_file = there.as_ref().is_ok_and(|there| there.is_file());
    let is_link = there.as_ref().is_ok_and(|there| there.is_symlink());
    if is_file && !is_draft_or_directory(path) && !(is_received && !found.ignores_others) {
        found.add(below, is_received, kind_at(rt, path))?;
    } else if is_received {
        found.add(below, true, None)?;
    } else if is_link && !is_draft_or_directory(path) {
        found.tally.add_link();
    }
    if let Err(error) = there {
        let failure = error.failure();
        // Files that are only counted may be missed.
        let is_due = failure.is_none()
            || found.names == ListedNames::Received && is_received_folder(below)
            || found.names == ListedNames::Any
                && !matches!(failure, Some(Failure::Open | Failure::Name));
        if is_due && !has_vanished(rt, path, &error) {
            return Err(as_of_folder(error));
        }
    }
    Ok(())
}

/// Returns the files below a folder that are listed, in the order of their names, and how many
/// other DICOM files there are. Ignores names that are not UTF-8 and other files that can't be
/// looked at.
///
/// Fails if the folder, or a folder of received files that has not vanished, can't be listed, or if
/// memory runs out; with `ListedNames::Any`, also if another subfolder can't be listed and has not
/// vanished.
pub(crate) fn files_below<R: Files + Alloc>(
    rt: &R,
    dir: &str,
    names: ListedNames,
    (ignores_others, follows): (bool, bool),
) -> Result<FoundFiles<R::A>, ProgramError>
where
    R::A: Copy,
{
    let mut found = FoundFiles {
        alloc: rt.alloc(),
        names,
        ignores_others,
        ids: Vec::new(rt.alloc()),
        others: 0,
        tally: Tally::new(),
    };
    let dir = dir.trim_end_matches('/');
    let mut walk = FolderWalk::below(rt, dir, WalkOrder::Names)?;
    walk.follow(follows);
    for _ in 0..u64::MAX {
        match walk.next()? {
            Some(entry) => visit(rt, entry, dir.len().saturating_add(1), &mut found)?,
            None => break,
        }
    }
    Ok(found)
}
