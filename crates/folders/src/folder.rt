//! Opens the folder that received files go to.
use arguments::{FolderLayout, QuarantineOption};
use failures::{Failure, ProgramError};
use folder_filing::{FolderFiling, FolderWriter, QuarantineFound};
use part10::Filing;
use std::fs::File;
use std::io::{Error, ErrorKind};
use std::rt::Files;

/// Opens an existing folder in this layout, for several filings. With `sync`, a file is on the disk
/// before its C-STORE is answered.
///
/// Fails if the folder does not exist, cannot be opened, or is locked by another writer.
pub fn open_writer<R: Files<File = File> + Alloc + Clone + Drop>(
    rt: R,
    dir: &str,
    layout: FolderLayout,
    sync: bool,
) -> Result<FolderWriter<R>, ProgramError> {
    let opened = match layout {
        FolderLayout::Flat => FolderWriter::open(rt, dir),
        FolderLayout::Levels(per) => FolderWriter::open_levels(rt, dir, per.files),
    };
    match opened {
        Ok(writer) => Ok(if sync { writer } else { writer.without_sync() }),
        Err(error) => Err(ProgramError::of_folder(error)),
    }
}

/// Keeps the greatest numbers of the folder's files in the file at `path`, as
/// [`FolderWriter::with_numbers`] does. Does nothing without a path.
///
/// Fails if the file cannot be read or created, or has anything other than a line of numbers.
pub fn numbered<R: Files<File = File> + Alloc + Clone + Drop>(
    writer: FolderWriter<R>,
    path: Option<&str>,
) -> Result<FolderWriter<R>, ProgramError> {
    let Some(path) = path else {
        return Ok(writer);
    };
    match writer.with_numbers(path) {
        Ok(writer) => Ok(writer),
        Err(error) => Err(ProgramError::of(Failure::Numbers, error)),
    }
}

/// Moves the drafts of refused stores to a quarantine, as [`FolderWriter::with_quarantine`] does.
/// Returns what the quarantine has, or `None` without one. Creates it if it is missing.
///
/// Fails if it cannot be created or opened, or a file cannot be moved to it from the folder.
pub fn quarantined<R: Files<File = File> + Alloc + Clone + Drop>(
    writer: FolderWriter<R>,
    quarantine: Option<QuarantineOption<'_>>,
) -> Result<(FolderWriter<R>, Option<QuarantineFound>), ProgramError> {
    let Some(quarantine) = quarantine else {
        return Ok((writer, None));
    };
    match writer.with_quarantine(quarantine.dir, quarantine.most) {
        Ok((writer, found)) => Ok((writer, Some(found))),
        Err(error) => Err(ProgramError::of(Failure::Quarantine, error)),
    }
}

/// Opens an existing folder for a single filing, with the layout and `sync` of [`open_writer`].
pub fn open_folder<R: Files<File = File> + Alloc + Clone + Drop>(
    rt: R,
    dir: &str,
    layout: FolderLayout,
    sync: bool,
) -> Result<FolderFiling<R>, ProgramError> {
    let mut writer = open_writer(rt, dir, layout, sync)?;
    writer.filing().map_err(ProgramError::of_folder)
}

/// Creates a draft in the folder and drops it, so that a folder that cannot be written is reported
/// before anything is received.
///
/// Fails with the system's error if no draft can be created.
pub fn try_draft<R: Files<File = File> + Alloc + Clone + Drop>(
    filing: &mut FolderFiling<R>,
) -> Result<(), ProgramError> {
    if filing.begin().is_ok() {
        filing.discard();
        return Ok(());
    }
    let error = match filing.notes()?.error.take() {
        Some(error) => error,
        None => Error::from(ErrorKind::Other),
    };
    Err(ProgramError::System(Failure::UnwrittenFolder, error))
}
