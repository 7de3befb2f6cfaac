//! The files that a folder's present directory keeps.
use checkdir_command::PathText;
use dicomdir::{DirFault, FileId, Tree, check, kept_of, omitted};
use failures::{Failure, ProgramError, read_whole};
use inspection::Printable;
use std::alloc::{AllocError, Allocator};
use std::fs;
use std::io::{self, ErrorKind, Write};
use std::rt::Files;

/// The name of a folder's directory.
pub(crate) const DIRECTORY: &str = "DICOMDIR";

/// The files that a directory lists.
#[derive(Drop)]
pub(crate) struct IndexedFiles<A: Allocator> {
    pub ids: Vec<FileId, A>,
    /// How many files the present directory names and the new one leaves out.
    pub omitted: usize,
    /// How many DICOM files of the folder have names that are not listed.
    pub others: usize,
}

/// Returns the path of a file below a folder, from its file ID.
pub(crate) fn path_of<A: Allocator>(
    alloc: A,
    dir: &str,
    id: &FileId,
) -> Result<String<A>, AllocError> {
    let path = PathText(*id);
    format!(in alloc; "{dir}/{path}")
}

/// Returns the error for the directory of a folder: `failure`, or that there is a file instead of
/// the folder.
pub(crate) fn of_directory(failure: Failure, error: io::Error) -> ProgramError {
    match error.kind() {
        ErrorKind::NotADirectory => ProgramError::of(Failure::ReadFolder, error),
        _ => ProgramError::of(failure, error),
    }
}

/// Reads the folder's directory completely.
fn present_directory<R: Files + Alloc>(rt: &R, dir: &str) -> Result<Vec<u8, R::A>, ProgramError>
where
    R::A: Copy,
{
    let path = format!(in rt.alloc(); "{dir}/{DIRECTORY}")?;
    match fs::open(rt, path.as_str()) {
        Ok(mut file) => read_whole(rt.alloc(), &mut file, Failure::NoDirectory),
        Err(error) => Err(of_directory(Failure::NoDirectory, error)),
    }
}

/// Reports each record of a directory that names a file and is left out. Returns their number.
fn report_omitted<A: Allocator + Copy, E: Write>(
    dir: &str,
    tree: &Tree<'_, A>,
    err: &mut E,
) -> usize {
    let mut count: usize = 0;
    for record in tree.records() {
        if let Some(file_id) = omitted(record) {
            let (dir, path) = (Printable(dir.as_bytes()), PathText(file_id));
            let kind = Printable(record.kind());
            let _ = writeln!(
                err,
                "dcmbox: {dir}/{path}: left out: its record is of type {kind}, not IMAGE"
            );
            count = count.saturating_add(1);
        }
    }
    count
}

/// Returns the images that a directory keeps, or its fault. Reports the other records that name
/// files.
fn kept_in<A: Allocator + Copy, E: Write>(
    alloc: A,
    dir: &str,
    bytes: &[u8],
    err: &mut E,
) -> Result<IndexedFiles<A>, DirFault> {
    let tree = check(alloc, bytes)?;
    let ids = kept_of(alloc, &tree)?;
    let omitted = report_omitted(dir, &tree, err);
    Ok(IndexedFiles {
        ids,
        omitted,
        others: 0,
    })
}

/// Returns the images that the folder's directory keeps, or its fault. Reports each record that
/// names a file and is no IMAGE record.
pub(crate) fn kept_files<R: Files + Alloc, E: Write>(
    rt: &R,
    dir: &str,
    err: &mut E,
) -> Result<Result<IndexedFiles<R::A>, DirFault>, ProgramError>
where
    R::A: Copy,
{
    let bytes = present_directory(rt, dir)?;
    Ok(kept_in(rt.alloc(), dir, bytes.as_slice(), err))
}
