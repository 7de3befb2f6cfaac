//! Compares a file with what is at its new path.
use failures::{Failure, ProgramError};
use keyed_files::{FoundFile, NodeId, have_the_same};
use std::fs::{self, Metadata};
use std::io::{self, ErrorKind};
use std::rt::Files;

/// What is at a path.
#[derive(Clone, Copy, PartialEq, Eq)]
pub(crate) enum Present {
    Nothing,
    /// The same file, or one with the same bytes.
    Same,
    Other,
}

/// Compares a file with what is at a path, whose metadata is `there`.
fn compared<R: Files>(
    rt: &R,
    file: FoundFile<'_>,
    path: &str,
    there: &Metadata,
) -> io::Result<Present> {
    let is_same = NodeId::of(there) == NodeId::of(file.metadata)
        || there.is_file()
            && there.len() == file.metadata.len()
            && have_the_same(rt, file.path, path)?;
    Ok(if is_same {
        Present::Same
    } else {
        Present::Other
    })
}

/// Returns what is at a path: nothing, the same file or bytes, or something else.
///
/// Fails if that cannot be read.
pub(crate) fn present_at<R: Files>(
    rt: &R,
    file: FoundFile<'_>,
    path: &str,
) -> Result<Present, ProgramError> {
    let present = match fs::symlink_metadata(rt, path) {
        Ok(there) => compared(rt, file, path, &there),
        Err(error) if error.kind() == ErrorKind::NotFound => return Ok(Present::Nothing),
        Err(error) => return Err(ProgramError::of(Failure::Tree, error)),
    };
    present.map_err(|error| ProgramError::of(Failure::Read, error))
}
