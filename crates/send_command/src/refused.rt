//! Checks the folder of the files that an archive refuses for good.
use crate::listing::is_taken;
use arguments::Send;
use failures::{Failure, ProgramError};
use std::fs;
use std::io::{self, Error, ErrorKind};
use std::os::unix::fs::MetadataExt;
use std::rt::Files;

/// Fails if a file in this folder would be sent from the folder of the settings, in which it is at
/// this path.
fn check_untaken<R: Files + Alloc>(rt: &R, below: &str, any_name: bool) -> io::Result<()> {
    let name = "I0000001";
    let file = if below.is_empty() {
        String::from_str(rt.alloc(), name)?
    } else {
        format!(in rt.alloc(); "{below}/{name}")?
    };
    if is_taken(file.as_str(), any_name) {
        return Err(Error::new(ErrorKind::InvalidInput, "the files in it would be sent"));
    }
    Ok(())
}

/// Fails if files cannot be moved from `dir` to `refused`, as far as that is known before one is.
fn check_folders<R: Files + Alloc>(
    rt: &R,
    dir: &str,
    refused: &str,
    any_name: bool,
) -> io::Result<()> {
    let found = fs::metadata(rt, refused)?;
    if !found.is_dir() {
        return Err(Error::from(ErrorKind::NotADirectory));
    }
    if fs::metadata(rt, dir)?.dev() != found.dev() {
        return Err(Error::new(
            ErrorKind::CrossesDevices,
            "it is on another file system than the files",
        ));
    }
    let (from, to) = (fs::canonicalize(rt, dir)?, fs::canonicalize(rt, refused)?);
    match to.as_path().strip_prefix(from.as_path()) {
        Ok(below) => check_untaken(rt, below.as_str(), any_name),
        Err(_) => Ok(()),
    }
}

/// Fails with `Refused` if files that are refused for good cannot be moved to this folder: it is
/// missing, on another file system, or one whose files are sent.
pub(crate) fn check_refused<R: Files + Alloc>(
    rt: &R,
    settings: &Send<'_>,
    refused: &str,
) -> Result<(), ProgramError> {
    check_folders(rt, settings.dir, refused, settings.any_name).map_err(|error| ProgramError::of(
        Failure::Refused,
        error,
    ))
}
