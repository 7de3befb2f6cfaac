//! The stop file, whose appearance stops a server.
use std::io::ErrorKind;
use std::rt::Files;
use std::{fs, io};

/// Removes the stop file that an earlier stop may have left. Fails if it is there and cannot be
/// removed.
pub(crate) fn clear<R: Files>(rt: &R, path: Option<&str>) -> io::Result<()> {
    let Some(path) = path else {
        return Ok(());
    };
    match fs::remove_file(rt, path) {
        Err(error) if error.kind() == ErrorKind::NotFound => Ok(()),
        result => result,
    }
}

/// Returns whether the stop file is there.
pub(crate) fn is_asked<R: Files>(rt: &R, path: Option<&str>) -> bool {
    match path {
        Some(path) => matches!(fs::exists(rt, path), Ok(true)),
        None => false,
    }
}
