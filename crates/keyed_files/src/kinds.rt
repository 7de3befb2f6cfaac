//! Opens files, and distinguishes DICOM files from others and from vanished files.
use failures::ProgramError;
use inspection::{FileFront, FileKind, kind_of};
use std::fs;
use std::io::{self, Error, ErrorKind};
use std::rt::Files;

/// The reason why a path that is no regular file is skipped.
pub const NO_FILE: &str = "it is a pipe, a socket or a device, and no file";

/// Opens a file to read it. Fails with `InvalidInput` if the path is that of a pipe, a socket or a
/// device: opening that might block. A folder is opened; reading it fails.
pub fn open_file<R: Files>(rt: &R, path: &str) -> io::Result<R::File> {
    let found = fs::metadata(rt, path)?;
    if found.is_file() || found.is_dir() {
        fs::open(rt, path)
    } else {
        Err(Error::new(ErrorKind::InvalidInput, NO_FILE))
    }
}

/// Returns whether this error means that a file or folder has vanished: another program removed or
/// moved it.
pub fn has_vanished<R: Files>(rt: &R, path: &str, error: &ProgramError) -> bool {
    let ProgramError::System(failure, error) = error else {
        return false;
    };
    failure.is_of_input()
        && error.kind() == ErrorKind::NotFound
        && fs::symlink_metadata(rt, path).is_err_and(|error| error.kind() == ErrorKind::NotFound)
}

/// Returns what the file at a path seems to be by its first bytes, or `None` if it can't be opened.
pub fn kind_at<R: Files>(rt: &R, path: &str) -> Option<FileKind> {
    match open_file(rt, path) {
        Ok(mut file) => {
            let mut front = FileFront::new(&mut file);
            Some(kind_of(front.look_ahead()))
        }
        Err(_) => None,
    }
}
