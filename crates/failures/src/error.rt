//! The error type of the program.
use crate::failure::Failure;
use crate::words_error::WordsError;
use std::alloc::AllocError;
use std::io::ErrorKind;
use std::{fmt, io};
use thiserror::Error;

/// The number of the system error `EBADF`, for a write to a closed file descriptor.
const BAD_DESCRIPTOR: i32 = 9;

/// An error that ends the program early. Its text says what failed and what to do about it. The
/// program prints the text and exits with status 3, except for help, the version and invalid
/// arguments. It is not printed if the output is closed.
#[derive(Drop, Error)]
pub enum ProgramError {
    #[error("{what}: {1}; {advice}", what = .0.what(), advice = .0.advice())]
    System(Failure, io::Error),
    #[error("{0}")]
    Words(#[from] WordsError),
    #[error("a file or a folder can't be read, as is told above")]
    Unread,
    #[error("the folder's DICOMDIR was written by another program, and stays as it is; take the images that it names with --keep, or write over it with --replace")]
    OtherDirectory,
    #[error("out of memory for what is sent; replay a shorter recording")]
    Wire,
    #[error("out of memory; give the program more")]
    Memory(#[from(alloc)] AllocError),
}

impl fmt::Debug for ProgramError {
    /// Prints the text of the error, as `Display` does.
    fn fmt<W: fmt::Write>(&self, f: &mut fmt::Formatter<W>) -> fmt::Result {
        fmt::Display::fmt(self, f)
    }
}

impl ProgramError {
    /// Returns the error for a failed system call: `Memory` if memory ran out; a file that is read
    /// may be a folder.
    pub fn of(failure: Failure, error: io::Error) -> ProgramError {
        match (failure, error.kind()) {
            (_, ErrorKind::OutOfMemory) => ProgramError::Memory(AllocError),
            (Failure::Read, ErrorKind::IsADirectory) => ProgramError::System(
                Failure::IsFolder,
                error,
            ),
            _ => ProgramError::System(failure, error),
        }
    }

    /// Returns the error for an output that cannot be written: `Memory` if memory ran out.
    pub fn of_output(error: io::Error) -> ProgramError {
        ProgramError::of(Failure::Write, error)
    }

    /// Returns the error for a folder that files go to and that could not be opened or listed: it is
    /// missing, locked by another program, or unusable for another reason; `Memory` if memory ran
    /// out.
    pub fn of_folder(error: io::Error) -> ProgramError {
        let failure = match error.kind() {
            ErrorKind::NotFound => Failure::MissingFolder,
            ErrorKind::WouldBlock => Failure::BusyFolder,
            _ => Failure::Folder,
        };
        ProgramError::of(failure, error)
    }

    /// Returns the error for an address and port that could not be listened on: the machine does
    /// not have the address, the text is no IP address, the port needs more rights, or another
    /// reason.
    pub fn of_listening(error: io::Error) -> ProgramError {
        let failure = match error.kind() {
            ErrorKind::AddrNotAvailable | ErrorKind::Unsupported => Failure::Address,
            ErrorKind::PermissionDenied => Failure::KeptPort,
            _ => Failure::Listen,
        };
        ProgramError::System(failure, error)
    }

    /// Returns whether the error is that the standard output is closed, by its reader or from the
    /// start, so that its text need not be printed.
    pub fn is_of_closed_output(&self) -> bool {
        match self {
            ProgramError::System(Failure::Write, error) => {
                error.kind() == ErrorKind::BrokenPipe
                    || error.raw_os_error() == Some(BAD_DESCRIPTOR)
            }
            _ => false,
        }
    }

    /// Returns which operation failed, if the error is that of a system call.
    pub fn failure(&self) -> Option<Failure> {
        match self {
            ProgramError::System(failure, _) => Some(*failure),
            _ => None,
        }
    }
}
