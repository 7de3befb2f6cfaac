//! The errors of the command line.
use std::alloc::{AllocError, Global};
use std::fmt::Display;
use thiserror::Error;

/// Why the command line has no command to run.
#[derive(Debug, Drop, Error)]
pub enum WordsError {
    /// The command line asks for help or the version, which this text is.
    #[error("{0}")]
    Shown(String),
    /// The arguments are invalid, as this text says.
    #[error("{0}")]
    Refused(String),
    #[error("out of memory")]
    Memory(#[from(alloc)] AllocError),
}

impl WordsError {
    /// Returns the refusal of invalid arguments, for this reason, or `Memory` if memory runs out.
    pub fn refused<D: Display + Drop>(alloc: Global, reason: D) -> WordsError {
        match format!(in alloc; "error: {reason}\n") {
            Ok(text) => WordsError::Refused(text),
            Err(error) => WordsError::Memory(error),
        }
    }
}
