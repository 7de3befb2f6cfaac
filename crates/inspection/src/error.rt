//! Errors that end an inspection early.
use std::io;

/// Why a file was not inspected up to its end or its first fault.
#[derive(Debug, Drop)]
pub enum InspectionError {
    /// The file can't be read.
    Read(io::Error),
    /// The output can't be written.
    Write(io::Error),
}
