//! Flushes an output when the program ends.
use crate::error::ProgramError;
use std::io::Write;

/// Flushes the output, even after an error, and returns `outcome`.
///
/// Fails with the error of `outcome`, or else if the output cannot be written.
pub fn flushed<T: Drop, O: Write>(
    outcome: Result<T, ProgramError>,
    out: &mut O,
) -> Result<T, ProgramError> {
    match (outcome, out.flush()) {
        (Ok(outcome), Ok(())) => Ok(outcome),
        (Ok(_), Err(error)) => Err(ProgramError::of_output(error)),
        (Err(error), _) => Err(error),
    }
}
