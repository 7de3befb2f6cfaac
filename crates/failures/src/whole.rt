//! Reads a file whole.
use crate::error::ProgramError;
use crate::failure::Failure;
use std::alloc::Allocator;
use std::io::Read;

/// Reads the input to its end and returns its bytes.
///
/// Fails with `failure` if it cannot be read, or if memory runs out.
pub fn read_whole<A: Allocator, R: Read>(
    alloc: A,
    input: &mut R,
    failure: Failure,
) -> Result<Vec<u8, A>, ProgramError> {
    let mut bytes = Vec::new(alloc);
    match input.read_to_end(&mut bytes) {
        Ok(_) => Ok(bytes),
        Err(error) => Err(ProgramError::of(failure, error)),
    }
}
