//! The errors that end the program early, with what failed and what to do about it.
#![tactic(auto)]

mod error;
mod failure;
mod outcome;
mod whole;
mod words_error;

pub use error::ProgramError;
pub use failure::Failure;
pub use outcome::flushed;
pub use whole::read_whole;
pub use words_error::WordsError;
