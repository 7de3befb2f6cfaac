//! `dcmbox serve`: associations over TCP into a folder.
#![tactic(auto)]

mod callers;
mod into_folder;
mod serve;
mod started;

pub use callers::callers_text;
pub use into_folder::serve_into;
pub use serve::serve_one;
