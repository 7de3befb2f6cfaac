//! `dcmbox show` and `dcmbox check`: inspect files and print the findings. Also prints those of
//! `dcmbox checkdir`.
#![tactic(auto)]

mod several;
mod single;
mod tally;

pub use several::{Files, inspect_files};
pub use single::{Inspection, inspect};
