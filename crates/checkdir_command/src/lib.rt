//! `dcmbox checkdir`, and the printed form of file IDs and of directory faults.
#![tactic(auto)]

mod checkdir;
mod faults;
mod texts;

pub use checkdir::{checkdir_named, checkdir_over, report_fault};
pub use texts::PathText;
