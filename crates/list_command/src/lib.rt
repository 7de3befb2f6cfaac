//! `dcmbox list`: lists the studies of the files in folders.
#![tactic(auto)]

mod columns;
mod conditions;
mod grouping;
mod listing;
mod order;
mod studies;
mod texts;
mod writing;

pub use columns::{Column, MOST_COLUMNS};
pub use conditions::{Condition, MOST_CONDITIONS};
pub use listing::{ListOptions, list, list_folders};
