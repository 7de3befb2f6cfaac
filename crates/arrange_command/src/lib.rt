//! `dcmbox arrange`: links or copies the files in folders into a tree of folders by patient, study
//! and series.
#![tactic(auto)]

mod arranging;
mod comparing;
mod copying;
mod counts;
mod name;
mod paths;
mod pattern;
mod placing;
mod planned;
mod tree_calls;

pub use arranging::{ArrangeOptions, arrange, arrange_folders};
pub use name::{LONGEST_NAME, name_of};
pub use paths::BY_UIDS;
pub use pattern::{Part, read_pattern};
