//! `dcmbox index`: writes the DICOMDIR of a folder of received files.
#![tactic(auto)]

mod contents;
mod directory;
mod duplicates;
mod files;
mod indexed;
mod instances;
mod kept;
mod new_uid;
mod omitted;
mod output;

pub use directory::{index, index_dir, index_folder};
pub use indexed::{IndexCounts, Indexed};
