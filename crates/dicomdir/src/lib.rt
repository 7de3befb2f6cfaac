//! Checks DICOMDIR files, directories of DICOM files (PS3.3 annex F, PS3.10 section 8): [`check`]
//! reads and checks one. The crate `dicomdir_writing` makes one from files and writes it.
#![tactic(auto)]

mod checking;
mod data_set;
mod fault;
mod file_id;
mod found;
mod kept_files;
pub mod laws;
mod level;
mod links;
mod records;
mod rule;
mod tree;

pub use checking::check;
pub use data_set::walk_piece;
pub use fault::DirFault;
pub use file_id::FileId;
pub use kept_files::{kept_of, omitted};
pub use level::Level;
pub use rule::DirRule;
pub use tree::{Tree, TreeRecord};
