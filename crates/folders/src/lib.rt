//! Opens the folder in which `dcmbox serve` and `replay` store received files.
#![tactic(auto)]

mod folder;

pub use folder::{numbered, open_folder, open_writer, quarantined, try_draft};
