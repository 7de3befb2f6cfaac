//! Stores received files in a folder: [`FolderFiling`] is a `part10::Filing` that gives each file a
//! name of its own in the folder, and [`FolderWriter`] makes several filings for one folder.
#![tactic(auto)]

mod aside;
mod call;
mod draft_size;
mod drafts;
mod entered_file;
mod folder_calls;
mod folder_filing;
mod folder_identity;
mod folder_writer;
mod given_names;
mod group;
mod kept_numbers;
pub mod laws;
mod listing;
mod location;
mod locked_folder;
mod named_file;
mod names;
mod names_synced;
mod naming;
mod notes;
mod numbers;
mod occupancy;
mod open_folder;
mod pending;
mod quarantine;
mod quarantine_names;
mod stored_file;
mod writeback;

pub use aside::{KeptDraft, SetAside};
pub use folder_filing::FolderFiling;
pub use folder_writer::{FolderWriter, QuarantineFound};
pub use location::Location;
pub use names::{EntryKind, EntryName};
pub use names_synced::NamesSynced;
pub use notes::DraftNotes;
pub use stored_file::StoredFile;
