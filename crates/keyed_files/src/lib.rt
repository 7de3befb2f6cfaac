//! Visits the DICOM files in a folder and its subfolders and reads requested values of each, in
//! fixed memory and no further into the file than needed.
#![tactic(auto)]

mod counter;
mod drafts;
mod folder_names;
mod folder_walk;
mod keys;
mod kinds;
mod node_id;
mod reading;
mod received;
mod same_bytes;
mod tally;
mod text_elements;
mod visiting;

pub use counter::Counter;
pub use drafts::{TREE_DRAFT, is_draft};
pub use folder_walk::{FolderWalk, WalkEntry, WalkOrder, last_name};
pub use keys::{FileKeys, LONGEST_KEPT};
pub use kinds::{NO_FILE, has_vanished, kind_at, open_file};
pub use node_id::NodeId;
pub use reading::{NoKeys, read_keys};
pub use received::{is_received_file, is_received_folder};
pub use same_bytes::have_the_same;
pub use tally::Tally;
pub use text_elements::is_text_element;
pub use visiting::{Consumer, FoundFile, Visitor};
