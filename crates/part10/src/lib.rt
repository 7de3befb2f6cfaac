//! DICOM files (PS3.10 section 7.1): their File Meta Information, and the storage for received
//! files, as a trait and in memory.
#![tactic(auto)]

mod filing;
pub mod laws;
mod memory_filing;
mod meta;
mod meta_fault;
mod reading;
mod settling;
mod writing;

pub use filing::{Filing, FilingFailed};
pub use memory_filing::MemoryFiling;
pub use meta::Meta;
pub use meta_fault::MetaFault;
pub use reading::{read_any_meta, read_meta};
pub use settling::Settling;
pub use writing::meta_bytes;
