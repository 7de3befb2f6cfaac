//! The part of the standard's registry that this product uses: tags, SOP classes and transfer
//! syntaxes (PS3.6).
#![tactic(auto)]

mod class;
mod implementation;
pub mod laws;
mod storage;
mod storage_table;
mod syntaxes;
mod tags;
mod transfer;

pub use class::{Class, class_of};
pub use implementation::{IMPLEMENTATION_CLASS_UID, IMPLEMENTATION_VERSION_NAME};
pub use storage::{StorageClass, storage_class};
pub use syntaxes::{APPLICATION_CONTEXT, syntax_of, syntax_uid};
pub use tags::{name_of, vr_of};
pub use transfer::Transfer;
