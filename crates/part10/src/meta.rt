//! The contents of File Meta Information.
use dictionary::Transfer;
use element::{AeTitle, Uid};

/// The File Meta Information elements that describe the instance in a file (PS3.10 section 7.1).
#[derive(Debug, Drop)]
pub struct Meta {
    /// Media Storage SOP Class UID (0002,0002).
    pub class: Uid,
    /// Media Storage SOP Instance UID (0002,0003).
    pub instance: Uid,
    /// Transfer Syntax UID (0002,0010), that of the data set.
    pub syntax: Transfer,
    /// Source Application Entity Title (0002,0016), the title of the sender. Not written if it is
    /// all spaces.
    pub calling: AeTitle,
}
