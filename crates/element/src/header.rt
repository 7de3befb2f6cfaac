//! Headers of data elements, items and delimitations.
use crate::{Tag, Vr};

/// The header of a data element, an item or a delimitation (PS3.5 sections 7.1 and 7.5).
#[derive(Clone, Copy, Debug, PartialEq, Eq)]
pub struct Header {
    pub tag: Tag,
    /// The VR; `None` in Implicit VR Little Endian and in group FFFE.
    pub vr: Option<Vr>,
    /// The length of the value that follows, in bytes; FFFFFFFFH is undefined length.
    pub length: u32,
}
