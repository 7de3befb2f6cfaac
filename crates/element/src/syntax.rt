//! The two native transfer syntaxes.

/// A native transfer syntax: the layout of the element headers of a data set (PS3.5 sections A.1
/// and A.2). Both are little endian.
#[derive(Clone, Copy, Debug, PartialEq, Eq)]
pub enum Syntax {
    /// Implicit VR Little Endian: headers have no VR.
    Implicit,
    /// Explicit VR Little Endian: headers have a VR.
    Explicit,
}
