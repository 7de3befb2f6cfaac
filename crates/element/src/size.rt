//! The size of the header of a data element or an item.

/// The size of a header, as far as its first bytes determine it.
#[derive(Clone, Copy, Debug, PartialEq, Eq)]
pub enum Need {
    /// Not known yet: there are fewer than 4 bytes, or fewer than 6 of a header with a VR.
    More,
    /// The number of bytes, 8 or 12.
    Size(usize),
    /// The header must have a VR, but bytes 4 and 5 are not two capital letters. A data set with
    /// such a header has fault 10, `BadVr`.
    BadVr,
}
