//! The context in which a header is checked.
use crate::coding::Coding;

/// The context of a header: with the header's own bytes it determines whether a rule is broken.
#[derive(Clone, Copy)]
pub struct Spot {
    pub syntax: Coding,
    /// Whether the header is inside a sequence, which contains items; otherwise it is inside an
    /// item or the data set, which contain elements.
    pub in_sequence: bool,
    /// Whether the innermost level has undefined length, so that a delimitation may end it.
    pub open_ended: bool,
    /// The number of bytes up to the nearest end of a level of defined length, `None` if there is
    /// no such level.
    pub near: Option<u64>,
    /// The tag of the preceding element in the same data set or item as a number, 0 if there is
    /// none.
    pub last: u32,
    /// The number of open levels.
    pub depth: usize,
    /// The offset of the header in the data set, in bytes.
    pub offset: u64,
}

/// The limits of a data set: the greatest number of open levels, and the greatest size in bytes.
#[derive(Clone, Copy)]
pub struct Bounds {
    pub depth: usize,
    pub bytes: u64,
}
