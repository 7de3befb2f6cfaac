//! The limits of an inspection.

/// The size of the walker's buffer for values and headers, in bytes.
pub const VALUES: usize = 256;

/// The most levels of a data set that may be open: a sequence and an item count one each.
pub const DEPTH: usize = 64;

/// The most bytes of one read.
pub const PIECE: usize = 65536;

/// The longest data set that may be requested or that a file may have: 2^48 bytes.
pub const MOST_DATA: u64 = 281_474_976_710_656;

/// The longest value, in bytes, that is shown unless values are requested whole.
pub const LONGEST_SHOWN: usize = 64;

/// The longest value, in bytes, that is checked against the whole table of VRs or shown whole.
pub const LONGEST: usize = 65536;
