//! The limits of each association of the program, the const parameters of `engine::Association`.

/// The limit `A`: the maximum size in bytes of the body of an A-ASSOCIATE-RQ, plus 12 for the
/// headers of a PDU and a presentation data value.
pub const REQUEST: usize = 65536;

/// The limit `C`: the maximum size of a command set in bytes.
pub const COMMAND: usize = 1024;

/// The limit `V`: the maximum size in bytes of the values that are kept of a data set, with one
/// element header.
pub const VALUES: usize = 256;

/// The limit `D`: the maximum number of nested levels of a data set. A sequence counts as a level,
/// and so does an item.
pub const DEPTH: usize = 64;
