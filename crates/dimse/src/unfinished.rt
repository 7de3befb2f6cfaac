//! What was received of an unfinished DIMSE message.

/// What was received of an unfinished DIMSE message, as far as it determines which fragment must
/// follow.
#[derive(Clone, Copy, Debug, PartialEq, Eq)]
pub enum Unfinished {
    /// Nothing: the first fragment of a command set must follow.
    Nothing,
    /// Fragments of a command set in the presentation context with this ID, of this size in bytes.
    Command(u8, usize),
    /// The command set of a message in the presentation context with this ID: its data set must
    /// follow.
    Set(u8),
}
