//! The part of a DIMSE message that is received next.

/// The part of a DIMSE message to which the next fragment belongs.
#[derive(Clone, Copy, Debug, PartialEq, Eq)]
pub enum Stage {
    /// The start of a command set; no message is unfinished.
    Between,
    /// The command set, of which at least one fragment was started.
    Command,
    /// The data set; the command set is complete.
    Set,
}
