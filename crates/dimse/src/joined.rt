//! The state of a DIMSE message at the end of a fragment.

/// The state of a DIMSE message at the end of a presentation data value.
#[derive(Clone, Copy, Debug, PartialEq, Eq)]
pub enum Joined {
    /// The set of the fragment, command set or data set, is unfinished; more fragments of it must
    /// follow.
    More,
    /// The command set is complete; its data set must follow.
    DataDue,
    /// The message is complete, including its data set if it has one.
    Message,
}
