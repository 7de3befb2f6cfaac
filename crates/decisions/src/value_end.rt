//! What the end of a presentation data value decided.
use dimse::Detail;

/// What the end of a presentation data value decided. `Decision::Leftover` keeps it if the bytes
/// after the value in its PDU are no head of another.
#[derive(Clone, Copy, Debug, PartialEq, Eq)]
pub enum ValueEnd {
    /// Nothing was decided: the message continues, or the value was not handled.
    Nothing,
    /// A command set is complete, and its data set must follow.
    DataDue,
    /// A command is answered, with this status and cause.
    Replied(u16, Option<Detail>),
}
