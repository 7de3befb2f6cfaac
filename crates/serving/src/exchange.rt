//! The traffic of one connection.
use crate::inbox::Inbox;
use crate::outbox::Outbox;
use crate::traces::SocketTrace;
use engine::Report;

/// The traffic of a connection whose socket is of type `S`.
#[derive(Drop)]
pub struct Exchange<S> {
    /// The state of the association.
    pub report: Report,
    /// How many bytes were read.
    pub received: u64,
    /// For contracts: the bytes that were read.
    pub read: SocketTrace<S>,
    /// For contracts: the bytes that the socket accepted.
    pub sent: SocketTrace<S>,
    /// The bytes that were read but not consumed by the association.
    pub unconsumed: Inbox,
    /// The bytes that the association sent but the socket did not accept.
    pub unsent: Outbox,
}
