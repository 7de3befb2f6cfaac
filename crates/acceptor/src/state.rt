//! The states of the upper layer's state machine.
ghost use Rattle.std.specs.Prelude.{◌≡◌};
ghost use Rattle.acceptor.specs.Effect as spelling;

/// A state of an association, named as in PS3.8 section 9.2.1. The standard's other states belong
/// to the requestor or to a release collision.
#[derive(Clone, Copy, Debug, PartialEq, Eq)]
pub enum State {
    /// Idle: there is no transport connection.
    Sta1,
    /// The transport connection is open; awaiting an A-ASSOCIATE-RQ PDU.
    Sta2,
    /// Awaiting the local user's A-ASSOCIATE response.
    Sta3,
    /// The association is established and ready for data transfer.
    Sta6,
    /// Awaiting the local user's A-RELEASE response.
    Sta8,
    /// Awaiting the transport connection's close; the association no longer exists.
    Sta13,
}

impl State {
    /// Returns whether the ARTIM timer runs in this state (PS3.8 section 9.1.5).
    pub fn timer_runs(self) -> bool
        ensures { result ≡ spelling.timer_runs self }
    {
        matches!(self, State::Sta2 | State::Sta13)
    }
}
