//! The actions of the upper layer's state machine.
ghost use Rattle.std.specs.Prelude.{◌≡◌};
ghost use Rattle.acceptor.specs.Effect as spelling;

use crate::effect::{Sending, Timer};
use crate::state::State;

/// An action of the state machine, named as in PS3.8 Tables 9-6 to 9-9.
#[derive(Clone, Copy, Debug, PartialEq, Eq)]
pub enum Action {
    /// No action: the event cannot occur in this state (this product's own profile).
    Nothing,
    /// AE-5: the transport connection is accepted and the ARTIM timer starts.
    Ae5,
    /// AE-6: if the request is acceptable, the timer stops and the local user decides on the
    /// association; if not, an A-ASSOCIATE-RJ is sent and the timer starts.
    Ae6,
    /// AE-7: an A-ASSOCIATE-AC is sent.
    Ae7,
    /// AE-8: an A-ASSOCIATE-RJ is sent and the timer starts.
    Ae8,
    /// AR-2: the local user receives an A-RELEASE indication.
    Ar2,
    /// AR-4: an A-RELEASE-RP is sent and the timer starts.
    Ar4,
    /// AR-5: the timer stops.
    Ar5,
    /// AA-1: an A-ABORT of the service user is sent and the timer starts.
    Aa1,
    /// AA-2: the timer stops and the transport connection is closed.
    Aa2,
    /// AA-3: the local user receives an A-ABORT indication and the transport connection is closed.
    Aa3,
    /// AA-4: the local user receives an A-P-ABORT indication.
    Aa4,
    /// AA-5: the timer stops.
    Aa5,
    /// AA-6: the PDU is ignored.
    Aa6,
    /// AA-7: an A-ABORT of the service provider is sent; the timer is unchanged.
    Aa7,
    /// AA-8: an A-ABORT of the service provider is sent, the local user receives an A-P-ABORT
    /// indication, and the timer starts.
    Aa8,
    /// DT-2: the local user receives a P-DATA indication.
    Dt2,
}

impl Action {
    /// Returns what this action sends if it leads to the state `next`, which matters for AE-6.
    /// `reason` is the reason field of an A-ABORT of the service provider (AA-7 and AA-8, PS3.8
    /// section 9.3.8); other actions ignore it.
    pub fn sends(self, next: State, reason: u8) -> Sending
        ensures { result ≡ spelling.sending self next reason }
    {
        match (self, next) {
            (Action::Ae6, State::Sta13) => Sending::Answer,
            (Action::Ae7 | Action::Ae8, _) => Sending::Answer,
            (Action::Ar4, _) => Sending::ReleaseResponse,
            (Action::Aa1, _) => Sending::Abort(0, 0),
            (Action::Aa7 | Action::Aa8, _) => Sending::Abort(2, reason),
            (_, _) => Sending::Nothing,
        }
    }

    /// Returns the effect of this action on the ARTIM timer if it leads to the state `next`, which
    /// matters for AE-6.
    pub fn timer(self, next: State) -> Timer
        ensures { result ≡ spelling.timer self next }
    {
        match (self, next) {
            (Action::Ae6, State::Sta13) => Timer::Starts,
            (Action::Ae6, _) => Timer::Stops,
            (Action::Ae5 | Action::Ae8 | Action::Ar4 | Action::Aa1 | Action::Aa8, _) =>
                Timer::Starts,
            (Action::Aa2 | Action::Aa5 | Action::Ar5, _) => Timer::Stops,
            (_, _) => Timer::Continues,
        }
    }
}
