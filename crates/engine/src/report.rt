//! The report of a run.
ghost use Rattle.std.specs.Prelude.{◌≡◌};
ghost use Rattle.engine.specs.Ran.{standing_of};

use acceptor::State;
use std::fmt;

/// The state of an association, for users: it summarizes the acceptor's states.
#[derive(Clone, Copy, Debug, PartialEq, Eq)]
pub enum Standing {
    /// Awaiting an A-ASSOCIATE-RQ, or established.
    Open,
    /// Awaiting the close of the transport connection by the peer.
    Closing,
    /// The association has ended.
    Ended,
}

/// The state of an association after a run, and how many received bytes it holds (as
/// [`Association::held`](crate::Association::held) counts them).
#[derive(Clone, Copy, Debug, PartialEq, Eq)]
pub struct Report {
    pub standing: Standing,
    pub held: usize,
}

impl Standing {
    /// Returns the summary of this state of the acceptor.
    pub fn of(state: State) -> Standing
        ensures { result ≡ standing_of state }
    {
        match state {
            State::Sta1 => Standing::Ended,
            State::Sta13 => Standing::Closing,
            State::Sta2 | State::Sta3 | State::Sta6 | State::Sta8 => Standing::Open,
        }
    }
}

impl fmt::Display for Standing {
    fn fmt<W: fmt::Write>(&self, f: &mut fmt::Formatter<W>) -> fmt::Result {
        f.write_str(match self {
            Standing::Open => "Open",
            Standing::Closing => "Closing",
            Standing::Ended => "Ended",
        })
    }
}
