//! The effects of an action: the PDU that it sends, and its effect on the ARTIM timer.
ghost use Rattle.std.specs.Prelude.{◌≡◌};
ghost use Rattle.acceptor.specs.Effect as spelling;

/// The PDU that an action sends (PS3.8 section 9.2).
#[derive(Clone, Copy, Debug, PartialEq, Eq)]
pub enum Sending {
    /// No PDU.
    Nothing,
    /// The response to an association request: an A-ASSOCIATE-AC or an A-ASSOCIATE-RJ.
    Answer,
    /// An A-RELEASE-RP.
    ReleaseResponse,
    /// An A-ABORT with this source and reason (PS3.8 section 9.3.8).
    Abort(u8, u8),
}

/// The effect of an action on the ARTIM timer (PS3.8 section 9.2).
#[derive(Clone, Copy, Debug, PartialEq, Eq)]
pub enum Timer {
    /// The timer starts, or restarts if it is running.
    Starts,
    /// The timer stops if it is running.
    Stops,
    /// The timer is unchanged, running or stopped.
    Continues,
}

impl Timer {
    /// Returns whether the timer runs after the action, if `running` is whether it ran before.
    pub fn after(self, running: bool) -> bool
        ensures { result ≡ spelling.runs_after self running }
    {
        match self {
            Timer::Starts => true,
            Timer::Stops => false,
            Timer::Continues => running,
        }
    }
}
