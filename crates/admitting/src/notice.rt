//! Limits how often a log message is repeated.
ghost use Rattle.std.specs.Prelude.{◌≡◌, ◌↔◌, IsTrue, None, Some, true, false};
ghost use Rattle.std.specs.Time.{instant_nanos};
ghost use Rattle.admitting.specs.Notices.{IsReportedAgain};

use std::marker::Model;
use std::time::{Duration, Instant};

/// The shortest time in seconds between two messages of one kind.
const QUIET_SECONDS: u64 = 60;

/// The rate limit of one kind of log message: at most one a minute. It has the time of the last
/// message.
#[derive(Drop)]
pub struct Notice {
    reported: Option<Instant>,
}

impl Model for Notice {
    ghost use Rattle.std.specs.Prelude.{ℕ, Option, option_map};
    ghost use Rattle.std.specs.Time.{instant_nanos};

    ghost Value = { Option ℕ };

    ghost view = { λ n. option_map (λ t. instant_nanos t) n.reported };
}

impl Notice {
    /// Creates the limit before the first message.
    pub fn new() -> Notice
        ensures { result ≡ None }
    {
        Notice { reported: None }
    }

    /// Returns whether the message may be logged now: it was not logged before, or the last time is
    /// a minute ago or more. If so, `now` is recorded as the time of the last message.
    pub fn is_due(&mut self, now: Instant) -> bool
        ensures due { IsTrue result ↔ IsReportedAgain self.old (instant_nanos now) }
        ensures reported { result ≡ true → self.new ≡ Some (instant_nanos now) }
        ensures same { result ≡ false → self.new ≡ self.old }
    {
        let is_due = match self.reported {
            Some(reported) => now.duration_since(reported) >= Duration::from_secs(QUIET_SECONDS),
            None => true,
        };
        if is_due {
            self.reported = Some(now);
        }
        is_due
    }
}
