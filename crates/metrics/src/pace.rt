//! Decides when the metrics file is due.
ghost use Rattle.std.specs.Prelude.{◌≡◌, ◌↔◌, IsTrue, None, Some, not, true};
ghost use Rattle.std.specs.Duration.{as_nanos};
ghost use Rattle.std.specs.Time.{instant_nanos};

use std::time::{Duration, Instant};

/// The seconds between two writes if numbers have changed or the last write failed.
const BEHIND_SECONDS: u64 = 5;

/// The seconds between two writes if no number has changed.
const CURRENT_SECONDS: u64 = 60;

/// When the metrics file is due to be written: at once; then five seconds after the last attempt if
/// a number has changed or the attempt failed, else a minute after it, so that the file's age shows
/// whether the program runs.
#[derive(Clone, Copy)]
pub struct Pace {
    tried: Option<Instant>,
    is_behind: bool,
}

impl Pace {
    ghost use Rattle.metrics.specs.Due.{pacing_of, time_remaining};

    /// Creates the pace of a file that was not written yet.
    pub fn new() -> Pace
        ensures { pacing_of result ≡ record { tried = None; behind = true } }
    {
        Pace {
            tried: None,
            is_behind: true,
        }
    }

    /// Records that a number has changed since the last write.
    pub fn change(&mut self)
        ensures { pacing_of self.new ≡ record (pacing_of self.old) { behind = true } }
    {
        self.is_behind = true;
    }

    /// Records that a write was tried at this instant, and whether it succeeded.
    pub fn tried(&mut self, now: Instant, is_written: bool)
        ensures { pacing_of self.new ≡ record { tried = Some (instant_nanos now); behind = not is_written } }
    {
        self.tried = Some(now);
        self.is_behind = !is_written;
    }

    /// Returns the time from `now` until the metrics file is due; zero if it is due.
    pub fn remaining(&self, now: Instant) -> Duration
        ensures { as_nanos result ≡ time_remaining (pacing_of self.now) (instant_nanos now) }
    {
        let Some(tried) = self.tried else {
            return Duration::ZERO;
        };
        let seconds = if self.is_behind {
            BEHIND_SECONDS
        } else {
            CURRENT_SECONDS
        };
        Duration::from_secs(seconds).saturating_sub(now.duration_since(tried))
    }

    /// Returns whether the file is due.
    pub fn is_due(&self, now: Instant) -> bool
        ensures { IsTrue result ↔ (time_remaining (pacing_of self.now) (instant_nanos now) ≡ 0) }
    {
        self.remaining(now).is_zero()
    }
}
