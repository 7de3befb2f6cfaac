//! The request that a server stops.
ghost use Rattle.std.specs.Prelude.{◌<◌, ◌-◌, ◌↔◌, IsTrue};
ghost use Rattle.std.specs.Duration.{as_nanos};
ghost use Rattle.std.specs.Time.{instant_nanos};

use std::time::{Duration, Instant};

/// The request that a server stops, and closes its connections.
#[derive(Clone, Copy)]
pub struct Stop {
    /// When the stop was requested.
    pub asked: Instant,
    /// How long unfinished stores may continue from then on.
    pub grace: Duration,
}

impl Stop {
    /// Returns whether unfinished stores may still continue at `now`.
    pub(crate) fn leaves_time(self, now: Instant) -> bool
        ensures { IsTrue result ↔ (instant_nanos now - instant_nanos self.asked < as_nanos self.grace) }
    {
        now.duration_since(self.asked).as_nanos() < self.grace.as_nanos()
    }
}
