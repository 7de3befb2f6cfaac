//! The arrival times of connections that wait to be accepted, as far as the poll reports them.
use journal::{Logger, Value, events};
use log::Log;
use std::alloc::{AllocError, Global};
use std::time::{Clock, Duration, Instant};

/// The maximum number of arrival times that are kept.
const MOST_KEPT: usize = 64;

/// How long a connection may wait for the only slot before this is logged, in seconds.
const LONG_SECONDS: u64 = 10;

/// Upper bounds of the arrival times of connections that are not accepted yet, earliest first.
///
/// The poll reports that connections have arrived, not how many. So there are at least as many
/// connections as times, and more may be queued unreported.
#[derive(Drop)]
pub(crate) struct Arrivals {
    times: Vec<Instant>,
    /// Whether the poll has reported an arrival since the last call of `note`.
    arrived: bool,
    /// Whether a connection may be queued unreported.
    is_unsure: bool,
}

impl Arrivals {
    /// Creates the arrivals of a listener that was not polled yet. Fails if memory runs out.
    pub(crate) fn new(alloc: Global) -> Result<Arrivals, AllocError> {
        Ok(Arrivals {
            times: Vec::with_capacity(alloc, MOST_KEPT)?,
            arrived: false,
            is_unsure: false,
        })
    }

    /// Records that the poll reported an arrival.
    pub(crate) fn arrive(&mut self) {
        self.arrived = true;
    }

    /// Keeps `now` as an arrival time, if the poll has reported an arrival since the last call.
    pub(crate) fn note(&mut self, now: Instant) {
        if self.arrived && self.times.len() < MOST_KEPT {
            let _ = self.times.push(now);
        }
        self.arrived = false;
    }

    /// Removes the earliest time, of a connection that was accepted. Returns how long it waited at
    /// least.
    pub(crate) fn accept(&mut self, now: Instant) -> Duration {
        self.is_unsure = true;
        if self.times.is_empty() {
            return Duration::ZERO;
        }
        now.duration_since(self.times.remove(0))
    }

    /// Removes all times, as no connection is queued.
    pub(crate) fn clear(&mut self) {
        self.times.clear();
        self.is_unsure = false;
    }

    /// Returns whether a connection is known to be queued.
    pub(crate) fn is_known(&self) -> bool {
        !self.times.is_empty()
    }

    /// Returns whether the poll is to be asked for unreported connections, and records that it is
    /// asked.
    pub(crate) fn ask(&mut self) -> bool {
        let is_unsure = self.is_unsure;
        self.is_unsure = false;
        is_unsure
    }
}

/// Logs that a connection waited long for the only slot, if it did.
pub(crate) fn note_waiting<R: Log + Clock>(logger: Logger<'_, R>, waited: Duration) {
    let seconds = waited.as_secs();
    if seconds > LONG_SECONDS {
        logger.report(events::WAITED, &[Value::Number(seconds)]);
    }
}
