//! How connections are served.
use crate::timeouts::Timeouts;
use std::time::Duration;

/// How connections are served: how many at once, for how long, and when the server stops.
#[derive(Clone, Copy)]
pub struct Service<'a> {
    /// The timeouts of each connection.
    pub timeouts: Timeouts,
    /// How many associations are served at once, 1 to 64.
    pub associations: usize,
    /// How many associations one IP address may have at once, 1 to `associations`.
    pub per_peer: usize,
    /// The maximum duration of an association, if any.
    pub longest: Option<Duration>,
    /// The path of the stop file, whose appearance stops the server, if any.
    pub stop_file: Option<&'a str>,
    /// How long unfinished stores may continue after the stop file appears.
    pub grace: Duration,
    /// Whether the server stops after one connection.
    pub once: bool,
}

impl Service<'_> {
    /// Returns whether associations are served one at a time, with no maximum duration and no stop
    /// file.
    pub fn is_serial(&self) -> bool {
        self.associations == 1 && self.longest.is_none() && self.stop_file.is_none()
    }
}
