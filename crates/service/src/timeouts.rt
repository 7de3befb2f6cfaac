//! The timeouts of a connection.
use std::time::Duration;

/// The timeouts of a connection.
#[derive(Clone, Copy, Debug)]
pub struct Timeouts {
    /// The duration of the ARTIM timer (PS3.8 section 9.1.5). Bytes from the peer do not extend it.
    pub artim: Duration,
    /// How long a peer may neither send nor accept bytes while its ARTIM timer does not run.
    pub idle: Duration,
}
