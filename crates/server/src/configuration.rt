//! The settings of a server.
use journal::{LineForm, LineLimits, Logger};
use log::Log;
use metrics::MetricsFile;
use negotiate::Config;
use service::Service;
use std::time::Clock;

/// The maximum number of associations that are served at once.
pub const MOST_AT_ONCE: usize = 64;

/// The settings of a server.
#[derive(Clone, Copy)]
pub struct ServerConfiguration<'a> {
    /// Who may associate, and what is accepted of them.
    pub config: &'a Config,
    /// How connections are served. At most `MOST_AT_ONCE` associations are served at once.
    pub service: Service<'a>,
    /// The form of the log.
    pub form: LineForm,
    /// The metrics file, which counts what is logged, if there is one.
    pub metrics: Option<&'a MetricsFile>,
    /// The rate limits of the log lines that peers can cause.
    pub limits: &'a LineLimits,
}

impl<'a> ServerConfiguration<'a> {
    /// Returns the logger of lines about no connection.
    pub(crate) fn logger<R: Log + Clock>(&self, rt: &'a R) -> Logger<'a, R> {
        Logger::new(rt, self.form).limited(self.limits)
    }
}
