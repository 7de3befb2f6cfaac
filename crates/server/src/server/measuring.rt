//! The metrics file of a server.
use super::Server;
use crate::configuration::ServerConfiguration;
use crate::policy::Policy;
use journal::{Journal, Logger, events, shown};
use log::Log;
use metrics::WriteReport;
use std::time::{Clock, Instant};

/// Logs the result of writing the metrics file, if there is anything to log.
fn report<R: Log + Clock>(logger: Logger<'_, R>, report: WriteReport) {
    match report {
        WriteReport::Nothing => {}
        WriteReport::Fails(failure) => logger.report(
            events::METRICS_NOT_WRITTEN,
            &[shown(&failure)],
        ),
        WriteReport::Works => logger.report(events::METRICS_WRITTEN, &[]),
    }
}

/// Writes the metrics file of a server that has stopped and has no open connection.
pub(super) fn measure_end<R: Log + Clock>(
    rt: &R,
    files: &HostRuntime,
    configuration: &ServerConfiguration<'_>,
) {
    if let Some(metrics) = configuration.metrics {
        metrics.set_open(0);
        report(configuration.logger(rt), metrics.write(files));
    }
}

impl<'a, R: Log + Clock, P: Policy> Server<'a, R, P, Journal<'a, R, HostRuntime>> {
    /// Writes the metrics file, if there is one and it is due.
    pub(super) fn measure(&self, files: &HostRuntime, now: Instant) {
        if let Some(metrics) = self.configuration.metrics {
            metrics.set_open(self.open_connections() as u64);
            report(self.logger(), metrics.write_due(files, now));
        }
    }
}
