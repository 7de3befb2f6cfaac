//! Writes lines to the log.
use crate::event::{Event, Value};
use crate::events::LINES_OMITTED;
use crate::form::LineForm;
use crate::line::{Head, line_of};
use crate::line_limits::{Limited, LineLimits};
use jiff::Timestamp;
use log::{Level, Log, log, log_enabled};
use metrics::MetricsFile;
use std::net::SocketAddr;
use std::time::{Clock, Instant};

/// The target of each log line, by which the lines of this command are found.
pub const TARGET: &str = "dcmbox::serve";

/// Writes log lines, about the connection of one peer or about none.
#[derive_where(Clone, Copy)]
pub struct Logger<'a, R> {
    rt: &'a R,
    form: LineForm,
    peer: Option<SocketAddr>,
    metrics: Option<&'a MetricsFile>,
    limits: Option<&'a LineLimits>,
}

impl<'a, R: Log + Clock> Logger<'a, R> {
    /// Creates a logger of lines in this form, about no connection.
    pub fn new(rt: &'a R, form: LineForm) -> Logger<'a, R> {
        Logger {
            rt,
            form,
            peer: None,
            metrics: None,
            limits: None,
        }
    }

    /// Returns the logger with these rate limits for lines that peers can cause.
    pub fn limited(self, limits: &'a LineLimits) -> Logger<'a, R> {
        Logger {
            limits: Some(limits),
            ..self
        }
    }

    /// Returns the logger with this metrics file, if any, which counts what is logged.
    pub fn counting(self, metrics: Option<&'a MetricsFile>) -> Logger<'a, R> {
        Logger { metrics, ..self }
    }

    /// Returns the metrics file, if there is one.
    pub(crate) fn metrics(&self) -> Option<&'a MetricsFile> {
        self.metrics
    }

    /// Returns the logger of lines about the connection of this peer. An IPv4 address that is
    /// mapped to IPv6 (RFC 4291 section 2.5.5.2) is shown as the IPv4 address.
    pub fn about(self, peer: SocketAddr) -> Logger<'a, R> {
        Logger {
            peer: Some(SocketAddr::new(peer.ip().to_canonical(), peer.port())),
            ..self
        }
    }

    /// Returns whether lines of this level are written.
    pub(crate) fn reports(&self, level: Level) -> bool {
        log_enabled!(self.rt; target: TARGET, level)
    }

    /// Returns the head of a line: the time, if the clock can be read, and the peer.
    pub(crate) fn head(&self) -> Head {
        Head {
            time: Timestamp::now(self.rt).ok(),
            peer: self.peer,
        }
    }

    /// Returns the time, if the clock can be read.
    pub(crate) fn now(&self) -> Option<Instant> {
        Instant::now(self.rt).ok()
    }

    /// Writes the line of an event with these values of its fields, if lines of its level are
    /// written. If it exceeds its rate limit, it is counted as left out.
    pub fn report(&self, event: Event, values: &[Value<'_>]) {
        let is_written = self.reports(event.level)
            && match event.limit {
                Some(kind) => self.admits(kind),
                None => true,
            };
        if is_written {
            self.write(event, values);
        }
    }

    /// Writes the line of an event, if lines of its level are written.
    fn write(&self, event: Event, values: &[Value<'_>]) {
        let line = line_of(self.form, self.head(), event, values);
        log!(self.rt; target: TARGET, event.level, "{line}");
    }

    /// Returns whether a line of this kind may be written now. If not, it is counted as left out.
    pub(crate) fn admits(&self, kind: Limited) -> bool {
        let Some(limits) = self.limits else {
            return true;
        };
        let now = self.now();
        self.report_lines_of(limits, kind, now);
        limits.admit(kind, now)
    }

    /// Logs how many lines of each kind were left out, if its span is over or `now` is `None`.
    pub fn report_omitted(&self, now: Option<Instant>) {
        if let Some(limits) = self.limits {
            for kind in Limited::ALL {
                self.report_lines_of(limits, kind, now);
            }
        }
    }

    /// Logs how many lines of this kind were left out, if any.
    fn report_lines_of(&self, limits: &LineLimits, kind: Limited, now: Option<Instant>) {
        let count = limits.renew(kind, now);
        if let (1.., Some(of)) = (count, kind.words()) {
            Logger {
                peer: None,
                ..*self
            }
            .write(LINES_OMITTED, &[Value::Number(count), Value::Text(of)]);
        }
    }
}
