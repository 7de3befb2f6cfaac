//! The output of the log lines.
use crate::form::LineForm;
use log::kv::Source;
use log::sink::Console;
use log::span::Spans;
use log::{Level, Log, Metadata, Record};
use std::fmt;
use std::fmt::Display;

/// Writes each line to standard error: text with its level and target before it, JSON unchanged.
#[derive(Clone, Copy)]
pub struct Output<R> {
    console: Console<R>,
    form: LineForm,
    has_priorities: bool,
}

/// Returns the syslog priority of a level (RFC 5424 section 6.2.1).
fn priority(level: Level) -> u8 {
    match level {
        Level::Error => 3,
        Level::Warn => 4,
        Level::Info => 6,
        Level::Debug | Level::Trace => 7,
    }
}

/// A line with its priority before it, as systemd reads it.
#[derive(Drop)]
struct Prioritized<'a, D> {
    level: Level,
    /// The target, if the line is text.
    target: Option<&'a str>,
    line: &'a D,
}

impl<D: Display> Display for Prioritized<'_, D> {
    fn fmt<W: fmt::Write>(&self, f: &mut fmt::Formatter<W>) -> fmt::Result {
        write!(f, "<{}>", priority(self.level))?;
        if let Some(target) = self.target {
            write!(f, "[{:<5} {target}] ", self.level.as_str())?;
        }
        self.line.fmt(f)
    }
}

impl<R: Eprint> Output<R> {
    /// Creates the output of a log in this form.
    pub fn new(rt: R, form: LineForm) -> Output<R> {
        Output {
            console: Console(rt),
            form,
            has_priorities: false,
        }
    }

    /// Returns an output that writes the priority of each line before it, such as `<4>`, for
    /// systemd's journal.
    pub fn with_priorities(self) -> Output<R> {
        Output {
            has_priorities: true,
            ..self
        }
    }
}

impl<R: Eprint> Log for Output<R> {
    fn enabled(&self, _metadata: &Metadata<'_>) -> bool {
        true
    }

    fn log<D: Display, K: Source, S: Spans>(&self, record: &Record<'_, D, K, S>) {
        let target = match self.form {
            LineForm::Text if !self.has_priorities => {
                self.console.log(record);
                return;
            }
            LineForm::Text => Some(record.target()),
            LineForm::Json(_) => None,
        };
        if self.has_priorities {
            let _ = self.console.0.eprintln(Prioritized {
                level: record.level(),
                target,
                line: record.args(),
            });
        } else {
            let _ = self.console.0.eprintln(record.args());
        }
    }

    fn flush(&self) {}

    fn target(&self) -> &str {
        ""
    }
}
