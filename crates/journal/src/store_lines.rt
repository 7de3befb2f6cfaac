//! Decides which stores that were not filed have lines of their own.
use crate::asked::Reply;
use crate::event::{Value, known};
use crate::events::MORE_NOT_STORED;
use crate::journal::Journal;
use crate::line_limits::{Limited, LineLimit};
use crate::state::State;
use folder_filing::StoredFile;
use log::{Level, Log};
use std::rt::Files;
use std::time::Clock;

/// How many lines about single stores an association has in a minute.
const MOST_LINES: u64 = 10;

/// The duration of the minute, in seconds.
const MINUTE: u64 = 60;

impl<R: Log + Clock, S: Files + Alloc + Clone + Drop> Journal<'_, R, S>
where
    S::File: StoredFile,
{
    /// Logs how many stores had no line of their own, if any, and starts a new minute.
    pub(crate) fn report_omitted(&self, state: &mut State) {
        let count = state.lines.omitted;
        state.lines = LineLimit::new();
        let Some(reply) = state.last_omitted.take() else {
            return;
        };
        if self.has_lines(state, Level::Warn) {
            let (status, fault, tag) = reply.values();
            self.logger.report(
                MORE_NOT_STORED,
                &[
                    Value::Number(count),
                    status,
                    fault,
                    tag,
                    known(&state.calling),
                ],
            );
        }
    }

    /// Logs how many stores had no line of their own in the last minute, if it is over.
    pub(crate) fn report_minute(&self, state: &mut State) {
        if state.lines.omitted == 0 {
            return;
        }
        if self
            .logger
            .now()
            .is_some_and(|now| state.lines.is_over(now, MINUTE))
        {
            self.report_omitted(state);
        }
    }

    /// Returns whether a store that was not filed has a line of its own; if not, it is counted. The
    /// associations that stored nothing share a rate limit.
    pub(crate) fn has_line(&self, state: &mut State, reply: Reply) -> bool {
        let now = self.logger.now();
        if now.is_some_and(|now| state.lines.is_over(now, MINUTE)) {
            self.report_omitted(state);
        }
        let is_due = self.has_lines(state, Level::Warn)
            && (state.counts.stored > 0 || self.logger.admits(Limited::Store));
        let most = if is_due { MOST_LINES } else { 0 };
        state.admit(now, most, reply)
    }
}
