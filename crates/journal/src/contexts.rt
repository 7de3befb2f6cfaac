//! The log lines about the presentation contexts of a request.
use crate::accepted::Accepted;
use crate::end::End;
use crate::event::{Event, Value, known, shown};
use crate::events;
use crate::journal::Journal;
use crate::refused::{RefusedClasses, shown_class, shown_syntax};
use crate::request::{Title, body_of};
use crate::state::{Phase, State};
use crate::text::Text;
use crate::words::context_words;
use arrayvec::ArrayVec;
use folder_filing::StoredFile;
use log::{Level, Log};
use negotiate::{Answer, compact, result_of};
use pdu::{Proposal, Request, read_request};
use service::Consumed;
use std::rt::Files;
use std::time::Clock;

/// Returns the transfer syntaxes of a proposed context by keyword, or by UID if they have none.
fn shown_syntaxes(proposal: &Proposal) -> Text<300> {
    let mut syntaxes = Text::new();
    for uid in proposal.transfer_syntaxes() {
        if syntaxes.len() > 0 {
            syntaxes.add(b" ");
        }
        syntaxes.add(shown_syntax(uid).as_str().as_bytes());
    }
    syntaxes
}

impl<R: Log + Clock, S: Files + Alloc + Clone + Drop> Journal<'_, R, S>
where
    S::File: StoredFile,
{
    /// Records the answer to the request, the first PDU received, and its contexts.
    pub(crate) fn judge(&self, state: &mut State, answer: Answer, consumed: &Consumed<'_>) {
        let is_accepted = answer == Answer::Accept;
        if is_accepted {
            state.phase = Phase::Established;
        }
        let Ok(request) = read_request(body_of(consumed)) else {
            return;
        };
        state.maximum = Some(request.maximum());
        state.proposed = 0;
        for _ in request.contexts() {
            state.proposed = state.proposed.saturating_add(1);
        }
        if is_accepted {
            self.accept(state, &request);
        }
    }

    /// Records the contexts of an accepted request, and counts those that were not accepted. Logs
    /// the classes of which none was, and at level trace each that was not.
    fn accept(&self, state: &mut State, request: &Request) {
        let mut rows = ArrayVec::new();
        compact(self.config, request, &mut rows);
        let accepted = Accepted::of(rows.as_slice());
        if self.logger.reports(Level::Trace) {
            self.report_refused(request, &accepted);
        }
        if let Some(metrics) = self.logger.metrics() {
            metrics.count_refused_contexts(state.proposed.saturating_sub(rows.len() as u64));
        }
        state.accepted = rows;
        let (refused, in_part) = RefusedClasses::of(self.config, request, &accepted);
        state.refused_in_part = in_part;
        let level = if refused.has_storage {
            Level::Warn
        } else {
            Level::Info
        };
        if !refused.is_empty() && self.has_lines(state, level) {
            let event = Event {
                level,
                ..events::CLASSES_REFUSED
            };
            self.report_classes(event, &refused, &state.calling);
        }
    }

    fn report_classes(&self, event: Event, refused: &RefusedClasses, calling: &Title) {
        let others = match refused.others {
            0 => Value::Absent,
            others => Value::Number(others),
        };
        self.logger.report(
            event,
            &[Value::List(refused.named.as_str()), others, known(calling)],
        );
    }

    /// Logs the storage classes that were accepted in some transfer syntaxes only, if the peer
    /// asked for no store or aborted the association, perhaps for that reason.
    pub(crate) fn report_unused(&self, state: &mut State) {
        let is_unused = state.counts.asked == 0 || matches!(state.end, Some(End::AbortedByPeer(_)));
        if is_unused && !state.refused_in_part.is_empty() && self.has_lines(state, Level::Warn) {
            let refused = &state.refused_in_part;
            self.report_classes(events::SYNTAXES_REFUSED, refused, &state.calling);
        }
    }

    /// Logs each context that was not accepted.
    fn report_refused(&self, request: &Request, accepted: &Accepted) {
        for proposal in request.contexts() {
            if !accepted.has(proposal.id()) {
                self.logger.report(
                    events::CONTEXT_REFUSED,
                    &[
                        Value::Number(u64::from(proposal.id())),
                        shown(context_words(result_of(self.config, &proposal))),
                        shown(shown_class(proposal.abstract_syntax())),
                        Value::Text(shown_syntaxes(&proposal).as_str()),
                    ],
                );
            }
        }
    }
}
