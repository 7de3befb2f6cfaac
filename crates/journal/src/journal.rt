//! Observes one connection, and writes its log lines.
ghost use Rattle.std.specs.Prelude.{◌≡◌, []};

use crate::asked::{BadElement, Reply, shown_status};
use crate::end::{About, End};
use crate::event::{Value, known, shown, some};
use crate::events;
use crate::line_limits::Limited;
use crate::logger::Logger;
use crate::outcome::Outcome;
use crate::refusal::resources_reason;
use crate::state::State;
use decisions::{Decision, ValueEnd};
use dimse::{DimseFault, status};
use element::history::History;
use folder_filing::{DraftNotes, Location, StoredFile};
use log::{Level, Log};
use negotiate::Config;
use service::{Consumed, Observer, ReadEnd};
use std::alloc::Global;
use std::cell::RefCell;
use std::io;
use std::rc::Rc;
use std::rt::Files;
use std::time::Clock;

/// A summary of an association that has ended.
#[derive(Clone, Copy)]
pub struct Served {
    /// The state of the association.
    pub standing: &'static str,
    /// How many received bytes the association still holds.
    pub held: usize,
    /// How many files the association added to the folder.
    pub files: u32,
    /// How many bytes were received.
    pub received: u64,
    pub seconds: u64,
}

/// Observes one connection, and writes its log lines: at once what needs an operator's action, and
/// a summary of the association at its end. It is not `Drop`: only `end` consumes it, so each
/// association has the lines of its end.
pub struct Journal<'a, R: Log + Clock, S: Files + Alloc + Clone + Drop>
where
    S::File: StoredFile,
{
    pub(crate) logger: Logger<'a, R>,
    /// What happened to the drafts of the filing.
    pub(crate) notes: Rc<DraftNotes<S>, S::A>,
    pub(crate) config: &'a Config,
    state: RefCell<State>,
    /// For contracts: the portions of input of which it was notified.
    heard: History<History<u8>>,
    pub(crate) alloc: Global,
}

impl<'a, R: Log + Clock, S: Files + Alloc + Clone + Drop> Journal<'a, R, S>
where
    S::File: StoredFile,
{
    /// Creates the journal of a connection with this configuration. `notes` are those of its
    /// filing. `alloc` is for the text that is written beside a quarantined data set.
    pub fn new(
        alloc: Global,
        logger: Logger<'a, R>,
        notes: Rc<DraftNotes<S>, S::A>,
        config: &'a Config,
    ) -> Journal<'a, R, S>
        ensures nothing_heard { result.heard ≡ [] }
    {
        Journal {
            logger,
            notes,
            config,
            state: RefCell::new(State::new()),
            heard: History::new(),
            alloc,
        }
    }

    /// Writes the last lines of an association that has ended.
    pub fn end(self, served: Served) {
        self.report_association(served);
        let Journal {
            logger: _logger,
            notes: _notes,
            config: _config,
            state: _state,
            heard: _heard,
            alloc: _alloc,
        } = self;
    }

    fn report_association(&self, served: Served) {
        let Ok(mut state) = self.state.try_borrow_mut() else {
            return;
        };
        self.report_filing(&mut state);
        self.remove_aside();
        self.report_omitted(&mut state);
        self.report_unanswered(&mut state);
        self.report_unused(&mut state);
        self.count_end(&state, served.received);
        if self.has_lines(&mut state, Level::Info) {
            self.report_ended(&state, served);
        }
    }

    fn report_ended(&self, state: &State, served: Served) {
        let counts = state.counts;
        self.logger.report(
            events::ENDED,
            &[
                Value::Text(served.standing),
                Value::Number(served.held as u64),
                Value::Number(u64::from(served.files)),
                Value::Number(counts.dropped()),
                Value::Number(served.received),
                Value::Number(served.seconds),
                shown(&state.calling),
                shown(&state.called),
                state.shown_end(),
                Value::Number(state.accepted.len() as u64),
                Value::Number(state.proposed),
                Value::Number(counts.stored),
                Value::Number(counts.refused),
                Value::Number(counts.failed),
            ],
        );
    }

    /// Returns whether lines of this level are written about the association. They are if it stored
    /// something, else only for a limited number of associations a second, since a peer may open
    /// any number.
    pub(crate) fn has_lines(&self, state: &mut State, level: Level) -> bool {
        if !self.logger.reports(level) {
            return false;
        }
        if state.counts.stored > 0 {
            return true;
        }
        match state.has_lines {
            Some(has_lines) => has_lines,
            None => {
                let has_lines = self.logger.admits(Limited::Association);
                state.has_lines = Some(has_lines);
                has_lines
            }
        }
    }

    /// Adds the association, and its stores without a reply, to the metrics.
    fn count_end(&self, state: &State, received: u64) {
        if let Some(metrics) = self.logger.metrics() {
            metrics.count_unanswered(state.counts.unanswered());
            metrics.count_end(state.counted_end(), received);
        }
    }

    /// Logs the store that had no reply, or whose reply was not sent completely, unless it was
    /// logged why its file was lost.
    fn report_unanswered(&self, state: &mut State) {
        let count = state.counts.unanswered();
        if count == 0 && state.unconfirmed.is_none()
            || state.has_filing_failed && state.end == Some(End::FileLost)
            || !self.has_lines(state, Level::Warn)
        {
            return;
        }
        let (class, instance) = state.asked();
        if let Some(location) = state.unconfirmed {
            self.logger.report(
                events::NOT_CONFIRMED,
                &[
                    state.shown_end(),
                    some(location),
                    class,
                    instance,
                    known(&state.calling),
                ],
            );
        } else {
            self.logger.report(
                events::UNANSWERED,
                &[
                    state.shown_end(),
                    class,
                    instance,
                    Value::Number(count),
                    known(&state.calling),
                ],
            );
        }
    }

    /// Logs the system error of a failed call of the filing, once, with its store.
    fn report_filing(&self, state: &mut State) {
        if let Some(error) = self.notes.error.take() {
            state.has_filing_failed = true;
            let (class, instance) = state.asked();
            self.logger.report(
                events::FILING_FAILED,
                &[shown(&error), class, instance, known(&state.calling)],
            );
        }
    }

    /// Records input that the association consumed, and logs its effect.
    fn note(&self, consumed: &Consumed<'_>) {
        let Ok(mut state) = self.state.try_borrow_mut() else {
            return;
        };
        self.report_minute(&mut state);
        let decision = state.take(consumed);
        self.report_filing(&mut state);
        self.report(&mut state, decision, consumed);
    }

    /// Records what the association decided, and logs it.
    fn report(&self, state: &mut State, decision: Decision, consumed: &Consumed<'_>) {
        if let Decision::RequestJudged(answer) = decision {
            self.judge(state, answer, consumed);
        }
        match decision.value_end() {
            ValueEnd::Replied(status, detail) if state.message.is_store => {
                let reply = Reply { status, detail };
                if consumed.is_held {
                    state.held = Some(reply);
                } else {
                    self.report_reply(state, reply);
                }
            }
            ValueEnd::Replied(status, _) if status != status::SUCCESS => {
                self.report_echo(state, status);
            }
            _ => {}
        }
        if let Some(end) = state.end_by(decision, consumed.reply) {
            state.end(end);
            self.report_end(state, end, consumed);
        }
    }

    /// Logs that an echo was refused, once.
    fn report_echo(&self, state: &mut State, status: u16) {
        if !state.is_echo_reported && self.has_lines(state, Level::Warn) {
            self.logger.report(
                events::ECHO_REFUSED,
                &[shown_status(status), known(&state.calling)],
            );
        }
        state.is_echo_reported = true;
    }

    /// Logs that the association was rejected or aborted by its last decision.
    fn report_end(&self, state: &mut State, end: End, consumed: &Consumed<'_>) {
        match end {
            End::Rejected(rejection) => {
                if let About::Length(_) = rejection.about {
                    state.take_titles(consumed.ahead);
                }
                if self.has_lines(state, Level::Warn) {
                    self.logger.report(
                        events::REJECTED,
                        &[
                            shown(rejection),
                            shown(&state.calling),
                            shown(&state.called),
                        ],
                    );
                }
            }
            End::Aborted(_, Decision::CommandRefused(DimseFault::BadCommand, _)) => {
                self.report_abort(state, BadElement::of(consumed.bytes));
            }
            End::Aborted(..) => self.report_abort(state, None),
            _ => {}
        }
    }

    /// Logs that the association was aborted, with the invalid element, if any.
    fn report_abort(&self, state: &mut State, bad: Option<BadElement>) {
        if self.has_lines(state, Level::Warn) {
            let (element, value) = match bad {
                Some(BadElement { number, value }) => {
                    (shown(format_args!("0000,{number:04x}")), shown(value))
                }
                None => (Value::Absent, Value::Absent),
            };
            self.logger.report(
                events::ABORTED,
                &[state.shown_end(), element, value, known(&state.calling)],
            );
        }
    }

    /// Counts the reply to a store, and logs it.
    fn report_reply(&self, state: &mut State, reply: Reply) {
        let counted = state.count(reply.status);
        if let Some(metrics) = self.logger.metrics() {
            metrics.count_answer(counted);
        }
        self.settle_aside(state, reply);
        let location = self.notes.location.take();
        let is_stored = Outcome::counted(counted) == Outcome::Stored;
        if is_stored {
            state.unconfirmed = Some(location);
        }
        if !is_stored || self.logger.reports(Level::Debug) {
            self.report_store(state, reply, location);
        }
        if let Some(location) = self.notes.low.take() {
            self.logger.report(events::NUMBERS_LOW, &[shown(location)]);
        }
    }

    /// Returns the reason for a reply, if its status does not give it.
    pub(crate) fn reason<'b>(&self, state: &State, reply: Reply) -> Value<'b> {
        if reply.status == status::OUT_OF_RESOURCES {
            resources_reason(state.message.data_size, self.config.max_data)
        } else {
            Value::Absent
        }
    }

    /// Logs the reply to a store, unless it was logged why its file could not be written.
    fn report_store(&self, state: &mut State, reply: Reply, location: Option<Location>) {
        let is_reported = state.has_filing_failed && reply.status == status::OUT_OF_RESOURCES;
        let is_stored = Outcome::of(reply.status) == Outcome::Stored;
        let has_line = !is_stored && !is_reported && self.has_line(state, reply);
        let syntax = state.syntax();
        if has_line {
            let (status, fault, tag) = reply.values();
            let (class, instance) = state.asked();
            self.logger.report(
                events::NOT_STORED,
                &[
                    status,
                    fault,
                    tag,
                    self.reason(state, reply),
                    class,
                    instance,
                    known(&syntax),
                    known(&state.calling),
                ],
            );
        }
        if self.logger.reports(Level::Debug) {
            let (status, fault, tag) = reply.values();
            let (class, instance) = state.asked();
            self.logger.report(
                events::ANSWERED,
                &[
                    class,
                    instance,
                    known(&syntax),
                    Value::Number(state.message.data_size),
                    status,
                    fault,
                    tag,
                    some(location),
                ],
            );
        }
    }
}

impl<R: Log + Clock, S: Files + Alloc + Clone + Drop> Observer for Journal<'_, R, S>
where
    S::File: StoredFile,
{
    ghost heard = { λ journal. journal.heard };

    fn consumed(&mut self, consumed: &Consumed<'_>) {
        let mut bytes = History::new();
        bytes.append(consumed.bytes);
        self.heard.push(&bytes);
        self.note(consumed);
    }

    fn settled(&self, is_kept: bool) {
        let Ok(mut state) = self.state.try_borrow_mut() else {
            return;
        };
        self.report_filing(&mut state);
        if let Some(reply) = state.settle(is_kept) {
            self.report_reply(&mut state, reply);
        }
    }

    fn sent(&self, bytes: &[u8]) {
        if let Ok(mut state) = self.state.try_borrow_mut() {
            state.send(bytes.len());
        }
    }

    fn read_ended(&self, why: ReadEnd, abort: usize) {
        let Ok(mut state) = self.state.try_borrow_mut() else {
            return;
        };
        self.report_filing(&mut state);
        state.answer(abort);
        state.end(End::Read(why));
        if abort > 0 {
            self.report_abort(&mut state, None);
        }
    }

    fn send_failed(&self, _error: &io::Error) {
        if let Ok(mut state) = self.state.try_borrow_mut() {
            self.report_filing(&mut state);
            state.end(End::SendFailed);
        }
    }
}
