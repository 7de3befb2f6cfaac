//! What the log knows of an association.
ghost use Rattle.std.specs.Prelude.{◌≡◌, ◌<◌, ◌+◌, None, Some, true, false, min};

use crate::asked::{Reply, UidText};
use crate::end::{Abort, About, End, Rejection};
use crate::event::{Value, known, shown};
use crate::line_limits::LineLimit;
use crate::message::Message;
use crate::outcome::{Counts, Outcome};
use crate::refused::{RefusedClasses, shown_class, shown_syntax};
use crate::request::{Title, body_of, shown_titles};
use arrayvec::ArrayVec;
use decisions::{Decision, ValueEnd};
use dimse::{Command, read_command};
use folder_filing::Location;
use metrics::{CountedEnd, CountedStatus};
use negotiate::{Answer, ContextRow, rejection};
use pdu::TITLES_END;
use service::Consumed;
use std::time::Instant;

/// The phase of an association.
#[derive(Clone, Copy, Debug, PartialEq, Eq)]
pub(crate) enum Phase {
    /// The header of an A-ASSOCIATE-RQ PDU is expected.
    Awaited,
    /// The body of an A-ASSOCIATE-RQ is expected.
    InRequest,
    Established,
    /// The association has ended.
    Over,
}

/// What the log knows of an association.
#[derive(Drop)]
pub(crate) struct State {
    pub phase: Phase,
    /// The maximum length of a P-DATA-TF PDU that the peer receives, once the request was read.
    pub maximum: Option<u32>,
    pub message: Message,
    /// The command of the last store, unless the association ended with it.
    asked: Option<Command>,
    pub counts: Counts,
    /// The rate limit of lines about stores not filed.
    pub lines: LineLimit,
    /// The reply to the last store whose line was left out.
    pub last_omitted: Option<Reply>,
    /// Whether lines are written about the association while it has stored nothing, once decided.
    pub has_lines: Option<bool>,
    pub called: Title,
    pub calling: Title,
    /// The contexts that were accepted.
    pub accepted: ArrayVec<ContextRow, 128>,
    pub proposed: u64,
    /// The storage classes of which some contexts were accepted, and others refused for their
    /// transfer syntaxes.
    pub refused_in_part: RefusedClasses,
    pub end: Option<End>,
    /// Whether it was logged that an echo was refused.
    pub is_echo_reported: bool,
    /// Whether a file could not be written since the last C-STORE request.
    pub has_filing_failed: bool,
    /// The reply to a store whose file waits to be settled.
    pub held: Option<Reply>,
    /// The location of the file of a store whose reply is not sent completely, if there is one.
    pub unconfirmed: Option<Option<Location>>,
    /// The first bytes of the body of a request that is rejected for its length.
    front: ArrayVec<u8, TITLES_END>,
    /// The last two bytes that were consumed: in an A-ABORT its source and reason.
    last: (u8, u8),
    /// How many bytes the association was to send.
    answered: u64,
    /// How many bytes were sent.
    sent: u64,
}

impl State {
    ghost use Rattle.std.specs.Result.{result_ok};
    ghost use Rattle.dimse.specs.Reading.{command_in};
    ghost use Rattle.journal.specs.Ends.{IsAbortedBy, counted_by, counted_where};
    ghost use Rattle.journal.specs.Outcomes.{counted, outcome_of};
    ghost use Rattle.journal.specs.Reported.{asked_by, asked_more, command_by, reported_by};
    ghost use Rattle.metrics.specs.Statuses.{status_of};

    /// Creates the state before any byte is received.
    pub(crate) fn new() -> State {
        State {
            phase: Phase::Awaited,
            maximum: None,
            message: Message::new(),
            asked: None,
            counts: Counts::default(),
            lines: LineLimit::new(),
            last_omitted: None,
            has_lines: None,
            called: Title::new(),
            calling: Title::new(),
            accepted: ArrayVec::new(),
            proposed: 0,
            refused_in_part: RefusedClasses::new(),
            end: None,
            is_echo_reported: false,
            has_filing_failed: false,
            held: None,
            unconfirmed: None,
            front: ArrayVec::new(),
            last: (0, 0),
            answered: 0,
            sent: 0,
        }
    }

    /// Records what the association consumed and is to send. Returns its decision, or `Nothing` if
    /// no section of a PDU is complete or the association is over.
    pub(crate) fn take(&mut self, consumed: &Consumed<'_>) -> Decision
        ensures reported { result ≡ reported_by consumed.now.is_complete self.old.phase consumed.now.decision }
        ensures asked { self.new.counts ≡ asked_by result self.old.counts }
        ensures command { self.new.asked ≡ command_by result consumed.now.command.now self.old.asked }
    {
        self.answer(consumed.reply.len());
        self.keep(consumed.bytes);
        if !consumed.is_complete {
            return Decision::Nothing;
        }
        match self.phase {
            Phase::Awaited => self.phase = Phase::InRequest,
            Phase::InRequest => self.take_titles(body_of(consumed)),
            Phase::Established => {}
            Phase::Over => return Decision::Nothing,
        }
        self.message.hear(consumed.decision);
        if let ValueEnd::DataDue = consumed.decision.value_end() {
            self.ask(consumed.command);
        }
        consumed.decision
    }

    /// Keeps the last two bytes, and those of a request that was too long which have its titles.
    fn keep(&mut self, bytes: &[u8])
        ensures phase { self.new.phase ≡ self.old.phase }
        ensures counts { self.new.counts ≡ self.old.counts }
        ensures asked { self.new.asked ≡ self.old.asked }
    {
        self.last = match bytes {
            [.., source, reason] => (*source, *reason),
            [reason] => (self.last.1, *reason),
            [] => self.last,
        };
        if let Some(
            End::Rejected(
                Rejection {
                    about: About::Length(_),
                    ..
                },
            ),
        ) = self.end
        {
            let count = self.front.remaining_capacity().min(bytes.len());
            let _ = self.front.try_extend_from_slice(&bytes[..count]);
            if let Some(titles) = shown_titles(self.front.as_slice()) {
                (self.called, self.calling) = titles;
            }
        }
    }

    /// Reads the titles of the request, if this beginning of its body has them.
    pub(crate) fn take_titles(&mut self, body: &[u8])
        ensures phase { self.new.phase ≡ self.old.phase }
        ensures counts { self.new.counts ≡ self.old.counts }
        ensures asked { self.new.asked ≡ self.old.asked }
    {
        if let Some(titles) = shown_titles(body) {
            (self.called, self.calling) = titles;
        }
    }

    /// Records that the association is to send this many bytes.
    pub(crate) fn answer(&mut self, count: usize)
        ensures phase { self.new.phase ≡ self.old.phase }
        ensures counts { self.new.counts ≡ self.old.counts }
        ensures asked { self.new.asked ≡ self.old.asked }
    {
        self.answered = self.answered.saturating_add(count as u64);
    }

    /// Records that this many bytes were sent.
    pub(crate) fn send(&mut self, count: usize) {
        self.sent = self.sent.saturating_add(count as u64);
        if self.sent >= self.answered {
            self.unconfirmed = None;
        }
    }

    /// Records a C-STORE request with this command set, which is empty if the association ended
    /// with it.
    fn ask(&mut self, command: &[u8])
        ensures counts { self.new.counts ≡ asked_more self.old.counts }
        ensures asked { self.new.asked ≡ result_ok (command_in command.now) }
    {
        self.counts.ask();
        self.has_filing_failed = false;
        self.asked = read_command(command).ok();
    }

    /// Returns the class of the last store, by its keyword or else its UID, and its instance, each
    /// absent if it is unknown.
    pub(crate) fn asked<'a>(&self) -> (Value<'a>, Value<'a>) {
        let Some(command) = &self.asked else {
            return (Value::Absent, Value::Absent);
        };
        let mut instance = UidText::new();
        if let Some(uid) = command.instance() {
            instance.add(uid.as_bytes());
        }
        (
            shown(shown_class(command.class().as_bytes())),
            known(&instance),
        )
    }

    /// Returns the transfer syntax of the context of the message, as the log shows it, or an empty
    /// text if unknown.
    pub(crate) fn syntax(&self) -> UidText {
        for row in &self.accepted {
            if row.id == self.message.context {
                return shown_syntax(row.syntax.uid());
            }
        }
        UidText::new()
    }

    /// Counts a store that was not filed. Returns whether it is among the first `most` of its
    /// minute; if not, keeps its reply.
    pub(crate) fn admit(&mut self, now: Option<Instant>, most: u64, reply: Reply) -> bool
        ensures line { result ≡ true → self.old.lines.lines < most }
        ensures none_more { result ≡ true → (self.new.lines.omitted ≡ self.old.lines.omitted) × (self.new.last_omitted ≡ self.old.last_omitted) }
        ensures counted { result ≡ false → self.new.lines.omitted ≡ min (self.old.lines.omitted + 1) 18446744073709551615 }
        ensures last { result ≡ false → self.new.last_omitted ≡ Some reply }
    {
        let is_reported = self.lines.admit(now, most);
        if !is_reported {
            self.last_omitted = Some(reply);
        }
        is_reported
    }

    /// Counts the reply to a store. Returns the counter of its status.
    pub(crate) fn count(&mut self, status: u16) -> CountedStatus
        ensures status { result ≡ status_of status }
        ensures counts { self.new.counts ≡ counted (outcome_of status) self.old.counts }
    {
        let status = CountedStatus::of(status);
        self.counts.answer(Outcome::counted(status));
        status
    }

    /// Records whether the file of a store is durable. Returns the reply to the store that was held
    /// for it, which counts as an answer, or `None` if the file is lost.
    pub(crate) fn settle(&mut self, is_kept: bool) -> Option<Reply>
        ensures kept { is_kept ≡ true → result ≡ self.old.held }
        ensures lost { is_kept ≡ false → result ≡ None }
        ensures once { self.new.held ≡ None }
        ensures counts { self.new.counts ≡ self.old.counts }
    {
        let held = self.held.take();
        if is_kept {
            return held;
        }
        self.end(End::FileLost);
        None
    }

    /// Records how the association ended, unless it had before. Only the titles of a rejected
    /// request may still be received.
    pub(crate) fn end(&mut self, end: End)
        ensures counts { self.new.counts ≡ self.old.counts }
        ensures held { self.new.held ≡ self.old.held }
    {
        self.phase = Phase::Over;
        if self.end.is_none() {
            self.end = Some(end);
        }
    }

    /// Returns how the association ended, or an empty text if it has not.
    pub(crate) fn shown_end<'a>(&self) -> Value<'a> {
        match self.end {
            Some(end) => shown(end),
            None => Value::Text(""),
        }
    }

    /// Returns the counter that the end of the association increments.
    pub(crate) fn counted_end(&self) -> CountedEnd
        ensures { result ≡ counted_where self.now.end }
    {
        match self.end {
            Some(end) => end.counted(),
            None => CountedEnd::Unknown,
        }
    }

    /// Returns how the association ended by this decision and its reply, or `None` if it continues.
    pub(crate) fn end_by(&self, decision: Decision, reply: &[u8]) -> Option<End>
        ensures counted { counted_where result ≡ counted_by decision }
        ensures aborted { IsAbortedBy decision reply.now result }
    {
        match decision {
            Decision::Nothing
            | Decision::Fragment(_)
            | Decision::DataDue
            | Decision::Replied(_, _)
            | Decision::RequestJudged(Answer::Accept) => None,
            Decision::RequestTooLong(length) => Some(End::Rejected(Rejection {
                source: rejection::SERVICE_PROVIDER_PRESENTATION,
                reason: rejection::LOCAL_LIMIT_EXCEEDED,
                about: About::Length(length),
            })),
            Decision::RequestJudged(Answer::Reject(_, source, reason)) => {
                Some(End::Rejected(self.rejection(source, reason)))
            }
            Decision::Released => Some(End::Released),
            Decision::Aborted => {
                let (source, reason) = self.last;
                Some(End::AbortedByPeer(Abort { source, reason }))
            }
            Decision::PduRefused(_, _)
            | Decision::RequestInvalid(_)
            | Decision::ContextRefused(_)
            | Decision::FragmentRefused(_, _, _)
            | Decision::BadPdv
            | Decision::Leftover(_)
            | Decision::CommandRefused(_, _) => {
                Some(End::Aborted(Abort::ending(reply), decision))
            }
        }
    }

    /// Returns the rejection with this source and reason, and the number in the request that caused
    /// it.
    fn rejection(&self, source: u8, reason: u8) -> Rejection {
        let is_of_user = source == rejection::SERVICE_USER;
        let about = match self.maximum {
            Some(maximum) if is_of_user && reason == rejection::NO_REASON_GIVEN => {
                About::Maximum(maximum)
            }
            _ => About::Nothing,
        };
        Rejection {
            source,
            reason,
            about,
        }
    }
}
