//! One connection, with its association.
ghost use Rattle.std.specs.Prelude.{◌≡◌, ◌≢◌, ◌≤◌, ◌<◌, ◌+◌, ◌++◌, ◌↔◌, [], length, option_map, IsNone, true, false};
ghost use Rattle.element.specs.Numbers.{IsBytes};
ghost use Rattle.engine.specs.Drafts.{IsThere};
ghost use Rattle.engine.specs.Fields.{drafting_of, fields_of, settings_in, state_of};
ghost use Rattle.engine.specs.Inputs.{inputs_of, stream_of};
ghost use Rattle.engine.specs.OutputLaws.{most_beside_answers};
ghost use Rattle.engine.specs.Turns.{Reports};
ghost use Rattle.part10.specs.Store.{Store};
ghost use Rattle.serving.specs.Capacities.{outbox_size};
ghost use Rattle.serving.specs.Rooms.{served_rooms};
ghost use Rattle.serving.specs.Settled.{SentAfter};
ghost use Rattle.serving.specs.Consumed.{HasConsumed};
ghost use Rattle.serving.specs.Timed.{Timed, asked_at};
ghost use Rattle.serving.specs.Reported.{pieces_of};
ghost use Rattle.serving.specs.TimeLimits.{had_reasons, opened_at};
ghost use Rattle.serving.specs.Wires.{ClosesWith, IsConsumedOf};

mod ending;
mod rounds;
mod settled;
mod turns;

use crate::buffered_socket::BufferedSocket;
use crate::deadlines::{Deadlines, Wait};
use crate::exchange::Exchange;
use crate::memory::{AssociationMemory, ConnectionMemory, ServedAssociation};
use crate::moment::Moment;
use element::history::History;
use engine::{Given, Report};
use negotiate::Config;
use part10::Settling;
use service::{Observer, Timeouts};
use std::snapshot::Snapshot;
use std::time::{Duration, Instant};
pub use turns::Turn;

/// A connection: a non-blocking socket, and its own association, filing, observer and deadlines.
///
/// No call blocks on the socket: a turn reads and writes as far as the socket allows, and consumes
/// a bounded number of bytes, in portions. No portion is consumed while the outbox has bytes. So
/// the outbox holds at most the output for one portion, no send fails because it is full, and no
/// more is read than the inbox holds.
///
/// While a file waits to be settled, nothing is read and nothing is sent. So at most one file
/// waits, and no byte of a reply is sent before the file of its store is settled.
///
/// Once its association has ended, or a file is lost, the connection can only be closed.
#[derive(Drop)]
pub struct Connection<'c, S, F: Settling, B: Observer> {
    socket: BufferedSocket<S>,
    association: Box<ServedAssociation<'c>>,
    filing: F,
    observer: B,
    deadlines: Deadlines,
    received: u64,
    /// Whether the socket may be readable or writable.
    is_ready: bool,
    /// Whether the connection was asked to end because the server stops.
    is_stopped: bool,
    /// Whether a file was lost while it waited to be settled.
    is_lost: bool,
    /// When an abort was requested, because the server stops or the connection reached its maximum
    /// duration.
    aborted: Option<Instant>,
    /// For contracts: the filing when the connection was opened.
    opened: Snapshot<F>,
    /// For contracts: the filing when bytes were last written to the socket.
    settled: Snapshot<F>,
    /// For contracts: the inputs that the association was given.
    given: Given,
    /// For contracts: the moment of each of these inputs.
    moments: History<Moment>,
    /// For contracts: the deadlines when the connection was opened.
    initial: Snapshot<Deadlines>,
    ghost there: { IsThere (drafting_of association.value) (F.store filing) },
    /// No send has failed.
    ghost never: { socket.outbox.failures ≡ 0 },
    ghost fits: { length socket.outbox.bytes.items < outbox_size },
    /// The outbox has room for an A-ABORT until an abort was requested.
    ghost spare: { asked_at moments ≡ [] → length socket.outbox.bytes.items + most_beside_answers < outbox_size },
    ghost bytes: { IsBytes (stream_of (inputs_of given.named)) },
    /// The deadlines have the current state of the association.
    ghost followed: { deadlines.state ≡ state_of association.value },
    /// The portions that were consumed, followed by the inbox, are what was read: no byte is
    /// dropped or consumed twice.
    ghost whole: { IsConsumedOf (stream_of (inputs_of given.named)) socket },
    /// The observer was notified of each portion that was consumed, once and in order, and of
    /// nothing else.
    ghost heard: { B.heard observer ≡ pieces_of (inputs_of given.named) },
    /// The bytes that the socket accepted, the outbox, and the files are the result of the inputs.
    ghost consumed: { ∥ HasConsumed (settings_in association.value) given.named (fields_of association.value)
        (socket.traced.written.bytes ++ socket.outbox.bytes.items) (F.store opened.value) (F.store filing) ∥₁ },
    /// The bytes that the socket accepted are the result of inputs whose files were all settled.
    ghost sent: { ∥ SentAfter (settings_in association.value) (inputs_of given.named) socket.traced.written.bytes (F.store opened.value) (F.store settled.value) ∥₁ },
    ghost rested: { socket.traced.written.bytes ≢ [] → F.has_pending settled.value ≡ false },
    /// Each input was due when it was given. The ARTIM timer started only on entry to another
    /// state, and `heard` changed only with a portion of input.
    ghost timed: { ∥ Timed initial.value (inputs_of given.named) moments deadlines ∥₁ },
    /// The input of a closed transport connection was given only if the socket was closed.
    ghost closed: { ∥ ClosesWith (inputs_of given.named) socket ∥₁ },
    ghost begins: { initial.value ≡ opened_at initial.value.artim initial.value.idle initial.value.longest initial.value.opened },
    ghost lasts: { (deadlines.longest ≡ initial.value.longest) × (deadlines.opened ≡ initial.value.opened) },
    /// At most one abort is requested.
    ghost once: { length (asked_at moments) ≤ 1 },
    ghost unasked: { IsNone aborted → asked_at moments ≡ [] },
    /// An abort was requested only for a reason.
    ghost reasons: { had_reasons is_stopped initial.value.longest initial.value.opened (asked_at moments) ≡ true },
}

/// The settings of a connection.
#[derive(Clone, Copy)]
pub struct ConnectionConfiguration<'a> {
    /// Who may associate, and what is accepted of them.
    pub config: &'a Config,
    /// The timeouts of the connection.
    pub timeouts: Timeouts,
    /// The maximum duration of the connection, if there is one.
    pub longest: Option<Duration>,
}

/// What remains of a closed connection, whose socket is of type `S`.
#[derive(Drop)]
pub struct ConnectionEnd<S, F> {
    /// The state of its association, and the traffic of its socket.
    pub exchange: Exchange<S>,
    /// For contracts: the filing when the connection was opened.
    pub opened: Snapshot<F>,
    /// For contracts: the filing when bytes were last written to the socket.
    pub settled: Snapshot<F>,
    /// For contracts: the deadlines when the connection was opened.
    pub initial: Snapshot<Deadlines>,
    /// For contracts: when each input was given.
    pub moments: History<Moment>,
    /// Whether the connection was asked to end because the server stopped.
    pub is_stopped: bool,
    /// Whether a file was lost while it waited to be settled.
    pub is_lost: bool,
    /// Whether the last file waited to be settled, or was lost before that.
    pub has_pending: bool,
    /// How long the connection lasted.
    pub lasted: Duration,
    /// The filing, without a draft. If a file of it still waits to be settled, nothing was sent for
    /// its store.
    pub filing: F,
}

impl<S: Drop, F> ConnectionEnd<S, F> {
    /// Returns the filing and the memory of the connection, with that of its association, for the
    /// next connection.
    pub fn into_parts(self, memory: AssociationMemory<'_>) -> (F, ConnectionMemory<'_>)
        ensures filing { result.0 ≡ self.filing }
    {
        (self.filing, memory.with(self.exchange.unconsumed))
    }
}

impl<'c, S, F: Settling, B: Observer> Connection<'c, S, F, B> {
    ghost use Rattle.negotiate.specs.Settings.{settings_of};
    ghost use Rattle.engine.specs.Held.{is_ended};
    ghost use Rattle.std.specs.Time.{instant_nanos};
    ghost use Rattle.serving.specs.Connections.{initial_of, inputs_at, moments_at, opening_of, origin_of, settings_at, state_at, stopped_at, times_at};
    ghost use Rattle.serving.specs.TimeLimits.{HasExpired, IsSilent, WaitsUntil};
    ghost use Rattle.std.specs.Duration.{as_nanos};

    /// Opens an association over a socket from which nothing was read, in this memory. The ARTIM
    /// timer starts at `now`. The observer is notified of the traffic.
    pub fn open(
        configuration: ConnectionConfiguration<'c>,
        parts: (S, F, B),
        memory: ConnectionMemory<'c>,
        now: Instant,
    ) -> Connection<'c, S, F, B>
        requires nothing_heard { B.heard parts.2 ≡ [] }
        ensures settings { settings_at result ≡ settings_of configuration.entry.config.now }
        ensures opening { opening_of result ≡ parts.1 }
        ensures initial { initial_of result ≡ opened_at (as_nanos configuration.entry.timeouts.artim) (as_nanos configuration.entry.timeouts.idle)
            (option_map as_nanos configuration.entry.longest) (instant_nanos now) }
        ensures no_moment { moments_at result ≡ [] }
        ensures no_input { inputs_at result ≡ [] }
        ensures unstopped { stopped_at result ≡ false }
    {
        let (socket, filing, observer) = parts;
        let deadlines = Deadlines::new(configuration.timeouts, configuration.longest, now);
        let opened = Snapshot::of(&filing);
        let settled = Snapshot::of(&filing);
        let (inbox, association) = memory.open(configuration.config);
        Connection {
            socket: BufferedSocket::new(socket, inbox),
            association,
            filing,
            observer,
            initial: Snapshot::of(&deadlines),
            deadlines,
            received: 0,
            is_ready: true,
            is_stopped: false,
            is_lost: false,
            aborted: None,
            opened,
            settled,
            given: Given::new(),
            moments: History::new(),
        }
    }

    /// Returns whether the association has ended. Then it has no draft.
    pub fn is_over(&self) -> bool
        ensures over { result ≡ is_ended (state_at self.now) }
    {
        self.association.is_ended()
    }

    /// Returns whether the socket may be readable or writable.
    pub fn is_ready(&self) -> bool {
        self.is_ready
    }

    /// Marks the connection as ready: the socket may be readable or writable.
    pub fn wake(&mut self)
        ensures same_origin { origin_of self.new ≡ origin_of self.old }
    {
        self.is_ready = true;
    }

    /// Returns how much longer the server waits for the peer: until the ARTIM timer expires while
    /// that runs, else until the peer has neither sent nor accepted bytes for the idle time.
    pub fn wait(&self, now: Instant) -> Wait
        ensures until { WaitsUntil (times_at self.now) (instant_nanos now) (times_at self.now).started result }
        ensures expired { (result ≡ Wait.Expired) ↔ HasExpired (times_at self.now) (instant_nanos now) (times_at self.now).started }
        ensures silent { (result ≡ Wait.Silent) ↔ IsSilent (times_at self.now) (instant_nanos now) (times_at self.now).started }
    {
        self.deadlines.wait(now)
    }

    /// Returns how long the connection needs no round, at most `most`: zero if it is ready or a
    /// file waits to be settled, else the time until its next deadline.
    pub fn remaining(&self, now: Instant, most: Duration) -> Duration
        ensures { as_nanos result ≤ as_nanos most }
    {
        if self.is_ready || self.filing.has_pending() {
            return Duration::ZERO;
        }
        self.deadlines.remaining(now, self.aborted.is_some(), most)
    }
}

/// Returns the report of an association, as `Association::report` does.
fn report(association: &Box<ServedAssociation<'_>>) -> Report
    ensures reports { (store : Store) → Reports served_rooms (settings_in association.now.value) (fields_of association.now.value) store result }
{
    association.report()
}

impl<'c, S: Drop, F: Settling, B: Observer> Connection<'c, S, F, B> {
    ghost use Rattle.engine.specs.Held.{is_ended};
    ghost use Rattle.engine.specs.declared.report.Standing.TheVariants as standing;
    ghost use Rattle.serving.specs.Causes.{IsCaused};
    ghost use Rattle.serving.specs.Connections.{initial_of, inputs_at, is_to_close_at, moments_at, opening_of, settings_at, state_at, stopped_at};
    ghost use Rattle.serving.specs.Timed.{GivenInTime};
    ghost use Rattle.pdu.specs.Pieces.{joined};
    ghost use Rattle.serving.specs.Served.{IsServed};
    ghost use Rattle.serving.specs.Wires.{unconsumed_in};
    ghost use Rattle.serving.specs.Settled.{SettlesFirst, sent_by};

    /// Closes the connection in any state, and drops its draft, if there is one. Returns what
    /// remains of it, its observer, and the memory of its association.
    ///
    /// `cause`: if it was to be closed, its end has the cause: its association has ended, a file was
    /// lost, or the server stops and no file waits to be settled.
    ///
    /// `served`: from the bytes that were read and consumed, the definitions give the bytes that the
    /// socket accepted followed by the outbox, the files, and the state of the association.
    /// `opened`: the filing over which the connection was opened is the recorded one.
    ///
    /// `ended`: if the association has ended, its report says so.
    ///
    /// `reported`: the portions of which the observer was notified, followed by the inbox, are the
    /// bytes that were read: none is repeated or left out. `heard`: they are the portions of the
    /// inputs.
    ///
    /// `sent`, `rested`: the bytes that the socket accepted are the beginning of what the
    /// definitions give for the first of the same inputs. When the last of them was written, the
    /// filing had the files of these inputs, and none waited to be settled.
    ///
    /// `in_time`: each input was due when it was given: an expiry once the ARTIM timer had run for
    /// its duration, and an abort once the peer was silent for the idle time, or by request.
    /// `once`: at most one abort was requested. `reasons`: it was requested because the server was
    /// stopping, or the connection had reached its maximum duration.
    pub fn close(self, now: Instant) -> (ConnectionEnd<S, F>, B, AssociationMemory<'c>)
        ensures cause { is_to_close_at F.has_pending self.entry ≡ true → IsCaused result.0 }
        ensures served { ∥ IsServed (settings_at self.entry) result.0.exchange (F.store (opening_of self.entry)) (F.store result.0.filing) ∥₁ }
        ensures opened { result.0.opened.value ≡ opening_of self.entry }
        ensures reported { joined (B.heard result.1) ++ unconsumed_in result.0.exchange.unconsumed ≡ result.0.exchange.read.trace.bytes }
        ensures ended { is_ended (state_at self.entry) ≡ true → result.0.exchange.report.standing ≡ standing.Ended }
        ensures sent { ∥ SettlesFirst (settings_at self.entry) result.0.exchange (F.store (opening_of self.entry)) (F.store result.0.settled.value) (F.store result.0.filing) ∥₁ }
        ensures rested { sent_by result.0.exchange ≢ [] → F.has_pending result.0.settled.value ≡ false }
        ensures in_time { ∥ GivenInTime (settings_at self.entry) result.0.exchange (F.store (opening_of self.entry)) (F.store result.0.filing) (initial_of self.entry) result.0.moments ∥₁ }
        ensures moments { result.0.moments ≡ moments_at self.entry }
        ensures initial { result.0.initial.value ≡ initial_of self.entry }
        ensures begins { initial_of self.entry ≡ opened_at (initial_of self.entry).artim (initial_of self.entry).idle (initial_of self.entry).longest (initial_of self.entry).opened }
        ensures once { length (asked_at result.0.moments) ≤ 1 }
        ensures stopped { result.0.is_stopped ≡ stopped_at self.entry }
        ensures reasons { had_reasons (stopped_at self.entry) (initial_of self.entry).longest (initial_of self.entry).opened (asked_at result.0.moments) ≡ true }
        ensures heard { B.heard result.1 ≡ pieces_of (inputs_at self.entry) }
    {
        let mut filing = self.filing;
        let has_pending = filing.has_pending();
        filing.discard();
        let report = report(&self.association);
        let (traces, unconsumed, unsent) = self.socket.end();
        let received = self
            .received
            .saturating_add(unconsumed.pending().len() as u64);
        let end = ConnectionEnd {
            exchange: Exchange {
                report,
                received,
                read: traces.read,
                sent: traces.sent,
                unconsumed,
                unsent,
            },
            opened: self.opened,
            settled: self.settled,
            initial: self.initial,
            moments: self.moments,
            is_stopped: self.is_stopped,
            is_lost: self.is_lost,
            has_pending,
            lasted: self.deadlines.lasted(now),
            filing,
        };
        (end, self.observer, AssociationMemory::of(self.association))
    }
}
