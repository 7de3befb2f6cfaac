//! What a connection does in its turn.
ghost use Rattle.std.specs.Prelude.{◌≡◌, ◌≢◌, ◌≤◌, ◌<◌, ◌+◌, ◌++◌, ◌||◌, ◌∷◌, ◌↔◌, [], length, IsSome, Some, true, false};
ghost use Rattle.element.specs.Numbers.{IsBytes};
ghost use Rattle.engine.specs.Devices.{devices};
ghost use Rattle.engine.specs.Drafts.{IsThere};
ghost use Rattle.engine.specs.Fields.{drafting_of, settings_in};
ghost use Rattle.engine.specs.Inputs.{Bytes, Expiry, UserAbort, input_of};
ghost use Rattle.engine.specs.MovesOn.{EndsWithPart, MovesOn};
ghost use Rattle.engine.specs.OutputLaws.{most_beside_answers};
ghost use Rattle.engine.specs.declared.source.Input.TheVariants as kind;
ghost use Rattle.serving.specs.Capacities.{outbox_size};
ghost use Rattle.serving.specs.Own.{own_of};
ghost use Rattle.serving.specs.Timed.{asked_at, with_asked};
ghost use Rattle.serving.specs.Reported.{TimelineContinues, KeepsDecision, pieces_of};
ghost use Rattle.serving.specs.TimeLimits.{HasExpired, IsSilent, has_lasted};
ghost use Rattle.std.specs.Time.{instant_nanos};

use super::Connection;
use crate::buffered_socket::Portion;
use crate::inbox::Arrival;
use crate::memory::ServedAssociation;
use crate::moment::Moment;
use engine::Input;
use part10::{Filing, Settling};
use pdu::Wire;
use service::Observer;
use std::io::{Read, Write};
use std::snapshot::Snapshot;
use std::time::Instant;

/// The maximum number of portions that an association consumes in a turn: about 20 fragments, each
/// in a PDU of its own.
const MOST_PORTIONS: usize = 64;

/// Does nothing. Its contract states that the elements of a slice of `u8` are bytes.
fn is_of_bytes(piece: &[u8])
    ensures { IsBytes piece.now }
{
    // The prover uses the guarantee of a variable's type only where the variable is named.
    let _piece = piece;
}

/// How far the outbox was written.
#[derive(Clone, Copy, Debug, PartialEq, Eq)]
pub(super) enum Flush {
    /// The outbox is empty.
    All,
    /// The outbox is not empty: the socket accepts no more bytes now.
    Blocked,
    /// The association has ended, before or in this call, so nothing more is written.
    Over,
}

/// What a connection waits for after its turn.
#[derive(Clone, Copy, Debug, PartialEq, Eq)]
pub enum Turn {
    /// Its next turn: the socket or the inbox may have more.
    Next,
    /// The socket, which has nothing to read or does not accept bytes.
    Socket,
    /// The last file of the filing, which waits to be settled.
    Filing,
    /// Nothing: the association has ended.
    Over,
}

/// Passes an input to an association, as `Association::take` does.
fn take<W: Wire, F: Filing>(
    association: &mut Box<ServedAssociation<'_>>,
    input: Input,
    piece: &[u8],
    wire: &mut W,
    filing: &mut F,
)
    requires draft { IsThere (drafting_of association.old.value) (F.store filing.old) }
    ensures draft { IsThere (drafting_of association.new.value) (F.store filing.new) }
    ensures settings { settings_in association.new.value ≡ settings_in association.old.value }
    ensures moved { MovesOn association.old.value association.new.value (input_of input piece.now)
        (devices (W.line wire.old) (F.store filing.old)) (devices (W.line wire.new) (F.store filing.new)) }
{
    association.take(input, piece, wire, filing);
}

/// Passes a portion of input to an association. `limit` is the number of bytes that complete a
/// section of a PDU. Returns whether the portion completes it.
///
/// `whole`: if so, the portion extends the timeline. `idle`: if not, the last decision stays. So a
/// decision is reported with the portion that completes a section.
fn take_portion<W: Wire, F: Filing>(
    association: &mut Box<ServedAssociation<'_>>,
    piece: &[u8],
    limit: usize,
    wire: &mut W,
    filing: &mut F,
) -> bool
    requires draft { IsThere (drafting_of association.old.value) (F.store filing.old) }
    requires ends { EndsWithPart association.old.value limit }
    requires within { length piece.now ≤ limit }
    ensures draft { IsThere (drafting_of association.new.value) (F.store filing.new) }
    ensures settings { settings_in association.new.value ≡ settings_in association.old.value }
    ensures moved { MovesOn association.old.value association.new.value (Bytes piece.now)
        (devices (W.line wire.old) (F.store filing.old)) (devices (W.line wire.new) (F.store filing.new)) }
    ensures whole { result ≡ true → TimelineContinues association.old.value piece.now (F.store filing.old) }
    ensures idle { result ≡ false → KeepsDecision association.old.value association.new.value (F.store filing.old) }
{
    take(association, Input::Piece, piece, wire, filing);
    piece.len() == limit
}

impl<'c, S, F: Settling, B: Observer> Connection<'c, S, F, B> {
    ghost use Rattle.engine.specs.Held.{is_ended};
    ghost use Rattle.serving.specs.Connections.{aborted_at, initial_of, inputs_at, IsClosedAt, moments_at, origin_of, socket_of, state_at, stopped_at, times_at, waiting_at};

    /// Passes an input without bytes to the association: the close of the transport connection
    /// after the socket was closed, the expiry of the ARTIM timer, or an abort, by request or
    /// because the peer was silent.
    pub(super) fn give(&mut self, input: Input, is_asked: bool, now: Instant)
        requires open { is_ended (state_at self.old) ≡ false }
        requires no_piece { input ≢ kind.Piece }
        requires room { input ≡ kind.LocalAbort → length (waiting_at self.old) + most_beside_answers < outbox_size }
        requires closed { input ≡ kind.Closed → ∥ IsClosedAt self.old ∥₁ }
        requires expired { input ≡ kind.Expired → HasExpired (times_at self.old) (instant_nanos now) (times_at self.old).started }
        requires silent { input ≡ kind.LocalAbort → is_asked ≡ false → IsSilent (times_at self.old) (instant_nanos now) (times_at self.old).started }
        requires nothing_waits { input ≡ kind.LocalAbort → is_asked ≡ false → waiting_at self.old ≡ [] }
        requires first { is_asked ≡ true → asked_at (moments_at self.old) ≡ [] }
        requires noted { is_asked ≡ true → IsSome (aborted_at self.old) }
        requires reason { is_asked ≡ true → (stopped_at self.old || has_lasted (initial_of self.old).longest (initial_of self.old).opened (instant_nanos now)) ≡ true }
        ensures same_origin { origin_of self.new ≡ origin_of self.old }
        ensures quiet { socket_of self.new ≡ socket_of self.old }
        ensures given { inputs_at self.new ≡ inputs_at self.old ++ input_of input [] ∷ [] }
        ensures closes { input ≡ kind.Closed → own_of (inputs_at self.new) ≡ own_of (inputs_at self.old) }
        ensures expires { input ≡ kind.Expired → own_of (inputs_at self.new) ≡ own_of (inputs_at self.old) ++ Expiry ∷ [] }
        ensures aborts { input ≡ kind.LocalAbort → own_of (inputs_at self.new) ≡ own_of (inputs_at self.old) ++ UserAbort ∷ [] }
        ensures same_pieces { pieces_of (inputs_at self.new) ≡ pieces_of (inputs_at self.old) }
        ensures asked { asked_at (moments_at self.new) ≡ asked_at (moments_at self.old) ++ with_asked is_asked (instant_nanos now) [] }
        ensures unasked { is_asked ≡ false → asked_at (moments_at self.new) ≡ asked_at (moments_at self.old) }
        ensures same_flags { (aborted_at self.new ≡ aborted_at self.old) × (stopped_at self.new ≡ stopped_at self.old) }
    {
        self.given.push(&input, &[]);
        take(
            &mut self.association,
            input,
            &[],
            &mut self.socket.outbox,
            &mut self.filing,
        );
        self.deadlines.follow(now, self.association.state());
        let remaining = Snapshot::of(&self.deadlines);
        self.moments.push(&Moment {
            is_asked,
            remaining,
            now,
        });
    }
}

impl<'c, S: Write, F: Settling, B: Observer> Connection<'c, S, F, B> {
    ghost use Rattle.engine.specs.Held.{is_ended};
    ghost use Rattle.serving.specs.Connections.{filing_of, inputs_at, interventions_in, origin_of, refusals_at, state_at, times_at, waiting_at};

    /// Writes the outbox, as far as the socket accepts it, unless the association has ended. If the
    /// socket fails, the association is passed the close of the transport connection. No file may
    /// wait to be settled.
    ///
    /// `consumed`, `same_times`: the silence of the peer begins anew exactly if the socket accepted
    /// bytes.
    pub(super) fn flush(&mut self, now: Instant) -> Flush
        requires settled { F.has_pending (filing_of self.old) ≡ false }
        ensures same_origin { origin_of self.new ≡ origin_of self.old }
        ensures open { result ≢ Flush.Over → is_ended (state_at self.new) ≡ false }
        ensures all { result ≡ Flush.All → waiting_at self.new ≡ [] }
        ensures blocked { result ≡ Flush.Blocked → waiting_at self.new ≢ [] }
        ensures refused { result ≡ Flush.Blocked → 0 < refusals_at self.new }
        ensures consumed { result ≢ Flush.Over → length (waiting_at self.new) < length (waiting_at self.old) → (times_at self.old).heard ≤ instant_nanos now
            → times_at self.new ≡ record (times_at self.old) { consumed = Some (instant_nanos now) } }
        ensures same_times { result ≢ Flush.Over → length (waiting_at self.old) ≤ length (waiting_at self.new) → times_at self.new ≡ times_at self.old }
        ensures peers { interventions_in self.new ≡ interventions_in self.old }
        ensures same_pieces { pieces_of (inputs_at self.new) ≡ pieces_of (inputs_at self.old) }
    {
        if self.is_over() {
            return Flush::Over;
        }
        let before = self.socket.outbox.pending().len();
        self.settled = Snapshot::of(&self.filing);
        match self.socket.flush(&self.observer) {
            Ok(all) => {
                if self.socket.outbox.pending().len() < before {
                    self.deadlines.note_consumed(now);
                }
                if all { Flush::All } else { Flush::Blocked }
            }
            Err(error) => {
                self.observer.send_failed(&error);
                self.give(Input::Closed, false, now);
                Flush::Over
            }
        }
    }
}

impl<'c, S: Read + Write, F: Settling, B: Observer> Connection<'c, S, F, B> {
    ghost use Rattle.engine.specs.Held.{is_ended};
    ghost use Rattle.serving.specs.Connections.{filing_of, interventions_in, origin_of, state_at, unconsumed_at, waiting_at};

    /// Reads from the socket if necessary, and passes a portion of the inbox to the association, at
    /// most `most` bytes.
    fn receive(&mut self, now: Instant, most: usize) -> Arrival
        requires open { is_ended (state_at self.old) ≡ false }
        requires flushed { waiting_at self.old ≡ [] }
        requires some { 0 < most }
        ensures same_origin { origin_of self.new ≡ origin_of self.old }
        ensures nothing { result ≡ Arrival.Nothing → unconsumed_at self.new ≡ [] }
        ensures peers { interventions_in self.new ≡ interventions_in self.old }
    {
        let limit = self.association.input_limit();
        let arrival = self.socket.receive(limit.min(most));
        match arrival {
            Arrival::Nothing => {}
            Arrival::Bytes(len) => {
                let piece = &self.socket.inbox.pending()[..len];
                is_of_bytes(piece);
                self.received = self.received.saturating_add(len as u64);
                self.given.push(&Input::Piece, piece);
                let is_complete = take_portion(
                    &mut self.association,
                    piece,
                    limit,
                    &mut self.socket.outbox,
                    &mut self.filing,
                );
                let portion = Portion {
                    len,
                    is_complete,
                    is_held: self.filing.has_pending(),
                };
                let consumed = self.socket.consumed(portion, &self.association);
                self.observer.consumed(&consumed);
                self.socket.inbox.drop_front(len);
                self.deadlines.hear(now);
                self.deadlines.follow(now, self.association.state());
                let remaining = Snapshot::of(&self.deadlines);
                self.moments.push(&Moment {
                    is_asked: false,
                    remaining,
                    now,
                });
            }
            Arrival::End(end) => {
                self.give(Input::Closed, false, now);
                self.observer.read_ended(end, 0);
            }
        }
        arrival
    }

    /// Writes the outbox and passes the input to the association, portion by portion, at most
    /// `most` bytes and [`MOST_PORTIONS`]. Stops after a reply if the inbox has more, and when a
    /// file waits to be settled. Returns whether the connection waits for its socket.
    fn advance(&mut self, now: Instant, most: usize) -> bool
        requires settled { F.has_pending (filing_of self.old) ≡ false }
        ensures same_origin { origin_of self.new ≡ origin_of self.old }
        ensures rests { result ≡ true → waiting_at self.new ≡ [] → unconsumed_at self.new ≡ [] }
        ensures peers { interventions_in self.new ≡ interventions_in self.old }
    {
        let mut remaining = most;
        let mut has_answered = false;
        for _ in 0..MOST_PORTIONS {
            match self.flush(now) {
                Flush::All => {}
                Flush::Blocked => return true,
                Flush::Over => return false,
            }
            let has_more = !self.socket.inbox.pending().is_empty();
            if has_answered && has_more
                || remaining == 0
                || remaining < self.association.input_limit().min(most)
            {
                return false;
            }
            match self.receive(now, remaining) {
                Arrival::Bytes(len) => remaining = remaining.saturating_sub(len),
                Arrival::Nothing => return true,
                Arrival::End(_) => return false,
            }
            if self.has_pending() {
                return false;
            }
            has_answered = has_answered || !self.socket.outbox.pending().is_empty();
        }
        false
    }

    /// Takes a turn: writes the outbox, reads, passes the input to the association, and writes its
    /// replies. A turn ends after `most` bytes or [`MOST_PORTIONS`], and after a reply if the inbox
    /// has more, so that no peer delays the others. A portion for which too few of the `most` bytes
    /// remain is left for the next turn, so that no fragment is split.
    ///
    /// `over`: the result is `Over` exactly if the association has ended.
    ///
    /// `rests`: the result is `Socket` only if the outbox has bytes, or the inbox is empty.
    ///
    /// `has_pending`: the result is `Filing` exactly if a file waits to be settled and the association
    /// has not ended. `quiet`: if a file waited before, nothing is done.
    ///
    /// `peers`: the association is passed portions of input and the close of the transport
    /// connection, and no input of the server's own.
    pub fn turn(&mut self, now: Instant, most: usize) -> Turn
        ensures same_origin { origin_of self.new ≡ origin_of self.old }
        ensures over { (result ≡ Turn.Over) ↔ (is_ended (state_at self.new) ≡ true) }
        ensures rests { result ≡ Turn.Socket → waiting_at self.new ≡ [] → unconsumed_at self.new ≡ [] }
        ensures has_pending { (result ≡ Turn.Filing) ↔ ((is_ended (state_at self.new) ≡ false) × (F.has_pending (filing_of self.new) ≡ true)) }
        ensures quiet { F.has_pending (filing_of self.old) ≡ true → self.new ≡ self.old }
        ensures peers { interventions_in self.new ≡ interventions_in self.old }
    {
        if self.is_over() {
            return Turn::Over;
        }
        let rests = !self.filing.has_pending() && self.advance(now, most);
        if self.is_over() {
            return Turn::Over;
        }
        if self.filing.has_pending() {
            return Turn::Filing;
        }
        if rests { Turn::Socket } else { Turn::Next }
    }
}
