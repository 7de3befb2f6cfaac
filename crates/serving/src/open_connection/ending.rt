//! How a connection ends its association: by request, or because a deadline has passed.
ghost use Rattle.std.specs.Prelude.{◌≡◌, ◌≢◌, ◌<◌, ◌+◌, ◌++◌, ◌||◌, ◌∷◌, [], length, IsNone, IsSome, true, false};
ghost use Rattle.engine.specs.Inputs.{Expiry, UserAbort};
ghost use Rattle.engine.specs.OutputLaws.{most_beside_answers};
ghost use Rattle.serving.specs.Capacities.{outbox_size};
ghost use Rattle.serving.specs.Own.{own_of};
ghost use Rattle.serving.specs.Timed.{asked_at, with_asked};
ghost use Rattle.serving.specs.Reported.{pieces_of};
ghost use Rattle.serving.specs.TimeLimits.{HasExpired, IsSilent, has_lasted};
ghost use Rattle.std.specs.Time.{instant_nanos};

use super::Connection;
use super::turns::Flush;
use crate::deadlines::Wait;
use engine::Input;
use part10::Settling;
use service::{Observer, ReadEnd};
use std::io::{Error, ErrorKind, Write};
use std::time::Instant;

impl<'c, S: Write, F: Settling, B: Observer> Connection<'c, S, F, B> {
    ghost use Rattle.engine.specs.Held.{is_ended};
    ghost use Rattle.serving.specs.Connections.{aborted_at, filing_of, initial_of, inputs_at, interventions_in, moments_at, origin_of, refusals_at, socket_of, state_at, stopped_at, times_at, waiting_at};

    /// Aborts the association by request, unless it has ended or was aborted by request before. An
    /// A-ABORT is sent if the standard provides for one, and the ARTIM timer starts. The observer
    /// is notified of `why`.
    ///
    /// `aborts`: one user abort is added to the inputs of the server's own. `once`: a second call
    /// does nothing.
    ///
    /// `quiet`: while a file waits to be settled, nothing is sent: the A-ABORT follows the reply to
    /// its store.
    pub(super) fn abort(&mut self, why: ReadEnd, now: Instant)
        requires reason { (stopped_at self.old || has_lasted (initial_of self.old).longest (initial_of self.old).opened (instant_nanos now)) ≡ true }
        ensures same_origin { origin_of self.new ≡ origin_of self.old }
        ensures quiet { F.has_pending (filing_of self.old) ≡ true → socket_of self.new ≡ socket_of self.old }
        ensures over { is_ended (state_at self.old) ≡ true → self.new ≡ self.old }
        ensures once { IsSome (aborted_at self.old) → self.new ≡ self.old }
        ensures aborted { is_ended (state_at self.old) ≡ false → IsSome (aborted_at self.new) }
        ensures aborts { is_ended (state_at self.old) ≡ false → IsNone (aborted_at self.old)
            → own_of (inputs_at self.new) ≡ own_of (inputs_at self.old) ++ UserAbort ∷ [] }
        ensures asked { asked_at (moments_at self.new) ≢ asked_at (moments_at self.old) → asked_at (moments_at self.new) ≡ asked_at (moments_at self.old) ++ instant_nanos now ∷ [] }
        ensures same_pieces { pieces_of (inputs_at self.new) ≡ pieces_of (inputs_at self.old) }
        ensures unstopped { stopped_at self.new ≡ stopped_at self.old }
    {
        if self.is_over() || self.aborted.is_some() {
            return;
        }
        self.aborted = Some(now);
        self.is_ready = true;
        self.abort_by(true, now, why);
    }

    /// Aborts the association, by request or because the peer was silent.
    fn abort_by(&mut self, is_asked: bool, now: Instant, why: ReadEnd)
        requires open { is_ended (state_at self.old) ≡ false }
        requires room { length (waiting_at self.old) + most_beside_answers < outbox_size }
        requires silent { is_asked ≡ false → IsSilent (times_at self.old) (instant_nanos now) (times_at self.old).started }
        requires nothing_waits { is_asked ≡ false → waiting_at self.old ≡ [] }
        requires first { is_asked ≡ true → asked_at (moments_at self.old) ≡ [] }
        requires noted { is_asked ≡ true → IsSome (aborted_at self.old) }
        requires reason { is_asked ≡ true → (stopped_at self.old || has_lasted (initial_of self.old).longest (initial_of self.old).opened (instant_nanos now)) ≡ true }
        ensures same_origin { origin_of self.new ≡ origin_of self.old }
        ensures quiet { F.has_pending (filing_of self.old) ≡ true → socket_of self.new ≡ socket_of self.old }
        ensures aborts { own_of (inputs_at self.new) ≡ own_of (inputs_at self.old) ++ UserAbort ∷ [] }
        ensures asked { asked_at (moments_at self.new) ≡ asked_at (moments_at self.old) ++ with_asked is_asked (instant_nanos now) [] }
        ensures unasked { is_asked ≡ false → asked_at (moments_at self.new) ≡ asked_at (moments_at self.old) }
        ensures same_pieces { pieces_of (inputs_at self.new) ≡ pieces_of (inputs_at self.old) }
        ensures same_flags { (aborted_at self.new ≡ aborted_at self.old) × (stopped_at self.new ≡ stopped_at self.old) }
    {
        let waited = self.filing.has_pending();
        let before = self.socket.outbox.pending().len();
        self.give(Input::LocalAbort, is_asked, now);
        let written = self.socket.outbox.pending().len().saturating_sub(before);
        self.observer.read_ended(why, written);
        if !waited && !self.filing.has_pending() {
            self.flush(now);
        }
    }

    /// Closes a connection whose peer accepts no bytes, without an A-ABORT, which it would not
    /// accept either.
    fn give_up(&mut self, now: Instant)
        requires open { is_ended (state_at self.old) ≡ false }
        requires some { waiting_at self.old ≢ [] }
        requires refused { 0 < refusals_at self.old }
        ensures same_origin { origin_of self.new ≡ origin_of self.old }
        ensures peers { interventions_in self.new ≡ interventions_in self.old }
        ensures same_pieces { pieces_of (inputs_at self.new) ≡ pieces_of (inputs_at self.old) }
    {
        self.observer.send_failed(&Error::from(ErrorKind::TimedOut));
        self.give(Input::Closed, false, now);
    }

    /// Ends an association whose peer was silent for the idle time. If the outbox is empty, the
    /// association is aborted. If not, the outbox is written once more, and the connection is
    /// closed if the peer accepts none of it.
    fn end_silence(&mut self, now: Instant)
        requires open { is_ended (state_at self.old) ≡ false }
        requires settled { F.has_pending (filing_of self.old) ≡ false }
        requires silent { IsSilent (times_at self.old) (instant_nanos now) (times_at self.old).started }
        ensures same_origin { origin_of self.new ≡ origin_of self.old }
        ensures aborts { waiting_at self.old ≡ [] → own_of (inputs_at self.new) ≡ own_of (inputs_at self.old) ++ UserAbort ∷ [] }
        ensures spares { waiting_at self.old ≢ [] → own_of (inputs_at self.new) ≡ own_of (inputs_at self.old) }
        ensures same_pieces { pieces_of (inputs_at self.new) ≡ pieces_of (inputs_at self.old) }
        ensures unasked { interventions_in self.new ≡ record (interventions_in self.old) { own = own_of (inputs_at self.new) } }
    {
        let has_pending = self.socket.outbox.pending().len();
        if has_pending == 0 {
            self.abort_by(false, now, ReadEnd::Idle);
            return;
        }
        match self.flush(now) {
            Flush::Blocked if self.socket.outbox.pending().len() == has_pending => {
                self.give_up(now);
            }
            _ => {}
        }
    }

    /// Ends the association if a deadline of its peer has passed: with an expiry if the ARTIM timer
    /// has expired; if the peer was silent for the idle time, with an abort, or by closing the
    /// connection if the peer does not accept the outbox.
    ///
    /// `quiet`: while a file waits to be settled, nothing is done: the server does not wait for the
    /// peer then. `has_pending`: nothing is done before the deadline.
    ///
    /// `expires`, `aborts`, `spares`: the expiry is the one input of an expired timer, and the
    /// abort of a silent peer, unless the outbox has bytes.
    pub fn expire(&mut self, now: Instant)
        ensures same_origin { origin_of self.new ≡ origin_of self.old }
        ensures quiet { F.has_pending (filing_of self.old) ≡ true → self.new ≡ self.old }
        ensures over { is_ended (state_at self.old) ≡ true → self.new ≡ self.old }
        ensures has_pending { (HasExpired (times_at self.old) (instant_nanos now) (times_at self.old).started → ⊥)
            → (IsSilent (times_at self.old) (instant_nanos now) (times_at self.old).started → ⊥) → self.new ≡ self.old }
        ensures expires { is_ended (state_at self.old) ≡ false → F.has_pending (filing_of self.old) ≡ false
            → HasExpired (times_at self.old) (instant_nanos now) (times_at self.old).started → inputs_at self.new ≡ inputs_at self.old ++ Expiry ∷ [] }
        ensures aborts { is_ended (state_at self.old) ≡ false → F.has_pending (filing_of self.old) ≡ false → waiting_at self.old ≡ []
            → IsSilent (times_at self.old) (instant_nanos now) (times_at self.old).started → own_of (inputs_at self.new) ≡ own_of (inputs_at self.old) ++ UserAbort ∷ [] }
        ensures spares { waiting_at self.old ≢ []
            → IsSilent (times_at self.old) (instant_nanos now) (times_at self.old).started → own_of (inputs_at self.new) ≡ own_of (inputs_at self.old) }
        ensures same_pieces { pieces_of (inputs_at self.new) ≡ pieces_of (inputs_at self.old) }
        ensures unasked { interventions_in self.new ≡ record (interventions_in self.old) { own = own_of (inputs_at self.new) } }
    {
        if self.is_over() || self.filing.has_pending() {
            return;
        }
        match self.deadlines.wait(now) {
            Wait::Remaining(_) => {}
            Wait::Expired => {
                self.is_ready = true;
                self.give(Input::Expired, false, now);
                self.observer.read_ended(ReadEnd::Timer, 0);
            }
            Wait::Silent => {
                self.is_ready = true;
                self.end_silence(now);
            }
        }
    }
}
