//! What a connection does in a round of its server.
ghost use Rattle.std.specs.Prelude.{◌≡◌, ◌≢◌, ◌≤◌, ◌<◌, ◌-◌, IsNone, IsSome, Some, true, false};
ghost use Rattle.std.specs.Duration.{as_nanos};
ghost use Rattle.std.specs.Time.{instant_nanos};
ghost use Rattle.acceptor.specs.declared.state.State.TheVariants as state;
ghost use Rattle.engine.specs.Held.{is_ended};
ghost use Rattle.serving.specs.Timed.{asked_at};
ghost use Rattle.serving.specs.TimeLimits.{has_lasted};

use super::Connection;
use super::turns::Turn;
use crate::stop::Stop;
use acceptor::State;
use part10::Settling;
use service::{Observer, ReadEnd};
use std::io::{Read, Write};
use std::time::{Duration, Instant};

/// The number of bytes that an association consumes in a round at most.
const ROUND: usize = 65_536;

/// How long a peer may take to close the connection after an A-ABORT, if the server is stopping, in
/// seconds.
const CLOSING_SECONDS: u64 = 2;

impl<'c, S: Read + Write, F: Settling, B: Observer> Connection<'c, S, F, B> {
    ghost use Rattle.serving.specs.Connections.{aborted_at, drafting_at, filing_of, initial_of, is_to_close_at, moments_at, origin_of, state_at, stopped_at};

    /// Runs one round: takes a turn if the socket is ready, ends an association whose deadline has
    /// passed, and, with `stop`, one that may not continue. Returns whether the connection is to be
    /// closed.
    ///
    /// `unasked`: an abort is requested only if the connection has reached its maximum duration, or
    /// the server is stopping.
    pub fn round(&mut self, now: Instant, stop: Option<Stop>) -> bool
        ensures same_origin { origin_of self.new ≡ origin_of self.old }
        ensures over { is_ended (state_at self.new) ≡ true → result ≡ true }
        ensures cause { result ≡ true → is_to_close_at F.has_pending self.new ≡ true }
        ensures unasked { IsNone stop → has_lasted (initial_of self.old).longest (initial_of self.old).opened (instant_nanos now) ≡ false
            → asked_at (moments_at self.new) ≡ asked_at (moments_at self.old) }
        ensures unstopped { IsNone stop → stopped_at self.new ≡ stopped_at self.old }
    {
        if self.is_ready && matches!(self.turn(now, ROUND), Turn::Socket | Turn::Filing) {
            self.is_ready = false;
        }
        self.expire(now);
        if self.deadlines.has_lasted(now) {
            self.abort(ReadEnd::Longest, now);
        }
        let is_done = match stop {
            Some(stop) => self.stop(stop, now),
            None => false,
        };
        is_done || self.is_over()
    }

    /// Ends the association because the server is stopping: an unfinished store may continue for
    /// the grace, any other association is aborted. Returns whether the connection is to be closed:
    /// if no A-ASSOCIATE-RQ was received, or the peer did not close the connection in time after
    /// the A-ABORT, but not while a file waits to be settled.
    #[tactic(auto, unfolding(crate::specs::TimeLimits::had_reasons))]
    pub fn stop(&mut self, stop: Stop, now: Instant) -> bool
        ensures same_origin { origin_of self.new ≡ origin_of self.old }
        ensures continues { drafting_at self.old ≡ true → instant_nanos now - instant_nanos stop.asked < as_nanos stop.grace → self.new ≡ self.old }
        ensures aborted { as_nanos stop.grace ≤ instant_nanos now - instant_nanos stop.asked → is_ended (state_at self.old) ≡ false → IsSome (aborted_at self.new) }
        ensures settled { result ≡ true → F.has_pending (filing_of self.new) ≡ false }
        ensures stopped { result ≡ true → stopped_at self.new ≡ true }
        ensures waits { (aborted : Instant) → aborted_at self.new ≡ Some aborted → state_at self.new ≢ state.Sta1 → state_at self.new ≢ state.Sta2 → result ≡ true
            → 2000000000 ≤ instant_nanos now - instant_nanos aborted }
        ensures without_store { drafting_at self.old ≡ false → is_ended (state_at self.old) ≡ false → IsSome (aborted_at self.new) }
    {
        if self.association.drafting() && stop.leaves_time(now) {
            return false;
        }
        self.is_stopped = true;
        self.abort(ReadEnd::Stopped, now);
        if self.filing.has_pending() {
            return false;
        }
        let is_closing_over = match self.aborted {
            Some(aborted) => now.duration_since(aborted) >= Duration::from_secs(CLOSING_SECONDS),
            None => false,
        };
        is_closing_over || matches!(self.association.state(), State::Sta1 | State::Sta2)
    }
}
