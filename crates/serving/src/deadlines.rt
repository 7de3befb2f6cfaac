//! The deadlines of a connection: how long the server waits for its peer, and how long the
//! connection may last.
ghost use Rattle.std.specs.Prelude.{◌≡◌, ◌≢◌, ◌≤◌, ◌⊎◌, ◌↔◌, ◌-◌, None, Some, option_map};
ghost use Rattle.std.specs.Duration.{as_nanos};
ghost use Rattle.std.specs.Time.{instant_nanos};
ghost use Rattle.acceptor.specs.Effect.{timer_runs};
ghost use Rattle.serving.specs.TimeLimits.{HasExpired, IsSilent, IsSince, Remaining, WaitsUntil, has_lasted, opened_at, started_anew};

use acceptor::State;
use service::Timeouts;
use std::marker::Model;
use std::time::{Duration, Instant};

/// How much longer the server waits for a peer.
#[derive(Clone, Copy, Debug, PartialEq, Eq)]
pub enum Wait {
    /// For this duration, which is not zero.
    Remaining(Duration),
    /// No longer: the ARTIM timer has expired.
    Expired,
    /// No longer: the peer neither sent nor accepted bytes for the idle time.
    Silent,
}

/// The deadlines of one connection: of its ARTIM timer, of the silence of its peer, and of its
/// maximum duration.
///
/// It reads no clock: each call is passed the time.
#[derive(Drop)]
pub struct Deadlines {
    artim: Duration,
    idle: Duration,
    /// The maximum duration of the connection, if there is one.
    longest: Option<Duration>,
    /// When the association was opened.
    opened: Instant,
    /// The state of the association after its last input.
    state: State,
    started: Option<Instant>,
    /// When the last input was received, or else the association was opened.
    heard: Instant,
    /// When the peer last accepted bytes, if that was after `heard`.
    consumed: Option<Instant>,
}

impl Model for Deadlines {
    ghost use Rattle.std.specs.Prelude.{option_map};
    ghost use Rattle.std.specs.Duration.{as_nanos};
    ghost use Rattle.std.specs.Time.{instant_nanos};
    ghost use Rattle.serving.specs.TimeLimits.{IsSince, TimeLimits};

    ghost Value = { TimeLimits };

    ghost view = { λ d. record {
      artim = as_nanos d.artim;
      idle = as_nanos d.idle;
      longest = option_map as_nanos d.longest;
      opened = instant_nanos d.opened;
      state = d.state;
      started = option_map (λ t. instant_nanos t) d.started;
      heard = instant_nanos d.heard;
      consumed = option_map (λ t. instant_nanos t) d.consumed;
    } };

    ghost invariant = { λ d. IsSince (option_map (λ t. instant_nanos t) d.consumed) (instant_nanos d.heard) };
}

/// Returns what remains of the duration `whole` since `from`, or `over` if nothing does.
fn remaining(whole: Duration, from: Instant, now: Instant, over: Wait) -> Wait
    requires over { over ≡ Wait.Expired ⊎ over ≡ Wait.Silent }
    ensures { Remaining over (as_nanos whole - (instant_nanos now - instant_nanos from)) result }
{
    match whole.checked_sub(now.duration_since(from)) {
        Some(time) if !time.is_zero() => Wait::Remaining(time),
        _ => over,
    }
}

impl Deadlines {
    /// Creates the deadlines of a connection whose association is opened at `now`, which starts the
    /// ARTIM timer.
    pub fn new(timeouts: Timeouts, longest: Option<Duration>, now: Instant) -> Deadlines
        ensures { result ≡ opened_at (as_nanos timeouts.artim) (as_nanos timeouts.idle) (option_map as_nanos longest) (instant_nanos now) }
    {
        Deadlines {
            artim: timeouts.artim,
            idle: timeouts.idle,
            longest,
            opened: now,
            state: State::Sta2,
            started: Some(now),
            heard: now,
            consumed: None,
        }
    }

    /// Records that the peer sent bytes at this instant.
    pub fn hear(&mut self, now: Instant)
        ensures { self.new ≡ record self.old { heard = instant_nanos now; consumed = None } }
    {
        self.heard = now;
        self.consumed = None;
    }

    /// Records that the peer accepted bytes at this instant, unless it sent some later.
    pub fn note_consumed(&mut self, now: Instant)
        ensures only { self.new ≡ record self.old { consumed = self.new.consumed } }
        ensures consumed { self.old.heard ≤ instant_nanos now → self.new.consumed ≡ Some (instant_nanos now) }
    {
        if now.checked_duration_since(self.heard).is_some() {
            self.consumed = Some(now);
        }
    }

    /// Records the state of the association after an input. A new state starts or stops the ARTIM
    /// timer.
    ///
    /// By the acceptor's table, an action starts the timer exactly if it leads to another state, in
    /// which the timer runs (`starts_are_seen` of `acceptor::laws`).
    pub fn follow(&mut self, now: Instant, state: State)
        ensures stays { state ≡ self.old.state → self.new ≡ self.old }
        ensures state { self.new.state ≡ state }
        ensures lasting { (self.new.artim ≡ self.old.artim) × (self.new.idle ≡ self.old.idle) }
        ensures bound { (self.new.longest ≡ self.old.longest) × (self.new.opened ≡ self.old.opened) }
        ensures same_peer { (self.new.heard ≡ self.old.heard) × (self.new.consumed ≡ self.old.consumed) }
        ensures since { IsSince self.new.consumed self.new.heard }
        ensures anew { state ≢ self.old.state → self.new ≡ record self.old { state = state; started = started_anew (timer_runs state) (instant_nanos now) } }
    {
        if state != self.state {
            self.state = state;
            self.started = if state.timer_runs() { Some(now) } else { None };
        }
    }

    /// Returns how much longer the server waits for the peer: until the ARTIM timer expires while
    /// that runs, else until the peer has neither sent nor accepted bytes for the idle time.
    pub fn wait(&self, now: Instant) -> Wait
        ensures until { WaitsUntil self.now (instant_nanos now) self.now.started result }
        ensures expired { (result ≡ Wait.Expired) ↔ HasExpired self.now (instant_nanos now) self.now.started }
        ensures silent { (result ≡ Wait.Silent) ↔ IsSilent self.now (instant_nanos now) self.now.started }
    {
        match (self.started, self.consumed) {
            (Some(started), _) => remaining(self.artim, started, now, Wait::Expired),
            (None, Some(consumed)) => remaining(self.idle, consumed, now, Wait::Silent),
            (None, None) => remaining(self.idle, self.heard, now, Wait::Silent),
        }
    }

    /// Returns how long ago the association was opened.
    pub(crate) fn lasted(&self, now: Instant) -> Duration
        ensures { as_nanos result ≡ instant_nanos now - self.now.opened }
    {
        now.duration_since(self.opened)
    }

    /// Returns whether the connection has reached its maximum duration.
    #[tactic(auto, unfolding(crate::specs::TimeLimits::has_lasted))]
    pub(crate) fn has_lasted(&self, now: Instant) -> bool
        ensures { result ≡ has_lasted self.now.longest self.now.opened (instant_nanos now) }
    {
        match self.longest {
            Some(longest) => self.lasted(now).as_nanos() >= longest.as_nanos(),
            None => false,
        }
    }

    /// Returns the time until the next deadline, at most `most`. The maximum duration is no
    /// deadline of an association that was aborted.
    pub(crate) fn remaining(&self, now: Instant, is_aborted: bool, most: Duration) -> Duration
        ensures { as_nanos result ≤ as_nanos most }
    {
        let most = match self.longest {
            Some(longest) if !is_aborted => { most.min(longest.saturating_sub(self.lasted(now))) }
            _ => most,
        };
        match self.wait(now) {
            Wait::Remaining(remaining) => most.min(remaining),
            _ => Duration::ZERO,
        }
    }
}
