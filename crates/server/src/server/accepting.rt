//! How a server accepts connections.
ghost use Rattle.std.specs.Prelude.{◌≡◌};
ghost use Rattle.negotiate.specs.Settings.{settings_of};

use super::{LAST_WAITER, Server};
use crate::config_source::{AllowedSource, ConfigSource};
use crate::configuration::MOST_AT_ONCE;
use crate::policy::Policy;
use crate::socket::AcceptedStream;
use admitting::{Admission, Waiter, peer_number};
use journal::{Journal, Value, events, shown};
use log::Log;
use mio::{Interest, Token};
use negotiate::Config;
use std::io::ErrorKind;
use std::time::{Clock, Duration, Instant};

/// How long accepting pauses after it failed, in milliseconds, so that a lasting error does not
/// keep the server busy.
pub(super) const PAUSE_MILLISECONDS: u64 = 100;

impl<'a, R: Log + Clock, P: Policy> Server<'a, R, P, Journal<'a, R, HostRuntime>> {
    /// Assigns a slot to an accepted connection, or queues it if its peer may have no more.
    fn admit(&mut self, accepted: AcceptedStream, now: Instant) {
        let logger = self.logger().about(accepted.peer);
        let peer = peer_number(accepted.peer.ip());
        match self.occupancy.admit(peer, self.slots.as_slice()) {
            Admission::Slot(index) => self.occupy_or_report(accepted, index, now),
            Admission::Full | Admission::PeerFull => {
                if self.peer_reported.is_due(now) {
                    let places = self.configuration.service.per_peer as u64;
                    logger.report(events::PEER_FULL, &[Value::Number(places)]);
                }
                if !self.enqueue(accepted, peer) && self.closed_reported.is_due(now) {
                    logger.report(events::TURNED_AWAY, &[]);
                }
            }
        }
    }

    /// Queues a connection until a slot is free, and has the poll report when its peer closes it.
    /// Returns `false`, and closes it, if the queue is full.
    fn enqueue(&mut self, accepted: AcceptedStream, peer: u128) -> bool {
        let mut waiting = accepted;
        let number = self.next_waiter;
        self.next_waiter = number.saturating_add(1).min(LAST_WAITER);
        let registry = self.poll.registry();
        let _ = registry.register(&mut waiting.stream, Token(number), Interest::READABLE);
        self.queue.push(Waiter {
            peer,
            number,
            waiting,
        })
    }

    /// Opens an association over a queued connection, in its slot.
    fn occupy_next(&mut self, waiter: Waiter<AcceptedStream>, index: usize, now: Instant) {
        let mut accepted = waiter.waiting;
        let _ = self.poll.registry().deregister(&mut accepted.stream);
        self.occupy_or_report(accepted, index, now);
    }

    /// Uses these settings for the connections that are opened from now on.
    fn renew(&mut self, config: Box<Config>)
        requires allowed { ∥ P.allows (settings_of config.value) ∥₁ }
        ensures { settings_of self.new.configuration.config.now ≡ settings_of config.value }
    {
        // Those before are not freed, as the connections that were opened with them borrow them.
        self.configuration.config = Box::leak(config);
    }

    /// Assigns free slots to queued connections, then to new ones.
    pub(super) fn admit_all<C: ConfigSource>(
        &mut self,
        source: &mut AllowedSource<C, P>,
        now: Instant,
    ) {
        for _ in 0..MOST_AT_ONCE {
            match self.queue.admit(&mut self.occupancy, self.slots.as_slice()) {
                Some((waiter, index)) => self.occupy_next(waiter, index, now),
                None => break,
            }
        }
        for _ in 0..MOST_AT_ONCE {
            if !self.is_open || !self.may_accept || self.is_paused(now) {
                return;
            }
            if !self.has_vacancy() {
                self.note_full(now);
                return;
            }
            self.accept(source, now);
        }
    }

    pub(super) fn is_paused(&self, now: Instant) -> bool {
        match self.paused {
            Some(until) => now.duration_since(until).is_zero(),
            None => false,
        }
    }

    /// Accepts a connection, if a listener has one. Pauses accepting if that fails.
    fn accept<C: ConfigSource>(&mut self, source: &mut AllowedSource<C, P>, now: Instant) {
        match self.listeners.accept() {
            Ok((stream, peer)) => {
                if let Some(config) = source.renewed() {
                    self.renew(config);
                }
                self.note_accepted(peer, now);
                self.admit(AcceptedStream { stream, peer }, now);
                self.is_open = !self.configuration.service.once;
            }
            Err(failure) if failure.kind() == ErrorKind::WouldBlock => {
                self.may_accept = false;
                self.arrivals.clear();
            }
            Err(failure) => {
                if self.accept_reported.is_due(now) {
                    self.logger()
                        .report(events::NOT_ACCEPTED, &[shown(&failure)]);
                }
                self.paused = now.checked_add(Duration::from_millis(PAUSE_MILLISECONDS));
            }
        }
    }
}
