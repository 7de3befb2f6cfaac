//! The log lines about connections that wait for a slot.
use super::{LISTENERS, Server};
use crate::arrivals::note_waiting;
use crate::policy::Policy;
use journal::{Journal, Value, events};
use log::Log;
use mio::Token;
use std::net::SocketAddr;
use std::time::{Clock, Instant};

impl<'a, R: Log + Clock, P: Policy> Server<'a, R, P, Journal<'a, R, HostRuntime>> {
    /// Logs that every slot is occupied, if a connection is known to be queued; else, has the poll
    /// report whether one is. If associations are served one at a time, peers wait as a matter of
    /// course, and nothing is logged.
    pub(super) fn note_full(&mut self, now: Instant) {
        if self.arrivals.is_known() {
            if !self.configuration.service.is_serial() && self.slots_reported.is_due(now) {
                let places = self.configuration.service.associations as u64;
                self.logger()
                    .report(events::SLOTS_FULL, &[Value::Number(places)]);
            }
        } else if self.arrivals.ask() {
            self.listeners.watch_anew(&self.poll, Token(LISTENERS));
        }
    }

    /// Records that a connection of this peer was accepted. Logs that it waited long, if it did and
    /// there is only one slot.
    pub(super) fn note_accepted(&mut self, peer: SocketAddr, now: Instant) {
        let waited = self.arrivals.accept(now);
        if self.configuration.service.associations == 1 {
            note_waiting(self.logger().about(peer), waited);
        }
    }
}
