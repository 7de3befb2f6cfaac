//! The event loop: it polls all sockets, and gives each connection its turn.
ghost use Rattle.std.specs.Prelude.{◌≡◌, ◌+◌, length, vec_len};
ghost use Rattle.negotiate.specs.Settings.{settings_of};
ghost use Rattle.server.specs.Histories.{slots_in};
ghost use Rattle.server.specs.Configuration.{configuration_of, with_settings};

mod accepting;
mod group;
mod measuring;
mod opening;
mod settling;
mod waiting;

use crate::arrivals::Arrivals;
use crate::config_source::{AllowedSource, ConfigSource};
use crate::configuration::{MOST_AT_ONCE, ServerConfiguration};
use crate::listeners::Listeners;
use crate::policy::Policy;
use crate::slot::Slot;
use crate::socket::{AcceptedStream, watched};
use crate::stopping::is_asked;
use accepting::PAUSE_MILLISECONDS;
use admitting::{Notice, Occupiable, Queue, Slots};
use folder_filing::{FolderFiling, FolderWriter};
use group::Group;
use journal::{Journal, Logger, events, shown};
use log::Log;
use mio::{Events, Poll, Token};
use opening::{ClosedSlots, close_all};
pub use opening::{ServerHistory, SlotHistory, serve_many};
use service::Observer;
use serving::Stop;
use std::alloc::Global;
use std::io;
use std::time::{Clock, Duration, Instant};

/// The token of all listeners. The token of a connection is the index of its slot.
const LISTENERS: usize = usize::MAX;

/// The first token of connections that wait for a slot, above all slot indices.
const FIRST_WAITER: usize = MOST_AT_ONCE;

const LAST_WAITER: usize = LISTENERS - 1;

/// The maximum duration of one poll, in seconds.
const MOST_SECONDS: u64 = 60;

/// How often the server looks for the stop file, in milliseconds.
const LOOK_MILLISECONDS: u64 = 200;

/// A server and its connections. It is not `Drop`: only `close` consumes it.
struct Server<'a, R: Log + Clock, P: Policy, B: Observer> {
    rt: &'a R,
    poll: Poll,
    listeners: Listeners,
    configuration: ServerConfiguration<'a>,
    folder: FolderWriter<HostRuntime>,
    /// The peers of the slots. A slot is free at the next admission if it has no connection.
    occupancy: Slots<Global>,
    /// The slots, whose memory and filings are reused by later connections. The first slot has both
    /// from the start.
    slots: Vec<Slot<'a, B, P>>,
    /// The accepted connections that wait for a slot, as their peers may have no more.
    queue: Queue<AcceptedStream, Global>,
    /// The token of the next connection that waits for a slot.
    next_waiter: usize,
    /// Whether connections are still accepted.
    is_open: bool,
    /// The number of the current round.
    round: u64,
    /// When the current round began.
    now: Instant,
    /// Whether a listener may have a queued connection.
    may_accept: bool,
    arrivals: Arrivals,
    /// Decides when the files that wait are settled.
    group: Group,
    /// Until when no connection is accepted, after an accept failed.
    paused: Option<Instant>,
    /// When the server last looked for the stop file.
    looked: Option<Instant>,
    /// The request to stop, once the stop file appeared.
    stop: Option<Stop>,
    slots_reported: Notice,
    peer_reported: Notice,
    closed_reported: Notice,
    accept_reported: Notice,
    /// The settings of all connections are those of `P`.
    ghost policed: { configuration_of configuration ≡ with_settings P.configuration (settings_of configuration.config.now) },
    ghost allowed: { ∥ P.allows (settings_of configuration.config.now) ∥₁ },
    /// There is a slot for each connection that there can be at once.
    ghost all: { vec_len slots ≡ P.at_once },
}

impl<'a, R: Log + Clock, P: Policy> Server<'a, R, P, Journal<'a, R, HostRuntime>> {
    /// Returns how many slots have a connection.
    fn open_connections(&self) -> usize {
        let mut open: usize = 0;
        for slot in &self.slots {
            if slot.is_occupied() {
                open = open.saturating_add(1);
            }
        }
        open
    }

    /// Returns whether a slot is free.
    fn has_vacancy(&self) -> bool {
        self.open_connections() < self.slots.len()
    }

    /// Returns the logger of lines about no connection.
    fn logger(&self) -> Logger<'a, R> {
        self.configuration.logger(self.rt)
    }

    /// Records the events of a poll: marks listeners and connections as ready, and drops a waiting
    /// connection that its peer closed.
    fn wake(&mut self, events: &Events) {
        self.group.polled(!events.is_empty());
        for event in events.iter() {
            let Token(index) = event.token();
            if index == LISTENERS {
                self.may_accept = true;
                self.arrivals.arrive();
            } else if let Some(slot) = self.slots.get_mut(index) {
                if let Some(connection) = &mut slot.connection {
                    connection.wake();
                }
            } else if event.is_read_closed() || event.is_error() {
                self.queue.leave(index);
            }
        }
    }

    /// Opens an association over an accepted connection, in its slot.
    #[inline(never)]
    fn occupy(&mut self, accepted: AcceptedStream, index: usize, now: Instant) -> io::Result<()> {
        let AcceptedStream { stream, peer } = accepted;
        let socket = watched(&self.poll, stream, index)?;
        let logger = self
            .logger()
            .about(peer)
            .counting(self.configuration.metrics);
        let alloc = *self.slots.allocator();
        if let Some(slot) = self.slots.get_mut(index) {
            let filing = slot.prepare(alloc, &mut self.folder)?;
            slot.open(alloc, (socket, filing, logger), &self.configuration, now)?;
        }
        Ok(())
    }

    /// Opens an association over an accepted connection. If that fails, logs the error.
    fn occupy_or_report(&mut self, accepted: AcceptedStream, index: usize, now: Instant) {
        let peer = accepted.peer;
        if let Err(failure) = self.occupy(accepted, index, now) {
            self.logger()
                .about(peer)
                .report(events::CONNECTION_FAILED, &[shown(&failure)]);
        }
    }

    /// Returns whether a slot is served in this round: its connection is not ready, or is the ready
    /// one of its peer whose last turn was earliest. So a peer with many connections has as many
    /// turns as one with a single connection.
    fn is_next(&self, index: usize) -> bool {
        let Some(slot) = self.slots.get(index) else {
            return false;
        };
        if !slot.is_ready() {
            return true;
        }
        let peer = self.occupancy.peer(index);
        for (other_index, other) in self.slots.iter().enumerate() {
            if other.is_occupied() && self.occupancy.peer(other_index) == peer {
                let is_earlier = other.turned < slot.turned
                    || (other.turned == slot.turned && other_index < index);
                if other.turned == self.round || (is_earlier && other.is_ready()) {
                    return false;
                }
            }
        }
        true
    }

    /// Gives one ready connection of each peer its turn, checks the deadlines of those that are not
    /// ready, and closes those that have ended.
    fn turn_each(&mut self, now: Instant) {
        self.round = self.round.saturating_add(1);
        let (round, stop) = (self.round, self.stop);
        for index in 0..self.slots.len() {
            if self.is_next(index) {
                if let Some(slot) = self.slots.get_mut(index) {
                    slot.turn(round, now, stop);
                }
            }
        }
    }

    /// Returns the maximum duration of the next poll.
    fn patience(&self, now: Instant) -> Duration {
        let mut most = Duration::from_secs(MOST_SECONDS);
        if self.configuration.service.stop_file.is_some() {
            most = Duration::from_millis(LOOK_MILLISECONDS);
        }
        if self.is_open && self.may_accept && self.has_vacancy() {
            most = most.min(Duration::from_millis(PAUSE_MILLISECONDS));
            if !self.is_paused(now) {
                return Duration::ZERO;
            }
        }
        if let Some(metrics) = self.configuration.metrics {
            most = most.min(metrics.remaining(now));
        }
        for slot in &self.slots {
            if let Some(connection) = &slot.connection {
                most = connection.remaining(now, most);
            }
        }
        most
    }

    /// Looks for the stop file from time to time. If it is there, stops accepting, and drops the
    /// connections that wait.
    fn look(&mut self, files: &HostRuntime, now: Instant) {
        let is_due = match self.looked {
            Some(looked) => {
                now.duration_since(looked) >= Duration::from_millis(LOOK_MILLISECONDS)
            }
            None => true,
        };
        if self.stop.is_some() || !is_due {
            return;
        }
        self.looked = Some(now);
        if is_asked(files, self.configuration.service.stop_file) {
            self.logger().report(events::STOPPING, &[]);
            self.stop = Some(Stop {
                asked: now,
                grace: self.configuration.service.grace,
            });
            self.is_open = false;
            self.queue.clear();
        }
    }

    /// Returns whether no connection is accepted or open any more.
    fn is_done(&self) -> bool {
        !self.is_open && self.queue.is_empty() && self.open_connections() == 0
    }

    /// Runs the event loop until the server has stopped.
    ///
    /// Fails if the clock or the poll does.
    fn serve<C: ConfigSource>(
        &mut self,
        files: &HostRuntime,
        source: &mut AllowedSource<C, P>,
        events: &mut Events,
    ) -> io::Result<()> {
        for _ in 0..u64::MAX {
            let now = Instant::now(self.rt)?;
            self.now = now;
            self.arrivals.note(now);
            self.look(files, now);
            self.turn_each(now);
            self.settle_due(now)?;
            // A free slot is assigned before the poll, which may block for long.
            self.admit_all(source, now);
            self.measure(files, now);
            self.logger().report_omitted(Some(now));
            if self.is_done() {
                return Ok(());
            }
            let time = self.patience(now);
            self.poll.poll(events, Some(time))?;
            self.wake(events);
        }
        Ok(())
    }

    /// Settles the files that wait, and closes each connection. Returns `closed` with the histories
    /// of all slots added.
    fn close(
        self,
        closed: ClosedSlots<FolderFiling<HostRuntime>, P>,
    ) -> ClosedSlots<FolderFiling<HostRuntime>, P>
        ensures { length (slots_in result.history) ≡ length (slots_in closed.history) + P.at_once }
    {
        let mut server = self;
        let now = server.now;
        server.settle_all(now);
        let Server {
            rt: _rt,
            poll: _poll,
            listeners: _listeners,
            configuration: _configuration,
            folder: _folder,
            occupancy: _occupancy,
            slots,
            queue: _queue,
            next_waiter: _next_waiter,
            is_open: _is_open,
            round: _round,
            now: _now,
            may_accept: _may_accept,
            arrivals: _arrivals,
            group: _group,
            paused: _paused,
            looked: _looked,
            stop: _stop,
            slots_reported: _slots_reported,
            peer_reported: _peer_reported,
            closed_reported: _closed_reported,
            accept_reported: _accept_reported,
        } = server;
        close_all(slots, closed, now)
    }
}
