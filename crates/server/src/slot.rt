//! A slot of a server: its connection, memory and filing, and the results of its earlier
//! connections.
ghost use Rattle.std.specs.Prelude.{◌≡◌, [], ◌++◌, map, IfSome, is_some, true, false};
ghost use Rattle.std.specs.List.{All};
ghost use Rattle.negotiate.specs.Settings.{settings_of};
ghost use Rattle.serving.specs.Causes.{IsCaused};
ghost use Rattle.serving.specs.Connections.{is_to_close_at, opening_of};
ghost use Rattle.folder_filing.specs.Settling.{is_unsettled};
ghost use Rattle.server.specs.FolderStore.{folder_store};
ghost use Rattle.server.specs.Histories.{AllEnded, EachClosed, ended_in, opened_in, opened_over, settings_in};
ghost use Rattle.server.specs.Configuration.{configuration_at, configuration_of, with_settings};
ghost use Rattle.server.specs.machine.Slots.{HaveEnded, seen_of};

use crate::configuration::ServerConfiguration;
use crate::policy::Policy;
use crate::server::SlotHistory;
use crate::socket::Socket;
use admitting::Occupiable;
use engine::Standing;
use folder_filing::{FolderFiling, FolderWriter, NamesSynced};
use journal::{Journal, Logger, Served};
use log::Log;
use negotiate::Config;
use part10::Settling;
use service::Observer;
use serving::{Connection, ConnectionConfiguration, ConnectionMemory, Stop};
use std::alloc::{AllocError, Global};
use std::io;
use std::marker::PhantomData;
use std::time::{Clock, Instant};

/// A slot for one connection at a time. It is not `Drop`: only `close` consumes it. Its connection
/// is not `Drop` either, as its journal is not.
pub(crate) struct Slot<'a, B: Observer, P: Policy> {
    /// The connection that has the slot.
    pub(crate) connection: Option<Connection<'a, Socket, FolderFiling<HostRuntime>, B>>,
    /// The round in which a connection of this slot had its last turn.
    pub(crate) turned: u64,
    /// How many files the filing had committed when the connection was opened.
    committed: u32,
    /// The settings of the association of the connection, or of the last one.
    config: &'a Config,
    /// The memory of the next connection, while there is no connection and once it is allocated.
    memory: Option<ConnectionMemory<'a>>,
    /// The filing of the next connection, while there is no connection, if there is a filing yet.
    filing: Option<FolderFiling<HostRuntime>>,
    history: SlotHistory<FolderFiling<HostRuntime>>,
    policy: PhantomData<P>,
    /// No file of the filing waits to be settled, or was lost before that.
    ghost rested: { ∥ IfSome filing (λ f. is_unsettled f ≡ false) ∥₁ },
    ghost closed: { ∥ EachClosed folder_store is_unsettled P.configuration history ∥₁ },
    ghost allowed: { ∥ All P.allows (settings_in history) ∥₁ },
    ghost caused: { ∥ All (λ e. IsCaused e) (ended_in history) ∥₁ },
    ghost next_allowed: { ∥ P.allows (settings_of config.now) ∥₁ },
    /// The settings of the connection are those of `P` and `config`.
    ghost held: { seen_of connection (λ c. configuration_at c) ≡ seen_of connection (λ c. with_settings P.configuration (settings_of config.now)) },
    /// Each connection that was opened has ended, except the current one.
    ghost none_missing: { opened_in history ≡ map opened_over (ended_in history) ++ seen_of connection (λ c. opening_of c) },
}

impl<B: Observer, P: Policy> Occupiable for Slot<'_, B, P> {
    ghost is_occupied = { λ slot. is_some slot.connection };

    fn is_occupied(&self) -> bool {
        self.connection.is_some()
    }
}

impl<'a, B: Observer, P: Policy> Slot<'a, B, P> {
    /// Creates a slot without memory. Its first connection uses this filing, if there is one.
    pub(crate) fn new(
        filing: Option<FolderFiling<HostRuntime>>,
        config: &'a Config,
    ) -> Slot<'a, B, P>
        requires allowed { ∥ P.allows (settings_of config.now) ∥₁ }
    {
        Slot {
            connection: None,
            turned: 0,
            committed: 0,
            config,
            memory: None,
            filing: match filing {
                Some(filing) => at_rest(filing),
                None => None,
            },
            history: SlotHistory::new(),
            policy: PhantomData,
        }
    }

    /// Returns whether the socket of the connection may be readable or writable.
    pub(crate) fn is_ready(&self) -> bool {
        match &self.connection {
            Some(connection) => connection.is_ready(),
            None => false,
        }
    }

    /// Allocates the memory of the slot, unless it has it or a connection. Fails if memory runs
    /// out.
    pub(crate) fn make(&mut self, alloc: Global) -> Result<(), AllocError> {
        if self.connection.is_none() && self.memory.is_none() {
            self.memory = Some(ConnectionMemory::new(alloc, self.config)?);
        }
        Ok(())
    }

    /// Allocates the memory of the slot, unless it has it. Returns the filing of its next
    /// connection: the one that it keeps, or a new one of `folder`.
    pub(crate) fn prepare(
        &mut self,
        alloc: Global,
        folder: &mut FolderWriter<HostRuntime>,
    ) -> io::Result<FolderFiling<HostRuntime>> {
        self.make(alloc)?;
        match self.filing.take() {
            Some(filing) => Ok(filing),
            None => folder.filing(),
        }
    }
}

impl<'a, R: Log + Clock, P: Policy> Slot<'a, Journal<'a, R, HostRuntime>, P> {
    /// Opens an association over a socket at `now`, if the slot is free and has its memory. Its
    /// journal writes to `logger`. Fails if the notes of the filing cannot be shared.
    // Not inlined, like `closed`: its frame holds copies of a connection, and is released before
    // the first turn.
    #[inline(never)]
    pub(crate) fn open(
        &mut self,
        alloc: Global,
        parts: (Socket, FolderFiling<HostRuntime>, Logger<'a, R>),
        configuration: &ServerConfiguration<'a>,
        now: Instant,
    ) -> Result<(), AllocError>
        requires configuration { configuration_of configuration.now ≡ with_settings P.configuration (settings_of configuration.now.config.now) }
        requires allowed { ∥ P.allows (settings_of configuration.now.config.now) ∥₁ }
    {
        let (socket, filing, logger) = parts;
        let notes = filing.notes()?;
        if self.connection.is_some() {
            return Ok(());
        }
        let Some(memory) = self.memory.take() else {
            return Ok(());
        };
        let held = ConnectionConfiguration {
            config: configuration.config,
            timeouts: configuration.service.timeouts,
            longest: configuration.service.longest,
        };
        let journal = Journal::new(alloc, logger, notes, configuration.config);
        let before = (self.config, self.committed);
        self.config = configuration.config;
        self.committed = filing.committed();
        self.history.open(&filing);
        let connection = Connection::open(held, (socket, filing, journal), memory, now);
        let last = self.connection.replace(connection);
        let _remaining = closed::<R, P>(last, before, &mut self.history, now);
        Ok(())
    }

    /// Runs a round of the connection, if there is one, in the server's round `round`, and closes the
    /// connection if it is to be closed.
    pub(crate) fn turn(&mut self, round: u64, now: Instant, stop: Option<Stop>) {
        let is_ready = self.is_ready();
        if let Some(connection) = &mut self.connection {
            let is_over = connection.round(now, stop);
            if is_ready {
                self.turned = round;
            }
            if is_over {
                self.close_connection(now);
            }
        }
    }

    /// Settles the file of the connection, if one waits, and closes the connection if the file is
    /// lost.
    pub(crate) fn settle(&mut self, synced: &NamesSynced<Global>, now: Instant) {
        if let Some(connection) = &mut self.connection {
            if connection.settle(synced, now) {
                self.close_connection(now);
            }
        }
    }

    /// Closes the connection, if there is one, which is to be closed. Its filing serves the next
    /// connection, unless a file was lost.
    fn close_connection(&mut self, now: Instant)
        requires due { seen_of self.old.connection (λ c. is_to_close_at is_unsettled c) ≡ seen_of self.old.connection (λ c. true) }
    {
        let last = self.connection.take();
        if let Some((filing, memory)) = closed::<R, P>(
            last,
            (self.config, self.committed),
            &mut self.history,
            now,
        ) {
            self.memory = Some(memory);
            self.filing = at_rest(filing);
        }
    }

    /// Closes the connection, if there is one, in any state. Returns the history of the slot.
    pub(crate) fn close(self, now: Instant) -> SlotHistory<FolderFiling<HostRuntime>>
        ensures { AllEnded folder_store is_unsettled P.allows P.configuration result }
    {
        let Slot {
            connection,
            turned: _turned,
            committed,
            config,
            memory: _memory,
            filing: _filing,
            history,
            policy: _policy,
        } = self;
        let mut history = history;
        let _remaining = closed::<R, P>(connection, (config, committed), &mut history, now);
        history
    }
}

/// Returns a filing for the next connection, or `None` if a file of it waits to be settled, or was
/// lost before that.
fn at_rest(filing: FolderFiling<HostRuntime>) -> Option<FolderFiling<HostRuntime>>
    ensures { IfSome result (λ f. is_unsettled f ≡ false) }
{
    if filing.has_pending() {
        return None;
    }
    Some(filing)
}

/// Closes a connection, if there is one, and logs its end. `start` is the settings of its
/// association, and how many files its filing had committed when it was opened. Returns its filing
/// and memory.
#[inline(never)]
fn closed<'a, R: Log + Clock, P: Policy>(
    connection: Option<
        Connection<'a, Socket, FolderFiling<HostRuntime>, Journal<'a, R, HostRuntime>>,
    >,
    start: (&Config, u32),
    history: &mut SlotHistory<FolderFiling<HostRuntime>>,
    now: Instant,
) -> Option<(FolderFiling<HostRuntime>, ConnectionMemory<'a>)>
    requires held { seen_of connection (λ c. configuration_at c) ≡ seen_of connection (λ c. with_settings P.configuration (settings_of start.0.now)) }
    requires allowed { ∥ P.allows (settings_of start.0.now) ∥₁ }
    ensures { HaveEnded folder_store is_unsettled P.allows P.configuration (seen_of connection.entry (λ c. is_to_close_at is_unsettled c) ≡ seen_of connection.entry (λ c. true))
        (seen_of connection.entry (λ c. opening_of c)) history.old history.new }
{
    let (config, committed) = start;
    match connection {
        Some(connection) => {
            let (remaining, journal, memory) = connection.close(now);
            let report = remaining.exchange.report;
            journal.end(Served {
                standing: standing_name(report.standing),
                held: report.held,
                files: remaining.filing.committed().saturating_sub(committed),
                received: remaining.exchange.received,
                seconds: remaining.lasted.as_secs(),
            });
            history.end(config, &remaining);
            Some(remaining.into_parts(memory))
        }
        None => None,
    }
}

/// Returns the state of an association as its log line shows it.
fn standing_name(standing: Standing) -> &'static str {
    match standing {
        Standing::Open => "Open",
        Standing::Closing => "Closing",
        Standing::Ended => "Ended",
    }
}
