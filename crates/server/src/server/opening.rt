//! The start and the end of a server.
ghost use Rattle.std.specs.Prelude.{◌≡◌, ◌+◌, length, vec_len, IfOk, OnOk};
ghost use Rattle.std.specs.List.{All};
ghost use Rattle.folder_filing.specs.Settling.{is_unsettled};
ghost use Rattle.server.specs.FolderStore.{folder_store};
ghost use Rattle.negotiate.specs.Settings.{Settings, settings_of};
ghost use Rattle.server.specs.Histories.{AllEnded, IsFirstOr, slots_in};
ghost use Rattle.server.specs.Configuration.{configuration_of, with_settings};

mod history;

use super::group::Group;
use super::measuring::measure_end;
use super::{FIRST_WAITER, LISTENERS, Server};
use crate::arrivals::Arrivals;
use crate::config_source::{AllowedSource, ConfigSource};
use crate::configuration::ServerConfiguration;
use crate::listeners::Listeners;
use crate::policy::Policy;
use crate::slot::Slot;
use crate::stopping::clear;
use admitting::{Notice, Queue, Slots};
use folder_filing::{FolderFiling, FolderWriter};
pub(crate) use history::ClosedSlots;
pub use history::{ServerHistory, SlotHistory};
use journal::{Journal, events, shown};
use log::Log;
use mio::{Events, Poll, Token};
use negotiate::Config;
use std::alloc::{AllocError, AllocFailed, Global};
use std::marker::Brand;
use std::net::Net;
use std::time::{Clock, Instant};
use std::{io, net};

/// Closes these slots. Returns `closed` with their histories added.
pub(super) fn close_all<'a, R: Log + Clock, P: Policy>(
    slots: Vec<Slot<'a, Journal<'a, R, HostRuntime>, P>>,
    closed: ClosedSlots<FolderFiling<HostRuntime>, P>,
    now: Instant,
) -> ClosedSlots<FolderFiling<HostRuntime>, P>
    ensures { length (slots_in result.history) ≡ length (slots_in closed.history) + vec_len slots.entry }
{
    let mut slots = slots;
    let mut closed = closed;
    let count = slots.len();
    for done in 0..count {
        if let Some(slot) = slots.pop() {
            closed.push(slot.close(now));
        }
    }
    slots.destroy_empty();
    closed
}

/// Allocates the memory of the first slot, if there is one. Fails if memory runs out.
fn make_first<'a, R: Log + Clock, P: Policy>(
    slots: &mut Vec<Slot<'a, Journal<'a, R, HostRuntime>, P>>,
) -> Result<(), AllocError>
    ensures { vec_len slots.new ≡ vec_len slots.old }
{
    let alloc = *slots.allocator();
    match slots.get_mut(0) {
        Some(first) => first.make(alloc),
        None => Ok(()),
    }
}

/// Creates `count` slots for connections with this configuration. The first slot has its memory and
/// this filing. Fails if memory runs out.
fn slots_of<'a, R: Log + Clock, P: Policy>(
    alloc: Global,
    count: usize,
    filing: FolderFiling<HostRuntime>,
    config: &'a Config,
    now: Instant,
) -> Result<Vec<Slot<'a, Journal<'a, R, HostRuntime>, P>>, AllocError>
    requires allowed { ∥ P.allows (settings_of config.now) ∥₁ }
    ensures { IfOk result (λ slots. vec_len slots ≡ count) }
{
    let mut slots = Vec::with_capacity(alloc, count)?;
    let mut filing = Some(filing);
    for added in 0..count {
        if let Err(AllocFailed { value }) = slots.push(Slot::new(filing.take(), config)) {
            let mut closed = ClosedSlots::new();
            closed.push(value.close(now));
            let _history = close_all(slots, closed, now).into_history();
            return Err(AllocError);
        }
    }
    if let Err(failure) = make_first(&mut slots) {
        let _history = close_all(slots, ClosedSlots::new(), now).into_history();
        return Err(failure);
    }
    Ok(slots)
}

/// Creates a server that accepts the connections of these listeners.
fn server_of<'a, R: Log + Clock + Net + Alloc<A = Global>, P: Policy>(
    rt: &'a R,
    listeners: Vec<net::TcpListener>,
    configuration: ServerConfiguration<'a>,
    filings: (FolderWriter<HostRuntime>, FolderFiling<HostRuntime>),
) -> io::Result<Server<'a, R, P, Journal<'a, R, HostRuntime>>>
    requires configuration { configuration_of configuration ≡ P.configuration }
    requires allowed { ∥ P.allows (settings_of configuration.config.now) ∥₁ }
    requires at_once { configuration.service.associations ≡ P.at_once }
{
    let now = Instant::now(rt)?;
    let alloc = rt.alloc();
    let associations = configuration.service.associations;
    let occupancy = Slots::new(alloc, associations, configuration.service.per_peer)?;
    let queue = Queue::new(alloc, associations)?;
    let arrivals = Arrivals::new(alloc)?;
    let poll = Poll::new(rt)?;
    let listeners = Listeners::watched(&poll, Token(LISTENERS), listeners)?;
    let (folder, first) = filings;
    let slots = slots_of(alloc, associations, first, configuration.config, now)?;
    Ok(Server {
        rt,
        poll,
        listeners,
        configuration,
        folder,
        occupancy,
        slots,
        queue,
        next_waiter: FIRST_WAITER,
        is_open: true,
        round: 0,
        now,
        may_accept: true,
        arrivals,
        group: Group::new(),
        paused: None,
        looked: None,
        stop: None,
        slots_reported: Notice::new(),
        peer_reported: Notice::new(),
        closed_reported: Notice::new(),
        accept_reported: Notice::new(),
    })
}

/// Removes the stop file, if it is there, and logs the addresses of the listeners. Returns room for
/// the events of all slots and listeners.
fn begin<R: Log + Clock + Alloc<A = Global>>(
    rt: &R,
    listeners: &[net::TcpListener],
    configuration: &ServerConfiguration<'_>,
    files: &HostRuntime,
) -> io::Result<Events> {
    clear(files, configuration.service.stop_file)?;
    for listener in listeners {
        let address = listener.local_addr()?;
        configuration
            .logger(rt)
            .report(events::LISTENING, &[shown(address)]);
    }
    let watched = configuration
        .service
        .associations
        .saturating_add(listeners.len());
    Ok(Events::with_capacity(rt.alloc(), watched)?)
}

/// Serves as `serve_many` does, and closes each connection. Logs nothing at the end.
fn served<R: Log + Clock + Net + Alloc<A = Global>, C: ConfigSource + Drop, P: Policy>(
    rt: &R,
    listeners: Vec<net::TcpListener>,
    configuration: ServerConfiguration<'_>,
    watched: (&HostRuntime, C),
    folder: (FolderWriter<HostRuntime>, FolderFiling<HostRuntime>),
) -> (ServerHistory<FolderFiling<HostRuntime>>, io::Result<()>)
    requires configuration { configuration_of configuration ≡ P.configuration }
    requires allowed { ∥ P.allows (settings_of configuration.config.now) ∥₁ }
    requires given { (s : Settings) → C.gives watched.1 s → ∥ P.allows s ∥₁ }
    requires at_once { configuration.service.associations ≡ P.at_once }
    ensures all { OnOk result.1 (length (slots_in result.0) ≡ P.at_once) }
    ensures ended { ∥ All (AllEnded folder_store is_unsettled P.allows P.configuration) (slots_in result.0) ∥₁ }
{
    let (files, source) = watched;
    let mut source: AllowedSource<C, P> = AllowedSource::new(source);
    let mut events = match begin(rt, listeners.as_slice(), &configuration, files) {
        Ok(events) => events,
        Err(failure) => return (ServerHistory::new(), Err(failure)),
    };
    let mut server = match server_of::<R, P>(rt, listeners, configuration, folder) {
        Ok(server) => server,
        Err(failure) => return (ServerHistory::new(), Err(failure)),
    };
    let served = server.serve(files, &mut source, &mut events);
    let closed = server.close(ClosedSlots::new());
    measure_end(rt, files, &configuration);
    (closed.into_history(), served)
}

/// Serves the associations of the connections that these listeners accept, as many at once as there
/// are slots, until the stop file appears, or only one if `once` is set. Logs what happens.
/// `watched` is the file system of the stop file and the metrics file, and the source of the
/// settings of later connections, which is asked once for each connection that is accepted. The
/// first slot uses the filing that is passed, each other slot a new one of the folder. Returns the
/// history of the connections, for contracts.
///
/// Fails if the clock or the poll does, or, at the start, if a system call fails or memory runs
/// out.
///
/// `all`: unless it fails, the history has as many slots as there can be connections at once.
///
/// `ended`: whether it fails or not, each connection that was opened in a slot has ended, and the
/// result of each is what the definitions give for the settings that were recorded with it: those
/// of `configuration`, but for the settings of its association, which may be of the source.
pub fn serve_many<R: Log + Clock + Net + Alloc<A = Global>, C: ConfigSource + Drop>(
    rt: &R,
    listeners: Vec<net::TcpListener>,
    configuration: ServerConfiguration<'_>,
    watched: (&HostRuntime, C),
    folder: (FolderWriter<HostRuntime>, FolderFiling<HostRuntime>),
) -> (ServerHistory<FolderFiling<HostRuntime>>, io::Result<()>)
    ensures all { OnOk result.1 (length (slots_in result.0) ≡ configuration.entry.service.associations) }
    ensures ended { ∥ All (AllEnded folder_store is_unsettled (IsFirstOr (settings_of configuration.entry.config.now) (C.gives watched.entry.1)) (configuration_of configuration.entry))
        (slots_in result.0) ∥₁ }
{
    let (history, served) = served::<R, C, Brand>(rt, listeners, configuration, watched, folder);
    let logger = configuration.logger(rt);
    logger.report_omitted(None);
    if served.is_ok() {
        logger.report(events::STOPPED, &[]);
    }
    (history, served)
}
