//! `dcmbox serve`: associations over TCP, one at a time or several at once.
ghost use Rattle.std.specs.Prelude.{◌≡◌, length, option_map, OnOk};
ghost use Rattle.std.specs.Duration.{as_nanos};
ghost use Rattle.std.specs.List.{All};
ghost use Rattle.arguments.specs.declared.options.LogForm.TheVariants as asked;
ghost use Rattle.journal.specs.declared.form.LineForm.TheVariants as form;
ghost use Rattle.negotiate.specs.Settings.{settings_of};
ghost use Rattle.folder_filing.specs.Settling.{is_unsettled};
ghost use Rattle.server.specs.FolderStore.{folder_store};
ghost use Rattle.server.specs.Histories.{AllEnded, IsFirstOr, slots_in};

use arguments::{LogForm, Serve, VERSION};
use failures::{Failure, ProgramError};
use folder_filing::{FolderFiling, FolderWriter};
use journal::{LineForm, LineLimits};
use log::Log;
use metrics::MetricsFile;
use server::{ConfigSource, ServerConfiguration, ServerHistory, Unchanging, serve_many};
use std::alloc::{AllocError, Global};
use std::io;
use std::net::{Net, TcpListener, TcpStream};
use std::time::Clock;

/// Returns the form of the log in the settings.
pub fn form_of(alloc: Global, settings: &Serve) -> LineForm
    ensures text { settings.now.form ≡ asked.Text → result ≡ form.Text }
    ensures json { settings.now.form ≡ asked.Json → result ≡ form.Json alloc }
{
    match settings.form {
        LogForm::Text => LineForm::Text,
        LogForm::Json => LineForm::Json(alloc),
    }
}

/// Returns the settings of the server, with this metrics file, if any, and these rate limits of log
/// lines.
fn configuration_of<'a>(
    alloc: Global,
    settings: &'a Serve,
    metrics: Option<&'a MetricsFile>,
    limits: &'a LineLimits,
) -> ServerConfiguration<'a>
    ensures config { result.config.now ≡ settings.now.config }
    ensures service { result.service ≡ settings.now.service }
    ensures text { settings.now.form ≡ asked.Text → result.form ≡ form.Text }
    ensures json { settings.now.form ≡ asked.Json → result.form ≡ form.Json alloc }
{
    ServerConfiguration {
        config: &settings.config,
        service: settings.service,
        form: form_of(alloc, settings),
        metrics,
        limits,
    }
}

/// Serves one association, of the next connection that this listener accepts, as `serve` does.
/// Returns the history of the connection, for contracts.
///
/// Fails if the clock or the poll does, or, at the start, if a system call fails or memory runs
/// out.
///
/// `all`, `ended`: as those of `serve_many`.
pub fn serve_one<R: Log + Clock + Net + Alloc<A = Global>>(
    rt: &R,
    listener: TcpListener,
    settings: &Serve,
    files: &HostRuntime,
    folder: (FolderWriter<HostRuntime>, FolderFiling<HostRuntime>),
) -> (ServerHistory<FolderFiling<HostRuntime>>, io::Result<()>)
    ensures all { OnOk result.1 (length (slots_in result.0) ≡ settings.now.service.associations) }
    ensures ended { ∥ All (AllEnded folder_store is_unsettled (IsFirstOr (settings_of settings.now.config) (λ _. ⊥)) (record {
      settings = settings_of settings.now.config;
      artim = as_nanos settings.now.service.timeouts.artim;
      idle = as_nanos settings.now.service.timeouts.idle;
      longest = option_map as_nanos settings.now.service.longest;
    })) (slots_in result.0) ∥₁ }
{
    let limits = LineLimits::new();
    let mut configuration = configuration_of(rt.alloc(), settings, None, &limits);
    configuration.service.once = true;
    let mut listeners = Vec::new(rt.alloc());
    if listeners.push(listener).is_err() {
        return (ServerHistory::new(), Err(io::Error::from(AllocError)));
    }
    serve_many(rt, listeners, configuration, (files, Unchanging), folder)
}

/// Creates the metrics file of the settings, if they name one. Fails if memory runs out.
fn metrics_of<R: Clock + Alloc<A = Global>>(
    rt: &R,
    settings: &Serve,
) -> Result<Option<MetricsFile>, AllocError> {
    match settings.metrics {
        Some(path) => Ok(Some(MetricsFile::new(rt, rt.alloc(), path, VERSION)?)),
        None => Ok(None),
    }
}

/// Listens on the port and on the further addresses.
///
/// Fails if it cannot listen on one of them, or if memory runs out.
fn listen<R: Net<Listener = TcpListener, Stream = TcpStream> + Alloc<A = Global>>(
    rt: &R,
    settings: &Serve,
) -> Result<Vec<TcpListener>, ProgramError> {
    let mut listeners = Vec::new(rt.alloc());
    match TcpListener::bind(rt, (settings.bind, settings.port)) {
        Ok(listener) => listeners.push(listener)?,
        Err(error) => return Err(ProgramError::of_listening(error)),
    }
    for address in settings.listen.as_slice() {
        match TcpListener::bind(rt, *address) {
            Ok(listener) => listeners.push(listener)?,
            Err(error) => return Err(ProgramError::System(Failure::FurtherAddress, error)),
        }
    }
    Ok(listeners)
}

/// Listens on the port and the further addresses, and serves up to the configured number of
/// associations at once until the program is stopped, or only one if `once` is set. Logs where it
/// listens, and that it has stopped. `watched` is the file system of the stop file and the metrics
/// file, and the source of the settings of later connections. The first slot uses the filing that
/// is passed, each other slot a new one of the folder. With several slots, files that are complete
/// at the same time are settled together; with one slot, each file is settled alone.
///
/// Fails if it cannot listen on an address or port, if the clock or the poll fails, or, at the
/// start, if a system call fails or memory runs out.
pub fn serve<
    R: Log + Clock + Net<Listener = TcpListener, Stream = TcpStream> + Alloc<A = Global>,
    C: ConfigSource + Drop,
>(
    rt: &R,
    settings: &Serve,
    watched: (&HostRuntime, C),
    folder: (FolderWriter<HostRuntime>, FolderFiling<HostRuntime>),
) -> Result<(), ProgramError> {
    let listeners = listen(rt, settings)?;
    let metrics = metrics_of(rt, settings)?;
    let limits = LineLimits::new();
    let configuration = configuration_of(rt.alloc(), settings, metrics.as_ref(), &limits);
    let (writer, filing) = folder;
    let writer = if settings.service.associations == 1 {
        writer
    } else {
        writer.in_groups()
    };
    let (_history, served) = serve_many(rt, listeners, configuration, watched, (writer, filing));
    match served {
        Ok(()) => Ok(()),
        Err(error) => Err(ProgramError::System(Failure::Serve, error)),
    }
}
