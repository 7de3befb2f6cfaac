//! `dcmbox serve` into a folder.
use crate::callers::CallersFile;
use crate::serve::{form_of, serve};
use crate::started::report_started;
use arguments::{Given, Serve};
use failures::{Failure, ProgramError, WordsError};
use folder_filing::QuarantineFound;
use folders::{numbered, open_writer, quarantined, try_draft};
use journal::{Logger, Output, Value, events};
use log::{Log, Logged};
use std::fs::{File, TryLockError};
use std::io::{Error, ErrorKind};
use std::os::unix::fs::MetadataExt;
use std::time::Clock;
use std::{env, fs, io};

/// Checks that the folder of the stop file exists. Fails as for invalid arguments if it does not.
fn check_stop_file(rt: &HostRuntime, path: Option<&str>) -> Result<(), ProgramError> {
    let Some(path) = path else {
        return Ok(());
    };
    let Some((folder, _)) = path.rsplit_once('/') else {
        return Ok(());
    };
    let is_there = match fs::metadata(rt, folder) {
        Ok(found) => found.is_dir(),
        Err(_) => folder.is_empty(),
    };
    if is_there {
        return Ok(());
    }
    let reason = format_args!("--stop-file names '{path}', but there is no folder '{folder}'");
    Err(ProgramError::Words(WordsError::refused(rt.alloc(), reason)))
}

/// Returns whether a file name is that of a draft.
fn is_draft(name: &str) -> bool {
    match name.strip_prefix("DRAFT") {
        Some(number) => number.bytes().all(|digit| digit.is_ascii_digit()),
        None => false,
    }
}

/// Returns the number of drafts in a folder, or 0 if it cannot be read.
fn drafts_in(rt: &HostRuntime, folder: &str) -> u64 {
    let Ok(entries) = fs::read_dir(rt, folder) else {
        return 0;
    };
    let mut count: u64 = 0;
    for entry in entries {
        if let Ok(entry) = entry {
            if is_draft(entry.file_name()) {
                count = count.saturating_add(1);
            }
        }
    }
    count
}

/// Returns whether standard error is systemd's journal: it has the device and the inode that
/// `JOURNAL_STREAM` names.
fn is_journal(rt: &HostRuntime) -> bool {
    let (Ok(stream), Ok(own)) = (
        env::var(rt, "JOURNAL_STREAM"),
        fs::metadata(rt, "/proc/self/fd/2"),
    ) else {
        return false;
    };
    match stream.split_once(':') {
        Some((device, inode)) => {
            device.parse::<u64>() == Ok(own.dev()) && inode.parse::<u64>() == Ok(own.ino())
        }
        None => false,
    }
}

/// Returns the output of the log. If standard error is systemd's journal, each line has its
/// priority.
fn output_of(rt: &HostRuntime, settings: &Serve) -> Output<HostRuntime> {
    let output = Output::new(*rt, form_of(rt.alloc(), settings));
    if is_journal(rt) {
        output.with_priorities()
    } else {
        output
    }
}

/// Logs what the quarantine had at the start: how many drafts were removed, and whether it is full.
fn report_quarantine<R: Log + Clock>(logger: &Logger<'_, R>, found: QuarantineFound) {
    if found.removed > 0 {
        logger.report(
            events::QUARANTINE_CLEARED,
            &[Value::Number(u64::from(found.removed))],
        );
    }
    if found.is_full {
        logger.report(events::QUARANTINE_FULL, &[]);
    }
}

/// Opens a lock file for reading, and creates it if there is none. A link is not followed, and what
/// is there is not changed: others may write to the folder.
///
/// Fails with `InvalidInput` if what is there is a link or no regular file, and as a file that
/// cannot be created or opened.
fn open_lock(rt: &HostRuntime, path: &str) -> io::Result<File> {
    match File::create_new(rt, path) {
        Err(error) if error.kind() == ErrorKind::AlreadyExists => {}
        created => return created,
    }
    if !fs::symlink_metadata(rt, path)?.is_file() {
        return Err(Error::new(ErrorKind::InvalidInput, "its lock is no regular file"));
    }
    File::open(rt, path)
}

/// Locks the file `.NAME.lock` beside the file at this path, until the result is dropped. Returns
/// `None` without a path, or if that lock cannot be created: then the file cannot be written there
/// either.
///
/// Fails with `busy` if another program has locked it, or if it is a link or no regular file.
fn lock_beside(
    rt: &HostRuntime,
    path: Option<&str>,
    busy: Failure,
) -> Result<Option<File>, ProgramError> {
    let Some(path) = path else {
        return Ok(None);
    };
    let name = match path.rsplit_once('/') {
        Some((folder, name)) => format!(in rt.alloc(); "{folder}/.{name}.lock")?,
        None => format!(in rt.alloc(); ".{path}.lock")?,
    };
    let file = match open_lock(rt, name.as_str()) {
        Ok(file) => file,
        Err(error) if error.kind() == ErrorKind::InvalidInput => {
            return Err(ProgramError::System(busy, error));
        }
        Err(_) => return Ok(None),
    };
    match file.try_lock() {
        Err(TryLockError::WouldBlock) => {
            let error = Error::new(ErrorKind::WouldBlock, "it is in use by another program");
            Err(ProgramError::System(busy, error))
        }
        _ => Ok(Some(file)),
    }
}

/// Serves into the folder until the program is stopped, or only one association. Logs first its
/// version and settings, and how many drafts it removed from the folder. `read` is what the
/// settings were read from: the arguments, and the text of the file of calling titles, which is
/// read anew when it changes.
pub fn serve_into(
    rt: &HostRuntime,
    settings: &Serve,
    read: (&Given<'_>, String),
) -> Result<(), ProgramError> {
    check_stop_file(rt, settings.service.stop_file)?;
    let _metrics = lock_beside(rt, settings.metrics, Failure::BusyMetrics)?;
    let _numbers = lock_beside(rt, settings.numbers, Failure::BusyNumbers)?;
    let drafts = drafts_in(rt, settings.out);
    let writer = open_writer(*rt, settings.out, settings.layout, settings.sync)?;
    let writer = numbered(writer, settings.numbers)?;
    let (mut writer, found) = quarantined(writer, settings.quarantine)?;
    let mut filing = writer.filing().map_err(ProgramError::of_folder)?;
    try_draft(&mut filing)?;
    let logged = Logged::new(rt, settings.level, output_of(rt, settings));
    let logger = Logger::new(&logged, form_of(rt.alloc(), settings));
    report_started(&logger, settings, drafts);
    if let Some(found) = found {
        report_quarantine(&logger, found);
    }
    let source = CallersFile::new(rt, read, logger);
    serve(&logged, settings, (rt, source), (writer, filing))
}
