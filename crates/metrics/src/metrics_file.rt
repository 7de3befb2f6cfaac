//! The metrics file.
use crate::complaint::Complaint;
use crate::counters::Counters;
use crate::ends::CountedEnd;
use crate::figures::Figures;
use crate::pace::Pace;
use crate::statuses::CountedStatus;
use std::alloc::{AllocError, Global};
use std::cell::Cell;
use std::fs::{self, File, OpenFile};
use std::io::{self, Write};
use std::rt::Files;
use std::time::{Clock, Duration, Instant, SystemTime, UNIX_EPOCH};

/// What is to be logged about an attempt to write the file.
#[derive(Drop)]
pub enum WriteReport {
    /// Nothing new.
    Nothing,
    /// The file could not be written, for this reason.
    Fails(io::Error),
    /// The file was written, after an attempt had failed.
    Works,
}

/// The metrics file, with the numbers for its next write. The parts that count share a reference to
/// it.
#[derive(Drop)]
pub struct MetricsFile {
    path: String,
    /// The path of the draft, which is renamed to `path`.
    draft: String,
    version: String,
    started: Option<u64>,
    counters: Cell<Counters>,
    open: Cell<u64>,
    pace: Cell<Pace>,
    complaint: Cell<Complaint>,
}

/// Returns the seconds since 1970, if the clock can be read.
fn seconds_now<R: Clock>(rt: &R) -> Option<u64> {
    let now = SystemTime::now(rt).ok()?;
    let since = now.duration_since(UNIX_EPOCH).ok()?;
    Some(since.as_secs())
}

impl MetricsFile {
    /// Returns the metrics file of a program of this version that starts now. Writes nothing yet.
    /// Fails if memory runs out.
    pub fn new<R: Clock>(
        rt: &R,
        alloc: Global,
        path: &str,
        version: &str,
    ) -> Result<MetricsFile, AllocError> {
        Ok(MetricsFile {
            path: String::from_str(alloc, path)?,
            draft: format!(in alloc; "{path}.new")?,
            version: String::from_str(alloc, version)?,
            started: seconds_now(rt),
            counters: Cell::new(Counters::new()),
            open: Cell::new(0),
            pace: Cell::new(Pace::new()),
            complaint: Cell::new(Complaint::new()),
        })
    }

    /// Records that a number has changed.
    fn change(&self) {
        let mut pace = self.pace.get();
        pace.change();
        self.pace.set(pace);
    }

    /// Counts an association that ended in this way and had received this many bytes.
    pub fn count_end(&self, end: CountedEnd, received: u64) {
        let mut counters = self.counters.get();
        counters.end(end, received);
        self.counters.set(counters);
        self.change();
    }

    /// Counts a C-STORE that is answered with this status.
    pub fn count_answer(&self, status: CountedStatus) {
        let mut counters = self.counters.get();
        counters.answer(status);
        self.counters.set(counters);
        self.change();
    }

    /// Counts this many C-STOREs whose association ended before their response.
    pub fn count_unanswered(&self, stores: u64) {
        if stores > 0 {
            let mut counters = self.counters.get();
            counters.leave_unanswered(stores);
            self.counters.set(counters);
            self.change();
        }
    }

    /// Counts this many rejected presentation contexts.
    pub fn count_refused_contexts(&self, contexts: u64) {
        if contexts > 0 {
            let mut counters = self.counters.get();
            counters.refuse_contexts(contexts);
            self.counters.set(counters);
            self.change();
        }
    }

    /// Records how many connections are open.
    pub fn set_open(&self, open: u64) {
        if self.open.replace(open) != open {
            self.change();
        }
    }

    /// Returns how long after `now` the file is due to be written.
    pub fn remaining(&self, now: Instant) -> Duration {
        self.pace.get().remaining(now)
    }

    /// Returns the current numbers.
    pub fn figures(&self) -> Figures<'_> {
        Figures {
            version: self.version.as_str(),
            started: self.started,
            open: self.open.get(),
            counters: self.counters.get(),
        }
    }

    /// Writes the numbers to a draft next to the file, and renames the draft to the file's path.
    /// Whatever has the draft's path is removed first and not written to, since it may be a link.
    fn replace<R: Files + Alloc>(&self, rt: &R) -> io::Result<()> {
        let text = format!(in rt.alloc(); "{}", self.figures())?;
        let draft = self.draft.as_str();
        let _ = fs::remove_file(rt, draft);
        File::create_new(rt, draft)?.write_all(text.as_bytes())?;
        fs::rename(rt, draft, self.path.as_str())
    }

    /// Replaces the file as a whole, due or not: writes a draft next to it, with `.new` appended to
    /// its path, and renames it. Returns what is to be logged.
    pub fn write<R: Files + Alloc>(&self, rt: &R) -> WriteReport {
        let written = self.replace(rt);
        self.report(written)
    }

    /// Writes the file if it is due. Returns what is to be logged.
    pub fn write_due<R: Files + Alloc>(&self, rt: &R, now: Instant) -> WriteReport {
        let mut pace = self.pace.get();
        if !pace.is_due(now) {
            return WriteReport::Nothing;
        }
        let written = self.replace(rt);
        pace.tried(now, written.is_ok());
        self.pace.set(pace);
        self.report(written)
    }

    /// Records whether the file was written, and returns what is to be logged.
    fn report(&self, written: io::Result<()>) -> WriteReport {
        let mut complaint = self.complaint.get();
        let (is_news, report) = match written {
            Ok(()) => (complaint.note(None), WriteReport::Works),
            Err(error) => (
                complaint.note(Some(error.kind())),
                WriteReport::Fails(error),
            ),
        };
        self.complaint.set(complaint);
        if is_news {
            return report;
        }
        WriteReport::Nothing
    }
}
