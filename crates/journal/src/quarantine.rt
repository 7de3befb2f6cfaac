//! Quarantines the data sets of stores, by the statuses of their replies.
ghost use Rattle.std.specs.Prelude.{◌≡◌};
ghost use Rattle.journal.specs.Outcomes as spelling;

use crate::asked::Reply;
use crate::event::{Value, known, shown};
use crate::events;
use crate::journal::Journal;
use crate::sheet::sheet_of;
use crate::state::State;
use dimse::status;
use folder_filing::{SetAside, StoredFile};
use log::Log;
use std::alloc::AllocError;
use std::io;
use std::io::{Error, ErrorKind};
use std::rt::Files;
use std::time::Clock;

/// Returns whether the data set of a store with this status is quarantined: it cannot be understood
/// (C000), does not match its command (A900), or has too many bytes or levels (A700, out of
/// resources). A700 is also the status of a file that could not be written, which is not
/// quarantined.
fn is_quarantined(status: u16, has_filing_failed: bool) -> bool
    ensures { result ≡ spelling.is_quarantined status has_filing_failed }
{
    match status {
        status::CANNOT_UNDERSTAND | status::DATA_SET_MISMATCH => true,
        status::OUT_OF_RESOURCES => !has_filing_failed,
        _ => false,
    }
}

impl<R: Log + Clock, S: Files + Alloc + Clone + Drop> Journal<'_, R, S>
where
    S::File: StoredFile,
{
    /// Logs why a draft could not be moved to the quarantine, if that failed.
    pub(crate) fn report_not_aside(&self) {
        if let Some(error) = self.notes.aside_error.take() {
            self.report_failed(Err(error));
        }
    }

    /// Removes the draft that was moved to the quarantine, if there is one, as its store had no
    /// reply.
    pub(crate) fn remove_aside(&self) {
        self.report_not_aside();
        if let Some(aside) = self.notes.aside.take() {
            self.report_failed(aside.remove());
        }
    }

    fn report_failed(&self, done: io::Result<()>) {
        if let Err(error) = done {
            self.logger
                .report(events::NOT_QUARANTINED, &[shown(&error)]);
        }
    }

    /// Keeps the draft that was moved to the quarantine, or removes it, by the reply to its store.
    pub(crate) fn settle_aside(&self, state: &State, reply: Reply) {
        self.report_not_aside();
        let Some(aside) = self.notes.aside.take() else {
            return;
        };
        let done = if is_quarantined(reply.status, state.has_filing_failed) {
            self.keep(state, reply, aside)
        } else {
            aside.remove()
        };
        self.report_failed(done);
    }

    /// Keeps a draft in the quarantine with a text beside it, and logs that.
    fn keep(&self, state: &State, reply: Reply, aside: SetAside<S>) -> io::Result<()> {
        let kept = aside.data();
        let Ok(text) = self.sheet(state, reply, kept) else {
            aside.remove()?;
            return Err(Error::from(ErrorKind::OutOfMemory));
        };
        let done = aside.keep(text.as_str())?;
        self.logger.report(
            events::QUARANTINED,
            &[
                shown(format_args!("{:06}.dcm", done.number)),
                Value::Number(kept),
            ],
        );
        if done.is_full {
            self.logger.report(events::QUARANTINE_FULL, &[]);
        }
        Ok(())
    }

    /// Returns the text beside a quarantined data set, of which `kept` bytes are kept. Fails if
    /// memory runs out.
    fn sheet(&self, state: &State, reply: Reply, kept: u64) -> Result<String, AllocError> {
        let (status, fault, tag) = reply.values();
        let (class, instance) = state.asked();
        let received = state.message.data_size;
        sheet_of(
            self.alloc,
            self.logger.head(),
            events::QUARANTINE_SHEET,
            &[
                known(&state.calling),
                shown(&state.called),
                status,
                fault,
                tag,
                self.reason(state, reply),
                class,
                instance,
                Value::Number(received),
                Value::Number(kept),
                shown(if kept == received { "yes" } else { "no" }),
            ],
        )
    }
}
