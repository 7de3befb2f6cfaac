//! Settles the files of several connections together.
use super::Server;
use super::group::Waiting;
use crate::policy::Policy;
use folder_filing::NamesSynced;
use journal::{Journal, events, shown};
use log::Log;
use std::alloc::Global;
use std::io;
use std::time::{Clock, Instant};

impl<'a, R: Log + Clock, P: Policy> Server<'a, R, P, Journal<'a, R, HostRuntime>> {
    /// Counts the connections that have a file to settle, and those that may have one soon.
    fn waiting(&self) -> Waiting {
        let mut waiting = Waiting::new();
        for slot in &self.slots {
            if let Some(connection) = &slot.connection {
                waiting.count(connection.has_pending(), connection.is_ready());
            }
        }
        waiting
    }

    /// Settles the files that wait, if it is time to.
    ///
    /// Fails if the clock does.
    pub(super) fn settle_due(&mut self, now: Instant) -> io::Result<()> {
        let waiting = self.waiting();
        if self.group.is_due(waiting, now) {
            let before = Instant::now(self.rt)?;
            self.settle_all(now);
            let after = Instant::now(self.rt)?;
            self.group.settled(after.duration_since(before));
        }
        Ok(())
    }

    /// Syncs the files that wait to the disk, each with its name, then the names of all, and sends
    /// the replies to their stores. A connection whose file is lost is closed.
    pub(super) fn settle_all(&mut self, now: Instant) {
        if self.waiting().has_several() {
            for slot in &self.slots {
                if let Some(connection) = &slot.connection {
                    connection.start_writing();
                }
            }
        }
        for index in 0..self.slots.len() {
            if let Some(slot) = self.slots.get_mut(index) {
                if let Some(connection) = &mut slot.connection {
                    connection.write_out();
                }
            }
        }
        let synced = self.sync_names();
        for index in 0..self.slots.len() {
            if let Some(slot) = self.slots.get_mut(index) {
                slot.settle(&synced, now);
            }
        }
    }

    /// Syncs the names that files were given to the disk, and logs an error if that failed for
    /// some. Returns for which it succeeded.
    fn sync_names(&self) -> NamesSynced<Global> {
        let synced = self.folder.sync_names();
        if let Some(failure) = synced.failure() {
            self.logger()
                .report(events::NAMES_NOT_SYNCED, &[shown(failure)]);
        }
        synced
    }
}
