//! Counts the results of inspected files.
use inspection::{Inspected, Outcome};
use keyed_files::Tally as UnseenTally;
use std::fmt;

/// The numbers of files by result, of notes, and of values that were not judged.
#[derive(Clone, Copy)]
pub struct Tally {
    good: u64,
    faulty: u64,
    notes: u64,
    unjudged: u64,
    /// The files and folders that were not inspected.
    pub unseen: UnseenTally,
}

impl Tally {
    /// Returns counts of zero.
    pub fn new() -> Tally {
        Tally {
            good: 0,
            faulty: 0,
            notes: 0,
            unjudged: 0,
            unseen: UnseenTally::new(),
        }
    }

    /// Counts an inspected file.
    pub fn add(&mut self, inspected: &Inspected) {
        let count = match inspected.outcome {
            Outcome::Good => &mut self.good,
            Outcome::Faulty => &mut self.faulty,
        };
        *count = count.saturating_add(1);
        self.notes = self.notes.saturating_add(inspected.notes);
        self.unjudged = self.unjudged.saturating_add(inspected.unjudged);
    }

    /// Returns how many values were not judged.
    pub fn unjudged(&self) -> u64 {
        self.unjudged
    }

    /// Returns `Faulty` if a file has a fault, or, with `is_strict`, a note.
    pub fn outcome(&self, is_strict: bool) -> Outcome {
        if self.faulty > 0 || is_strict && self.notes > 0 {
            Outcome::Faulty
        } else {
            Outcome::Good
        }
    }
}

impl fmt::Display for Tally {
    fn fmt<W: fmt::Write>(&self, f: &mut fmt::Formatter<W>) -> fmt::Result {
        let (good, faulty, notes) = (self.good, self.faulty, self.notes);
        let unread = self.unseen.unread;
        let files = good.saturating_add(faulty).saturating_add(unread);
        write!(
            f,
            "files {files} good {good} faulty {faulty} unread {unread} notes {notes}"
        )
    }
}
