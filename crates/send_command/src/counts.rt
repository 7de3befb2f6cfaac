//! Counts what was done with files.
ghost use Rattle.std.specs.Prelude.{◌≡◌};
ghost use Rattle.send_command.specs.Counting.{after_handed, no_counts, outcome_of, with_left_out, with_refusal, with_refused};

use inspection::{Outcome, OutputForm};
use sending::{Handed, Refusal, is_filed};
use std::io::{self, Write};

/// The numbers of files by what was done with them.
#[derive(Clone, Copy)]
pub struct SendCounts {
    /// Files that the archive has filed.
    pub sent: u64,
    /// Files among those that it filed with a warning.
    pub warned: u64,
    /// Files that the archive refused, or with which an association ended.
    pub refused: u64,
    /// Files that were not sent.
    pub left_out: u64,
    /// Files that were removed.
    pub removed: u64,
    /// Files that the archive refuses for good, and that were moved to the folder of refused files.
    pub set_aside: u64,
    /// Files that the archive has filed and that were to be removed, but stay.
    pub kept: u64,
    /// Files that were not reached.
    pub remaining: u64,
}

impl SendCounts {
    /// Creates counts of zero.
    pub(crate) fn new() -> SendCounts
        ensures { result ≡ no_counts }
    {
        SendCounts {
            sent: 0,
            warned: 0,
            refused: 0,
            left_out: 0,
            removed: 0,
            set_aside: 0,
            kept: 0,
            remaining: 0,
        }
    }

    /// Counts a file that is not sent.
    pub(crate) fn add_left_out(&mut self)
        ensures { self.new ≡ with_left_out self.old }
    {
        self.left_out = self.left_out.saturating_add(1);
    }

    /// Counts a file that the archive refused, or with which an association ended.
    pub(crate) fn add_refused(&mut self)
        ensures { self.new ≡ with_refused self.old }
    {
        self.refused = self.refused.saturating_add(1);
    }

    /// Counts a file that the archive refuses for good.
    fn add_refusal(&mut self, refusal: Refusal)
        ensures { self.new ≡ with_refusal refusal self.old }
    {
        match refusal {
            Refusal::Status(_) => self.add_refused(),
            Refusal::NoContext => self.add_left_out(),
        }
    }

    /// Counts a file by what was done with it.
    pub(crate) fn add(&mut self, handed: &Handed)
        ensures { self.new ≡ after_handed handed.now self.old }
    {
        let status = match handed {
            Handed::Faulty(_)
            | Handed::Odd
            | Handed::Unread(_)
            | Handed::Changed
            | Handed::Unaccepted => {
                return self.add_left_out();
            }
            Handed::SetAside(refusal) => {
                self.set_aside = self.set_aside.saturating_add(1);
                return self.add_refusal(*refusal);
            }
            Handed::NotSetAside(refusal, _) => return self.add_refusal(*refusal),
            Handed::Answered(status) => *status,
            Handed::Removed(status) => {
                self.removed = self.removed.saturating_add(1);
                *status
            }
            Handed::Kept(status, _) => {
                self.kept = self.kept.saturating_add(1);
                *status
            }
        };
        if !is_filed(status) {
            return self.add_refused();
        }
        self.sent = self.sent.saturating_add(1);
        if status != 0 {
            self.warned = self.warned.saturating_add(1);
        }
    }

    /// Returns `Good` if each file was filed, and none stays that was to be removed.
    pub(crate) fn outcome(self) -> Outcome
        ensures { result ≡ outcome_of self }
    {
        if self.refused == 0 && self.left_out == 0 && self.kept == 0 && self.remaining == 0 {
            Outcome::Good
        } else {
            Outcome::Faulty
        }
    }

    /// Writes the counts as a line, or as a JSON object.
    pub(crate) fn write<O: Write>(self, form: OutputForm, out: &mut O) -> io::Result<()> {
        let (sent, warned, refused) = (self.sent, self.warned, self.refused);
        let (left_out, removed) = (self.left_out, self.removed);
        let (set_aside, remaining) = (self.set_aside, self.remaining);
        if form == OutputForm::Json {
            write!(
                out,
                "{{\"sent\":{sent},\"warned\":{warned},\"refused\":{refused},"
            )?;
            write!(out, "\"left_out\":{left_out},\"removed\":{removed},")?;
            return writeln!(out, "\"set_aside\":{set_aside},\"remaining\":{remaining}}}");
        }
        write!(out, "sent {sent} warned {warned} refused {refused} ")?;
        writeln!(
            out,
            "left out {left_out} removed {removed} set aside {set_aside} remaining {remaining}"
        )
    }
}
