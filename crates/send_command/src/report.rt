//! Counts files, and reports those that stay.
ghost use Rattle.std.specs.Prelude.{◌≡◌};
ghost use Rattle.send_command.specs.Counting.{after_handed, no_counts, with_left_out, with_refused};

use crate::counts::SendCounts;
use crate::texts::{EndingText, HandedText};
use inspection::Printable;
use sending::{Handed, StorageContext};
use std::fmt::Display;
use std::io::Write;

/// Counts files, and reports on standard error those that stay.
#[derive(Drop)]
pub(crate) struct SendReport<E: Write + Drop> {
    err: E,
    /// Whether files that are filed are reported, too.
    verbose: bool,
    pub counts: SendCounts,
}

impl<E: Write + Drop> SendReport<E> {
    /// Creates a report of no file.
    pub(crate) fn new(err: E, verbose: bool) -> SendReport<E>
        ensures { result.counts ≡ no_counts }
    {
        SendReport {
            err,
            verbose,
            counts: SendCounts::new(),
        }
    }

    /// Reports `what` about a path or an address.
    pub(crate) fn tell<D: Display>(&mut self, subject: &str, what: &D)
        ensures { self.new.counts ≡ self.old.counts }
    {
        let subject = Printable(subject.as_bytes());
        let _ = writeln!(self.err, "dcmbox: {subject}: {what}");
    }

    /// Counts and reports a file that is not sent.
    pub(crate) fn leave_out<D: Display>(&mut self, path: &str, why: &D)
        ensures { self.new.counts ≡ with_left_out self.old.counts }
    {
        self.counts.add_left_out();
        self.tell(path, &format_args!("left out: {why}"));
    }

    /// Counts a file by what was done with it in this presentation context, and reports it unless it
    /// was filed without a warning.
    pub(crate) fn add(&mut self, path: &str, context: &StorageContext, handed: &Handed)
        ensures { self.new.counts ≡ after_handed handed.now self.old.counts }
    {
        self.counts.add(handed);
        if self.verbose || !matches!(handed, Handed::Answered(0) | Handed::Removed(0)) {
            self.tell(path, &HandedText(handed, context));
        }
    }

    /// Counts and reports a file with which an association ended.
    pub(crate) fn refuse(&mut self, path: &str, ending: EndingText<'_>)
        ensures { self.new.counts ≡ with_refused self.old.counts }
    {
        self.counts.add_refused();
        self.tell(path, &ending);
    }
}
