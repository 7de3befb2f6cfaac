//! Counts the files that a visit left out or ignored.
ghost use Rattle.std.specs.Prelude.{◌≡◌};
ghost use Rattle.keyed_files.specs.Counting.{with_ignored, with_link, with_omitted, with_unread, with_vanished};

use failures::ProgramError;
use inspection::Outcome;
use std::io::Write;

/// The number of files that a visit left out, by reason.
#[derive(Clone, Copy)]
pub struct Tally {
    /// Files that are no DICOM files, have a fault before the requested values, or cannot be read.
    pub omitted: u64,
    /// Files and folders that cannot be read.
    pub unread: u64,
    /// Files that are no DICOM files, if the visit ignores these.
    pub ignored: u64,
    /// Files and folders that vanished before they were read.
    pub vanished: u64,
    /// Symbolic links, which are not followed.
    pub links: u64,
}

impl Tally {
    /// Creates counts of zero.
    pub fn new() -> Tally
        ensures { result ≡ record { omitted = 0; unread = 0; ignored = 0; vanished = 0; links = 0 } }
    {
        Tally {
            omitted: 0,
            unread: 0,
            ignored: 0,
            vanished: 0,
            links: 0,
        }
    }

    /// Returns `Outcome::Good` if no file was left out, else `Outcome::Faulty`. Fails with `Unread`
    /// if a file or folder cannot be read.
    pub fn outcome(self) -> Result<Outcome, ProgramError> {
        if self.unread > 0 {
            return Err(ProgramError::Unread);
        }
        if self.omitted > 0 {
            return Ok(Outcome::Faulty);
        }
        Ok(Outcome::Good)
    }

    /// Counts a file that is ignored.
    pub fn add_ignored(&mut self)
        ensures { self.new ≡ with_ignored self.old }
    {
        self.ignored = self.ignored.saturating_add(1);
    }

    /// Counts a file or a folder that has vanished.
    pub fn add_vanished(&mut self)
        ensures { self.new ≡ with_vanished self.old }
    {
        self.vanished = self.vanished.saturating_add(1);
    }

    /// Counts a symbolic link that is not followed.
    pub fn add_link(&mut self)
        ensures { self.new ≡ with_link self.old }
    {
        self.links = self.links.saturating_add(1);
    }

    /// Counts a file that was left out.
    pub(crate) fn add_omitted(&mut self)
        ensures { self.new ≡ with_omitted self.old }
    {
        self.omitted = self.omitted.saturating_add(1);
    }

    /// Counts a file or a folder that cannot be read.
    pub fn add_unread(&mut self)
        ensures { self.new ≡ with_unread self.old }
    {
        self.unread = self.unread.saturating_add(1);
        self.add_omitted();
    }

    /// Reports how many files were ignored (no DICOM files), how many have vanished, and how many
    /// links were not followed, if any.
    pub fn report_passed_by<E: Write>(&self, err: &mut E) {
        for (count, what) in [
            (self.ignored, "ignored"),
            (self.vanished, "vanished"),
            (self.links, "links passed over"),
        ] {
            if count > 0 {
                let _ = writeln!(err, "dcmbox: {what} {count}");
            }
        }
    }
}
