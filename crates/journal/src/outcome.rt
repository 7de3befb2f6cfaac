//! The outcomes of stores, by the statuses of their replies, and their numbers.
ghost use Rattle.std.specs.Prelude.{◌≡◌, ◌-◌, ◌+◌, ℕ};
ghost use Rattle.journal.specs.Outcomes as spelling;
ghost use Rattle.metrics.specs.Statuses.{status_of};

use metrics::CountedStatus;

/// The outcome of a store, which its reply reports.
#[derive(Clone, Copy, Debug, PartialEq, Eq)]
pub enum Outcome {
    /// Success: the instance is filed.
    Stored,
    /// Refused, with status 0122 or A700: the instance may be sent again, or elsewhere.
    Refused,
    /// Every other status: an error in the data set.
    Failed,
}

impl Outcome {
    /// Returns the outcome of a store from the status of its reply (PS3.7 annex C, PS3.4 annex
    /// B.2.3).
    pub fn of(status: u16) -> Outcome
        ensures { result ≡ spelling.outcome_of status }
    {
        Outcome::counted(CountedStatus::of(status))
    }

    /// Returns the outcome of a store from the counter of its status, so that the counts in the log
    /// equal the sums of the counters.
    pub fn counted(status: CountedStatus) -> Outcome
        ensures { (number : ℕ) → status_of number ≡ status → result ≡ spelling.outcome_of number }
    {
        match status {
            CountedStatus::Success => Outcome::Stored,
            CountedStatus::ClassNotSupported | CountedStatus::OutOfResources => Outcome::Refused,
            CountedStatus::DataSetMismatch
            | CountedStatus::CannotUnderstand
            | CountedStatus::Other => Outcome::Failed,
        }
    }
}

/// The numbers of stores of an association by outcome. They saturate.
#[derive(Clone, Copy, Debug, Default, PartialEq, Eq)]
pub struct Counts {
    /// Stores whose command was received.
    pub asked: u64,
    /// Stores whose reply reported success.
    pub stored: u64,
    pub refused: u64,
    pub failed: u64,
}

impl Counts {
    /// Counts a store whose command was received.
    pub fn ask(&mut self)
        ensures { self.new ≡ record self.old { asked = spelling.one_more self.old.asked } }
    {
        self.asked = self.asked.saturating_add(1);
    }

    /// Counts the reply to a store.
    pub fn answer(&mut self, outcome: Outcome)
        ensures { self.new ≡ spelling.counted outcome self.old }
    {
        match outcome {
            Outcome::Stored => self.stored = self.stored.saturating_add(1),
            Outcome::Refused => self.refused = self.refused.saturating_add(1),
            Outcome::Failed => self.failed = self.failed.saturating_add(1),
        }
    }

    /// Returns how many stores had no reply that reported success.
    pub fn dropped(self) -> u64
        ensures { result ≡ self.asked - self.stored }
    {
        self.asked.saturating_sub(self.stored)
    }

    /// Returns how many stores had no reply.
    pub fn unanswered(self) -> u64
        ensures { result ≡ self.asked - self.stored - self.refused - self.failed }
    {
        self.dropped()
            .saturating_sub(self.refused)
            .saturating_sub(self.failed)
    }
}
