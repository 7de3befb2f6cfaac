//! Counts what the program has done.
ghost use Rattle.std.specs.Prelude.{◌≡◌};
ghost use Rattle.metrics.specs.Counting.{after_answer, after_end, after_refused, after_unanswered, answered_with, ended_by, no_counts};

use crate::ends::CountedEnd;
use crate::statuses::CountedStatus;

/// What the program has done since its start, in numbers, each of which stops at the greatest
/// `u64`.
#[derive(Clone, Copy)]
pub struct Counters {
    /// Associations that have ended, in each way.
    ends: [u64; CountedEnd::ALL.len()],
    /// C-STOREs that were answered, with each status.
    answers: [u64; CountedStatus::ALL.len()],
    /// C-STOREs whose association ended before their response.
    pub unanswered: u64,
    /// Bytes received by associations that have ended.
    pub received: u64,
    /// Presentation contexts that were rejected in accepted requests.
    pub refused_contexts: u64,
}

impl Counters {
    /// Returns the numbers of a program that has done nothing.
    pub fn new() -> Counters
        ensures { result ≡ no_counts }
    {
        Counters {
            ends: [0; CountedEnd::ALL.len()],
            answers: [0; CountedStatus::ALL.len()],
            unanswered: 0,
            received: 0,
            refused_contexts: 0,
        }
    }

    /// Counts an association that ended in this way and had received this many bytes.
    pub fn end(&mut self, end: CountedEnd, received: u64)
        ensures { self.new ≡ after_end end received self.old }
    {
        let index = end as usize;
        self.ends[index] = self.ends[index].saturating_add(1);
        self.received = self.received.saturating_add(received);
    }

    /// Counts a C-STORE that is answered with this status.
    pub fn answer(&mut self, status: CountedStatus)
        ensures { self.new ≡ after_answer status self.old }
    {
        let index = status as usize;
        self.answers[index] = self.answers[index].saturating_add(1);
    }

    /// Counts this many C-STOREs whose association ended before their response.
    pub fn leave_unanswered(&mut self, stores: u64)
        ensures { self.new ≡ after_unanswered stores self.old }
    {
        self.unanswered = self.unanswered.saturating_add(stores);
    }

    /// Counts this many rejected presentation contexts.
    pub fn refuse_contexts(&mut self, contexts: u64)
        ensures { self.new ≡ after_refused contexts self.old }
    {
        self.refused_contexts = self.refused_contexts.saturating_add(contexts);
    }

    /// Returns how many associations ended in this way.
    pub fn ended(&self, end: CountedEnd) -> u64
        ensures { result ≡ ended_by end self.now }
    {
        self.ends[end as usize]
    }

    /// Returns how many C-STOREs were answered with this status.
    pub fn answered(&self, status: CountedStatus) -> u64
        ensures { result ≡ answered_with status self.now }
    {
        self.answers[status as usize]
    }
}
