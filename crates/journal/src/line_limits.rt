//! Rate limits of the lines that peers can cause.
ghost use Rattle.std.specs.Prelude.{◌≡◌, ◌≢◌, ◌+◌, ◌<◌, ◌≤◌, None, true, false, min, option_map};
ghost use Rattle.std.specs.Time.{instant_nanos};
ghost use Rattle.journal.specs.Limits as spelling;

use std::cell::Cell;
use std::time::{Duration, Instant};

/// A rate limit: how many lines of a kind were written in the current span of time, and how many
/// were left out.
#[derive(Clone, Copy, Debug)]
pub(crate) struct LineLimit {
    /// When the span started, with its first line.
    pub began: Option<Instant>,
    pub lines: u64,
    pub omitted: u64,
}

impl LineLimit {
    /// Creates the limit before the first line.
    pub(crate) fn new() -> LineLimit
        ensures began { result.began ≡ None }
        ensures lines { result.lines ≡ 0 }
        ensures omitted { result.omitted ≡ 0 }
    {
        LineLimit {
            began: None,
            lines: 0,
            omitted: 0,
        }
    }

    /// Returns whether the span, of `seconds`, is over or has not started.
    pub(crate) fn is_over(&self, now: Instant, seconds: u64) -> bool
        ensures { result ≡ spelling.is_over (option_map instant_nanos self.now.began) seconds (instant_nanos now) }
    {
        match self.began {
            Some(began) => {
                now.duration_since(began).as_nanos() >= Duration::from_secs(seconds).as_nanos()
            }
            None => true,
        }
    }

    /// Counts a line. Returns whether it is among the first `most` of the span; if not, it counts
    /// as left out.
    pub(crate) fn admit(&mut self, now: Option<Instant>, most: u64) -> bool
        ensures line { result ≡ true → (self.old.lines < most) × (self.new.lines ≡ self.old.lines + 1) }
        ensures none_more { result ≡ true → self.new.omitted ≡ self.old.omitted }
        ensures same_lines { result ≡ false → (most ≤ self.old.lines) × (self.new.lines ≡ self.old.lines) }
        ensures counted { result ≡ false → self.new.omitted ≡ min (self.old.omitted + 1) 18446744073709551615 }
        ensures begins { self.old.began ≡ None → self.new.began ≡ now }
        ensures continues { self.old.began ≢ None → self.new.began ≡ self.old.began }
    {
        if self.began.is_none() {
            self.began = now;
        }
        if self.lines < most {
            self.lines += 1;
            return true;
        }
        self.omitted = self.omitted.saturating_add(1);
        false
    }
}

/// The kinds of lines whose rate limit is shared by all connections.
#[derive(Clone, Copy, Debug, PartialEq, Eq)]
pub enum Limited {
    /// An association that stored nothing.
    Association,
    /// A failed store of an association that stored nothing.
    Store,
    /// A data set that was quarantined.
    Quarantined,
    /// A data set that could not be quarantined.
    NotQuarantined,
    /// A file that could not be written.
    File,
    /// File names that could not be synced to the disk.
    Names,
    /// A connection over which no association could be opened.
    Connection,
}

impl Limited {
    pub(crate) const ALL: [Limited; 7] = [
        Limited::Association,
        Limited::Store,
        Limited::Quarantined,
        Limited::NotQuarantined,
        Limited::File,
        Limited::Names,
        Limited::Connection,
    ];

    /// Returns the maximum number of lines in a span, and the duration of the span in seconds: ten
    /// a second for what a peer causes, one a minute for system errors.
    fn rate(self) -> (u64, u64) {
        match self {
            Limited::Association | Limited::Store | Limited::Quarantined => (10, 1),
            Limited::NotQuarantined | Limited::File | Limited::Names | Limited::Connection => {
                (1, 60)
            }
        }
    }

    /// Returns the words for the lines of this kind that were left out, or `None` if each
    /// association logs that itself.
    pub(crate) fn words(self) -> Option<&'static str> {
        match self {
            Limited::Association => Some("associations that stored nothing"),
            Limited::Store => None,
            Limited::Quarantined => Some("data sets in the quarantine"),
            Limited::NotQuarantined => Some("data sets that could not be kept in the quarantine"),
            Limited::File => Some("files that could not be written"),
            Limited::Names => Some("syncs of the folder"),
            Limited::Connection => Some("connections that failed"),
        }
    }
}

/// The rate limits that all connections share, by reference.
#[derive(Drop)]
pub struct LineLimits {
    /// For each kind its limit.
    limits: Cell<[LineLimit; 7]>,
}

impl LineLimits {
    /// Creates the limits before the first line.
    pub fn new() -> LineLimits {
        LineLimits {
            limits: Cell::new([LineLimit::new(); 7]),
        }
    }

    /// Counts a line of this kind. Returns whether it is to be written.
    pub(crate) fn admit(&self, kind: Limited, now: Option<Instant>) -> bool {
        let (most, _) = kind.rate();
        let mut limits = self.limits.get();
        let is_written = limits[kind as usize].admit(now, most);
        self.limits.set(limits);
        is_written
    }

    /// Starts a new span if the last one is over or `now` is `None`. Returns how many lines of this
    /// kind were left out in the last one.
    pub(crate) fn renew(&self, kind: Limited, now: Option<Instant>) -> u64 {
        let mut limits = self.limits.get();
        let limit = limits[kind as usize];
        let (_, seconds) = kind.rate();
        if now.is_some_and(|now| !limit.is_over(now, seconds)) {
            return 0;
        }
        limits[kind as usize] = LineLimit::new();
        self.limits.set(limits);
        limit.omitted
    }
}
