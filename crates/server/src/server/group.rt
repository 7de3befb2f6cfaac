//! When the files of several connections are settled together.
ghost use Rattle.std.specs.Prelude.{◌≡◌, ◌≢◌, ◌≤◌, ◌-◌, Some, true, false};
ghost use Rattle.std.specs.Duration.{as_nanos};
ghost use Rattle.std.specs.Time.{instant_nanos};

use std::time::{Duration, Instant};

/// How long a file may wait for others to be settled with it, in milliseconds.
const GATHERING_MILLISECONDS: u64 = 20;

/// How many connections have a file that waits to be settled, and whether others may have one soon.
#[derive(Clone, Copy)]
pub(super) struct Waiting {
    files: u64,
    /// Whether some connection has no file that waits.
    has_others: bool,
    /// Whether some connection without such a file is ready.
    is_ready: bool,
}

impl Waiting {
    /// Returns the count of no connections.
    pub(super) fn new() -> Waiting {
        Waiting {
            files: 0,
            has_others: false,
            is_ready: false,
        }
    }

    /// Counts a connection: `has_pending` if it has a file that waits to be settled, `is_ready` if
    /// its socket is ready.
    pub(super) fn count(&mut self, has_pending: bool, is_ready: bool) {
        if has_pending {
            self.files = self.files.saturating_add(1);
        } else {
            self.has_others = true;
            self.is_ready = self.is_ready || is_ready;
        }
    }

    /// Returns whether more than one file waits to be settled.
    pub(super) fn has_several(self) -> bool {
        self.files > 1
    }
}

/// Decides when the files that wait are settled together.
#[derive(Drop)]
pub(super) struct Group {
    /// When a file was first seen to wait.
    since: Option<Instant>,
    /// Whether the last poll reported an event.
    is_busy: bool,
    /// How long the last settling took. It costs more to wait longer for another file than to
    /// settle this one alone.
    lasted: Duration,
}

impl Group {
    /// Creates a group without files.
    pub(super) fn new() -> Group {
        Group {
            since: None,
            is_busy: false,
            lasted: Duration::ZERO,
        }
    }

    /// Records how long a settling took.
    pub(super) fn settled(&mut self, lasted: Duration)
        ensures lasted { self.new.lasted ≡ lasted }
    {
        self.lasted = lasted;
    }

    /// Records whether a poll reported an event.
    pub(super) fn polled(&mut self, is_busy: bool) {
        self.is_busy = is_busy;
    }

    /// Returns whether the files that wait are to be settled now: each connection has one, or a
    /// poll since the first was seen reported nothing, so that no other is imminent, or the first
    /// has waited for as long as the last settling took, or for `GATHERING_MILLISECONDS`.
    pub(super) fn is_due(&mut self, waiting: Waiting, now: Instant) -> bool
        ensures none { waiting.files ≡ 0 → result ≡ false }
        ensures all { waiting.files ≢ 0 → waiting.has_others ≡ false → result ≡ true }
        ensures idle { waiting.files ≢ 0 → self.old.since ≢ None → self.old.is_busy ≡ false → waiting.is_ready ≡ false → result ≡ true }
        ensures late { (since : Instant) → waiting.files ≢ 0 → self.old.since ≡ Some since → 20000000 ≤ instant_nanos now - instant_nanos since → result ≡ true }
        ensures cheap { (since : Instant) → waiting.files ≢ 0 → self.old.since ≡ Some since → as_nanos self.old.lasted ≤ instant_nanos now - instant_nanos since → result ≡ true }
        ensures noted { waiting.files ≢ 0 → result ≡ false → self.new.since ≢ None }
    {
        let since = self.since;
        self.since = None;
        if waiting.files == 0 {
            return false;
        }
        let is_idle = match since {
            Some(first) => {
                let waited = now.duration_since(first);
                let is_late = waited >= Duration::from_millis(GATHERING_MILLISECONDS);
                is_late || waited >= self.lasted || !(self.is_busy || waiting.is_ready)
            }
            None => false,
        };
        if is_idle || !waiting.has_others {
            return true;
        }
        self.since = match since {
            Some(first) => Some(first),
            None => Some(now),
        };
        false
    }
}
