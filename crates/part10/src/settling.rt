//! Storage whose commits may be made durable later, several at once.
ghost use Rattle.std.specs.Prelude.{◌≡◌, ◌&&◌, Bool, OnOk, OnErr, not, true, false};

use crate::filing::{Filing, FilingFailed};

/// A [`Filing`] whose last commit may be pending until it is settled. Before that a power failure
/// may lose its file, so the commit must not be reported yet.
///
/// A pending file is settled in three steps: `write_out` syncs its bytes and gives it its name; one
/// sync makes the names of all pending files durable; `settle` ends the wait, by the result of that
/// sync.
pub trait Settling: Filing {
    /// The result of a sync of names: which files have durable names. Nothing else creates one.
    type Synced;

    /// For contracts: whether the last commit is pending, or its file was lost while it was.
    ghost has_pending: { Self → Bool };

    /// For contracts: whether a sync of names includes the pending file.
    ghost covers: { Self → Self.Synced → Bool };

    /// Returns whether the last commit is pending, or its file was lost while it was.
    fn has_pending(&self) -> bool
        ensures { result ≡ has_pending self.now };

    /// Asks the system to start writing the bytes of the pending file to the disk. Does not block.
    fn start_writing(&self);

    /// Writes the bytes of the pending file to the disk and gives it its name. If this fails, the
    /// file is lost and `settle` fails.
    fn write_out(&mut self)
        ensures store { Self.store self.new ≡ Self.store self.old }
        ensures has_pending { has_pending self.new ≡ has_pending self.old };

    /// Settles the last commit, if it is pending and the sync of names includes its file.
    ///
    /// Fails if the file is lost: it was lost before, or this sync does not include it.
    fn settle(&mut self, synced: &Self::Synced) -> Result<(), FilingFailed>
        ensures store { Self.store self.new ≡ Self.store self.old }
        ensures has_pending { has_pending self.new ≡ (has_pending self.old && not (covers self.old synced.now)) }
        ensures settled { OnOk result (has_pending self.new ≡ false) }
        ensures lost { OnErr result (has_pending self.new ≡ true) };
}
