//! Starts the writeback of a draft while it is received.
ghost use Rattle.std.specs.Prelude.{◌≡◌, ◌≤◌, ◌<◌, ◌+◌, ◌^◌, IfNone, IfSome, IsSome};

use libc::POSIX_FADV_DONTNEED;
use std::os::fd::RawFd;

/// The least number of bytes for which writeback is started: 4 MiB.
const STEP: u64 = 4_194_304;

/// A range of bytes of a file.
#[derive(Clone, Copy)]
struct Extent {
    /// The offset of its first byte in the file.
    from: u64,
    /// The number of its bytes.
    count: u64,
}

/// The part of a draft whose writeback was started.
///
/// The sync of a commit waits until the disk has every byte of the draft. So the system is advised
/// to start writing the appended bytes each time they reach 4 MiB: then the sync of a large draft
/// has little to write.
// It stands beside the file: a type around the file would be in all goals up to `server`.
#[derive(Drop)]
pub(crate) struct Writeback {
    /// The descriptor of the draft's file, if it is a file of the system.
    descriptor: Option<RawFd>,
    /// The offset up to which writeback was started.
    from: u64,
    /// The number of bytes that were appended from that offset on.
    waiting: u64,
}

impl Writeback {
    /// Creates the state of an empty draft, whose file has this descriptor.
    pub(crate) fn new(descriptor: Option<RawFd>) -> Writeback
        ensures from { result.from ≡ 0 }
        ensures waiting { result.waiting ≡ 0 }
    {
        Writeback {
            descriptor,
            from: 0,
            waiting: 0,
        }
    }

    /// Counts appended bytes, and returns the range whose writeback is to be started now: all bytes
    /// after the last range, if they reach 4 MiB. Each byte is in at most one range.
    fn add(&mut self, count: usize) -> Option<Extent>
        ensures from { IfSome result (λ range. range.from ≡ self.old.from) }
        ensures until { IfSome result (λ range. range.from + range.count ≡ self.new.from) }
        ensures least { IfSome result (λ range. 4194304 ≤ range.count) }
        ensures none { IfNone result (self.new.from ≡ self.old.from) }
        ensures some { 4194304 ≤ self.old.waiting + count → self.old.from + self.old.waiting + count < 2 ^ 64 → IsSome result }
        ensures consumed { self.old.from + self.old.waiting + count < 2 ^ 64 → self.new.from + self.new.waiting ≡ self.old.from + self.old.waiting + count }
    {
        let waiting = self.waiting.saturating_add(count as u64);
        match self.from.checked_add(waiting) {
            Some(until) if waiting >= STEP => {
                let from = self.from;
                self.from = until;
                self.waiting = 0;
                Some(Extent {
                    from,
                    count: waiting,
                })
            }
            _ => {
                self.waiting = waiting;
                None
            }
        }
    }

    /// Returns the range of the bytes whose writeback was not started.
    fn rest(&self) -> Extent
        ensures from { result.from ≡ self.now.from }
        ensures count { result.count ≡ self.now.waiting }
    {
        Extent {
            from: self.from,
            count: self.waiting,
        }
    }

    /// Advises the system to start the writeback of a range.
    ///
    /// `POSIX_FADV_DONTNEED` is that advice: Linux starts to write the dirty pages of the range and
    /// does not wait for them. A failed advice is ignored, since nothing depends on it: the sync of
    /// the commit writes each byte that is not on the disk yet, or fails. It also fails if earlier
    /// writeback has failed.
    fn advise(&self, range: Extent) {
        let Some(descriptor) = self.descriptor else {
            return;
        };
        if let (Ok(from), Ok(count)) = (i64::try_from(range.from), i64::try_from(range.count)) {
            let _status = libc::posix_fadvise(descriptor, from, count, POSIX_FADV_DONTNEED);
        }
    }

    /// Counts bytes that were appended to the draft's file, and starts the writeback of the next
    /// range if it is due.
    pub(crate) fn appended(&mut self, count: usize) {
        if let Some(range) = self.add(count) {
            self.advise(range);
        }
    }

    /// Starts the writeback of the remaining bytes of a file that gets no more. The file must still
    /// be open.
    pub(crate) fn start_rest(&self) {
        let rest = self.rest();
        if rest.count > 0 {
            self.advise(rest);
        }
    }
}
