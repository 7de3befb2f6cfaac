//! A wire and a filing that allocate nothing.
ghost use Rattle.std.specs.Prelude.{None};

use arrayvec::ArrayVec;
use element::count::Count;
use part10::{Filing, FilingFailed};
use pdu::{Wire, WireFailed};

/// A wire that has room for an A-ASSOCIATE-AC and a reply.
#[derive(Drop)]
pub(crate) struct StillWire {
    sent: ArrayVec<u8, 512>,
    failures: Count,
}

impl StillWire {
    pub(crate) fn new() -> StillWire {
        StillWire {
            sent: ArrayVec::new(),
            failures: Count::new(),
        }
    }

    /// The bytes sent so far.
    pub(crate) fn sent(&self) -> &[u8] {
        self.sent.as_slice()
    }
}

impl Wire for StillWire {
    ghost line = { λ w. record { sent = None; failures = w.failures } };

    fn send(&mut self, bytes: &[u8]) -> Result<(), WireFailed> {
        if self.sent.try_extend_from_slice(bytes).is_err() {
            self.failures.add_one();
            return Err(WireFailed);
        }
        Ok(())
    }
}

/// As many zeros as are appended at once.
static ZEROS: [u8; 4096] = [0; 4096];

/// A filing of one file with zeros after its front. It checks the bytes when they are appended and
/// keeps none.
#[derive(Drop)]
pub(crate) struct StillFiling<'a> {
    front: &'a [u8],
    has_draft: bool,
    /// The size of the last draft in bytes.
    length: usize,
    /// Whether each byte was as expected.
    is_right: bool,
    started: usize,
    committed: usize,
}

/// Returns whether the bytes are those of the file from this offset.
fn are_at(front: &[u8], offset: usize, bytes: &[u8]) -> bool {
    let rest = front.get(offset..).unwrap_or(&[]);
    let (first, zeros) = bytes.split_at(rest.len().min(bytes.len()));
    rest.starts_with(first) && ZEROS.starts_with(zeros)
}

impl<'a> StillFiling<'a> {
    pub(crate) fn new(front: &'a [u8]) -> StillFiling<'a> {
        StillFiling {
            front,
            has_draft: false,
            length: 0,
            is_right: true,
            started: 0,
            committed: 0,
        }
    }

    /// Returns whether one draft was started and filed, of this size and with the expected bytes.
    pub(crate) fn has_filed(&self, length: usize) -> bool {
        (self.started, self.committed) == (1, 1) && self.is_right && self.length == length
    }

    /// Returns whether nothing was filed, and there is no draft.
    pub(crate) fn is_empty(&self) -> bool {
        self.committed == 0 && !self.has_draft
    }
}

impl Filing for StillFiling<'_> {
    ghost store = { λ f. record { reported = None; has_draft = f.has_draft; failures = 0 } };

    fn begin(&mut self) -> Result<(), FilingFailed> {
        self.has_draft = true;
        self.length = 0;
        self.started = self.started.saturating_add(1);
        Ok(())
    }

    fn append(&mut self, bytes: &[u8]) -> Result<(), FilingFailed> {
        self.is_right = self.is_right && are_at(self.front, self.length, bytes);
        self.length = self.length.saturating_add(bytes.len());
        Ok(())
    }

    fn commit(&mut self) -> Result<(), FilingFailed> {
        self.has_draft = false;
        self.committed = self.committed.saturating_add(1);
        Ok(())
    }

    fn discard(&mut self) {
        self.has_draft = false;
    }
}
