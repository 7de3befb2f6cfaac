//! A table of the offsets or lengths of frames.
use crate::limits::LONGEST;
use arrayvec::ArrayVec;

/// How a fragment compares with a table of offsets.
#[derive(Clone, Copy)]
pub(crate) enum Met {
    /// The fragment is at the next offset.
    Named,
    /// The fragment continues the current frame.
    Additional,
    /// The next offset is neither that of the fragment nor of a later one.
    Wrong,
}

/// A table that is compared with the fragments after it.
#[derive(Drop)]
pub(crate) struct NumberTable {
    /// The size of a number in bytes: 4 or 8. Numbers are little-endian.
    size: usize,
    /// Whether the table is still checked.
    is_held: bool,
    /// The offset of the table's header.
    offset: u64,
    /// The length of the table in bytes; 0 without a table.
    length: u32,
    bytes: ArrayVec<u8, LONGEST>,
    /// How many bytes of the table were already compared.
    met: usize,
}

impl NumberTable {
    /// Returns a table of numbers of this size in bytes that is not there yet.
    pub(crate) fn new(size: usize) -> NumberTable {
        NumberTable {
            size,
            is_held: false,
            offset: 0,
            length: 0,
            bytes: ArrayVec::new(),
            met: 0,
        }
    }

    /// Starts a table. A table that is empty or longer than `LONGEST` is not checked.
    pub(crate) fn begin(&mut self, offset: u64, length: u32) {
        self.is_held = 0 < length && length as usize <= LONGEST;
        self.offset = offset;
        self.length = length;
        self.bytes.clear();
        self.met = 0;
    }

    /// Discards the table.
    pub(crate) fn forget(&mut self) {
        self.is_held = false;
        self.length = 0;
    }

    /// Stops checking the table.
    pub(crate) fn close(&mut self) {
        self.is_held = false;
    }

    pub(crate) fn is_held(&self) -> bool {
        self.is_held
    }

    pub(crate) fn offset(&self) -> u64 {
        self.offset
    }

    /// Returns the length of the table in bytes; 0 without a table.
    pub(crate) fn length(&self) -> u32 {
        self.length
    }

    /// Stores bytes of the table.
    pub(crate) fn take(&mut self, bytes: &[u8]) {
        if self.is_held {
            let _ = self.bytes.try_extend_from_slice(bytes);
        }
    }

    /// Returns the next number, or `None` after the last.
    fn next(&self) -> Option<u64> {
        match (self.size, self.bytes.as_slice().get(self.met..)?) {
            (4, [a, b, c, d, ..]) => Some(u64::from(u32::from_le_bytes([*a, *b, *c, *d]))),
            (8, [a, b, c, d, e, f, g, h, ..]) => {
                Some(u64::from_le_bytes([*a, *b, *c, *d, *e, *f, *g, *h]))
            }
            _ => None,
        }
    }

    /// Moves on to the number after `next`.
    fn advance(&mut self) {
        self.met = self.met.saturating_add(self.size);
    }

    /// Compares the next offset of the table with a fragment at offset `at` from the first: the
    /// next offset must be `at` or that of a later fragment, and 0 for the first.
    pub(crate) fn meet_offset(&mut self, at: u64) -> Met {
        match self.next() {
            None => Met::Additional,
            Some(offset) if offset == at => {
                self.advance();
                Met::Named
            }
            Some(offset) if at > 0 && at < offset => Met::Additional,
            Some(_) => {
                self.close();
                Met::Wrong
            }
        }
    }

    /// Compares the next length of the table with a frame's only fragment, of this length. Returns
    /// whether they agree; an odd length is padded by one byte.
    pub(crate) fn meet_length(&mut self, fragment: u32) -> bool {
        match self.next() {
            None => true,
            Some(length) => {
                self.advance();
                length.saturating_add(length % 2) == u64::from(fragment)
            }
        }
    }

    /// Returns whether the table has a number that was not compared.
    pub(crate) fn has_more(&self) -> bool {
        self.met < self.bytes.len()
    }

    /// Returns how many numbers the table has.
    pub(crate) fn count(&self) -> u64 {
        self.bytes.len().checked_div(self.size).unwrap_or(0) as u64
    }
}
