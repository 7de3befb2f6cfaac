//! A file of the disk: its bytes, and how many of them are durable.

use crate::power::survivors::Choices;
use std::alloc::{AllocError, Global};

/// The bytes of a file, which is only ever written at its end.
#[derive(Drop)]
pub(crate) struct Stored {
    bytes: Vec<u8>,
    /// How many bytes the file had at its last sync.
    durable: usize,
    /// Where each write since then ended.
    ends: Vec<usize>,
}

/// Appends the bytes of a file between two offsets, with zeros for lost bytes before them.
fn extend(to: &mut Vec<u8>, bytes: &[u8], from: usize, end: usize) -> Result<(), AllocError> {
    for _ in to.len()..from {
        to.push(0)?;
    }
    to.extend_from_slice(fixtures::bytes::within(bytes, from, end))
}

impl Stored {
    pub(crate) fn new(alloc: Global) -> Stored {
        Stored {
            bytes: Vec::new(alloc),
            durable: 0,
            ends: Vec::new(alloc),
        }
    }

    pub(crate) fn bytes(&self) -> &[u8] {
        self.bytes.as_slice()
    }

    pub(crate) fn append(&mut self, bytes: &[u8]) -> Result<(), AllocError> {
        self.bytes.extend_from_slice(bytes)?;
        self.ends.push(self.bytes.len())?;
        Ok(())
    }

    /// Makes all bytes durable.
    pub(crate) fn sync(&mut self) {
        self.durable = self.bytes.len();
        self.ends.clear();
    }

    /// Returns how many parts of writes may be lost: two for each write.
    pub(crate) fn pending(&self) -> usize {
        self.ends.len().saturating_mul(2)
    }

    /// Returns the file that remains if each half of a write survives by these choices. Lost bytes
    /// before a half that survives read as zeros.
    pub(crate) fn survivor(
        &self,
        alloc: Global,
        choices: &mut Choices,
    ) -> Result<Stored, AllocError> {
        let bytes = self.bytes.as_slice();
        let mut remaining = Vec::from_slice(alloc, fixtures::bytes::front(bytes, self.durable))?;
        let mut start = self.durable;
        for end in &self.ends {
            let middle = start.midpoint(*end);
            if choices.survives() {
                extend(&mut remaining, bytes, start, middle)?;
            }
            if choices.survives() {
                extend(&mut remaining, bytes, middle, *end)?;
            }
            start = *end;
        }
        let durable = remaining.len();
        Ok(Stored {
            bytes: remaining,
            durable,
            ends: Vec::new(alloc),
        })
    }
}
