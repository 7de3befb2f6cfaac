//! A wire with one failing send.
ghost use Rattle.std.specs.Prelude.{None};

use element::count::Count;
use pdu::{MemoryWire, Wire, WireFailed};
use std::alloc::Global;

/// A wire in memory with one failing send.
#[derive(Drop)]
pub(crate) struct FailingWire {
    wire: MemoryWire<Global>,
    /// The index of the failing send, counted from 0.
    at: usize,
    /// How many bytes of the failing send are sent; all, if it has fewer.
    front: usize,
    sends: usize,
    has_failed: bool,
    failures: Count,
}

impl FailingWire {
    pub(crate) fn new(alloc: Global, at: usize, front: usize) -> FailingWire {
        FailingWire {
            wire: MemoryWire::new(alloc),
            at,
            front,
            sends: 0,
            has_failed: false,
            failures: Count::new(),
        }
    }

    /// Returns the bytes sent so far.
    pub(crate) fn sent(&self) -> &[u8] {
        self.wire.sent()
    }

    /// Returns how many sends were made.
    pub(crate) fn sends(&self) -> usize {
        self.sends
    }

    /// Returns whether the send failed.
    pub(crate) fn has_failed(&self) -> bool {
        self.has_failed
    }
}

impl Wire for FailingWire {
    ghost line = { λ w. record { sent = None; failures = w.failures } };

    fn send(&mut self, bytes: &[u8]) -> Result<(), WireFailed> {
        let fails = self.sends == self.at;
        self.sends = self.sends.saturating_add(1);
        let front = if fails {
            bytes.get(..self.front).unwrap_or(bytes)
        } else {
            bytes
        };
        if self.wire.send(front).is_err() || fails {
            self.has_failed = true;
            self.failures.add_one();
            return Err(WireFailed);
        }
        Ok(())
    }
}
