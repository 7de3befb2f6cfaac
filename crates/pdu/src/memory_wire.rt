//! A [`Wire`] that appends to a buffer in memory.
ghost use Rattle.std.specs.Prelude.{◌≡◌, ◌<◌, ◌↔◌, [], IsTrue};
ghost use Rattle.pdu.specs.Sent.{line_of};

use crate::wire::{Wire, WireFailed};
use element::count::Count;
use std::alloc::Allocator;
use std::marker::Model;

/// A [`Wire`] that appends the sent bytes to a vector. A send fails if the allocator does, and has
/// then sent no byte.
#[derive(Drop)]
pub struct MemoryWire<A: Allocator> {
    bytes: Vec<u8, A>,
    has_failed: bool,
    failures: Count,
}

impl<A: Allocator> Model for MemoryWire<A> {
    ghost use Rattle.std.specs.Prelude.{◌<◌, ◌↔◌, IsTrue};
    ghost use Rattle.pdu.specs.Sent.{Memory};

    ghost Value = { Memory };

    ghost view = { λ w. record { sent = w.bytes.items; failures = w.failures } };

    ghost invariant = { λ w. IsTrue w.has_failed ↔ (0 < w.failures) };
}

impl<A: Allocator> MemoryWire<A> {
    /// Creates a wire with an empty vector. Allocates nothing.
    pub fn new(alloc: A) -> MemoryWire<A>
        ensures nothing { result.sent ≡ [] }
        ensures never { result.failures ≡ 0 }
    {
        MemoryWire {
            bytes: Vec::new(alloc),
            has_failed: false,
            failures: Count::new(),
        }
    }

    /// Returns the bytes sent so far.
    pub fn sent(&self) -> &[u8]
        ensures { result.now ≡ self.now.sent }
    {
        self.bytes.as_slice()
    }

    /// Returns whether a send has failed.
    pub fn failed(&self) -> bool
        ensures { IsTrue result ↔ (0 < self.now.failures) }
    {
        self.has_failed
    }
}

impl<A: Allocator> Wire for MemoryWire<A> {
    ghost line = { line_of };

    fn send(&mut self, bytes: &[u8]) -> Result<(), WireFailed> {
        if self.bytes.extend_from_slice(bytes).is_err() {
            self.has_failed = true;
            self.failures.add_one();
            return Err(WireFailed);
        }
        Ok(())
    }
}
