//! A wire in memory that counts its sends.
ghost use Rattle.pdu.specs.Sent.{line_of};

use pdu::{MemoryWire, Wire, WireFailed};
use std::alloc::Global;

#[derive(Drop)]
pub(crate) struct CountingWire {
    pub(crate) wire: MemoryWire<Global>,
    pub(crate) sends: usize,
}

impl CountingWire {
    pub(crate) fn new(alloc: Global) -> CountingWire {
        CountingWire {
            wire: MemoryWire::new(alloc),
            sends: 0,
        }
    }

    /// Returns whether these bytes were sent in this number of sends.
    pub(crate) fn has_sent(&self, bytes: &[u8], sends: usize) -> bool {
        self.wire.sent() == bytes && self.sends == sends
    }
}

impl Wire for CountingWire {
    ghost line = { λ w. line_of w.wire };

    fn send(&mut self, bytes: &[u8]) -> Result<(), WireFailed> {
        self.sends = self.sends.saturating_add(1);
        self.wire.send(bytes)
    }
}
