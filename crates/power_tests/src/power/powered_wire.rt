//! A wire that sends while there is power.
ghost use Rattle.std.specs.Prelude.{None};

use crate::power::disk::Shared;
use element::count::Count;
use pdu::{MemoryWire, Wire, WireFailed};
use std::alloc::Global;

/// A wire in memory that fails once the disk has lost power.
#[derive(Drop)]
pub(crate) struct PoweredWire {
    wire: MemoryWire<Global>,
    disk: Shared,
    failures: Count,
}

impl PoweredWire {
    pub(crate) fn new(alloc: Global, disk: Shared) -> PoweredWire {
        PoweredWire {
            wire: MemoryWire::new(alloc),
            disk,
            failures: Count::new(),
        }
    }

    /// Returns the bytes sent.
    pub(crate) fn sent(&self) -> &[u8] {
        self.wire.sent()
    }
}

impl Wire for PoweredWire {
    ghost line = { λ w. record { sent = None; failures = w.failures } };

    fn send(&mut self, bytes: &[u8]) -> Result<(), WireFailed> {
        let has_power = match self.disk.try_borrow_mut() {
            Ok(disk) => {
                let mut disk = disk;
                disk.sends()
            }
            Err(_) => false,
        };
        if !has_power || self.wire.send(bytes).is_err() {
            self.failures.add_one();
            return Err(WireFailed);
        }
        Ok(())
    }
}
