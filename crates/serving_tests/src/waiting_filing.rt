//! A test filing whose files wait to be settled.
ghost use Rattle.std.specs.Prelude.{◌≡◌, true};
ghost use Rattle.part10.specs.Store.{store_of};

use part10::{Filing, FilingFailed, MemoryFiling, Settling};
use std::alloc::Global;

/// A filing in memory whose files wait to be settled if `each_waits`.
#[derive(Drop)]
pub struct WaitingFiling {
    pub files: MemoryFiling<Global>,
    /// Whether each file waits.
    each_waits: bool,
    has_pending: bool,
}

impl WaitingFiling {
    /// Creates a filing without files.
    pub fn new(alloc: Global, each_waits: bool) -> WaitingFiling {
        WaitingFiling {
            files: MemoryFiling::new(alloc),
            each_waits,
            has_pending: false,
        }
    }
}

impl Filing for WaitingFiling {
    ghost store = { λ f. store_of f.files };

    fn begin(&mut self) -> Result<(), FilingFailed> {
        self.files.begin()
    }

    fn append(&mut self, bytes: &[u8]) -> Result<(), FilingFailed> {
        self.files.append(bytes)
    }

    fn commit(&mut self) -> Result<(), FilingFailed> {
        let committed = self.files.commit();
        self.has_pending = self.has_pending || self.each_waits && committed.is_ok();
        committed
    }

    fn discard(&mut self) {
        self.files.discard();
    }
}

impl Settling for WaitingFiling {
    /// Whether the names are synced to the disk.
    type Synced = bool;

    ghost has_pending = { λ f. f.has_pending };

    ghost covers = { λ f are_named. are_named };

    fn has_pending(&self) -> bool {
        self.has_pending
    }

    fn start_writing(&self) {}

    fn write_out(&mut self) {}

    /// Fails if the names are not synced to the disk.
    fn settle(&mut self, are_named: &bool) -> Result<(), FilingFailed> {
        if self.has_pending && !*are_named {
            return Err(FilingFailed);
        }
        self.has_pending = false;
        Ok(())
    }
}
