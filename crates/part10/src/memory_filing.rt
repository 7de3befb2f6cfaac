//! A [`Filing`] that stores files in memory.
ghost use Rattle.std.specs.Prelude.{◌≡◌, ◌+◌, [], None, map};
ghost use Rattle.part10.specs.Store.{store_of};

use crate::filing::{Filing, FilingFailed};
use crate::settling::Settling;
use element::count::Count;
use std::alloc::Allocator;
use std::marker::Model;

/// A [`Filing`] that stores files in memory. A call fails if the allocator does.
#[derive(Drop)]
pub struct MemoryFiling<A: Allocator + Copy> {
    alloc: A,
    files: Vec<Vec<u8, A>, A>,
    draft: Option<Vec<u8, A>>,
    failures: Count,
}

impl<A: Allocator + Copy> Model for MemoryFiling<A> {
    ghost use Rattle.std.specs.Prelude.{map, option_map};
    ghost use Rattle.part10.specs.Store.{MemoryState};

    ghost Value = { MemoryState };

    ghost view = { λ f. record { files = map (λ v. v.items) f.files.items; draft = option_map (λ v. v.items) f.draft; failures = f.failures } };
}

impl<A: Allocator + Copy> MemoryFiling<A> {
    /// Creates a filing without files and without a draft. Allocates nothing.
    pub fn new(alloc: A) -> MemoryFiling<A>
        ensures files { result.files ≡ [] }
        ensures draft { result.draft ≡ None }
        ensures never { result.failures ≡ 0 }
    {
        MemoryFiling {
            alloc,
            files: Vec::new(alloc),
            draft: None,
            failures: Count::new(),
        }
    }

    /// Returns the files, oldest first.
    pub fn files(&self) -> &[Vec<u8, A>]
        ensures { map (λ v. v.items) result.now ≡ self.now.files }
    {
        self.files.as_slice()
    }

    /// Drops the draft and counts a failure.
    fn fail(&mut self)
        ensures files { self.new.files ≡ self.old.files }
        ensures draft { self.new.draft ≡ None }
        ensures counted { self.new.failures ≡ self.old.failures + 1 }
    {
        self.draft = None;
        self.failures.add_one();
    }
}

impl<A: Allocator + Copy> Filing for MemoryFiling<A> {
    ghost store = { λ f. store_of f };

    fn begin(&mut self) -> Result<(), FilingFailed> {
        self.draft = Some(Vec::new(self.alloc));
        Ok(())
    }

    fn append(&mut self, bytes: &[u8]) -> Result<(), FilingFailed> {
        if let Some(draft) = &mut self.draft {
            if draft.extend_from_slice(bytes).is_ok() {
                return Ok(());
            }
        }
        self.fail();
        Err(FilingFailed)
    }

    fn commit(&mut self) -> Result<(), FilingFailed> {
        if let Some(draft) = self.draft.take() {
            if self.files.push(draft).is_ok() {
                return Ok(());
            }
        }
        self.fail();
        Err(FilingFailed)
    }

    fn discard(&mut self) {
        let _draft = self.draft.take();
    }
}

/// No commit is ever pending: each is settled at once.
impl<A: Allocator + Copy> Settling for MemoryFiling<A> {
    ghost use Rattle.std.specs.Prelude.{false, true};

    type Synced = ();

    ghost has_pending = { λ f. false };

    ghost covers = { λ f synced. true };

    fn has_pending(&self) -> bool {
        false
    }

    fn start_writing(&self) {}

    fn write_out(&mut self) {}

    fn settle(&mut self, _synced: &()) -> Result<(), FilingFailed> {
        Ok(())
    }
}
