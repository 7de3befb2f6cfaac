//! The state of the numbering of a filing's files.
ghost use Rattle.std.specs.Prelude.{◌≡◌, ◌≤◌, OnOk, OnErr, ◌∷◌, [], None, true};
ghost use Rattle.folder_filing.specs.declared.call.Call.TheVariants as seen;

use crate::drafts::DraftPath;
use crate::folder_calls::FolderCalls;
use crate::location::{Layout, Location};
use crate::numbers::NumbersFile;
use element::history::History;
use std::alloc::Allocator;
use std::marker::Model;

/// The state of a filing's numbering: its draft, the location of the last file, the file of
/// numbers, if one is used, and for contracts the system calls that gave names.
#[derive(Drop)]
pub(crate) struct GivenNames<A: Allocator> {
    /// The path of the filing's draft.
    pub(crate) draft: DraftPath<A>,
    pub(crate) layout: Layout,
    /// The location of the folder's last file, of any filing, when this filing last checked.
    pub(crate) last: Location,
    pub(crate) numbers: Option<NumbersFile<A>>,
    /// Whether files and their names are synced to the disk.
    pub(crate) has_sync: bool,
    pub(crate) calls: FolderCalls,
    /// For contracts: the locations of the files whose commits were reported, oldest first.
    reported: History<Location>,
}

impl<A: Allocator> Model for GivenNames<A> {
    ghost use Rattle.std.specs.Prelude.{option_map, reverse};
    ghost use Rattle.folder_filing.specs.Naming.{Naming};

    ghost Value = { Naming };

    ghost view = { λ n. record {
      own = record { draft = n.draft; reported = reverse n.reported };
      layout = n.layout;
      last = n.last;
      kept = option_map (λ f. f.kept) n.numbers;
      has_sync = n.has_sync;
      calls = n.calls;
    } };
}

impl<A: Allocator> GivenNames<A> {
    ghost use Rattle.folder_filing.specs.Naming.{IsNameSynced, IsNewest, IsOrderly, is_unreported, standing};

    /// Creates the state before the first commit. The next file is numbered after `last`.
    pub(crate) fn new(
        draft: DraftPath<A>,
        layout: Layout,
        last: Location,
        numbers: Option<NumbersFile<A>>,
        has_sync: bool,
    ) -> GivenNames<A>
        ensures own { result.own ≡ record { draft = draft; reported = [] } }
        ensures none { result.calls ≡ [] }
        ensures layout { result.layout ≡ layout }
        ensures last { result.last ≡ last }
        ensures sync { result.has_sync ≡ has_sync }
        ensures orderly { IsOrderly result }
    {
        GivenNames {
            draft,
            layout,
            last,
            numbers,
            has_sync,
            calls: FolderCalls::new(),
            reported: History::new(),
        }
    }

    /// Records that the commit of the file at this location, the last one named, is reported, for
    /// the first time.
    pub(crate) fn report(&mut self, location: Location)
        requires newest { ∥ IsNewest location (standing self.old.calls) ∥₁ }
        requires unreported { is_unreported self.old.calls ≡ true }
        requires synced { self.old.has_sync ≡ true → IsNameSynced self.old.calls }
        ensures reported { self.new ≡ record self.old {
          own = record self.old.own { reported = location ∷ self.old.own.reported };
          calls = seen.Reported location ∷ self.old.calls;
        } }
        ensures orderly { ∥ IsOrderly self.old ∥₁ → ∥ IsOrderly self.new ∥₁ }
    {
        self.calls.report(location);
        self.reported.push(&location);
    }
}
