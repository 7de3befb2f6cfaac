//! Counts and numbers the data sets of a quarantine.
ghost use Rattle.std.specs.Prelude.{◌≡◌, ◌≤◌, ◌<◌, ◌+◌, ◌-◌, ◌↔◌, IfSome, IsSome, IsTrue};

/// The greatest number of a data set in a quarantine.
const GREATEST: u32 = 999_999;

/// How many data sets a quarantine has, how many it may have, and the last number given.
#[derive(Clone, Copy, Debug, PartialEq, Eq)]
pub(crate) struct Occupancy {
    /// The greatest number of data sets.
    pub(crate) most: u32,
    /// How many data sets are kept.
    pub(crate) kept: u32,
    /// How many drafts were moved there and are neither kept nor removed yet.
    pub(crate) pending: u32,
    /// The greatest number that was found or given.
    pub(crate) last: u32,
}

impl Occupancy {
    /// Counts one more pending draft, under the next number. Returns `None` if the quarantine is
    /// full or all numbers are in use.
    pub(crate) fn with_pending(self) -> Option<Occupancy>
        ensures next { IfSome result (λ new. new ≡ record self { pending = self.pending + 1; last = self.last + 1 }) }
        ensures most { IfSome result (λ new. new.kept + new.pending ≤ self.most) }
        ensures number { IfSome result (λ new. new.last ≤ 999999) }
        ensures some { self.kept + self.pending < self.most → self.last < 999999 → IsSome result }
    {
        let used = u64::from(self.kept) + u64::from(self.pending);
        if used >= u64::from(self.most) || self.last >= GREATEST {
            return None;
        }
        Some(Occupancy {
            pending: self.pending + 1,
            last: self.last + 1,
            ..self
        })
    }

    /// Counts a pending draft as kept.
    pub(crate) fn with_kept(self) -> Occupancy
        ensures { 0 < self.pending → self.kept + self.pending ≤ self.most → result ≡ record self { kept = self.kept + 1; pending = self.pending - 1 } }
    {
        Occupancy {
            kept: self.kept.saturating_add(1),
            pending: self.pending.saturating_sub(1),
            ..self
        }
    }

    /// Removes a pending draft from the count.
    pub(crate) fn without_pending(self) -> Occupancy
        ensures { result ≡ record self { pending = self.pending - 1 } }
    {
        let pending = self.pending.saturating_sub(1);
        Occupancy { pending, ..self }
    }

    /// Returns the state after this many data sets were found, with this greatest number. No number
    /// is given again.
    pub(crate) fn counted(self, kept: u32, last: u32) -> Occupancy
        ensures kept { result.kept ≡ kept }
        ensures same { (result.most ≡ self.most) × (result.pending ≡ self.pending) }
        ensures rises { self.last ≤ result.last }
        ensures found { last ≤ result.last }
    {
        Occupancy {
            kept,
            last: self.last.max(last),
            ..self
        }
    }

    /// Returns whether as many data sets are kept as allowed.
    pub(crate) fn is_full(self) -> bool
        ensures { IsTrue result ↔ (self.most ≤ self.kept) }
    {
        self.kept >= self.most
    }
}
