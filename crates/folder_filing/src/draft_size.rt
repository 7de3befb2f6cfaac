//! The size of a draft.
ghost use Rattle.std.specs.Prelude.{◌≡◌, ◌<◌, ◌+◌, ◌^◌, ℕ, None, Some};

/// The number of bytes that were appended to a draft: first its head, then its data set.
#[derive(Clone, Copy, Debug, PartialEq, Eq)]
pub(crate) struct DraftSize {
    /// The bytes of the first append, if there was one: the head of the file.
    head: Option<u64>,
    /// The bytes of all later appends: those of the data set.
    of_set: u64,
}

impl DraftSize {
    /// The size of an empty draft.
    pub(crate) const EMPTY: DraftSize = DraftSize {
        head: None,
        of_set: 0,
    };

    /// Returns the size after an append of this many bytes.
    pub(crate) fn with(self, count: usize) -> DraftSize
        ensures first { self.head ≡ None → result ≡ record { head = Some count; of_set = self.of_set } }
        ensures additional { (head : ℕ) → self.head ≡ Some head → self.of_set + count < 2 ^ 64 → result ≡ record { head = Some head; of_set = self.of_set + count } }
    {
        match self.head {
            None => DraftSize {
                head: Some(count as u64),
                of_set: self.of_set,
            },
            Some(_) => DraftSize {
                head: self.head,
                of_set: self.of_set.saturating_add(count as u64),
            },
        }
    }

    /// Returns the size of the data set, or `None` for a draft without its head.
    pub(crate) fn data(self) -> Option<u64>
        ensures none { self.head ≡ None → result ≡ None }
        ensures some { (head : ℕ) → self.head ≡ Some head → result ≡ Some self.of_set }
    {
        match self.head {
            None => None,
            Some(_) => Some(self.of_set),
        }
    }
}
