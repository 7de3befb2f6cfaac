//! Open levels: the unfinished sequences and items.
ghost use Rattle.std.specs.Prelude.{◌≡◌, ℕ, ◌<◌, ◌≤◌, ◌^◌, ◌+◌, ◌-◌, length, IfSome};
ghost use Rattle.sequence.specs.Fields as fields;

use crate::coding::Coding;

/// An unfinished sequence or item, or the data set itself.
#[derive(Clone, Copy)]
pub struct Scope {
    /// Whether it is a sequence, which contains items; otherwise it contains elements.
    pub in_sequence: bool,
    pub syntax: Coding,
    /// Its end as an offset in the data set, in bytes; `None` for undefined length and for the data
    /// set itself.
    pub stop: Option<u64>,
    /// The tag of its last element so far as a number, 0 if there is none.
    pub last: u32,
}

/// An open level: a [`Scope`] packed into 16 bytes.
#[derive(Clone, Copy, Default)]
pub struct Level {
    /// Its end as an offset in the data set, in bytes, or `u64::MAX` for undefined length.
    pub end: u64,
    /// The tag of its last element so far as a number, 0 if there is none.
    pub last: u32,
    /// 1 for a sequence, 0 for an item.
    pub kind: u8,
    /// The number of its [`Coding`], despite the field's name: 0 `Explicit`, 1 `Implicit`, 2
    /// `Encapsulated`, 3 `Fragments`.
    pub implicit: u8,
}

/// Returns the encoding with this number (see [`Level::implicit`]); `Explicit` for any number above
/// 3.
fn coding_by(number: u8) -> Coding
    ensures { result ≡ fields.coding_by number }
{
    match number {
        1 => Coding::Implicit,
        2 => Coding::Encapsulated,
        3 => Coding::Fragments,
        _ => Coding::Explicit,
    }
}

impl Level {
    ghost use Rattle.std.specs.Prelude.{◌≡◌, ℕ, ◌<◌, ◌≤◌, ◌^◌, ◌+◌, ◌-◌, length, IfSome};
    ghost use Rattle.sequence.specs.Fields.{scope_of};
    ghost use Rattle.sequence.specs.machine.Machine.{stops_at};

    pub(crate) fn scope(self) -> Scope
        ensures { result ≡ scope_of self }
    {
        Scope {
            in_sequence: self.kind == 1,
            syntax: coding_by(self.implicit),
            stop: if self.end == u64::MAX {
                None
            } else {
                Some(self.end)
            },
            last: self.last,
        }
    }

    pub(crate) fn new(scope: Scope) -> Level
        requires { IfSome scope.stop (λ end. end < 2 ^ 64 - 1) }
        ensures { scope_of result ≡ scope }
    {
        Level {
            end: match scope.stop {
                None => u64::MAX,
                Some(end) => end,
            },
            last: scope.last,
            kind: if scope.in_sequence { 1 } else { 0 },
            implicit: match scope.syntax {
                Coding::Implicit => 1,
                Coding::Encapsulated => 2,
                Coding::Fragments => 3,
                Coding::Explicit => 0,
            },
        }
    }

    /// Returns whether the level has defined length and ends at the offset `offset`.
    pub(crate) fn ends_at(&self, offset: u64) -> bool
        requires { offset < 2 ^ 64 - 1 }
        ensures { result ≡ stops_at (scope_of self.now).stop offset }
    {
        self.end == offset
    }

    /// Sets the tag, as a number, of the last element in the level.
    pub(crate) fn set_last(&mut self, last: u32)
        ensures { scope_of self.new ≡ record (scope_of self.old) { last = last } }
    {
        self.last = last;
    }
}
