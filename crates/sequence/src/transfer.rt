//! The encoding of a data set by its transfer syntax.
ghost use Rattle.std.specs.Prelude.{◌≡◌, ◌≤◌, ◌^◌, ◌+◌, []};
ghost use Rattle.sequence.specs.Transfer.{coding_in};

use crate::coding::Coding;
use crate::walker::Walker;
use crate::wanted::Wanted;
use dictionary::Transfer;

impl Coding {
    /// Returns the encoding of a data set in this transfer syntax.
    pub fn in_transfer(transfer: Transfer) -> Coding
        ensures { result ≡ coding_in transfer }
    {
        if transfer.is_encapsulated() {
            Coding::Encapsulated
        } else {
            Coding::of(transfer.syntax())
        }
    }
}

impl<const V: usize, const D: usize> Walker<V, D> {
    ghost use Rattle.sequence.specs.Stored.{wanted_tags};
    ghost use Rattle.sequence.specs.Consumed.{StandsAt, limits_of, walker_syntax};
    ghost use Rattle.sequence.specs.Wanted.{rooms};

    /// Creates a walker for a data set of at most `limit` bytes in this transfer syntax, which
    /// keeps the values of the wanted tags.
    pub fn in_transfer(transfer: Transfer, wanted: Wanted, limit: u64) -> Self
        requires least_kept { 140 ≤ V }
        requires greatest_kept { V ≤ 2 ^ 24 }
        requires least_levels { 2 ≤ D }
        requires greatest_levels { D ≤ 2 ^ 24 }
        requires limit { limit ≤ 2 ^ 48 }
        requires rooms { rooms (wanted_tags wanted) + 12 ≤ V }
        ensures stands { StandsAt result [] }
        ensures syntax { walker_syntax result ≡ coding_in transfer }
        ensures limits { limits_of result ≡ record { wanted = wanted_tags wanted; depth = D; bytes = limit } }
    {
        if transfer.is_encapsulated() {
            Walker::encapsulated(wanted, limit)
        } else {
            Walker::new(transfer.syntax(), wanted, limit)
        }
    }
}
