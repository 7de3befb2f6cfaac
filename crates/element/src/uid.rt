//! Unique identifiers.
ghost use Rattle.std.specs.Prelude.{◌≡◌, length, nat_eq, true};
ghost use Rattle.std.specs.List.{list_all};
ghost use Rattle.std.specs.Cmp.Lexicographic.{pointwise};
ghost use Rattle.std.specs.Cmp.Rules.{comparing};
ghost use Rattle.std.proofs.Common.{rules};
ghost use Rattle.element.specs.Uid.{uid_of};
ghost use Rattle.element.specs.Uid as spelling;

use crate::unpadded;
use arrayvec::ArrayVec;
use std::marker::Model;

/// A unique identifier: 1 to 64 digits and dots (PS3.5 section 9).
#[derive(Debug, Drop)]
pub struct Uid {
    text: ArrayVec<u8, 64>,
}

impl Model for Uid {
    ghost use Rattle.std.specs.Prelude.{◌≡◌, List, ℕ, true};
    ghost use Rattle.element.specs.Uid.{is_uid};

    ghost Value = { List ℕ };

    ghost view = { λ u. u.text.items };

    ghost invariant = { λ u. is_uid u.text.items ≡ true };
}

fn is_uid_character(byte: u8) -> bool
    ensures { result ≡ spelling.is_uid_character byte }
{
    byte.is_ascii_digit() || byte == b'.'
}

fn are_uid_characters(text: &[u8]) -> bool
    ensures { result ≡ list_all spelling.is_uid_character text.now }
{
    text.iter().all(|byte| is_uid_character(*byte))
}

fn is_uid(text: &[u8]) -> bool
    ensures { result ≡ spelling.is_uid text.now }
{
    !text.is_empty() && text.len() <= 64 && are_uid_characters(text)
}

impl Uid {
    /// Reads a unique identifier from a value or from a field of a PDU. Drops the zero bytes and
    /// spaces at its end; returns `None` if the rest is not 1 to 64 digits and dots.
    pub fn read(bytes: &[u8]) -> Option<Uid>
        ensures { result ≡ uid_of bytes.now }
    {
        let rest = unpadded(bytes);
        if !is_uid(rest) {
            return None;
        }
        let mut text = ArrayVec::new();
        // This succeeds: an identifier has at most 64 characters.
        let _ = text.try_extend_from_slice(rest);
        Some(Uid { text })
    }

    /// Returns the digits and dots of the identifier, without padding.
    pub fn as_bytes(&self) -> &[u8]
        ensures { result.now ≡ self.now }
    {
        self.text.as_slice()
    }

    /// Returns the number of digits and dots without padding, 1 to 64.
    pub fn len(&self) -> usize
        ensures count { result ≡ length self.now }
        ensures known { spelling.is_uid self.now ≡ true }
    {
        self.text.len()
    }

    /// Returns a copy of the identifier. Unlike `Clone` it allocates nothing and cannot fail.
    pub fn copied(&self) -> Uid
        ensures { result ≡ self.now }
    {
        let own = &self.text;
        let mut text = ArrayVec::new();
        // This succeeds: both vectors have the same capacity.
        let _ = text.try_extend_from_slice(own.as_slice());
        Uid { text }
    }
}

impl PartialEq for Uid {
    ghost eq = { pointwise nat_eq };

    ghost laws = { Prim.search (comparing, rules) };

    fn eq(&self, other: &Uid) -> bool {
        self.as_bytes() == other.as_bytes()
    }
}

impl Eq for Uid {
    ghost laws = { Prim.search (comparing, rules) };
}
