//! The names and the paths of drafts, the files that are being received.
ghost use Rattle.std.specs.Prelude.{◌≡◌, IfOk};
ghost use Rattle.folder_filing.specs.EntryNames as entry_names;

use crate::folder_calls::remove_remaining;
use std::alloc::{AllocError, Allocator};
use std::io;
use std::marker::Model;
use std::rt::Files;

/// The path of a draft. Removing it never costs a committed file its name. Its value in contracts
/// is the number of the draft.
#[derive(Drop)]
pub(crate) struct DraftPath<A: Allocator> {
    number: u32,
    text: String<A>,
}

impl<A: Allocator> Model for DraftPath<A> {
    ghost use Rattle.std.specs.Prelude.{ℕ};

    ghost Value = { ℕ };

    ghost view = { λ p. p.number };
}

impl<A: Allocator> DraftPath<A> {
    /// Returns the path of the draft of the filing with this number in a folder: `DRAFT` for 1,
    /// `DRAFT2` for 2 and so on; no filing has number 0.
    pub(crate) fn of(alloc: A, dir: &str, number: u32) -> Result<DraftPath<A>, AllocError>
        ensures { IfOk result (λ path. path ≡ number) }
    {
        let text = match number {
            1 => format!(in alloc; "{dir}/DRAFT")?,
            _ => format!(in alloc; "{dir}/DRAFT{number}")?,
        };
        Ok(DraftPath { number, text })
    }

    /// Returns the path of a draft that was found in a folder under this name.
    pub(crate) fn found(alloc: A, dir: &str, name: &str) -> Result<DraftPath<A>, AllocError> {
        let text = format!(in alloc; "{dir}/{name}")?;
        Ok(DraftPath { number: 0, text })
    }

    pub(crate) fn as_str(&self) -> &str {
        self.text.as_str()
    }

    /// Returns the number of the draft.
    pub(crate) fn number(&self) -> u32
        ensures { result ≡ self.now }
    {
        self.number
    }

    /// Removes the draft; does nothing if there is none.
    pub(crate) fn remove<R: Files>(&self, rt: &R) -> io::Result<()> {
        remove_remaining(rt, self.as_str())
    }
}

/// Returns whether all of these bytes are decimal digits.
fn are_digits(bytes: &[u8]) -> bool
    ensures { result ≡ entry_names.are_digits bytes.now }
{
    bytes.iter().all(|byte| byte.is_ascii_digit())
}

/// Returns whether a name is that of a draft of any filing but the first: `DRAFT` and at least one
/// decimal digit.
pub(crate) fn is_further_draft(name: &str) -> bool
    ensures { result ≡ entry_names.is_further_draft name.now }
{
    let name = name.as_bytes();
    name.len() > 5 && name.starts_with(b"DRAFT") && are_digits(&name[5..])
}
