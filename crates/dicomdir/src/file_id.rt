//! Reads file IDs.
ghost use Rattle.std.specs.Prelude.{◌≡◌, ◌≤◌, ◌&&◌, true, nat_le, length};
ghost use Rattle.dicomdir.specs.FileId.{file_id_of};
ghost use Rattle.dicomdir.specs.FileId as spelling;

use element::without_trailing_spaces;
use std::marker::Model;

/// A file ID: one to eight components of one to eight capital letters, digits and underscores, with
/// a backslash between them (PS3.10 section 8.2).
#[derive(Clone, Copy, Debug)]
pub struct FileId {
    // The text in its first `size` bytes, then zeros.
    bytes: [u8; 71],
    size: usize,
}

impl Model for FileId {
    ghost use Rattle.std.specs.Prelude.{List, ℕ, take, length};
    ghost use Rattle.dicomdir.specs.FileId.{filled, IsKept};

    ghost Value = { List ℕ };

    ghost view = { λ f. take f.size f.bytes };

    ghost invariant = { λ f. IsKept f.bytes f.size };

    ghost inverse = { λ text. record { bytes = filled text; size = length text } };

    ghost inverse_ok = { λ f kept i. record { bytes = kept.rest_is_zero i; size = kept.size_fits i } };
}

fn is_id_character(byte: u8) -> bool
    ensures { result ≡ spelling.is_id_character byte }
{
    byte.is_ascii_uppercase() || byte.is_ascii_digit() || byte == b'_'
}

fn is_component_size(size: usize) -> bool
    ensures { result ≡ (nat_le 1 size && nat_le size 8) }
{
    1 <= size && size <= 8
}

#[tactic(auto, using(crate::proofs::FileIds::good_before_end, crate::proofs::FileIds::size_before_end, crate::proofs::FileIds::count_before_end, crate::proofs::FileIds::good_before, crate::proofs::FileIds::size_before, crate::proofs::FileIds::count_before, crate::proofs::FileIds::is_file_id_by_parts))]
fn is_file_id(text: &[u8]) -> bool
    ensures { result ≡ spelling.is_file_id text.now }
{
    let mut at = text.len();
    let mut good = true;
    let mut size = 0;
    let mut parts: usize = 1;
    while at > 0 {
        if text[at - 1] == b'\\' {
            good = good && is_component_size(size);
            size = 0;
            parts += 1;
        } else {
            good = good && is_id_character(text[at - 1]);
            size += 1;
        }
        at -= 1;
    }
    if !is_component_size(size) {
        return false;
    }
    good && parts <= 8
}

/// Returns the text, followed by zeros.
#[tactic(auto, using(crate::proofs::FileIds::zeros_after))]
fn filled(text: &[u8]) -> [u8; 71]
    requires room { length text.now ≤ 71 }
    ensures { result ≡ spelling.filled text.now }
{
    let mut bytes = [0; 71];
    bytes[..text.len()].copy_from_slice(text);
    bytes
}

impl FileId {
    /// Reads a file ID from the value of an element, ignoring spaces at its end. Returns `None` if
    /// the remaining text is no valid file ID.
    #[tactic(auto, using(crate::proofs::FileIds::file_id_room, crate::proofs::FileIds::kept_filled, crate::proofs::FileIds::shown_filled))]
    pub fn read(value: &[u8]) -> Option<FileId>
        ensures { result ≡ file_id_of value.now }
    {
        let text = without_trailing_spaces(value);
        if !is_file_id(text) {
            return None;
        }
        Some(FileId {
            bytes: filled(text),
            size: text.len(),
        })
    }

    /// Returns the components, with a backslash between them: at most 71 bytes.
    pub fn text(&self) -> &[u8]
        ensures value { result.now ≡ self.now }
        ensures known { spelling.is_file_id self.now ≡ true }
        ensures room { length self.now ≤ 71 }
    {
        &self.bytes[..self.size]
    }
}
