//! What a file seems to be by its first bytes.
ghost use Rattle.std.specs.Prelude.{◌≡◌};
ghost use Rattle.std.specs.List.{list_all};
ghost use Rattle.inspection.specs.FileKinds as kinds;

use crate::bare::{bare_form, has_letters};
use crate::origin::PREFIX;

/// What a file seems to be by its first bytes.
#[derive(Clone, Copy, Debug, PartialEq, Eq)]
pub enum FileKind {
    /// `DICM` follows a preamble.
    Dicom,
    /// The file has no bytes.
    Empty,
    /// The file may be a DICOM file that ends within its preamble, or one without a header.
    Unclear,
    /// The file is something else: text, or anything that has another form than a data set and no
    /// `DICM` after the room of a preamble.
    Other,
}

impl FileKind {
    /// Returns whether such a file is passed over if files that are no DICOM files are ignored.
    pub fn is_other(self) -> bool
        ensures { result ≡ kinds.is_other self }
    {
        matches!(self, FileKind::Unclear | FileKind::Other)
    }
}

/// Returns whether the bytes may be text.
fn is_text(bytes: &[u8]) -> bool
    ensures { result ≡ list_all kinds.is_text_byte bytes.now }
{
    bytes
        .iter()
        .all(|byte| 32 <= *byte || 9 <= *byte && *byte <= 13)
}

/// Returns what a file seems to be. `beginning` is the first 4096 bytes of the file, or all bytes
/// of a shorter file.
pub fn kind_of(beginning: &[u8]) -> FileKind
    ensures { result ≡ kinds.kind_of beginning.now }
{
    if has_letters(beginning) {
        FileKind::Dicom
    } else if beginning.is_empty() {
        FileKind::Empty
    } else if bare_form(beginning).is_some() {
        FileKind::Unclear
    } else if PREFIX <= beginning.len() || is_text(beginning) {
        FileKind::Other
    } else {
        FileKind::Unclear
    }
}
