//! Recognizes a file without preamble and File Meta Information: a data set alone.
ghost use Rattle.std.specs.Prelude.{◌≡◌};
ghost use Rattle.element.specs.Header as spelling;
ghost use Rattle.inspection.specs.BareForm as bare;

use element::{Header, Need, Syntax, Tag, need, read_header};

/// Returns whether `DICM` follows a preamble of 128 bytes (PS3.10 section 7.1).
pub(crate) fn has_letters(beginning: &[u8]) -> bool
    ensures { result ≡ bare.has_letters beginning.now }
{
    132 <= beginning.len() && &beginning[128..132] == b"DICM".as_slice()
}

/// Returns whether the bytes hold the whole header at their front.
#[tactic(auto, unfolding(element::specs::Header::is_whole))]
fn is_whole(syntax: Syntax, bytes: &[u8]) -> bool
    ensures { result ≡ spelling.is_whole syntax bytes.now }
{
    match need(syntax, bytes) {
        Need::More => false,
        Need::BadVr => false,
        Need::Size(size) => size <= bytes.len(),
    }
}

/// Returns whether a data set may begin with an element of this tag: of an even group from 0004 to
/// 0010.
fn may_begin(tag: Tag) -> bool
    ensures { result ≡ bare.may_begin tag.0 }
{
    let Tag(group, _) = tag;
    group % 2 == 0 && 4 <= group && group <= 0x10
}

/// Returns whether `size` bytes hold an element that a data set may begin with, whose header has
/// eight bytes.
fn fits(header: Header, size: usize) -> bool
    ensures { result ≡ bare.fits header size }
{
    may_begin(header.tag) && 8 + u64::from(header.length) <= size as u64
}

/// Returns the form of a file without preamble and File Meta Information, by its first element:
/// Explicit VR if its header has a VR, Implicit VR if its value ends within `beginning`. `None` for
/// other files. `beginning` is the first 4096 bytes of the file, or all bytes of a shorter file.
pub fn bare_form(beginning: &[u8]) -> Option<Syntax>
    ensures { result ≡ bare.form_of beginning.now }
{
    if has_letters(beginning) {
        None
    } else if is_whole(Syntax::Explicit, beginning)
        && may_begin(read_header(Syntax::Explicit, beginning).tag)
    {
        Some(Syntax::Explicit)
    } else if is_whole(Syntax::Implicit, beginning)
        && fits(read_header(Syntax::Implicit, beginning), beginning.len())
    {
        Some(Syntax::Implicit)
    } else {
        None
    }
}
