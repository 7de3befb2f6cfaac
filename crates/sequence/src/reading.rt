//! Reads whole headers, and determines what follows each of them.
ghost use Rattle.std.specs.Prelude.{◌≡◌, ◌≤◌, length, true, Some, IfSome};
ghost use Rattle.element.specs.Header as spelling;
ghost use Rattle.sequence.specs.machine.Heading.{IsFront};
ghost use Rattle.dictionary.specs.Tags as known;
ghost use Rattle.sequence.specs.Coding.{layout};
ghost use Rattle.sequence.specs.Shape.{shape_by, is_undefined};

use crate::coding::Coding;
use crate::shape::{Shape, named_shape, plain_shape};
use byteorder::{ByteOrder, LittleEndian};
use element::{Header, Need, Syntax, Tag, Vr, need, read_tag};

/// Returns whether a header with this tag has no VR: always in Implicit VR, and in group FFFE.
pub fn is_plain(syntax: Syntax, tag: Tag) -> bool
    ensures { result ≡ spelling.is_plain syntax tag }
{
    match syntax {
        Syntax::Implicit => true,
        Syntax::Explicit => tag.is_marker(),
    }
}

/// Returns whether the bytes begin with a whole header.
#[tactic(auto, unfolding(element::specs::Header::is_whole))]
pub fn is_whole(syntax: Syntax, bytes: &[u8]) -> bool
    ensures { result ≡ spelling.is_whole syntax bytes.now }
{
    // One arm for each line of the definition: the proof goes through them one by one.
    match need(syntax, bytes) {
        Need::Size(size) => size <= bytes.len(),
        Need::More => false,
        Need::BadVr => false,
    }
}

/// A whole header at the front of a chunk.
#[derive(Clone, Copy)]
pub struct Front {
    /// The size of the header, 8 or 12 bytes.
    pub size: usize,
    pub header: Header,
    /// What follows the header.
    pub shape: Shape,
}

/// Reads a header of eight bytes without a VR, whose tag was already read from the first four.
#[tactic(auto, unfolding(element::specs::Header::need, element::specs::Header::header_at))]
fn plain_front(coding: Coding, tag: Tag, bytes: &[u8]) -> Front
    requires size { 8 ≤ length bytes.now }
    requires tag { tag ≡ spelling.tag_at bytes.now }
    requires plain { spelling.is_plain (layout coding) tag ≡ true }
    ensures { IsFront coding bytes.now result }
{
    let length = LittleEndian::read_u32(&bytes[4..]);
    Front {
        size: 8,
        header: Header {
            tag,
            vr: None,
            length,
        },
        shape: plain_shape(coding, tag, length),
    }
}

/// Returns the header of `size` bytes with these fields, and what follows it.
fn named_front(coding: Coding, size: usize, tag: Tag, vr: Vr, length: u32) -> Front
    ensures { result ≡ record { size = size; header = record { tag = tag; vr = Some vr; length = length }; shape = shape_by coding tag (Some vr) (known.vr_of tag) (is_undefined length) } }
{
    Front {
        size,
        header: Header {
            tag,
            vr: Some(vr),
            length,
        },
        shape: named_shape(coding, tag, vr, length),
    }
}

/// Reads the header at the front of the bytes. Returns `None` if it is unfinished, or its VR is
/// invalid.
pub fn read_front(coding: Coding, bytes: &[u8]) -> Option<Front>
    ensures { IfSome result (λ front. IsFront coding bytes.now front) }
{
    if bytes.len() < 8 {
        return None;
    }
    let tag = read_tag(bytes);
    if is_plain(coding.layout(), tag) {
        return Some(plain_front(coding, tag, bytes));
    }
    let vr = Vr::read([bytes[4], bytes[5]])?;
    if !vr.is_long() {
        let length = u32::from(LittleEndian::read_u16(&bytes[6..]));
        Some(named_front(coding, 8, tag, vr, length))
    } else if bytes.len() < 12 {
        None
    } else {
        let length = LittleEndian::read_u32(&bytes[8..]);
        Some(named_front(coding, 12, tag, vr, length))
    }
}
