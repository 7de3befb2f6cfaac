//! Determines by the header of an element whether a value or a sequence follows (PS3.5 sections
//! 6.2.2 and 7.5).
ghost use Rattle.std.specs.Prelude.{◌≡◌, None, Some};
ghost use Rattle.dictionary.specs.Tags as known;
ghost use Rattle.sequence.specs.Shape as shapes;

use crate::coding::Coding;
use dictionary::vr_of;
use element::{Header, Tag, Vr};

/// Undefined length, FFFFFFFFH.
pub const UNDEFINED: u32 = 0xffff_ffff;

/// What follows the header of an element.
#[derive(Clone, Copy, Debug)]
pub enum Shape {
    /// A value of as many bytes as the length in the header.
    Value,
    /// The items of a sequence, in this encoding.
    Sequence(Coding),
    /// Nothing that can be read: the length is undefined, but the element must have a defined
    /// length.
    NotAllowed,
}

fn is_vr(letters: [u8; 2], vr: Vr) -> bool
    ensures { result ≡ shapes.is_vr letters vr }
{
    let spelled = vr.letters();
    spelled[0] == letters[0] && spelled[1] == letters[1]
}

fn explicit_shape(vr: Vr, undefined: bool) -> Shape
    ensures { result ≡ shapes.explicit_shape vr undefined }
{
    if is_vr(*b"SQ", vr) {
        Shape::Sequence(Coding::Explicit)
    } else if !undefined {
        Shape::Value
    } else if is_vr(*b"UN", vr) {
        Shape::Sequence(Coding::Implicit)
    } else {
        Shape::NotAllowed
    }
}

fn is_pixel_data(tag: Tag) -> bool
    ensures { result ≡ shapes.is_pixel_data tag }
{
    tag.0 == 0x7fe0 && tag.1 == 0x0010
}

fn encapsulated_shape(tag: Tag, vr: Vr, undefined: bool) -> Shape
    ensures { result ≡ shapes.encapsulated_shape tag vr undefined }
{
    if is_vr(*b"SQ", vr) {
        Shape::Sequence(Coding::Encapsulated)
    } else if undefined && is_pixel_data(tag) && (is_vr(*b"OB", vr) || is_vr(*b"OW", vr)) {
        Shape::Sequence(Coding::Fragments)
    } else {
        explicit_shape(vr, undefined)
    }
}

fn implicit_shape(known: Option<Vr>, undefined: bool) -> Shape
    ensures { result ≡ shapes.implicit_shape known undefined }
{
    match known {
        None => {
            if undefined {
                Shape::Sequence(Coding::Implicit)
            } else {
                Shape::Value
            }
        }
        Some(vr) => {
            if is_vr(*b"SQ", vr) {
                Shape::Sequence(Coding::Implicit)
            } else if undefined {
                Shape::NotAllowed
            } else {
                Shape::Value
            }
        }
    }
}

/// Returns what follows this header of an element in a data set of this encoding.
pub fn shape_of(coding: Coding, header: &Header) -> Shape
    ensures { result ≡ shapes.shape coding header.now }
{
    match header.vr {
        None => plain_shape(coding, header.tag, header.length),
        Some(vr) => named_shape(coding, header.tag, vr, header.length),
    }
}

/// Returns what follows the header of an element without a VR, with this tag and length. In
/// Implicit VR the dictionary has the VR of the tag.
pub fn plain_shape(coding: Coding, tag: Tag, length: u32) -> Shape
    ensures { result ≡ shapes.shape_by coding tag None (known.vr_of tag) (shapes.is_undefined length) }
{
    // One arm for each line of the definition: the proof goes through them one by one.
    match coding {
        Coding::Implicit => implicit_shape(vr_of(tag), length == UNDEFINED),
        Coding::Explicit => Shape::NotAllowed,
        Coding::Encapsulated => Shape::NotAllowed,
        Coding::Fragments => Shape::NotAllowed,
    }
}

/// Returns what follows the header of an element with this tag, VR and length.
pub fn named_shape(coding: Coding, tag: Tag, vr: Vr, length: u32) -> Shape
    ensures { result ≡ shapes.shape_by coding tag (Some vr) (known.vr_of tag) (shapes.is_undefined length) }
{
    match coding {
        Coding::Implicit => implicit_shape(vr_of(tag), length == UNDEFINED),
        Coding::Explicit => explicit_shape(vr, length == UNDEFINED),
        Coding::Encapsulated => encapsulated_shape(tag, vr, length == UNDEFINED),
        Coding::Fragments => Shape::NotAllowed,
    }
}
