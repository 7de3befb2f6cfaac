//! Encapsulated Pixel Data: the standard's own examples (PS3.5 Tables A.4-1 and A.4-2), and invalid
//! fragments.

use crate::walks::{End, is_at, take, take_cut};
use element::{Header, Syntax, Tag, Vr};
use sequence::{Fault, Step, Walker, Wanted};
use std::alloc::{AllocError, Global};

const PIXEL_DATA: Tag = Tag(0x7fe0, 0x0010);

/// The header of Pixel Data with VR OB and undefined length.
const OPENS: &[u8] = b"\xe0\x7f\x10\x00OB\x00\x00\xff\xff\xff\xff";

/// The delimitation of its fragments.
const CLOSES: &[u8] = b"\xfe\xff\xdd\xe0\x00\x00\x00\x00";

fn fault(number: u8, offset: u64, tag: Tag) -> Fault {
    Fault {
        number,
        offset,
        tag,
    }
}

/// Appends a fragment of this length, with bytes that look like a delimitation.
fn fragment(text: &mut Vec<u8>, length: u16) -> Result<(), AllocError> {
    let [low, high] = length.to_le_bytes();
    text.extend_from_slice(&[0xfe, 0xff, 0x00, 0xe0, low, high, 0, 0])?;
    for at in 0..length {
        text.push(CLOSES[usize::from(at % 8)])?;
    }
    Ok(())
}

/// Returns Table A.4-1: a frame of three fragments after an empty Basic Offset Table.
fn one_frame(alloc: Global) -> Result<Vec<u8>, AllocError> {
    let mut text = Vec::from_slice(alloc, OPENS)?;
    for length in [0, 0x04c6, 0x024a, 0x0628] {
        fragment(&mut text, length)?;
    }
    text.extend_from_slice(CLOSES)?;
    Ok(text)
}

/// Returns Table A.4-2: two frames of three fragments, with two entries in the Basic Offset Table.
fn two_frames(alloc: Global) -> Result<Vec<u8>, AllocError> {
    let mut text = Vec::from_slice(alloc, OPENS)?;
    text.extend_from_slice(b"\xfe\xff\x00\xe0\x08\x00\x00\x00\x00\x00\x00\x00\x46\x06\x00\x00")?;
    for length in [0x02c8, 0x036e, 0x0bc8] {
        fragment(&mut text, length)?;
    }
    text.extend_from_slice(CLOSES)?;
    Ok(text)
}

fn new_walker() -> Walker<140, 3> {
    Walker::encapsulated(Wanted::none(), 1 << 40)
}

/// Returns whether the walk of a text ends like this in one chunk, at each cut in two, and byte by
/// byte.
fn ends_at(text: &[u8], wanted: End) -> bool {
    for cut in 0..text.len() + 2 {
        let mut walker = new_walker();
        take_cut(&mut walker, text, cut);
        if !is_at(&walker, wanted) {
            return false;
        }
    }
    true
}

#[test]
fn the_examples_of_the_standard(rt: HostRuntime) {
    let frame = one_frame(rt.alloc()).expect(&rt, "a text");
    assert!(rt; frame.len() == 3436);
    assert!(rt; ends_at(frame.as_slice(), (0, 3436, 0, None)));
    let frames = two_frames(rt.alloc()).expect(&rt, "a text");
    assert!(rt; frames.len() == 4666);
    assert!(rt; ends_at(frames.as_slice(), (0, 4666, 0, None)));
}

/// A frame with short fragments.
const FRAME: &[u8] = b"\xe0\x7f\x10\x00OB\x00\x00\xff\xff\xff\xff\
\xfe\xff\x00\xe0\x00\x00\x00\x00\xfe\xff\x00\xe0\x04\x00\x00\x00abcd\xfe\xff\x00\xe0\x02\x00\x00\x00ef\
\xfe\xff\xdd\xe0\x00\x00\x00\x00";

/// Returns the header of an item or a delimitation.
fn header(tag: Tag, length: u32) -> Header {
    Header {
        tag,
        vr: None,
        length,
    }
}

/// Returns whether a step reports this header, or lends these bytes.
fn opens(step: &Step, length: u32) -> bool {
    matches!(step, Step::Opened(found) if *found == header(Tag::ITEM, length))
}

fn closes(step: &Step) -> bool {
    matches!(step, Step::Closed(found) if *found == header(Tag::SEQUENCE_DELIMITATION, 0))
}

fn lends(step: &Step, bytes: &[u8]) -> bool {
    matches!(step, Step::Run(run) if *run == bytes)
}

fn is_pixel_data(step: &Step) -> bool {
    let wanted = Header {
        tag: PIXEL_DATA,
        vr: Some(Vr::OB),
        length: u32::MAX,
    };
    matches!(step, Step::Element(found) if *found == wanted)
}

#[test]
fn steps_along_a_frame(rt: HostRuntime) {
    let mut w = new_walker();
    let (consumed, step) = w.step(FRAME);
    assert!(rt; consumed == 12 && is_pixel_data(&step) && w.levels() == 1);
    let (consumed, step) = w.step(&FRAME[12..]);
    assert!(rt; consumed == 8 && opens(&step, 0) && w.levels() == 1 && w.held() == 16);
    let (consumed, step) = w.step(&FRAME[20..]);
    assert!(rt; consumed == 8 && opens(&step, 4) && w.levels() == 1);
    let (consumed, step) = w.step(&FRAME[28..29]);
    assert!(rt; consumed == 1 && lends(&step, b"a"));
    let (consumed, step) = w.step(&FRAME[29..]);
    assert!(rt; consumed == 3 && lends(&step, b"bcd") && w.levels() == 1);
    let (consumed, step) = w.step(&FRAME[32..]);
    assert!(rt; consumed == 8 && opens(&step, 2));
    let (consumed, step) = w.step(&FRAME[40..]);
    assert!(rt; consumed == 2 && lends(&step, b"ef") && w.levels() == 1);
    let (consumed, step) = w.step(&FRAME[42..]);
    assert!(rt; consumed == 8 && closes(&step) && w.levels() == 0 && w.finish().is_ok());
}

/// Texts after the header of Pixel Data, each with its fault.
const REFUSED: [(&[u8], (u8, u64, Tag)); 8] = [
    // An undefined length, as an item of a sequence may have.
    (b"\xfe\xff\x00\xe0\xff\xff\xff\xff", (14, 12, Tag::ITEM)),
    // An odd length.
    (b"\xfe\xff\x00\xe0\x03\x00\x00\x00", (11, 12, Tag::ITEM)),
    // An element, and an item delimitation.
    (b"\x08\x00\x60\x00", (15, 12, Tag(0x0008, 0x0060))),
    (b"\xfe\xff\x0d\xe0", (15, 12, Tag(0xfffe, 0xe00d))),
    // A delimitation with another length than 0.
    (
        b"\xfe\xff\xdd\xe0\x02\x00\x00\x00",
        (16, 12, Tag(0xfffe, 0xe0dd)),
    ),
    // The text ends in a fragment, in its header, and after it.
    (b"\xfe\xff\x00\xe0\x04\x00\x00\x00abc", (20, 23, Tag::ITEM)),
    (b"\xfe\xff\x00\xe0\x04", (20, 17, Tag::ITEM)),
    (b"\xfe\xff\x00\xe0\x02\x00\x00\x00ab", (20, 22, Tag(0, 0))),
];

#[test]
fn what_no_fragment_is(rt: HostRuntime) {
    for (text, (number, offset, tag)) in &REFUSED {
        let mut whole = Vec::from_slice(rt.alloc(), OPENS).expect(&rt, "a text");
        whole.extend_from_slice(text).expect(&rt, "a text");
        let refused = fault(*number, *offset, *tag);
        for cut in 0..whole.len() + 2 {
            let mut w = new_walker();
            take_cut(&mut w, whole.as_slice(), cut);
            assert!(rt; w.finish() == Err(refused));
        }
    }
}

/// Other elements of undefined length, which have no fragments.
const NOT_PIXELS: [&[u8]; 3] = [
    // Pixel Data of another VR, another element of group 7FE0, and another element of VR OB.
    b"\xe0\x7f\x10\x00UT\x00\x00\xff\xff\xff\xff",
    b"\xe0\x7f\x08\x00OB\x00\x00\xff\xff\xff\xff",
    b"\x42\x00\x11\x00OB\x00\x00\xff\xff\xff\xff",
];

#[test]
fn no_other_element_has_fragments(rt: HostRuntime) {
    for text in &NOT_PIXELS {
        let mut w = new_walker();
        take(&mut w, text);
        assert!(rt;
            matches!(w.finish(), Err(found) if found.number == Fault::UNDEFINED_NOT_ALLOWED && found.offset == 0)
        );
    }
    let mut w: Walker<140, 3> = Walker::new(Syntax::Explicit, Wanted::none(), 1 << 40);
    take(&mut w, FRAME);
    assert!(rt; w.finish() == Err(fault(14, 0, PIXEL_DATA)));
}

/// Icon Image Sequence whose one item has encapsulated Pixel Data of VR OW: the item's length is
/// defined.
const ICON: &[u8] = b"\x88\x00\x00\x02SQ\x00\x00\xff\xff\xff\xff\xfe\xff\x00\xe0\x26\x00\x00\x00\
\xe0\x7f\x10\x00OW\x00\x00\xff\xff\xff\xff\xfe\xff\x00\xe0\x00\x00\x00\x00\xfe\xff\x00\xe0\x02\x00\x00\x00ab\
\xfe\xff\xdd\xe0\x00\x00\x00\x00\xfe\xff\xdd\xe0\x00\x00\x00\x00";

/// The same sequence, with a second fragment longer than the item.
const PAST_ITS_ITEM: &[u8] =
    b"\x88\x00\x00\x02SQ\x00\x00\xff\xff\xff\xff\xfe\xff\x00\xe0\x26\x00\x00\x00\
\xe0\x7f\x10\x00OW\x00\x00\xff\xff\xff\xff\xfe\xff\x00\xe0\x00\x00\x00\x00\xfe\xff\x00\xe0\x0c\x00\x00\x00";

#[test]
fn in_an_item(rt: HostRuntime) {
    assert!(rt; ends_at(ICON, (0, 66, 0, None)));
    let mut w = new_walker();
    take(&mut w, &ICON[..49]);
    assert!(rt; w.levels() == 3 && w.held() == 48);
    assert!(rt; ends_at(PAST_ITS_ITEM, (3, 48, 48, Some(fault(17, 40, Tag::ITEM)))));
    let mut shallow: Walker<140, 2> = Walker::encapsulated(Wanted::none(), 1 << 40);
    take(&mut shallow, ICON);
    assert!(rt; shallow.finish() == Err(fault(18, 20, PIXEL_DATA)));
}

#[test]
fn past_the_limit(rt: HostRuntime) {
    let mut w: Walker<140, 3> = Walker::encapsulated(Wanted::none(), 31);
    take(&mut w, FRAME);
    assert!(rt; w.finish() == Err(fault(19, 20, Tag::ITEM)));
}

#[test]
fn native_pixels(rt: HostRuntime) {
    let mut w = new_walker();
    take(&mut w, b"\xe0\x7f\x10\x00OB\x00\x00\x02\x00\x00\x00ab");
    assert!(rt; w.finish().is_ok() && w.offset() == 14);
}
