//! Test cases of the walker, and a large value.

use crate::walks::{ends_at, is_at, new_shallow_walker, new_walker, take, take_cut, take_each};
use element::{Header, Syntax, Tag, Vr};
use fixtures::bytes::within;
use sequence::{Fault, Step, Walker, Want, Wanted};

fn fault(number: u8, offset: u64, tag: Tag) -> Fault {
    Fault {
        number,
        offset,
        tag,
    }
}

const TWO_OPEN_LEVELS: [u8; 19] = [
    0x40, 0x00, 0x75, 0x02, 0xff, 0xff, 0xff, 0xff, 0xfe, 0xff, 0x00, 0xe0, 0xff, 0xff, 0xff, 0xff,
    0x08, 0x00, 0x60,
];

const FOUR_LEVELS: [u8; 60] = [
    0x40, 0x00, 0x75, 0x02, 0xff, 0xff, 0xff, 0xff, 0xfe, 0xff, 0x00, 0xe0, 0x1a, 0x00, 0x00, 0x00,
    0x40, 0x00, 0x30, 0xa7, 0x12, 0x00, 0x00, 0x00, 0xfe, 0xff, 0x00, 0xe0, 0x0a, 0x00, 0x00, 0x00,
    0x08, 0x00, 0x04, 0x01, 0x02, 0x00, 0x00, 0x00, 0x41, 0x42, 0xfe, 0xff, 0xdd, 0xe0, 0x00, 0x00,
    0x00, 0x00, 0xe0, 0x7f, 0x10, 0x00, 0x02, 0x00, 0x00, 0x00, 0x00, 0x00,
];

const PAST_ITS_ITEM: [u8; 26] = [
    0x40, 0x00, 0x75, 0x02, 0xff, 0xff, 0xff, 0xff, 0xfe, 0xff, 0x00, 0xe0, 0x0e, 0x00, 0x00, 0x00,
    0x08, 0x00, 0x60, 0x00, 0x02, 0x00, 0x00, 0x00, 0x43, 0x54,
];

const LEVEL_PAST_ITS_ITEM: [u8; 24] = [
    0x40, 0x00, 0x75, 0x02, 0xff, 0xff, 0xff, 0xff, 0xfe, 0xff, 0x00, 0xe0, 0x08, 0x00, 0x00, 0x00,
    0x40, 0x00, 0x30, 0xa7, 0xff, 0xff, 0xff, 0xff,
];

const TOO_DEEP: [u8; 24] = [
    0x40, 0x00, 0x75, 0x02, 0xff, 0xff, 0xff, 0xff, 0xfe, 0xff, 0x00, 0xe0, 0xff, 0xff, 0xff, 0xff,
    0x40, 0x00, 0x30, 0xa7, 0xff, 0xff, 0xff, 0xff,
];

const DEEP_ENOUGH: [u8; 24] = [
    0x40, 0x00, 0x75, 0x02, 0xff, 0xff, 0xff, 0xff, 0xfe, 0xff, 0x00, 0xe0, 0xff, 0xff, 0xff, 0xff,
    0x40, 0x00, 0x30, 0xa7, 0x00, 0x00, 0x00, 0x00,
];

const UNKNOWN_CONTENT: [u8; 38] = [
    0x09, 0x00, 0x01, 0x10, 0x55, 0x4e, 0x00, 0x00, 0xff, 0xff, 0xff, 0xff, 0xfe, 0xff, 0x00, 0xe0,
    0x0a, 0x00, 0x00, 0x00, 0x08, 0x00, 0x60, 0x00, 0x02, 0x00, 0x00, 0x00, 0x43, 0x54, 0xfe, 0xff,
    0xdd, 0xe0, 0x00, 0x00, 0x00, 0x00,
];

const NOT_ALLOWED: [u8; 12] = [
    0xe0, 0x7f, 0x10, 0x00, 0x4f, 0x42, 0x00, 0x00, 0xff, 0xff, 0xff, 0xff,
];

const ONE_CT_STORE: [u8; 48] = [
    0x08, 0x00, 0x16, 0x00, 0x55, 0x49, 0x1a, 0x00, 0x31, 0x2e, 0x32, 0x2e, 0x38, 0x34, 0x30, 0x2e,
    0x31, 0x30, 0x30, 0x30, 0x38, 0x2e, 0x35, 0x2e, 0x31, 0x2e, 0x34, 0x2e, 0x31, 0x2e, 0x31, 0x2e,
    0x32, 0x00, 0x08, 0x00, 0x18, 0x00, 0x55, 0x49, 0x06, 0x00, 0x31, 0x2e, 0x32, 0x2e, 0x33, 0x00,
];

#[test]
fn two_open_levels(rt: HostRuntime) {
    let truncated = fault(20, 19, Tag(0, 0));
    let end = (2, 19, 35, Some(truncated));
    assert!(rt; ends_at(Syntax::Implicit, &TWO_OPEN_LEVELS, end));
}

#[test]
fn four_levels_that_end_together(rt: HostRuntime) {
    let mut w = new_walker(Syntax::Implicit);
    take(&mut w, &FOUR_LEVELS[..41]);
    assert!(rt; w.levels() == 4);
    take(&mut w, &FOUR_LEVELS[41..42]);
    assert!(rt; w.levels() == 1);
    assert!(rt; ends_at(Syntax::Implicit, &FOUR_LEVELS, (0, 60, 0, None)));
}

/// Returns whether both steps report the same.
fn is_same(step: &Step, other: &Step) -> bool {
    match step {
        Step::More => matches!(other, Step::More),
        Step::Element(header) => matches!(other, Step::Element(found) if *found == *header),
        Step::Run(run) => matches!(other, Step::Run(found) if *found == *run),
        Step::Opened(header) => matches!(other, Step::Opened(found) if *found == *header),
        Step::Closed(header) => matches!(other, Step::Closed(found) if *found == *header),
        Step::Refused(fault) => matches!(other, Step::Refused(found) if *found == *fault),
    }
}

/// The start and end of a chunk in a text; how many bytes a step consumes, what it reports, and how
/// many levels are then open.
type Call<'a> = (usize, usize, usize, Step<'a>, usize);

/// Returns whether the steps consume and report this.
fn steps<const D: usize>(walker: &mut Walker<140, D>, text: &[u8], rows: &[Call]) -> bool {
    for (from, to, size, report, levels) in rows {
        let (consumed, step) = walker.step(within(text, *from, *to));
        if consumed != *size || !is_same(&step, report) || walker.levels() != *levels {
            return false;
        }
    }
    true
}

/// Returns a header in Implicit VR Little Endian, or of group FFFE.
fn header(tag: Tag, length: u32) -> Header {
    Header {
        tag,
        vr: None,
        length,
    }
}

#[test]
fn steps_along_four_levels(rt: HostRuntime) {
    let mut w = new_walker(Syntax::Implicit);
    let item = Tag(0xfffe, 0xe000);
    let rows: [Call; 8] = [
        (
            0,
            60,
            8,
            Step::Element(header(Tag(0x40, 0x0275), u32::MAX)),
            1,
        ),
        (8, 60, 8, Step::Opened(header(item, 26)), 2),
        (16, 60, 8, Step::Element(header(Tag(0x40, 0xa730), 18)), 3),
        (24, 60, 8, Step::Opened(header(item, 10)), 4),
        (32, 60, 8, Step::Element(header(Tag(0x08, 0x0104), 2)), 4),
        (40, 60, 2, Step::Run(b"AB"), 1),
        (42, 60, 8, Step::Closed(header(Tag(0xfffe, 0xe0dd), 0)), 0),
        (50, 53, 3, Step::More, 0),
    ];
    assert!(rt; steps(&mut w, &FOUR_LEVELS, &rows));
}

#[test]
fn a_header_past_its_item(rt: HostRuntime) {
    let overrun = fault(17, 26, Tag(0, 0));
    let end = (2, 26, 32, Some(overrun));
    assert!(rt; ends_at(Syntax::Implicit, &PAST_ITS_ITEM, end));
    let overrun = fault(17, 24, Tag(0, 0));
    let end = (3, 24, 48, Some(overrun));
    assert!(rt; ends_at(Syntax::Implicit, &LEVEL_PAST_ITS_ITEM, end));
}

/// Returns whether a walk that is rejected at the limit of levels rejects what follows.
fn is_refused_at(cut: usize, refused: Fault) -> bool {
    let mut w = new_shallow_walker(Syntax::Implicit);
    take_cut(&mut w, &TOO_DEEP, cut);
    steps(&mut w, &TOO_DEEP, &[(0, 24, 0, Step::Refused(refused), 2)])
        && is_at(&w, (2, 24, 32, Some(refused)))
}

/// Returns whether a walk at the limit of levels is accepted.
fn is_accepted_at(cut: usize) -> bool {
    let mut w = new_shallow_walker(Syntax::Implicit);
    take_cut(&mut w, &DEEP_ENOUGH, cut);
    w.levels() == 2 && w.offset() == 24
}

#[test]
fn deeper_than_the_limit(rt: HostRuntime) {
    for cut in 0..TOO_DEEP.len() + 2 {
        assert!(rt; is_refused_at(cut, fault(18, 16, Tag(0x40, 0xa730))));
    }
    for cut in 0..DEEP_ENOUGH.len() + 2 {
        assert!(rt; is_accepted_at(cut));
    }
}

#[test]
fn unknown_content(rt: HostRuntime) {
    assert!(rt; ends_at(Syntax::Explicit, &UNKNOWN_CONTENT, (0, 38, 0, None)));
    let end = (0, 12, 0, Some(fault(14, 0, Tag(0x7fe0, 0x10))));
    assert!(rt; ends_at(Syntax::Explicit, &NOT_ALLOWED, end));
}

/// The header of a value of 4,294,967,294 bytes.
const ANNOUNCED: [u8; 12] = [
    0xe0, 0x7f, 0x10, 0x00, 0x4f, 0x42, 0x00, 0x00, 0xfe, 0xff, 0xff, 0xff,
];

/// Returns whether a walk of the header with this limit reports this step and ends with this fault,
/// with nothing buffered.
fn announces(limit: u64, report: &Step, refused: Fault) -> bool {
    let mut w: Walker<140, 64> = Walker::new(Syntax::Explicit, Wanted::none(), limit.min(1 << 40));
    let (consumed, step) = w.step(&ANNOUNCED);
    consumed == 12 && is_same(&step, report) && is_at(&w, (0, 12, 0, Some(refused)))
}

#[test]
fn an_announced_length(rt: HostRuntime) {
    let pixels = Tag(0x7fe0, 0x0010);
    let refused = fault(19, 0, pixels);
    assert!(rt; announces(1024, &Step::Refused(refused), refused));
    let element = Header {
        tag: pixels,
        vr: Some(Vr::OB),
        length: 0xffff_fffe,
    };
    assert!(rt; announces(1 << 40, &Step::Element(element), fault(20, 12, pixels)));
}

/// Returns the numbers of steps for the data set of one store in two chunks, and whether its values
/// are then kept.
fn store_steps(cut: usize) -> (u32, u32, bool) {
    let wants = [
        Want {
            tag: Tag(0x0008, 0x0016),
            room: 64,
        },
        Want {
            tag: Tag(0x0008, 0x0018),
            room: 64,
        },
    ];
    match Wanted::of(&wants) {
        None => (0, 0, false),
        Some(wanted) => {
            let mut w: Walker<140, 64> = Walker::new(Syntax::Explicit, wanted, 1 << 40);
            if cut > ONE_CT_STORE.len() {
                return (take_each(&mut w, &ONE_CT_STORE), 0, is_store(&w));
            }
            let before = take(&mut w, &ONE_CT_STORE[..cut]);
            let after = take(&mut w, &ONE_CT_STORE[cut..]);
            (before, after, is_store(&w))
        }
    }
}

fn is_store(w: &Walker<140, 64>) -> bool {
    w.held() == 32
        && w.offset() == 48
        && w.finish().is_ok()
        && w.kept(Tag(0x0008, 0x0016)) == Some(&b"1.2.840.10008.5.1.4.1.1.2\0"[..])
        && w.kept(Tag(0x0008, 0x0018)) == Some(&b"1.2.3\0"[..])
        && w.kept(Tag(0x0008, 0x0060)).is_none()
}

/// Returns the expected result of `store_steps`: two headers and two values, and one more step if
/// one of them is cut; byte by byte, a step for each byte.
fn due_steps(cut: usize) -> (u32, u32, bool) {
    if cut > ONE_CT_STORE.len() {
        return (48, 0, true);
    }
    let mut steps = (0u32, 0u32);
    for (begin, end) in [(0, 8), (8, 34), (34, 42), (42, 48)] {
        steps.0 = steps.0.saturating_add(u32::from(begin < cut));
        steps.1 = steps.1.saturating_add(u32::from(cut < end));
    }
    (steps.0, steps.1, true)
}

#[test]
fn one_ct_store(rt: HostRuntime) {
    for cut in 0..ONE_CT_STORE.len() + 2 {
        assert!(rt; store_steps(cut) == due_steps(cut));
    }
}

/// Returns a header of a UID in Explicit VR Little Endian.
fn uid_header(tag: Tag, length: u32) -> Header {
    Header {
        tag,
        vr: Some(Vr::UI),
        length,
    }
}

#[test]
fn steps_along_one_ct_store(rt: HostRuntime) {
    let mut w = new_walker(Syntax::Explicit);
    let class = uid_header(Tag(0x0008, 0x0016), 26);
    let instance = uid_header(Tag(0x0008, 0x0018), 6);
    let rows: [Call; 7] = [
        (0, 48, 8, Step::Element(class), 0),
        (8, 48, 26, Step::Run(b"1.2.840.10008.5.1.4.1.1.2\0"), 0),
        (34, 40, 6, Step::More, 0),
        (40, 48, 2, Step::Element(instance), 0),
        (0, 0, 0, Step::More, 0),
        (42, 45, 3, Step::Run(b"1.2"), 0),
        (45, 48, 3, Step::Run(b".3\0"), 0),
    ];
    assert!(rt; steps(&mut w, &ONE_CT_STORE, &rows) && w.finish().is_ok());
}

/// A sequence and an item, both of undefined length.
const PAIR: [u8; 16] = [
    0x40, 0x00, 0x30, 0xa7, 0xff, 0xff, 0xff, 0xff, 0xfe, 0xff, 0x00, 0xe0, 0xff, 0xff, 0xff, 0xff,
];

#[test]
fn nested_past_the_limit(rt: HostRuntime) {
    let mut w = new_walker(Syntax::Implicit);
    for _ in 0..32 {
        take(&mut w, &PAIR);
    }
    let truncated = fault(20, 512, Tag(0, 0));
    assert!(rt; is_at(&w, (64, 512, 1024, Some(truncated))));
    for _ in 0..1_000_000 {
        take(&mut w, &PAIR);
    }
    let refused = fault(18, 512, Tag(0x40, 0xa730));
    assert!(rt; is_at(&w, (64, 520, 1024, Some(refused))));
}

/// The header of 64 MiB of pixel data.
const PIXEL_HEADER: [u8; 12] = [
    0xe0, 0x7f, 0x10, 0x00, b'O', b'W', 0, 0, 0x00, 0x00, 0x00, 0x04,
];

const PIECE: [u8; 65536] = [0; 65536];

#[test]
fn a_large_value(rt: HostRuntime) {
    let mut w = new_walker(Syntax::Explicit);
    let mut steps = take(&mut w, &PIXEL_HEADER);
    for _ in 0..1024 {
        steps = steps.saturating_add(take(&mut w, &PIECE));
    }
    assert!(rt; steps == 1025);
    assert!(rt; is_at(&w, (0, 12 + (64 << 20), 0, None)));
}
