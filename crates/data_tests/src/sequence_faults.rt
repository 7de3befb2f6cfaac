//! For each fault of a data set, a text with the fault and a similar valid text; shapes of elements
//! in Implicit VR that no other test case has; and the names and printed forms of faults.

use crate::walks::{end, ends_at, take, take_cut};
use element::{Syntax, Tag};
use sequence::{Fault, Step, Walker, Want, Wanted};
use std::alloc::{AllocError, Global};

/// An invalid text and a valid one, for a walker of two levels that requests (0008,0018) with a
/// capacity of four bytes.
struct Case {
    /// The greatest length of a data set.
    limit: u64,
    bad: &'static [u8],
    fault: Fault,
    /// The printed form of the fault.
    shown: &'static str,
    good: &'static [u8],
}

fn fault(number: u8, offset: u64, tag: Tag) -> Fault {
    Fault {
        number,
        offset,
        tag,
    }
}

const CASES: [Case; 12] = [
    Case {
        limit: 1 << 40,
        bad: b"\x08\x00\x60\x00cS\x02\x00CT",
        fault: Fault {
            number: 10,
            offset: 0,
            tag: Tag(0x0008, 0x0060),
        },
        shown: "10 BadVr at 0 tag 0008,0060",
        good: b"\x08\x00\x60\x00CS\x02\x00CT",
    },
    Case {
        limit: 1 << 40,
        bad: b"\x08\x00\x60\x00CS\x03\x00CT ",
        fault: Fault {
            number: 11,
            offset: 0,
            tag: Tag(0x0008, 0x0060),
        },
        shown: "11 OddLength at 0 tag 0008,0060",
        good: b"\x08\x00\x60\x00CS\x04\x00CT  ",
    },
    Case {
        limit: 1 << 40,
        bad: b"\x08\x00\x60\x00CS\x02\x00CT\x08\x00\x60\x00CS\x02\x00CT",
        fault: Fault {
            number: 12,
            offset: 10,
            tag: Tag(0x0008, 0x0060),
        },
        shown: "12 Order at 10 tag 0008,0060",
        good: b"\x08\x00\x60\x00CS\x02\x00CT\x08\x00\x61\x00CS\x02\x00CT",
    },
    Case {
        limit: 1 << 40,
        bad: b"\x02\x00\x10\x00UI\x00\x00",
        fault: Fault {
            number: 13,
            offset: 0,
            tag: Tag(0x0002, 0x0010),
        },
        shown: "13 BadGroup at 0 tag 0002,0010",
        good: b"\x04\x00\x10\x00UI\x00\x00",
    },
    Case {
        limit: 1 << 40,
        bad: b"\xe0\x7f\x10\x00OB\x00\x00\xff\xff\xff\xff",
        fault: Fault {
            number: 14,
            offset: 0,
            tag: Tag(0x7fe0, 0x0010),
        },
        shown: "14 UndefinedLength at 0 tag 7fe0,0010",
        good: b"\xe0\x7f\x10\x00OB\x00\x00\x00\x00\x00\x00",
    },
    Case {
        limit: 1 << 40,
        bad: b"\xfe\xff\x00\xe0\x00\x00\x00\x00",
        fault: Fault {
            number: 15,
            offset: 0,
            tag: Tag(0xfffe, 0xe000),
        },
        shown: "15 UnexpectedTag at 0 tag fffe,e000",
        good: b"\x08\x00\x40\x11SQ\x00\x00\x08\x00\x00\x00\xfe\xff\x00\xe0\x00\x00\x00\x00",
    },
    Case {
        limit: 1 << 40,
        bad: b"\x08\x00\x40\x11SQ\x00\x00\xff\xff\xff\xff\xfe\xff\xdd\xe0\x02\x00\x00\x00",
        fault: Fault {
            number: 16,
            offset: 12,
            tag: Tag(0xfffe, 0xe0dd),
        },
        shown: "16 DelimiterLength at 12 tag fffe,e0dd",
        good: b"\x08\x00\x40\x11SQ\x00\x00\xff\xff\xff\xff\xfe\xff\xdd\xe0\x00\x00\x00\x00",
    },
    Case {
        limit: 1 << 40,
        bad: b"\x08\x00\x40\x11SQ\x00\x00\x10\x00\x00\x00\xfe\xff\x00\xe0\x0a\x00\x00\x00",
        fault: Fault {
            number: 17,
            offset: 12,
            tag: Tag(0xfffe, 0xe000),
        },
        shown: "17 Overrun at 12 tag fffe,e000",
        good: b"\x08\x00\x40\x11SQ\x00\x00\x10\x00\x00\x00\xfe\xff\x00\xe0\x08\x00\x00\x00\x08\x00\x50\x11UI\x00\x00",
    },
    Case {
        limit: 1 << 40,
        bad: b"\x08\x00\x40\x11SQ\x00\x00\xff\xff\xff\xff\xfe\xff\x00\xe0\xff\xff\xff\xff\x08\x00\x40\x11SQ\x00\x00\xff\xff\xff\xff",
        fault: Fault {
            number: 18,
            offset: 20,
            tag: Tag(0x0008, 0x1140),
        },
        shown: "18 TooDeep at 20 tag 0008,1140",
        good: b"\x08\x00\x40\x11SQ\x00\x00\xff\xff\xff\xff\xfe\xff\x00\xe0\xff\xff\xff\xff\x08\x00\x40\x11SQ\x00\x00\x00\x00\x00\x00\xfe\xff\x0d\xe0\x00\x00\x00\x00\xfe\xff\xdd\xe0\x00\x00\x00\x00",
    },
    Case {
        limit: 16,
        bad: b"\x08\x00\x60\x00CS\x0a\x00CT",
        fault: Fault {
            number: 19,
            offset: 0,
            tag: Tag(0x0008, 0x0060),
        },
        shown: "19 TooLong at 0 tag 0008,0060",
        good: b"\x08\x00\x60\x00CS\x08\x00CT      ",
    },
    Case {
        limit: 1 << 40,
        bad: b"\x08\x00\x60\x00CS\x02\x00C",
        fault: Fault {
            number: 20,
            offset: 9,
            tag: Tag(0x0008, 0x0060),
        },
        shown: "20 Truncated at 9 tag 0008,0060",
        good: b"\x08\x00\x60\x00CS\x02\x00CT",
    },
    Case {
        limit: 1 << 40,
        bad: b"\x08\x00\x18\x00UI\x06\x001.2.3\0",
        fault: Fault {
            number: 21,
            offset: 0,
            tag: Tag(0x0008, 0x0018),
        },
        shown: "21 KeptTooLong at 0 tag 0008,0018",
        good: b"\x08\x00\x18\x00UI\x04\x001.2\0",
    },
];

/// Returns whether the text ends with this fault in two chunks, or byte by byte if the cut is past
/// its end.
fn ends(syntax: Syntax, limit: u64, text: &[u8], cut: usize, fault: Option<Fault>) -> bool {
    let wants = [Want {
        tag: Tag(0x0008, 0x0018),
        room: 4,
    }];
    match Wanted::of(&wants) {
        None => false,
        Some(wanted) => {
            let mut w: Walker<140, 2> = Walker::new(syntax, wanted, limit.min(1 << 40));
            take_cut(&mut w, text, cut);
            w.finish().err() == fault
        }
    }
}

/// Returns whether the text ends with this fault at every cut in two, and byte by byte.
fn ends_at_every_cut(syntax: Syntax, limit: u64, text: &[u8], fault: Option<Fault>) -> bool {
    for cut in 0..text.len() {
        if !ends(syntax, limit, text, cut, fault) {
            return false;
        }
    }
    ends(syntax, limit, text, text.len(), fault) && ends(syntax, limit, text, usize::MAX, fault)
}

#[test]
fn each_fault_beside_a_good_text(rt: HostRuntime) {
    for case in &CASES {
        let limit = case.limit;
        assert!(rt; ends_at_every_cut(Syntax::Explicit, limit, case.bad, Some(case.fault)));
        assert!(rt; ends_at_every_cut(Syntax::Explicit, limit, case.good, None));
    }
}

/// A text in Implicit VR, and the number and offset of its fault, if any.
const SHAPES: [(&[u8], Option<(u8, u64)>); 4] = [
    // Modality, whose VR in the dictionary is CS, may not have undefined length.
    (b"\x08\x00\x60\x00\xff\xff\xff\xff", Some((14, 0))),
    (b"\x08\x00\x60\x00\x02\x00\x00\x00CT", None),
    // A tag that is not in the dictionary with undefined length holds items.
    (
        b"\x09\x00\x01\x10\xff\xff\xff\xff\xfe\xff\x00\xe0\x00\x00\x00\x00\xfe\xff\xdd\xe0\x00\x00\x00\x00",
        None,
    ),
    (
        b"\x09\x00\x01\x10\xff\xff\xff\xff\x08\x00\x60\x00",
        Some((15, 8)),
    ),
];

#[test]
fn shapes_in_implicit(rt: HostRuntime) {
    for (text, found) in &SHAPES {
        let refused = match found {
            Some((number, offset)) => Some(fault(*number, *offset, Tag(0x0008, 0x0060))),
            None => None,
        };
        assert!(rt; ends_at_every_cut(Syntax::Implicit, 1 << 40, text, refused));
    }
}

/// Returns whether the walker rejects the chunk with this fault.
fn refuses(w: &mut Walker<140, 2>, piece: &[u8], refused: Fault) -> bool {
    match w.step(piece) {
        (0, Step::Refused(fault)) => fault == refused,
        _ => false,
    }
}

/// Returns whether the walker rejects all further bytes with the same fault and its state stays the
/// same.
fn repeats(w: &mut Walker<140, 2>, refused: Fault) -> bool {
    let before = end(w);
    refuses(w, b"", refused)
        && refuses(w, b"\x08", refused)
        && refuses(w, b"\xfe\xff\x0d\xe0\x00\x00\x00\x00", refused)
        && w.finish() == Err(refused)
        && end(w) == before
}

/// Returns whether the invalid text stays rejected.
fn stands(case: &Case) -> bool {
    let wants = [Want {
        tag: Tag(0x0008, 0x0018),
        room: 4,
    }];
    match Wanted::of(&wants) {
        None => false,
        Some(wanted) => {
            let limit = case.limit.min(1 << 40);
            let mut w: Walker<140, 2> = Walker::new(Syntax::Explicit, wanted, limit);
            take(&mut w, case.bad);
            repeats(&mut w, case.fault)
        }
    }
}

#[test]
fn a_refusal_stands(rt: HostRuntime) {
    for case in &CASES {
        assert!(rt; case.fault.number == Fault::TRUNCATED || stands(case));
    }
}

/// A sequence and an item of undefined length, nested in 65 pairs.
const PAIR: [u8; 16] = *b"\x40\x00\x30\xa7\xff\xff\xff\xff\xfe\xff\x00\xe0\xff\xff\xff\xff";

#[test]
fn nested_past_the_limit_at_every_cut(rt: HostRuntime) {
    let mut text = [0u8; 528];
    for at in 0..text.len() {
        text[at] = PAIR[at % 16];
    }
    let refused = fault(18, 512, Tag(0x0040, 0xa730));
    assert!(rt; ends_at(Syntax::Implicit, &text, (64, 520, 1024, Some(refused))));
}

/// Returns whether the fault prints this text.
fn is_shown(alloc: Global, fault: Fault, shown: &str) -> Result<bool, AllocError> {
    let text = format!(in alloc; "{fault}")?;
    Ok(text.as_str() == shown)
}

#[test]
fn names_of_faults(rt: HostRuntime) -> Result<(), AllocError> {
    for case in &CASES {
        assert!(rt; is_shown(rt.alloc(), case.fault, case.shown)?);
    }
    assert!(rt; fault(22, 0, Tag(0, 0)).name() == "Unknown");
    Ok(())
}
