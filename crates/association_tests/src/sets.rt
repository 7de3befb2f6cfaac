//! Data sets of stores, and the reply to each.

use crate::row::Store;
use dimse::status;
use fixtures::stores::{CT_SET, Cause, EXPLICIT, IMPLICIT, INSTANCE, OTHER};

/// `(0040,0275)` with an item of 14 bytes, of which an element leaves only four.
const PAST_ITS_ITEM: [u8; 26] = [
    0x40, 0, 0x75, 2, 0xff, 0xff, 0xff, 0xff, 0xfe, 0xff, 0, 0xe0, 14, 0, 0, 0, 8, 0, 0x60, 0, 2,
    0, 0, 0, 0x43, 0x54,
];

/// The same sequence with an item of 8 bytes, which a sequence of undefined length fills.
const FILLS_ITS_ITEM: [u8; 24] = [
    0x40, 0, 0x75, 2, 0xff, 0xff, 0xff, 0xff, 0xfe, 0xff, 0, 0xe0, 8, 0, 0, 0, 0x40, 0, 0x30, 0xa7,
    0xff, 0xff, 0xff, 0xff,
];

/// A sequence in an item of a sequence, all of undefined length; and the same with length 0.
const THIRD_LEVEL: [u8; 24] = [
    0x40, 0, 0x75, 2, 0xff, 0xff, 0xff, 0xff, 0xfe, 0xff, 0, 0xe0, 0xff, 0xff, 0xff, 0xff, 0x40, 0,
    0x30, 0xa7, 0xff, 0xff, 0xff, 0xff,
];

const EMPTY_THIRD_LEVEL: [u8; 24] = [
    0x40, 0, 0x75, 2, 0xff, 0xff, 0xff, 0xff, 0xfe, 0xff, 0, 0xe0, 0xff, 0xff, 0xff, 0xff, 0x40, 0,
    0x30, 0xa7, 0, 0, 0, 0,
];

/// `(0009,1001)` UN of undefined length with an item in Implicit.
const UNKNOWN: [u8; 38] = [
    9, 0, 1, 0x10, b'U', b'N', 0, 0, 0xff, 0xff, 0xff, 0xff, 0xfe, 0xff, 0, 0xe0, 10, 0, 0, 0, 8,
    0, 0x60, 0, 2, 0, 0, 0, 0x43, 0x54, 0xfe, 0xff, 0xdd, 0xe0, 0, 0, 0, 0,
];

/// The same element after the SOP Class UID and the SOP Instance UID.
const CT_SET_WITH_UNKNOWN: [u8; 86] = [
    8, 0, 0x16, 0, b'U', b'I', 26, 0, b'1', b'.', b'2', b'.', b'8', b'4', b'0', b'.', b'1', b'0',
    b'0', b'0', b'8', b'.', b'5', b'.', b'1', b'.', b'4', b'.', b'1', b'.', b'1', b'.', b'2', 0, 8,
    0, 0x18, 0, b'U', b'I', 6, 0, b'1', b'.', b'2', b'.', b'3', 0, 9, 0, 1, 0x10, b'U', b'N', 0, 0,
    0xff, 0xff, 0xff, 0xff, 0xfe, 0xff, 0, 0xe0, 10, 0, 0, 0, 8, 0, 0x60, 0, 2, 0, 0, 0, 0x43,
    0x54, 0xfe, 0xff, 0xdd, 0xe0, 0, 0, 0, 0,
];

/// The beginning of the SOP Class UID.
const FRONT: [u8; 20] = [
    8, 0, 0x16, 0, b'U', b'I', 26, 0, b'1', b'.', b'2', b'.', b'8', b'4', b'0', b'.', b'1', b'0',
    b'0', b'0',
];

/// Pixel Data of undefined length, and of the greatest defined length.
const PIXELS: [u8; 12] = [
    0xe0, 0x7f, 0x10, 0, b'O', b'B', 0, 0, 0xff, 0xff, 0xff, 0xff,
];

const GREATEST_PIXELS: [u8; 12] = [
    0xe0, 0x7f, 0x10, 0, b'O', b'B', 0, 0, 0xfe, 0xff, 0xff, 0xff,
];

const OVERRUN: Option<Cause> = Some((&[], b"fault 17 Overrun"));

const NO_CLASS: Option<Cause> = Some((&[8, 0, 0x16, 0], b"fault 45 ClassMismatch"));

pub(crate) const OTHER_INSTANCE: Option<Cause> = Some((
    &[8, 0, 0x18, 0],
    b"fault 46 InstanceMismatch ",
));

const UNFINISHED_CLASS: Option<Cause> = Some((&[8, 0, 0x16, 0], b"fault 20 Truncated"));

const UNFINISHED_PIXELS: Option<Cause> = Some((&[0xe0, 0x7f, 0x10, 0], b"fault 20 Truncated"));

const UNFINISHED_LEVEL: Option<Cause> = Some((&[], b"fault 20 Truncated"));

const PIXELS_WITHOUT_END: Option<Cause> = Some((
    &[0xe0, 0x7f, 0x10, 0],
    b"fault 14 UndefinedLength",
));

/// Stores that are filed, rejected for their data set, or of another instance than their command
/// names.
pub(crate) static STORES: [Store<'static>; 10] = [
    (EXPLICIT, INSTANCE, &CT_SET, status::SUCCESS, None),
    (
        EXPLICIT,
        INSTANCE,
        &CT_SET_WITH_UNKNOWN,
        status::SUCCESS,
        None,
    ),
    // No header fits into the rest of the item, so the element is unknown.
    (
        IMPLICIT,
        INSTANCE,
        &PAST_ITS_ITEM,
        status::CANNOT_UNDERSTAND,
        OVERRUN,
    ),
    (
        IMPLICIT,
        INSTANCE,
        &FILLS_ITS_ITEM,
        status::CANNOT_UNDERSTAND,
        OVERRUN,
    ),
    (
        EXPLICIT,
        INSTANCE,
        &FRONT,
        status::CANNOT_UNDERSTAND,
        UNFINISHED_CLASS,
    ),
    (
        EXPLICIT,
        INSTANCE,
        &PIXELS,
        status::CANNOT_UNDERSTAND,
        PIXELS_WITHOUT_END,
    ),
    (
        EXPLICIT,
        INSTANCE,
        &GREATEST_PIXELS,
        status::CANNOT_UNDERSTAND,
        UNFINISHED_PIXELS,
    ),
    (
        EXPLICIT,
        INSTANCE,
        &UNKNOWN,
        status::DATA_SET_MISMATCH,
        NO_CLASS,
    ),
    (EXPLICIT, INSTANCE, &[], status::DATA_SET_MISMATCH, NO_CLASS),
    (
        EXPLICIT,
        OTHER,
        &CT_SET,
        status::DATA_SET_MISMATCH,
        OTHER_INSTANCE,
    ),
];

/// Stores for an association with at most two open levels.
pub(crate) static STORES_OF_TWO_LEVELS: [Store<'static>; 2] = [
    (
        IMPLICIT,
        INSTANCE,
        &THIRD_LEVEL,
        status::OUT_OF_RESOURCES,
        None,
    ),
    (
        IMPLICIT,
        INSTANCE,
        &EMPTY_THIRD_LEVEL,
        status::CANNOT_UNDERSTAND,
        UNFINISHED_LEVEL,
    ),
];
