//! Values checked against the table of VRs (PS3.5 table 6.2-1), on the public calls of `values`.
use arrayvec::ArrayVec;
use element::Vr;
use std::alloc::AllocError;
use values::{CharacterSet, FormFault, Reading, check_form};

/// The letters of a VR, a text with one byte per character, and the number of its fault, or 0.
type FormRow = (&'static [u8; 2], &'static [u8], u8);

const DATES: [FormRow; 14] = [
    (b"DA", b"20240229", 0),
    (b"DA", b"20230229", 7),
    (b"DA", b"20000229\\", 0),
    (b"DA", b"19000229", 7),
    (b"DA", b"20260431", 7),
    (b"DA", b"20261301", 7),
    (b"DA", b"20260100", 7),
    (b"DA", b"20260101  ", 5),
    (b"DT", b"2026", 0),
    (b"DT", b"202602", 0),
    (b"DT", b"20260230120000", 7),
    (b"DT", b"2026022", 7),
    (b"DT", b"20260228126000", 8),
    (b"DT", b"20260228120000.123456-0500", 0),
];

const TIMES: [FormRow; 16] = [
    (b"TM", b"23", 0),
    (b"TM", b"2359", 0),
    (b"TM", b"235960", 0),
    (b"TM", b"235961", 8),
    (b"TM", b"24", 8),
    (b"TM", b"1260", 8),
    (b"TM", b"120000.1 ", 0),
    (b"TM", b"120000.", 8),
    (b"TM", b"120000.1234567", 8),
    (b"TM", b"12:00:00", 8),
    (b"TM", b"1200.5", 8),
    (b"DT", b"2026-0500", 0),
    (b"DT", b"2026+1400", 0),
    (b"DT", b"2026+1401", 9),
    (b"DT", b"2026-1201", 9),
    (b"DT", b"2026-0000", 9),
];

const NUMBERS: [FormRow; 22] = [
    (b"IS", b"-2147483648", 0),
    (b"IS", b"2147483647 ", 0),
    (b"IS", b"2147483648", 11),
    (b"IS", b"-2147483649", 11),
    (b"IS", b"+0000000005", 0),
    (b"IS", b"999999999999", 11),
    (b"IS", b" 12\\ -3 ", 0),
    (b"IS", b"1 2", 10),
    (b"IS", b"--1 ", 10),
    (b"IS", b"+", 10),
    (b"IS", b"", 0),
    (b"IS", b"1.0 ", 10),
    (b"DS", b"-1.5E+03", 0),
    (b"DS", b".5", 0),
    (b"DS", b"5. ", 0),
    (b"DS", b".", 10),
    (b"DS", b"1E", 10),
    (b"DS", b"1E2.0 ", 10),
    (b"DS", b"1.2.3 ", 10),
    (b"DS", b"12345678901234567", 5),
    (b"DS", b"1234567890123456 ", 0),
    (b"DS", b"1\\\\2\\E5", 10),
];

const NAMES: [FormRow; 9] = [
    (b"PN", b"A^B^C^D^E=F=G^H", 0),
    (b"PN", b"A^B^C^D^E^F ", 12),
    (b"PN", b"A=B=C=D ", 12),
    (b"PN", b"A\\B=C=D=E ", 12),
    (b"PN", b"A\tB ", 6),
    (
        b"PN",
        b"1234567890123456789012345678901234567890123456789012345678901234=A",
        0,
    ),
    (
        b"PN",
        b"A=12345678901234567890123456789012345678901234567890123456789012345",
        5,
    ),
    (b"AE", b"\\A", 0),
    (b"AE", b"    ", 13),
];

const TEXTS: [FormRow; 17] = [
    (b"SH", b"1234567890123456", 0),
    (b"SH", b"12345678901234567 ", 5),
    (b"SH", b"A\\12345678901234567 ", 5),
    (b"SH", b"A\nB ", 6),
    (b"CS", b"               A  ", 5),
    (b"LO", b"A\x1bB ", 0),
    (b"LO", b"A\0", 6),
    (b"LO", b"A\x7f", 6),
    (b"ST", b"A\\B\r\n\x0c\t", 0),
    (b"ST", b"A\x0bB ", 6),
    (b"UT", b"\x08 ", 6),
    (b"UC", b"A\\B\t", 6),
    (b"UR", b"https://example.org/a?b=c#d ", 0),
    (b"UR", b" https://example.org ", 14),
    (b"UR", b"a\\b ", 14),
    (b"UI", b"1.02", 0),
    (b"ZZ", b"\x01\x02", 0),
];

/// Returns the number of a text's fault, or 0.
fn number_of(letters: [u8; 2], text: &[u8]) -> u8 {
    let Some(vr) = Vr::read(letters) else {
        return 255;
    };
    match check_form(vr, text) {
        Ok(()) => 0,
        Err(fault) => fault.number(),
    }
}

/// Returns whether each text has its expected fault.
fn are_judged(rows: &[FormRow]) -> bool {
    for (letters, text, number) in rows {
        if number_of(**letters, *text) != *number {
            return false;
        }
    }
    true
}

#[test]
fn dates_and_times(rt: HostRuntime) {
    assert!(rt; are_judged(&DATES));
    assert!(rt; are_judged(&TIMES));
}

#[test]
fn spelled_numbers(rt: HostRuntime) {
    assert!(rt; are_judged(&NUMBERS));
}

#[test]
fn names_and_texts(rt: HostRuntime) {
    assert!(rt; are_judged(&NAMES));
    assert!(rt; are_judged(&TEXTS));
}

/// Returns whether a text of `most` characters is the longest of a VR.
fn is_longest(letters: [u8; 2], most: usize) -> bool {
    let text = [b'a'; 10241];
    most < 10241
        && number_of(letters, &text[..most]) == 0
        && number_of(letters, &text[..most + 1]) == 5
}

#[test]
fn longest_texts(rt: HostRuntime) {
    assert!(rt; is_longest(*b"LO", 64) && is_longest(*b"SH", 16));
    assert!(rt; is_longest(*b"ST", 1024) && is_longest(*b"LT", 10240));
}

/// A value of Specific Character Set, the bytes of a text in it, and their shown form.
const SHOWN: [(&[u8], &[u8], &[u8]); 12] = [
    (b"", b"A^B", b"A^B"),
    (b"ISO_IR 100", b"\xc4neas", b"\xc4neas"),
    (b"ISO_IR 192", b"\xc3\x84neas", b"\xc3neas"),
    (b"ISO_IR 192", b"\xe5\xb1\xb1\xe7\x94\xb0^A", b"\xe5\xe7^A"),
    (b"GB18030 ", b"\xcd\xf5^\x81\x30\x81\x30B", b"\x80^\x80B"),
    // The second byte of a character of GBK may be that of a backslash.
    (b"GBK ", b"\x81\x5cA", b"\x80A"),
    (
        b"\\ISO 2022 IR 87",
        b"Yamada=\x1b$B;3ED\x1b(B=A",
        b"Yamada=\x80\x80=A",
    ),
    // The second byte of a character of JIS X 0208 may be that of a backslash.
    (b"\\ISO 2022 IR 87 ", b"\x1b$B!\\\x1b(BA", b"\x80A"),
    (
        b"\\ISO 2022 IR 149",
        b"\x1b$)C\xb1\xe8A\xc8\xf1",
        b"\x80A\x80",
    ),
    (b"ISO 2022 IR 6\\ISO 2022 IR 100", b"\x1b-A\xc4A", b"\xc4A"),
    (
        b"ISO 2022 IR 13\\ISO 2022 IR 87",
        b"\xd4\x1b)I\xcfA",
        b"\xd4\xcfA",
    ),
    (b"ISO 2022 IR 100", b"\xc4A", b"\xc4A"),
];

/// Returns whether a text is shown as expected, whole and byte by byte.
fn is_shown(set: CharacterSet, bytes: &[u8], shown: &[u8]) -> bool {
    let mut whole = ArrayVec::<u8, 32>::new();
    Reading::new(set).read(bytes, &mut whole);
    let mut pieces = ArrayVec::<u8, 32>::new();
    let mut reading = Reading::new(set);
    for byte in bytes {
        reading.read(&[*byte], &mut pieces);
    }
    whole.as_slice() == shown && pieces.as_slice() == shown
}

#[test]
fn characters_of_sets(rt: HostRuntime) {
    for (value, bytes, shown) in SHOWN {
        assert!(rt; is_shown(CharacterSet::of_value(value), bytes, shown));
    }
}

/// Characters that do not fit are not shown.
#[test]
fn characters_without_room(rt: HostRuntime) {
    let mut text = ArrayVec::<u8, 2>::new();
    Reading::new(CharacterSet::SingleByte).read(b"abc", &mut text);
    assert!(rt; text.as_slice() == b"ab".as_slice());
}

#[test]
fn printed_form_faults(rt: HostRuntime) -> Result<(), AllocError> {
    for (fault, number, shown) in [
        (FormFault::LongText, 5, "LongText"),
        (FormFault::BadControl, 6, "BadControl"),
        (FormFault::NoSuchDate, 7, "NoSuchDate"),
        (FormFault::NoSuchTime, 8, "NoSuchTime"),
        (FormFault::NoSuchOffset, 9, "NoSuchOffset"),
        (FormFault::BadNumber, 10, "BadNumber"),
        (FormFault::OutOfRange, 11, "OutOfRange"),
        (FormFault::BadName, 12, "BadName"),
        (FormFault::BlankTitle, 13, "BlankTitle"),
        (FormFault::BadLocator, 14, "BadLocator"),
    ] {
        let text = format!(in rt.alloc(); "{fault}")?;
        assert!(rt; fault.number() == number && text.as_str() == shown);
    }
    Ok(())
}
