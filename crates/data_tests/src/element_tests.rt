//! Test cases of `element`, on its public calls.
use element::{
    AeTitle, Need, Syntax, Uid, ValueFault, Vr, check_value, header_fits, need, read_header,
    write_header,
};
use std::alloc::AllocError;

const SHORT: [[u8; 2]; 21] = [
    *b"AE", *b"AS", *b"AT", *b"CS", *b"DA", *b"DS", *b"DT", *b"FL", *b"FD", *b"IS", *b"LO", *b"LT",
    *b"PN", *b"SH", *b"SL", *b"SS", *b"ST", *b"TM", *b"UI", *b"UL", *b"US",
];

const LONG: [[u8; 2]; 14] = [
    *b"OB", *b"OD", *b"OF", *b"OL", *b"OV", *b"OW", *b"SQ", *b"SV", *b"UC", *b"UN", *b"UR", *b"UT",
    *b"UV", *b"ZZ",
];

const OTHER: [u8; 12] = [0xee; 12];

/// Reads the header in a syntax and writes it over other bytes. Returns whether both agree.
#[tactic(auto, unfolding(element::specs::Header::is_whole))]
fn is_round_trip(syntax: Syntax, bytes: &[u8; 12], size: usize, length: u32) -> bool {
    if size > 12 || need(syntax, bytes) != Need::Size(size) {
        return false;
    }
    let header = read_header(syntax, bytes);
    if header.length != length || !header_fits(syntax, &header) {
        return false;
    }
    let mut room = OTHER;
    let written = write_header(syntax, &header, &mut room);
    written == size && room[..size] == bytes[..size] && room[size..] == OTHER[size..]
}

/// Each form of a header.
#[test]
fn headers(rt: HostRuntime) {
    let plain = [0x08, 0, 0x16, 0, 4, 3, 2, 1, 9, 9, 9, 9];
    assert!(rt; is_round_trip(Syntax::Implicit, &plain, 8, 0x01020304));
    for [a, b] in SHORT {
        let bytes = [0x08, 0, 0x16, 0, a, b, 4, 3, 9, 9, 9, 9];
        assert!(rt; is_round_trip(Syntax::Explicit, &bytes, 8, 0x0304));
    }
    for [a, b] in LONG {
        let bytes = [0x08, 0, 0x16, 0, a, b, 0, 0, 4, 3, 2, 1];
        assert!(rt; is_round_trip(Syntax::Explicit, &bytes, 12, 0x01020304));
    }
    for element in [0x00, 0x0d, 0xdd] {
        let bytes = [0xfe, 0xff, element, 0xe0, 4, 3, 2, 1, 9, 9, 9, 9];
        for syntax in [Syntax::Implicit, Syntax::Explicit] {
            assert!(rt; is_round_trip(syntax, &bytes, 8, 0x01020304));
        }
    }
}

/// The beginning of a header, and how many bytes it needs.
const NEEDS: [(Syntax, &[u8], Need); 6] = [
    (Syntax::Explicit, b"\x08\0\x16\0UI", Need::Size(8)),
    (Syntax::Explicit, b"\x08\0\x16\0U", Need::More),
    (Syntax::Implicit, b"\x08\0\x16", Need::More),
    (Syntax::Explicit, b"\x08\0\x16\0ZZ", Need::Size(12)),
    (Syntax::Explicit, b"\x08\0\x16\0Ui", Need::BadVr),
    (Syntax::Explicit, b"\xfe\xff\0\xe0", Need::Size(8)),
];

#[test]
fn needs(rt: HostRuntime) {
    for (syntax, bytes, wanted) in &NEEDS {
        assert!(rt; need(*syntax, bytes) == *wanted);
    }
}

/// A VR, a value and the number of its fault, or 0.
const VALUES: [(Vr, &[u8], u8); 26] = [
    (Vr::UI, b"1.02", 4),
    (Vr::UI, b"1..2", 4),
    (Vr::UI, b"1.2.", 4),
    (Vr::UI, b"1.0.2\0", 0),
    (Vr::UI, b"1.2 ", 1),
    (Vr::DA, b"2026010", 2),
    (Vr::DA, b" 20260101\\", 0),
    (Vr::DA, b"2026O101", 1),
    (Vr::CS, b"ct", 1),
    (Vr::CS, b"ORIGINAL\\PRIMARY ", 0),
    (Vr::CS, b"ct\\SEVENTEEN_LETTERS", 3),
    (Vr::IS, b"1234567890123", 3),
    (Vr::IS, b"-12 ", 0),
    (Vr::IS, b"1.5", 1),
    (Vr::DS, b"-1.5e+03\\2", 0),
    (Vr::DS, b"1,5", 1),
    (Vr::TM, b"120000.123456", 0),
    (Vr::TM, b"12h", 1),
    (Vr::AS, b"045Y", 0),
    (Vr::AS, b"45Y", 2),
    (Vr::AS, b"Y045", 1),
    (Vr::AE, b"STORE_1", 0),
    (Vr::AE, b"A\tB", 1),
    (Vr::US, b"123", 2),
    (Vr::OF, b"123456", 2),
    (Vr::FD, b"12345678", 0),
];

/// Returns the number of a value's fault, or 0.
fn number_of(vr: Vr, value: &[u8]) -> u8 {
    match check_value(vr, value) {
        Ok(()) => 0,
        Err(fault) => fault.number(),
    }
}

/// Returns whether each value has its expected fault.
fn are_judged(rows: &[(Vr, &[u8], u8)]) -> bool {
    for (vr, value, number) in rows {
        if number_of(*vr, value) != *number {
            return false;
        }
    }
    true
}

#[test]
fn faults_of_values(rt: HostRuntime) {
    assert!(rt; are_judged(&VALUES));
}

#[test]
fn titles(rt: HostRuntime) {
    let title = AeTitle::of_text("SCANNER1").unwrap_or(AeTitle::default());
    assert!(rt; title.0 == *b"SCANNER1        ");
    assert!(rt; title == AeTitle(*b"  SCANNER1      "));
    assert!(rt; title != AeTitle(*b"SCANNER1\0       "));
}

#[test]
fn texts_of_no_title(rt: HostRuntime) {
    for text in ["", "  ", "A\\B", "SEVENTEEN_LETTERS", "\u{e9}"] {
        assert!(rt; AeTitle::of_text(text).is_none());
    }
}

#[test]
fn identifiers(rt: HostRuntime) {
    let uid = Uid::read(b"1.2.840\0").expect(&rt, "an identifier");
    assert!(rt; uid.as_bytes() == b"1.2.840".as_slice() && uid.copied() == uid);
}

#[test]
fn longest_identifiers(rt: HostRuntime) {
    let long = [b'1'; 65];
    assert!(rt; Uid::read(&long[..64]).is_some() && Uid::read(&long).is_none());
}

#[test]
fn bytes_of_no_identifier(rt: HostRuntime) {
    for bytes in [b"".as_slice(), b" \0".as_slice(), b"1.a".as_slice()] {
        assert!(rt; Uid::read(bytes).is_none());
    }
}

/// A fault of a value, its number, and its printed form.
const FAULTS: [(ValueFault, u8, &str); 4] = [
    (ValueFault::BadCharacter, 1, "BadCharacter"),
    (ValueFault::WrongSize, 2, "WrongSize"),
    (ValueFault::TooLongValue, 3, "TooLongValue"),
    (ValueFault::BadUid, 4, "BadUid"),
];

#[test]
fn printed_faults(rt: HostRuntime) -> Result<(), AllocError> {
    for (fault, number, shown) in FAULTS {
        let text = format!(in rt.alloc(); "{fault}")?;
        assert!(rt; fault.number() == number && text.as_str() == shown);
    }
    Ok(())
}
