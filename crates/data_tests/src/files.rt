//! The directories of one image and of two, byte by byte, and checks of a directory's records.
use dicomdir::{Tree, TreeRecord};
use std::alloc::{Allocator, Global};
use std::test::Fail;

/// The preamble.
const PREAMBLE: [&[u8]; 1] = [&[0; 128]];

/// The file header after its preamble, up to the data set at byte 266.
const HEADER: [&[u8]; 3] = [
    b"DICM\x02\0\0\0UL\x04\0z\0\0\0\x02\0\x01\0OB\0\0\x02\0\0\0\0\x01\x02\0\x02\0UI\x14",
    b"\01.2.840.10008.1.3.10\x02\0\x03\0UI\x06\02.25.1\x02\0\x10\0UI\x14\01.2.840.10",
    b"008.1.2.1\0\x02\0\x12\0UI\x0e\02.25.20260101\0\x02\0\x13\0SH\x08\0DCMBOX_1",
];

/// The root of a directory with two images, and the records of patient, study and series at 320,
/// 404 and 534.
const UPPER: [&[u8]; 10] = [
    b"\x04\00\x11CS\0\0\x04\0\0\x12UL\x04\0@\x01\0\0\x04\0\x02\x12UL\x04\0@\x01\0\0\x04",
    b"\0\x12\x12US\x02\0\0\0\x04\0 \x12SQ\0\0v\x02\0\0\xfe\xff\0\xe0L\0\0\0\x04\0\0\x14",
    b"UL\x04\0\0\0\0\0\x04\0\x10\x14US\x02\0\xff\xff\x04\0 \x14UL\x04\0\x94\x01\0\0\x04",
    b"\00\x14CS\x08\0PATIENT \x10\0\x10\0PN\x08\0DOE^JANE\x10\0 \0LO\x02\0P1\xfe\xff",
    b"\0\xe0z\0\0\0\x04\0\0\x14UL\x04\0\0\0\0\0\x04\0\x10\x14US\x02\0\xff\xff\x04\0 ",
    b"\x14UL\x04\0\x16\x02\0\0\x04\00\x14CS\x06\0STUDY \x08\0 \0DA\x08\020260101\x08",
    b"\00\0TM\x06\0120000\x08\0P\0SH\0\0\x08\00\x10LO\x04\0HEAD \0\x0d\0UI\x06\01.2.",
    b"3\0 \0\x10\0SH\x02\0S1\xfe\xff\0\xe0T\0\0\0\x04\0\0\x14UL\x04\0\0\0\0\0\x04\0\x10",
    b"\x14US\x02\0\xff\xff\x04\0 \x14UL\x04\0r\x02\0\0\x04\00\x14CS\x06\0SERIES\x08\0",
    b"`\0CS\x02\0CT \0\x0e\0UI\x08\01.2.3.1\0 \0\x11\0IS\x02\01 ",
];

/// The records of the two images at 626 and 788.
const IMAGES: [&[u8]; 8] = [
    b"\xfe\xff\0\xe0\x9a\0\0\0\x04\0\0\x14UL\x04\0\x14\x03\0\0\x04\0\x10\x14US\x02\0",
    b"\xff\xff\x04\0 \x14UL\x04\0\0\0\0\0\x04\00\x14CS\x06\0IMAGE \x04\0\0\x15CS\x08",
    b"\0I0000001\x04\0\x10\x15UI\x1a\01.2.840.10008.5.1.4.1.1.2\0\x04\0\x11\x15UI\x0a",
    b"\01.2.3.1.1\0\x04\0\x12\x15UI\x14\01.2.840.10008.1.2.1\0 \0\x13\0IS\x02\01 \xfe",
    b"\xff\0\xe0\x9a\0\0\0\x04\0\0\x14UL\x04\0\0\0\0\0\x04\0\x10\x14US\x02\0\xff\xff",
    b"\x04\0 \x14UL\x04\0\0\0\0\0\x04\00\x14CS\x06\0IMAGE \x04\0\0\x15CS\x08\0I00000",
    b"02\x04\0\x10\x15UI\x1a\01.2.840.10008.5.1.4.1.1.2\0\x04\0\x11\x15UI\x0a\01.2.3",
    b".1.2\0\x04\0\x12\x15UI\x14\01.2.840.10008.1.2.1\0 \0\x13\0IS\x02\02 ",
];

/// A record of a directory: offset, level and type.
pub(crate) type Record<'a> = (u64, u8, &'a [u8]);

fn is_record(record: &TreeRecord, wanted: &Record) -> bool {
    let (offset, level, kind) = *wanted;
    record.offset() == offset && record.level() == level && record.kind() == kind
}

/// Returns whether the tree has these records.
pub(crate) fn has<A: Allocator + Copy>(tree: &Tree<A>, records: &[Record]) -> bool {
    let found = tree.records();
    if found.len() != records.len() {
        return false;
    }
    for at in 0..found.len() {
        if !is_record(&found[at], &records[at]) {
            return false;
        }
    }
    true
}

/// Returns these groups of parts joined.
fn joined(alloc: Global, groups: &[&[&[u8]]]) -> Result<Vec<u8>, Fail> {
    let mut file = Vec::new(alloc);
    for parts in groups {
        for part in *parts {
            file.extend_from_slice(part)?;
        }
    }
    Ok(file)
}

/// Returns the directory of two images, 950 bytes.
pub(crate) fn two_images(alloc: Global) -> Result<Vec<u8>, Fail> {
    joined(alloc, &[&PREAMBLE, &HEADER, &UPPER, &IMAGES])
}

/// Writes bytes over those at an offset.
fn write_at(file: &mut [u8], at: usize, bytes: &[u8]) {
    if at <= file.len() && bytes.len() <= file.len() - at {
        file[at..at + bytes.len()].copy_from_slice(bytes);
    }
}

/// Returns the directory of one image, 788 bytes: the first image names no next record, and the
/// sequence is shorter.
pub(crate) fn one_image(alloc: Global) -> Result<Vec<u8>, Fail> {
    let mut file = two_images(alloc)?;
    file.truncate(788);
    write_at(file.as_mut_slice(), 316, &[0xd4, 1, 0, 0]);
    write_at(file.as_mut_slice(), 642, &[0; 4]);
    Ok(file)
}
