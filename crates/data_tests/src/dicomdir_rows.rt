//! Rows of five files.
use dicomdir::FileId;
use dicomdir_writing::{Keys, Row};
use dictionary::Transfer;
use element::{Tag, Uid};
use std::alloc::Allocator;
use std::test::Fail;

/// The values of a file in these test cases.
#[derive(Clone, Copy)]
pub(crate) struct File<'a> {
    file_id: &'a [u8],
    instance: &'a [u8],
    patient: &'a [u8],
    study: &'a [u8],
    series: &'a [u8],
    number: &'a [u8],
}

/// An image.
const FIRST: File = File {
    file_id: b"I0000001",
    instance: b"1.2.3.1.1",
    patient: b"P1",
    study: b"1.2.3",
    series: b"1.2.3.1",
    number: b"1",
};

/// A second image of the same series. Padding does not count in keys.
const SECOND: File = File {
    file_id: b"I0000002",
    instance: b"1.2.3.1.2",
    patient: b"P1  ",
    study: b"1.2.3\0",
    series: b"1.2.3.1",
    number: b"2",
};

/// An image of another series of the same study.
const OF_ANOTHER_SERIES: File = File {
    file_id: b"I0000003",
    instance: b"1.2.3.2.1",
    patient: b"P1",
    study: b"1.2.3",
    series: b"1.2.3.2",
    number: b"1",
};

/// A duplicate of the first image.
const DOUBLE: File = File {
    file_id: b"I0000004",
    instance: b"1.2.3.1.1",
    patient: b"P1",
    study: b"1.2.3",
    series: b"1.2.3.1",
    number: b"1",
};

/// An image of another patient.
const OF_ANOTHER_PATIENT: File = File {
    file_id: b"I0000005",
    instance: b"1.2.4.1.1",
    patient: b"P2",
    study: b"1.2.4",
    series: b"1.2.4.1",
    number: b"1",
};

pub(crate) const FILES: [File; 5] = [FIRST, SECOND, OF_ANOTHER_SERIES, DOUBLE, OF_ANOTHER_PATIENT];

/// Returns the keys of a file, up to the first without memory. Then there is no row, since the last
/// key must not be empty.
fn keys<A: Allocator + Copy>(alloc: A, file: &File) -> Keys<A> {
    let values = [
        (Tag(0x0010, 0x0010), b"DOE^JANE".as_slice()),
        (Tag(0x0010, 0x0020), file.patient),
        (Tag(0x0008, 0x0020), b"20260101".as_slice()),
        (Tag(0x0008, 0x0030), b"120000".as_slice()),
        (Tag(0x0008, 0x1030), b"HEAD".as_slice()),
        (Tag(0x0020, 0x000d), file.study),
        (Tag(0x0020, 0x0010), b"S1".as_slice()),
        (Tag(0x0008, 0x0060), b"CT".as_slice()),
        (Tag(0x0020, 0x000e), file.series),
        (Tag(0x0020, 0x0011), b"1".as_slice()),
        (Tag(0x0020, 0x0013), file.number),
    ];
    let mut keys = Keys::new(alloc);
    for (tag, value) in values {
        let Ok(copy) = Vec::from_slice(alloc, value) else {
            return keys;
        };
        if keys.push(tag, copy).is_err() {
            return keys;
        }
    }
    keys
}

/// Returns the row of a file, or `None` if it has none.
fn row<A: Allocator + Copy>(alloc: A, file: &File) -> Option<Row<A>> {
    let file_id = FileId::read(file.file_id)?;
    let class = Uid::read(b"1.2.840.10008.5.1.4.1.1.2")?;
    let instance = Uid::read(file.instance)?;
    let keys = keys(alloc, file);
    Row::new(file_id, class, instance, Transfer::Explicit, keys).ok()
}

/// Returns the rows of these files, up to the first without memory.
pub(crate) fn rows<A: Allocator + Copy>(alloc: A, files: &[File]) -> Vec<Row<A>, A> {
    let Ok(mut rows) = Vec::with_capacity(alloc, files.len()) else {
        return Vec::new(alloc);
    };
    for file in files {
        let Some(row) = row(alloc, file) else {
            return rows;
        };
        if rows.push(row).is_err() {
            return rows;
        }
    }
    rows
}

/// Returns the SOP Instance UID of the directories.
pub(crate) fn uid() -> Result<Uid, Fail> {
    Ok(Uid::read(b"2.25.1").ok_or("a UID")?)
}
