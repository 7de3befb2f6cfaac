//! Files of an image, and the rows read from them.
use dicomdir::FileId;
use dicomdir_writing::{Row, Skip, rows_of};
use dictionary::Transfer;
use element::{AeTitle, Syntax, Tag, Uid};
use part10::{Meta, meta_bytes};
use std::alloc::{Allocator, Global};
use std::test::Fail;

pub(crate) const SERIES_DESCRIPTION: Tag = Tag(0x0008, 0x103e);

/// An element with a short VR: its tag, its VR and its value.
pub(crate) type Element<'a> = (Tag, &'a [u8; 2], &'a [u8]);

/// The data set of an image, with another SOP Class UID than its file header.
const IMAGE: [Element; 16] = [
    (Tag(0x0008, 0x0005), b"CS", b"ISO_IR 100"),
    (Tag(0x0008, 0x0016), b"UI", b"1.2.840.10008.5.1.4.1.1.4\0"),
    (Tag(0x0008, 0x0020), b"DA", b"20260101"),
    (Tag(0x0008, 0x0030), b"TM", b"120000"),
    (Tag(0x0008, 0x0050), b"SH", b""),
    (Tag(0x0008, 0x0060), b"CS", b"CT"),
    (Tag(0x0008, 0x1030), b"LO", b"HEAD"),
    (SERIES_DESCRIPTION, b"LO", b"AXIAL "),
    (Tag(0x0010, 0x0010), b"PN", b"DOE^JANE"),
    (Tag(0x0010, 0x0020), b"LO", b"P1"),
    (Tag(0x0010, 0x0040), b"CS", b"F "),
    (Tag(0x0020, 0x000d), b"UI", b"1.2.3\0"),
    (Tag(0x0020, 0x000e), b"UI", b"1.2.3.1\0"),
    (Tag(0x0020, 0x0010), b"SH", b"S1"),
    (Tag(0x0020, 0x0011), b"IS", b"1 "),
    (Tag(0x0020, 0x0013), b"IS", b"1 "),
];

/// Adds an element.
pub(crate) fn put(
    file: &mut Vec<u8>,
    syntax: Syntax,
    element: &Element,
    value: &[u8],
) -> Result<(), Fail> {
    let (Tag(group, number), vr, _) = *element;
    let [g0, g1] = group.to_le_bytes();
    let [n0, n1] = number.to_le_bytes();
    let [l0, l1, l2, l3] = u32::try_from(value.len()).unwrap_or(0).to_le_bytes();
    let header = match syntax {
        Syntax::Implicit => [g0, g1, n0, n1, l0, l1, l2, l3],
        Syntax::Explicit => [g0, g1, n0, n1, vr[0], vr[1], l0, l1],
    };
    file.extend_from_slice(&header)?;
    file.extend_from_slice(value)?;
    Ok(())
}

/// Returns the header of a file of the CT image.
pub(crate) fn header(alloc: Global, syntax: Syntax) -> Result<Vec<u8>, Fail> {
    header_in(alloc, Transfer::native(syntax))
}

fn header_in(alloc: Global, transfer: Transfer) -> Result<Vec<u8>, Fail> {
    let meta = Meta {
        class: Uid::read(b"1.2.840.10008.5.1.4.1.1.2").ok_or("a class")?,
        instance: Uid::read(b"1.2.3.1.1").ok_or("an instance")?,
        syntax: transfer,
        calling: AeTitle(*b"SCANNER1        "),
    };
    Ok(Vec::from_slice(alloc, meta_bytes(&meta).as_slice())?)
}

/// Returns a file of the image in which the element with this tag has another value.
pub(crate) fn changed(
    alloc: Global,
    syntax: Syntax,
    tag: Tag,
    other: &[u8],
) -> Result<Vec<u8>, Fail> {
    let mut file = header(alloc, syntax)?;
    for element in &IMAGE {
        let (here, _, value) = *element;
        if here == tag {
            put(&mut file, syntax, element, other)?;
        } else {
            put(&mut file, syntax, element, value)?;
        }
    }
    Ok(file)
}

/// Returns the file of the image.
pub(crate) fn image(alloc: Global, syntax: Syntax) -> Result<Vec<u8>, Fail> {
    changed(alloc, syntax, Tag(0, 0), b"")
}

/// Returns the file of the image in an explicit transfer syntax, with Pixel Data of undefined
/// length: an empty Basic Offset Table and a fragment of four bytes.
pub(crate) fn compressed(alloc: Global, transfer: Transfer) -> Result<Vec<u8>, Fail> {
    let mut file = header_in(alloc, transfer)?;
    for element in &IMAGE {
        put(&mut file, Syntax::Explicit, element, element.2)?;
    }
    file.extend_from_slice(b"\xe0\x7f\x10\0OB\0\0\xff\xff\xff\xff")?;
    file.extend_from_slice(b"\xfe\xff\0\xe0\0\0\0\0")?;
    file.extend_from_slice(b"\xfe\xff\0\xe0\x04\0\0\0\xfe\xff\xdd\xe0")?;
    file.extend_from_slice(b"\xfe\xff\xdd\xe0\0\0\0\0")?;
    Ok(file)
}

fn same(value: &[u8], wanted: &[u8]) -> bool {
    value == wanted
}

/// Returns whether the row has the values of the image's file header.
fn is_identified<A: Allocator>(row: &Row<A>, transfer: Transfer) -> bool {
    let file_id = row.file_id();
    same(file_id.text(), b"I0000001")
        && same(row.class(), b"1.2.840.10008.5.1.4.1.1.2")
        && same(row.instance(), b"1.2.3.1.1")
        && row.syntax() == transfer
}

/// The image's keys, without Series Description, which is optional.
static KEYS: [(Tag, &[u8]); 13] = [
    (Tag(0x0008, 0x0005), b"ISO_IR 100"),
    (Tag(0x0008, 0x0020), b"20260101"),
    (Tag(0x0008, 0x0030), b"120000"),
    (Tag(0x0008, 0x0050), b""),
    (Tag(0x0008, 0x0060), b"CT"),
    (Tag(0x0008, 0x1030), b"HEAD"),
    (Tag(0x0010, 0x0010), b"DOE^JANE"),
    (Tag(0x0010, 0x0020), b"P1"),
    (Tag(0x0020, 0x000d), b"1.2.3\0"),
    (Tag(0x0020, 0x000e), b"1.2.3.1\0"),
    (Tag(0x0020, 0x0010), b"S1"),
    (Tag(0x0020, 0x0011), b"1 "),
    (Tag(0x0020, 0x0013), b"1 "),
];

/// Returns whether the row has the image's keys.
fn has_keys<A: Allocator>(row: &Row<A>) -> bool {
    KEYS.iter()
        .all(|(tag, value)| row.value(*tag) == Some(*value))
}

/// Returns whether the row is that of the image in this transfer syntax, with this Series
/// Description.
pub(crate) fn is_described<A: Allocator>(
    row: &Row<A>,
    transfer: Transfer,
    description: Option<&[u8]>,
) -> bool {
    is_identified(row, transfer) && has_keys(row) && row.value(SERIES_DESCRIPTION) == description
}

/// Returns whether the row is that of the image in this transfer syntax.
pub(crate) fn is_image<A: Allocator>(row: &Row<A>, transfer: Transfer) -> bool {
    is_described(row, transfer, None)
}

/// Returns the file ID of these rows.
pub(crate) fn id() -> Result<FileId, Skip> {
    match FileId::read(b"I0000001") {
        Some(id) => Ok(id),
        None => Err(Skip::OutOfMemory),
    }
}

/// Returns why a file has no row, or `None` if it has one.
pub(crate) fn reason(rt: HostRuntime, file: &[u8]) -> Option<Skip> {
    match row_of(rt, file) {
        Ok(_) => None,
        Err(reason) => Some(reason),
    }
}

/// Returns the row of a file.
fn row_of(rt: HostRuntime, file: &[u8]) -> Result<Row<Global>, Skip> {
    let mut rest = file;
    rows_of(rt.alloc(), &mut rest, &id()?, &[])
}
