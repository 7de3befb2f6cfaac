//! Reads from a file's header which implementation wrote the file, and its SOP Class and transfer
//! syntax.
use crate::options::Syntaxes;
use element::{Header, Need, Syntax, Tag, Uid, need, read_header};
use part10::MetaFault;

/// The size of the preamble and the letters `DICM` (PS3.10 section 7.1).
pub(crate) const PREFIX: usize = 132;

/// The SOP Class UID of a DICOMDIR: Media Storage Directory Storage.
pub const DIRECTORY_CLASS: &[u8] = b"1.2.840.10008.1.3.10";

/// The tag of the Media Storage SOP Class UID.
const SOP_CLASS_UID: Tag = Tag(0x0002, 0x0002);

/// The tag of the Implementation Class UID.
const IMPLEMENTATION_CLASS_UID: Tag = Tag(0x0002, 0x0012);

/// The tag of the Transfer Syntax UID.
pub(crate) const TRANSFER_SYNTAX_UID: Tag = Tag(0x0002, 0x0010);

/// Returns the header at the start of the bytes and its size, or `None` if they hold no whole
/// header with a VR.
pub(crate) fn first_header(bytes: &[u8]) -> Option<(Header, usize)> {
    match need(Syntax::Explicit, bytes) {
        Need::More | Need::BadVr => None,
        Need::Size(size) => {
            if size <= bytes.len() {
                Some((read_header(Syntax::Explicit, bytes), size))
            } else {
                None
            }
        }
    }
}

/// Returns the header at an offset of a file and the offset of its value, or `None` if the file has
/// no whole header there.
pub(crate) fn header_at(file: &[u8], offset: usize) -> Option<(Header, usize)> {
    let (header, size) = first_header(file.get(offset..)?)?;
    Some((header, offset.checked_add(size)?))
}

/// Returns the value of the first element with this tag among the elements in Explicit VR from
/// offset `first` of a file, or `None` if the bytes end before it.
pub fn value_from(file: &[u8], first: usize, tag: Tag) -> Option<&[u8]> {
    let mut offset = first;
    for _ in 0..file.len() {
        let (header, start) = header_at(file, offset)?;
        let end = start.checked_add(header.length as usize)?;
        if header.tag == tag {
            return file.get(start..end);
        }
        offset = end;
    }
    None
}

/// Returns the UID with this tag in a file's header (PS3.10 section 7.1), or `None` if the bytes,
/// the beginning of the file, have no such UID.
pub(crate) fn identifier_of(file: &[u8], tag: Tag) -> Option<Uid> {
    Uid::read(value_from(file, PREFIX, tag)?)
}

/// Returns the Media Storage SOP Class UID of a file's header, or `None` if the bytes, the
/// beginning of the file, have none.
pub fn class_of(file: &[u8]) -> Option<Uid> {
    identifier_of(file, SOP_CLASS_UID)
}

/// Returns the Implementation Class UID of a file's header (PS3.10 section 7.1), or `None` if the
/// bytes, the beginning of the file, have none.
pub fn implementation_of(file: &[u8]) -> Option<Uid> {
    identifier_of(file, IMPLEMENTATION_CLASS_UID)
}

/// Returns the Transfer Syntax UID of a file's header if it is outside `syntaxes`. `file` is the
/// beginning of the file.
pub fn other_syntax_of(file: &[u8], syntaxes: Syntaxes) -> Option<Uid> {
    let mut input = file;
    match syntaxes.read_meta(&mut input) {
        Err(MetaFault::OtherSyntax) => identifier_of(file, TRANSFER_SYNTAX_UID),
        _ => None,
    }
}
