//! Encodes the part of a directory file before its records.
ghost use Rattle.std.specs.Prelude.{◌≡◌, true};
ghost use Rattle.element.specs.Uid.{is_uid};
ghost use Rattle.dicomdir_writing.specs.Built.{directory_header};
ghost use Rattle.dicomdir_writing.specs.machine.Building.{root_text};

use crate::record_bytes::{RecordBytes, put_element, put_header, put_offset};
use arrayvec::ArrayVec;
use dictionary::Transfer;
use element::{AeTitle, Header, Syntax, Tag, Uid, Vr};
use part10::{Meta, meta_bytes};

/// The UID of the SOP class Media Storage Directory Storage (PS3.6 annex A).
const DIRECTORY_CLASS: &[u8] = b"1.2.840.10008.1.3.10";

/// The size in bytes of the elements before the first record, with the header of the record
/// sequence.
pub(crate) const ROOT_SIZE: u32 = 54;

/// Returns the preamble, prefix and File Meta Information (PS3.10 section 7.1) of a directory with
/// this SOP Instance UID.
#[tactic(auto, unfolding(crate::specs::Built::directory_header))]
pub(crate) fn file_header(uid: &Uid) -> ArrayVec<u8, 512>
    ensures bytes { result.items ≡ directory_header uid.now }
    ensures known { is_uid uid.now ≡ true }
{
    // By the contract of `len`, the UID is valid.
    uid.len();
    let meta = Meta {
        class: Uid::read(DIRECTORY_CLASS).unwrap(),
        instance: uid.copied(),
        syntax: Transfer::Explicit,
        calling: AeTitle([b' '; 16]),
    };
    meta_bytes(&meta)
}

/// Returns the elements before the first record (PS3.3 section F.3): an empty File-set ID, the
/// offsets of the first and the last record of the root, File-set Consistency Flag, and the header
/// of Directory Record Sequence, whose items have `size` bytes.
#[tactic(auto, using(crate::proofs::RecordIsItsElements::four_fields), unfolding(element::specs::Vr::is_short, crate::specs::machine::Building::root_text))]
pub(crate) fn root_bytes(first: u32, last: u32, size: u32) -> RecordBytes
    ensures { result.items ≡ root_text first last size }
{
    let mut out = RecordBytes::new();
    put_element(&mut out, Tag(0x0004, 0x1130), Vr::CS, &[], b' ');
    put_offset(&mut out, Tag(0x0004, 0x1200), first);
    put_offset(&mut out, Tag(0x0004, 0x1202), last);
    put_element(&mut out, Tag(0x0004, 0x1212), Vr::US, &[0, 0], 0);
    let records = Header {
        tag: Tag(0x0004, 0x1220),
        vr: Some(Vr::SQ),
        length: size,
    };
    put_header(&mut out, &records);
    out
}
