//! Encodes directory records.
ghost use Rattle.std.specs.Prelude.{◌≡◌, ◌+◌, ◌≤◌, ◌++◌, length, true, false, codes, Some, IsTrue};
ghost use Rattle.std.specs.List.{list_all};
ghost use Rattle.arrayvec.specs.ArrayVec.{array_vec_len};
ghost use Rattle.element.specs.Numbers.{le};
ghost use Rattle.element.specs.Padding.{padded};
ghost use Rattle.element.specs.Vr.{is_short_vr};
ghost use Rattle.sequence.specs.Tree.{no_elements};
ghost use Rattle.element.specs.declared.syntax.Syntax.TheVariants.{Explicit};
ghost use Rattle.element.specs.Header.{number, is_marker, header_bytes, header_fits};
ghost use Rattle.dicomdir_writing.specs.Record.{spelled, with_offsets, field_of, written, fields, record_for};
ghost use Rattle.dicomdir_writing.specs.machine.RowRecords.{says_of, rules_room, has_short_header, fits_rule};
ghost use Rattle.dicomdir_writing.specs.Record as text;

use crate::Row;
use crate::record_table::{ElementType, RecordRule, record_table};
use crate::row_record::RowRecord;
use arrayvec::ArrayVec;
use byteorder::{ByteOrder, LittleEndian};
use dicomdir::Level;
use element::{Header, Syntax, Tag, Vr, write_header};
use std::alloc::Allocator;

/// A buffer for one record, of at most 1024 bytes.
pub(crate) type RecordBytes = ArrayVec<u8, 1024>;

fn put(out: &mut RecordBytes, bytes: &[u8])
    requires { array_vec_len out.old + length bytes.now ≤ 1024 }
    ensures { out.new.items ≡ out.old.items ++ bytes.now }
{
    out.try_extend_from_slice(bytes).unwrap();
}

/// Appends a header in Explicit VR Little Endian.
pub(crate) fn put_header(out: &mut RecordBytes, header: &Header)
    requires room { array_vec_len out.old + 12 ≤ 1024 }
    requires fits { IsTrue (header_fits Explicit header.now) }
    ensures { out.new.items ≡ out.old.items ++ header_bytes header.now }
{
    let mut room = [0; 12];
    let size = write_header(Syntax::Explicit, header, &mut room);
    put(out, &room[..size]);
}

/// Appends an element in Explicit VR Little Endian, with a VR whose length field has two bytes.
/// Pads the value to an even length.
#[tactic(auto, unfolding(crate::specs::Record::element_text))]
pub(crate) fn put_element(out: &mut RecordBytes, tag: Tag, vr: Vr, value: &[u8], padding: u8)
    requires room { array_vec_len out.old + length value.now + 12 ≤ 1024 }
    requires plain { is_marker tag ≡ false }
    requires short { is_short_vr vr ≡ true }
    ensures items { out.new.items ≡ out.old.items ++ text.element_text tag vr (padded padding value.now) }
    ensures bound { array_vec_len out.new ≤ array_vec_len out.old + length value.now + 9 }
{
    // By the contract of `letters`, the VR has two.
    vr.letters();
    let odd = value.len() % 2;
    let header = Header {
        tag,
        vr: Some(vr),
        length: (value.len() + odd) as u32,
    };
    put_header(out, &header);
    put(out, value);
    if odd == 1 {
        out.push(padding);
    }
}

fn offset_bytes(offset: u32) -> [u8; 4]
    ensures { result ≡ le offset 4 }
{
    let mut bytes = [0; 4];
    LittleEndian::write_u32(&mut bytes, offset);
    bytes
}

/// Appends an element of VR UL whose value is an offset.
#[tactic(auto, unfolding(element::specs::Vr::is_short))]
pub(crate) fn put_offset(out: &mut RecordBytes, tag: Tag, offset: u32)
    requires room { array_vec_len out.old + 16 ≤ 1024 }
    requires plain { is_marker tag ≡ false }
    ensures items { out.new.items ≡ out.old.items ++ text.element_text tag (codes "UL") (le offset 4) }
    ensures bound { array_vec_len out.new ≤ array_vec_len out.old + 13 }
{
    put_element(out, tag, Vr::UL, &offset_bytes(offset), 0);
}

/// Appends an element of a record, padded to an even length: UI with 00H, other VRs with a space.
#[tactic(auto, using(crate::proofs::RecordIsItsElements::field_text, crate::proofs::RecordIsItsElements::short_named))]
fn put_field(out: &mut RecordBytes, rule: &RecordRule, value: &[u8])
    requires room { array_vec_len out.old + length value.now + 12 ≤ 1024 }
    requires short { has_short_header rule.now ≡ true }
    ensures items { out.new.items ≡ out.old.items ++ spelled (field_of rule.now (Some value.now) no_elements) }
    ensures bound { array_vec_len out.new ≤ array_vec_len out.old + length value.now + 9 }
{
    let padding = if rule.vr.as_slice() == b"UI".as_slice() {
        0
    } else {
        b' '
    };
    let Some(vr) = Vr::read(rule.vr) else {
        unreachable!()
    };
    put_element(out, rule.tag, vr, value, padding);
}

/// Appends the element of this rule, unless the record has none according to the element's type.
fn put_rule<A: Allocator>(out: &mut RecordBytes, rule: &RecordRule, entry: &RowRecord<A>)
    requires room { array_vec_len out.old + rule.now.room + 12 ≤ 1024 }
    requires short { has_short_header rule.now ≡ true }
    requires fits { fits_rule (says_of entry.now) rule.now ≡ true }
    ensures items { out.new.items ≡ out.old.items ++ spelled (field_of rule.now (written rule.now.kind (says_of entry.now (number rule.now.tag))) no_elements) }
    ensures bound { array_vec_len out.new ≤ array_vec_len out.old + rule.now.room + 9 }
{
    match (rule.kind, entry.value(rule.tag)) {
        (_, Some(value)) => put_field(out, rule, value),
        (ElementType::Type1C | ElementType::Type3, None) => {}
        (ElementType::Unique | ElementType::Type1 | ElementType::Type2, None) => {
            put_field(out, rule, &[]);
        }
    }
}

/// Appends those elements of these rules that a record of this level has.
fn put_rules<A: Allocator>(out: &mut RecordBytes, rules: &[RecordRule], entry: &RowRecord<A>)
    requires room { array_vec_len out.old + rules_room entry.now.level rules.now + 3 ≤ 1024 }
    requires short { list_all has_short_header rules.now ≡ true }
    requires fits { list_all (fits_rule (says_of entry.now)) rules.now ≡ true }
    ensures items { out.new.items ≡ out.old.items ++ spelled (fields entry.now.level rules.now (says_of entry.now)) }
    ensures bound { array_vec_len out.new ≤ array_vec_len out.old + rules_room entry.now.level rules.now }
{
    for rule in rules {
        if rule.levels.has(entry.level) {
            put_rule(out, rule, entry);
        }
    }
}

/// Returns the elements of the record of a row at a level, with the offsets of the next record and
/// of the lower level.
#[tactic(auto, using(crate::proofs::RecordIsItsElements::record_fields, crate::proofs::RecordIsItsElements::record_fits, crate::proofs::RecordIsItsElements::short_table))]
fn record_elements<A: Allocator>(level: Level, row: &Row<A>, next: u32, lower: u32) -> RecordBytes
    ensures items { result.items ≡ spelled (with_offsets next lower (record_for level row.now)) }
    ensures bound { array_vec_len result ≤ 960 }
{
    row.keeps();
    let entry = RowRecord {
        level,
        row,
        next: offset_bytes(next),
        lower: offset_bytes(lower),
    };
    let mut out = RecordBytes::new();
    put_rules(&mut out, record_table(), &entry);
    out
}

/// Returns the record of a row at a level, with the offsets of the next record and of the lower
/// level: an item of defined length (PS3.5 section 7.5.1), of at most 968 bytes.
#[tactic(auto, unfolding(crate::specs::Record::record_text))]
pub(crate) fn record_bytes<A: Allocator>(
    level: Level,
    row: &Row<A>,
    next: u32,
    lower: u32,
) -> RecordBytes
    ensures items { result.items ≡ text.record_text level row.now next lower }
    ensures bound { array_vec_len result ≤ 968 }
{
    let elements = record_elements(level, row, next, lower);
    let header = Header {
        tag: Tag::ITEM,
        vr: None,
        length: elements.len() as u32,
    };
    let mut out = RecordBytes::new();
    put_header(&mut out, &header);
    put(&mut out, elements.as_slice());
    out
}
