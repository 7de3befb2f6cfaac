//! Reads the records of a directory.
ghost use Rattle.std.specs.Prelude.{◌≡◌, ◌≤◌, ◌<◌, ◌+◌, ◌^◌, ◌++◌, List, length, false, IsOk, IfOk, IfErr, IfSome, IsNone};
ghost use Rattle.sequence.specs.Tree.{Elements, Items};
ghost use Rattle.dicomdir.specs.Directory.{Record, records_at, has_record, kind_in, file_id_in};
ghost use Rattle.dicomdir.specs.DirFault.{record_fault, each_fault};
ghost use Rattle.dicomdir.specs.machine.Trail.{IsEntry, AddsEntries, FailsAs, EntrySays, use_flag, entry_has_file_id};
ghost use Rattle.dicomdir.specs.machine.Texts.{HasElements, HasItems, shown};
ghost use Rattle.std.specs.Str.{bytes_eq};

use crate::fault::DirFault;
use crate::file_id::FileId;
use crate::found::{Element, after, after_item, content_of, find, head_of};
use crate::level::Level;
use element::{Tag, unpadded};
use sequence::Coding;
use std::alloc::Allocator;

/// A record of a directory: the position of its item in the file, its offsets to the next record
/// and to the lower level, whether it is in use, its type without padding, and file ID.
#[derive(Clone, Copy)]
pub(crate) struct ReadRecord<'a> {
    pub offset: u64,
    pub next: u32,
    pub lower: u32,
    pub in_use: bool,
    pub kind: &'a [u8],
    pub file_id: Option<FileId>,
}

/// Returns whether the bytes equal this text.
pub(crate) fn is_text(bytes: &[u8], text: &[u8]) -> bool
    ensures { result ≡ bytes_eq bytes.now text.now }
{
    bytes == text
}

/// Returns whether this Record In-use Flag (0004,1410) means in use, FFFFH, or inactive, 0000H.
/// Returns `None` for any other value.
fn use_of(flag: Option<u16>) -> Option<bool>
    ensures { result ≡ use_flag flag }
{
    match flag {
        Some(0xffff) => Some(true),
        Some(0) => Some(false),
        _ => None,
    }
}

fn kind_of<'a>(element: &Element<'a>) -> &'a [u8]
    ensures { result.now ≡ kind_in (shown element.now) }
{
    match element.value() {
        Some(value) => unpadded(value),
        None => &[],
    }
}

fn file_id_of<'a>(element: &Element<'a>) -> Option<FileId>
    ensures { result ≡ file_id_in (shown element.now) }
{
    match element.value() {
        Some(value) => FileId::read(value),
        None => None,
    }
}

/// Reads the record of an item at `offset` with the elements in `text`. Returns `None` if an offset,
/// Record In-use Flag or Directory Record Type is missing or wrong.
fn entry_of<'a>(syntax: Coding, offset: u64, text: &'a [u8]) -> Option<ReadRecord<'a>>
    ensures read { IfSome result (λ e. (es : Elements) → HasElements syntax es text.now → EntrySays e (record { offset = offset; elements = es })) }
    ensures lacks { IsNone result → (es : Elements) → HasElements syntax es text.now → has_record es ≡ false }
{
    let next = find(syntax, Tag(0x0004, 0x1400), 0, text).long()?;
    let in_use = use_of(find(syntax, Tag(0x0004, 0x1410), 0, text).short())?;
    let lower = find(syntax, Tag(0x0004, 0x1420), 0, text).long()?;
    let kind = kind_of(&find(syntax, Tag(0x0004, 0x1430), 0, text));
    if kind.is_empty() {
        return None;
    }
    let file_id = file_id_of(&find(syntax, Tag(0x0004, 0x1500), 0, text));
    Some(ReadRecord {
        offset,
        next,
        lower,
        in_use,
        kind,
        file_id,
    })
}

/// Returns whether the record has the file ID that it needs. `element` is its Referenced File ID: a
/// record in use must have a valid one, except that it may be missing in records other than IMAGE.
fn has_file_id(entry: &ReadRecord, element: &Element) -> bool
    ensures { result ≡ entry_has_file_id entry.now element.now }
{
    !entry.in_use
        || entry.file_id.is_some()
        || (element.is_missing() && !is_text(entry.kind, Level::Image.kind()))
}

/// Reads the record of an item at `offset`. Fails with 68 (`BadRecord`) or 65 (`BadFileId`).
fn read_record<'a>(syntax: Coding, offset: u64, text: &'a [u8]) -> Result<ReadRecord<'a>, DirFault>
    ensures read { IfOk result (λ e. (es : Elements) → HasElements syntax es text.now → IsEntry e (record { offset = offset; elements = es })) }
    ensures fails { IfErr result (λ f. (es : Elements) → HasElements syntax es text.now → FailsAs (record_fault (record { offset = offset; elements = es })) f) }
{
    let Some(entry) = entry_of(syntax, offset, text) else {
        return Err(DirFault::at(DirFault::BAD_RECORD, offset));
    };
    if !has_file_id(&entry, &find(syntax, Tag(0x0004, 0x1500), 0, text)) {
        return Err(DirFault::at(DirFault::BAD_FILE_ID, offset));
    }
    Ok(entry)
}

/// Reads the records of the items in `text`, and appends them to `records`. `first` is the position
/// of the first item in the file. Fails with the first fault of a record, or with 67 if memory runs
/// out.
pub(crate) fn read_records<'a, A: Allocator + Copy>(
    syntax: Coding,
    first: u64,
    text: &'a [u8],
    records: &mut Vec<ReadRecord<'a>, A>,
) -> Result<(), DirFault>
    requires { first + length text.now < 2 ^ 64 }
    ensures read { IsOk result → AddsEntries syntax first text.now records.old.items records.new.items }
    ensures fails { IfErr result (λ f. (items : Items) → HasItems syntax items text.now → FailsAs (each_fault (records_at first items)) f) }
{
    let mut rest = text;
    while let Some(head) = head_of(syntax, rest) {
        if head.header.tag != Tag::ITEM {
            return Ok(());
        }
        let next = after(rest, head.size);
        let offset = first + (text.len() - rest.len()) as u64;
        match read_record(syntax, offset, content_of(head.header, next)) {
            Err(fault) => return Err(fault),
            Ok(record) => {
                if records.push(record).is_err() {
                    return Err(DirFault::out_of_memory());
                }
            }
        }
        rest = after_item(syntax, head.header, next);
    }
    Ok(())
}
