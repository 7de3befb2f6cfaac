//! Reads the row of a file.
ghost use Rattle.std.specs.Prelude.{◌≡◌, ◌<◌, ◌≤◌, ℕ, List, [], ◌++◌, length, filter, take, option_map, Some, OnOk, IfOk, IfErr, IfSome};
ghost use Rattle.element.specs.Numbers.{IsBytes};
ghost use Rattle.element.specs.Header.{number};
ghost use Rattle.sequence.specs.Wanted.{value_of};
ghost use Rattle.sequence.specs.Consumed.{StandsAt, reported_by};
ghost use Rattle.sequence.specs.Stored.{wanted_tags};
ghost use Rattle.dicomdir_writing.specs.declared.skip.Skip.TheVariants as skip;
ghost use Rattle.dicomdir_writing.specs.RowOf.{row_wants, with_value, values_for, RowOf, DescribedRow, RowIsRead};
ghost use Rattle.dicomdir_writing.specs.RowOf as spelling;
ghost use Rattle.dicomdir_writing.specs.RecordTable.{is_read, keys_read};
ghost use Rattle.dicomdir_writing.specs.declared.record_table.RecordKeys.TheVariants.{Needed};
ghost use Rattle.dicomdir_writing.specs.Keys.{key_values};
ghost use Rattle.dicomdir.specs.Walking.{IsSameSet};
ghost use Rattle.dicomdir_writing.specs.machine.RowReading.{ConsumedWhole, WalkFails};

use crate::allowed::read_allowed;
use crate::keys::Keys;
use crate::record_table::{RecordKeys, RecordRule, key_table};
use crate::row::Row;
use crate::skip::Skip;
use arrayvec::ArrayVec;
use dicomdir::{FileId, walk_piece};
use dictionary::Transfer;
use element::Tag;
use element::interrupted::read_retrying;
use part10::MetaFault;
use sequence::{Walker, Want, Wanted};
use std::alloc::Allocator;
use std::io::Read;

/// The greatest number of bytes of one read.
const PIECE: usize = 4096;

/// A walker with capacity for the keys of a row, for data sets with at most 64 open levels.
type RowWalker = Walker<2048, 64>;

/// Returns the tags of those rules whose keys are read, with the greatest sizes of their values.
fn wants_of(rules: &[RecordRule], keys: RecordKeys) -> ArrayVec<Want, 16>
    requires { length rules.now ≤ 16 }
    ensures { result.items ≡ row_wants (filter (is_read keys) rules.now) }
{
    let mut wants = ArrayVec::new();
    for rule in rules {
        if keys.has(rule) {
            wants.push(Want {
                tag: rule.tag,
                room: rule.room,
            });
        }
    }
    wants
}

/// Returns the tags whose values a walker keeps for a row, each with the greatest size of its
/// value.
#[tactic(auto, using(crate::proofs::RowLaws::wants_are_few, crate::proofs::RowLaws::wants_rise))]
fn wanted(keys: RecordKeys) -> Wanted
    ensures { wanted_tags result ≡ row_wants (keys_read keys) }
{
    match Wanted::of(wants_of(key_table(), keys).as_slice()) {
        Some(wanted) => wanted,
        None => unreachable!(),
    }
}

/// Walks the data set in the rest of the input. Fails with the number of the first fault (10 to
/// 21), or with 54 if a read fails.
fn walk<R: Read>(walker: &mut RowWalker, reader: &mut R) -> Result<(), Skip>
    requires start { StandsAt walker.old [] }
    ensures whole { OnOk result (ConsumedWhole walker.new (R.remaining reader.old)) }
    ensures same { IsSameSet walker.old walker.new }
    ensures fails { IfErr result (WalkFails walker.old (R.remaining reader.old)) }
{
    let mut room = [0; PIECE];
    // The walker stops at its limit of bytes, long before so many pieces.
    for _ in 0..u64::MAX {
        let Ok(count) = read_retrying(reader, &mut room) else {
            return Err(Skip::Fault(MetaFault::ReadFailed.number()));
        };
        let is_end = count == 0;
        if is_end {
            return match walker.finish() {
                Ok(()) => Ok(()),
                Err(fault) => Err(Skip::Fault(fault.number)),
            };
        }
        if let Err(fault) = walk_piece(walker, &room[..count]) {
            return Err(Skip::Fault(fault.number));
        }
    }
    Err(Skip::Fault(MetaFault::ReadFailed.number()))
}

/// Appends a copy of the value with this tag, if the walker kept one. Fails if memory runs out.
fn copy_key<A: Allocator + Copy>(
    alloc: A,
    walker: &RowWalker,
    tag: Tag,
    keys: &mut Keys<A>,
) -> Result<(), Skip>
    ensures added { OnOk result (key_values keys.new ≡ key_values keys.old ++ with_value (number tag) (value_of (reported_by walker.now).kept (number tag)) []) }
    ensures failed { IfErr result (λ reason. reason ≡ skip.OutOfMemory) }
{
    let Some(value) = walker.kept(tag) else {
        return Ok(());
    };
    let Ok(value) = Vec::from_slice(alloc, value) else {
        return Err(Skip::OutOfMemory);
    };
    match keys.push(tag, value) {
        Ok(()) => Ok(()),
        Err(_) => Err(Skip::OutOfMemory),
    }
}

/// Returns copies of the values that the walker kept for those of these rules whose keys are read.
/// Fails if memory runs out.
fn keys_of<A: Allocator + Copy>(
    alloc: A,
    walker: &RowWalker,
    rules: &[RecordRule],
    keys: RecordKeys,
) -> Result<Keys<A>, Skip>
    ensures values { IfOk result (λ copied. key_values copied ≡ values_for (filter (is_read keys) rules.now) (reported_by walker.now).kept) }
    ensures failed { IfErr result (λ reason. reason ≡ skip.OutOfMemory) }
{
    let mut copied = Keys::new(alloc);
    for rule in rules {
        if keys.has(rule) {
            copy_key(alloc, walker, rule.tag, &mut copied)?;
        }
    }
    Ok(copied)
}

/// Reads the row of a file as [`rows_of`] does, with this choice of keys.
#[tactic(auto, using(crate::proofs::RowLaws::wants_have_room))]
fn row_with<A: Allocator + Copy, R: Read>(
    alloc: A,
    reader: &mut R,
    file_id: &FileId,
    additional: &[Transfer],
    keys: RecordKeys,
) -> Result<Row<A>, Skip>
    ensures row { IfSome (R.remaining reader.old) (λ file. IsBytes file → RowIsRead (RowOf additional.now (keys_read keys) file file_id.now) result) }
    ensures file { IfOk result (λ row. row.file_id ≡ file_id.now) }
{
    let meta = match read_allowed(reader, additional) {
        Ok(meta) => meta,
        Err(fault) => return Err(Skip::Fault(fault.number())),
    };
    let mut walker = RowWalker::in_transfer(meta.syntax, wanted(keys), 1 << 48);
    walk(&mut walker, reader)?;
    let keys = keys_of(alloc, &walker, key_table(), keys)?;
    Row::new(*file_id, meta.class, meta.instance, meta.syntax, keys)
}

/// Reads a whole file and returns its row: the SOP class, SOP instance and transfer syntax of the
/// File Meta Information (PS3.10 section 7.1), and those values of the data set that directory
/// records have (PS3.3 section F.5), except those of type 3.
///
/// Accepts files in the two native transfer syntaxes and in those of `additional`.
///
/// Fails with the first of these: `Fault` with the number of a fault of the File Meta Information
/// (50, 51; 53 for a transfer syntax that is not accepted); `Fault` with that of a fault of the
/// data set (10 to 21), which may have at most 64 open levels, 2^48 bytes and the greatest sizes of
/// keys; `Missing` with the tag of the first key of type 1 that is absent or empty. A failed read
/// is `Fault(54)` wherever it occurs; a read that a signal interrupts is repeated. Memory is
/// allocated only for the keys; if it runs out, the error is `OutOfMemory`.
///
/// After an error the position of the reader is unspecified.
// The definitions are of readers that show their bytes: a part's fault is the file's only if bytes
// follow.
pub fn rows_of<A: Allocator + Copy, R: Read>(
    alloc: A,
    reader: &mut R,
    file_id: &FileId,
    additional: &[Transfer],
) -> Result<Row<A>, Skip>
    ensures row { IfSome (R.remaining reader.old) (λ file. IsBytes file → RowIsRead (RowOf additional.now (keys_read Needed) file file_id.now) result) }
    ensures file { IfOk result (λ row. row.file_id ≡ file_id.now) }
{
    row_with(alloc, reader, file_id, additional, RecordKeys::Needed)
}

/// Returns whether a file has no row because a key is too long.
fn is_too_long(reason: Skip) -> bool
    ensures { result ≡ spelling.is_too_long reason }
{
    matches!(reason, Skip::Fault(21))
}

/// Reads the row of a file as [`rows_of`] does, with Series Description (0008,103E), of type 3, if
/// the data set has one of at most 256 bytes. Both readers must be at the start of the file; the
/// second is read only if a value is too long, to read the row without Series Description.
pub fn described_row_of<A: Allocator + Copy, R: Read>(
    alloc: A,
    reader: &mut R,
    again: &mut R,
    file_id: &FileId,
    additional: &[Transfer],
) -> Result<Row<A>, Skip>
    ensures row { IfSome (R.remaining reader.old) (λ file. R.remaining again.old ≡ Some file → IsBytes file → RowIsRead (DescribedRow additional.now file file_id.now) result) }
    ensures file { IfOk result (λ row. row.file_id ≡ file_id.now) }
{
    let reason = match row_with(alloc, reader, file_id, additional, RecordKeys::Described) {
        Ok(row) => return Ok(row),
        Err(reason) => reason,
    };
    if is_too_long(reason) {
        return rows_of(alloc, again, file_id, additional);
    }
    Err(reason)
}
