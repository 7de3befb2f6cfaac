//! Writes the records of a directory.
ghost use Rattle.std.specs.Prelude.{◌≡◌, OnOk, OnErr};
ghost use Rattle.std.specs.Io.KnownBytes.{Appends};
ghost use Rattle.dicomdir_writing.specs.machine.Building.{offset_from_end, entry_text, laid_text};
ghost use Rattle.dicomdir_writing.specs.Built.{AppendsFront};

use crate::build_plan::LaidRecord;
use crate::record_bytes::record_bytes;
use crate::writing::write_all;
use std::alloc::Allocator;
use std::io;
use std::io::Write;

/// Returns the offset from the start of a file of this size, for an offset counted back from its
/// end, which is at most `size`. 0 is no record in both.
pub(crate) fn offset_of(size: u32, distance: u32) -> u32
    ensures { result ≡ offset_from_end size distance }
{
    if distance == 0 {
        0
    } else {
        size.saturating_sub(distance)
    }
}

fn write_record<A: Allocator, W: Write>(
    writer: &mut W,
    entry: &LaidRecord<'_, A>,
    size: u32,
) -> io::Result<()>
    ensures all { OnOk result (Appends (W.contents writer.old) (W.contents writer.new) (entry_text size entry.now)) }
    ensures front { OnErr result (AppendsFront (W.contents writer.old) (W.contents writer.new) (entry_text size entry.now)) }
{
    let next = offset_of(size, entry.next);
    let lower = offset_of(size, entry.lower);
    let record = record_bytes(entry.level, entry.row, next, lower);
    write_all(writer, record.as_slice())
}

/// Writes the records of a file of this size. `entries` has the last record first.
pub(crate) fn write_records<A: Allocator, W: Write>(
    writer: &mut W,
    entries: &[LaidRecord<'_, A>],
    size: u32,
) -> io::Result<()>
    ensures all { OnOk result (Appends (W.contents writer.old) (W.contents writer.new) (laid_text size entries.now)) }
    ensures front { OnErr result (AppendsFront (W.contents writer.old) (W.contents writer.new) (laid_text size entries.now)) }
{
    let mut at = entries.len();
    while at > 0 {
        at -= 1;
        write_record(writer, &entries[at], size)?;
    }
    Ok(())
}
