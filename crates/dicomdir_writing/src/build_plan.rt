//! Plans the records of a directory and their offsets, starting with the last record.
ghost use Rattle.std.specs.Prelude.{◌≡◌, ◌<◌, ◌≤◌, ◌+◌, [], IfOk, IfErr, IfSome, IfNone, if◌then◌else◌, nat_eq};
ghost use Rattle.dicomdir_writing.specs.TreeOf.{rows_at, images, forest_for};
ghost use Rattle.dicomdir_writing.specs.machine.Building.{StopsFor, stop_fault, Adds, Lays};
ghost use Rattle.dicomdir_writing.specs.Record.{record_for};
ghost use Rattle.dicomdir_writing.specs.Positions.{record_size, forest_size};

use crate::Row;
use crate::build_groups::groups;
use crate::record_bytes::record_bytes;
use dicomdir::{DirFault, Level};
use std::alloc::Allocator;

/// Why a directory cannot be planned.
#[derive(Clone, Copy)]
pub(crate) enum Stop {
    /// The directory would have more bytes than the limit.
    TooLarge,
    /// Memory ran out.
    OutOfMemory,
}

impl Stop {
    /// Returns the fault that [`build`](crate::build) returns for this reason: 66 or 67.
    pub(crate) fn fault(self) -> DirFault
        ensures { result ≡ stop_fault self }
    {
        match self {
            Stop::TooLarge => DirFault::too_large(),
            Stop::OutOfMemory => DirFault::out_of_memory(),
        }
    }
}

/// Returns the sum of two sizes, or `None` if it is greater than `most`.
pub(crate) fn sum_up_to(most: u32, size: u32, more: u32) -> Option<u32>
    ensures some { IfSome result (λ sum. (sum ≡ size + more) × (sum ≤ most)) }
    ensures none { IfNone result (most < size + more) }
{
    let sum = size.checked_add(more)?;
    if sum > most {
        return None;
    }
    Some(sum)
}

/// A planned record: its level and the row that has its keys. Its offsets, to the next record of
/// the level (`next`) and to the first of the lower level (`lower`), are counted back from the end
/// of the file, since its start is not known during planning; 0 is no record.
#[derive(Drop)]
pub(crate) struct LaidRecord<'r, A: Allocator> {
    pub(crate) level: Level,
    pub(crate) row: &'r Row<A>,
    pub(crate) next: u32,
    pub(crate) lower: u32,
}

/// The first and the last of some sibling records, as offsets counted back from the end of the
/// file; 0 is no record.
#[derive(Clone, Copy)]
pub(crate) struct Chain {
    pub(crate) first: u32,
    pub(crate) last: u32,
}

impl Chain {
    /// Returns the chain with one more record before the others, at offset `start`.
    fn after(self, start: u32) -> Chain
        ensures first { result.first ≡ start }
        ensures last { result.last ≡ (if nat_eq self.first 0 then start else self.last) }
    {
        Chain {
            first: start,
            last: if self.first == 0 { start } else { self.last },
        }
    }
}

/// The records planned so far, the last of the file first, and their size in bytes.
#[derive(Drop)]
pub(crate) struct Plan<'r, A: Allocator> {
    pub(crate) entries: Vec<LaidRecord<'r, A>, A>,
    pub(crate) size: u32,
}

impl<'r, A: Allocator> Plan<'r, A> {
    pub(crate) fn new(alloc: A) -> Plan<'r, A>
        ensures entries { result.entries.items ≡ [] }
        ensures size { result.size ≡ 0 }
    {
        Plan {
            entries: Vec::new(alloc),
            size: 0,
        }
    }

    /// Plans a record before the others, and returns its offset, counted back from the end of the
    /// file. Fails if the records would have more than `most` bytes, or memory runs out.
    #[tactic(auto, using(crate::proofs::TreeIsLaidDown::record_length))]
    fn add(&mut self, most: u32, entry: LaidRecord<'r, A>) -> Result<u32, Stop>
        ensures added { IfOk result (λ start. Adds entry.entry.level entry.entry.row.now entry.entry.next entry.entry.lower self.old.entries.items self.new.entries.items) }
        ensures size { IfOk result (λ start. self.new.size ≡ self.old.size + record_size (record_for entry.entry.level entry.entry.row.now)) }
        ensures start { IfOk result (λ start. start ≡ self.new.size) }
        ensures stops { IfErr result (StopsFor most (self.old.size + record_size (record_for entry.entry.level entry.entry.row.now))) }
    {
        let record = record_bytes(entry.level, entry.row, 0, 0);
        let Some(size) = sum_up_to(most, self.size, record.len() as u32) else {
            return Err(Stop::TooLarge);
        };
        if self.entries.push(entry).is_err() {
            return Err(Stop::OutOfMemory);
        }
        self.size = size;
        Ok(size)
    }
}

/// Plans an IMAGE record for each row. Returns their chain.
fn lay_images<'r, A: Allocator>(
    plan: &mut Plan<'r, A>,
    rows: &[&'r Row<A>],
    most: u32,
) -> Result<Chain, Stop>
    ensures laid { IfOk result (λ chain. Lays (images (rows_at rows.now)) plan.old.entries.items plan.new.entries.items plan.old.size plan.new.size chain.first chain.last) }
    ensures stops { IfErr result (StopsFor most (plan.old.size + forest_size (images (rows_at rows.now)))) }
{
    let mut chain = Chain { first: 0, last: 0 };
    let mut at = rows.len();
    while at > 0 {
        at -= 1;
        let record = LaidRecord {
            level: Level::Image,
            row: rows[at],
            next: chain.first,
            lower: 0,
        };
        let start = plan.add(most, record)?;
        chain = chain.after(start);
    }
    Ok(chain)
}

/// Plans the records of rows at a level and below: one for each group, with the keys of its first
/// row. Returns the chain of the level. Fails if the records would exceed `most` bytes, or memory
/// runs out.
pub(crate) fn lay<'r, A: Allocator + Copy>(
    alloc: A,
    plan: &mut Plan<'r, A>,
    rows: &[&'r Row<A>],
    level: Level,
    most: u32,
) -> Result<Chain, Stop>
    ensures laid { IfOk result (λ chain. Lays (forest_for level (rows_at rows.now)) plan.old.entries.items plan.new.entries.items plan.old.size plan.new.size chain.first chain.last) }
    ensures stops { IfErr result (StopsFor most (plan.old.size + forest_size (forest_for level (rows_at rows.now)))) }
{
    if level.is_image() {
        return lay_images(plan, rows, most);
    }
    let Ok(groups) = groups(alloc, rows, level) else {
        return Err(Stop::OutOfMemory);
    };
    let mut chain = Chain { first: 0, last: 0 };
    let mut at = groups.len();
    while at > 0 {
        at -= 1;
        let group = groups[at].as_slice();
        if let Some(row) = group.first() {
            let below = lay(alloc, plan, group, level.below(), most)?;
            let record = LaidRecord {
                level,
                row,
                next: chain.first,
                lower: below.first,
            };
            let start = plan.add(most, record)?;
            chain = chain.after(start);
        }
    }
    Ok(chain)
}
