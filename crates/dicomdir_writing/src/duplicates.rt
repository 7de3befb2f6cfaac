//! Removes rows that have the SOP Instance UID of an earlier row.
ghost use Rattle.std.specs.Prelude.{◌≡◌, [], IfOk, OnOk};
ghost use Rattle.std.specs.List.{AllByRecursion};
ghost use Rattle.dicomdir_writing.specs.Keys.{IsRow};
ghost use Rattle.dicomdir_writing.specs.TreeOf.{rows_at};
ghost use Rattle.dicomdir_writing.specs.Positions.{duplicates_of};
ghost use Rattle.dicomdir_writing.specs.Row.{without_duplicates};
ghost use Rattle.dicomdir_writing.specs.machine.FirstSeen.{ConsumesRow, texts};

use crate::Row;
use crate::first_seen::{SeenKeys, see};
use indexmap::IndexSet;
use std::alloc::{AllocError, Allocator};

/// The rows of a list without duplicates, and the indices of the duplicates in it. A duplicate is a
/// row with the SOP Instance UID of an earlier row.
#[derive(Drop)]
pub(crate) struct Kept<'r, A: Allocator> {
    pub(crate) rows: Vec<&'r Row<A>, A>,
    pub(crate) duplicates: Vec<usize, A>,
}

/// Appends the row with index `at` to the rows, or its index to the duplicates if an earlier row
/// has its SOP Instance UID. Fails if memory runs out.
fn take_row<'r, A: Allocator + Copy>(
    alloc: A,
    seen: &mut SeenKeys<A>,
    kept: &mut Kept<'r, A>,
    at: usize,
    row: &'r Row<A>,
) -> Result<(), AllocError>
    ensures { OnOk result (ConsumesRow at row.now (texts seen.old.keys) (texts seen.new.keys) (rows_at kept.old.rows.items) (rows_at kept.new.rows.items)
        kept.old.duplicates.items kept.new.duplicates.items) }
{
    let (_, is_new) = see(alloc, seen, row.instance())?;
    if is_new {
        kept.rows.push(row)?;
        return Ok(());
    }
    kept.duplicates.push(at)?;
    Ok(())
}

/// Separates the duplicates from the rows: of the rows with the same SOP Instance UID, all but the
/// first. Fails if memory runs out.
pub(crate) fn leave_out_duplicates<'r, A: Allocator + Copy>(
    alloc: A,
    rows: &'r [Row<A>],
) -> Result<Kept<'r, A>, AllocError>
    ensures rows { IfOk result (λ kept. rows_at kept.rows.items ≡ without_duplicates [] rows.now) }
    ensures duplicates { IfOk result (λ kept. kept.duplicates.items ≡ duplicates_of rows.now) }
    ensures valid { OnOk result (AllByRecursion IsRow rows.now) }
{
    let mut seen = IndexSet::new(alloc);
    let mut kept = Kept {
        rows: Vec::new(alloc),
        duplicates: Vec::new(alloc),
    };
    for at in 0..rows.len() {
        let row = &rows[at];
        row.keeps();
        take_row(alloc, &mut seen, &mut kept, at, row)?;
    }
    Ok(kept)
}
