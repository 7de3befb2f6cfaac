//! Groups rows by patient, study or series.
ghost use Rattle.std.specs.Prelude.{◌≡◌, ◌<◌, ◌++◌, ◌∷◌, [], IfOk, OnOk, if◌then◌else◌, length, get_or, set};
ghost use Rattle.dicomdir_writing.specs.TreeOf.{groups_of, row_groups, rows_at, key_for};
ghost use Rattle.dicomdir_writing.specs.machine.FirstSeen.{Puts, texts};
ghost use Rattle.dicomdir_writing.specs.RecordTable as table;
ghost use Rattle.std.specs.List.{find};

use crate::Row;
use crate::first_seen::{SeenKeys, see};
use crate::record_table::{RecordRule, key_table};
use dicomdir::Level;
use element::unpadded;
use indexmap::IndexSet;
use std::alloc::{AllocError, Allocator};

/// Returns the rule of these whose element is the unique key of a level: Patient ID, Study Instance
/// UID or Series Instance UID. Returns `None` for images.
fn grouping_key(rules: &[RecordRule], level: Level) -> Option<RecordRule>
    ensures { result ≡ find (table.groups level) rules.now }
{
    rules.iter().copied().find(|rule| rule.groups(level))
}

/// Returns the value by which rows are grouped at a level, without padding: that of the level's
/// unique key, or for images the SOP Instance UID.
fn key_of<A: Allocator>(row: &Row<A>, level: Level) -> &[u8]
    ensures { result.now ≡ key_for level row.now }
{
    unpadded(match grouping_key(key_table(), level) {
        Some(rule) => row.key(rule.tag),
        None => row.instance(),
    })
}

/// Appends an empty group if the key is new. Fails if memory runs out.
fn open_group<'r, A: Allocator + Copy>(
    alloc: A,
    groups: &mut Vec<Vec<&'r Row<A>, A>, A>,
    is_new: bool,
) -> Result<(), AllocError>
    ensures { OnOk result (row_groups groups.new.items ≡ (if is_new then row_groups groups.old.items ++ [] ∷ [] else row_groups groups.old.items)) }
{
    if is_new {
        groups.push(Vec::new(alloc))?;
    }
    Ok(())
}

#[tactic(auto, using(crate::proofs::GroupsKeepSeenOrder::row_put))]
fn put_row<'r, A: Allocator>(
    groups: &mut Vec<Vec<&'r Row<A>, A>, A>,
    number: usize,
    row: &'r Row<A>,
) -> Result<(), AllocError>
    requires { number < length (row_groups groups.old.items) }
    ensures { OnOk result (row_groups groups.new.items
        ≡ set (row_groups groups.old.items) number (get_or (row_groups groups.old.items) number [] ++ row.now ∷ [])) }
{
    groups[number].push(row)?;
    Ok(())
}

/// Appends a row to the group of its key, which is created for a new key. Fails if memory runs out.
fn put_by_key<'r, A: Allocator + Copy>(
    alloc: A,
    seen: &mut SeenKeys<A>,
    groups: &mut Vec<Vec<&'r Row<A>, A>, A>,
    key: &[u8],
    row: &'r Row<A>,
) -> Result<(), AllocError>
    requires { length (row_groups groups.old.items) ≡ length (texts seen.old.keys) }
    ensures { OnOk result (Puts key.now row.now (texts seen.old.keys) (texts seen.new.keys) (row_groups groups.old.items) (row_groups groups.new.items)) }
{
    let (number, is_new) = see(alloc, seen, key)?;
    open_group(alloc, groups, is_new)?;
    put_row(groups, number, row)
}

/// Groups the rows by their key at this level. Groups are in the order in which their keys are
/// first seen, and rows stay in order. Fails if memory runs out.
pub(crate) fn groups<'r, A: Allocator + Copy>(
    alloc: A,
    rows: &[&'r Row<A>],
    level: Level,
) -> Result<Vec<Vec<&'r Row<A>, A>, A>, AllocError>
    ensures { IfOk result (λ groups. row_groups groups.items ≡ groups_of (key_for level) (rows_at rows.now)) }
{
    let mut seen = IndexSet::new(alloc);
    let mut groups = Vec::new(alloc);
    for row in rows {
        put_by_key(alloc, &mut seen, &mut groups, key_of(row, level), row)?;
    }
    Ok(groups)
}
