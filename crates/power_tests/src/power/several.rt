//! Texts of several filings that are filed over the disk, while power is lost or a call fails.

use crate::power::disk::{Disk, Shared};
use crate::power::filed::{Due, Filed, Kept};
use crate::power::groups::settled_over;
use crate::power::lives::{NEXT, tried_states};
use crate::power::trouble::{Act, Trouble};
use crate::power::two_drafts::committed_over;
use std::alloc::Global;
use std::io;
use std::io::ErrorKind;

/// The texts.
pub(crate) const TEXTS: [&[u8]; 4] = [b"first", b"second", b"third", b"fourth"];

/// How the texts are filed.
#[derive(Clone, Copy)]
pub(crate) enum Form {
    /// So many as a group, and then the last one.
    Group(usize),
    /// The first three by two filings with drafts at the same time; the first text is committed
    /// before the second one or after it.
    Drafts(bool),
}

/// A test case: how the texts are filed, how files are arranged, and whether the disk has links.
#[derive(Clone, Copy)]
pub(crate) struct Row {
    pub(crate) form: Form,
    pub(crate) kept: Kept,
    pub(crate) has_links: bool,
}

impl Form {
    /// Files the texts over this disk. Returns which were filed, or `None` if the folder could not
    /// be opened.
    fn filed(self, alloc: Global, disk: &Shared, kept: Kept) -> io::Result<Option<[bool; 4]>> {
        match self {
            Form::Group(count) => settled_over(alloc, disk, kept, count),
            Form::Drafts(is_first_before) => committed_over(alloc, disk, kept, is_first_before),
        }
    }

    /// Returns which texts are filed if nothing fails.
    fn all(self) -> [bool; 4] {
        match self {
            Form::Group(count) => [true, true, count > 2, true],
            Form::Drafts(_) => [true, true, true, false],
        }
    }

    /// Returns how many texts are lost at most if a call of this kind fails: none if it is the
    /// removal of a draft, a group if it opens or syncs, else one.
    fn most_lost(self, act: Act) -> usize {
        match (self, act) {
            (_, Act::Remove) => 0,
            (Form::Group(count), Act::Sync | Act::Open) => count,
            _ => 1,
        }
    }
}

/// Returns the expected files of the texts: each that was filed must exist; the others may exist
/// only if `may`.
pub(crate) fn due_of(alloc: Global, filed: [bool; 4], may: bool) -> io::Result<Vec<Due<'static>>> {
    let mut due = Vec::new(alloc);
    for (file, must) in TEXTS.iter().zip(&filed) {
        due.push(Due {
            file,
            must: *must,
            may: may || *must,
        })?;
    }
    Ok(due)
}

/// Loses power at a call. Returns how many states were tried and whether power lasted to the end,
/// or `None` if a filed text is missing, a file exists twice or is not whole, or a draft remains at
/// the next start.
fn states_at(alloc: Global, row: Row, at: usize) -> io::Result<Option<(u64, bool)>> {
    let trouble = Trouble {
        power_ends: Some(at),
        has_links: row.has_links,
        ..Trouble::NONE
    };
    let disk = Disk::new(alloc, trouble)?.shared()?;
    let filed = row.form.filed(alloc, &disk, row.kept)?;
    let filed = filed.unwrap_or([false; 4]);
    let disk = disk.try_borrow()?;
    if disk.has_power() && filed != row.form.all() {
        return Ok(None);
    }
    let mut due = due_of(alloc, filed, true)?;
    due.push(Due {
        file: NEXT,
        must: false,
        may: true,
    })?;
    match tried_states(alloc, &disk, row.kept, due.as_slice())? {
        Some(tried) => Ok(Some((tried, disk.has_power()))),
        None => Ok(None),
    }
}

/// Loses power at each call in turn. Returns how many states were tried, or `None` if anything is
/// not as expected.
pub(crate) fn states(alloc: Global, row: Row) -> io::Result<Option<u64>> {
    let mut states = 0u64;
    for at in 0..200usize {
        match states_at(alloc, row, at)? {
            Some((tried, false)) => states = states.saturating_add(tried),
            Some((_, true)) => return Ok(Some(states)),
            None => return Ok(None),
        }
    }
    Ok(None)
}

/// Returns whether a failed call loses no more texts than allowed.
fn is_loss(disk: &Disk, form: Form, filed: [bool; 4]) -> bool {
    let mut lost = 0usize;
    for (is_filed, is_due) in filed.iter().zip(&form.all()) {
        if *is_due && !*is_filed {
            lost = lost.saturating_add(1);
        }
    }
    match disk.failed() {
        Some(call) => lost <= form.most_lost(call.act),
        None => lost == 0,
    }
}

/// Fails a call. Returns whether it was reached, or `None` if a text that was not filed exists, a
/// filed one does not, more are lost than allowed, or a draft remains.
fn fails(alloc: Global, row: Row, at: usize) -> io::Result<Option<bool>> {
    let trouble = Trouble {
        failure: Some((at, ErrorKind::StorageFull)),
        has_links: row.has_links,
        ..Trouble::NONE
    };
    let disk = Disk::new(alloc, trouble)?.shared()?;
    let filed = row.form.filed(alloc, &disk, row.kept)?;
    let disk = disk.try_borrow()?;
    let is_failed = disk.failed().is_some();
    let is_as_due = match filed {
        Some(filed) => is_loss(&disk, row.form, filed),
        None => is_failed,
    };
    let due = due_of(alloc, filed.unwrap_or([false; 4]), false)?;
    let found = Filed::of(alloc, &disk, row.kept)?;
    let may_be_remaining = matches!(disk.failed(), Some(call) if call.act.may_leave_draft());
    let is_clean = may_be_remaining || !disk.has_draft()?;
    if !is_as_due || !is_clean || !found.is_due(&disk, due.as_slice())? {
        return Ok(None);
    }
    Ok(Some(is_failed))
}

/// Fails each call in turn. Returns the index at which no call failed any more, or `None` if
/// anything is not as expected.
pub(crate) fn failed_in_turn(alloc: Global, row: Row) -> io::Result<Option<usize>> {
    for at in 0..200usize {
        match fails(alloc, row, at)? {
            Some(true) => {}
            Some(false) => return Ok(Some(at)),
            None => return Ok(None),
        }
    }
    Ok(None)
}
