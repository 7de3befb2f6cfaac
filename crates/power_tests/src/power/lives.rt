//! Stores over the disk, and the next start over the disk that remains.

use crate::power::disk::{Disk, Shared};
use crate::power::filed::{Due, Filed, Kept};
use crate::power::mounted::Mounted;
use crate::power::powered_wire::PoweredWire;
use crate::power::stores::Life;
use crate::power::survivors::Tries;
use fixtures::bytes::after_first;
use fixtures::folders::is_filed;
use fixtures::{Step, drive};
use folder_filing::{FolderFiling, FolderWriter};
use std::alloc::Global;
use std::io;

/// The file of the next start.
pub(crate) const NEXT: &[u8] = b"next";

/// Opens the disk's folder.
pub(crate) fn open_writer(
    alloc: Global,
    disk: &Shared,
    kept: Kept,
) -> io::Result<FolderWriter<Mounted>> {
    let disk = disk.clone()?;
    let mounted = Mounted { alloc, disk };
    match kept {
        Kept::Flat => FolderWriter::open(mounted, "disk"),
        Kept::Levels => FolderWriter::open_levels(mounted, "disk", 2),
    }
}

/// Opens the disk's folder for one filing.
pub(crate) fn open(alloc: Global, disk: &Shared, kept: Kept) -> io::Result<FolderFiling<Mounted>> {
    let mut writer = open_writer(alloc, disk, kept)?;
    writer.filing()
}

/// Feeds the stores of an association, which the peer then closes. Returns the replies.
pub(crate) fn replies_of(
    alloc: Global,
    disk: &Shared,
    filing: FolderFiling<Mounted>,
    life: &Life,
) -> io::Result<Vec<u8>> {
    let mut filing = filing;
    let mut wire = PoweredWire::new(alloc, disk.clone()?);
    let steps = [
        Step::Piece(life.request.as_slice()),
        Step::Piece(life.messages.as_slice()),
        Step::Closed,
    ];
    let _shown = drive::<_, _, 64>(&mut wire, &mut filing, &steps);
    Ok(Vec::from_slice(alloc, after_first(wire.sent()))?)
}

/// Adds the expected files of a life of which this many stores got their reply.
pub(crate) fn add_due<'a>(
    due: &mut Vec<Due<'a>>,
    life: &'a Life,
    answered: usize,
) -> io::Result<()> {
    for (at, store) in life.stores.iter().enumerate() {
        if !store.file.is_empty() {
            due.push(Due {
                file: store.file.as_slice(),
                must: at < answered,
                may: true,
            })?;
        }
    }
    Ok(())
}

/// Files one more file over the disk that remains. Returns whether the file exists under the next
/// number, there is no draft, and the expected files still exist.
fn continues(alloc: Global, remaining: Disk, kept: Kept, due: &[Due]) -> io::Result<bool> {
    let before = Filed::of(alloc, &remaining, kept)?;
    if !before.is_due(&remaining, due)? {
        return Ok(false);
    }
    let disk = remaining.shared()?;
    let mut filing = open(alloc, &disk, kept)?;
    let is_done = !disk.try_borrow()?.has_draft()? && is_filed(&mut filing, NEXT);
    let disk = disk.try_borrow()?;
    let now = Filed::of(alloc, &disk, kept)?;
    Ok(
        is_done
            && now.is_due(&disk, due)?
            && before.is_next(kept, &disk, &now, NEXT)?
            && !disk.has_draft()?,
    )
}

/// Loses power. Returns how many of the states that may remain were tried, or `None` if `continues`
/// fails for one.
pub(crate) fn tried_states(
    alloc: Global,
    disk: &Disk,
    kept: Kept,
    due: &[Due],
) -> io::Result<Option<u64>> {
    let mut tries = Tries::new(disk.pending());
    for tried in 0..2000u64 {
        let Some(choices) = tries.next_choices() else {
            return Ok(Some(tried));
        };
        if !continues(alloc, disk.survivor(choices)?, kept, due)? {
            return Ok(None);
        }
    }
    Ok(None)
}
