//! Folders that fail: for their names, their disk, or memory for their names.

use crate::filings::FailingFiling;
use crate::runtimes::Diverted;
use crate::two_stores::{Due, TwoStores};
use fixtures::folders::{are_in, count, fresh, holds, is_filed, put};
use fixtures::refusing::Refusing;
use fixtures::{Step, drive};
use folder_filing::{FolderFiling, FolderWriter};
use part10::Filing;
use pdu::MemoryWire;
use std::alloc::Global;
use std::cell::Cell;
use std::io::ErrorKind;
use std::test::Fail;
use std::{fs, io};

/// The index of the second append of the first store among the calls, counted from 0.
const SECOND_APPEND: usize = 2;

/// Files in this filing. Returns whether that succeeded, and how many files were committed and
/// dropped.
fn filed_over_memory(filing: FolderFiling<(HostRuntime, &Refusing<Global>)>) -> (bool, u32, u32) {
    let mut filing = filing;
    let is_filed = is_filed(&mut filing, b"file");
    (is_filed, filing.committed(), filing.dropped())
}

/// Files in a folder with this memory, and returns the same as `filed_over_memory`. A folder that
/// runs out of memory when it is opened counts as a dropped file.
fn filed_in(
    rt: &HostRuntime,
    dir: &str,
    memory: &Refusing<Global>,
) -> io::Result<(bool, u32, u32)> {
    match FolderFiling::open_levels((*rt, memory), dir, 1) {
        Ok(filing) => Ok(filed_over_memory(filing)),
        Err(error) if error.kind() == ErrorKind::OutOfMemory => Ok((false, 0, 1)),
        Err(error) => Err(error),
    }
}

/// Each allocation is refused in turn: then the store fails and leaves no file.
#[test]
fn each_allocation_of_a_folder_is_refused(rt: HostRuntime) -> Result<(), Fail> {
    let dir = "each_allocation_of_a_folder";
    for passed in 0..100u64 {
        fresh(&rt, dir)?;
        let memory = Refusing::new(rt.alloc(), passed);
        let filed = filed_in(&rt, dir, &memory)?;
        let is_filed = !memory.has_refused();
        assert!(rt; filed == (is_filed, u32::from(is_filed), u32::from(!is_filed)));
        assert!(rt; holds(&rt, dir, "S0000001/I0000001", b"file")? == is_filed);
        if is_filed {
            assert!(rt; 2 < passed);
            fs::remove_dir_all(&rt, dir)?;
            return Ok(());
        }
    }
    assert!(rt; false);
    Ok(())
}

/// Returns a runtime that opens a device that can't be synced in place of files with this name.
fn on_null<'a>(rt: &'a HostRuntime, name: &'a str, times: &'a Cell<u32>) -> Diverted<'a> {
    Diverted {
        rt,
        name,
        device: "/dev/null",
        times,
    }
}

/// Files in this filing. Returns whether that succeeded, and how many files were committed and
/// dropped.
fn filed_over(filing: FolderFiling<Diverted>) -> (bool, u32, u32) {
    let mut filing = filing;
    let is_filed = is_filed(&mut filing, b"file");
    (is_filed, filing.committed(), filing.dropped())
}

/// Returns whether nothing is filed if the file or folder with this name can't be synced.
fn is_refused(rt: &HostRuntime, dir: &str, name: &str) -> io::Result<bool> {
    fresh(rt, dir)?;
    let times = Cell::new(u32::MAX);
    let filing = FolderFiling::open_levels(on_null(rt, name, &times), dir, 1)?;
    Ok(
        filed_over(filing) == (false, 0, 1)
            && fs::metadata(rt, "what_can_not_be_synced/S0000001/I0000001").is_err()
            && fs::metadata(rt, "what_can_not_be_synced/DRAFT").is_err(),
    )
}

/// Returns whether a file is filed without syncing although the folder can't be synced.
fn is_filed_unsynced(rt: &HostRuntime, dir: &str) -> io::Result<bool> {
    fresh(rt, dir)?;
    let times = Cell::new(u32::MAX);
    let unsynced = on_null(rt, "S0000001", &times);
    let filing = FolderFiling::open_levels(unsynced, dir, 1)?.without_sync();
    let (is_filed, _, _) = filed_over(filing);
    Ok(is_filed && holds(rt, dir, "S0000001/I0000001", b"file")?)
}

/// A commit fails if the draft, or after it the folder, can't be synced; without syncing the commit
/// succeeds.
#[test]
fn what_can_not_be_synced_is_not_committed(rt: HostRuntime) -> Result<(), Fail> {
    let dir = "what_can_not_be_synced";
    for name in ["DRAFT", "S0000001"] {
        assert!(rt; is_refused(&rt, dir, name)?);
        assert!(rt; is_filed_unsynced(&rt, dir)?);
    }
    fs::remove_dir_all(&rt, dir)?;
    Ok(())
}

/// Returns whether these are the expected replies, and the folder has exactly the expected files.
fn are_due(rt: &HostRuntime, dir: &str, sent: &[u8], due: &Due) -> io::Result<bool> {
    Ok(sent == due.answer.as_slice() && are_in(rt, dir, due.files.as_slice())?)
}

/// Feeds two stores in these steps to an association over this filing. Returns the wire, and
/// whether one store was filed and one dropped.
fn over_full_disk(
    alloc: Global,
    filing: FolderFiling<Diverted>,
    steps: &[Step],
) -> (MemoryWire<Global>, bool) {
    let mut filing = filing;
    let mut wire = MemoryWire::new(alloc);
    let _shown = drive::<_, _, 64>(&mut wire, &mut filing, steps);
    (wire, filing.committed() == 1 && filing.dropped() == 1)
}

/// Returns whether only the second of two stores in these steps is filed and gets status success,
/// over a folder whose disk is full for the first store.
fn is_full_once(rt: &HostRuntime, due: &Due, dir: &str, steps: &[Step]) -> io::Result<bool> {
    fresh(rt, dir)?;
    let times = Cell::new(1);
    let full = Diverted {
        rt,
        name: "DRAFT",
        device: "/dev/full",
        times: &times,
    };
    let filing = FolderFiling::open(full, dir)?;
    let (wire, is_so) = over_full_disk(rt.alloc(), filing, steps);
    Ok(is_so && are_due(rt, dir, wire.sent(), due)?)
}

/// Returns whether `is_full_once` holds in one chunk, byte by byte and at each cut in two.
fn is_full_at_each_cut(rt: &HostRuntime, stores: &TwoStores, dir: &str) -> io::Result<bool> {
    for cut in 0..stores.messages.len() + 2 {
        if !is_full_once(rt, stores.due(1), dir, &stores.cut(cut))? {
            return Ok(false);
        }
    }
    Ok(true)
}

#[test]
fn a_disk_that_is_full_for_one_store(rt: HostRuntime) -> Result<(), Fail> {
    let dir = "a_disk_that_is_full";
    let stores = TwoStores::new(rt.alloc())?;
    assert!(rt; is_full_at_each_cut(&rt, &stores, dir)?);
    fs::remove_dir_all(&rt, dir)?;
    Ok(())
}

/// Feeds two stores to an association over a folder of which this call fails. Returns the wire, and
/// the draft of the failed call, counted from 1, or 0 if no call failed.
fn over_failing_folder(
    alloc: Global,
    folder: FolderFiling<HostRuntime>,
    at: usize,
    steps: &[Step],
) -> (MemoryWire<Global>, usize) {
    let mut filing = FailingFiling::new(folder, at);
    let mut wire = MemoryWire::new(alloc);
    let _shown = drive::<_, _, 64>(&mut wire, &mut filing, steps);
    (wire, filing.failed_draft())
}

/// Returns whether, of two stores over a folder, cut here, call `at` fails in this draft; the store
/// of that draft gets status A700 and leaves neither a file nor a draft, and the other store is
/// filed.
fn fails_in(
    rt: &HostRuntime,
    stores: &TwoStores,
    dir: &str,
    (at, cut): (usize, usize),
    draft: usize,
) -> io::Result<bool> {
    fresh(rt, dir)?;
    let folder = FolderFiling::open(*rt, dir)?.without_sync();
    let (wire, failed) = over_failing_folder(rt.alloc(), folder, at, &stores.cut(cut));
    Ok(failed == draft && are_due(rt, dir, wire.sent(), stores.due(failed))?)
}

/// Returns whether the second append, of the first part of a data set, fails as in `fails_in` in
/// one chunk, byte by byte and at each cut in two.
fn second_append_fails(rt: &HostRuntime, stores: &TwoStores, dir: &str) -> io::Result<bool> {
    for cut in 0..stores.messages.len() + 2 {
        if !fails_in(rt, stores, dir, (SECOND_APPEND, cut), 1)? {
            return Ok(false);
        }
    }
    Ok(true)
}

/// Returns whether each call to a folder in turn fails as in `fails_in`, with both stores cut here
/// and this number of calls per store.
fn each_call_fails(
    rt: &HostRuntime,
    stores: &TwoStores,
    dir: &str,
    cut: usize,
    calls: usize,
) -> io::Result<bool> {
    let both = calls.saturating_mul(2);
    for at in 0..both.saturating_add(1) {
        let due = usize::from(at < both) + usize::from(calls <= at && at < both);
        if !fails_in(rt, stores, dir, (at, cut), due)? {
            return Ok(false);
        }
    }
    Ok(true)
}

/// In one chunk, and cut at the start of the second store, each store has four calls; byte by byte
/// it has 51.
#[test]
fn each_call_to_a_folder_fails_in_turn(rt: HostRuntime) -> Result<(), Fail> {
    let dir = "each_call_to_a_folder";
    let stores = TwoStores::new(rt.alloc())?;
    assert!(rt; second_append_fails(&rt, &stores, dir)?);
    for (cut, calls) in [(0, 4), (stores.size(), 4), (usize::MAX, 51)] {
        assert!(rt; each_call_fails(&rt, &stores, dir, cut, calls)?);
    }
    fs::remove_dir_all(&rt, dir)?;
    Ok(())
}

/// Returns whether, of two drafts at the same time, only that of the filing with the full disk is
/// lost, and the other is filed whole.
fn is_other_filed(full: &mut FolderFiling<Diverted>, other: &mut FolderFiling<Diverted>) -> bool {
    if full.begin().is_err() || other.begin().is_err() {
        return false;
    }
    if other.append(b"oth").is_err() || full.append(b"full").is_ok() {
        return false;
    }
    if other.append(b"er").is_err() || other.commit().is_err() {
        return false;
    }
    (full.committed(), full.dropped()) == (0, 1) && (other.committed(), other.dropped()) == (1, 0)
}

/// Returns whether `is_other_filed` holds if the disk is full for this draft, that of the first or
/// of the second filing.
fn is_full_for_one(rt: &HostRuntime, dir: &str, name: &str) -> io::Result<bool> {
    fresh(rt, dir)?;
    let times = Cell::new(1);
    let full = Diverted {
        rt,
        name,
        device: "/dev/full",
        times: &times,
    };
    let mut writer = FolderWriter::open(full, dir)?;
    let (mut first, mut second) = (writer.filing()?, writer.filing()?);
    let is_so = if name == "DRAFT" {
        is_other_filed(&mut first, &mut second)
    } else {
        is_other_filed(&mut second, &mut first)
    };
    Ok(is_so && holds(rt, dir, "I0000001", b"other")? && count(rt, dir)? == 1)
}

#[test]
fn a_disk_that_is_full_for_one_of_two_drafts(rt: HostRuntime) -> Result<(), Fail> {
    let dir = "a_disk_that_is_full_for_one";
    assert!(rt; is_full_for_one(&rt, dir, "DRAFT")? && is_full_for_one(&rt, dir, "DRAFT2")?);
    fs::remove_dir_all(&rt, dir)?;
    Ok(())
}

/// Files in two filings of this folder at the same time. Returns which of them succeeded; neither,
/// if memory runs out for the folder or a filing.
fn filed_in_two(
    rt: &HostRuntime,
    dir: &str,
    memory: &Refusing<Global>,
) -> io::Result<(bool, bool)> {
    let (mut first, mut second) = match two_filings(rt, dir, memory) {
        Ok(filings) => filings,
        Err(error) if error.kind() == ErrorKind::OutOfMemory => return Ok((false, false)),
        Err(error) => return Err(error),
    };
    if first.begin().is_err() || first.append(b"first").is_err() {
        return Ok((false, is_filed(&mut second, b"second")));
    }
    let has_second = is_filed(&mut second, b"second");
    Ok((first.commit().is_ok(), has_second))
}

/// A filing with memory that may be refused.
type WithMemory<'a> = FolderFiling<(HostRuntime, &'a Refusing<Global>)>;

fn two_filings<'a>(
    rt: &HostRuntime,
    dir: &str,
    memory: &'a Refusing<Global>,
) -> io::Result<(WithMemory<'a>, WithMemory<'a>)> {
    let mut writer = FolderWriter::open((*rt, memory), dir)?;
    Ok((writer.filing()?, writer.filing()?))
}

/// Each allocation is refused in turn: the filing whose call fails leaves no file, and the other's
/// file is whole.
#[test]
fn each_allocation_of_two_filings_is_refused(rt: HostRuntime) -> Result<(), Fail> {
    let dir = "each_allocation_of_two_filings";
    for passed in 0..100u64 {
        fresh(&rt, dir)?;
        put(&rt, dir, "DRAFT2", b"left")?;
        let memory = Refusing::new(rt.alloc(), passed);
        let (has_first, has_second) = filed_in_two(&rt, dir, &memory)?;
        let first = if has_second { "I0000002" } else { "I0000001" };
        assert!(rt; holds(&rt, dir, first, b"first")? == has_first);
        assert!(rt; holds(&rt, dir, "I0000001", b"second")? == has_second);
        if !memory.has_refused() {
            assert!(rt; has_first && has_second && 5 < passed && count(&rt, dir)? == 2);
            fs::remove_dir_all(&rt, dir)?;
            return Ok(());
        }
    }
    assert!(rt; false);
    Ok(())
}
