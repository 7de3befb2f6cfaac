//! Files of several filings that are settled as a group, while power is lost or a call fails.

use crate::power::disk::{Disk, Shared};
use crate::power::filed::{Filed, Kept};
use crate::power::lives::open_writer;
use crate::power::mounted::Mounted;
use crate::power::several::{Form, Row, TEXTS, due_of, failed_in_turn, states};
use crate::power::trouble::Trouble;
use fixtures::folders::is_filed;
use folder_filing::{FolderFiling, FolderWriter, NamesSynced};
use part10::{Filing, Settling};
use std::alloc::Global;
use std::io;
use std::test::Fail;

/// The filings of a writer: three whose files are settled as a group, one whose file is settled
/// after them, and one whose draft stays open meanwhile.
#[derive(Drop)]
struct Filings {
    writer: FolderWriter<Mounted>,
    first: FolderFiling<Mounted>,
    second: FolderFiling<Mounted>,
    third: FolderFiling<Mounted>,
    last: FolderFiling<Mounted>,
    other: FolderFiling<Mounted>,
}

/// Settles the last commit of a filing, if `is_handed`, with these synced names. Returns whether it
/// is settled.
fn settles(
    filing: &mut FolderFiling<Mounted>,
    is_handed: bool,
    synced: &NamesSynced<Global>,
) -> bool {
    is_handed && filing.settle(synced).is_ok() && !filing.has_pending()
}

impl Filings {
    fn open(alloc: Global, disk: &Shared, kept: Kept) -> io::Result<Filings> {
        let mut writer = open_writer(alloc, disk, kept)?.in_groups();
        let (other, last) = (writer.filing()?, writer.filing()?);
        let (first, second, third) = (writer.filing()?, writer.filing()?, writer.filing()?);
        Ok(Filings {
            writer,
            first,
            second,
            third,
            last,
            other,
        })
    }

    /// Writes out the files of the group and settles them. Returns which of those handed over are
    /// settled.
    fn settle_group(&mut self, handed: [bool; 3]) -> [bool; 3] {
        self.first.start_writing();
        self.first.write_out();
        self.second.write_out();
        self.third.write_out();
        let synced = self.writer.sync_names();
        [
            settles(&mut self.first, handed[0], &synced),
            settles(&mut self.second, handed[1], &synced),
            settles(&mut self.third, handed[2], &synced),
        ]
    }

    /// Files and settles one more text. Returns whether it is settled.
    fn settle_last(&mut self, text: &[u8]) -> bool {
        let is_handed = is_filed(&mut self.last, text);
        self.last.write_out();
        let synced = self.writer.sync_names();
        settles(&mut self.last, is_handed, &synced)
    }

    /// Files `count` texts as a group and then the last text, beside another draft. Returns which
    /// are settled.
    fn file(&mut self, count: usize) -> [bool; 4] {
        let [one, two, three, four] = TEXTS;
        if self.other.begin().is_ok() {
            let _ = self.other.append(b"other");
        }
        let handed = [
            is_filed(&mut self.first, one),
            is_filed(&mut self.second, two),
            count > 2 && is_filed(&mut self.third, three),
        ];
        let settled = self.settle_group(handed);
        let is_last = self.settle_last(four);
        self.other.discard();
        [settled[0], settled[1], settled[2], is_last]
    }
}

/// Files the texts over this disk, `count` as a group. Returns which were settled, or `None` if the
/// folder could not be opened.
pub(crate) fn settled_over(
    alloc: Global,
    disk: &Shared,
    kept: Kept,
    count: usize,
) -> io::Result<Option<[bool; 4]>> {
    let Ok(filings) = Filings::open(alloc, disk, kept) else {
        return Ok(None);
    };
    let mut filings = filings;
    Ok(Some(filings.file(count)))
}

/// Returns the test case of a group.
fn group(kept: Kept, count: usize, has_links: bool) -> Row {
    Row {
        form: Form::Group(count),
        kept,
        has_links,
    }
}

#[test]
fn a_group_of_two_in_one_folder(rt: HostRuntime) -> Result<(), Fail> {
    assert!(rt; states(rt.alloc(), group(Kept::Flat, 2, true))? > Some(1000));
    Ok(())
}

#[test]
fn a_group_of_three_in_two_levels(rt: HostRuntime) -> Result<(), Fail> {
    assert!(rt; states(rt.alloc(), group(Kept::Levels, 3, true))? > Some(1000));
    Ok(())
}

#[test]
fn each_call_of_a_group_fails_in_turn(rt: HostRuntime) -> Result<(), Fail> {
    for kept in [Kept::Flat, Kept::Levels] {
        for has_links in [true, false] {
            assert!(rt; failed_in_turn(rt.alloc(), group(kept, 2, has_links))? > Some(30));
            assert!(rt; failed_in_turn(rt.alloc(), group(kept, 3, has_links))? > Some(30));
        }
    }
    Ok(())
}

/// Returns whether a commit over this writer waits to be settled.
fn commit_waits(writer: FolderWriter<Mounted>) -> io::Result<Option<bool>> {
    let mut writer = writer;
    let mut filing = writer.filing()?;
    if !is_filed(&mut filing, b"first") {
        return Ok(None);
    }
    Ok(Some(filing.has_pending()))
}

#[test]
fn without_groups_or_without_syncs_nothing_waits(rt: HostRuntime) -> Result<(), Fail> {
    let alloc = rt.alloc();
    for (in_groups, has_sync) in [(false, true), (true, true), (true, false), (false, false)] {
        let disk = Disk::new(alloc, Trouble::NONE)?.shared()?;
        let mut writer = open_writer(alloc, &disk, Kept::Flat)?;
        if in_groups {
            writer = writer.in_groups();
        }
        if !has_sync {
            writer = writer.without_sync();
        }
        assert!(rt; commit_waits(writer)? == Some(in_groups && has_sync));
    }
    Ok(())
}

#[test]
fn while_a_file_waits_no_draft_is_started(rt: HostRuntime) -> Result<(), Fail> {
    let alloc = rt.alloc();
    let disk = Disk::new(alloc, Trouble::NONE)?.shared()?;
    let mut writer = open_writer(alloc, &disk, Kept::Flat)?.in_groups();
    let mut filing = writer.filing()?;
    assert!(rt; is_filed(&mut filing, TEXTS[0]));
    assert!(rt; filing.begin().is_err());
    filing.discard();
    assert!(rt; filing.settle(&writer.sync_names()).is_err());
    filing.write_out();
    assert!(rt; filing.begin().is_err());
    assert!(rt; filing.committed() == 0);
    assert!(rt; filing.settle(&writer.sync_names()).is_ok());
    assert!(rt; filing.committed() == 1 && filing.dropped() == 0);
    assert!(rt; filing.begin().is_ok());
    filing.discard();
    let disk = disk.try_borrow()?;
    let due = due_of(alloc, [true, false, false, false], false)?;
    assert!(rt; Filed::of(alloc, &disk, Kept::Flat)?.is_due(&disk, due.as_slice())?);
    Ok(())
}

#[test]
fn a_file_that_was_named_after_a_sync_is_not_settled_by_it(rt: HostRuntime) -> Result<(), Fail> {
    let alloc = rt.alloc();
    for kept in [Kept::Flat, Kept::Levels] {
        let disk = Disk::new(alloc, Trouble::NONE)?.shared()?;
        let mut writer = open_writer(alloc, &disk, kept)?.in_groups();
        let (mut first, mut second) = (writer.filing()?, writer.filing()?);
        assert!(rt; is_filed(&mut first, TEXTS[0]) && is_filed(&mut second, TEXTS[1]));
        first.write_out();
        let synced = writer.sync_names();
        second.write_out();
        assert!(rt; synced.failure().is_none());
        assert!(rt; second.settle(&synced).is_err() && first.settle(&synced).is_ok());
        let disk = disk.try_borrow()?;
        let due = due_of(alloc, [true, false, false, false], false)?;
        assert!(rt; Filed::of(alloc, &disk, kept)?.is_due(&disk, due.as_slice())?);
    }
    Ok(())
}
