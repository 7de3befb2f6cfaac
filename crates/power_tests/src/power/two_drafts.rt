//! Two filings over the disk with drafts at the same time, while a call fails. That files survive
//! beside other filings is a law of `folder_filing`.
ghost use Rattle.std.specs.Prelude.{◌≡◌, true};

use crate::power::disk::Shared;
use crate::power::filed::Kept;
use crate::power::lives::open_writer;
use crate::power::mounted::Mounted;
use crate::power::several::{Form, Row, TEXTS, failed_in_turn};
use folder_filing::FolderFiling;
use part10::Filing;
use std::alloc::Global;
use std::io;
use std::test::Fail;

/// Begins a draft and appends these bytes in two calls. Returns whether all calls succeeded.
fn begins<F: Filing>(filing: &mut F, bytes: &[u8]) -> bool
    ensures drafting { result ≡ true → (F.store filing.new).has_draft ≡ true }
{
    if filing.begin().is_err() {
        return false;
    }
    if filing.append(&bytes[..bytes.len() / 2]).is_err() {
        return false;
    }
    filing.append(&bytes[bytes.len() / 2..]).is_ok()
}

/// Commits the draft if it was started. Returns whether that succeeded.
fn commits<F: Filing>(filing: &mut F, is_started: bool) -> bool
    requires drafting { is_started ≡ true → (F.store filing.old).has_draft ≡ true }
{
    is_started && filing.commit().is_ok()
}

/// Files the texts but for the last, the first two at the same time; the first is committed before
/// or after the second. Returns which were committed.
fn committed_in_turn(
    first: &mut FolderFiling<Mounted>,
    second: &mut FolderFiling<Mounted>,
    is_first_before: bool,
) -> [bool; 4] {
    let [one, two, three, _] = TEXTS;
    let has_one = begins(first, one);
    let has_two = begins(second, two);
    if is_first_before {
        let is_one = commits(first, has_one);
        let has_three = begins(first, three);
        let is_two = commits(second, has_two);
        return [is_one, is_two, commits(first, has_three), false];
    }
    let is_two = commits(second, has_two);
    let is_one = commits(first, has_one);
    let has_three = begins(first, three);
    [is_one, is_two, commits(first, has_three), false]
}

/// Files the texts over this disk, and begins and discards another draft. Returns which were
/// committed, or `None` if the folder could not be opened.
pub(crate) fn committed_over(
    alloc: Global,
    disk: &Shared,
    kept: Kept,
    is_first_before: bool,
) -> io::Result<Option<[bool; 4]>> {
    let Ok(writer) = open_writer(alloc, disk, kept) else {
        return Ok(None);
    };
    let mut writer = writer;
    let (mut first, mut second) = (writer.filing()?, writer.filing()?);
    let committed = committed_in_turn(&mut first, &mut second, is_first_before);
    let _ = begins(&mut second, b"discarded");
    second.discard();
    Ok(Some(committed))
}

/// Returns the test case of two drafts.
fn drafts(kept: Kept, is_first_before: bool, has_links: bool) -> Row {
    Row {
        form: Form::Drafts(is_first_before),
        kept,
        has_links,
    }
}

#[test]
fn each_call_beside_another_draft_fails_in_turn(rt: HostRuntime) -> Result<(), Fail> {
    for kept in [Kept::Flat, Kept::Levels] {
        for has_links in [true, false] {
            assert!(rt; failed_in_turn(rt.alloc(), drafts(kept, true, has_links))? > Some(20));
            assert!(rt; failed_in_turn(rt.alloc(), drafts(kept, false, has_links))? > Some(20));
        }
    }
    Ok(())
}
