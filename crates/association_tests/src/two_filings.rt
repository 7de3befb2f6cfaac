//! Two filings over one folder with interleaved calls: each draft and file is as with one filing.

use fixtures::play;
use std::test::Fail;

/// In one folder, and in subfolders of one file each, the drafts exist at the same time and get
/// their names in the order of the commits.
static AT_ONCE: &str = "fresh
writer 0
filing
filing
begin 1 fir
begin 2 seco
holds DRAFT fir
holds DRAFT2 seco
append 1 st
append 2 nd
commit 1
missing DRAFT
holds DRAFT2 second
commit 2
location 1 I0000001
holds I0000001 first
error 1
counted 1 1 0
location 2 I0000002
holds I0000002 second
error 2
counted 2 1 0
count . 2
fresh
writer 0
filing
filing
begin 1 fir
begin 2 seco
holds DRAFT fir
holds DRAFT2 seco
append 1 st
append 2 nd
commit 2
missing DRAFT2
holds DRAFT first
commit 1
location 1 I0000002
holds I0000002 first
error 1
counted 1 1 0
location 2 I0000001
holds I0000001 second
error 2
counted 2 1 0
count . 2
fresh
writer 1
filing
filing
begin 1 fir
begin 2 seco
holds DRAFT fir
holds DRAFT2 seco
append 1 st
append 2 nd
commit 1
missing DRAFT
holds DRAFT2 second
commit 2
location 1 S0000001/I0000001
holds S0000001/I0000001 first
error 1
counted 1 1 0
location 2 S0000002/I0000001
holds S0000002/I0000001 second
error 2
counted 2 1 0
count . 2
fresh
writer 1
filing
filing
begin 1 fir
begin 2 seco
holds DRAFT fir
holds DRAFT2 seco
append 1 st
append 2 nd
commit 2
missing DRAFT2
holds DRAFT first
commit 1
location 1 S0000002/I0000001
holds S0000002/I0000001 first
error 1
counted 1 1 0
location 2 S0000001/I0000001
holds S0000001/I0000001 second
error 2
counted 2 1 0
count . 2";

#[test]
fn two_drafts_at_once(rt: HostRuntime) -> Result<(), Fail> {
    play(&rt, &rt, "two_drafts_at_once", AT_ONCE)
}

/// Discarding the draft of one filing leaves the other's unchanged.
static DISCARDED: &str = "fresh
writer 0
filing
filing
begin 1 dropped
begin 2 kept
discard 1
missing DRAFT
holds DRAFT2 kept
commit 2
location 2 I0000001
holds I0000001 kept
error 2
counted 2 1 0
counted 1 0 1
count . 1
fresh
writer 0
filing
filing
begin 2 dropped
begin 1 kept
discard 2
missing DRAFT2
holds DRAFT kept
commit 1
location 1 I0000001
holds I0000001 kept
error 1
counted 1 1 0
counted 2 0 1
count . 1";

#[test]
fn one_of_two_drafts_is_discarded(rt: HostRuntime) -> Result<(), Fail> {
    play(&rt, &rt, "one_of_two_drafts_is_discarded", DISCARDED)
}

/// The draft of the first commit is gone, and another file has the next name: the second commit
/// gets the name after that.
static FAILS: &str = "fresh
writer 0
filing
filing
put I0000001 of another
begin 2 other
begin 1 failing
remove DRAFT
not commit 1
error 1 No such file or directory (os error 2)
counted 1 0 1
missing DRAFT
holds DRAFT2 other
commit 2
location 2 I0000002
holds I0000002 other
error 2
counted 2 1 0
holds I0000001 of another
count . 2";

#[test]
fn one_of_two_commits_fails(rt: HostRuntime) -> Result<(), Fail> {
    play(&rt, &rt, "one_of_two_commits_fails", FAILS)
}

/// The filing that commits first gets the last number.
static ONE_NUMBER: &str = "fresh
put I9999998 last but one
writer 0
unsynced
filing
filing
begin 1 first
begin 2 second
file 2 last
holds I9999999 last
holds DRAFT first
not file 1 too many
counted 1 0 2
counted 2 1 1
count . 2";

#[test]
fn two_drafts_and_one_number(rt: HostRuntime) -> Result<(), Fail> {
    play(&rt, &rt, "two_drafts_and_one_number", ONE_NUMBER)
}

/// When a folder left by a killed writer is opened, all names stay except `DRAFT` with or without
/// digits.
static REMAINING: &str = "fresh
put DRAFT left
put DRAFT2 left
put DRAFT17 left
put DRAFT007 left
put DRAFT99999999999 left
put DRAFTS left
put DRAFT2.txt left
put DRAFT-2 left
put DRAFT2A left
put draft2 left
put XDRAFT2 left
put DIRDRAFT left
writer 0
holds DRAFTS left
holds DRAFT2.txt left
holds DRAFT-2 left
holds DRAFT2A left
holds draft2 left
holds XDRAFT2 left
holds DIRDRAFT left
count . 7
fresh
put DRAFT left
put DRAFT2 left
put DRAFT17 left
put DRAFT007 left
put DRAFT99999999999 left
put DRAFTS left
put DRAFT2.txt left
put DRAFT-2 left
put DRAFT2A left
put draft2 left
put XDRAFT2 left
put DIRDRAFT left
writer 2
holds DRAFTS left
holds DRAFT2.txt left
holds DRAFT-2 left
holds DRAFT2A left
holds draft2 left
holds XDRAFT2 left
holds DIRDRAFT left
count . 7";

#[test]
fn remaining_drafts_are_removed(rt: HostRuntime) -> Result<(), Fail> {
    play(&rt, &rt, "left_drafts_are_removed", REMAINING)
}

/// The folder is locked as long as its writer or one of its filings exists, and each filing has its
/// own draft.
static LOCKED: &str = "fresh
writer 0
filing
filing
begin 1 first
begin 2 second
drop 1
filing
drop writer
begin 3 third
holds DRAFT3 third
holds DRAFT first
holds DRAFT2 second
drop 2
not writer 0
reports WouldBlock the folder is in use by another writer
drop 3
writer 0
count . 0";

#[test]
fn a_folder_is_locked_for_its_filings(rt: HostRuntime) -> Result<(), Fail> {
    play(&rt, &rt, "a_folder_is_locked_for_its_filings", LOCKED)
}
