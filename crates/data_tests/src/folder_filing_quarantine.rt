//! Quarantines over real folders, created by the tests in the working directory.

use fixtures::play;
use std::test::Fail;

static KEEPS: &str = "fresh; fresh ../quarantine_keeps_aside
writer 0; quarantine ../quarantine_keeps_aside 2; filing
reports 0 not full
begin 1 head; append 1  and body; discard 1
holds ../quarantine_keeps_aside/000001.part head and body
count . 0
keep 1 1 not full 9
holds ../quarantine_keeps_aside/000001.dcm head and body
holds ../quarantine_keeps_aside/000001.txt status: C000|
count ../quarantine_keeps_aside 2
begin 1 head; append 1  that goes; discard 1
holds ../quarantine_keeps_aside/000002.part head that goes
erase 1
count ../quarantine_keeps_aside 2
count . 0
file 1 filed; holds I0000001 filed
keep 1 nothing
count . 1
count ../quarantine_keeps_aside 2
counted 1 1 2
close; clear ../quarantine_keeps_aside";

/// A discarded draft is moved, and then kept under its number or removed; a committed draft stays.
#[test]
fn discarded_drafts_are_kept_or_removed(rt: HostRuntime) -> Result<(), Fail> {
    play(&rt, &rt, "quarantine_keeps", KEEPS)
}

static IS_FULL: &str = "fresh; fresh ../quarantine_is_full_aside
writer 0; quarantine ../quarantine_is_full_aside 2; filing
filing
begin 1 a; append 1 1; discard 1
begin 2 b; append 2 2; discard 2
keep 1 1 not full 1
keep 2 2 full 1
begin 1 a; append 1 3; discard 1
keep 1 nothing
stuck 1
count ../quarantine_is_full_aside 4
count . 0
remove ../quarantine_is_full_aside/000002.dcm
begin 1 a; append 1 4; discard 1
keep 1 3 full 1
holds ../quarantine_is_full_aside/000003.dcm a4
close; clear ../quarantine_is_full_aside";

/// A full quarantine keeps no more data sets until some are moved away; then the numbers continue.
#[test]
fn a_full_quarantine_keeps_no_more(rt: HostRuntime) -> Result<(), Fail> {
    play(&rt, &rt, "quarantine_is_full", IS_FULL)
}

static GOES_ON: &str = "fresh; fresh ../quarantine_continues_aside
put ../quarantine_continues_aside/000007.dcm found
put ../quarantine_continues_aside/000009.txt found
put ../quarantine_continues_aside/000008.part left
put ../quarantine_continues_aside/99.dcm other
put ../quarantine_continues_aside/0000099.dcm other
put ../quarantine_continues_aside/+00099.dcm other
writer 0; quarantine ../quarantine_continues_aside 2; filing
reports 1 not full
count ../quarantine_continues_aside 5
begin 1 a; append 1 1; discard 1
keep 1 10 full 1
close; writer 0; quarantine ../quarantine_continues_aside 2; filing
reports 0 full
close; clear ../quarantine_continues_aside";

/// Numbers continue after the greatest that exists, and undecided drafts of an earlier run are
/// removed.
#[test]
fn numbers_of_a_quarantine_continue(rt: HostRuntime) -> Result<(), Fail> {
    play(&rt, &rt, "quarantine_continues", GOES_ON)
}

static UNDECIDED: &str = "fresh; fresh ../quarantine_undecided_aside
writer 0; quarantine ../quarantine_undecided_aside 1; filing
begin 1 a; append 1 1; discard 1
begin 1; discard 1; erase 1
count ../quarantine_undecided_aside 0
begin 1 a; append 1 2; discard 1
begin 1
keep 1 2 full 1
count ../quarantine_undecided_aside 2
close; clear ../quarantine_undecided_aside";

/// A draft that is set aside replaces one about which nothing was decided.
#[test]
fn an_undecided_draft_is_removed(rt: HostRuntime) -> Result<(), Fail> {
    play(&rt, &rt, "quarantine_undecided", UNDECIDED)
}

static REPLACED: &str = "fresh; fresh ../quarantine_replaced_aside
writer 0; quarantine ../quarantine_replaced_aside 2; filing
clear ../quarantine_replaced_aside; make ../quarantine_replaced_aside
begin 1 a; append 1 1; discard 1
keep 1 nothing
stuck 1 the folder was replaced by another one
count ../quarantine_replaced_aside 0
count . 0
counted 1 0 1
close; clear ../quarantine_replaced_aside";

/// If the quarantine can't be used any more, the draft is dropped as without one, and that is
/// reported.
#[test]
fn a_quarantine_that_was_replaced(rt: HostRuntime) -> Result<(), Fail> {
    play(&rt, &rt, "quarantine_replaced", REPLACED)
}

static REFUSED: &str = "fresh; fresh ../quarantine_refused_aside
writer 0; not quarantine ../quarantine_refused 1
reports InvalidInput it is the folder that files go to
writer 0; not quarantine .././quarantine_refused/. 1
reports InvalidInput it is the folder that files go to
writer 0; not quarantine ../quarantine_missing/aside 1
reports NotFound No such file or directory (os error 2)
writer 0; quarantine ../quarantine_refused_aside 1; close
open 0 ../quarantine_refused_aside
writer 0; not quarantine ../quarantine_refused_aside 1
reports WouldBlock the folder is in use by another writer
close; clear ../quarantine_refused_aside";

/// A quarantine must be another folder than that of the files, and not in use by another program.
#[test]
fn what_is_no_quarantine(rt: HostRuntime) -> Result<(), Fail> {
    play(&rt, &rt, "quarantine_refused", REFUSED)
}
