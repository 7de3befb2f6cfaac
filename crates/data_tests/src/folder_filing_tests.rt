//! Filings over real folders, created by the tests in the working directory.

use fixtures::play;
use std::test::Fail;

/// Only names of `I` and seven digits count as numbers. A remaining draft is removed and is no part
/// of the next file.
static NUMBERS_CONTINUE: &str = "fresh
put I000009 other
put I00000099 other
put i0000009 other
put I+000009 other
put I00000x9 other
put S0000009 other
open 0
file 1 first; holds I0000001 first
file 1 second; holds I0000002 second
counted 1 2 0
count . 8
close; put I0000041 found
put DRAFT a long draft that was left
open 0; unsynced 1
missing DRAFT
file 1 third; holds I0000042 third
counted 1 1 0
count . 10";

#[test]
fn numbers_continue(rt: HostRuntime) -> Result<(), Fail> {
    play(&rt, &rt, "numbers_continue", NUMBERS_CONTINUE)
}

static A_REMAINING_SECOND_NAME: &str = "fresh
put I0000001 committed
alias I0000001 DRAFT
open 0
file 1 next; holds I0000002 next
counted 1 1 0
count . 2
close; holds I0000001 committed";

/// The bytes of a committed draft are not removed by the next draft, though a crash left both
/// names.
#[test]
fn a_remaining_second_name_is_removed(rt: HostRuntime) -> Result<(), Fail> {
    play(&rt, &rt, "a_left_second_name", A_REMAINING_SECOND_NAME)
}

static PAST_THE_LAST_NUMBER: &str = "fresh
put I9999998 last but one
open 0
file 1 last; holds I9999999 last
not file 1 too many
not file 1 too many
counted 1 1 2
count . 2
close; holds I9999999 last";

#[test]
fn past_the_last_number_each_commit_fails(rt: HostRuntime) -> Result<(), Fail> {
    play(&rt, &rt, "past_the_last_number", PAST_THE_LAST_NUMBER)
}

/// A text gets the first free name if other files have the next names, which stay unchanged.
static NO_FILE_IS_WRITTEN_OVER: &str = "fresh
open 0
put I0000001 of another
put I0000002 of another
file 1 mine; holds I0000003 mine
holds I0000001 of another
holds I0000002 of another
counted 1 1 0";

#[test]
fn no_file_is_written_over(rt: HostRuntime) -> Result<(), Fail> {
    play(&rt, &rt, "no_file_is_written_over", NO_FILE_IS_WRITTEN_OVER)
}

static A_FOLDER_HAS_ONE_WRITER: &str = "fresh
put file
open 0
not open 1; reports WouldBlock the folder is in use by another writer
close; open 0; close
not open 0 file; not open 0 none";

#[test]
fn a_folder_has_one_writer(rt: HostRuntime) -> Result<(), Fail> {
    play(&rt, &rt, "a_folder_has_one_writer", A_FOLDER_HAS_ONE_WRITER)
}

/// A discarded draft is counted, without a draft nothing is; an open draft is replaced by that of
/// the next file.
static DRAFTS_THAT_ARE_DROPPED: &str = "fresh
open 0
discard 1
counted 1 0 0
begin 1; holds DRAFT; append 1 discarded
discard 1
counted 1 0 1
count . 0
begin 1; holds DRAFT; append 1 replaced
file 1 kept; holds I0000001 kept
counted 1 1 2
count . 1";

#[test]
fn drafts_that_are_dropped_are_counted(rt: HostRuntime) -> Result<(), Fail> {
    play(&rt, &rt, "drafts_that_are_dropped", DRAFTS_THAT_ARE_DROPPED)
}

/// With two files per subfolder; then with more, and with fewer. A file with the name of a
/// subfolder is no subfolder.
static FOLDERS_OF_TWO_LEVELS: &str = "fresh
put I0000009 flat
open 2
begin 1; holds DRAFT; append 1
file 1 1; holds S0000001/I0000001 1
file 1 2; holds S0000001/I0000002 2
file 1 3; holds S0000002/I0000001 3
counted 1 3 1
count . 3
close; holds I0000009 flat
open 9999
file 1 4; holds S0000002/I0000002 4
counted 1 1 0
count . 3
close; put S0000007
open 1
file 1 5; holds S0000003/I0000001 5
counted 1 1 0
count . 5";

#[test]
fn folders_of_two_levels(rt: HostRuntime) -> Result<(), Fail> {
    play(&rt, &rt, "folders_of_two_levels", FOLDERS_OF_TWO_LEVELS)
}

static FOLDERS_THAT_CAN_NOT_BE_MADE: &str = "fresh
put S0000001 a file
open 2
file 1 1; holds S0000002/I0000001 1
file 1 2; holds S0000002/I0000002 2
counted 1 2 0
count . 2
close; holds S0000001 a file
make S9999999
open 1
file 1 last; holds S9999999/I0000001 last
not file 1 too many
counted 1 1 1
count . 3
close; holds S9999999/I0000001 last";

#[test]
fn folders_that_can_not_be_made(rt: HostRuntime) -> Result<(), Fail> {
    play(
        &rt,
        &rt,
        "folders_that_can_not_be_made",
        FOLDERS_THAT_CAN_NOT_BE_MADE,
    )
}

/// A subfolder is moved away: it is created again, and the numbers continue. The next subfolder
/// already exists with a file: a text gets the name after that file's.
static FOLDERS_THAT_WERE_MOVED: &str = "fresh
open 2
file 1 1; holds S0000001/I0000001 1
rename S0000001 moved
file 1 2; holds S0000001/I0000002 2
holds moved/I0000001 1
make S0000002
put S0000002/I0000001 of another
file 1 3; holds S0000002/I0000002 3
holds S0000002/I0000001 of another
counted 1 3 0
count . 3";

#[test]
fn folders_that_were_moved_or_put_back(rt: HostRuntime) -> Result<(), Fail> {
    play(&rt, &rt, "folders_that_were_moved", FOLDERS_THAT_WERE_MOVED)
}
