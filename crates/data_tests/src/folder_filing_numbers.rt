//! The file that keeps the greatest numbers of a folder's files: no number is used again, whatever
//! happens to the folder.

use fixtures::play;
use std::test::Fail;

/// The folder's files are moved away and the folder is opened again; then the same with subfolders.
static NEVER_AGAIN: &str = "fresh; clear ../a_number_never_comes_again.numbers
writer 0; numbers ../a_number_never_comes_again.numbers; filing
file 1 text; holds I0000001 text
holds ../a_number_never_comes_again.numbers I0000100 S0000000|
fresh
writer 0; numbers ../a_number_never_comes_again.numbers; filing
file 1 text; holds I0000101 text
holds ../a_number_never_comes_again.numbers I0000200 S0000000|
close; put I0000407 of another
writer 0; numbers ../a_number_never_comes_again.numbers; filing
file 1 text; holds I0000408 text
holds ../a_number_never_comes_again.numbers I0000507 S0000000|
fresh
writer 2; numbers ../a_number_never_comes_again.numbers; filing
file 1 text; holds S0000001/I0000001 text
holds ../a_number_never_comes_again.numbers I0000507 S0000001|
close; writer 2; numbers ../a_number_never_comes_again.numbers; filing
file 1 text; holds S0000002/I0000001 text
holds ../a_number_never_comes_again.numbers I0000507 S0000002|
fresh
writer 2; numbers ../a_number_never_comes_again.numbers; filing
file 1 text; holds S0000003/I0000001 text
holds ../a_number_never_comes_again.numbers I0000507 S0000003|
close
remove ../a_number_never_comes_again.numbers";

#[test]
fn no_number_is_used_again(rt: HostRuntime) -> Result<(), Fail> {
    play(&rt, &rt, "a_number_never_comes_again", NEVER_AGAIN)
}

/// Texts that are no line of numbers stay unchanged.
static DAMAGED: &str = "fresh; clear ../damaged_numbers.numbers
put ../damaged_numbers.numbers
writer 0; not numbers ../damaged_numbers.numbers; reports InvalidData it has no line of two numbers
holds ../damaged_numbers.numbers
put ../damaged_numbers.numbers |
writer 0; not numbers ../damaged_numbers.numbers; reports InvalidData it has no line of two numbers
holds ../damaged_numbers.numbers |
put ../damaged_numbers.numbers I0000100 S0000000
writer 0; not numbers ../damaged_numbers.numbers; reports InvalidData it has no line of two numbers
holds ../damaged_numbers.numbers I0000100 S0000000
put ../damaged_numbers.numbers I0000100 S0000000||
writer 0; not numbers ../damaged_numbers.numbers; reports InvalidData it has no line of two numbers
holds ../damaged_numbers.numbers I0000100 S0000000||
put ../damaged_numbers.numbers I0000100  S000000|
writer 0; not numbers ../damaged_numbers.numbers; reports InvalidData it has no line of two numbers
holds ../damaged_numbers.numbers I0000100  S000000|
put ../damaged_numbers.numbers S0000100 I0000000|
writer 0; not numbers ../damaged_numbers.numbers; reports InvalidData it has no line of two numbers
holds ../damaged_numbers.numbers S0000100 I0000000|
put ../damaged_numbers.numbers I00001x0 S0000000|
writer 0; not numbers ../damaged_numbers.numbers; reports InvalidData it has no line of two numbers
holds ../damaged_numbers.numbers I00001x0 S0000000|
put ../damaged_numbers.numbers I0000100,S0000000|
writer 0; not numbers ../damaged_numbers.numbers; reports InvalidData it has no line of two numbers
holds ../damaged_numbers.numbers I0000100,S0000000|
put ../damaged_numbers.numbers I0000100 S000000|0
writer 0; not numbers ../damaged_numbers.numbers; reports InvalidData it has no line of two numbers
holds ../damaged_numbers.numbers I0000100 S000000|0
remove ../damaged_numbers.numbers";

#[test]
fn damaged_numbers_are_no_numbers(rt: HostRuntime) -> Result<(), Fail> {
    play(&rt, &rt, "damaged_numbers", DAMAGED)
}

static NOT_KEPT: &str = "fresh; clear ../a_number_that_can_not_be_kept.numbers
writer 0; numbers ../a_number_that_can_not_be_kept.numbers; filing
make ../a_number_that_can_not_be_kept.numbers.new
not file 1 text
not holds I0000001 text
count ../a_number_that_can_not_be_kept.numbers.new 0
clear ../a_number_that_can_not_be_kept.numbers.new
file 1 text; holds I0000001 text
remove ../a_number_that_can_not_be_kept.numbers";

/// A number that can't be kept is not used: the store fails, and the kept numbers stay.
#[test]
fn a_number_that_can_not_be_kept(rt: HostRuntime) -> Result<(), Fail> {
    play(&rt, &rt, "a_number_that_can_not_be_kept", NOT_KEPT)
}
