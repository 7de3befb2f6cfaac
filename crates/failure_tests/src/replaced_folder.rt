//! A folder that is renamed while a writer has it open, and replaced by another folder, which a
//! second writer has open: the first writer changes nothing in the new folder.

use crate::two_stores::TwoStores;
use dimse::status;
use fixtures::bytes::joined;
use fixtures::folders::{count, fresh};
use fixtures::stores::{ACCEPT, INSTANCE, OTHER, reply};
use fixtures::{Step, drive, play};
use folder_filing::FolderFiling;
use pdu::MemoryWire;
use std::alloc::{AllocError, Global};
use std::test::Fail;
use std::{fs, io};

/// In one folder and in subfolders of one file each: in a folder other than the opened one, no
/// draft is started and the draft there is filed, a draft gets no name, and discarding a draft leaves
/// the other draft unchanged.
static NOT_LOCKED: &str = "fresh
open 0
away replaced_folder_moved
open 0
begin 2 second
not begin 1 first
error 1 the folder was replaced by another one
counted 1 0 0
holds DRAFT second
count . 1
count ../replaced_folder_moved 0
commit 2
holds I0000001 second
count . 1
fresh
open 0
begin 1 first
away replaced_folder_moved
open 0
begin 2 second
not commit 1
error 1 the folder was replaced by another one
counted 1 0 1
holds DRAFT second
count . 1
holds ../replaced_folder_moved/DRAFT first
count ../replaced_folder_moved 1
commit 2
holds I0000001 second
count . 1
fresh
open 0
begin 1 first
away replaced_folder_moved
open 0
begin 2 second
discard 1
holds DRAFT second
holds ../replaced_folder_moved/DRAFT first
commit 2
holds I0000001 second
count . 1
fresh
open 1
away replaced_folder_moved
open 1
begin 2 second
not begin 1 first
error 1 the folder was replaced by another one
counted 1 0 0
holds DRAFT second
count . 1
count ../replaced_folder_moved 0
commit 2
holds S0000001/I0000001 second
count . 1
fresh
open 1
begin 1 first
away replaced_folder_moved
open 1
begin 2 second
not commit 1
error 1 the folder was replaced by another one
counted 1 0 1
holds DRAFT second
count . 1
holds ../replaced_folder_moved/DRAFT first
count ../replaced_folder_moved 1
commit 2
holds S0000001/I0000001 second
count . 1
fresh
open 1
begin 1 first
away replaced_folder_moved
open 1
begin 2 second
discard 1
holds DRAFT second
holds ../replaced_folder_moved/DRAFT first
commit 2
holds S0000001/I0000001 second
count . 1";

#[test]
fn nothing_is_changed_in_a_folder_that_is_not_locked(rt: HostRuntime) -> Result<(), Fail> {
    play(&rt, &rt, "replaced_folder", NOT_LOCKED)?;
    fs::remove_dir_all(&rt, "replaced_folder_moved")?;
    Ok(())
}

/// The writer continues once its folder has its name again; the draft that could not be removed is
/// removed.
static BACK: &str = "fresh
open 0
begin 1 lost
away folder_that_is_back_moved
open 0
drop 2
discard 1
holds ../folder_that_is_back_moved/DRAFT lost
count . 0
back folder_that_is_back_moved
file 1 again
holds I0000001 again
count . 1";

#[test]
fn a_folder_that_has_its_name_again(rt: HostRuntime) -> Result<(), Fail> {
    play(&rt, &rt, "folder_that_is_back", BACK)
}

/// Returns what is sent if both stores get status A700.
fn refusals(alloc: Global) -> Result<Vec<u8>, AllocError> {
    let first = reply(alloc, INSTANCE, status::OUT_OF_RESOURCES, None)?;
    let second = reply(alloc, OTHER, status::OUT_OF_RESOURCES, None)?;
    joined(alloc, &[ACCEPT, first.as_slice(), second.as_slice()])
}

/// Stores and the answers to them.
#[derive(Clone, Copy)]
struct Answered<'a> {
    steps: &'a [Step<'a>],
    answer: &'a [u8],
}

/// Returns whether the stores get these answers over this filing, and neither folder has a file.
fn is_answered(
    rt: &HostRuntime,
    (dir, moved): (&str, &str),
    filing: &mut FolderFiling<HostRuntime>,
    stores: Answered,
) -> io::Result<bool> {
    let mut wire = MemoryWire::new(rt.alloc());
    let _shown = drive::<_, _, 64>(&mut wire, filing, stores.steps);
    Ok(wire.sent() == stores.answer && count(rt, dir)? == 0 && count(rt, moved)? == 0)
}

/// Renames a folder and opens another one with its name.
fn replaced(rt: &HostRuntime, (dir, moved): (&str, &str)) -> io::Result<FolderFiling<HostRuntime>> {
    let _ = fs::remove_dir_all(rt, moved);
    fs::rename(rt, dir, moved)?;
    fs::create_dir(rt, dir)?;
    FolderFiling::open(*rt, dir)
}

/// Returns whether `is_answered` holds if the folder was replaced.
fn is_answered_in_replaced(
    rt: &HostRuntime,
    dirs: (&str, &str),
    stores: Answered,
) -> io::Result<bool> {
    fresh(rt, dirs.0)?;
    let mut filing = FolderFiling::open(*rt, dirs.0)?;
    let _second = replaced(rt, dirs)?;
    is_answered(rt, dirs, &mut filing, stores)
}

/// The stores get status A700.
#[test]
fn stores_to_a_folder_that_was_replaced(rt: HostRuntime) -> Result<(), Fail> {
    let dirs = (
        "stores_to_a_replaced_folder",
        "stores_to_a_replaced_folder_moved",
    );
    let stores = TwoStores::new(rt.alloc())?;
    let answer = refusals(rt.alloc())?;
    for cut in [0, stores.size(), usize::MAX] {
        let stores = Answered {
            steps: &stores.cut(cut),
            answer: answer.as_slice(),
        };
        assert!(rt; is_answered_in_replaced(&rt, dirs, stores)?);
    }
    fs::remove_dir_all(&rt, dirs.0)?;
    fs::remove_dir_all(&rt, dirs.1)?;
    Ok(())
}
