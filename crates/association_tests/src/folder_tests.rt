//! A store over a folder without a free number, and over a folder that is synced.

use crate::row::Row;
use acceptor::State;
use dimse::status;
use fixtures::folders::{are_in, count, fresh, holds, put};
use fixtures::stores::{CT_SET, EXPLICIT, INSTANCE, reply, whole_store};
use folder_filing::FolderFiling;
use std::alloc::{AllocError, Global};
use std::test::Fail;
use std::{fs, io};

#[test]
fn a_store_in_a_folder_that_is_synced(rt: HostRuntime) -> Result<(), Fail> {
    let dir = "a_store_in_a_folder_that_is_synced";
    fresh(&rt, dir)?;
    let store = (EXPLICIT, INSTANCE, CT_SET.as_slice(), status::SUCCESS, None);
    let row = Row::of(rt.alloc(), &store)?;
    assert!(rt; row.arrives_over(&rt, FolderFiling::open(rt, dir)?, 0));
    assert!(rt; are_in(&rt, dir, row.files.as_slice())?);
    fs::remove_dir_all(&rt, dir)?;
    Ok(())
}

/// Returns whether a test case, cut here, has its expected outcome over a folder whose last number
/// is in use, and leaves the folder unchanged.
fn arrives_in_full_folder(rt: &HostRuntime, dir: &str, row: &Row, cut: usize) -> io::Result<bool> {
    fresh(rt, dir)?;
    put(rt, dir, "I9999999", b"last")?;
    let filing = FolderFiling::open(*rt, dir)?.without_sync();
    Ok(
        row.arrives_over(rt, filing, cut)
            && count(rt, dir)? == 1
            && holds(rt, dir, "I9999999", b"last")?,
    )
}

/// Returns the test case of two stores that are both answered with status A700.
fn refused(alloc: Global) -> Result<Row, AllocError> {
    let store = whole_store(alloc, INSTANCE, &CT_SET)?;
    let reply = reply(alloc, INSTANCE, status::OUT_OF_RESOURCES, None)?;
    let (stores, replies) = ([store.as_slice(); 2], [reply.as_slice(); 2]);
    Row::of_messages(alloc, &stores, &replies, &[], State::Sta6)
}

/// Returns whether a test case has its expected outcome in one chunk, byte by byte and at each cut
/// in two.
fn arrives_at_each_cut(rt: &HostRuntime, dir: &str, row: &Row) -> io::Result<bool> {
    for cut in 0..row.stream.len() + 2 {
        if !arrives_in_full_folder(rt, dir, row, cut)? {
            return Ok(false);
        }
    }
    Ok(true)
}

#[test]
fn a_folder_without_a_free_number(rt: HostRuntime) -> Result<(), Fail> {
    let dir = "a_folder_without_a_free_number";
    let row = refused(rt.alloc())?;
    assert!(rt; arrives_at_each_cut(&rt, dir, &row)?);
    fs::remove_dir_all(&rt, dir)?;
    Ok(())
}
