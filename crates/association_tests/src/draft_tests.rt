//! The draft of a store while its data set is received, and when the association ends meanwhile.

use crate::row::{Levels, Row, fresh_folder, over_folder};
use dimse::status;
use fixtures::bytes::{after_first, back, front};
use fixtures::folders::{are_in, count};
use fixtures::stores::{ACCEPT, CT_SET, EXPLICIT, INSTANCE};
use fixtures::{Shown, Step, over_memory};
use folder_filing::FolderFiling;
use pdu::MemoryWire;
use std::alloc::{AllocError, Global};
use std::test::Fail;
use std::{fs, io};

/// Returns the test case of a CT store.
fn ct_store(alloc: Global) -> Result<Row, AllocError> {
    Row::of(alloc, &(EXPLICIT, INSTANCE, &CT_SET, status::SUCCESS, None))
}

/// Returns whether an association that received a test case up to byte 39 of its data set has a
/// draft and buffers 24 bytes of the request, 100 of the command, 26 of the class and 5 of a
/// header. Complete heads are not buffered.
fn is_held(shown: Shown, wire: &MemoryWire<Global>) -> bool {
    shown.drafting && shown.held == 155 && wire.sent() == ACCEPT
}

/// Returns whether `is_held` holds in memory after the first step, and after the second step there
/// is a file.
fn is_held_over_memory(alloc: Global, row: &Row, steps: &[Step; 2]) -> bool {
    let tried = over_memory(alloc, &steps[..1]);
    is_held(tried.shown, &tried.wire)
        && tried.filing.files().is_empty()
        && row.is_filed(&over_memory(alloc, steps))
}

fn is_held_over_filing(
    rt: &HostRuntime,
    filing: FolderFiling<HostRuntime>,
    steps: &[Step; 2],
) -> bool {
    let mut filing = filing;
    let tried = over_folder(rt.alloc(), &mut filing, Levels::OfTheProgram, &steps[..1]);
    is_held(tried.shown, &tried.wire) && matches!(count(rt, "held_in_its_data"), Ok(1))
}

/// Returns whether `is_held` holds over a folder with only the draft after the first step, and
/// after the second there is a file.
fn is_held_over_folder(rt: &HostRuntime, row: &Row, steps: &[Step; 2]) -> io::Result<bool> {
    let filing = fresh_folder(rt, "held_in_its_data")?;
    if !is_held_over_filing(rt, filing, steps) {
        return Ok(false);
    }
    let filing = fresh_folder(rt, "held_in_its_data")?;
    Ok(
        row.is_answered(rt.alloc(), filing, Levels::OfTheProgram, steps)
            && are_in(rt, "held_in_its_data", row.files.as_slice())?,
    )
}

/// Returns whether all of that holds in one chunk, byte by byte and at each cut in two.
fn is_held_at_each_cut(rt: &HostRuntime, row: &Row) -> io::Result<bool> {
    let stream = row.stream.as_slice();
    let count = stream.len().saturating_sub(48 - 39);
    let (received, rest) = (front(stream, count), back(stream, count));
    for cut in 0..received.len() + 2 {
        let steps = [Step::Cut(received, cut), Step::Piece(rest)];
        if !is_held_over_memory(rt.alloc(), row, &steps) || !is_held_over_folder(rt, row, &steps)? {
            return Ok(false);
        }
    }
    Ok(true)
}

#[test]
fn held_in_its_data(rt: HostRuntime) -> Result<(), Fail> {
    let row = ct_store(rt.alloc())?;
    assert!(rt; is_held_at_each_cut(&rt, &row)?);
    fs::remove_dir_all(&rt, "held_in_its_data")?;
    Ok(())
}

/// Returns whether an association has ended with nothing buffered, without a draft, and sent this
/// many bytes after the A-ASSOCIATE-AC.
fn is_closed(shown: Shown, wire: &MemoryWire<Global>, sent: usize) -> bool {
    shown.is_ended() && after_first(wire.sent()).len() == sent
}

/// Returns whether an association in memory is closed after these steps and has these files.
fn closes_over_memory(alloc: Global, steps: &[Step], files: &[Vec<u8>], sent: usize) -> bool {
    let tried = over_memory(alloc, steps);
    is_closed(tried.shown, &tried.wire, sent) && tried.filing.files() == files
}

/// Returns whether an association over the filing of a folder is closed after these steps.
fn closes_over_filing(
    alloc: Global,
    filing: FolderFiling<HostRuntime>,
    steps: &[Step],
    sent: usize,
) -> bool {
    let mut filing = filing;
    let tried = over_folder(alloc, &mut filing, Levels::OfTheProgram, steps);
    is_closed(tried.shown, &tried.wire, sent)
}

/// Returns whether closing the transport connection after these bytes of a test case, cut here,
/// leaves the file of a complete store, and neither a file nor a draft of an unfinished one, in
/// memory and over a folder.
fn closes(rt: &HostRuntime, dir: &str, row: &Row, received: &[u8], cut: usize) -> io::Result<bool> {
    let is_whole = received.len() == row.stream.len();
    let files: &[Vec<u8>] = if is_whole { row.files.as_slice() } else { &[] };
    let sent = if is_whole { row.answer.len() } else { 0 };
    let filing = fresh_folder(rt, dir)?;
    let steps = [Step::Cut(received, cut), Step::Closed];
    Ok(
        closes_over_filing(rt.alloc(), filing, &steps, sent)
            && closes_over_memory(rt.alloc(), &steps, files, sent)
            && are_in(rt, dir, files)?,
    )
}

/// Returns whether `closes` holds after each number of bytes, in one chunk and byte by byte.
fn closes_anywhere(rt: &HostRuntime, dir: &str, row: &Row) -> io::Result<bool> {
    for count in 0..row.stream.len() + 1 {
        let received = front(row.stream.as_slice(), count);
        if !closes(rt, dir, row, received, 0)? || !closes(rt, dir, row, received, usize::MAX)? {
            return Ok(false);
        }
    }
    Ok(true)
}

/// Returns whether `closes` holds in the middle of the data set, at each cut in two.
fn closes_in_its_data(rt: &HostRuntime, dir: &str, row: &Row) -> io::Result<bool> {
    let received = front(row.stream.as_slice(), row.stream.len().saturating_sub(24));
    for cut in 0..received.len() + 2 {
        if !closes(rt, dir, row, received, cut)? {
            return Ok(false);
        }
    }
    Ok(true)
}

#[test]
fn a_store_closed_anywhere(rt: HostRuntime) -> Result<(), Fail> {
    let dir = "a_store_closed_anywhere";
    let row = ct_store(rt.alloc())?;
    assert!(rt; closes_anywhere(&rt, dir, &row)?);
    assert!(rt; closes_in_its_data(&rt, dir, &row)?);
    fs::remove_dir_all(&rt, dir)?;
    Ok(())
}
