//! Two stores over a filing of which each call fails in turn, in one chunk, at each cut in two and
//! byte by byte.

use crate::filings::FailingFiling;
use crate::two_stores::TwoStores;
use acceptor::State;
use fixtures::{Shown, Step, drive};
use part10::MemoryFiling;
use pdu::MemoryWire;
use std::alloc::{AllocError, Global};
use std::ops::Range;

/// An association in memory after a filing that fails.
#[derive(Drop)]
struct Tried {
    wire: MemoryWire<Global>,
    filing: FailingFiling<MemoryFiling<Global>>,
    shown: Shown,
}

/// Opens an association over a filing of which this call fails, and applies these steps.
fn over_failing_filing(alloc: Global, at: usize, steps: &[Step]) -> Tried {
    let mut wire = MemoryWire::new(alloc);
    let mut filing = FailingFiling::new(MemoryFiling::new(alloc), at);
    let shown = drive::<_, _, 64>(&mut wire, &mut filing, steps);
    Tried {
        wire,
        filing,
        shown,
    }
}

/// Returns whether there are these numbers of calls to `begin`, `append` and `commit` in these
/// steps, and of files.
fn has_calls(alloc: Global, steps: &[Step], calls: (usize, usize, usize), files: usize) -> bool {
    let tried = over_failing_filing(alloc, usize::MAX, steps);
    let filing = &tried.filing;
    (filing.begins, filing.appends, filing.commits) == calls && filing.kept().files().len() == files
}

#[test]
fn calls_of_one_store(rt: HostRuntime) -> Result<(), AllocError> {
    let stores = TwoStores::new(rt.alloc())?;
    assert!(rt; has_calls(rt.alloc(), &stores.pieces()[..1], (0, 0, 0), 0));
    assert!(rt; has_calls(rt.alloc(), &stores.pieces()[..2], (1, 2, 1), 1));
    Ok(())
}

/// Fails this call to the filing, with both stores cut here. Returns the draft of the failed call,
/// counted from 1, or 0 if no call failed; or `None` unless the store of that draft gets status
/// A700 and leaves no file, and the other is filed.
fn failed_draft(alloc: Global, stores: &TwoStores, cut: usize, at: usize) -> Option<usize> {
    let tried = over_failing_filing(alloc, at, &stores.cut(cut));
    let failed = tried.filing.failed_draft();
    let due = stores.due(failed);
    let is_due = tried.wire.sent() == due.answer.as_slice()
        && tried.filing.kept().files() == due.files.as_slice()
        && tried.shown.state == State::Sta6
        && !tried.shown.drafting;
    if is_due { Some(failed) } else { None }
}

/// Fails each call to the filing in turn. Returns the index at which no call failed any more, or
/// `None` if an outcome is wrong.
fn failed_calls(alloc: Global, stores: &TwoStores, cut: usize) -> Option<usize> {
    for at in 0..200usize {
        if failed_draft(alloc, stores, cut, at)? == 0 {
            return Some(at);
        }
    }
    None
}

/// Returns whether each call fails as expected at each of these cuts, and there are these numbers
/// of calls.
fn are_failed(alloc: Global, cuts: Range<usize>, calls: Range<usize>) -> Result<bool, AllocError> {
    let stores = TwoStores::new(alloc)?;
    for cut in cuts {
        match failed_calls(alloc, &stores, cut) {
            Some(failed) if calls.contains(&failed) => {}
            _ => return Ok(false),
        }
    }
    Ok(true)
}

/// A store has four calls, and five if it is cut in its data set; byte by byte it has 51.
#[test]
fn each_call_to_the_filing_fails_in_turn(rt: HostRuntime) -> Result<(), AllocError> {
    assert!(rt; are_failed(rt.alloc(), 0..1, 8..9)?);
    assert!(rt; are_failed(rt.alloc(), 1..172, 8..10)?);
    assert!(rt; are_failed(rt.alloc(), 345..346, 102..103)?);
    Ok(())
}

#[test]
fn each_call_to_the_filing_fails_in_turn_where_the_second_store_is_cut(
    rt: HostRuntime,
) -> Result<(), AllocError> {
    assert!(rt; are_failed(rt.alloc(), 172..344, 8..10)?);
    Ok(())
}
