//! Two stores over a wire of which each send fails in turn, in one chunk, at each cut in two and
//! byte by byte.

use crate::two_stores::{ENDS, TwoStores};
use crate::wires::FailingWire;
use fixtures::bytes::front;
use fixtures::folders::{are_in, fresh};
use fixtures::{Shown, Step, drive};
use folder_filing::FolderFiling;
use part10::MemoryFiling;
use std::alloc::{AllocError, Global};
use std::test::Fail;
use std::{fs, io};

/// Which send fails, counted from 0, and how many of its bytes are sent.
#[derive(Clone, Copy)]
struct Failure {
    at: usize,
    front: usize,
}

/// Returns how many bytes are sent by this many sends.
fn end_of(sends: usize) -> usize {
    ENDS.get(sends).copied().unwrap_or(ENDS[3])
}

/// Returns the bytes sent if a send fails: those of the sends before it, and the first of its own.
fn sent_until(all: &[u8], failure: Failure) -> &[u8] {
    let next = failure.at.saturating_add(1);
    let sent = end_of(failure.at).saturating_add(failure.front);
    front(all, sent.min(end_of(next)))
}

/// Returns whether a wire with a failing send has sent exactly these bytes, and no send follows:
/// the association has ended. There are three sends; a fourth is not made and can't fail.
fn is_cut_off(wire: &FailingWire, shown: Shown, all: &[u8], failure: Failure) -> bool {
    let fails = failure.at < 3;
    let sends = if fails { failure.at + 1 } else { 3 };
    wire.sent() == sent_until(all, failure)
        && (wire.sends(), wire.has_failed()) == (sends, fails)
        && shown.is_ended() == fails
        && !shown.drafting
}

/// Returns the files of the stores up to the failed reply.
fn due_files(stores: &TwoStores, failure: Failure) -> &[Vec<u8>] {
    let files = stores.due(0).files.as_slice();
    files.get(..failure.at).unwrap_or(files)
}

/// Returns whether this send fails as expected in memory, in these steps.
fn fails(alloc: Global, stores: &TwoStores, failure: Failure, steps: &[Step]) -> bool {
    let mut wire = FailingWire::new(alloc, failure.at, failure.front);
    let mut filing = MemoryFiling::new(alloc);
    let shown = drive::<_, _, 64>(&mut wire, &mut filing, steps);
    is_cut_off(&wire, shown, stores.due(0).answer.as_slice(), failure)
        && filing.files() == due_files(stores, failure)
}

/// Returns whether each send in turn fails as expected after `front` of its bytes, with both stores
/// cut here, and a send after the last does not fail.
fn each_fails(alloc: Global, stores: &TwoStores, front: usize, cut: usize) -> bool {
    let steps = stores.cut(cut);
    for at in 0..4usize {
        if !fails(alloc, stores, Failure { at, front }, &steps) {
            return false;
        }
    }
    true
}

/// After how many of its bytes a send fails: 0, 1, all but the last of a reply, and all.
const FRONTS: [usize; 4] = [0, 1, 111, usize::MAX];

/// Each number of bytes in one chunk, and the numbers in turn at the cuts in two, the last of which
/// is byte by byte.
#[test]
fn each_send_fails_in_turn(rt: HostRuntime) -> Result<(), AllocError> {
    let stores = TwoStores::new(rt.alloc())?;
    assert!(rt; stores.due(0).answer.len() == ENDS[3]);
    for front in FRONTS {
        assert!(rt; each_fails(rt.alloc(), &stores, front, 0));
    }
    for cut in 0..stores.messages.len() + 2 {
        assert!(rt; each_fails(rt.alloc(), &stores, FRONTS[cut % 4], cut));
    }
    Ok(())
}

/// Returns whether both stores are cut off over the filing of a folder, and one is filed.
fn is_cut_off_in_folder(
    alloc: Global,
    filing: FolderFiling<HostRuntime>,
    failure: Failure,
    steps: &[Step],
    all: &[u8],
) -> bool {
    let mut filing = filing;
    let mut wire = FailingWire::new(alloc, failure.at, failure.front);
    let shown = drive::<_, _, 64>(&mut wire, &mut filing, steps);
    is_cut_off(&wire, shown, all, failure) && filing.committed() == 1 && filing.dropped() == 0
}

/// Returns whether the reply to the first store is cut off after this many bytes, and the store's
/// file stays in the folder.
fn reply_is_cut_off(
    rt: &HostRuntime,
    stores: &TwoStores,
    front: usize,
    cut: usize,
) -> io::Result<bool> {
    let dir = "a_cut_reply_over_a_folder";
    fresh(rt, dir)?;
    let filing = FolderFiling::open(*rt, dir)?.without_sync();
    let failure = Failure { at: 1, front };
    let all = stores.due(0).answer.as_slice();
    Ok(
        is_cut_off_in_folder(rt.alloc(), filing, failure, &stores.cut(cut), all)
            && are_in(rt, dir, due_files(stores, failure))?,
    )
}

#[test]
fn a_cut_reply_over_a_folder(rt: HostRuntime) -> Result<(), Fail> {
    let stores = TwoStores::new(rt.alloc())?;
    for cut in 0..stores.messages.len() + 2 {
        assert!(rt; reply_is_cut_off(&rt, &stores, 1, cut)?);
    }
    fs::remove_dir_all(&rt, "a_cut_reply_over_a_folder")?;
    Ok(())
}
