//! Hundreds of stores on one association, and long chunks: no number and no size is a limit.

use crate::two_stores::TwoStores;
use fixtures::bytes::{back, front, joined};
use fixtures::folders::{count, fresh, holds, is_filed};
use fixtures::{Step, over_memory};
use folder_filing::FolderFiling;
use pdu::{MemoryWire, Wire};
use std::alloc::{AllocError, Global};
use std::fs;
use std::test::Fail;

/// How often both stores are sent.
const TIMES: usize = 300;

/// Returns these bytes repeated.
fn repeated(alloc: Global, bytes: &[u8], times: usize) -> Result<Vec<u8>, AllocError> {
    let mut all = Vec::new(alloc);
    for _ in 0..times {
        all.extend_from_slice(bytes)?;
    }
    Ok(all)
}

/// Returns whether the files are these two, repeated this many times.
fn are_repeated(files: &[Vec<u8>], two: &[Vec<u8>], times: usize) -> bool {
    for (at, file) in files.iter().enumerate() {
        if Some(file) != two.get(at % 2) {
            return false;
        }
    }
    files.len() == times.saturating_mul(2)
}

/// Both stores are sent 300 times in one chunk, and each is filed and gets its reply; 67,371 bytes
/// are sent.
#[test]
fn hundreds_of_stores(rt: HostRuntime) -> Result<(), AllocError> {
    let stores = TwoStores::new(rt.alloc())?;
    let messages = repeated(rt.alloc(), stores.messages.as_slice(), TIMES)?;
    let steps = [
        Step::Piece(stores.request.as_slice()),
        Step::Piece(messages.as_slice()),
    ];
    let tried = over_memory(rt.alloc(), &steps);
    let due = stores.due(0);
    let replies = repeated(rt.alloc(), back(due.answer.as_slice(), 171), TIMES)?;
    let sent = joined(
        rt.alloc(),
        &[front(due.answer.as_slice(), 171), replies.as_slice()],
    )?;
    assert!(rt; sent.len() == 67_371 && tried.wire.sent() == sent.as_slice());
    assert!(rt; are_repeated(tried.filing.files(), due.files.as_slice(), TIMES));
    Ok(())
}

/// Long appends are filed unchanged, and a long send is sent unchanged.
#[test]
fn long_pieces(rt: HostRuntime) -> Result<(), Fail> {
    let dir = "long_pieces";
    let bytes = repeated(rt.alloc(), b"0123456789", 30_000)?;
    fresh(&rt, dir)?;
    let mut filing = FolderFiling::open(rt, dir)?.without_sync();
    assert!(rt; is_filed(&mut filing, bytes.as_slice()) && is_filed(&mut filing, bytes.as_slice()));
    assert!(rt; is_filed(&mut filing, b"third") && count(&rt, dir)? == 3);
    assert!(rt;
        holds(&rt, dir, "I0000002", bytes.as_slice())? && holds(&rt, dir, "I0000003", b"third")?
    );
    let mut wire = MemoryWire::new(rt.alloc());
    assert!(rt; wire.send(bytes.as_slice()).is_ok() && wire.sent() == bytes.as_slice());
    fs::remove_dir_all(&rt, dir)?;
    Ok(())
}
