//! Test cases of `part10` on its public calls: a filing in memory.

use fixtures::folders::is_filed;
use part10::{Filing, MemoryFiling};
use std::alloc::Global;

/// Begins a draft, appends 333 bytes to it this many times, and commits it. Returns whether all
/// calls succeeded.
fn is_filed_in(filing: &mut MemoryFiling<Global>, appends: u16) -> bool {
    if filing.begin().is_err() {
        return false;
    }
    for _ in 0..appends {
        if filing.append(&[9; 333]).is_err() {
            return false;
        }
    }
    filing.commit().is_ok()
}

/// Returns whether there are `count` files, and the one with this index has this size.
fn has_size(files: &[Vec<u8>], count: usize, index: usize, size: usize) -> bool {
    match files.get(index) {
        Some(file) => files.len() == count && file.len() == size,
        None => false,
    }
}

/// With memory to spare nothing fails: many files, long ones, and many appends to one.
#[test]
fn memory_accepts_long_and_many_files(rt: HostRuntime) {
    let mut filing = MemoryFiling::new(rt.alloc());
    for _ in 0..300u16 {
        assert!(rt; is_filed(&mut filing, &[7; 5000]));
    }
    assert!(rt; is_filed_in(&mut filing, 1000));
    assert!(rt; has_size(filing.files(), 301, 0, 5000));
    assert!(rt; has_size(filing.files(), 301, 300, 333_000));
}
