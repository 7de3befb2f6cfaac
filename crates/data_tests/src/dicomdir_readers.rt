//! Rows read from files that end early or are long, by slow or failing readers, and with little
//! memory.
use crate::images::{Element, header, id, image, is_image, put, reason};
use dicomdir_writing::{Skip, rows_of};
use dictionary::Transfer;
use element::{Syntax, Tag};
use fixtures::readers::{FailsWhen, SlowReader};
use fixtures::refusing::Refusing;
use std::test::Fail;

/// Returns whether the first `size` bytes of a file have no row for the expected reason: the header
/// ends at 132 and at `start`.
fn is_front_of(size: usize, start: usize, found: Option<Skip>) -> bool {
    match found {
        Some(Skip::Missing(_)) => start <= size,
        Some(Skip::Fault(50)) => size < 132,
        Some(Skip::Fault(51)) => 132 <= size && size < start,
        Some(Skip::Fault(20)) => start <= size,
        _ => false,
    }
}

/// Returns how many beginnings of a file lack a key, or `None` if one has a row or an unexpected
/// reason.
fn count_lacking(rt: HostRuntime, file: &[u8], start: usize) -> Option<u32> {
    let mut count = 0u32;
    for size in 0..file.len() {
        let found = reason(rt, &file[..size]);
        if !is_front_of(size, start, found) {
            return None;
        }
        if matches!(found, Some(Skip::Missing(_))) {
            count = count.saturating_add(1);
        }
    }
    Some(count)
}

/// A file that ends early has no row, wherever it ends: a key is missing before each of the
/// elements, and directly after the header.
#[test]
fn every_front_of_a_file(rt: HostRuntime) -> Result<(), Fail> {
    let start = header(rt.alloc(), Syntax::Explicit)?.len();
    let file = image(rt.alloc(), Syntax::Explicit)?;
    assert!(rt; count_lacking(rt, file.as_slice(), start) == Some(16));
    Ok(())
}

/// Bytes after the first chunk read count as well.
#[test]
fn long_data_sets(rt: HostRuntime) -> Result<(), Fail> {
    let pixels: Element = (Tag(0x7fe0, 0x0010), b"OW", b"");
    let mut file = image(rt.alloc(), Syntax::Implicit)?;
    put(&mut file, Syntax::Implicit, &pixels, &[0; 20_000])?;
    assert!(rt; reason(rt, file.as_slice()).is_none());
    put(&mut file, Syntax::Implicit, &pixels, b"")?;
    assert!(rt; reason(rt, file.as_slice()) == Some(Skip::Fault(12)));
    Ok(())
}

/// Returns whether a slow reader that fails at this offset yields the image's row or, if the end of
/// the file is later, fault 54. The end of the file takes one more read.
fn fails_at(rt: HostRuntime, file: &[u8], most: usize, fails_at: usize) -> bool {
    let mut reader = SlowReader::new(file, most, FailsWhen::AtByte(fails_at));
    let Ok(id) = id() else {
        return false;
    };
    match rows_of(rt.alloc(), &mut reader, &id, &[]) {
        Ok(row) => file.len() < fails_at && is_image(&row, Transfer::Explicit),
        Err(reason) => fails_at <= file.len() && reason == Skip::Fault(54),
    }
}

/// Byte by byte the row is the same, and a failed read is fault 54, wherever it occurs.
#[test]
fn slow_and_failing_readers(rt: HostRuntime) -> Result<(), Fail> {
    let file = image(rt.alloc(), Syntax::Explicit)?;
    for most in [1usize, 7, 4096] {
        for offset in 0..file.len().saturating_add(2) {
            assert!(rt; fails_at(rt, file.as_slice(), most, offset));
        }
    }
    Ok(())
}

/// A file without a row needs no memory: the first allocation would be refused.
#[test]
fn a_file_without_a_row_costs_no_memory(rt: HostRuntime) -> Result<(), Fail> {
    let mut file = image(rt.alloc(), Syntax::Explicit)?;
    file.truncate(file.len().saturating_sub(1));
    let refusing = Refusing::new(rt.alloc(), 0);
    let mut rest = file.as_slice();
    let row = rows_of(&refusing, &mut rest, &id()?, &[]);
    assert!(rt; row.err() == Some(Skip::Fault(20)) && !refusing.has_refused());
    Ok(())
}
