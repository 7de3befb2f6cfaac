//! Each read of a file header fails in turn.

use fixtures::readers::{FailsWhen, SlowReader};
use fixtures::stores::{CT_SET, EXPLICIT, INSTANCE, file};
use part10::{MetaFault, read_meta};
use std::alloc::AllocError;

/// Returns whether the file header is read correctly if no read fails, and is fault 54 if a read
/// fails, with nothing read after that; and whether a read failed.
fn is_reported(reader: SlowReader) -> (bool, bool) {
    let mut reader = reader;
    let is_right = match read_meta(&mut reader) {
        Ok(meta) => {
            meta.instance.as_bytes() == b"1.2.3".as_slice()
                && reader.given() == 288
                && !reader.has_failed()
        }
        Err(fault) => fault == MetaFault::ReadFailed && reader.has_failed() && reader.given() < 288,
    };
    (is_right, reader.has_failed())
}

/// Returns how many reads of at most `most` bytes failed in turn, or `None` if a failure was not
/// reported.
fn failed(file: &[u8], most: usize) -> Option<u32> {
    for passed in 0..400u32 {
        match is_reported(SlowReader::new(file, most, FailsWhen::AfterReads(passed))) {
            (true, true) => {}
            (true, false) => return Some(passed),
            (false, _) => return None,
        }
    }
    None
}

/// A failed read is distinguished from other faults, whatever the reads yield.
#[test]
fn a_failed_read_is_reported_apart(rt: HostRuntime) -> Result<(), AllocError> {
    let file = file(rt.alloc(), EXPLICIT, INSTANCE, &CT_SET)?;
    for most in [1usize, 7, 64, 500] {
        assert!(rt;
            matches!(failed(file.as_slice(), most), Some(2..)),
            "at {most}"
        );
    }
    Ok(())
}
