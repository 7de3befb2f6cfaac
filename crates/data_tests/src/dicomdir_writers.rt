//! Directories written by slow and failing writers.
use crate::dicomdir_rows::{FILES, rows, uid};
use crate::files::one_image;
use dicomdir_writing::{Built, build, write_dir};
use fixtures::writers::SlowWriter;
use std::alloc::Global;
use std::io::ErrorKind;
use std::test::Fail;

/// Returns whether the directory of the rows is written as far as a slow writer accepts bytes:
/// completely if it accepts all 788, else with this error.
fn is_written(
    built: &Built<'_, Global>,
    writer: &mut SlowWriter,
    remaining: usize,
    wanted: &[u8],
    kind: ErrorKind,
) -> bool {
    let is_as_far = match write_dir(built, writer) {
        Ok(()) => remaining == 788,
        Err(error) => remaining < 788 && error.kind() == kind,
    };
    is_as_far && writer.bytes().len() == remaining && wanted.starts_with(writer.bytes())
}

/// Returns whether the directory of the rows is written as far as each slow writer accepts bytes,
/// whether the writer fails or accepts no more.
fn each_byte_fails(alloc: Global, built: &Built<'_, Global>, wanted: &[u8]) -> bool {
    for remaining in 0..=788usize {
        let mut failing = SlowWriter::new(alloc, remaining, true);
        if !is_written(
            built,
            &mut failing,
            remaining,
            wanted,
            ErrorKind::StorageFull,
        ) {
            return false;
        }
        let mut full = SlowWriter::new(alloc, remaining, false);
        if !is_written(built, &mut full, remaining, wanted, ErrorKind::WriteZero) {
            return false;
        }
    }
    true
}

#[test]
fn writers_fail_at_each_byte(rt: HostRuntime) -> Result<(), Fail> {
    let rows = rows(rt.alloc(), &FILES[..1]);
    let wanted = one_image(rt.alloc())?;
    let built = build(rt.alloc(), rows.as_slice(), uid()?)?;
    assert!(rt; wanted.len() == 788);
    assert!(rt; each_byte_fails(rt.alloc(), &built, wanted.as_slice()));
    Ok(())
}
