//! Directories that exceed their greatest size.
use crate::dicomdir_rows::{FILES, rows, uid};
use dicomdir::DirFault;
use dicomdir_writing::{Built, build_within};
use element::Tag;
use std::alloc::Global;
use std::test::Fail;

/// The size of the directory of the five files.
const SIZE: u32 = 1672;

/// Returns whether the directory is built if `most` is at least its size, and else is reported as
/// too large.
fn is_held_to(built: Result<Built<'_, Global>, DirFault>, most: u32) -> bool {
    let due = DirFault {
        number: 66,
        offset: 0,
        tag: Tag(0, 0),
    };
    match built {
        Ok(built) => SIZE <= most && built.records() == 11,
        Err(fault) => most < SIZE && fault == due,
    }
}

/// The directory is too large whichever record exceeds its greatest size.
#[test]
fn directories_that_are_too_large(rt: HostRuntime) -> Result<(), Fail> {
    let rows = rows(rt.alloc(), &FILES);
    for most in 0..=SIZE {
        let built = build_within(rt.alloc(), rows.as_slice(), uid()?, most);
        assert!(rt; is_held_to(built, most));
    }
    let built = build_within(rt.alloc(), rows.as_slice(), uid()?, u32::MAX);
    assert!(rt; is_held_to(built, u32::MAX));
    Ok(())
}
