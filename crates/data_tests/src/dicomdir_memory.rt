//! Memory is refused to each public call of `dicomdir` and `dicomdir_writing` that allocates, at
//! each allocation in turn.
use crate::dicomdir_rows::{FILES, rows};
use crate::files::{Record, has, two_images};
use crate::images::{id, image, is_described, is_image};
use dicomdir::{DirFault, check, kept_of};
use dicomdir_writing::{Skip, build, build_within, described_row_of, rows_of};
use dictionary::Transfer;
use element::{Syntax, Tag, Uid};
use fixtures::refusing::Refusing;
use std::alloc::Global;
use std::test::Fail;

/// A call that allocates.
#[derive(Clone, Copy, Debug, PartialEq, Eq)]
enum Call {
    RowsOf,
    DescribedRowOf,
    Build,
    BuildTooLarge,
    Check,
    KeptOf,
}

/// The outcome of a call.
#[derive(Clone, Copy, PartialEq, Eq)]
enum Ending {
    /// The call returns the value that it must return with enough memory.
    Value,
    /// The call reports that memory ran out.
    OutOfMemory,
    /// The call returns anything else.
    Other,
}

/// The inputs of the calls.
#[derive(Clone, Copy)]
struct Given<'a> {
    /// The file of an image.
    image: &'a [u8],
    /// The directory of two images.
    directory: &'a [u8],
}

fn value_if(is_due: bool) -> Ending {
    if is_due { Ending::Value } else { Ending::Other }
}

fn received_of_fault(fault: DirFault) -> Ending {
    let due = DirFault {
        number: 67,
        offset: 0,
        tag: Tag(0, 0),
    };
    if fault == due {
        Ending::OutOfMemory
    } else {
        Ending::Other
    }
}

fn received_of_rows_of(alloc: &Refusing<Global>, given: &Given) -> Ending {
    let mut rest = given.image;
    let Ok(id) = id() else {
        return Ending::Other;
    };
    match rows_of(alloc, &mut rest, &id, &[]) {
        Ok(row) => value_if(is_image(&row, Transfer::Explicit)),
        Err(Skip::OutOfMemory) => Ending::OutOfMemory,
        Err(_) => Ending::Other,
    }
}

fn received_of_described_row_of(alloc: &Refusing<Global>, given: &Given) -> Ending {
    let mut first = given.image;
    let mut again = given.image;
    let Ok(id) = id() else {
        return Ending::Other;
    };
    match described_row_of(alloc, &mut first, &mut again, &id, &[]) {
        Ok(row) => value_if(is_described(&row, Transfer::Explicit, Some(b"AXIAL "))),
        Err(Skip::OutOfMemory) => Ending::OutOfMemory,
        Err(_) => Ending::Other,
    }
}

fn received_of_build<'a>(alloc: &'a Refusing<Global>, free: &'a Refusing<Global>) -> Ending {
    let rows = rows(free, &FILES);
    let Some(uid) = Uid::read(b"2.25.1") else {
        return Ending::Other;
    };
    match build(alloc, rows.as_slice(), uid) {
        Ok(built) => value_if(
            rows.len() == 5 && built.records() == 11 && built.duplicates() == [3].as_slice(),
        ),
        Err(fault) => received_of_fault(fault),
    }
}

/// The directory of the files is one byte too large, which is reported with enough memory.
fn received_of_build_too_large<'a>(
    alloc: &'a Refusing<Global>,
    free: &'a Refusing<Global>,
) -> Ending {
    let rows = rows(free, &FILES);
    let Some(uid) = Uid::read(b"2.25.1") else {
        return Ending::Other;
    };
    match build_within(alloc, rows.as_slice(), uid, 1671) {
        Ok(_) => Ending::Other,
        Err(fault) if fault.number == DirFault::TOO_LARGE => Ending::Value,
        Err(fault) => received_of_fault(fault),
    }
}

const TWO_IMAGES: [Record<'static>; 5] = [
    (320, 1, b"PATIENT"),
    (404, 2, b"STUDY"),
    (534, 3, b"SERIES"),
    (626, 4, b"IMAGE"),
    (788, 4, b"IMAGE"),
];

fn received_of_check(alloc: &Refusing<Global>, given: &Given) -> Ending {
    match check(alloc, given.directory) {
        Ok(tree) => value_if(has(&tree, &TWO_IMAGES)),
        Err(fault) => received_of_fault(fault),
    }
}

fn received_of_kept_of<'a>(
    alloc: &'a Refusing<Global>,
    free: &'a Refusing<Global>,
    given: &Given,
) -> Ending {
    let Ok(tree) = check(free, given.directory) else {
        return Ending::Other;
    };
    match kept_of(alloc, &tree) {
        Ok(kept) => value_if(kept.len() == 2),
        Err(fault) => received_of_fault(fault),
    }
}

/// Makes the call over an allocator. Its inputs are allocated by one that refuses nothing.
fn received_of<'a>(
    call: Call,
    alloc: &'a Refusing<Global>,
    free: &'a Refusing<Global>,
    given: &Given,
) -> Ending {
    match call {
        Call::RowsOf => received_of_rows_of(alloc, given),
        Call::DescribedRowOf => received_of_described_row_of(alloc, given),
        Call::Build => received_of_build(alloc, free),
        Call::BuildTooLarge => received_of_build_too_large(alloc, free),
        Call::Check => received_of_check(alloc, given),
        Call::KeptOf => received_of_kept_of(alloc, free, given),
    }
}

/// Refuses each allocation in turn, until a run meets no refusal. Returns how many runs reported
/// that memory ran out, or `None` if a run did not or the last run has a wrong result.
fn count_refusals(alloc: Global, call: Call, given: &Given) -> Option<u64> {
    for passed in 0..1000u64 {
        let refusing = Refusing::new(alloc, passed);
        let free = Refusing::new(alloc, u64::MAX);
        let received = received_of(call, &refusing, &free, given);
        let due = if refusing.has_refused() {
            Ending::OutOfMemory
        } else {
            Ending::Value
        };
        if received != due {
            return None;
        }
        if due == Ending::Value {
            return Some(passed);
        }
    }
    None
}

/// Each call reports that memory ran out, whichever allocation is refused. A row has twelve keys
/// that are not empty; a build allocates a UID and an entry in each list for each row; a check
/// allocates a list of records, a list of reached records, and the tree.
#[test]
fn each_allocation_is_refused(rt: HostRuntime) -> Result<(), Fail> {
    let image = image(rt.alloc(), Syntax::Explicit)?;
    let directory = two_images(rt.alloc())?;
    let given = Given {
        image: image.as_slice(),
        directory: directory.as_slice(),
    };
    for (call, least) in [
        (Call::RowsOf, 12u64),
        (Call::DescribedRowOf, 13),
        (Call::Build, 30),
        (Call::BuildTooLarge, 30),
        (Call::Check, 3),
        (Call::KeptOf, 1),
    ] {
        assert!(rt; least <= count_refusals(rt.alloc(), call, &given).unwrap_or(0));
    }
    Ok(())
}
