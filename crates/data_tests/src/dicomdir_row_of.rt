//! Rows of a compressed file, where only some compressed transfer syntaxes are accepted.
use crate::images::{compressed, id, is_image};
use dicomdir_writing::{Skip, rows_of};
use dictionary::Transfer;
use std::test::Fail;

/// Returns whether the row of a compressed file is the image's if these transfer syntaxes are also
/// accepted, or why there is no row.
fn row_in(rt: HostRuntime, file: &[u8], additional: &[Transfer]) -> Result<bool, Skip> {
    let mut rest = file;
    let row = rows_of(rt.alloc(), &mut rest, &id()?, additional)?;
    Ok(is_image(&row, Transfer::JpegLossless) && rest.is_empty())
}

/// A compressed file has its row if its transfer syntax is among those accepted.
#[test]
fn compressed_files(rt: HostRuntime) -> Result<(), Fail> {
    let file = compressed(rt.alloc(), Transfer::JpegLossless)?;
    let whole = file.as_slice();
    let two = [Transfer::RleLossless, Transfer::JpegLossless];
    assert!(rt; row_in(rt, whole, two.as_slice()) == Ok(true));
    assert!(rt; row_in(rt, whole, &two[..1]) == Err(Skip::Fault(53)));
    Ok(())
}
