//! Rows with Series Description, by failing readers.
use crate::images::{SERIES_DESCRIPTION, changed, id, image};
use dicomdir_writing::{Skip, described_row_of};
use element::Syntax;
use fixtures::readers::{FailsWhen, SlowReader};
use std::test::Fail;

/// The second reader is used only if the description is too long; a failed read of it is fault 54.
#[test]
fn the_file_is_read_again_where_a_value_is_too_long(rt: HostRuntime) -> Result<(), Fail> {
    let long = changed(
        rt.alloc(),
        Syntax::Explicit,
        SERIES_DESCRIPTION,
        &[b'1'; 300],
    )?;
    let short = image(rt.alloc(), Syntax::Explicit)?;
    for (file, wanted) in [(&short, None), (&long, Some(Skip::Fault(54)))] {
        let mut first = SlowReader::new(file.as_slice(), 4096, FailsWhen::Never);
        let mut again = SlowReader::new(file.as_slice(), 4096, FailsWhen::AtByte(0));
        let row = described_row_of(rt.alloc(), &mut first, &mut again, &id()?, &[]);
        assert!(rt; row.err() == wanted);
    }
    Ok(())
}
