//! Data sets as long as the limit of a receiver, and longer.

use crate::row::Row;
use dimse::status;
use element::AeTitle;
use engine::{ListSource, ListedInput, Report, Standing, run};
use fixtures::bytes::{after_first, joined};
use fixtures::stores::{CT_SET, EXPLICIT, INSTANCE};
use negotiate::Config;
use part10::MemoryFiling;
use pdu::MemoryWire;
use std::alloc::{AllocError, Global};

/// Returns the configuration of a receiver with a limit of 1,024 bytes for data sets.
fn config() -> Config {
    let ae = AeTitle(*b"DCMBOX          ");
    Config::new(ae, Config::DEFAULT_MAX_PDU, 1024)
}

/// Returns whether a test case has its expected outcome in two chunks, the first of `cut` bytes,
/// and the association stays open.
fn arrives_at(alloc: Global, row: &Row, cut: usize) -> bool {
    let stream = row.stream.as_slice();
    let (front, back) = stream.split_at_checked(cut).unwrap_or((stream, &[]));
    let inputs = [ListedInput::Piece(front), ListedInput::Piece(back)];
    let mut source = ListSource::new(&inputs);
    let mut wire = MemoryWire::new(alloc);
    let mut filing = MemoryFiling::new(alloc);
    let report = run::<65536, 1024, 256, 64, _, _, _>(
        &mut source,
        &config(),
        &mut wire,
        &mut filing,
        2,
    );
    let (standing, held) = (Standing::Open, 24);
    report == Report { standing, held }
        && after_first(wire.sent()) == row.answer.as_slice()
        && filing.files() == row.files.as_slice()
}

/// Returns whether a store of this data set gets a reply with this status, at each cut.
fn is_answered(alloc: Global, set: &[u8], status: u16) -> Result<bool, AllocError> {
    let row = Row::of(alloc, &(EXPLICIT, INSTANCE, set, status, None))?;
    for cut in 0..row.stream.len() {
        if !arrives_at(alloc, &row, cut) {
            return Ok(false);
        }
    }
    Ok(true)
}

/// The header of Pixel Data of 4,294,967,294 bytes, whose offset and length exceed the limit before
/// any byte of the value.
const ANNOUNCED: [u8; 12] = [
    0xe0, 0x7f, 0x10, 0, b'O', b'B', 0, 0, 0xfe, 0xff, 0xff, 0xff,
];

/// The headers of Pixel Data of 964 bytes, which end at byte 1,024, and of 966 bytes.
const LAST: [u8; 12] = [0xe0, 0x7f, 0x10, 0, b'O', b'W', 0, 0, 0xc4, 3, 0, 0];

const LONGER: [u8; 12] = [0xe0, 0x7f, 0x10, 0, b'O', b'W', 0, 0, 0xc6, 3, 0, 0];

#[test]
fn data_sets_of_the_greatest_length(rt: HostRuntime) -> Result<(), AllocError> {
    let values = [0u8; 966];
    let last = joined(rt.alloc(), &[&CT_SET, &LAST, &values[..964]])?;
    let longer = joined(rt.alloc(), &[&CT_SET, &LONGER, &values])?;
    assert!(rt; is_answered(rt.alloc(), last.as_slice(), status::SUCCESS)?);
    assert!(rt; is_answered(rt.alloc(), longer.as_slice(), status::OUT_OF_RESOURCES)?);
    assert!(rt; is_answered(rt.alloc(), &ANNOUNCED, status::OUT_OF_RESOURCES)?);
    Ok(())
}
