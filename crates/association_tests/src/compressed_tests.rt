//! Stores in transfer syntaxes with encapsulated Pixel Data: rejected unless the settings accept
//! the transfer syntax, else filed bit for bit.

use crate::row::Row;
use dictionary::Transfer;
use dimse::status;
use engine::{ListSource, ListedInput, Report, Standing, run};
use fixtures::bytes::{after_first, joined, within};
use fixtures::config;
use fixtures::stores::{CT_SET, Cause, INSTANCE, request};
use negotiate::Config;
use part10::MemoryFiling;
use pdu::MemoryWire;
use std::alloc::{AllocError, Global};
use std::test::Fail;

/// JPEG Lossless, Non-Hierarchical, First-Order Prediction.
const JPEG_LOSSLESS: &[u8] = b"1.2.840.10008.1.2.4.70";

/// Encapsulated Uncompressed Explicit VR Little Endian.
const UNCOMPRESSED: &[u8] = b"1.2.840.10008.1.2.1.98";

/// Pixel Data of one frame: an empty Basic Offset Table, and a JPEG stream in two fragments with
/// bytes in its middle that look like a delimitation.
const FRAME: &[u8] = b"\xe0\x7f\x10\0OB\0\0\xff\xff\xff\xff\
    \xfe\xff\0\xe0\0\0\0\0\
    \xfe\xff\0\xe0\x0a\0\0\0\xff\xd8\xfe\xff\xdd\xe0\0\0\0\0\
    \xfe\xff\0\xe0\x04\0\0\0\x01\x02\xff\xd9\
    \xfe\xff\xdd\xe0\0\0\0\0";

/// Pixel Data of two frames of four words, each in its own fragment, after their Basic Offset
/// Table; the words of the first frame look like a delimitation.
const FRAMES: &[u8] = b"\xe0\x7f\x10\0OW\0\0\xff\xff\xff\xff\
    \xfe\xff\0\xe0\x08\0\0\0\0\0\0\0\x10\0\0\0\
    \xfe\xff\0\xe0\x08\0\0\0\xfe\xff\xdd\xe0\0\0\0\0\
    \xfe\xff\0\xe0\x08\0\0\0\x01\x02\x03\x04\x05\x06\x07\x08\
    \xfe\xff\xdd\xe0\0\0\0\0";

/// The tags of an item and of the end of a sequence, as in a reply.
const ITEM: &[u8] = b"\xfe\xff\0\xe0";

const END: &[u8] = b"\xfe\xff\xdd\xe0";

/// How many bytes are missing, and the cause in the reply: in the end, in the last fragment, in its
/// header, between two fragments, and in the Basic Offset Table.
const CUTS: [(usize, Cause<'static>); 6] = [
    (2, (END, TRUNCATED)),
    (8, (&[], TRUNCATED)),
    (9, (ITEM, TRUNCATED)),
    (18, (ITEM, TRUNCATED)),
    (24, (&[], TRUNCATED)),
    (44, (ITEM, TRUNCATED)),
];

const TRUNCATED: &[u8] = b"fault 20 Truncated";

/// Returns the settings of a receiver that also accepts these transfer syntaxes.
fn accepting(transfers: &[Transfer]) -> Config {
    if transfers.len() <= 24 {
        config().with_transfers(transfers)
    } else {
        config()
    }
}

/// Returns the test case of a store of this data set in JPEG Lossless.
fn row(alloc: Global, set: &[u8], status: u16) -> Result<Row, AllocError> {
    Row::of(alloc, &(JPEG_LOSSLESS, INSTANCE, set, status, None))
}

/// Runs this stream in memory, in two chunks. Returns the report, the wire and the filing.
fn outcome(
    alloc: Global,
    config: &Config,
    stream: &[u8],
    cut: usize,
) -> (Report, MemoryWire<Global>, MemoryFiling<Global>) {
    let (front, back) = stream.split_at_checked(cut).unwrap_or((stream, &[]));
    let inputs = [ListedInput::Piece(front), ListedInput::Piece(back)];
    let mut source = ListSource::new(&inputs);
    let mut wire = MemoryWire::new(alloc);
    let mut filing = MemoryFiling::new(alloc);
    let report = run::<65536, 1024, 256, 64, _, _, _>(
        &mut source,
        config,
        &mut wire,
        &mut filing,
        2,
    );
    (report, wire, filing)
}

/// Returns whether the test case has its expected outcome, at each cut in two, for a receiver that
/// accepts this transfer syntax and another.
fn arrives(alloc: Global, row: &Row, transfer: Transfer) -> bool {
    let stream = row.stream.as_slice();
    for cut in 0..stream.len() {
        let config = accepting(&[Transfer::RleLossless, transfer]);
        let (report, wire, filing) = outcome(alloc, &config, stream, cut);
        if report.standing != Standing::Open
            || after_first(wire.sent()) != row.answer.as_slice()
            || filing.files() != row.files.as_slice()
        {
            return false;
        }
    }
    true
}

#[test]
fn an_encapsulated_frame_is_filed_bit_for_bit(rt: HostRuntime) -> Result<(), Fail> {
    let set = joined(rt.alloc(), &[&CT_SET, FRAME])?;
    let row = row(rt.alloc(), set.as_slice(), status::SUCCESS)?;
    assert!(rt; row.files.len() == 1);
    assert!(rt; row.files.as_slice()[0].ends_with(set.as_slice()));
    assert!(rt; arrives(rt.alloc(), &row, Transfer::JpegLosslessSv1));
    Ok(())
}

#[test]
fn uncompressed_fragments_are_filed_bit_for_bit(rt: HostRuntime) -> Result<(), Fail> {
    let alloc = rt.alloc();
    let set = joined(alloc, &[&CT_SET, FRAMES])?;
    let whole = (
        UNCOMPRESSED,
        INSTANCE,
        set.as_slice(),
        status::SUCCESS,
        None,
    );
    let row = Row::of(alloc, &whole)?;
    assert!(rt; row.files.len() == 1);
    assert!(rt; row.files.as_slice()[0].ends_with(set.as_slice()));
    assert!(rt; arrives(alloc, &row, Transfer::EncapsulatedUncompressed));
    Ok(())
}

#[test]
fn a_cut_fragment_is_refused_with_its_fault(rt: HostRuntime) -> Result<(), Fail> {
    let alloc = rt.alloc();
    let set = joined(alloc, &[&CT_SET, FRAMES])?;
    for (missing, cause) in CUTS {
        let cut = within(set.as_slice(), 0, set.len().saturating_sub(missing));
        let store = (
            UNCOMPRESSED,
            INSTANCE,
            cut,
            status::CANNOT_UNDERSTAND,
            Some(cause),
        );
        let row = Row::of(alloc, &store)?;
        assert!(rt; row.files.is_empty());
        assert!(rt; arrives(alloc, &row, Transfer::EncapsulatedUncompressed));
    }
    Ok(())
}

/// Returns the result of the context in an A-ASSOCIATE-AC.
fn result_in(accept: &[u8]) -> &[u8] {
    within(accept, 105, 106)
}

#[test]
fn it_is_refused_where_it_is_not_accepted(rt: HostRuntime) -> Result<(), Fail> {
    let set = joined(rt.alloc(), &[&CT_SET, FRAME])?;
    let row = row(rt.alloc(), set.as_slice(), status::SUCCESS)?;
    let stream = row.stream.as_slice();
    let asked = request(rt.alloc(), JPEG_LOSSLESS)?.len();
    for transfers in [
        &[] as &[Transfer],
        &[Transfer::JpegLossless, Transfer::Htj2k],
    ] {
        let (_, wire, filing) = outcome(rt.alloc(), &accepting(transfers), stream, asked);
        assert!(rt; result_in(wire.sent()) == [4].as_slice());
        assert!(rt; filing.files().is_empty());
    }
    let config = accepting(&[Transfer::JpegLosslessSv1]);
    let (_, wire, _) = outcome(rt.alloc(), &config, stream, asked);
    assert!(rt; result_in(wire.sent()) == [0].as_slice());
    Ok(())
}
