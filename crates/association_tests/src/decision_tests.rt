//! The decision of an association on each part of a PDU: heads, bodies, heads of presentation data
//! values, fragments, and skipped bytes.

use decisions::{Decision, HeadFault, ValueEnd};
use dimse::{Detail, DimseFault, INSTANCE_MISMATCH, Unfinished};
use element::Tag;
use fixtures::bytes::joined;
use fixtures::echo::{ECHO, RELEASE, REQUEST};
use fixtures::stores::{CT_SET, EXPLICIT, INSTANCE, OTHER, request, whole_store};
use fixtures::{decides_at_each, decides_last};
use negotiate::Answer;
use part10::MemoryFiling;
use pdu::{MemoryWire, PduFault, PduHead, PdvHead};
use std::alloc::{AllocError, Global};

/// The parts of a stream, and the decision on each part of its PDUs.
type Decided = (&'static [&'static [u8]], &'static [Decision]);

/// The head of the recorded C-ECHO-RQ.
const ECHO_HEAD: PdvHead = PdvHead {
    length: 70,
    context: 1,
    command: true,
    last: true,
};

/// The P-DATA-TF of the recorded C-ECHO, with three more bytes.
const ECHO_AND_MORE: &[u8] = &[
    4, 0, 0, 0, 0, 77, 0, 0, 0, 70, 1, 3, 0, 0, 0, 0, 4, 0, 0, 0, 56, 0, 0, 0, 0, 0, 2, 0, 18, 0,
    0, 0, 49, 46, 50, 46, 56, 52, 48, 46, 49, 48, 48, 48, 56, 46, 49, 46, 49, 0, 0, 0, 0, 1, 2, 0,
    0, 0, 48, 0, 0, 0, 16, 1, 2, 0, 0, 0, 1, 0, 0, 0, 0, 8, 2, 0, 0, 0, 1, 1, 0, 0, 0,
];

/// The same P-DATA-TF with the Command Field of a C-FIND-RQ.
const FIND: &[u8] = &[
    4, 0, 0, 0, 0, 74, 0, 0, 0, 70, 1, 3, 0, 0, 0, 0, 4, 0, 0, 0, 56, 0, 0, 0, 0, 0, 2, 0, 18, 0,
    0, 0, 49, 46, 50, 46, 56, 52, 48, 46, 49, 48, 48, 48, 56, 46, 49, 46, 49, 0, 0, 0, 0, 1, 2, 0,
    0, 0, 32, 0, 0, 0, 16, 1, 2, 0, 0, 0, 1, 0, 0, 0, 0, 8, 2, 0, 0, 0, 1, 1,
];

/// An A-ABORT of the service user.
const ABORT: &[u8] = &[7, 0, 0, 0, 0, 4, 0, 0, 0, 0];

static ROWS: [Decided; 11] = [
    // The recorded echo.
    (
        &[REQUEST, ECHO, RELEASE],
        &[
            Decision::Nothing,
            Decision::RequestJudged(Answer::Accept),
            Decision::Nothing,
            Decision::Fragment(ECHO_HEAD),
            Decision::Replied(0, None),
            Decision::Nothing,
            Decision::Released,
        ],
    ),
    // A request above the limit, whose body is skipped; an invalid request; bytes that are no PDU.
    (
        &[&[1, 0, 0, 0, 0xff, 0xf5]],
        &[Decision::RequestTooLong(0xfff5)],
    ),
    (
        &[&[1, 0, 0, 0, 0, 68], &[0; 68]],
        &[
            Decision::Nothing,
            Decision::RequestInvalid(PduFault::Missing),
        ],
    ),
    (
        &[b"GET / "],
        &[Decision::PduRefused(
            PduHead {
                kind: 0x47,
                length: 0x54202f20,
            },
            HeadFault::Unrecognized,
        )],
    ),
    // A value of a context that is not accepted: the rest of its PDU is skipped.
    (
        &[REQUEST, &[4, 0, 0, 0, 0, 10, 0, 0, 0, 6, 3, 3, 1, 2, 3, 4]],
        &[
            Decision::Nothing,
            Decision::RequestJudged(Answer::Accept),
            Decision::Nothing,
            Decision::ContextRefused(PdvHead {
                length: 6,
                context: 3,
                command: true,
                last: true,
            }),
            Decision::ContextRefused(PdvHead {
                length: 6,
                context: 3,
                command: true,
                last: true,
            }),
        ],
    ),
    // A fragment of a data set where a command is expected.
    (
        &[REQUEST, &[4, 0, 0, 0, 0, 6, 0, 0, 0, 2, 1, 2]],
        &[
            Decision::Nothing,
            Decision::RequestJudged(Answer::Accept),
            Decision::Nothing,
            Decision::FragmentRefused(
                PdvHead {
                    length: 2,
                    context: 1,
                    command: false,
                    last: true,
                },
                DimseFault::WrongKind,
                Unfinished::Nothing,
            ),
        ],
    ),
    // The head of a value whose length is below 2.
    (
        &[REQUEST, &[4, 0, 0, 0, 0, 6, 0, 0, 0, 1, 1, 3]],
        &[
            Decision::Nothing,
            Decision::RequestJudged(Answer::Accept),
            Decision::Nothing,
            Decision::BadPdv,
        ],
    ),
    // Bytes after a command that gets a reply.
    (
        &[REQUEST, ECHO_AND_MORE],
        &[
            Decision::Nothing,
            Decision::RequestJudged(Answer::Accept),
            Decision::Nothing,
            Decision::Fragment(ECHO_HEAD),
            Decision::Leftover(ValueEnd::Replied(0, None)),
            Decision::Leftover(ValueEnd::Replied(0, None)),
        ],
    ),
    // A command other than C-ECHO-RQ and C-STORE-RQ, by its Command Field.
    (
        &[REQUEST, FIND],
        &[
            Decision::Nothing,
            Decision::RequestJudged(Answer::Accept),
            Decision::Nothing,
            Decision::Fragment(ECHO_HEAD),
            Decision::CommandRefused(DimseFault::UnknownField, Some(0x20)),
        ],
    ),
    // The peer aborts.
    (
        &[REQUEST, ABORT],
        &[
            Decision::Nothing,
            Decision::RequestJudged(Answer::Accept),
            Decision::Nothing,
            Decision::Aborted,
        ],
    ),
    // Bytes after the A-ABORT cause no decision.
    (
        &[REQUEST, ABORT, &[4, 0]],
        &[
            Decision::Nothing,
            Decision::RequestJudged(Answer::Accept),
            Decision::Nothing,
            Decision::Aborted,
            Decision::Aborted,
            Decision::Aborted,
        ],
    ),
];

/// Returns whether a stream in memory causes these decisions.
fn is_decided(alloc: Global, stream: &[u8], decisions: &[Decision]) -> bool {
    let mut wire = MemoryWire::new(alloc);
    let mut filing = MemoryFiling::new(alloc);
    decides_at_each::<MemoryWire<Global>, MemoryFiling<Global>, 64>(
        &mut wire,
        &mut filing,
        stream,
        decisions,
    )
}

/// Returns the index of the first test case with other decisions, or `None`.
fn other(alloc: Global, rows: &[Decided]) -> Result<Option<usize>, AllocError> {
    for (index, (parts, decisions)) in rows.iter().enumerate() {
        let stream = joined(alloc, parts)?;
        if !is_decided(alloc, stream.as_slice(), decisions) {
            return Ok(Some(index));
        }
    }
    Ok(None)
}

/// The heads of the command of a store and of its data set.
const STORE_HEAD: PdvHead = PdvHead {
    length: 102,
    context: 1,
    command: true,
    last: true,
};

const SET_HEAD: PdvHead = PdvHead {
    length: 50,
    context: 1,
    command: false,
    last: true,
};

/// The decisions on a store whose data set has the same SOP Instance UID, and on one whose data set
/// has another.
static STORED: [Decision; 8] = [
    Decision::Nothing,
    Decision::RequestJudged(Answer::Accept),
    Decision::Nothing,
    Decision::Fragment(STORE_HEAD),
    Decision::DataDue,
    Decision::Nothing,
    Decision::Fragment(SET_HEAD),
    Decision::Replied(0, None),
];

static MISMATCHED: [Decision; 8] = [
    Decision::Nothing,
    Decision::RequestJudged(Answer::Accept),
    Decision::Nothing,
    Decision::Fragment(STORE_HEAD),
    Decision::DataDue,
    Decision::Nothing,
    Decision::Fragment(SET_HEAD),
    Decision::Replied(
        0xa900,
        Some(Detail {
            number: INSTANCE_MISMATCH,
            tag: Tag(0x0008, 0x0018),
        }),
    ),
];

/// Returns whether a store of a CT image with this SOP Instance UID causes these decisions.
fn store_is_decided(
    alloc: Global,
    instance: &[u8; 6],
    decisions: &[Decision],
) -> Result<bool, AllocError> {
    let asked = request(alloc, EXPLICIT)?;
    let stored = whole_store(alloc, instance, &CT_SET)?;
    let stream = joined(alloc, &[asked.as_slice(), stored.as_slice()])?;
    Ok(is_decided(alloc, stream.as_slice(), decisions))
}

#[test]
fn each_decision(rt: HostRuntime) -> Result<(), AllocError> {
    assert!(rt; other(rt.alloc(), &ROWS)?.is_none());
    Ok(())
}

#[test]
fn nothing_is_decided_after_the_end(rt: HostRuntime) -> Result<(), AllocError> {
    let alloc = rt.alloc();
    let stream = joined(alloc, &[REQUEST, ABORT, b"GET / ", ECHO])?;
    let mut wire = MemoryWire::new(alloc);
    let mut filing = MemoryFiling::new(alloc);
    assert!(rt;
        decides_last::<MemoryWire<Global>, MemoryFiling<Global>, 64>(
            &mut wire,
            &mut filing,
            stream.as_slice(),
            Decision::Aborted,
        )
    );
    Ok(())
}

#[test]
fn decisions_on_stores(rt: HostRuntime) -> Result<(), AllocError> {
    assert!(rt; store_is_decided(rt.alloc(), INSTANCE, &STORED)?);
    assert!(rt; store_is_decided(rt.alloc(), OTHER, &MISMATCHED)?);
    Ok(())
}
