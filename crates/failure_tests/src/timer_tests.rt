//! The state that a source is shown at each turn.

use crate::sources::{Silent, Witness};
use acceptor::State;
use engine::{ListedInput, Report, Standing, run};
use fixtures::bytes::joined;
use fixtures::config;
use fixtures::echo::{ACCEPT, ECHO, RELEASE, RELEASED, REQUEST, USER_ABORT};
use part10::MemoryFiling;
use pdu::MemoryWire;
use std::alloc::{AllocError, Global};

const ENDED: Report = Report {
    standing: Standing::Ended,
    held: 0,
};

#[test]
fn the_source_is_shown_the_state(rt: HostRuntime) {
    let inputs = [
        ListedInput::Piece(REQUEST),
        ListedInput::Piece(ECHO),
        ListedInput::Piece(RELEASE),
        ListedInput::Expired,
        ListedInput::Piece(REQUEST),
    ];
    let mut source = Witness::new(&inputs);
    let mut wire = MemoryWire::new(rt.alloc());
    let mut filing = MemoryFiling::new(rt.alloc());
    let report = run::<65536, 1024, 256, 64, _, _, _>(
        &mut source,
        &config(),
        &mut wire,
        &mut filing,
        9,
    );
    assert!(rt; report == ENDED && source.at == 4);
    let states = [
        Some(State::Sta2),
        Some(State::Sta6),
        Some(State::Sta6),
        Some(State::Sta13),
    ];
    assert!(rt; source.states.as_slice() == states.as_slice());
}

/// Returns whether a peer that falls silent after these chunks gets these answers, and the
/// association ends.
fn ends_in_silence(alloc: Global, pieces: &[&[u8]], answers: &[&[u8]]) -> Result<bool, AllocError> {
    let sent = joined(alloc, answers)?;
    let mut source = Silent::new(pieces);
    let mut wire = MemoryWire::new(alloc);
    let mut filing = MemoryFiling::new(alloc);
    let report = run::<65536, 1024, 256, 64, _, _, _>(
        &mut source,
        &config(),
        &mut wire,
        &mut filing,
        9,
    );
    Ok(report == ENDED && wire.sent() == sent.as_slice())
}

/// The chunks of a peer that then falls silent, and the answers. The expired timer ends an
/// association without a request, or one that is over. An established one is aborted by the local
/// user, and ends when the timer that the abort starts expires.
static SILENCES: [(&[&[u8]], &[&[u8]]); 4] = [
    (&[], &[]),
    (&[REQUEST, RELEASE], &[ACCEPT, RELEASED]),
    (&[REQUEST], &[ACCEPT, USER_ABORT]),
    (
        &[REQUEST, RELEASE, ECHO, &[1, 0, 0, 0, 0, 100]],
        &[ACCEPT, RELEASED, &[7, 0, 0, 0, 0, 4, 0, 0, 2, 2]],
    ),
];

#[test]
fn a_peer_that_falls_silent(rt: HostRuntime) -> Result<(), AllocError> {
    for (pieces, answers) in &SILENCES {
        assert!(rt; ends_in_silence(rt.alloc(), pieces, answers)?);
    }
    Ok(())
}
