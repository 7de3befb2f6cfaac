//! The recorded echo over a list of inputs, and an association that is driven by hand.

use acceptor::State;
use engine::{ListSource, ListedInput, Report, Standing, run};
use fixtures::bytes::joined;
use fixtures::echo::{ACCEPT, ECHO, RELEASE, RELEASED, REPLY, REQUEST, USER_ABORT};
use fixtures::{Step, config, over_memory};
use part10::MemoryFiling;
use pdu::MemoryWire;
use std::alloc::{AllocError, Global};

#[test]
fn the_recorded_echo_over_a_list(rt: HostRuntime) -> Result<(), AllocError> {
    let inputs = [
        ListedInput::Piece(REQUEST),
        ListedInput::Piece(ECHO),
        ListedInput::Piece(RELEASE),
        ListedInput::Closed,
    ];
    let mut source = ListSource::new(&inputs);
    let mut wire = MemoryWire::new(rt.alloc());
    let mut filing = MemoryFiling::new(rt.alloc());
    let (held, standing) = (0, Standing::Ended);
    let report = run::<65536, 1024, 256, 64, _, _, _>(
        &mut source,
        &config(),
        &mut wire,
        &mut filing,
        9,
    );
    assert!(rt; report == Report { standing, held } && filing.files().is_empty());
    let expected = joined(rt.alloc(), &[ACCEPT, REPLY, RELEASED])?;
    assert!(rt; expected.len() == 269 && wire.sent() == expected.as_slice());
    Ok(())
}

/// Returns whether the first `count` of four inputs (a request, a local abort, the expiry of the
/// timer, and an echo) end in this state, with only the A-ASSOCIATE-AC and the A-ABORT sent.
fn is_aborted(alloc: Global, count: usize, state: State) -> bool {
    let steps = [
        Step::Piece(REQUEST),
        Step::LocalAbort,
        Step::Expired,
        Step::Piece(ECHO),
    ];
    let tried = over_memory(alloc, steps.get(..count).unwrap_or(&[]));
    let sent = tried.wire.sent();
    sent.len() == ACCEPT.len() + USER_ABORT.len()
        && sent.ends_with(USER_ABORT)
        && tried.shown.state == state
        && tried.shown.is_ended() == (state == State::Sta1)
}

#[test]
fn a_local_abort(rt: HostRuntime) {
    for (count, state) in [(2, State::Sta13), (3, State::Sta1), (4, State::Sta1)] {
        assert!(rt; is_aborted(rt.alloc(), count, state));
    }
}
