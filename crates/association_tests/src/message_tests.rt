//! Requests and messages in chunks of any size: echoes, and what is rejected or left unfinished.

use crate::pieces::{Outcome, Row, are_answered, is_answered, is_answered_at_each, other};
use acceptor::State;
use fixtures::bytes::{back, front, joined, within};
use fixtures::echo::{ACCEPT, ECHO, RELEASE, RELEASED, REPLY, REQUEST, USER_ABORT};
use fixtures::{Step, over_memory};
use std::alloc::{AllocError, Global};

/// The A-ABORT of the service provider for an unexpected PDU and for an invalid parameter.
const UNEXPECTED: &[u8] = &[7, 0, 0, 0, 0, 4, 0, 0, 2, 2];

const INVALID: &[u8] = &[7, 0, 0, 0, 0, 4, 0, 0, 2, 6];

/// The offset of the message after the request.
const MESSAGE: usize = 170;

static REQUESTS: [Row; 6] = [
    // Another called title: `OTHER`.
    (
        &[REQUEST],
        &[(10, 26, b"OTHER           ")],
        &[&[3, 0, 0, 0, 0, 4, 0, 1, 1, 7]],
        State::Sta13,
        0,
    ),
    // A request above the limit, its head without the last byte, and one that fits.
    (
        &[&[1, 0, 0, 0, 0xff, 0xf5]],
        &[],
        &[&[3, 0, 0, 0, 0, 4, 0, 2, 3, 2]],
        State::Sta13,
        0,
    ),
    (&[&[1, 0, 0, 0, 0xff]], &[], &[], State::Sta2, 5),
    (
        &[&[1, 0, 0, 0, 0xff, 0xf4, 0, 1, 0, 0]],
        &[],
        &[],
        State::Sta2,
        4,
    ),
    // Bytes that are no PDU.
    (&[b"GET / "], &[], &[USER_ABORT], State::Sta13, 0),
    (&[b"GET /"], &[], &[], State::Sta2, 5),
];

static MESSAGES: [Row; 11] = [
    // The recorded echo.
    (
        &[REQUEST, ECHO, RELEASE],
        &[],
        &[ACCEPT, REPLY, RELEASED],
        State::Sta13,
        0,
    ),
    // A value of a context that is not accepted.
    (
        &[REQUEST, &[4, 0, 0, 0, 0, 10, 0, 0, 0, 6, 3, 3, 1, 2, 3, 4]],
        &[],
        &[ACCEPT, INVALID],
        State::Sta13,
        0,
    ),
    // Data above the maximum, their head without the last byte, and data that fit.
    (
        &[REQUEST, &[4, 0, 0, 0, 0x40, 1]],
        &[],
        &[ACCEPT, INVALID],
        State::Sta13,
        0,
    ),
    (
        &[REQUEST, &[4, 0, 0, 0, 0x40]],
        &[],
        &[ACCEPT],
        State::Sta6,
        29,
    ),
    (
        &[REQUEST, &[4, 0, 0, 0, 0x40, 0]],
        &[],
        &[ACCEPT],
        State::Sta6,
        24,
    ),
    // After the reply to the release, data are dropped, and a further request is aborted.
    (
        &[REQUEST, RELEASE, ECHO, &[1, 0, 0, 0, 0, 100]],
        &[],
        &[ACCEPT, RELEASED, UNEXPECTED],
        State::Sta13,
        0,
    ),
    (
        &[REQUEST, RELEASE, ECHO],
        &[],
        &[ACCEPT, RELEASED],
        State::Sta13,
        0,
    ),
    // A valid PDV before an invalid one in the same PDU.
    (
        &[REQUEST, ECHO, &[0, 0, 0, 1, 1, 3]],
        &[(MESSAGE + 5, MESSAGE + 6, &[80])],
        &[ACCEPT, REPLY, INVALID],
        State::Sta13,
        0,
    ),
    // Extra bytes after a PDV.
    (
        &[REQUEST, ECHO, &[0, 0, 0]],
        &[(MESSAGE + 5, MESSAGE + 6, &[77])],
        &[ACCEPT, REPLY, INVALID],
        State::Sta13,
        0,
    ),
    // An unknown command.
    (
        &[REQUEST, ECHO],
        &[(MESSAGE + 58, MESSAGE + 59, &[0x20])],
        &[ACCEPT, USER_ABORT],
        State::Sta13,
        0,
    ),
    // The echo's command in two fragments, each in a PDU of its own.
    (
        &[REQUEST, ECHO],
        &[
            (
                MESSAGE,
                MESSAGE + 12,
                &[4, 0, 0, 0, 0, 13, 0, 0, 0, 9, 1, 1],
            ),
            (
                MESSAGE + 19,
                MESSAGE + 19,
                &[4, 0, 0, 0, 0, 67, 0, 0, 0, 63, 1, 3],
            ),
        ],
        &[ACCEPT, REPLY],
        State::Sta6,
        24,
    ),
];

#[test]
fn requests_and_messages(rt: HostRuntime) -> Result<(), AllocError> {
    assert!(rt; other(rt.alloc(), &REQUESTS)?.is_none());
    assert!(rt; within(ECHO, 58, 59) == [0x30].as_slice());
    assert!(rt; other(rt.alloc(), &MESSAGES)?.is_none());
    Ok(())
}

/// Returns the head of a request above the limit, of 65,525 bytes, its body, and the head of
/// another request.
fn long_request(alloc: Global) -> Result<Vec<u8>, AllocError> {
    let head = [1, 0, 0, 0, 0, 100];
    let mut stream = Vec::from_slice(alloc, &[1, 0, 0, 0, 0xff, 0xf5])?;
    for _ in 0..10_920u16 {
        stream.extend_from_slice(&head)?;
    }
    stream.extend_from_slice(&head[..5])?;
    stream.extend_from_slice(&head)?;
    Ok(stream)
}

/// The request is rejected at its head and its body dropped, which looks like heads of further
/// requests; the request after it is aborted.
#[test]
fn a_request_above_the_room(rt: HostRuntime) -> Result<(), AllocError> {
    let stream = long_request(rt.alloc())?;
    let sent = joined(rt.alloc(), &[&[3, 0, 0, 0, 0, 4, 0, 2, 3, 2], UNEXPECTED])?;
    let outcome = Outcome {
        sent: sent.as_slice(),
        state: State::Sta13,
        held: 0,
    };
    assert!(rt; stream.len() == 6 + 65_525 + 6);
    for cuts in [0..9usize, 30_000..30_007, 65_524..65_539] {
        assert!(rt; is_answered_at_each(rt.alloc(), stream.as_slice(), cuts, outcome));
    }
    Ok(())
}

/// Returns whether closing the transport connection after the first `received` bytes of this stream
/// ends the association, after `sent` bytes were sent.
fn closes(alloc: Global, stream: &[u8], received: usize, sent: usize) -> bool {
    let steps = [Step::Piece(front(stream, received)), Step::Closed];
    let tried = over_memory(alloc, &steps);
    tried.shown.is_ended() && tried.wire.sent().len() == sent
}

/// Returns whether the first `received` bytes of the request and the echo leave `held` bytes buffered.
fn is_held(alloc: Global, stream: &[u8], received: usize, held: usize) -> bool {
    let has_answer = received >= MESSAGE;
    let outcome = Outcome {
        sent: if has_answer { ACCEPT } else { &[] },
        state: if has_answer { State::Sta6 } else { State::Sta2 },
        held,
    };
    is_answered(alloc, front(stream, received), outcome)
}

/// The connection is closed after each number of bytes; some numbers of buffered bytes are checked.
#[test]
fn the_recorded_echo(rt: HostRuntime) -> Result<(), AllocError> {
    let stream = joined(rt.alloc(), &[REQUEST, ECHO, RELEASE])?;
    for received in 0..261usize {
        let sent = match received {
            0..170 => 0,
            170..250 => 169,
            250..260 => 259,
            _ => 269,
        };
        assert!(rt; closes(rt.alloc(), stream.as_slice(), received, sent));
    }
    for (received, held) in [(5, 5), (6, 0), (100, 94), (170, 24), (173, 27), (192, 34)] {
        assert!(rt; is_held(rt.alloc(), stream.as_slice(), received, held));
    }
    Ok(())
}

/// Returns the reply to the echo in 39 fragments of two bytes, as for a peer with a maximum of 8.
fn reply_in_pairs(alloc: Global) -> Result<Vec<u8>, AllocError> {
    let mut reply = Vec::new(alloc);
    for (index, pair) in back(REPLY, 12).chunks(2).enumerate() {
        let control = if index == 38 { 3 } else { 1 };
        reply.extend_from_slice(&[4, 0, 0, 0, 0, 8, 0, 0, 0, 4, 1, control])?;
        reply.extend_from_slice(pair)?;
    }
    Ok(reply)
}

#[test]
fn a_peer_that_accepts_eight_bytes(rt: HostRuntime) -> Result<(), AllocError> {
    let reply = reply_in_pairs(rt.alloc())?;
    assert!(rt; reply.len() == 39 * 14);
    let parts = [front(REQUEST, 157), &[0, 0, 0, 8], back(REQUEST, 161), ECHO];
    assert!(rt;
        are_answered(
            rt.alloc(),
            &parts,
            &[ACCEPT, reply.as_slice()],
            State::Sta6,
            24
        )?
    );
    Ok(())
}
