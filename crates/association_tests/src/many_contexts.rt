//! Requests with many presentation contexts, and the replies to them.

use crate::pieces::{Outcome, is_answered, is_answered_at_each};
use acceptor::State;
use fixtures::bytes::{back, front, joined, within};
use fixtures::echo::{ACCEPT, ECHO, REPLY, REQUEST, USER_ABORT};
use fixtures::{Step, holds_at_each, over_memory};
use part10::MemoryFiling;
use pdu::MemoryWire;
use std::alloc::{AllocError, Global};
use std::ops::Range;

/// Returns a request or a reply in which these contexts replace its only one, which ends at offset
/// `end`.
fn with_contexts(
    alloc: Global,
    pdu: &[u8],
    end: usize,
    contexts: &[u8],
) -> Result<Vec<u8>, AllocError> {
    let length = (93 + pdu.len().saturating_sub(end)).saturating_add(contexts.len());
    let head = match u32::try_from(length) {
        Ok(length) => length.to_be_bytes(),
        Err(_) => [0; 4],
    };
    joined(
        alloc,
        &[
            front(pdu, 2),
            &head,
            within(pdu, 6, 99),
            contexts,
            back(pdu, end),
        ],
    )
}

/// Returns 128 copies of a context, with all odd IDs.
fn of_each_id(alloc: Global, context: &[u8]) -> Result<Vec<u8>, AllocError> {
    let mut contexts = Vec::new(alloc);
    for index in 0..128u8 {
        contexts.extend_from_slice(front(context, 4))?;
        contexts.push(2 * index + 1)?;
        contexts.extend_from_slice(back(context, 5))?;
    }
    Ok(contexts)
}

/// Returns a request that proposes Verification in Implicit VR Little Endian 128 times.
fn request_of_128(alloc: Global) -> Result<Vec<u8>, AllocError> {
    let contexts = of_each_id(alloc, within(REQUEST, 99, 149))?;
    with_contexts(alloc, REQUEST, 149, contexts.as_slice())
}

/// Returns the A-ASSOCIATE-AC that accepts all 128 contexts.
fn answer_of_128(alloc: Global) -> Result<Vec<u8>, AllocError> {
    let contexts = of_each_id(alloc, within(ACCEPT, 99, 128))?;
    with_contexts(alloc, ACCEPT, 128, contexts.as_slice())
}

/// Returns whether the request of 128 contexts is accepted at each of these cuts; a cut past its
/// end means byte by byte.
fn are_128_answered(alloc: Global, cuts: Range<usize>) -> Result<bool, AllocError> {
    let request = request_of_128(alloc)?;
    let answer = answer_of_128(alloc)?;
    let outcome = Outcome {
        sent: answer.as_slice(),
        state: State::Sta6,
        held: 532,
    };
    Ok(
        (request.len(), answer.len()) == (6520, 3852)
            && is_answered_at_each(alloc, request.as_slice(), cuts, outcome),
    )
}

// A test may last a minute; all cuts in one test would exceed that where the build checks itself.

#[test]
fn a_request_of_128_contexts_cut_in_its_first_third(rt: HostRuntime) -> Result<(), AllocError> {
    assert!(rt; are_128_answered(rt.alloc(), 0..2200)?);
    Ok(())
}

#[test]
fn a_request_of_128_contexts_cut_in_its_second_third(rt: HostRuntime) -> Result<(), AllocError> {
    assert!(rt; are_128_answered(rt.alloc(), 2200..4400)?);
    Ok(())
}

#[test]
fn a_request_of_128_contexts_cut_in_its_last_third(rt: HostRuntime) -> Result<(), AllocError> {
    assert!(rt; are_128_answered(rt.alloc(), 4400..6522)?);
    Ok(())
}

/// Returns how many bytes are buffered after each of `count` bytes of a request: those of its head,
/// then those of its body, and `whole` at the end.
fn held_while(alloc: Global, count: usize, whole: usize) -> Result<Vec<usize>, AllocError> {
    let mut held = Vec::new(alloc);
    for index in 1..count {
        held.push(if index < 6 { index } else { index - 6 })?;
    }
    held.push(whole)?;
    Ok(held)
}

/// Returns whether a request received byte by byte buffers the expected numbers of bytes.
fn holds(alloc: Global, request: &[u8]) -> Result<bool, AllocError> {
    let held = held_while(alloc, request.len(), 532)?;
    let mut wire = MemoryWire::new(alloc);
    let mut filing = MemoryFiling::new(alloc);
    Ok(holds_at_each::<_, _, 64>(&mut wire, &mut filing, request, held.as_slice()))
}

/// Returns whether `count` bytes are sent in these steps, ending with `last`.
fn has_sent(alloc: Global, steps: &[Step], count: usize, last: &[u8]) -> bool {
    let tried = over_memory(alloc, steps);
    tried.wire.sent().len() == count && tried.wire.sent().ends_with(last)
}

/// Returns whether a C-ECHO-RQ gets its reply on the first and on the last context.
fn are_echoed(alloc: Global, request: &[u8]) -> bool {
    let steps = [
        Step::Piece(request),
        Step::Piece(ECHO),
        Step::Piece(front(ECHO, 10)),
        Step::Piece(&[255]),
        Step::Piece(back(ECHO, 11)),
    ];
    has_sent(alloc, &steps[..2], 3852 + 90, REPLY)
        && has_sent(alloc, &steps, 3852 + 2 * 90, back(REPLY, 11))
}

#[test]
fn a_request_of_128_contexts(rt: HostRuntime) -> Result<(), AllocError> {
    let request = request_of_128(rt.alloc())?;
    assert!(rt; holds(rt.alloc(), request.as_slice())?);
    assert!(rt; are_echoed(rt.alloc(), request.as_slice()));
    Ok(())
}

/// Returns the request of 128 contexts and one more with the first ID.
fn request_of_129(alloc: Global) -> Result<Vec<u8>, AllocError> {
    let first = within(REQUEST, 99, 149);
    let mut contexts = of_each_id(alloc, first)?;
    contexts.extend_from_slice(first)?;
    with_contexts(alloc, REQUEST, 149, contexts.as_slice())
}

/// Returns whether the request of 129 contexts is rejected at each of these cuts in two.
fn are_129_refused(alloc: Global, cuts: Range<usize>) -> Result<bool, AllocError> {
    let request = request_of_129(alloc)?;
    let outcome = Outcome {
        sent: USER_ABORT,
        state: State::Sta13,
        held: 0,
    };
    Ok(request.len() == 6570 && is_answered_at_each(alloc, request.as_slice(), cuts, outcome))
}

#[test]
fn a_request_of_129_contexts_cut_in_its_first_half(rt: HostRuntime) -> Result<(), AllocError> {
    assert!(rt; are_129_refused(rt.alloc(), 0..3286)?);
    Ok(())
}

#[test]
fn a_request_of_129_contexts_cut_in_its_last_half(rt: HostRuntime) -> Result<(), AllocError> {
    assert!(rt; are_129_refused(rt.alloc(), 3286..6572)?);
    Ok(())
}

/// CT image storage with JPEG Baseline only; with Explicit VR Big Endian only; with Implicit and
/// then Explicit VR Little Endian; and mammography, which is not known, with Explicit VR Little
/// Endian.
const CONTEXTS: &[u8] =
    b"\x20\0\0\x3b\x01\0\0\0\x30\0\0\x191.2.840.10008.5.1.4.1.1.2\x40\0\0\x161.2.840.10008.1.2.4.50\x20\0\0\x38\x03\0\0\0\x30\0\0\x191.2.840.10008.5.1.4.1.1.2\x40\0\0\x131.2.840.10008.1.2.2\x20\0\0\x4d\x05\0\0\0\x30\0\0\x191.2.840.10008.5.1.4.1.1.2\x40\0\0\x111.2.840.10008.1.2\x40\0\0\x131.2.840.10008.1.2.1\x20\0\0\x3a\x07\0\0\0\x30\0\0\x1b1.2.840.10008.5.1.4.1.1.1.2\x40\0\0\x131.2.840.10008.1.2.1";

/// The results: 4, 4, 0 with Explicit VR Little Endian, and 3.
const RESULTS: &[u8] =
    b"\x21\0\0\x19\x01\0\x04\0\x40\0\0\x111.2.840.10008.1.2\x21\0\0\x19\x03\0\x04\0\x40\0\0\x111.2.840.10008.1.2\x21\0\0\x1b\x05\0\0\0\x40\0\0\x131.2.840.10008.1.2.1\x21\0\0\x19\x07\0\x03\0\x40\0\0\x111.2.840.10008.1.2";

#[test]
fn contexts_that_are_not_accepted(rt: HostRuntime) -> Result<(), AllocError> {
    let request = with_contexts(rt.alloc(), REQUEST, 149, CONTEXTS)?;
    let answer = with_contexts(rt.alloc(), ACCEPT, 128, RESULTS)?;
    let outcome = Outcome {
        sent: answer.as_slice(),
        state: State::Sta6,
        held: 24,
    };
    assert!(rt; answer.len() == 258 && is_answered(rt.alloc(), request.as_slice(), outcome));
    Ok(())
}
