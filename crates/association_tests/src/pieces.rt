//! Feeds a stream in chunks: in one chunk, at each cut in two, and byte by byte.

use acceptor::State;
use fixtures::bytes::{back, joined, within};
use fixtures::{OverMemory, Step, over_memory};
use std::alloc::{AllocError, Global};
use std::ops::Range;

/// The expected outcome of a stream: the bytes sent, the state, and the number of bytes buffered.
#[derive(Clone, Copy)]
pub(crate) struct Outcome<'a> {
    pub(crate) sent: &'a [u8],
    pub(crate) state: State,
    pub(crate) held: usize,
}

/// A test case: the parts of a stream; replacements for the bytes between two offsets; the parts of
/// what is sent; the state; and how many bytes are buffered.
pub(crate) type Row = (
    &'static [&'static [u8]],
    &'static [(usize, usize, &'static [u8])],
    &'static [&'static [u8]],
    State,
    usize,
);

fn shows(tried: &OverMemory, outcome: Outcome) -> bool {
    tried.wire.sent() == outcome.sent
        && !tried.wire.failed()
        && tried.filing.files().is_empty()
        && tried.shown.state == outcome.state
        && tried.shown.held == outcome.held
}

/// Returns whether the bytes have this outcome in two chunks, the first of `cut` bytes; byte by
/// byte if there are fewer. If the state is Sta13, the ARTIM timer must run, and its expiry must
/// send nothing and end the association.
fn is_answered_at(alloc: Global, bytes: &[u8], cut: usize, outcome: Outcome) -> bool {
    let tried = over_memory(alloc, &[Step::Cut(bytes, cut)]);
    if !shows(&tried, outcome) {
        return false;
    }
    if outcome.state != State::Sta13 {
        return true;
    }
    let expired = over_memory(alloc, &[Step::Cut(bytes, cut), Step::Expired]);
    tried.shown.artim && expired.shown.is_ended() && expired.wire.sent() == outcome.sent
}

/// Returns whether the bytes have this outcome at each of these cuts.
pub(crate) fn is_answered_at_each(
    alloc: Global,
    bytes: &[u8],
    cuts: Range<usize>,
    outcome: Outcome,
) -> bool {
    for cut in cuts {
        if !is_answered_at(alloc, bytes, cut, outcome) {
            return false;
        }
    }
    true
}

/// Returns whether the bytes have this outcome in one chunk, at each cut in two, and byte by byte.
pub(crate) fn is_answered(alloc: Global, bytes: &[u8], outcome: Outcome) -> bool {
    is_answered_at_each(alloc, bytes, 0..bytes.len() + 2, outcome)
}

/// Returns whether a stream of these parts gets these answers and this outcome as in `is_answered`.
pub(crate) fn are_answered(
    alloc: Global,
    parts: &[&[u8]],
    answers: &[&[u8]],
    state: State,
    held: usize,
) -> Result<bool, AllocError> {
    let bytes = joined(alloc, parts)?;
    let sent = joined(alloc, answers)?;
    let outcome = Outcome {
        sent: sent.as_slice(),
        state,
        held,
    };
    Ok(is_answered(alloc, bytes.as_slice(), outcome))
}

/// Returns the stream of a test case.
fn stream(
    alloc: Global,
    parts: &[&[u8]],
    edits: &[(usize, usize, &[u8])],
) -> Result<Vec<u8>, AllocError> {
    let whole = joined(alloc, parts)?;
    let mut bytes = Vec::new(alloc);
    let mut at = 0;
    for (from, to, put) in edits {
        bytes.extend_from_slice(within(whole.as_slice(), at, *from))?;
        bytes.extend_from_slice(put)?;
        at = *to;
    }
    bytes.extend_from_slice(back(whole.as_slice(), at))?;
    Ok(bytes)
}

/// Returns the index of the first test case with another outcome, or `None`.
pub(crate) fn other(alloc: Global, rows: &[Row]) -> Result<Option<usize>, AllocError> {
    for (index, (parts, edits, answers, state, held)) in rows.iter().enumerate() {
        let bytes = stream(alloc, parts, edits)?;
        if !are_answered(alloc, &[bytes.as_slice()], answers, *state, *held)? {
            return Ok(Some(index));
        }
    }
    Ok(None)
}
