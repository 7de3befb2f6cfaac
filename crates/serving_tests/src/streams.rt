//! What the peers of tests send.

use fixtures::bytes::{front, joined};
use fixtures::echo;
use fixtures::stores::{CT_SET, EXPLICIT, IMPLICIT, INSTANCE, OTHER, request, whole_store};
use std::alloc::{AllocError, Global};

/// What a peer sends.
#[derive(Clone, Copy, Debug, PartialEq, Eq)]
pub enum Traffic {
    /// The recorded echo.
    Echo,
    /// This many echoes, and no release.
    Echoes(usize),
    /// Two stores, the second with another SOP Instance UID in its data set, and a release.
    Stores,
    /// The first bytes of `Stores`, this many; then the connection is closed.
    Cut(usize),
    /// An image whose data set is not valid in its transfer syntax.
    Fault,
    /// Bytes that are no PDU.
    Words,
}

impl Traffic {
    /// Returns the kind with this number, in rotation.
    pub fn of(number: usize) -> Traffic {
        match number.checked_rem(7).unwrap_or(0) {
            0 => Traffic::Echo,
            1 => Traffic::Stores,
            2 => Traffic::Echoes(20),
            3 => Traffic::Cut(500),
            4 => Traffic::Fault,
            5 => Traffic::Cut(100),
            _ => Traffic::Words,
        }
    }
}

fn stores(alloc: Global, syntax: &[u8]) -> Result<Vec<u8>, AllocError> {
    let request = request(alloc, syntax)?;
    let first = whole_store(alloc, INSTANCE, &CT_SET)?;
    let second = whole_store(alloc, OTHER, &CT_SET)?;
    joined(
        alloc,
        &[
            request.as_slice(),
            first.as_slice(),
            second.as_slice(),
            echo::RELEASE,
        ],
    )
}

fn echoes(alloc: Global, count: usize) -> Result<Vec<u8>, AllocError> {
    let mut stream = Vec::from_slice(alloc, echo::REQUEST)?;
    for _ in 0..count {
        stream.extend_from_slice(echo::ECHO)?;
    }
    Ok(stream)
}

/// Returns the stream of a peer of this kind.
pub fn stream_of(alloc: Global, kind: Traffic) -> Result<Vec<u8>, AllocError> {
    match kind {
        Traffic::Echo => joined(alloc, &[echo::REQUEST, echo::ECHO, echo::RELEASE]),
        Traffic::Echoes(count) => echoes(alloc, count),
        Traffic::Stores => stores(alloc, EXPLICIT),
        Traffic::Cut(count) => {
            let all = stores(alloc, EXPLICIT)?;
            Vec::from_slice(alloc, front(all.as_slice(), count))
        }
        Traffic::Fault => stores(alloc, IMPLICIT),
        Traffic::Words => Vec::from_slice(alloc, b"GET / HTTP/1.0\r\n\r\n"),
    }
}
