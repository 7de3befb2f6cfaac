//! For contracts: the traffic of a socket.
//!
//! The traces are generic in the type `S` of the socket: only a `TracedStream<S>` becomes traces of
//! type `S`. A function that is generic in `S` and has one socket can therefore return no traces
//! but that socket's.
ghost use Rattle.std.specs.Prelude.{◌≡◌};

use element::count::Count;
use element::trace::Trace;
use element::traced_stream::TracedStream;
use std::marker::PhantomData;

/// For contracts: the bytes of one direction of a socket of type `S`. It is made of a traced socket
/// only.
#[derive(Drop)]
pub struct SocketTrace<S> {
    trace: Trace,
    /// How often the socket stopped in this direction since its last byte: reached the end of the
    /// stream when read, or accepted nothing when written.
    stops: Count,
    socket: PhantomData<S>,
}

/// For contracts: the bytes of both directions of one socket of type `S`. It is made of a traced
/// socket only.
#[derive(Drop)]
pub(crate) struct SocketTraces<S> {
    /// The bytes that were read.
    pub(crate) read: SocketTrace<S>,
    /// The bytes that were written.
    pub(crate) sent: SocketTrace<S>,
}

impl<S: Drop> SocketTraces<S> {
    /// Drops a traced socket. Returns its traces, with the number of its ends and of its refusals.
    pub(crate) fn of(socket: TracedStream<S>, ends: Count, refusals: Count) -> SocketTraces<S>
        ensures read { result.read.trace ≡ socket.read }
        ensures ends { result.read.stops ≡ ends }
        ensures sent { result.sent.trace ≡ socket.written }
        ensures refusals { result.sent.stops ≡ refusals }
    {
        let (read, written) = socket.into_traces();
        SocketTraces {
            read: SocketTrace {
                trace: read,
                stops: ends,
                socket: PhantomData,
            },
            sent: SocketTrace {
                trace: written,
                stops: refusals,
                socket: PhantomData,
            },
        }
    }
}
