//! The phases of an association, and the data of each.
ghost use Rattle.std.specs.Prelude.{◌≡◌, ◌<◌, ◌≤◌, ◌+◌, ◌*◌, length};
ghost use Rattle.engine.specs.StoredData.{held_in, stored_of};

use crate::stores::Storing;
use acceptor::State;
use arrayvec::ArrayVec;
use dimse::Join;
use negotiate::{Config, Context, ContextRow, context_of};

/// The phase of an association, with its data, which are dropped when the phase ends.
#[derive(Drop)]
pub(crate) enum Phase<const A: usize, const C: usize, const V: usize, const D: usize> {
    /// Awaiting an A-ASSOCIATE-RQ (Sta2): the bytes of its body that were received so far.
    AwaitingRequest {
        body: ArrayVec<u8, A>,
    },
    /// The association is established (Sta6): its peer, and the unfinished message.
    Established {
        peer: Peer,
        message: Message<C, V, D>,
    },
    /// Awaiting the close of the transport connection by the peer (Sta13).
    AwaitingClose,
    /// The transport connection is closed, or a send failed (Sta1).
    Ended,
}

/// The data of an accepted A-ASSOCIATE-RQ that are needed after it.
#[derive(Drop)]
pub(crate) struct Peer {
    /// The calling AE title.
    pub(crate) caller: [u8; 16],
    /// The maximum length in bytes of a P-DATA-TF that the peer accepts: at least 8, or 0 for no
    /// limit.
    pub(crate) max_length: u32,
    /// The accepted presentation contexts.
    pub(crate) contexts: ArrayVec<ContextRow, 128>,
    ghost answerable: { max_length < 8 → max_length ≡ 0 },
}

/// The unfinished message.
#[derive(Drop)]
pub(crate) struct Message<const C: usize, const V: usize, const D: usize> {
    /// The command set, and which fragment must follow.
    pub(crate) join: Join<C>,
    /// The data set, if the message is a C-STORE.
    pub(crate) storing: Storing<V, D>,
}

impl<const A: usize, const C: usize, const V: usize, const D: usize> Phase<A, C, V, D> {
    ghost use Rattle.engine.specs.Phases.{state_in};

    /// Returns the state of the acceptor.
    pub(crate) fn state(&self) -> State
        ensures { result ≡ state_in self.now }
    {
        match self {
            Phase::AwaitingRequest { .. } => State::Sta2,
            Phase::Established { .. } => State::Sta6,
            Phase::AwaitingClose => State::Sta13,
            Phase::Ended => State::Sta1,
        }
    }
}

impl Peer {
    ghost use Rattle.engine.specs.Held.{peer_size, request_most, row_size};
    ghost use Rattle.negotiate.specs.ContextRows.{context_in};
    ghost use Rattle.negotiate.specs.Settings.{settings_of};

    /// Returns the accepted presentation context with this ID, if there is one.
    pub(crate) fn context(&self, config: &Config, id: u8) -> Option<Context>
        ensures { result ≡ context_in (settings_of config.now).additional self.now.contexts.items id }
    {
        context_of(config, self.contexts.as_slice(), id)
    }

    /// Returns how many held bytes the request counts as: 20, and 4 for each accepted presentation
    /// context.
    pub(crate) fn held(&self) -> usize
        ensures value { result ≡ peer_size + row_size * length self.now.contexts.items }
        ensures bound { result ≤ request_most }
    {
        20 + 4 * self.contexts.len()
    }
}

impl<const C: usize, const V: usize, const D: usize> Message<C, V, D> {
    /// Returns how many bytes of the message are held: its command set, and what the walker holds
    /// of its data set.
    pub(crate) fn held(&self) -> usize
        ensures value { result ≡ length self.now.join.command + held_in (stored_of self.now.storing) }
        ensures bound { result ≤ C + V + 16 * D }
    {
        self.join.command().len() + self.storing.held()
    }
}
