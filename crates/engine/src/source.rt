//! The interface of the inputs of an association.
ghost use Rattle.std.specs.Prelude.{◌≡◌, ℕ, List, Option, None};
ghost use Rattle.acceptor.specs.declared.state.State.{State};
ghost use Rattle.engine.specs.Inputs.{Supply, Gives, shown_after};

use acceptor::State;

/// An input of an association.
#[derive(Clone, Copy, Debug, PartialEq, Eq)]
pub enum Input {
    /// Bytes were received from the peer: `Source::piece` returns them.
    Piece,
    /// The transport connection was closed by the peer, or broke.
    Closed,
    /// The ARTIM timer expired.
    Expired,
    /// The local user aborts the association.
    LocalAbort,
}

/// The source of the inputs of an association: a socket with a timer, or a list.
pub trait Source {
    /// For contracts: the inputs that remain, and those that the source has returned, as far as the
    /// implementation knows them.
    ghost supply: { Self → Supply };

    /// For contracts: the bytes of the last piece.
    ghost last: { Self → List ℕ };

    /// For contracts: the state that `next` was given last, if the implementation knows it.
    ghost shown: { Self → Option State } = { λ _. None };

    /// Returns the next input of an association that is in this state. If the ARTIM timer runs in
    /// this state, the source must restart it exactly if the state differs from that of the
    /// previous call (`acceptor::laws::starts_are_seen`).
    fn next(&mut self, state: State) -> Input
        ensures gives { Gives (supply self.old) (supply self.new) (last self.new) result }
        ensures shown { shown self.new ≡ shown_after state (shown self.old) };

    /// Returns the bytes of the last `Input::Piece`.
    fn piece(&self) -> &[u8]
        ensures { result.now ≡ last self.now };
}
