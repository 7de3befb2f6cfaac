//! Sources: one records the states that it is shown, one has a peer that falls silent, and one
//! repeats a chunk.
ghost use Rattle.std.specs.Prelude.{◌≤◌, None, length};

use acceptor::State;
use arrayvec::ArrayVec;
use engine::{Input, ListedInput, Source};

/// A list of inputs that records the state it is shown at each turn and reveals nothing of later
/// inputs.
#[derive(Drop)]
pub(crate) struct Witness<'a> {
    inputs: &'a [ListedInput<'a>],
    pub(crate) at: usize,
    piece: &'a [u8],
    pub(crate) states: ArrayVec<Option<State>, 8>,
    ghost within: { at ≤ length inputs.now },
}

impl<'a> Witness<'a> {
    pub(crate) fn new(inputs: &'a [ListedInput<'a>]) -> Witness<'a> {
        Witness {
            inputs,
            at: 0,
            piece: &[],
            states: ArrayVec::new(),
        }
    }
}

impl Source for Witness<'_> {
    ghost supply = { λ w. record { expected = None; given = None } };

    ghost last = { λ w. w.piece.now };

    fn next(&mut self, state: State) -> Input {
        let _full = self.states.try_push(Some(state));
        if self.at == self.inputs.len() {
            return Input::Closed;
        }
        let listed = self.inputs[self.at];
        self.at += 1;
        match listed {
            ListedInput::Piece(bytes) => {
                self.piece = bytes;
                Input::Piece
            }
            ListedInput::Closed => Input::Closed,
            ListedInput::Expired => Input::Expired,
            ListedInput::LocalAbort => Input::LocalAbort,
        }
    }

    fn piece(&self) -> &[u8] {
        self.piece
    }
}

/// Yields some chunks, after which the peer is silent: the timer expires if it runs, else the local
/// user aborts the association.
#[derive(Drop)]
pub(crate) struct Silent<'a> {
    pieces: &'a [&'a [u8]],
    at: usize,
    piece: &'a [u8],
    ghost within: { at ≤ length pieces.now },
}

impl<'a> Silent<'a> {
    pub(crate) fn new(pieces: &'a [&'a [u8]]) -> Silent<'a> {
        Silent {
            pieces,
            at: 0,
            piece: &[],
        }
    }
}

impl Source for Silent<'_> {
    ghost supply = { λ s. record { expected = None; given = None } };

    ghost last = { λ s. s.piece.now };

    fn next(&mut self, state: State) -> Input {
        if self.at < self.pieces.len() {
            self.piece = self.pieces[self.at];
            self.at += 1;
            return Input::Piece;
        }
        if state.timer_runs() {
            Input::Expired
        } else {
            Input::LocalAbort
        }
    }

    fn piece(&self) -> &[u8] {
        self.piece
    }
}

/// Yields some chunks, then one chunk repeatedly, then a last chunk; then the transport connection
/// is closed.
#[derive(Drop)]
pub(crate) struct Repeated<'a> {
    first: &'a [&'a [u8]],
    again: &'a [u8],
    times: usize,
    last: &'a [u8],
    at: usize,
    piece: &'a [u8],
}

impl<'a> Repeated<'a> {
    pub(crate) fn new(
        first: &'a [&'a [u8]],
        again: &'a [u8],
        times: usize,
        last: &'a [u8],
    ) -> Repeated<'a> {
        Repeated {
            first,
            again,
            times,
            last,
            at: 0,
            piece: &[],
        }
    }
}

impl Source for Repeated<'_> {
    ghost supply = { λ s. record { expected = None; given = None } };

    ghost last = { λ s. s.piece.now };

    fn next(&mut self, _state: State) -> Input {
        let at = self.at;
        self.at = at.saturating_add(1);
        let count = self.first.len();
        self.piece = if at < count {
            self.first[at]
        } else if at - count < self.times {
            self.again
        } else if at - count == self.times {
            self.last
        } else {
            return Input::Closed;
        };
        Input::Piece
    }

    fn piece(&self) -> &[u8] {
        self.piece
    }
}
