//! A [`Source`] over a list of inputs, for tests and replays.
ghost use Rattle.std.specs.Prelude.{◌≡◌, ◌≤◌, Some, length, map};
ghost use Rattle.engine.specs.Inputs.{received_of};

use crate::source::{Input, Source};
use acceptor::State;

/// An input of a [`ListSource`]: an [`Input`] with the bytes of its piece.
#[derive(Clone, Copy)]
pub enum ListedInput<'a> {
    Piece(&'a [u8]),
    Closed,
    Expired,
    LocalAbort,
}

/// A [`Source`] that returns the inputs of a list in order, whatever the state is, and then
/// `Input::Closed`.
#[derive(Drop)]
pub struct ListSource<'a> {
    inputs: &'a [ListedInput<'a>],
    at: usize,
    piece: &'a [u8],
    ghost within: { at ≤ length inputs.now },
}

impl<'a> ListSource<'a> {
    ghost use Rattle.engine.specs.ListSource.{inputs_remaining};

    /// Creates a source of these inputs.
    pub fn new(inputs: &'a [ListedInput<'a>]) -> ListSource<'a>
        ensures { inputs_remaining result ≡ map received_of inputs.entry.now }
    {
        ListSource {
            inputs,
            at: 0,
            piece: &[],
        }
    }
}

impl Source for ListSource<'_> {
    ghost use Rattle.std.specs.Prelude.{Some, None};
    ghost use Rattle.engine.specs.ListSource.{inputs_remaining};

    ghost supply = { λ s. record { expected = Some (inputs_remaining s); given = None } };

    ghost last = { λ s. s.piece.now };

    fn next(&mut self, _state: State) -> Input {
        if self.at == self.inputs.len() {
            return Input::Closed;
        }
        let listed = self.inputs[self.at];
        self.at += 1;
        match listed {
            ListedInput::Piece(bytes) => {
                self.piece = bytes;
                Input::Piece
            }
            ListedInput::Closed => Input::Closed,
            ListedInput::Expired => Input::Expired,
            ListedInput::LocalAbort => Input::LocalAbort,
        }
    }

    fn piece(&self) -> &[u8] {
        self.piece
    }
}
