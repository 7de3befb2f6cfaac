//! The list of the inputs of a source, for contracts only; it has no size at run time.
ghost use Rattle.std.specs.Prelude.{◌≡◌, [], ◌∷◌, ◌++◌};

use crate::source::Input;
use element::history::History;

/// The inputs that a [`Source`](crate::Source) has returned, in order, each with the bytes of its
/// piece. It is a ghost value: contracts can name it, the program cannot read it.
#[derive(Drop)]
pub struct Given {
    named: History<(Input, History<u8>)>,
}

impl Given {
    /// Creates an empty list.
    pub fn new() -> Given
        ensures { result.named ≡ [] }
    {
        Given {
            named: History::new(),
        }
    }

    /// Appends an input, with the bytes of its piece.
    pub fn push(&mut self, input: &Input, piece: &[u8])
        ensures { self.new.named ≡ self.old.named ++ (input.now, piece.now) ∷ [] }
    {
        let mut bytes = History::new();
        bytes.append(piece);
        self.named.push(&(*input, bytes));
    }
}
