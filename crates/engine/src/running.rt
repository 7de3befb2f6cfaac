//! Runs an association over a source of inputs, to its end or input by input.
ghost use Rattle.std.specs.Prelude.{◌≡◌, ◌≤◌, ◌<◌, ◌^◌, ◌+◌, ◌*◌};
ghost use Rattle.engine.specs.Devices.{devices};
ghost use Rattle.engine.specs.Run.{rooms_of};
ghost use Rattle.engine.specs.Ran.{RanWith};

use crate::association::Association;
use crate::report::{Report, Standing};
use crate::source::{Input, Source};
use negotiate::Config;
use part10::Filing;
use pdu::Wire;

impl<'c, const A: usize, const C: usize, const V: usize, const D: usize> Association<
    'c,
    A,
    C,
    V,
    D,
> {
    ghost use Rattle.part10.specs.Store.{Store};
    ghost use Rattle.engine.specs.Drafts.{IsThere};
    ghost use Rattle.engine.specs.Fields.{drafting_of, fields_of, settings_in, state_of};
    ghost use Rattle.engine.specs.Inputs.{input_of, shown_after};
    ghost use Rattle.engine.specs.MovesOn.{MovesOn, StaysOnceEnded, ConsumesNext};
    ghost use Rattle.engine.specs.Turns.{Reports};

    /// Handles an input like the method for its kind ([`feed`](Association::feed), ..). `piece` has
    /// the received bytes of `Input::Piece`, and is ignored for other inputs.
    pub fn take<W: Wire, F: Filing>(
        &mut self,
        input: Input,
        piece: &[u8],
        wire: &mut W,
        filing: &mut F,
    )
        requires draft { IsThere (drafting_of self.old) (F.store filing.old) }
        ensures draft { IsThere (drafting_of self.new) (F.store filing.new) }
        ensures settings { settings_in self.new ≡ settings_in self.old }
        ensures moved { MovesOn self.old self.new (input_of input piece.now)
            (devices (W.line wire.old) (F.store filing.old)) (devices (W.line wire.new) (F.store filing.new)) }
        ensures ended { StaysOnceEnded self.old self.new
            (devices (W.line wire.old) (F.store filing.old)) (devices (W.line wire.new) (F.store filing.new)) }
    {
        match input {
            Input::Piece => self.feed(piece, wire, filing),
            Input::Closed => self.closed(wire, filing),
            Input::Expired => self.expired(wire, filing),
            Input::LocalAbort => self.local_abort(wire, filing),
        }
    }

    /// Handles the next input of the source, which is given the state of the association.
    pub fn take_next<S: Source, W: Wire, F: Filing>(
        &mut self,
        source: &mut S,
        wire: &mut W,
        filing: &mut F,
    )
        requires draft { IsThere (drafting_of self.old) (F.store filing.old) }
        ensures draft { IsThere (drafting_of self.new) (F.store filing.new) }
        ensures settings { settings_in self.new ≡ settings_in self.old }
        ensures shown { S.shown source.new ≡ shown_after (state_of self.old) (S.shown source.old) }
        ensures consumes { ConsumesNext self.old self.new (S.supply source.old) (S.supply source.new)
            (devices (W.line wire.old) (F.store filing.old)) (devices (W.line wire.new) (F.store filing.new)) }
    {
        let input = source.next(self.state());
        self.take(input, source.piece(), wire, filing);
    }

    /// Returns the state of the association, and how many received bytes it holds.
    pub fn report(&self) -> Report
        ensures reports { (store : Store) → Reports (rooms_of A C V D) (settings_in self.now) (fields_of self.now) store result }
        ensures room { result.held ≤ A + C + V + 16 * D }
    {
        Report {
            standing: Standing::of(self.state()),
            held: self.held(),
        }
    }
}

/// Opens an association and handles inputs of the source until the association has ended or `turns`
/// inputs were handled; then drops the draft, if there is one. Returns the state of the
/// association, and how many received bytes it holds. The const parameters are the limits of
/// [`Association`].
///
/// The clause `ran` states: the source has returned exactly the inputs that were handled, and only
/// the last of them may have ended the association. What was sent, the files, the state and the
/// number of held bytes are what the acceptor's state table and the rules of DIMSE determine for
/// these inputs, up to a failed send; and every failed call of a device is counted. The clause
/// holds for every number of turns, and so after every input.
pub fn run<
    const A: usize,
    const C: usize,
    const V: usize,
    const D: usize,
    S: Source,
    W: Wire,
    F: Filing,
>(source: &mut S, config: &Config, wire: &mut W, filing: &mut F, turns: u64) -> Report
    requires least { 256 ≤ A }
    requires greatest { A ≤ 2 ^ 24 }
    requires command_greatest { C ≤ 2 ^ 24 }
    requires least_kept { 140 ≤ V }
    requires greatest_kept { V ≤ 2 ^ 24 }
    requires least_levels { 2 ≤ D }
    requires greatest_levels { D ≤ 2 ^ 24 }
    ensures ran { RanWith A C V D config.now turns result (S.supply source.old) (S.supply source.new)
        (devices (W.line wire.old) (F.store filing.old)) (devices (W.line wire.new) (F.store filing.new)) }
    ensures room { result.held ≤ A + C + V + 16 * D }
{
    let mut association = Association::<A, C, V, D>::open(config);
    for _turn in 0..turns {
        let over = association.is_ended();
        if over {
            break;
        }
        association.take_next(source, wire, filing);
    }
    filing.discard();
    association.report()
}
