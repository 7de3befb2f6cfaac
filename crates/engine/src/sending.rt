//! Performs the action that the acceptor's state table has for an event: sends a PDU, and returns
//! the next state.
ghost use Rattle.std.specs.Prelude.{◌≡◌, ◌<◌, length, OnErr};
ghost use Rattle.acceptor.specs.Table.{table};
ghost use Rattle.pdu.specs.Sent.{Sends};
ghost use Rattle.pdu.specs.Texts.{abort_text, release_text};
ghost use Rattle.acceptor.specs.Effect.{bytes_sent};
ghost use Rattle.engine.specs.machine.PerformsReaction.{step_text};
ghost use Rattle.engine.specs.machine.PerformsReaction as machine;
ghost use Rattle.engine.specs.machine.Answers.{answer_text, reason_of};

use acceptor::{Event, Sending, State, act};
use negotiate::{Config, rejection, write_answer};
use pdu::{Request, Wire, WireFailed, write_abort, write_reject, write_release};

/// What the action of an event needs to send its PDU, besides the state table.
#[derive(Clone, Copy)]
pub(crate) enum Answering<'a> {
    /// Nothing.
    Nothing,
    /// The reason of an A-ABORT of the service provider (PS3.8 section 9.3.8).
    Abort(u8),
    /// The A-ASSOCIATE-RJ to a request whose body is longer than the limit.
    TooLong,
    /// The A-ASSOCIATE-AC or A-ASSOCIATE-RJ to this request, with this configuration.
    Request(&'a Config, &'a Request<'a>),
}

/// The reaction to an event of the stream, to be performed by
/// [`Provider::perform`](crate::provider::Provider::perform).
#[derive(Clone, Copy)]
pub(crate) enum Reaction {
    /// No reaction.
    Nothing,
    /// This event of the acceptor's state table, with what its action needs to send a PDU.
    Perform(Event, Answering<'static>),
    /// The release of an established association after an A-RELEASE-RQ, to which the local user
    /// agrees at once.
    Release,
}

/// Sends the A-ASSOCIATE-AC or A-ASSOCIATE-RJ to an association request.
fn answer<W: Wire>(answering: Answering, wire: &mut W) -> Result<(), WireFailed>
    ensures sends { Sends (answer_text answering.entry) result (W.line wire.old) (W.line wire.new) }
    ensures due { OnErr result (0 < length (answer_text answering.entry)) }
{
    match answering {
        Answering::Nothing | Answering::Abort(_) => Ok(()),
        Answering::TooLong => write_reject(
            rejection::TRANSIENT,
            rejection::SERVICE_PROVIDER_PRESENTATION,
            rejection::LOCAL_LIMIT_EXCEEDED,
            wire,
        ),
        Answering::Request(config, request) => write_answer(config, request, wire),
    }
}

/// Returns the reason of an A-ABORT of the service provider, or 0 if there is none.
fn reason(answering: Answering) -> u8
    ensures { result ≡ reason_of answering.entry }
{
    match answering {
        Answering::Abort(reason) => reason,
        _ => 0,
    }
}

/// Sends the PDU of an action, if it has one.
fn send<W: Wire>(sending: Sending, answering: Answering, wire: &mut W) -> Result<(), WireFailed>
    ensures sends { Sends (bytes_sent (answer_text answering.entry) release_text abort_text sending) result (W.line wire.old) (W.line wire.new) }
    ensures due { OnErr result (0 < length (bytes_sent (answer_text answering.entry) release_text abort_text sending)) }
{
    match sending {
        Sending::Nothing => Ok(()),
        Sending::Answer => answer(answering, wire),
        Sending::ReleaseResponse => write_release(wire),
        Sending::Abort(source, reason) => write_abort(source, reason, wire),
    }
}

/// Performs the action that the state table has for the event. Returns the next state, and whether
/// the send succeeded.
pub(crate) fn step<W: Wire>(
    state: State,
    event: Event,
    answering: Answering,
    wire: &mut W,
) -> (State, Result<(), WireFailed>)
    ensures state { result.0 ≡ (table state event).1 }
    ensures sends { Sends (step_text state event (reason_of answering.entry) (answer_text answering.entry)) result.1 (W.line wire.old) (W.line wire.new) }
    ensures due { OnErr result.1 (0 < length (step_text state event (reason_of answering.entry) (answer_text answering.entry))) }
{
    let (action, next) = act(state, event);
    let sent = send(action.sends(next, reason(answering)), answering, wire);
    (next, sent)
}

/// Returns the state after a send: `next`, or Sta1 if the send failed, which ends the association
/// like a closed transport connection (PS3.8 section 9.2.2).
pub(crate) fn state_after(next: State, sent: Result<(), WireFailed>) -> State
    ensures { result ≡ machine.state_after sent next }
{
    match sent {
        Ok(()) => next,
        Err(WireFailed) => State::Sta1,
    }
}
