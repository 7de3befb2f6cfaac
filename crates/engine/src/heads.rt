//! Judges a PDU by its head, before its body is received.
ghost use Rattle.std.specs.Prelude.{◌≡◌, ◌≤◌, ℕ};
ghost use Rattle.engine.specs.machine.PerformsReaction.{Stays};
ghost use Rattle.acceptor.specs.declared.state.State.TheVariants.{Sta2};
ghost use Rattle.engine.specs.Heads as spelling;
ghost use Rattle.engine.specs.machine.HeadEvents.{brings};

use crate::phase::Phase;
use crate::provider::Provider;
use crate::sending::{Answering, Reaction};
use acceptor::{Action, Event, State, act};
use decisions::{Decision, HeadFault};
use pdu::{PduHead, pdu_type};

/// The reason unrecognized-PDU of an A-ABORT of the service provider (PS3.8 section 9.3.8).
const UNRECOGNIZED: u8 = 1;

const UNEXPECTED: u8 = 2;

pub(crate) const INVALID_PARAMETER: u8 = 6;

/// The size in bytes of the body of an A-ASSOCIATE-RQ before its items.
const BEFORE_ITEMS: u32 = 68;

/// The size in bytes of the head of a presentation data value.
const PDV_HEAD: u32 = 6;

/// The size in bytes of the heads of a PDU and of a presentation data value together. The body of
/// an A-ASSOCIATE-RQ may have at most `A` less this size.
const HEADS: usize = 12;

/// The event that the head of a PDU causes.
#[derive(Clone, Copy)]
pub(crate) enum HeadEvent {
    /// No event: the rest of the PDU is read.
    Nothing,
    /// This event, before the body is received, for this fault.
    AtOnce(Event, HeadFault),
    /// The rejection of an A-ASSOCIATE-RQ whose body is longer than the limit.
    TooLong,
}

/// Returns the event of a received PDU of this type.
fn event_of(kind: u8) -> Event
    ensures { result ≡ spelling.event_of kind }
{
    match kind {
        pdu_type::A_ASSOCIATE_RQ => Event::AcceptableRq,
        pdu_type::A_ASSOCIATE_AC => Event::Ac,
        pdu_type::A_ASSOCIATE_RJ => Event::Rj,
        pdu_type::P_DATA_TF => Event::Data,
        pdu_type::A_RELEASE_RQ => Event::ReleaseRq,
        pdu_type::A_RELEASE_RP => Event::ReleaseRp,
        pdu_type::A_ABORT => Event::Abort,
        _ => Event::Invalid,
    }
}

/// Returns the reason of the A-ABORT of the service provider for this fault (PS3.8 Table 9-26).
fn abort_reason(fault: HeadFault) -> u8
    ensures { result ≡ spelling.abort_reason fault }
{
    match fault {
        HeadFault::Unrecognized => UNRECOGNIZED,
        HeadFault::Unexpected => UNEXPECTED,
        HeadFault::OtherLength
        | HeadFault::ShortRequest
        | HeadFault::LongData(_)
        | HeadFault::ShortData => INVALID_PARAMETER,
    }
}

/// Returns whether the action sends an A-ABORT.
fn is_abort(action: Action) -> bool
    ensures { result ≡ spelling.is_abort action }
{
    matches!(action, Action::Aa1 | Action::Aa7 | Action::Aa8)
}

/// Returns the event of a PDU of this type if the PDU causes an A-ABORT in this state, whatever its
/// body is.
fn out_of_place(state: State, kind: u8) -> HeadEvent
    ensures { brings result ≡ spelling.out_of_place state kind }
{
    let event = event_of(kind);
    let (action, _) = act(state, event);
    if is_abort(action) {
        HeadEvent::AtOnce(event, HeadFault::Unexpected)
    } else {
        HeadEvent::Nothing
    }
}

/// Returns the event that the length of an A-ASSOCIATE-RQ causes. `room` is the greatest length of
/// its body.
fn request_length(room: usize, length: u32) -> HeadEvent
    ensures { brings result ≡ spelling.request_length room length }
{
    if length as usize > room {
        HeadEvent::TooLong
    } else if length < BEFORE_ITEMS {
        HeadEvent::AtOnce(Event::Invalid, HeadFault::ShortRequest)
    } else {
        HeadEvent::Nothing
    }
}

/// Returns the event that the length of a P-DATA-TF causes. `most` is the maximum length that was
/// announced to the peer, in bytes.
fn data_length(most: u32, length: u32) -> HeadEvent
    ensures { brings result ≡ spelling.data_length most length }
{
    if length > most {
        HeadEvent::AtOnce(Event::Invalid, HeadFault::LongData(most))
    } else if length < PDV_HEAD {
        HeadEvent::AtOnce(Event::Invalid, HeadFault::ShortData)
    } else {
        HeadEvent::Nothing
    }
}

/// Returns whether a PDU of this type, one of the seven known, has a body of four bytes:
/// A-ASSOCIATE-RJ, A-RELEASE-RQ, A-RELEASE-RP and A-ABORT.
fn is_short(kind: u8) -> bool
    ensures { result ≡ spelling.has_four_bytes kind }
{
    kind == pdu_type::A_ASSOCIATE_RJ || pdu_type::A_RELEASE_RQ <= kind
}

/// Returns the event that the head of a PDU of this type and length causes in this state. `room` is
/// the greatest length of the body of an A-ASSOCIATE-RQ, `most` that of a P-DATA-TF, in bytes.
pub(crate) fn head_event(room: usize, most: u32, state: State, kind: u8, length: u32) -> HeadEvent
    ensures brings { brings result ≡ spelling.head_event room most state kind length }
    ensures stays { (event : Event) (fault : HeadFault) → result ≡ HeadEvent.AtOnce event fault → Stays state event }
    ensures due { result ≡ HeadEvent.TooLong → state ≡ Sta2 }
    ensures fits { result ≡ HeadEvent.Nothing → state ≡ Sta2 → kind ≡ 1 → length ≤ room }
{
    if kind < pdu_type::A_ASSOCIATE_RQ || pdu_type::A_ABORT < kind {
        return HeadEvent::AtOnce(Event::Invalid, HeadFault::Unrecognized);
    }
    if is_short(kind) && length != 4 {
        return HeadEvent::AtOnce(Event::Invalid, HeadFault::OtherLength);
    }
    match state {
        State::Sta2 if kind == pdu_type::A_ASSOCIATE_RQ => request_length(room, length),
        State::Sta6 if kind == pdu_type::P_DATA_TF => data_length(most, length),
        _ => out_of_place(state, kind),
    }
}

impl<'c, const A: usize, const C: usize, const V: usize, const D: usize> Provider<'c, A, C, V, D> {
    ghost use Rattle.std.specs.Prelude.{◌-◌};
    ghost use Rattle.part10.specs.Store.{Store};
    ghost use Rattle.engine.specs.Kept.{kept_of, settings_in};
    ghost use Rattle.engine.specs.machine.Capacity.{BodyFits};
    ghost use Rattle.engine.specs.machine.Judged.{StaysThen, Judges};
    ghost use Rattle.engine.specs.Timeline.{At};
    ghost use Rattle.pdu.specs.Marks.{Head};
    ghost use Rattle.engine.specs.Run.{rooms_of};

    /// Handles the head of a PDU: judges it by its type, its length and the state. After the
    /// association has ended, it decides nothing.
    pub(crate) fn on_head(&mut self, kind: u8, length: u32) -> Reaction
        ensures fits { BodyFits (A - 12) (kept_of self.new) kind length }
        ensures settings { settings_in self.new ≡ settings_in self.old }
        ensures storing { (kept_of self.new).storing ≡ (kept_of self.old).storing }
        ensures stays { StaysThen (kept_of self.new).state result }
        ensures due { (store : Store) → Judges (rooms_of A C V D) (settings_in self.old) (kept_of self.old) (kept_of self.new) (At (Head kind length)) result store }
    {
        if let Phase::Ended = &self.phase {
            return Reaction::Nothing;
        }
        let state = self.phase.state();
        let event = head_event(A - HEADS, self.config.max_pdu, state, kind, length);
        self.clear_body();
        self.refused = true;
        match event {
            HeadEvent::Nothing => {
                self.refused = false;
                self.decided = Decision::Nothing;
                Reaction::Nothing
            }
            HeadEvent::AtOnce(event, fault) => {
                self.decided = Decision::PduRefused(PduHead { kind, length }, fault);
                Reaction::Perform(event, Answering::Abort(abort_reason(fault)))
            }
            HeadEvent::TooLong => {
                self.decided = Decision::RequestTooLong(length);
                Reaction::Perform(Event::UnacceptableRq, Answering::TooLong)
            }
        }
    }
}
