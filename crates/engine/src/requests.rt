//! Handles association requests, and the ends of the other PDUs.
ghost use Rattle.std.specs.Prelude.{◌≡◌, ◌≤◌, ◌<◌, ◌+◌, ◌*◌, ◌-◌, ℕ, length, true, false, OnErr, IfSome, IfNone};
ghost use Rattle.acceptor.specs.declared.state.State.TheVariants.{Sta2, Sta6};
ghost use Rattle.arrayvec.specs.ArrayVec.{array_vec_len};
ghost use Rattle.pdu.specs.Items.{request_record};
ghost use Rattle.pdu.specs.Sent.{Sends};
ghost use Rattle.negotiate.specs.Contexts.{offered};
ghost use Rattle.negotiate.specs.Settings.{settings_of};
ghost use Rattle.negotiate.specs.Accept.{answer_bytes};
ghost use Rattle.engine.specs.machine.PerformsReaction.{rejected_state, rejected_text, is_remaining};
ghost use Rattle.engine.specs.machine.Accepted.{IsPeerOf};
ghost use Rattle.engine.specs.Progress.{at_start};
ghost use Rattle.engine.specs.Requests.{at_request};

use crate::devices::Devices;
use crate::heads::INVALID_PARAMETER;
use crate::phase::{Message, Peer, Phase};
use crate::provider::Provider;
use crate::sending::{Answering, Reaction, step};
use crate::stores::Storing;
use acceptor::{Event, State, act};
use arrayvec::ArrayVec;
use decisions::Decision;
use dimse::Join;
use negotiate::{Answer, Config, compact, judge, rejection};
use part10::Filing;
use pdu::{Request, Wire, WireFailed, pdu_type, read_request};

/// Sends an A-ASSOCIATE-RJ, as the service provider (ACSE) or as the local user, according to
/// `source`. Returns the next state and whether the send succeeded.
fn reject<W: Wire>(
    config: &Config,
    request: &Request,
    source: u8,
    wire: &mut W,
) -> (State, Result<(), WireFailed>)
    ensures state { result.0 ≡ rejected_state Sta2 source }
    ensures sends { Sends (rejected_text Sta2 source (answer_bytes (settings_of config.now) request.now)) result.1 (W.line wire.old) (W.line wire.new) }
    ensures due { OnErr result.1 (0 < length (rejected_text Sta2 source (answer_bytes (settings_of config.now) request.now))) }
{
    let answering = Answering::Request(config, request);
    if source == rejection::SERVICE_PROVIDER_ACSE {
        step(State::Sta2, Event::UnacceptableRq, answering, wire)
    } else {
        let (_, asked) = act(State::Sta2, Event::AcceptableRq);
        step(asked, Event::UserRefuses, answering, wire)
    }
}

/// Returns the data of an accepted request that are needed after it.
fn peer_of(config: &Config, request: &Request) -> Peer
    requires answerable { request.now.maximum < 8 → request.now.maximum ≡ 0 }
    ensures { IsPeerOf result (settings_of config.now).additional (offered (settings_of config.now).additional request.now) }
{
    let calling = request.calling();
    let caller = calling.0;
    let mut contexts = ArrayVec::new();
    compact(config, request, &mut contexts);
    Peer {
        caller,
        max_length: request.maximum(),
        contexts,
    }
}

/// Reads the body of an A-ASSOCIATE-RQ, judges it, and sends the answer: A-ASSOCIATE-AC,
/// A-ASSOCIATE-RJ, or A-ABORT if it is invalid. Returns the peer if the request is accepted, the
/// next state, whether the send succeeded, and what was decided.
fn answer_request<W: Wire>(
    config: &Config,
    body: &[u8],
    wire: &mut W,
) -> (Option<Peer>, State, Result<(), WireFailed>, Decision)
    ensures state { result.1 ≡ (at_request (settings_of config.now) at_start body.now).next.state }
    ensures sends { Sends (at_request (settings_of config.now) at_start body.now).sent result.2 (W.line wire.old) (W.line wire.new) }
    ensures due { OnErr result.2 (0 < length (at_request (settings_of config.now) at_start body.now).sent) }
    ensures accepted { IfSome result.0 (λ peer. (result.1 ≡ Sta6) × IsPeerOf peer (settings_of config.now).additional (offered (settings_of config.now).additional (request_record body.now))) }
    ensures decided { result.3 ≡ (at_request (settings_of config.now) at_start body.now).next.decided }
    ensures room { IfSome result.0 (λ peer. 20 + 4 * array_vec_len peer.contexts ≤ length body.now) }
    ensures rejected { IfNone result.0 (is_remaining result.1 ≡ true) }
{
    match read_request(body) {
        Err(fault) => {
            let answering = Answering::Abort(INVALID_PARAMETER);
            let (next, sent) = step(State::Sta2, Event::Invalid, answering, wire);
            (None, next, sent, Decision::RequestInvalid(fault))
        }
        Ok(request) => match judge(config, &request) {
            Answer::Accept => {
                let peer = peer_of(config, &request);
                let (_, asked) = act(State::Sta2, Event::AcceptableRq);
                let answering = Answering::Request(config, &request);
                let (next, sent) = step(asked, Event::UserAccepts, answering, wire);
                let decided = Decision::RequestJudged(Answer::Accept);
                (Some(peer), next, sent, decided)
            }
            Answer::Reject(result, source, reason) => {
                let (next, sent) = reject(config, &request, source, wire);
                let decided = Decision::RequestJudged(Answer::Reject(result, source, reason));
                (None, next, sent, decided)
            }
        },
    }
}

impl<'c, const A: usize, const C: usize, const V: usize, const D: usize> Provider<'c, A, C, V, D> {
    ghost use Rattle.engine.specs.Run.{rooms_of};
    ghost use Rattle.engine.specs.machine.Lent.{before, after, DraftIsThere, KeepsDraft};
    ghost use Rattle.engine.specs.Kept.{accepts_body_in, kept_of, settings_in};
    ghost use Rattle.engine.specs.machine.Capacity.{BodyFits};
    ghost use Rattle.part10.specs.Store.{Store};
    ghost use Rattle.engine.specs.machine.Events.{AcceptsBody};
    ghost use Rattle.engine.specs.machine.Tries.{TriesRequest};
    ghost use Rattle.engine.specs.machine.Judged.{StaysThen, JudgesEnd};

    /// Returns whether the body of a PDU of this type is buffered: only that of an awaited
    /// A-ASSOCIATE-RQ, unless it was already answered.
    pub(crate) fn accepts_body(&self, kind: u8) -> bool
        ensures { result ≡ accepts_body_in (kept_of self.now) kind }
    {
        match &self.phase {
            Phase::AwaitingRequest { .. } => !self.refused && kind == pdu_type::A_ASSOCIATE_RQ,
            _ => false,
        }
    }

    /// Handles bytes of the body of a PDU of this type: buffers those of an awaited A-ASSOCIATE-RQ,
    /// and drops others.
    pub(crate) fn on_body(&mut self, kind: u8, part: &[u8])
        requires fits { BodyFits (A - 12) (kept_of self.old) kind (length part.now) }
        ensures settings { settings_in self.new ≡ settings_in self.old }
        ensures storing { (kept_of self.new).storing ≡ (kept_of self.old).storing }
        ensures fits { (m : ℕ) → BodyFits (A - 12) (kept_of self.old) kind (length part.now + m) → BodyFits (A - 12) (kept_of self.new) kind m }
        ensures pends { (store : Store) → AcceptsBody (kept_of self.old) (kept_of self.new) kind part.now store }
    {
        if self.refused || kind != pdu_type::A_ASSOCIATE_RQ {
            return;
        }
        if let Phase::AwaitingRequest { body } = &mut self.phase {
            body.try_extend_from_slice(part).unwrap();
        }
    }

    /// Handles the end of an awaited A-ASSOCIATE-RQ: reads, judges and answers it, and drops its
    /// body.
    pub(crate) fn on_request<W: Wire, F: Filing>(&mut self, devices: Devices<'_, W, F>)
        requires draft { DraftIsThere (kept_of self.old) (F.store devices.filing.now) }
        ensures settings { settings_in self.new ≡ settings_in self.old }
        ensures drafts { KeepsDraft (kept_of self.old) (kept_of self.new) (F.store devices.entry.filing.now) (after W.line F.store devices.exit).store }
        ensures tries { TriesRequest (settings_in self.old) (kept_of self.old) (kept_of self.new) (before W.line F.store devices.entry) (after W.line F.store devices.exit) }
    {
        let Phase::AwaitingRequest { body } = &self.phase else {
            return;
        };
        let (peer, next, sent, decided) = answer_request(
            self.config,
            body.as_slice(),
            devices.wire,
        );
        self.decided = decided;
        match peer {
            Some(peer) => {
                let message = Message {
                    join: Join::new(),
                    storing: Storing::Nothing,
                };
                self.phase = Phase::Established { peer, message };
                self.finish(next, sent, devices.filing);
            }
            None => self.finish(next, sent, devices.filing),
        }
    }

    /// Returns the reaction to the end of a PDU of this type whose body is not buffered. Only an
    /// A-ABORT, and an A-RELEASE-RQ of an established association, cause a reaction, unless the PDU
    /// was already answered.
    pub(crate) fn on_end(&mut self, kind: u8) -> Reaction
        requires unkept { accepts_body_in (kept_of self.old) kind ≡ false }
        ensures settings { settings_in self.new ≡ settings_in self.old }
        ensures storing { (kept_of self.new).storing ≡ (kept_of self.old).storing }
        ensures stays { StaysThen (kept_of self.new).state result }
        ensures due { (store : Store) → JudgesEnd (rooms_of A C V D) (settings_in self.old) (kept_of self.old) (kept_of self.new) kind result store }
    {
        if let Phase::Ended = &self.phase {
            return Reaction::Nothing;
        }
        if self.refused {
            return Reaction::Nothing;
        }
        match kind {
            pdu_type::A_ABORT => {
                self.decided = Decision::Aborted;
                Reaction::Perform(Event::Abort, Answering::Nothing)
            }
            pdu_type::A_RELEASE_RQ => match &self.phase {
                Phase::Established { .. } => {
                    self.decided = Decision::Released;
                    Reaction::Release
                }
                _ => Reaction::Nothing,
            },
            _ => Reaction::Nothing,
        }
    }
}
