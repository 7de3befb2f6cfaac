//! The service provider and the local user of an association, without the division of the received
//! bytes into PDUs.
ghost use Rattle.std.specs.Prelude.{◌≡◌, ◌≤◌, ◌+◌, ◌*◌, ◌-◌, ◌^◌, [], false};
ghost use Rattle.acceptor.specs.declared.state.State.TheVariants.{Sta6};
ghost use Rattle.engine.specs.Phases.{consumed_in};
ghost use Rattle.engine.specs.StoredData.{drafting_in};

use crate::devices::Devices;
use crate::heads::INVALID_PARAMETER;
use crate::phase::Phase;
use crate::sending::{Answering, Reaction, state_after, step};
use acceptor::{Event, State, act};
use arrayvec::ArrayVec;
use decisions::Decision;
use negotiate::Config;
use part10::Filing;
use pdu::{Deframer, Wire, WireFailed};

/// An association without the division of the received bytes into PDUs: its phase, and the reaction
/// of the service provider and of the local user to each event.
#[derive(Drop)]
pub(crate) struct Provider<'c, const A: usize, const C: usize, const V: usize, const D: usize> {
    pub(crate) config: &'c Config,
    /// Whether the rest of the unfinished PDU is ignored, because the PDU was already answered.
    pub(crate) refused: bool,
    /// What was decided last, since the head of the last PDU.
    pub(crate) decided: Decision,
    /// The phase, with the data of the request, the peer or the message.
    pub(crate) phase: Phase<A, C, V, D>,
    ghost least: { 256 ≤ A },
    ghost greatest: { A ≤ 2 ^ 24 },
    ghost command_greatest: { C ≤ 2 ^ 24 },
    ghost least_kept: { 140 ≤ V },
    ghost greatest_kept: { V ≤ 2 ^ 24 },
    ghost least_levels: { 2 ≤ D },
    ghost greatest_levels: { D ≤ 2 ^ 24 },
    ghost room: { consumed_in phase ≤ A },
}

impl<'c, const A: usize, const C: usize, const V: usize, const D: usize> Provider<'c, A, C, V, D> {
    ghost use Rattle.engine.specs.Progress.{at_start};
    ghost use Rattle.engine.specs.machine.Lent.{before, after, DraftIsThere, KeepsDraft};
    ghost use Rattle.engine.specs.machine.Answers.{due_at};
    ghost use Rattle.negotiate.specs.Settings.{settings_of};
    ghost use Rattle.part10.specs.Store.{Store};
    ghost use Rattle.engine.specs.Held.{request_most};
    ghost use Rattle.engine.specs.Kept.{Pends, held_by, accepts_pdvs_in, kept_of, settings_in};
    ghost use Rattle.pdu.specs.Deframed.{position_of};
    ghost use Rattle.pdu.specs.Steps.{events_due};
    ghost use Rattle.engine.specs.machine.Skips.{passed};
    ghost use Rattle.engine.specs.machine.PerformsReaction.{Reaches, is_remaining};
    ghost use Rattle.engine.specs.machine.Judged.{StaysThen, JudgesInvalid};
    ghost use Rattle.engine.specs.Run.{rooms_of};
    ghost use Rattle.engine.specs.machine.Tries.{TriesDue};
    ghost use Rattle.engine.specs.machine.Messages.{with_body, with_storing};
    ghost use Rattle.engine.specs.machine.Storing.{Drops};

    /// Creates the association of a transport connection that was just opened: it awaits an
    /// A-ASSOCIATE-RQ.
    pub(crate) fn open(config: &'c Config) -> Self
        requires least { 256 ≤ A }
        requires greatest { A ≤ 2 ^ 24 }
        requires command_greatest { C ≤ 2 ^ 24 }
        requires least_kept { 140 ≤ V }
        requires greatest_kept { V ≤ 2 ^ 24 }
        requires least_levels { 2 ≤ D }
        requires greatest_levels { D ≤ 2 ^ 24 }
        ensures pends { (store : Store) → Pends (kept_of result) store at_start [] [] }
        ensures body { (kept_of result).body ≡ [] }
        ensures no_draft { drafting_in (kept_of result).storing ≡ false }
        ensures settings { settings_in result ≡ settings_of config.now }
    {
        Provider {
            config,
            refused: false,
            decided: Decision::Nothing,
            phase: Phase::AwaitingRequest {
                body: ArrayVec::new(),
            },
        }
    }

    /// Returns the bytes of the command set of the unfinished message, so far.
    pub(crate) fn command(&self) -> &[u8]
        ensures { result.now ≡ (kept_of self.now).join.command }
    {
        match &self.phase {
            Phase::Established { peer: _, message } => message.join.command(),
            _ => &[],
        }
    }

    /// Returns whether the presentation data values of the unfinished PDU are handled: in an
    /// established association, unless the PDU was already answered.
    pub(crate) fn accepts_pdvs(&self) -> bool
        ensures { result ≡ accepts_pdvs_in (kept_of self.now) }
    {
        match &self.phase {
            Phase::Established { .. } => !self.refused,
            _ => false,
        }
    }

    /// Makes the deframer skip the rest of the unfinished PDU if neither its body nor its
    /// presentation data values are handled.
    pub(crate) fn skip_uncounted(&self, deframer: &mut Deframer)
        ensures passes { position_of deframer.new ≡ passed (kept_of self.now) (position_of deframer.old) }
        ensures fewer { events_due (position_of deframer.new) ≤ events_due (position_of deframer.old) }
    {
        if self.accepts_pdvs() || self.accepts_body(deframer.kind()) {
            return;
        }
        deframer.skip_frame();
    }

    /// Returns whether the filing has the draft of an unfinished C-STORE.
    pub(crate) fn drafting(&self) -> bool
        ensures { result ≡ drafting_in (kept_of self.now).storing }
    {
        match &self.phase {
            Phase::Established { peer: _, message } => message.storing.drafting(),
            _ => false,
        }
    }

    /// Returns how many received bytes are held: of the body of an A-ASSOCIATE-RQ; 20, and 4 for
    /// each presentation context, of an accepted one; of the command set of a message, and what the
    /// walker holds of its data set.
    pub(crate) fn held(&self) -> usize
        ensures value { result ≡ held_by (kept_of self.now) }
        ensures room { result + 12 ≤ A + C + V + 16 * D }
        ensures accepted_room { (kept_of self.now).state ≡ Sta6 → result ≤ request_most + C + V + 16 * D }
    {
        match &self.phase {
            Phase::AwaitingRequest { body } => body.len(),
            Phase::Established { peer, message } => peer.held() + message.held(),
            _ => 0,
        }
    }

    /// Drops the received bytes of the body of an A-ASSOCIATE-RQ.
    pub(crate) fn clear_body(&mut self)
        ensures kept { kept_of self.new ≡ with_body [] (kept_of self.old) }
        ensures settings { settings_in self.new ≡ settings_in self.old }
    {
        if let Phase::AwaitingRequest { body } = &mut self.phase {
            body.clear();
        }
    }

    /// Drops the draft of an unfinished C-STORE.
    fn drop_draft<F: Filing>(&mut self, filing: &mut F)
        requires draft { DraftIsThere (kept_of self.old) (F.store filing.old) }
        ensures kept { kept_of self.new ≡ with_storing (kept_of self.new).storing (kept_of self.old) }
        ensures settings { settings_in self.new ≡ settings_in self.old }
        ensures drops { Drops (drafting_in (kept_of self.old).storing) (F.store filing.old) (F.store filing.new) }
    {
        if let Phase::Established { peer: _, message } = &mut self.phase {
            message.storing.leave(filing);
        }
    }

    /// Enters the state `next`, or Sta1 if the send before it failed. Entering Sta1 or Sta13 drops
    /// the draft and all data of the phase; any other `next` must be the current state.
    pub(crate) fn finish<F: Filing>(
        &mut self,
        next: State,
        sent: Result<(), WireFailed>,
        filing: &mut F,
    )
        requires draft { DraftIsThere (kept_of self.old) (F.store filing.old) }
        requires stays { is_remaining next ≡ false → next ≡ (kept_of self.old).state }
        ensures settings { settings_in self.new ≡ settings_in self.old }
        ensures settles { Reaches next sent (kept_of self.old) (kept_of self.new) (F.store filing.old) (F.store filing.new) }
        ensures drafts { KeepsDraft (kept_of self.old) (kept_of self.new) (F.store filing.old) (F.store filing.new) }
    {
        let next = state_after(next, sent);
        match next {
            State::Sta1 => {
                self.drop_draft(filing);
                self.phase = Phase::Ended;
            }
            State::Sta13 => {
                self.drop_draft(filing);
                self.phase = Phase::AwaitingClose;
            }
            _ => {}
        }
    }

    /// Performs a reaction: the event's action and the next state.
    pub(crate) fn perform<W: Wire, F: Filing>(&mut self, due: Reaction, devices: Devices<'_, W, F>)
        requires draft { DraftIsThere (kept_of self.old) (F.store devices.filing.now) }
        requires stays { StaysThen (kept_of self.old).state due }
        ensures drafts { KeepsDraft (kept_of self.old) (kept_of self.new) (F.store devices.entry.filing.now) (after W.line F.store devices.exit).store }
        ensures settings { settings_in self.new ≡ settings_in self.old }
        ensures same { is_remaining (kept_of self.new).state ≡ false → kept_of self.new ≡ kept_of self.old }
        ensures tries { TriesDue (due_at due) (kept_of self.old) (kept_of self.new) (before W.line F.store devices.entry) (after W.line F.store devices.exit) }
    {
        match due {
            Reaction::Nothing => {}
            Reaction::Perform(event, answering) => {
                let (next, sent) = step(self.phase.state(), event, answering, devices.wire);
                self.finish(next, sent, devices.filing);
            }
            Reaction::Release => {
                let (_, asked) = act(State::Sta6, Event::ReleaseRq);
                let answering = Answering::Nothing;
                let (next, sent) = step(asked, Event::UserReleases, answering, devices.wire);
                self.finish(next, sent, devices.filing);
            }
        }
    }

    /// Returns the reaction to an invalid head of a presentation data value, or to remaining bytes
    /// that are none: an A-ABORT and the decision `decided`, if presentation data values are
    /// handled, else nothing.
    pub(crate) fn on_invalid(&mut self, decided: Decision) -> Reaction
        ensures settings { settings_in self.new ≡ settings_in self.old }
        ensures storing { (kept_of self.new).storing ≡ (kept_of self.old).storing }
        ensures stays { StaysThen (kept_of self.new).state result }
        ensures due { (store : Store) → JudgesInvalid decided (kept_of self.old) (kept_of self.new) result store }
    {
        if !self.accepts_pdvs() {
            return Reaction::Nothing;
        }
        self.refused = true;
        self.decided = decided;
        Reaction::Perform(Event::Invalid, Answering::Abort(INVALID_PARAMETER))
    }
}
