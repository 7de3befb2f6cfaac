//! One association of the acceptor, driven by inputs.
ghost use Rattle.std.specs.Prelude.{◌≡◌, ◌≤◌, ◌<◌, ◌+◌, ◌*◌, ◌-◌, ◌^◌, false};
ghost use Rattle.pdu.specs.Deframed.{position_of};
ghost use Rattle.pdu.specs.Steps.{body_kind, body_due, fragment_due};
ghost use Rattle.engine.specs.Kept.{kept_of, accepts_pdvs_in};
ghost use Rattle.engine.specs.machine.Capacity.{BodyFits, FragmentFits};
ghost use Rattle.engine.specs.machine.Skips.{in_pdv_head};

mod consuming;
mod fields;

use crate::devices::Devices;
use crate::phase::Phase;
use crate::provider::Provider;
use crate::sending::{Answering, Reaction};
use acceptor::{Event, State};
use decisions::Decision;
use negotiate::Config;
use part10::Filing;
use pdu::{Deframer, Wire};

/// An association with one peer, from the opening of the transport connection to its end (PS3.8
/// section 9.2). It reads no socket itself: each method handles one input, and sends and stores
/// through the `wire` and the `filing` that it is given. These must be the same at every call.
///
/// The const parameters are limits, each at most 2^24: `A`, at least 256, is the bytes of the body
/// of an A-ASSOCIATE-RQ, plus 12; `C` the bytes of a command set; `V`, at least 140, the bytes of
/// kept values of a data set and of one header; `D`, at least 2, the open sequences and items of a
/// data set.
#[derive(Drop)]
pub struct Association<'c, const A: usize, const C: usize, const V: usize, const D: usize> {
    /// Divides the received bytes into events.
    deframer: Deframer,
    provider: Provider<'c, A, C, V, D>,
    ghost body_fits: { BodyFits (A - 12) (kept_of provider) (body_kind (position_of deframer)) (body_due (position_of deframer)) },
    ghost fragment_fits: { FragmentFits (kept_of provider) (fragment_due (position_of deframer)) },
    ghost headless: { accepts_pdvs_in (kept_of provider) ≡ false → in_pdv_head (position_of deframer) ≡ false },
}

impl<'c, const A: usize, const C: usize, const V: usize, const D: usize> Association<
    'c,
    A,
    C,
    V,
    D,
> {
    ghost use Rattle.std.specs.Prelude.{Bool, List, [], true, false};
    ghost use Rattle.acceptor.specs.declared.state.State.TheVariants.{Sta1, Sta6};
    ghost use Rattle.acceptor.specs.Effect.{timer_runs};
    ghost use Rattle.negotiate.specs.Settings.{settings_of};
    ghost use Rattle.part10.specs.Store.{Store};
    ghost use Rattle.pdu.specs.Deframed.{IsAt};
    ghost use Rattle.engine.specs.Devices.{devices};
    ghost use Rattle.engine.specs.Drafts.{IsThere};
    ghost use Rattle.engine.specs.Fields.{decided_in, drafting_of, fields_of, held_in, settings_in, state_of};
    ghost use Rattle.engine.specs.Held as holding;
    ghost use Rattle.engine.specs.Held.{Held, accepted_most};
    ghost use Rattle.engine.specs.Inputs.{Received, Bytes, Close, Expiry, UserAbort};
    ghost use Rattle.engine.specs.OutputLaws.{SendsFew};
    ghost use Rattle.engine.specs.Reached.{reached};
    ghost use Rattle.engine.specs.Stands.{Stands};
    ghost use Rattle.engine.specs.Timeline.{Happened};
    ghost use Rattle.engine.specs.MovesOn.{EndsWithPart, HasCommand, HasDecided, HasInputLimit, HoldsBytes, MovesOn, StaysOnceEnded};
    ghost use Rattle.engine.specs.machine.PerformsReaction.{Stays};
    ghost use Rattle.engine.specs.machine.Events.{MovesOutside};
    ghost use Rattle.engine.specs.machine.Lent.{before, after};
    ghost use Rattle.engine.specs.Run.{rooms_of};

    /// Creates the association of a transport connection that was just opened: it awaits an
    /// A-ASSOCIATE-RQ, and the ARTIM timer runs.
    pub fn open(config: &'c Config) -> Self
        requires least { 256 ≤ A }
        requires greatest { A ≤ 2 ^ 24 }
        requires command_greatest { C ≤ 2 ^ 24 }
        requires least_kept { 140 ≤ V }
        requires greatest_kept { V ≤ 2 ^ 24 }
        requires least_levels { 2 ≤ D }
        requires greatest_levels { D ≤ 2 ^ 24 }
        ensures no_draft { drafting_of result ≡ false }
        ensures settings { settings_in result ≡ settings_of config.now }
        ensures stands { (store : Store) → Stands (rooms_of A C V D) (settings_of config.now) [] [] false (fields_of result) store }
    {
        Association {
            deframer: Deframer::new(),
            provider: Provider::open(config),
        }
    }

    /// Returns the state of the acceptor (PS3.8 section 9.2.1).
    pub fn state(&self) -> State
        ensures { result ≡ state_of self.now }
    {
        self.provider.phase.state()
    }

    /// Returns whether the ARTIM timer runs: in Sta2, awaiting an A-ASSOCIATE-RQ, and in Sta13,
    /// awaiting the close of the transport connection.
    pub fn artim(&self) -> bool
        ensures { result ≡ timer_runs (state_of self.now) }
    {
        self.state().timer_runs()
    }

    /// Returns whether the filing has the draft of an unfinished C-STORE of this association.
    pub fn drafting(&self) -> bool
        ensures { result ≡ drafting_of self.now }
    {
        self.provider.drafting()
    }

    /// Returns what the association decided last, since the head of the last PDU that it received
    /// before its end.
    ///
    /// `decided`: the result is what the timeline of the association's inputs determines.
    pub fn decision(&self) -> Decision
        ensures kept { result ≡ decided_in self.now }
        ensures decided { HasDecided self.now result }
    {
        self.provider.decided
    }

    /// Returns the bytes of the command set of the unfinished message that were received so far:
    /// all of them from the decision that its data set must follow until the message is answered.
    ///
    /// `command`: they are those of the unfinished message in the timeline of the inputs.
    pub fn command(&self) -> &[u8]
        ensures command { HasCommand self.now result.now }
    {
        self.provider.command()
    }

    /// Returns how many received bytes the association holds in memory: those of an unfinished head
    /// and of the body of an A-ASSOCIATE-RQ; 20, and 4 for each presentation context, of an
    /// accepted one; those of an unfinished command set; and what
    /// [`Walker::held`](sequence::Walker::held) counts of a data set. No field holds other received
    /// bytes.
    pub fn held(&self) -> usize
        ensures held { HoldsBytes self.now result }
        ensures sum { result ≡ held_in (fields_of self.now) }
        ensures room { result ≤ A + C + V + 16 * D }
        ensures accepted_room { state_of self.now ≡ Sta6 → result ≤ accepted_most + C + V + 16 * D }
    {
        self.deframer.held() + self.provider.held()
    }

    /// Returns how many bytes may be passed to `feed` at once so that it sends at most 18,600:
    /// those that are missing from the unfinished part of a PDU (its head, its body, the head of a
    /// presentation data value, a fragment, or the rest of a PDU that is skipped), and at least
    /// one.
    ///
    /// `ends`: this many bytes complete the part, unless the association has ended; fewer decide
    /// nothing.
    pub fn input_limit(&self) -> usize
        ensures some { 0 < result }
        ensures few { HasInputLimit self.now result }
        ensures ends { EndsWithPart self.now result }
    {
        let due = self.deframer.due();
        if self.is_ended() || due == 0 {
            return 1;
        }
        due
    }

    /// Handles the next bytes received from the peer, however many.
    ///
    /// `filing` must be the same as at earlier calls: the draft of an unfinished C-STORE must still
    /// be in it.
    pub fn feed<W: Wire, F: Filing>(&mut self, piece: &[u8], wire: &mut W, filing: &mut F)
        requires draft { IsThere (drafting_of self.old) (F.store filing.old) }
        ensures draft { IsThere (drafting_of self.new) (F.store filing.new) }
        ensures settings { settings_in self.new ≡ settings_in self.old }
        ensures moved { MovesOn self.old self.new (Bytes piece.now) (devices (W.line wire.old) (F.store filing.old)) (devices (W.line wire.new) (F.store filing.new)) }
        ensures ended { StaysOnceEnded self.old self.new (devices (W.line wire.old) (F.store filing.old)) (devices (W.line wire.new) (F.store filing.new)) }
    {
        if self.is_ended() {
            return;
        }
        self.take_all(piece, Devices { wire, filing });
        self.drop_heads();
    }

    /// Handles the close of the transport connection by the peer. `filing` must be the same as at
    /// every call ([`feed`](Association::feed)).
    pub fn closed<W: Wire, F: Filing>(&mut self, wire: &mut W, filing: &mut F)
        requires draft { IsThere (drafting_of self.old) (F.store filing.old) }
        ensures draft { IsThere (drafting_of self.new) (F.store filing.new) }
        ensures settings { settings_in self.new ≡ settings_in self.old }
        ensures moved { MovesOn self.old self.new Close (devices (W.line wire.old) (F.store filing.old)) (devices (W.line wire.new) (F.store filing.new)) }
        ensures ended { StaysOnceEnded self.old self.new (devices (W.line wire.old) (F.store filing.old)) (devices (W.line wire.new) (F.store filing.new)) }
    {
        self.perform(Event::Closed, Devices { wire, filing });
    }

    /// Handles the expiry of the ARTIM timer. `filing` must be the same as at every call
    /// ([`feed`](Association::feed)).
    pub fn expired<W: Wire, F: Filing>(&mut self, wire: &mut W, filing: &mut F)
        requires draft { IsThere (drafting_of self.old) (F.store filing.old) }
        ensures draft { IsThere (drafting_of self.new) (F.store filing.new) }
        ensures settings { settings_in self.new ≡ settings_in self.old }
        ensures moved { MovesOn self.old self.new Expiry (devices (W.line wire.old) (F.store filing.old)) (devices (W.line wire.new) (F.store filing.new)) }
        ensures ended { StaysOnceEnded self.old self.new (devices (W.line wire.old) (F.store filing.old)) (devices (W.line wire.new) (F.store filing.new)) }
    {
        self.perform(Event::Expired, Devices { wire, filing });
    }

    /// Aborts the association as its local user (A-ABORT request primitive). `filing` must be the
    /// same as at every call ([`feed`](Association::feed)).
    pub fn local_abort<W: Wire, F: Filing>(&mut self, wire: &mut W, filing: &mut F)
        requires draft { IsThere (drafting_of self.old) (F.store filing.old) }
        ensures draft { IsThere (drafting_of self.new) (F.store filing.new) }
        ensures settings { settings_in self.new ≡ settings_in self.old }
        ensures moved { MovesOn self.old self.new UserAbort (devices (W.line wire.old) (F.store filing.old)) (devices (W.line wire.new) (F.store filing.new)) }
        ensures ended { StaysOnceEnded self.old self.new (devices (W.line wire.old) (F.store filing.old)) (devices (W.line wire.new) (F.store filing.new)) }
    {
        self.perform(Event::UserAborts, Devices { wire, filing });
    }

    /// Returns whether the association has ended, by a close or a failed send. After its end it
    /// ignores every input.
    pub fn is_ended(&self) -> bool
        ensures ended { result ≡ holding.is_ended (state_of self.now) }
        ensures no_draft { result ≡ true → drafting_of self.now ≡ false }
    {
        matches!(self.provider.phase, Phase::Ended)
    }

    /// Performs an event that the received bytes do not cause: a close, the timer's expiry or a
    /// local abort.
    fn perform<W: Wire, F: Filing>(&mut self, event: Event, devices: Devices<'_, W, F>)
        requires draft { IsThere (drafting_of self.old) (F.store devices.filing.now) }
        requires stays { Stays (state_of self.old) event }
        ensures draft { IsThere (drafting_of self.new) (after W.line F.store devices.exit).store }
        ensures settings { settings_in self.new ≡ settings_in self.old }
        ensures moved { MovesOutside (rooms_of A C V D) (settings_in self.old) event (fields_of self.old) (fields_of self.new)
            (before W.line F.store devices.entry) (after W.line F.store devices.exit) }
        ensures ended { StaysOnceEnded self.old self.new (before W.line F.store devices.entry) (after W.line F.store devices.exit) }
    {
        if self.is_ended() {
            return;
        }
        self.provider
            .perform(Reaction::Perform(event, Answering::Nothing), devices);
        self.provider.skip_uncounted(&mut self.deframer);
        self.drop_heads();
    }

    /// Drops the bytes of an unfinished head if the association has ended.
    fn drop_heads(&mut self)
        ensures settings { settings_in self.new ≡ settings_in self.old }
        ensures kept { kept_of self.new.provider ≡ kept_of self.old.provider }
        ensures same { holding.is_ended (state_of self.old) ≡ false → fields_of self.new ≡ fields_of self.old }
        ensures headless { holding.is_ended (state_of self.old) ≡ true → IsAt self.new.deframer [] [] }
    {
        if self.is_ended() {
            self.deframer = Deframer::new();
        }
    }
}
