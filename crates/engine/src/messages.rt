//! Handles the presentation data values of an established association: joins their fragments to
//! messages, and answers the commands.
ghost use Rattle.std.specs.Prelude.{◌≡◌, ◌≤◌, ◌+◌, ◌-◌, ◌^◌, ℕ, length, None, Ok, Some, Err};
ghost use Rattle.dimse.specs.Command.{CommandRecord};
ghost use Rattle.dimse.specs.Reading.{command_in};
ghost use Rattle.dimse.specs.declared.fault.DimseFault.{DimseFault};
ghost use Rattle.pdu.specs.Sent.{Line};

use crate::devices::Devices;
use crate::heads::INVALID_PARAMETER;
use crate::phase::{Message, Peer, Phase};
use crate::provider::Provider;
use crate::sending::{Answering, Reaction};
use crate::status::echo_status;
use crate::stores::{begin_store, is_of_context};
use acceptor::{Event, State};
use decisions::Decision;
use dimse::{Command, Joined, command_field, read_command, write_response};
use element::AeTitle;
use negotiate::Config;
use part10::Filing;
use pdu::{PdvHead, Wire, WireFailed};

/// The peer and the presentation context ID of a message, with the settings in which the context is
/// looked up.
#[derive(Clone, Copy)]
struct Origin<'a, 'c> {
    peer: &'a Peer,
    config: &'c Config,
    context: u8,
}

/// Returns the command in a whole command set: `read`, unless it is still to be read. Returns `None`
/// if the set is invalid.
fn command_of(read: Option<Command>, set: &[u8]) -> Option<Command>
    requires { (command : CommandRecord) → read ≡ Some command → command_in set.now ≡ Ok command }
    ensures valid { (command : CommandRecord) → result ≡ Some command → command_in set.now ≡ Ok command }
    ensures invalid { result ≡ None → (fault : DimseFault) × (command_in set.now ≡ Err fault) }
{
    match read {
        Some(command) => Some(command),
        None => read_command(set).ok(),
    }
}

impl<const C: usize, const V: usize, const D: usize> Message<C, V, D> {
    ghost use Rattle.engine.specs.Drafts.{IsThere, Drafts};
    ghost use Rattle.engine.specs.StoredData.{drafting_in, stored_of};
    ghost use Rattle.engine.specs.machine.Lent.{before, after};
    ghost use Rattle.engine.specs.machine.Messages.{BeginsData, EndsMessage};

    /// Starts the data set of a message whose complete command set announces one. If the command is
    /// a C-STORE of the SOP class of its presentation context, the data set is walked and written
    /// to a draft; else its bytes are dropped. `read` is the command, unless it is still to be read.
    fn begin<F: Filing>(&mut self, origin: Origin, read: Option<Command>, filing: &mut F)
        requires read { (command : CommandRecord) → read ≡ Some command → command_in self.old.join.command ≡ Ok command }
        requires draft { IsThere (drafting_in (stored_of self.old.storing)) (F.store filing.old) }
        requires least_kept { 140 ≤ V }
        requires greatest_kept { V ≤ 2 ^ 24 }
        requires least_levels { 2 ≤ D }
        requires greatest_levels { D ≤ 2 ^ 24 }
        ensures join { self.new.join ≡ self.old.join }
        ensures drafts { Drafts (drafting_in (stored_of self.old.storing)) (F.store filing.old) (drafting_in (stored_of self.new.storing)) (F.store filing.new) }
        ensures proceeds { BeginsData D origin.entry self.old.join.command (stored_of self.old.storing) (stored_of self.new.storing) (F.store filing.old) (F.store filing.new) }
    {
        let Some(command) = command_of(read, self.join.command()) else {
            return;
        };
        if !command.with_data() {
            return;
        }
        let Some(accepted) = origin.peer.context(origin.config, origin.context) else {
            return;
        };
        if is_of_context(&accepted, &command) {
            let caller = AeTitle(origin.peer.caller);
            let max_data = origin.config.max_data;
            self.storing = begin_store(&accepted, &command, caller, max_data, filing);
        }
    }

    /// Ends a complete message: judges its data set, and sends the response to its command. `read`
    /// is the command, unless it is still to be read. Returns what was decided, and whether the send
    /// succeeded.
    fn reply<W: Wire, F: Filing>(
        &mut self,
        origin: Origin,
        read: Option<Command>,
        devices: Devices<'_, W, F>,
    ) -> (Decision, Result<(), WireFailed>)
        requires read { (command : CommandRecord) → read ≡ Some command → command_in self.old.join.command ≡ Ok command }
        requires draft { IsThere (drafting_in (stored_of self.old.storing)) (F.store devices.filing.now) }
        ensures join { self.new.join ≡ self.old.join }
        ensures drafts { Drafts (drafting_in (stored_of self.old.storing)) (F.store devices.entry.filing.now) (drafting_in (stored_of self.new.storing)) (after W.line F.store devices.exit).store }
        ensures ended { EndsMessage C V D origin.entry self.old.join.command (stored_of self.old.storing) result (before W.line F.store devices.entry) (after W.line F.store devices.exit) }
    {
        let Some(command) = command_of(read, self.join.command()) else {
            return (Decision::Nothing, Ok(()));
        };
        let context = origin.context;
        let max_length = origin.peer.max_length;
        if command.field() == Command::C_ECHO {
            let accepted = origin.peer.context(origin.config, context);
            let status = echo_status(accepted, &command);
            let sent = write_response(&command, status, None, context, max_length, devices.wire);
            return (Decision::Replied(status, None), sent);
        }
        let ended = self.storing.end(&command, devices.filing);
        let sent = write_response(
            &command,
            ended.status,
            ended.detail,
            context,
            max_length,
            devices.wire,
        );
        (Decision::Replied(ended.status, ended.detail), sent)
    }
}

impl<'c, const A: usize, const C: usize, const V: usize, const D: usize> Provider<'c, A, C, V, D> {
    ghost use Rattle.engine.specs.Devices.{devices};
    ghost use Rattle.engine.specs.machine.Lent.{before, after, DraftIsThere, KeepsDraft};
    ghost use Rattle.engine.specs.Kept.{kept_of, settings_in};
    ghost use Rattle.engine.specs.machine.Capacity.{FragmentFits};
    ghost use Rattle.engine.specs.machine.Events.{AcceptsFragment, AcceptsPdvEnd};
    ghost use Rattle.engine.specs.machine.Judged.{StaysThen, JudgesPdvHead};
    ghost use Rattle.part10.specs.Store.{Store};
    ghost use Rattle.engine.specs.Run.{rooms_of};

    /// Handles the head of a presentation data value. A presentation context that was not accepted
    /// leads to an A-ABORT of the service provider; a fragment that does not continue the message
    /// to an abort of the local user.
    pub(crate) fn on_pdv_head(&mut self, head: PdvHead) -> Reaction
        requires two { 2 ≤ head.length }
        ensures settings { settings_in self.new ≡ settings_in self.old }
        ensures storing { (kept_of self.new).storing ≡ (kept_of self.old).storing }
        ensures stays { StaysThen (kept_of self.new).state result }
        ensures fits { FragmentFits (kept_of self.new) (head.length - 2) }
        ensures due { (store : Store) → JudgesPdvHead (rooms_of A C V D) (settings_in self.old) (kept_of self.old) (kept_of self.new) head result store }
    {
        if self.refused {
            return Reaction::Nothing;
        }
        let Phase::Established { peer, message } = &mut self.phase else {
            return Reaction::Nothing;
        };
        let Some(_) = peer.context(self.config, head.context) else {
            self.refused = true;
            self.decided = Decision::ContextRefused(head);
            return Reaction::Perform(Event::Invalid, Answering::Abort(INVALID_PARAMETER));
        };
        match message.join.head(&head) {
            Ok(()) => {
                self.decided = Decision::Fragment(head);
                Reaction::Nothing
            }
            Err(fault) => {
                self.refused = true;
                let unfinished = message.join.unfinished();
                self.decided = Decision::FragmentRefused(head, fault, unfinished);
                Reaction::Perform(Event::UserAborts, Answering::Nothing)
            }
        }
    }

    /// Handles bytes of a fragment.
    pub(crate) fn on_data<F: Filing>(&mut self, part: &[u8], filing: &mut F)
        requires draft { DraftIsThere (kept_of self.old) (F.store filing.old) }
        requires fits { FragmentFits (kept_of self.old) (length part.now) }
        ensures settings { settings_in self.new ≡ settings_in self.old }
        ensures drafts { KeepsDraft (kept_of self.old) (kept_of self.new) (F.store filing.old) (F.store filing.new) }
        ensures fits { (m : ℕ) → FragmentFits (kept_of self.old) (length part.now + m) → FragmentFits (kept_of self.new) m }
        ensures accepts { (l : Line) → AcceptsFragment (rooms_of A C V D) (settings_in self.old) (kept_of self.old) (kept_of self.new) part.now
            (devices l (F.store filing.old)) (devices l (F.store filing.new)) }
    {
        if self.refused {
            return;
        }
        if let Phase::Established { peer: _, message } = &mut self.phase {
            message.join.take(part);
            message.storing.take(part, filing);
        }
    }

    /// Handles the end of a presentation data value. An invalid command set leads to an abort of
    /// the local user.
    pub(crate) fn on_pdv<W: Wire, F: Filing>(&mut self, devices: Devices<'_, W, F>)
        requires draft { DraftIsThere (kept_of self.old) (F.store devices.filing.now) }
        ensures settings { settings_in self.new ≡ settings_in self.old }
        ensures drafts { KeepsDraft (kept_of self.old) (kept_of self.new) (F.store devices.entry.filing.now) (after W.line F.store devices.exit).store }
        ensures does { AcceptsPdvEnd (rooms_of A C V D) (settings_in self.old) (kept_of self.old) (kept_of self.new) (before W.line F.store devices.entry) (after W.line F.store devices.exit) }
    {
        if self.refused {
            return;
        }
        let config = self.config;
        if let Phase::Established { peer, message } = &mut self.phase {
            let origin = Origin {
                peer,
                config,
                context: message.join.context(),
            };
            match message.join.end() {
                Ok((Joined::More, _)) => {}
                Ok((Joined::Message, read)) => {
                    let Devices { wire, filing } = devices;
                    let (decided, sent) = message.reply(origin, read, Devices { wire, filing });
                    message.join.clear();
                    // `reply` has ended the draft of a C-STORE; only the timeline shows that no
                    // other message has a draft.
                    message.storing.leave(filing);
                    self.decided = decided;
                    self.finish(State::Sta6, sent, filing);
                }
                Ok((Joined::DataDue, read)) => {
                    self.decided = Decision::DataDue;
                    message.begin(origin, read, devices.filing);
                }
                Err(fault) => {
                    self.decided = Decision::CommandRefused(
                        fault,
                        command_field(message.join.command()),
                    );
                    self.perform(
                        Reaction::Perform(Event::UserAborts, Answering::Nothing),
                        devices,
                    );
                    self.refused = true;
                }
            }
        }
    }
}
