//! Joins the fragments of DIMSE messages.
ghost use Rattle.std.specs.Prelude.{◌≡◌, ◌-◌, ◌≤◌, ◌^◌, ◌++◌, [], List, ℕ, length, Ok, Some, IfOk, OnOk, OnErr};
ghost use Rattle.pdu.specs.Heads.{pdv_head_of};
ghost use Rattle.dimse.specs.Messages.{Started, NoMessage, brought, head_refusal};
ghost use Rattle.dimse.specs.Command.{CommandRecord};
ghost use Rattle.dimse.specs.Joining.{ShowsMessage, InContext, Joins, completed_command, joined_in, ok_unless, pdv_of, unfinished_of, without_set};
ghost use Rattle.dimse.specs.machine.Fields.{ended_as};
ghost use Rattle.dimse.specs.Reading.{command_in};
ghost use Rattle.dimse.specs.declared.joined.Joined.{Joined};

use crate::command::Command;
use crate::fault::DimseFault;
use crate::joined::Joined;
use crate::reading::read_command;
use crate::stage::Stage;
use crate::unfinished::Unfinished;
use arrayvec::ArrayVec;
use pdu::PdvHead;
use std::marker::Model;

mod fields;

/// Joins the fragments of DIMSE messages, one message at a time (PS3.7 section 6.3; PS3.8 annex E).
/// Buffers the command set, of at most `C` bytes, and no byte of the data set.
///
/// For each presentation data value call `head`, then `take` with the bytes of the fragment in
/// chunks, then `end`.
#[derive(Drop)]
pub struct Join<const C: usize> {
    stage: Stage,
    context: u8,
    command: ArrayVec<u8, C>,
    remaining: u32,
    last: bool,
}

impl<const C: usize> Model for Join<C> {
    ghost use Rattle.arrayvec.specs.ArrayVec.{array_vec_len};
    ghost use Rattle.dimse.specs.Joining.{Joining};
    ghost use Rattle.dimse.specs.machine.Fields.{HasRoom, message_at};

    ghost Value = { Joining };

    ghost view = { λ j. record { message = message_at j.stage j.context j.command.items; command = j.command.items; remaining = j.remaining; last = j.last } };

    ghost invariant = { λ j. HasRoom C j.stage (array_vec_len j.command) j.remaining };
}

impl<const C: usize> Join<C> {
    /// Creates a `Join` before the first message.
    pub fn new() -> Join<C>
        requires { C ≤ 2 ^ 24 }
        ensures { ShowsMessage C result NoMessage [] }
    {
        Join {
            stage: Stage::Between,
            context: 0,
            command: ArrayVec::new(),
            remaining: 0,
            last: false,
        }
    }

    /// Returns why the next fragment, with this head, is rejected, or `None` if it is accepted.
    fn refusal(&self, head: &PdvHead) -> Option<DimseFault>
        ensures { result ≡ head_refusal C self.now.message head.now }
    {
        let size = head.length.saturating_sub(2) as usize;
        match (self.stage, head.command) {
            (Stage::Command | Stage::Set, _) if head.context != self.context => {
                Some(DimseFault::OtherContext)
            }
            (Stage::Between | Stage::Command, false) | (Stage::Set, true) => {
                Some(DimseFault::WrongKind)
            }
            (Stage::Between, true) if size > C => Some(DimseFault::CommandTooLong),
            (Stage::Command, true) if size > C - self.command.len() => {
                Some(DimseFault::CommandTooLong)
            }
            _ => None,
        }
    }

    /// Starts the fragment with this head of a presentation data value. An error leaves `self`
    /// unchanged. It is the first of these that applies: `OtherContext` if the message's first
    /// fragment has another presentation context ID; `WrongKind` if the fragment is of a data set
    /// where a command set is required, or the reverse; `CommandTooLong` if the command set would
    /// have more than `C` bytes.
    pub fn head(&mut self, head: &PdvHead) -> Result<(), DimseFault>
        ensures judged { (message : Started) → self.old.message ≡ without_set message → result ≡ ok_unless (head_refusal C message head.now) }
        ensures started { (message : Started) (bytes : List ℕ) → self.old.message ≡ without_set message → length bytes ≡ 6 → head.now ≡ pdv_head_of bytes
            → OnOk result (ShowsMessage C self.new message bytes) }
        ensures remaining { OnOk result (self.new.remaining ≡ head.now.length - 2) }
        ensures refused { OnErr result (self.new ≡ self.old) }
    {
        if let Some(fault) = self.refusal(head) {
            return Err(fault);
        }
        if let Stage::Between = self.stage {
            self.command.clear();
            self.context = head.context;
            self.stage = Stage::Command;
        }
        self.remaining = head.length.saturating_sub(2);
        self.last = head.last;
        Ok(())
    }

    /// Consumes the next bytes of the fragment, at most as many as are missing. Bytes of a command
    /// set are buffered, those of a data set only counted.
    pub fn take(&mut self, part: &[u8])
        requires { length part.now ≤ self.old.remaining }
        ensures shows { (message : Started) (started : List ℕ) → ShowsMessage C self.old message started → ShowsMessage C self.new message (started ++ part.now) }
        ensures remaining { self.new.remaining ≡ self.old.remaining - length part.now }
    {
        if let Stage::Command = self.stage {
            // This fits: `head` rejects longer fragments.
            let _consumed = self.command.try_extend_from_slice(part);
        }
        self.remaining -= part.len() as u32;
    }

    /// Returns the state of the message after the end of the fragment, and the command if the
    /// fragment completes the command set. Fails if that is invalid.
    fn joined(&self) -> Result<(Joined, Option<Command>), DimseFault>
        ensures { result ≡ ended_as self.now.message self.now.last }
    {
        match self.stage {
            Stage::Command if self.last => {
                let command = read_command(self.command.as_slice())?;
                if command.with_data() {
                    Ok((Joined::DataDue, Some(command)))
                } else {
                    Ok((Joined::Message, Some(command)))
                }
            }
            Stage::Set if self.last => Ok((Joined::Message, None)),
            _ => Ok((Joined::More, None)),
        }
    }

    /// Ends the fragment after its last byte. Returns the state of the message, and the command if
    /// the fragment completes the command set. If that is invalid, the error is that of
    /// [`read_command`](crate::read_command) (`BadCommand`, `UnknownField` or `WrongKind`), and
    /// `self` is unchanged. After `Message`, `command` still returns the command set, until `clear`
    /// or the next message.
    pub fn end(&mut self) -> Result<(Joined, Option<Command>), DimseFault>
        ensures joins { (message : Started) (started : List ℕ) → 6 ≤ length started → ShowsMessage C self.old message started
            → Joins C message (brought message (pdv_of started)) self.old self.new (joined_in result) }
        ensures completed { IfOk result (λ x. x.1 ≡ completed_command self.old.message self.old.last) }
        ensures read { (joined : Joined) (command : CommandRecord) → result ≡ Ok (joined, Some command) → command_in self.new.command ≡ Ok command }
    {
        let (joined, command) = self.joined()?;
        match joined {
            Joined::More => {}
            Joined::DataDue => self.stage = Stage::Set,
            Joined::Message => self.stage = Stage::Between,
        }
        self.remaining = 0;
        self.last = false;
        Ok((joined, command))
    }

    /// Returns what was received of the unfinished message.
    pub fn unfinished(&self) -> Unfinished
        ensures { result ≡ unfinished_of self.now.message }
    {
        match self.stage {
            Stage::Between => Unfinished::Nothing,
            Stage::Command => Unfinished::Command(self.context, self.command.len()),
            Stage::Set => Unfinished::Set(self.context),
        }
    }

    /// Returns the presentation context ID of the unfinished message.
    pub fn context(&self) -> u8
        ensures { InContext self.now.message result }
    {
        // One arm for each line of the definition: the proof goes through them one by one.
        match self.stage {
            Stage::Between => self.context,
            Stage::Command => self.context,
            Stage::Set => self.context,
        }
    }

    /// Returns the bytes of the command set so far: all of them from the end of its last fragment
    /// until `clear` or the next message.
    pub fn command(&self) -> &[u8]
        ensures value { result.now ≡ self.now.command }
        ensures fits { length self.now.command ≤ C }
    {
        self.command.as_slice()
    }

    /// Discards the message, so that the next fragment must be the first of a command set.
    pub fn clear(&mut self)
        ensures { ShowsMessage C self.new NoMessage [] }
    {
        self.stage = Stage::Between;
        self.command.clear();
        self.remaining = 0;
        self.last = false;
    }
}
