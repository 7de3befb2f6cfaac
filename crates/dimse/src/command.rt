//! The DIMSE requests that this product accepts: C-ECHO and C-STORE.
ghost use Rattle.std.specs.Prelude.{◌≡◌, true, false, Some, None, option_map};
ghost use Rattle.dimse.specs.Command.{c_echo, c_store, is_request, is_uid_or_none};
ghost use Rattle.element.specs.Uid.{is_uid};

use crate::operation::Operation;
use element::Uid;
use std::marker::Model;

/// A C-ECHO-RQ or C-STORE-RQ (PS3.7 sections 9.3.1 and 9.3.5). A C-STORE has an Affected SOP
/// Instance UID and is followed by a data set; a C-ECHO has neither.
#[derive(Debug, Drop)]
pub struct Command {
    class: Uid,
    message: u16,
    operation: Operation,
}

impl Model for Command {
    ghost use Rattle.dimse.specs.Command.{CommandRecord, IsCommand};
    ghost use Rattle.dimse.specs.machine.Operations.{request_for};

    ghost Value = { CommandRecord };

    ghost view = { λ c. request_for c.class c.message c.operation };

    ghost invariant = { λ c. IsCommand (request_for c.class c.message c.operation) };
}

impl Command {
    /// The Command Field (0000,0100) of a C-STORE-RQ.
    pub const C_STORE: u16 = 0x0001;

    /// The Command Field (0000,0100) of a C-ECHO-RQ.
    pub const C_ECHO: u16 = 0x0030;

    /// Returns a C-ECHO request.
    pub(crate) fn echo(class: Uid, message: u16) -> Command
        requires { is_uid class ≡ true }
        ensures { result ≡ record { class = class; field = c_echo; message = message; with_data = false; instance = None } }
    {
        Command {
            class,
            message,
            operation: Operation::Echo,
        }
    }

    /// Returns a C-STORE request.
    pub(crate) fn store(class: Uid, message: u16, instance: Uid) -> Command
        requires class { is_uid class ≡ true }
        requires instance { is_uid instance ≡ true }
        ensures { result ≡ record { class = class; field = c_store; message = message; with_data = true; instance = Some instance } }
    {
        Command {
            class,
            message,
            operation: Operation::Store { instance },
        }
    }

    /// Returns the Affected SOP Class UID (0000,0002).
    pub fn class(&self) -> &Uid
        ensures value { result.now ≡ self.now.class }
        ensures is_uid { is_uid self.now.class ≡ true }
    {
        &self.class
    }

    /// Returns the Command Field (0000,0100): 0001H for C-STORE-RQ, 0030H for C-ECHO-RQ.
    pub fn field(&self) -> u16
        ensures value { result ≡ self.now.field }
        ensures kind { is_request self.now.field self.now.with_data self.now.instance ≡ true }
    {
        match self.operation {
            Operation::Echo => Command::C_ECHO,
            Operation::Store { .. } => Command::C_STORE,
        }
    }

    /// Returns the Message ID (0000,0110), which the response repeats.
    pub fn message(&self) -> u16
        ensures { result ≡ self.now.message }
    {
        self.message
    }

    /// Returns whether a data set follows the command set: true for a C-STORE.
    pub fn with_data(&self) -> bool
        ensures { result ≡ self.now.with_data }
    {
        matches!(self.operation, Operation::Store { .. })
    }

    /// Returns the Affected SOP Instance UID (0000,1000) of a C-STORE, or `None` for a C-ECHO.
    pub fn instance(&self) -> Option<&Uid>
        ensures value { option_map (λ u. u.now) result ≡ self.now.instance }
        ensures is_uid { is_uid_or_none self.now.instance ≡ true }
    {
        match &self.operation {
            Operation::Echo => None,
            Operation::Store { instance } => Some(instance),
        }
    }
}
