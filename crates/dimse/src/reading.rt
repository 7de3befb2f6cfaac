//! Reads the command set of a C-ECHO-RQ or C-STORE-RQ.
ghost use Rattle.std.specs.Prelude.{◌≡◌, true, IfOk, IfErr};
ghost use Rattle.dimse.specs.Command.{CommandFault, CommandRecord, CommandText, command_of, request_of, store_command};
ghost use Rattle.dimse.specs.Reading.{command_in, field_in};
ghost use Rattle.element.specs.Uid.{is_uid};

use crate::command::Command;
use crate::element_numbers::{CLASS, DATA_SET_TYPE, FIELD, INSTANCE, MESSAGE, NO_DATA_SET};
use crate::fault::DimseFault;
use crate::set::CommandSet;
use element::Uid;

#[tactic(auto, unfolding(crate::specs::Command::store_command))]
fn read_store(set: &CommandSet, class: Uid, message: u16) -> Result<Command, DimseFault>
    requires { is_uid class ≡ true }
    ensures { result ≡ store_command class message set.now }
{
    let instance = set.uid(INSTANCE)?;
    Ok(Command::store(class, message, instance))
}

fn read_request(
    set: &CommandSet,
    class: Uid,
    field: u16,
    message: u16,
    kind: u16,
) -> Result<Command, DimseFault>
    requires { is_uid class ≡ true }
    ensures { result ≡ request_of class field message kind set.now }
{
    match field {
        Command::C_ECHO if kind == NO_DATA_SET => Ok(Command::echo(class, message)),
        Command::C_STORE if kind != NO_DATA_SET => read_store(set, class, message),
        Command::C_ECHO | Command::C_STORE => Err(DimseFault::WrongKind),
        _ => Err(DimseFault::UnknownField),
    }
}

#[tactic(auto, unfolding(crate::specs::Command::command_of))]
fn read_set(set: &CommandSet) -> Result<Command, DimseFault>
    ensures { result ≡ command_of set.now }
{
    let class = set.uid(CLASS)?;
    let field = set.number(FIELD)?;
    let message = set.number(MESSAGE)?;
    let kind = set.number(DATA_SET_TYPE)?;
    read_request(set, class, field, message, kind)
}

#[tactic(auto, unfolding(crate::specs::Reading::command_in))]
fn read_text(bytes: &[u8]) -> Result<Command, DimseFault>
    ensures { result ≡ command_in bytes.now }
{
    match CommandSet::read(bytes) {
        Some(set) => read_set(&set),
        None => Err(DimseFault::BadCommand),
    }
}

/// Reads a whole command set (PS3.7 sections 6.3.1, 9.3.1 and 9.3.5): Implicit VR Little Endian,
/// strictly ascending tags of group 0000, even lengths.
///
/// The error is the first of these that applies: `BadCommand` if the bytes are not a command set,
/// or the Affected SOP Class UID, the Command Field, the Message ID or the Command Data Set Type is
/// missing or invalid; `UnknownField` if the Command Field is neither that of C-ECHO-RQ nor that of
/// C-STORE-RQ; `WrongKind` if a C-ECHO announces a data set or a C-STORE announces none;
/// `BadCommand` if a C-STORE has no valid Affected SOP Instance UID.
pub fn read_command(bytes: &[u8]) -> Result<Command, DimseFault>
    ensures exact { result ≡ command_in bytes.now }
    ensures found { IfOk result (λ c. CommandText c bytes.now) }
    ensures only { (c : CommandRecord) → CommandText c bytes.now → result ≡ Ok c }
    ensures fault { IfErr result (λ f. CommandFault f bytes.now) }
{
    read_text(bytes)
}

/// Returns the Command Field (0000,0100) of a command set, which need not be a valid command, or
/// `None` if the bytes are not a command set or have no valid Command Field.
#[tactic(auto, unfolding(crate::specs::Reading::field_in))]
pub fn command_field(bytes: &[u8]) -> Option<u16>
    ensures { result ≡ field_in bytes.now }
{
    match CommandSet::read(bytes) {
        Some(set) => match set.number(FIELD) {
            Ok(field) => Some(field),
            Err(_) => None,
        },
        None => None,
    }
}
