//! The class and instance of a store, and its reply.
use crate::event::{Value, shown};
use crate::text::Text;
use dimse::element_numbers::{CLASS, FIELD, INSTANCE};
use dimse::{Command, CommandSet, Detail, cause_name};
use element::unpadded;

/// A UID, or its keyword, as the log shows it.
pub(crate) type UidText = Text<64>;

/// Returns a UID of a command set without padding, or an empty text if it has none.
fn uid_of(set: &CommandSet, number: u16) -> UidText {
    let mut uid = UidText::new();
    if let Some(bytes) = set.value(number) {
        uid.add(unpadded(bytes));
    }
    uid
}

/// A UID element of a command set that is invalid or missing.
#[derive(Drop)]
pub(crate) struct BadElement {
    pub number: u16,
    /// The value, empty if missing.
    pub value: UidText,
}

impl BadElement {
    /// Returns the first invalid UID element of this command set of a C-ECHO or C-STORE, or `None`.
    pub(crate) fn of(command: &[u8]) -> Option<BadElement> {
        let set = CommandSet::read(command)?;
        let numbers: &[u16] = match set.number(FIELD) {
            Ok(Command::C_STORE) => &[CLASS, INSTANCE],
            Ok(Command::C_ECHO) => &[CLASS],
            _ => return None,
        };
        for number in numbers {
            if set.uid(*number).is_err() {
                return Some(BadElement {
                    number: *number,
                    value: uid_of(&set, *number),
                });
            }
        }
        None
    }
}

/// The response to a C-STORE: its status, and the cause of a failure.
#[derive(Clone, Copy, Debug, PartialEq, Eq)]
pub(crate) struct Reply {
    pub status: u16,
    pub detail: Option<Detail>,
}

/// Returns a status in hexadecimal.
pub(crate) fn shown_status<'a>(status: u16) -> Value<'a> {
    shown(format_args!("{status:04X}"))
}

impl Reply {
    /// Returns the status, the cause of a failure, and its tag, as the response's Error Comment and
    /// Offending Element name them.
    pub(crate) fn values<'a>(self) -> (Value<'a>, Value<'a>, Value<'a>) {
        let status = shown_status(self.status);
        let Some(Detail { number, tag }) = self.detail else {
            return (status, Value::Absent, Value::Absent);
        };
        let Some(name) = cause_name(number) else {
            return (status, Value::Absent, Value::Absent);
        };
        let fault = shown(format_args!("fault {number:02} {name}"));
        if tag.0 == 0 && tag.1 == 0 {
            return (status, fault, Value::Absent);
        }
        (
            status,
            fault,
            shown(format_args!("{:04x},{:04x}", tag.0, tag.1)),
        )
    }
}
