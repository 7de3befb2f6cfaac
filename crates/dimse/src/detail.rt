//! The cause of a failed C-STORE, as its response reports it.
ghost use Rattle.std.specs.Prelude.{◌≡◌, ◌≤◌, length, option_map, IfSome};
ghost use Rattle.dimse.specs.Detail as spelling;

use arrayvec::ArrayVec;
use element::{Rule, Tag};

/// The greatest size in bytes of an Error Comment (0000,0902): `fault`, a space, two digits, a
/// space, a name of at most 16 bytes, and padding to an even length.
pub(crate) const COMMENT: usize = 26;

/// The cause of a failed C-STORE. The response reports it as Offending Element (0000,0901) and
/// Error Comment (0000,0902).
#[derive(Clone, Copy, Debug, PartialEq, Eq)]
pub struct Detail {
    /// The number of the rule that the data set breaks ([`Rule`]), 10 to 17, 20 or 21; or
    /// [`CLASS_MISMATCH`] or [`INSTANCE_MISMATCH`].
    pub number: u8,
    /// The tag of the offending element, (0000,0000) if there is none.
    pub tag: Tag,
}

/// The cause number if the SOP Class UID of the data set is missing, invalid, or not the Affected
/// SOP Class UID of the command.
pub const CLASS_MISMATCH: u8 = 45;

/// The cause number if the SOP Instance UID of the data set is missing, invalid, or not the
/// Affected SOP Instance UID of the command.
pub const INSTANCE_MISMATCH: u8 = 46;

/// Returns whether this rule is a limit of the receiver (too deep or too long). The C-STORE that
/// breaks it has status A700, whose response reports no cause.
fn is_limit(rule: Rule) -> bool
    ensures { result ≡ spelling.is_limit rule }
{
    matches!(rule, Rule::TooDeep | Rule::TooLong)
}

/// Returns the name of the cause with this number (see [`Detail::number`]), at most 16 bytes, or
/// `None` if no cause has it.
pub fn cause_name(number: u8) -> Option<&'static str>
    ensures value { option_map (λ name. name.now) result ≡ spelling.cause_name number }
    ensures short { IfSome result (λ name. length name.now ≤ 16) }
{
    match number {
        CLASS_MISMATCH => Some("ClassMismatch"),
        INSTANCE_MISMATCH => Some("InstanceMismatch"),
        _ => match Rule::of(number) {
            Some(rule) if !is_limit(rule) => Some(rule.name()),
            _ => None,
        },
    }
}

/// Returns the Error Comment of a cause with this number, below 100, and name, as `fault 17
/// Overrun`, padded with a space to an even length.
pub(crate) fn comment(number: u8, name: &str) -> ArrayVec<u8, COMMENT>
    requires { length name.now ≤ 16 }
    ensures { result.items ≡ spelling.comment number name.now }
{
    let mut text = ArrayVec::new();
    let _fault = text.try_extend_from_slice(b"fault ");
    text.push(b'0' + number / 10);
    text.push(b'0' + number % 10);
    text.push(b' ');
    let _name = text.try_extend_from_slice(name.as_bytes());
    if text.len() % 2 != 0 {
        text.push(b' ');
    }
    text
}
