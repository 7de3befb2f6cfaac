//! Reads command sets as lists of elements.
ghost use Rattle.std.specs.Prelude.{◌≡◌, true, length, option_map, IfOk};
ghost use Rattle.dimse.specs.Command.{needed, two_bytes, command_value};
ghost use Rattle.dimse.specs.Reading as spelling;
ghost use Rattle.dimse.specs.Reading.{set_of};
ghost use Rattle.element.specs.Uid.{is_uid, uid_of};

use crate::elements::{are_rising, element_at, value_in};
use crate::fault::DimseFault;
use byteorder::{ByteOrder, LittleEndian};
use element::Uid;
use std::marker::Model;

/// The elements of a valid command set after Command Group Length (0000,0000) (PS3.7 section
/// 6.3.1), which borrow from its bytes.
#[derive(Drop)]
pub struct CommandSet<'a> {
    elements: &'a [u8],
}

impl<'a> Model for CommandSet<'a> {
    ghost use Rattle.std.specs.Prelude.{◌≡◌, List, [], Some, unwrap_or};
    ghost use Rattle.dimse.specs.Command.{CommandElement};
    ghost use Rattle.dimse.specs.Reading.{elements_of};

    ghost Value = { List CommandElement };

    ghost view = { λ s. unwrap_or (elements_of s.elements.now) [] };

    ghost invariant = { λ s. elements_of s.elements.now ≡ Some (unwrap_or (elements_of s.elements.now) []) };
}

/// Returns whether an element with this `number` and value `count` is Command Group Length
/// (0000,0000) and counts the bytes of `elements`, which follow it.
fn counts(number: u16, count: &[u8], elements: &[u8]) -> bool
    ensures { result ≡ spelling.counts (record { number = number; value = count.now }) (length elements.now) }
{
    number == 0 && count.len() == 4 && LittleEndian::read_u32(count) as usize == elements.len()
}

impl<'a> CommandSet<'a> {
    /// Returns the command set in these bytes, or `None` if they do not begin with a correct
    /// Command Group Length, or are not whole elements of group 0000 with even lengths and strictly
    /// ascending tags.
    #[tactic(auto, unfolding(crate::specs::Reading::set_of))]
    pub fn read(bytes: &'a [u8]) -> Option<CommandSet<'a>>
        ensures { result ≡ set_of bytes.now }
    {
        match element_at(bytes) {
            Some((number, count, elements))
                if counts(number, count, elements) && are_rising(elements) => {
                Some(CommandSet { elements })
            }
            _ => None,
        }
    }

    /// Returns the value of the element with this element number, or `None` if there is none.
    pub fn value(&self, number: u16) -> Option<&'a [u8]>
        ensures { option_map (λ v. v.now) result ≡ command_value number self.now }
    {
        value_in(self.elements, number)
    }

    /// Returns the UID in the element with this element number. Fails with `BadCommand` if it is
    /// missing or not a valid UID.
    pub fn uid(&self, number: u16) -> Result<Uid, DimseFault>
        ensures value { result ≡ needed uid_of (command_value number self.now) }
        ensures is_uid { IfOk result (λ u. is_uid u ≡ true) }
    {
        let value = self.value(number).ok_or(DimseFault::BadCommand)?;
        Uid::read(value).ok_or(DimseFault::BadCommand)
    }

    /// Returns the two-byte number in the element with this element number. Fails with `BadCommand`
    /// if it is missing or does not have two bytes.
    pub fn number(&self, number: u16) -> Result<u16, DimseFault>
        ensures { result ≡ needed two_bytes (command_value number self.now) }
    {
        match self.value(number) {
            Some(value) if value.len() == 2 => Ok(LittleEndian::read_u16(value)),
            _ => Err(DimseFault::BadCommand),
        }
    }
}
