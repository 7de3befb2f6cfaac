//! Lays out the items of an A-ASSOCIATE-AC.
ghost use Rattle.std.specs.Prelude.{◌≡◌, ◌+◌, ◌<◌, ◌≤◌, ◌++◌, length};
ghost use Rattle.arrayvec.specs.ArrayVec.{array_vec_len};
ghost use Rattle.negotiate.specs.Accept.{item_text, context_text, user_text};
ghost use Rattle.negotiate.specs.Contexts.{seen};
ghost use Rattle.negotiate.specs.Settings.{settings_of};

use crate::config::Config;
use crate::proposals::{carried, result_of};
use arrayvec::ArrayVec;
use byteorder::{BigEndian, ByteOrder};
use dictionary::{IMPLEMENTATION_CLASS_UID, IMPLEMENTATION_VERSION_NAME};
use pdu::{Proposal, item_type};

/// Appends bytes to an array that has capacity for them.
pub(crate) fn extend<const N: usize>(room: &mut ArrayVec<u8, N>, bytes: &[u8])
    requires { array_vec_len room.old + length bytes.now ≤ N }
    ensures { room.new.items ≡ room.old.items ++ bytes.now }
{
    let _ = room.try_extend_from_slice(bytes);
}

/// Appends an item with this type and content to an array that has capacity for it: one byte type,
/// one reserved, two bytes length, then the content (PS3.8 section 9.3.2).
pub fn extend_by_item<const N: usize>(room: &mut ArrayVec<u8, N>, kind: u8, content: &[u8])
    requires short { length content.now < 65536 }
    requires fits { array_vec_len room.old + (length content.now + 4) ≤ N }
    ensures { room.new.items ≡ room.old.items ++ item_text kind content.now }
{
    let mut head = [kind, 0, 0, 0];
    BigEndian::write_u16(&mut head[2..4], content.len() as u16);
    extend(room, &head);
    extend(room, content);
}

/// Returns the answer to a proposed presentation context (PS3.8 section 9.3.3.2).
pub(crate) fn context_item(config: &Config, proposal: &Proposal) -> ArrayVec<u8, 64>
    ensures items { result.items ≡ context_text (seen (settings_of config.now).additional proposal.now) }
    ensures short { array_vec_len result ≤ 35 }
{
    let mut content = ArrayVec::<u8, 64>::new();
    extend(
        &mut content,
        &[proposal.id(), 0, result_of(config, proposal), 0],
    );
    extend_by_item(
        &mut content,
        item_type::TRANSFER_SYNTAX,
        carried(config, proposal).uid(),
    );
    let mut item = ArrayVec::<u8, 64>::new();
    extend_by_item(&mut item, item_type::ANSWERED_CONTEXT, content.as_slice());
    item
}

/// Returns the user information item of the receiver (PS3.8 section 9.3.3.3).
pub(crate) fn user_item(max_pdu: u32) -> ArrayVec<u8, 64>
    ensures items { result.items ≡ user_text max_pdu }
    ensures size { array_vec_len result ≡ 41 }
{
    let mut maximum = [0u8; 4];
    BigEndian::write_u32(&mut maximum, max_pdu);
    let mut content = ArrayVec::<u8, 64>::new();
    extend_by_item(&mut content, item_type::MAXIMUM_LENGTH, &maximum);
    extend_by_item(
        &mut content,
        item_type::IMPLEMENTATION_CLASS_UID,
        IMPLEMENTATION_CLASS_UID,
    );
    extend_by_item(
        &mut content,
        item_type::IMPLEMENTATION_VERSION_NAME,
        IMPLEMENTATION_VERSION_NAME,
    );
    let mut item = ArrayVec::<u8, 64>::new();
    extend_by_item(&mut item, item_type::USER_INFORMATION, content.as_slice());
    item
}
