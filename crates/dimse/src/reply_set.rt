//! Builds the command sets of responses.
ghost use Rattle.std.specs.Prelude.{◌≡◌, ◌+◌, ◌≤◌, ◌++◌, length, true, option_map};
ghost use Rattle.arrayvec.specs.ArrayVec.{array_vec_len};
ghost use Rattle.element.specs.Numbers.{le};
ghost use Rattle.element.specs.Uid.{even_uid, is_uid};
ghost use Rattle.dimse.specs.Command.{command_element_bytes, command_elements_bytes, is_uid_or_none};
ghost use Rattle.dimse.specs.Reply as spelling;
ghost use Rattle.dimse.specs.Reply.{detail_elements, element, instance_elements, reply_command, reply_elements, tag_elements};

use crate::command::Command;
use crate::detail::{Detail, cause_name, comment};
use crate::element_numbers::{
    CLASS, COMMENT, DATA_SET_TYPE, FIELD, INSTANCE, LENGTH, NO_DATA_SET, OFFENDING, RESPONDED,
    STATUS,
};
use crate::status::{CANNOT_UNDERSTAND, DATA_SET_MISMATCH};
use arrayvec::ArrayVec;
use byteorder::{ByteOrder, LittleEndian};
use element::{Header, Syntax, Tag, Uid, write_header};

/// The highest bit of a Command Field, which is set in a response.
const RESPONSE: u16 = 0x8000;

/// The greatest size in bytes of a response's elements after Command Group Length: two UIDs of 72
/// bytes each, four numbers of 10 each, a tag of 12, an Error Comment of 34.
const ELEMENTS: usize = 230;

/// The greatest size in bytes of a response's command set.
pub(crate) const REPLY: usize = ELEMENTS + 12;

/// Appends an element of group 0000 with this element number, in Implicit VR Little Endian.
#[tactic(auto, unfolding(crate::specs::Command::command_element_bytes))]
pub fn put_element<const N: usize>(set: &mut ArrayVec<u8, N>, number: u16, value: &[u8])
    requires room { array_vec_len set.old + 8 + length value.now ≤ N }
    requires short { length value.now ≤ 64 }
    ensures items { set.new.items ≡ set.old.items ++ command_element_bytes (element number value.now) }
    ensures len { array_vec_len set.new ≡ array_vec_len set.old + 8 + length value.now }
{
    let header = Header {
        tag: Tag(0, number),
        vr: None,
        length: value.len() as u32,
    };
    let mut room = [0u8; 12];
    let size = write_header(Syntax::Implicit, &header, &mut room);
    // Both fit, by the precondition `room`.
    let _header = set.try_extend_from_slice(&room[..size]);
    let _value = set.try_extend_from_slice(value);
}

/// Appends an element of VR US with this element number, in Implicit VR Little Endian.
pub fn put_number<const N: usize>(set: &mut ArrayVec<u8, N>, number: u16, value: u16)
    requires { array_vec_len set.old + 10 ≤ N }
    ensures items { set.new.items ≡ set.old.items ++ command_element_bytes (element number (le value 2)) }
    ensures len { array_vec_len set.new ≡ array_vec_len set.old + 10 }
{
    let mut bytes = [0u8; 2];
    LittleEndian::write_u16(&mut bytes, value);
    put_element(set, number, &bytes);
}

/// Appends an element with a UID, padded with a zero byte to an even length (PS3.5 section 9.1).
pub fn put_uid<const N: usize>(set: &mut ArrayVec<u8, N>, number: u16, uid: &Uid)
    requires room { array_vec_len set.old + 72 ≤ N }
    requires is_uid { is_uid uid.now ≡ true }
    ensures items { set.new.items ≡ set.old.items ++ command_element_bytes (element number (even_uid uid.now)) }
    ensures len { array_vec_len set.new ≤ array_vec_len set.old + 72 }
{
    let mut value: ArrayVec<u8, 64> = ArrayVec::new();
    let _uid = value.try_extend_from_slice(uid.as_bytes());
    if uid.as_bytes().len() % 2 != 0 {
        value.push(0);
    }
    put_element(set, number, value.as_slice());
}

#[tactic(auto, using(crate::proofs::SetIsItsElements::one_element))]
fn put_tag(set: &mut ArrayVec<u8, ELEMENTS>, tag: Tag)
    requires { array_vec_len set.old + 12 ≤ ELEMENTS }
    ensures items { set.new.items ≡ set.old.items ++ command_elements_bytes (tag_elements tag) }
    ensures len { array_vec_len set.new ≤ array_vec_len set.old + 12 }
{
    if tag.0 != 0 || tag.1 != 0 {
        let mut bytes = [0u8; 4];
        LittleEndian::write_u16(&mut bytes[..2], tag.0);
        LittleEndian::write_u16(&mut bytes[2..], tag.1);
        put_element(set, OFFENDING, &bytes);
    }
}

#[tactic(auto, using(crate::proofs::SetIsItsElements::elements_then, crate::proofs::SetIsItsElements::one_element))]
fn put_detail(set: &mut ArrayVec<u8, ELEMENTS>, detail: Option<Detail>)
    requires { array_vec_len set.old + 46 ≤ ELEMENTS }
    ensures items { set.new.items ≡ set.old.items ++ command_elements_bytes (detail_elements detail) }
    ensures len { array_vec_len set.new ≤ array_vec_len set.old + 46 }
{
    if let Some(detail) = detail {
        if let Some(name) = cause_name(detail.number) {
            put_tag(set, detail.tag);
            put_element(set, COMMENT, comment(detail.number, name).as_slice());
        }
    }
}

#[tactic(auto, using(crate::proofs::SetIsItsElements::one_element))]
fn put_instance(set: &mut ArrayVec<u8, ELEMENTS>, instance: Option<&Uid>)
    requires room { array_vec_len set.old + 72 ≤ ELEMENTS }
    requires is_uid { is_uid_or_none (option_map (λ u. u.now) instance) ≡ true }
    ensures { set.new.items ≡ set.old.items ++ command_elements_bytes (instance_elements (option_map (λ u. u.now) instance.entry)) }
{
    if let Some(uid) = instance {
        put_uid(set, INSTANCE, uid);
    }
}

/// Returns the cause that a response reports: `detail` for a C-STORE with status C000 (cannot
/// understand) or A900 (data set does not match SOP class), otherwise none.
fn carried(field: u16, status: u16, detail: Option<Detail>) -> Option<Detail>
    ensures { result ≡ spelling.detail_carried field status detail }
{
    if field == Command::C_STORE && (status == CANNOT_UNDERSTAND || status == DATA_SET_MISMATCH) {
        detail
    } else {
        None
    }
}

/// Returns the elements of a response's command set after Command Group Length (0000,0000).
#[tactic(auto, using(crate::proofs::SetIsItsElements::put_together))]
fn reply_set(command: &Command, status: u16, detail: Option<Detail>) -> ArrayVec<u8, ELEMENTS>
    ensures { result.items ≡ command_elements_bytes (reply_elements command.now status detail) }
{
    let mut set = ArrayVec::new();
    put_uid(&mut set, CLASS, command.class());
    put_number(&mut set, FIELD, command.field() + RESPONSE);
    put_number(&mut set, RESPONDED, command.message());
    put_number(&mut set, DATA_SET_TYPE, NO_DATA_SET);
    put_number(&mut set, STATUS, status);
    put_detail(&mut set, carried(command.field(), status, detail));
    put_instance(&mut set, command.instance());
    set
}

/// Returns the command set of the response to a command, with this status and cause.
#[tactic(auto, unfolding(crate::specs::Reply::reply_command))]
pub(crate) fn reply_command_set(
    command: &Command,
    status: u16,
    detail: Option<Detail>,
) -> ArrayVec<u8, REPLY>
    ensures items { result.items ≡ reply_command command.now status detail }
    ensures some { 1 ≤ array_vec_len result }
{
    let elements = reply_set(command, status, detail);
    let mut length = [0u8; 4];
    LittleEndian::write_u32(&mut length, elements.len() as u32);
    let mut set = ArrayVec::new();
    put_element(&mut set, LENGTH, &length);
    let _elements = set.try_extend_from_slice(elements.as_slice());
    set
}
