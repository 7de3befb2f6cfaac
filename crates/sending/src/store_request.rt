//! Builds the command sets of a C-STORE-RQ and a C-ECHO-RQ (PS3.7 sections 9.3.1.1 and 9.3.5.1).
ghost use Rattle.std.specs.Prelude.{◌≡◌, ◌≤◌, length, true};
ghost use Rattle.arrayvec.specs.ArrayVec.{array_vec_len};
ghost use Rattle.element.specs.Uid.{is_uid};
ghost use Rattle.sending.specs.Sending as spelling;

use crate::context::verification;
use arrayvec::ArrayVec;
use byteorder::{ByteOrder, LittleEndian};
use dimse::element_numbers::{CLASS, DATA_SET_TYPE, FIELD, INSTANCE, LENGTH, MESSAGE, NO_DATA_SET};
use dimse::{Command, put_element, put_number, put_uid};
use element::Uid;

/// Priority (0000,0700).
const PRIORITY: u16 = 0x0700;

/// The priority MEDIUM.
const MEDIUM: u16 = 0;

/// A value of Command Data Set Type for a message with a data set.
const WITH_DATA_SET: u16 = 1;

/// The greatest size in bytes of the elements after Command Group Length: two UIDs of 72 bytes
/// each, four numbers of 10 each.
const ELEMENTS: usize = 184;

/// The greatest size in bytes of the command set.
pub(crate) const SET: usize = ELEMENTS + 12;

/// Returns the elements of a C-STORE-RQ after Command Group Length (0000,0000).
#[tactic(auto, using(crate::proofs::SetIsItsElements::put_together))]
fn store_elements(class: &Uid, instance: &Uid, message: u16) -> ArrayVec<u8, ELEMENTS>
    requires class { is_uid class.now ≡ true }
    requires instance { is_uid instance.now ≡ true }
    ensures { result.items ≡ spelling.store_elements class.now instance.now message }
{
    let mut elements = ArrayVec::new();
    put_uid(&mut elements, CLASS, class);
    put_number(&mut elements, FIELD, Command::C_STORE);
    put_number(&mut elements, MESSAGE, message);
    put_number(&mut elements, PRIORITY, MEDIUM);
    put_number(&mut elements, DATA_SET_TYPE, WITH_DATA_SET);
    put_uid(&mut elements, INSTANCE, instance);
    elements
}

/// Returns the command set of these elements: Command Group Length (0000,0000), and they.
fn with_length(elements: &[u8]) -> ArrayVec<u8, SET>
    requires { length elements.now ≤ 184 }
    ensures items { result.items ≡ spelling.with_length elements.now }
    ensures short { array_vec_len result ≤ 196 }
{
    let mut length = [0u8; 4];
    LittleEndian::write_u32(&mut length, elements.len() as u32);
    let mut set = ArrayVec::new();
    put_element(&mut set, LENGTH, &length);
    let _elements = set.try_extend_from_slice(elements);
    set
}

/// Returns the command set of a C-STORE-RQ.
#[tactic(auto, unfolding(crate::specs::Sending::store_set))]
pub(crate) fn store_set(class: &Uid, instance: &Uid, message: u16) -> ArrayVec<u8, SET>
    ensures items { result.items ≡ spelling.store_set class.now instance.now message }
    ensures short { array_vec_len result ≤ 196 }
{
    // `len` ensures that they are UIDs.
    class.len();
    instance.len();
    with_length(store_elements(class, instance, message).as_slice())
}

/// Returns the command set of a C-ECHO-RQ.
#[tactic(auto, unfolding(crate::specs::Sending::echo_set))]
pub(crate) fn echo_set(message: u16) -> ArrayVec<u8, SET>
    ensures items { result.items ≡ spelling.echo_set message }
    ensures short { array_vec_len result ≤ 196 }
{
    let mut elements: ArrayVec<u8, ELEMENTS> = ArrayVec::new();
    put_uid(&mut elements, CLASS, &verification());
    put_number(&mut elements, FIELD, Command::C_ECHO);
    put_number(&mut elements, MESSAGE, message);
    put_number(&mut elements, DATA_SET_TYPE, NO_DATA_SET);
    with_length(elements.as_slice())
}
