//! Lays out an A-ASSOCIATE-AC.
ghost use Rattle.std.specs.Prelude.{◌≡◌, ◌+◌, ◌*◌, ◌≤◌, [], ◌∷◌, ◌++◌, length};
ghost use Rattle.std.specs.List.{flat_map};
ghost use Rattle.arrayvec.specs.ArrayVec.{array_vec_len};
ghost use Rattle.element.specs.Numbers.{be};
ghost use Rattle.negotiate.specs.Accept.{accept_text, before_contexts, context_text, longest_accept};
ghost use Rattle.negotiate.specs.Contexts.{offered};
ghost use Rattle.negotiate.specs.Settings.{settings_of};

use crate::config::Config;
use crate::items::{context_item, extend, extend_by_item, user_item};
use crate::proposals::carried;
use arrayvec::ArrayVec;
use byteorder::{BigEndian, ByteOrder};
use dictionary::APPLICATION_CONTEXT;
use pdu::{Request, item_type, pdu_type};

/// The bytes of an A-ASSOCIATE-AC without its presentation contexts and without the titles and
/// reserved bytes, which the request gives.
const BARE: usize = 76;

/// The bytes of a presentation context item, without the transfer syntax UID.
const CONTEXT: usize = 12;

/// The bytes of the longest A-ASSOCIATE-AC: 140, and 35 for each of 128 contexts.
const LONGEST: usize = 140 + 35 * 128;

/// Returns the size of the A-ASSOCIATE-AC that answers the request.
pub(crate) fn accept_size(config: &Config, request: &Request) -> usize
    ensures value { result ≡ length (accept_text (settings_of config.now) request.now) }
    ensures least { 6 ≤ result }
    ensures most { result ≤ longest_accept }
{
    let mut size = BARE
        + request.called().0.len()
        + request.calling().0.len()
        + request.reserved().len();
    for proposal in request.contexts() {
        size += CONTEXT + carried(config, &proposal).uid().len();
    }
    size
}

/// Returns the head of an A-ASSOCIATE-AC of this length, with the protocol version and two reserved
/// bytes.
fn head(length: u32) -> [u8; 10]
    ensures { result ≡ 2 ∷ 0 ∷ (be length 4 ++ 0 ∷ 1 ∷ 0 ∷ 0 ∷ []) }
{
    let mut head = [pdu_type::A_ASSOCIATE_AC, 0, 0, 0, 0, 0, 0, 1, 0, 0];
    BigEndian::write_u32(&mut head[2..6], length);
    head
}

/// Returns the bytes of an A-ASSOCIATE-AC of this length before its contexts (PS3.8 section 9.3.3).
fn front(request: &Request, length: u32) -> ArrayVec<u8, LONGEST>
    ensures items { result.items ≡ 2 ∷ 0 ∷ (be length 4 ++ before_contexts request.now) }
    ensures size { array_vec_len result ≡ 99 }
{
    let mut front = ArrayVec::<u8, LONGEST>::new();
    extend(&mut front, &head(length));
    extend(&mut front, &request.called().0);
    extend(&mut front, &request.calling().0);
    extend(&mut front, request.reserved());
    extend_by_item(
        &mut front,
        item_type::APPLICATION_CONTEXT,
        APPLICATION_CONTEXT,
    );
    front
}

/// Appends the answer to each proposed presentation context to the PDU, in the order of the
/// request.
fn with_contexts(
    config: &Config,
    mut pdu: ArrayVec<u8, LONGEST>,
    request: &Request,
) -> ArrayVec<u8, LONGEST>
    requires { array_vec_len pdu + 35 * length request.now.contexts ≤ 4579 }
    ensures items { result.items ≡ pdu.items ++ flat_map context_text (offered (settings_of config.now).additional request.now).contexts }
    ensures room { array_vec_len result ≤ 4579 }
{
    for proposal in request.contexts() {
        extend(&mut pdu, context_item(config, &proposal).as_slice());
    }
    pdu
}

/// Returns the A-ASSOCIATE-AC that answers the request.
pub(crate) fn accept_pdu(config: &Config, request: &Request) -> ArrayVec<u8, LONGEST>
    ensures { result.items ≡ accept_text (settings_of config.now) request.now }
{
    request.keeps();
    let size = accept_size(config, request);
    let mut pdu = with_contexts(config, front(request, (size - 6) as u32), request);
    extend(&mut pdu, user_item(config.max_pdu).as_slice());
    pdu
}
