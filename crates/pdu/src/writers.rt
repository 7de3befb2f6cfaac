//! Writes the PDUs that an acceptor sends, except A-ASSOCIATE-AC.
ghost use Rattle.std.specs.Prelude.{◌≡◌, ◌+◌, ◌<◌, ◌^◌, [], ◌∷◌, ◌++◌, length};
ghost use Rattle.element.specs.Numbers.{be};
ghost use Rattle.pdu.specs.Sent.{Sends};
ghost use Rattle.pdu.specs.Types.{p_data_tf};
ghost use Rattle.pdu.specs.Texts.{pdu_text, reject_text, release_text, abort_text, data_text, control_of};

use crate::pdu_type;
use crate::wire::{Wire, WireFailed};
use arrayvec::ArrayVec;
use byteorder::{BigEndian, ByteOrder};

/// The greatest size in bytes of a P-DATA-TF PDU that is sent with one call of `Wire::send`. Every
/// PDU of a response of this product fits: its longest elements are two UIDs of 64 bytes.
const ONE_SEND: usize = 512;

/// Returns the ten bytes of a PDU with this type and a body of four bytes.
fn short_pdu(kind: u8, body: [u8; 4]) -> [u8; 10]
    ensures { result ≡ pdu_text kind body }
{
    let [a, b, c, d] = body;
    [kind, 0, 0, 0, 0, 4, a, b, c, d]
}

/// Sends an A-ASSOCIATE-RJ with this result (`outcome`), source and reason (PS3.8 section 9.3.4).
pub fn write_reject<W: Wire>(
    outcome: u8,
    source: u8,
    reason: u8,
    wire: &mut W,
) -> Result<(), WireFailed>
    ensures sends { Sends (reject_text outcome source reason) result (W.line wire.old) (W.line wire.new) }
{
    wire.send(&short_pdu(pdu_type::A_ASSOCIATE_RJ, [0, outcome, source, reason]))
}

/// Sends an A-RELEASE-RP (PS3.8 section 9.3.7).
pub fn write_release<W: Wire>(wire: &mut W) -> Result<(), WireFailed>
    ensures sends { Sends release_text result (W.line wire.old) (W.line wire.new) }
{
    wire.send(&short_pdu(pdu_type::A_RELEASE_RP, [0, 0, 0, 0]))
}

/// Sends an A-ABORT (PS3.8 section 9.3.8) with this source and reason.
pub fn write_abort<W: Wire>(source: u8, reason: u8, wire: &mut W) -> Result<(), WireFailed>
    ensures sends { Sends (abort_text source reason) result (W.line wire.old) (W.line wire.new) }
{
    wire.send(&short_pdu(pdu_type::A_ABORT, [0, 0, source, reason]))
}

/// Returns the heads, twelve bytes together, of a P-DATA-TF PDU and of its only presentation data
/// value, for a fragment of this length.
fn data_head(context: u8, command: bool, last: bool, length: u32) -> [u8; 12]
    requires { length + 6 < 2 ^ 32 }
    ensures { result ≡ p_data_tf ∷ 0 ∷ (be (length + 6) 4 ++ (be (length + 2) 4 ++ context ∷ control_of command last ∷ [])) }
{
    let mut head = [0u8; 12];
    head[0] = pdu_type::P_DATA_TF;
    BigEndian::write_u32(&mut head[2..6], length + 6);
    BigEndian::write_u32(&mut head[6..10], length + 2);
    head[10] = context;
    head[11] = control(command, last);
    head
}

/// Returns the message control header of a presentation data value (PS3.8 annex E.2): bit 0 is set
/// for a command, bit 1 for the last fragment.
fn control(command: bool, last: bool) -> u8
    ensures { result ≡ control_of command last }
{
    u8::from(command) + if last { 2 } else { 0 }
}

/// Sends two byte strings, with one call of `Wire::send` if they have at most `ONE_SEND` bytes
/// together, otherwise with two. If the first call fails, the second is not made.
#[tactic(auto, using(crate::proofs::SendsAllOrFront::sends_then, crate::proofs::SendsAllOrFront::sends_part))]
fn send_both<W: Wire>(front: &[u8], back: &[u8], wire: &mut W) -> Result<(), WireFailed>
    ensures sends { Sends (front.now ++ back.now) result (W.line wire.old) (W.line wire.new) }
{
    if front.len() > ONE_SEND || back.len() > ONE_SEND - front.len() {
        match wire.send(front) {
            Ok(()) => return wire.send(back),
            Err(WireFailed) => return Err(WireFailed),
        }
    }
    let mut room = ArrayVec::<u8, ONE_SEND>::new();
    let _front = room.try_extend_from_slice(front);
    let _back = room.try_extend_from_slice(back);
    wire.send(room.as_slice())
}

/// Sends a P-DATA-TF with one presentation data value (PS3.8 section 9.3.5): a fragment of a
/// command set (`command`) or otherwise of a data set, and whether it is the `last` one. A PDU of
/// at most 512 bytes is sent with one call, a longer one with two. The fragment must be shorter
/// than 2^32 - 6 bytes, as the length field of the PDU has four bytes.
pub fn write_data<W: Wire>(
    context: u8,
    command: bool,
    last: bool,
    fragment: &[u8],
    wire: &mut W,
) -> Result<(), WireFailed>
    requires { length fragment.now + 6 < 2 ^ 32 }
    ensures sends { Sends (data_text context command last fragment.now) result (W.line wire.old) (W.line wire.new) }
{
    let head = data_head(context, command, last, fragment.len() as u32);
    send_both(&head, fragment, wire)
}
