//! Sends and receives bytes over a connection.
ghost use Rattle.std.specs.Prelude.{◌≡◌, ◌++◌, ◌+◌, ◌<◌, ◌≤◌, ◌^◌, ◌∷◌, [], length, take, drop, IfOk, OnOk};
ghost use Rattle.std.specs.Io.KnownBytes.{IsAtEnd};
ghost use Rattle.element.specs.Numbers.{be};
ghost use Rattle.pdu.specs.Types.{p_data_tf};
ghost use Rattle.pdu.specs.Texts.{data_text, control_of};

use crate::ending::Ending;
use byteorder::{BigEndian, ByteOrder};
use element::traced_stream::TracedStream;
use pdu::pdu_type;
use std::io::{self, Error, ErrorKind, Read, Write};

/// The greatest size in bytes of a fragment.
pub(crate) const LONGEST: usize = 65536;

/// The size in bytes of the heads of a P-DATA-TF PDU and of its only presentation data value.
pub(crate) const HEADS: usize = 12;

/// The size in bytes of a P-DATA-TF PDU with the longest fragment.
pub(crate) const ROOM: usize = HEADS + LONGEST;

/// Sends all of `bytes`.
pub(crate) fn send_all<S: Write>(stream: &mut TracedStream<S>, bytes: &[u8]) -> Result<(), Ending>
    ensures sent { OnOk result (stream.new.written.bytes ≡ stream.old.written.bytes ++ bytes.now) }
    ensures same { stream.new.read ≡ stream.old.read }
{
    let mut rest = bytes;
    while !rest.is_empty() {
        match stream.write(rest) {
            Ok(0) => return Err(Ending::Broken(Error::from(ErrorKind::WriteZero))),
            Ok(count) => {
                let (_, more) = rest.split_at(count);
                rest = more;
            }
            Err(error) => return Err(Ending::Broken(error)),
        }
    }
    Ok(())
}

/// Fills `room`. Returns the number of bytes, less than its size only at the end of the input.
pub(crate) fn fill<R: Read>(input: &mut TracedStream<R>, room: &mut [u8]) -> io::Result<usize>
    ensures size { length room.new ≡ length room.old }
    ensures within { IfOk result (λ n. n ≤ length room.new) }
    ensures read { IfOk result (λ n. input.new.read.bytes ≡ input.old.read.bytes ++ take n room.new) }
    ensures end { IfOk result (λ n. n < length room.new → IsAtEnd (R.remaining input.new.device)) }
    ensures same { input.new.written ≡ input.old.written }
{
    let mut at = 0;
    while at < room.len() {
        let count = input.read(&mut room[at..])?;
        if count == 0 {
            return Ok(at);
        }
        at += count;
    }
    Ok(at)
}

/// Fills `room` with received bytes.
pub(crate) fn receive<S: Read>(stream: &mut TracedStream<S>, room: &mut [u8]) -> Result<(), Ending>
    ensures size { length room.new ≡ length room.old }
    ensures received { OnOk result (stream.new.read.bytes ≡ stream.old.read.bytes ++ room.new) }
    ensures same { stream.new.written ≡ stream.old.written }
{
    let size = room.len();
    match fill(stream, room) {
        Ok(count) if count == size => Ok(()),
        Ok(_) => Err(Ending::Broken(Error::from(ErrorKind::UnexpectedEof))),
        Err(error) => Err(Ending::Broken(error)),
    }
}

/// Returns the message control header of a presentation data value (PS3.8 annex E.2).
fn control(command: bool, last: bool) -> u8
    ensures { result ≡ control_of command last }
{
    u8::from(command) + if last { 2 } else { 0 }
}

/// Returns the heads of a P-DATA-TF PDU and of its only presentation data value.
fn heads(context: u8, command: bool, last: bool, length: u32) -> [u8; 12]
    requires { length + 6 < 2 ^ 32 }
    ensures { result ≡ p_data_tf ∷ 0 ∷ (be (length + 6) 4 ++ (be (length + 2) 4 ++ context ∷ control_of command last ∷ [])) }
{
    let mut head = [0u8; HEADS];
    head[0] = pdu_type::P_DATA_TF;
    BigEndian::write_u32(&mut head[2..6], length + 6);
    BigEndian::write_u32(&mut head[6..10], length + 2);
    head[10] = context;
    head[11] = control(command, last);
    head
}

/// Sends a fragment in a P-DATA-TF PDU of its own, with one write. `pdu` has the fragment after 12
/// bytes, in which the heads are written.
pub(crate) fn send_fragment<S: Write>(
    stream: &mut TracedStream<S>,
    context: u8,
    command: bool,
    last: bool,
    pdu: &mut [u8],
) -> Result<(), Ending>
    requires headed { HEADS ≤ length pdu.old }
    requires fits { length pdu.old ≤ ROOM }
    ensures size { length pdu.new ≡ length pdu.old }
    ensures sent { OnOk result (stream.new.written.bytes ≡ stream.old.written.bytes ++ data_text context command last (drop HEADS pdu.old)) }
    ensures same { stream.new.read ≡ stream.old.read }
{
    let length = (pdu.len() - HEADS) as u32;
    pdu[..HEADS].copy_from_slice(&heads(context, command, last, length));
    send_all(stream, pdu)
}
