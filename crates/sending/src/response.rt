//! Receives responses: C-STORE-RSP and C-ECHO-RSP.
ghost use Rattle.std.specs.Prelude.{◌≡◌, IfOk, IfSome};
ghost use Rattle.sending.specs.Sending as spelling;
ghost use Rattle.sending.specs.Sending.{IsResponseSet, Receives};

use crate::ending::Ending;
use crate::stream::receive;
use dimse::CommandSet;
use dimse::element_numbers::{FIELD, RESPONDED, STATUS};
use element::traced_stream::TracedStream;
use pdu::{PduHead, PdvHead, pdu_type, read_pdu_head, read_pdv_head};
use std::io::Read;

/// The Command Field (0000,0100) of a C-STORE-RSP.
pub(crate) const STORE_RESPONSE: u16 = 0x8001;

/// The Command Field of a C-ECHO-RSP.
pub(crate) const ECHO_RESPONSE: u16 = 0x8030;

/// The greatest size in bytes of the command set of a response.
const MOST: usize = 1024;

/// A response.
#[derive(Clone, Copy)]
struct Response {
    /// Message ID Being Responded To.
    message: u16,
    status: u16,
}

/// Returns the response with this Command Field in a command set, or `None` if it is none.
fn response_in(bytes: &[u8], answer: u16) -> Option<Response>
    ensures { IfSome result (λ r. IsResponseSet answer bytes.now r.message r.status) }
{
    let set = CommandSet::read(bytes)?;
    let (Ok(field), Ok(message), Ok(status)) = (
        set.number(FIELD),
        set.number(RESPONDED),
        set.number(STATUS),
    ) else {
        return None;
    };
    if field != answer {
        return None;
    }
    Some(Response { message, status })
}

/// Returns why an association ends with this PDU, whose head was received.
fn ending_with<S: Read>(stream: &mut TracedStream<S>, head: PduHead) -> Ending
    ensures { stream.new.written ≡ stream.old.written }
{
    if head.kind == pdu_type::A_ABORT && head.length == 4 {
        let mut body = [0; 4];
        return match receive(stream, &mut body) {
            Ok(()) => Ending::Aborted(body[2], body[3]),
            Err(ending) => ending,
        };
    }
    Ending::Invalid("no response in one P-DATA-TF of at most 1,030 bytes")
}

/// Receives the response with this Command Field to a message, in one P-DATA-TF PDU. Returns its
/// status.
pub(crate) fn receive_response<S: Read>(
    stream: &mut TracedStream<S>,
    context: u8,
    answer: u16,
    message: u16,
) -> Result<u16, Ending>
    ensures response { IfOk result (λ status. Receives answer context message status stream.old.read.bytes stream.new.read.bytes) }
    ensures same { stream.new.written ≡ stream.old.written }
{
    let mut bytes = [0; 6];
    receive(stream, &mut bytes)?;
    let head = read_pdu_head(&bytes);
    let length = head.length as usize;
    if head.kind != pdu_type::P_DATA_TF || length < 6 || length > MOST + 6 {
        return Err(ending_with(stream, head));
    }
    let mut pdv = [0; 6];
    receive(stream, &mut pdv)?;
    let size = length - 6;
    let expected = PdvHead {
        length: size as u32 + 2,
        context,
        command: true,
        last: true,
    };
    if read_pdv_head(&pdv) != expected {
        return Err(Ending::Invalid("another message than a response"));
    }
    let mut room = [0; MOST];
    let set = &mut room[..size];
    receive(stream, set)?;
    match response_in(set, answer) {
        Some(response) if response.message == message => Ok(response.status),
        _ => Err(Ending::Invalid("a response to another message")),
    }
}

/// Returns whether a status says that the peer has filed the instance: success, or one of the
/// warnings of PS3.4 table B.2-1, coercion of data elements, elements discarded and data set does
/// not match SOP class.
pub fn is_filed(status: u16) -> bool
    ensures { result ≡ spelling.is_filed status }
{
    matches!(status, 0x0000 | 0xb000 | 0xb006 | 0xb007)
}
