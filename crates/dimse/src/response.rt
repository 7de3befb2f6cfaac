//! Sends the response to a command.
ghost use Rattle.std.specs.Prelude.{◌≡◌, ◌+◌, ◌≤◌, ◌<◌, ◌^◌, length};
ghost use Rattle.pdu.specs.Sent.{Sends};
ghost use Rattle.dimse.specs.Reply as spelling;
ghost use Rattle.dimse.specs.Reply.{IsMaximum, command_pdus, fragments, reply_bytes};

use crate::command::Command;
use crate::detail::Detail;
use crate::reply_set::reply_command_set;
use pdu::{Wire, WireFailed, write_data};

/// Returns the size in bytes of each fragment of a command set of `all` bytes, for a peer with the
/// maximum length `peer_max`.
fn fragment_size(peer_max: u32, all: usize) -> usize
    requires maximum { IsMaximum peer_max }
    requires some { 1 ≤ all }
    ensures value { result ≡ spelling.fragment_size peer_max all }
    ensures some { 1 ≤ result }
{
    if peer_max == 0 {
        return all;
    }
    (peer_max as usize - 6) / 2 * 2
}

/// Sends the bytes of a command set as fragments of `size` bytes, of which the last may be shorter,
/// each in a P-DATA-TF PDU of its own.
fn write_fragments<W: Wire>(
    context: u8,
    size: usize,
    bytes: &[u8],
    wire: &mut W,
) -> Result<(), WireFailed>
    requires some { 1 ≤ size }
    requires short { length bytes.now + 6 < 2 ^ 32 }
    ensures sends { Sends (command_pdus context (fragments size bytes.now)) result (W.line wire.old) (W.line wire.new) }
{
    let mut rest = bytes;
    while rest.len() > size {
        let (fragment, more) = rest.split_at(size);
        // Instead of `?`, as the proof treats each arm by itself.
        match write_data(context, true, false, fragment, wire) {
            Ok(()) => rest = more,
            Err(WireFailed) => return Err(WireFailed),
        }
    }
    write_data(context, true, true, rest, wire)
}

/// Sends the response to a command with this status (PS3.7 sections 9.3.1.2 and 9.3.5.2) in
/// P-DATA-TF PDUs, each of one presentation data value with the presentation context ID `context`.
/// A fragment has the greatest even size that, with 6 bytes more, is within the peer's maximum
/// length `peer_max`, which must be 0 or at least 8; with 0, no maximum, the response is one PDU.
/// After a failed send nothing more is sent.
///
/// The response to a C-STORE with status C000 or A900 reports the cause: Offending Element is the
/// tag of `detail`, unless that is (0000,0000), and Error Comment is `fault`, its number and its
/// name. With any other status, or a number without a name, the response has neither element.
#[tactic(auto, unfolding(crate::specs::Reply::reply_bytes))]
pub fn write_response<W: Wire>(
    command: &Command,
    status: u16,
    detail: Option<Detail>,
    context: u8,
    peer_max: u32,
    wire: &mut W,
) -> Result<(), WireFailed>
    requires { IsMaximum peer_max }
    ensures sends { Sends (reply_bytes command.now status detail context peer_max) result (W.line wire.old) (W.line wire.new) }
{
    let set = reply_command_set(command, status, detail);
    let size = fragment_size(peer_max, set.len());
    write_fragments(context, size, set.as_slice(), wire)
}
