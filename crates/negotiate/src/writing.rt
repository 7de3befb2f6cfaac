//! Writes answers.
ghost use Rattle.std.specs.Prelude.{◌≡◌, length};
ghost use Rattle.pdu.specs.Sent.{Sends};
ghost use Rattle.negotiate.specs.Accept.{answer_bytes};
ghost use Rattle.negotiate.specs.Settings.{settings_of};

use crate::accept::{accept_pdu, accept_size};
use crate::answer::{Answer, judge};
use crate::config::Config;
use pdu::{Request, Wire, WireFailed, write_reject};

/// The size of an A-ASSOCIATE-RJ in bytes.
const REJECT: usize = 10;

/// Returns the size in bytes of the answer to the request that `write_answer` sends.
pub fn answer_size(config: &Config, request: &Request) -> usize
    ensures { result ≡ length (answer_bytes (settings_of config.now) request.now) }
{
    match judge(config, request) {
        Answer::Accept => accept_size(config, request),
        Answer::Reject(_, _, _) => REJECT,
    }
}

/// Sends the answer to the request, in one send: the A-ASSOCIATE-RJ that `judge` returns, or an
/// A-ASSOCIATE-AC that accepts or rejects each proposed context in the request's order.
pub fn write_answer<W: Wire>(
    config: &Config,
    request: &Request,
    wire: &mut W,
) -> Result<(), WireFailed>
    ensures sends { Sends (answer_bytes (settings_of config.now) request.now) result (W.line wire.old) (W.line wire.new) }
{
    match judge(config, request) {
        Answer::Accept => wire.send(accept_pdu(config, request).as_slice()),
        Answer::Reject(outcome, source, reason) => write_reject(outcome, source, reason, wire),
    }
}
