//! Why dcmbox aborted an association, in words.
use crate::end::Abort;
use crate::fields::field_name;
use decisions::{Decision, HeadFault};
use dimse::{DimseFault, Unfinished};
use pdu::{PduFault, PduHead, PdvHead};
use service::COMMAND;
use std::fmt;

/// The type of a TLS handshake record (RFC 8446 section 5.1), which is not the type of a PDU.
const HANDSHAKE: u8 = 0x16;

/// Returns whether the header of a PDU may be the first bytes of a TLS connection. Bytes 3 to 6 of
/// a ClientHello are the minor version, at most 4, the length of the record, and the message type
/// 1.
fn is_hello(head: PduHead) -> bool {
    head.kind == HANDSHAKE && head.length >> 24 <= 4 && head.length & 0xff == 1
}

/// An A-ABORT of dcmbox, and the decision for which it was sent. It is displayed as the cause.
#[derive(Clone, Copy)]
pub(crate) struct Cause(pub Abort, pub Decision);

/// Writes the fault of the header of a PDU. If no association was established, the A-ABORT is of
/// the service user (AA-1 of PS3.8 Table 9-9): then the PDU may be of another protocol.
fn write_head<W: fmt::Write>(
    f: &mut fmt::Formatter<W>,
    head: PduHead,
    fault: HeadFault,
    abort: Abort,
) -> fmt::Result {
    let PduHead { kind, length } = head;
    match fault {
        HeadFault::Unrecognized if abort.source == 0 && is_hello(head) => {
            write!(f, "PDU type {kind:02X}, is it TLS?")
        }
        HeadFault::Unrecognized | HeadFault::Unexpected => write!(f, "PDU type {kind:02X}"),
        HeadFault::OtherLength => write!(f, "PDU type {kind:02X} of {length} bytes, not 4"),
        HeadFault::ShortRequest => write!(f, "request: {}", PduFault::BadLength),
        HeadFault::LongData(most) => {
            write!(f, "P-DATA-TF PDU of {length} bytes, at most {most}")
        }
        HeadFault::ShortData => write!(f, "P-DATA-TF PDU of {length} bytes, at least 6"),
    }
}

/// Writes why a fragment with this header does not continue a message of which this was received.
fn write_fragment<W: fmt::Write>(
    f: &mut fmt::Formatter<W>,
    head: PdvHead,
    fault: DimseFault,
    before: Unfinished,
) -> fmt::Result {
    write!(f, "command: {fault}, ")?;
    let id = head.context;
    match (fault, before) {
        (DimseFault::OtherContext, Unfinished::Command(own, _) | Unfinished::Set(own)) => {
            write!(f, "context {id} inside a message of context {own}")
        }
        (DimseFault::CommandTooLong, Unfinished::Command(_, received)) => {
            write_size(f, head, received)
        }
        (DimseFault::CommandTooLong, _) => write_size(f, head, 0),
        (_, Unfinished::Nothing) => f.write_str("data without a command"),
        (_, Unfinished::Command(_, _)) => f.write_str("data before its end"),
        (_, Unfinished::Set(_)) => f.write_str("two commands without data"),
    }
}

/// Writes the size of a command set of which this was received before the fragment with this
/// header.
fn write_size<W: fmt::Write>(
    f: &mut fmt::Formatter<W>,
    head: PdvHead,
    received: usize,
) -> fmt::Result {
    let size = u64::from(head.length).saturating_sub(2);
    let size = size.saturating_add(received as u64);
    write!(f, "{size} bytes of at most {COMMAND}")
}

/// Writes the fault of a command set, and its command field with the name in PS3.7.
fn write_command<W: fmt::Write>(
    f: &mut fmt::Formatter<W>,
    fault: DimseFault,
    field: Option<u16>,
) -> fmt::Result {
    match field {
        None => write!(f, "command: {fault}"),
        Some(field) => match field_name(field) {
            Some(name) => write!(f, "command: {fault}, {name} {field:04X}H"),
            None => write!(f, "command: {fault}, field {field:04X}H"),
        },
    }
}

impl fmt::Display for Cause {
    fn fmt<W: fmt::Write>(&self, f: &mut fmt::Formatter<W>) -> fmt::Result {
        let Cause(abort, decision) = *self;
        match decision {
            Decision::PduRefused(head, fault) => write_head(f, head, fault, abort),
            Decision::RequestInvalid(fault) => write!(f, "request: {fault}"),
            Decision::BadPdv => f.write_str("bad presentation data value"),
            Decision::Leftover(_) => { f.write_str("bytes after the last presentation data value") }
            Decision::ContextRefused(head) => {
                let id = head.context;
                write!(f, "presentation context {id} is not accepted")
            }
            Decision::FragmentRefused(head, fault, before) => {
                write_fragment(f, head, fault, before)
            }
            Decision::CommandRefused(fault, field) => write_command(f, fault, field),
            _ => Ok(()),
        }
    }
}
