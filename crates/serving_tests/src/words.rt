//! The words of scripts: named bytes, and actions of a peer.

use crate::scripted::Script;
use cases::{Case, Parts};
use fixtures::echo;
use fixtures::stores::{
    ACCEPT, CT_SET, EXPLICIT, INSTANCE, OTHER, reply, request, store, whole_store,
};
use std::alloc::Global;
use std::test::Fail;

/// The bytes known to each script: of the recorded echo, and of stores of CT images in Explicit VR
/// Little Endian.
static NAMED: [(&str, &[u8]); 9] = [
    ("request", echo::REQUEST),
    ("echo", echo::ECHO),
    ("release", echo::RELEASE),
    ("accept", echo::ACCEPT),
    ("reply", echo::REPLY),
    ("released", echo::RELEASED),
    ("abort", echo::USER_ABORT),
    ("ct_accept", ACCEPT),
    ("set", &CT_SET),
];

/// Returns the bytes that scripts can name from the start: those of `NAMED`; `ct_request`;
/// `command` and `other_command` of two SOP Instance UIDs; the whole `store` and `other_store`;
/// `success`, the reply to the first; and `pixels`, which count up.
pub fn parts<'a>(alloc: Global) -> Result<Parts<'a>, Fail> {
    let mut parts = Parts::new(alloc);
    for (name, bytes) in &NAMED {
        parts.add(*name, Vec::from_slice(alloc, *bytes)?)?;
    }
    parts.add("ct_request", request(alloc, EXPLICIT)?)?;
    parts.add("success", reply(alloc, INSTANCE, 0, None)?)?;
    parts.add("pixels", pixels(alloc)?)?;
    add_stores(alloc, &mut parts)?;
    Ok(parts)
}

fn add_stores(alloc: Global, parts: &mut Parts<'_>) -> Result<(), Fail> {
    parts.add("command", store(alloc, INSTANCE)?)?;
    parts.add("other_command", store(alloc, OTHER)?)?;
    parts.add("store", whole_store(alloc, INSTANCE, &CT_SET)?)?;
    parts.add("other_store", whole_store(alloc, OTHER, &CT_SET)?)
}

/// Returns the numbers from 0 to 250 repeated, as many bytes as a PDU of 16,384 bytes has of a
/// value.
fn pixels(alloc: Global) -> Result<Vec<u8>, Fail> {
    let mut pixels = Vec::new(alloc);
    for index in 0..16378usize {
        pixels.push((index % 251) as u8)?;
    }
    Ok(pixels)
}

/// Returns the number of a field, or the greatest number for `all`.
pub fn number(case: &Case, index: usize) -> Result<usize, Fail> {
    let text = case.field(index)?;
    if text == "all" {
        return Ok(usize::MAX);
    }
    match text.parse::<usize>() {
        Ok(number) => Ok(number),
        Err(_) => Err(case.fails("no number")),
    }
}

/// Applies a step that names bytes. Returns whether it is such a step.
///
/// - `let | NAME | BYTES`: names these bytes.
/// - `pdu | NAME | ID FLAGS | BYTES`: names the P-DATA-TF PDU of one presentation data value, with
///   its presentation context ID and its message control header in hexadecimal.
/// - `put | NAME | PLACE BYTE | BYTES`: names these bytes with another byte, in hexadecimal, at an
///   offset.
pub fn names<'a>(alloc: Global, parts: &mut Parts<'a>, case: &Case<'a>) -> Result<bool, Fail> {
    let bytes = match case.name {
        "let" => parts.bytes(case, 1)?,
        "pdu" => pdu(alloc, parts, case)?,
        "put" => replaced(parts, case)?,
        _ => return Ok(false),
    };
    parts.add(case.field(0)?, bytes)?;
    Ok(true)
}

fn pdu(alloc: Global, parts: &Parts<'_>, case: &Case<'_>) -> Result<Vec<u8>, Fail> {
    let (value_head, value) = (parts.bytes(case, 1)?, parts.bytes(case, 2)?);
    let size = u32::try_from(value.len()).unwrap_or(u32::MAX);
    let mut pdu = Vec::from_slice(alloc, &[4, 0])?;
    pdu.extend_from_slice(&size.saturating_add(6).to_be_bytes())?;
    pdu.extend_from_slice(&size.saturating_add(2).to_be_bytes())?;
    pdu.extend_from_slice(value_head.as_slice())?;
    pdu.extend_from_slice(value.as_slice())?;
    Ok(pdu)
}

fn replaced(parts: &Parts<'_>, case: &Case<'_>) -> Result<Vec<u8>, Fail> {
    let mut bytes = parts.bytes(case, 2)?;
    if let [offset, byte] = parts.bytes(case, 1)?.as_slice() {
        if let Some(old) = bytes.get_mut(usize::from(*offset)) {
            *old = *byte;
            return Ok(bytes);
        }
    }
    Err(case.fails("no such byte"))
}

/// Applies a step of the peer. Returns whether it is such a step.
///
/// - `send | BYTES`: the peer sends these bytes.
/// - `accepts | NUMBER`: the peer accepts this many more bytes, or `all`.
/// - `fails`: each further write to the peer fails.
/// - `closes`: the peer closes the connection.
pub fn peer_does(script: &Script, parts: &Parts<'_>, case: &Case<'_>) -> Result<bool, Fail> {
    match case.name {
        "send" => script.send(parts.bytes(case, 0)?.as_slice())?,
        "accepts" => script.accepts.set(number(case, 0)?),
        "fails" => script.fails.set(true),
        "closes" => script.is_closed.set(true),
        _ => return Ok(false),
    }
    Ok(true)
}
