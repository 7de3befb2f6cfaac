//! Test cases of `pdu` on its public calls: requests and PDUs as recorded, one fault of each kind,
//! and the wire in memory.
use cases::{Case, Parts, cases};
use pdu::{
    MemoryWire, Proposal, Request, Wire, WireFailed, read_pdu_head, read_pdv_head, read_request,
    write_abort, write_data, write_reject, write_release,
};
use std::alloc::{AllocError, Global};
use std::test::Fail;

/// The fixed part of a request, the items of the recorded echo, and other items, some wrong in one
/// way each.
static ITEMS: &str = "
fixed | 00 01 00 00 'DCMBOX          SCANNER1        ' 00*32
echo-application | 10 00 00 15 '1.2.840.10008.3.1.1.1'
echo-names | 00*3 30 00 00 11 '1.2.840.10008.1.1' 40 00 00 11 '1.2.840.10008.1.2'
echo-context | 20 00 00 2e 01 echo-names
echo-information | 50 00 00 11 51 00 00 04 00 00 40 00 52 00 00 05 '1.2.3'
application | 10 00 00 03 '1.2'
context | 20 00 00 0e 03 00 00 00 30 00 00 01 '1' 40 00 00 01 '2'
information | 50 00 00 08 51 00 00 04 00 00 40 00
other | 20 00 00 0e 05 00 00 00 30 00 00 01 '1' 40 00 00 01 '2'
bare | 20 00 00 03 01 00 00
two-names | 20 00 00 13 05 00 00 00 30 00 00 01 '1' 30 00 00 01 '1' 40 00 00 01 '2'
long-maximum | 50 00 00 09 51 00 00 05 00 00 40 00 00
cut-maximum | 50 00 00 08 51 00 00 05 00 00 40 00
unknown | 21 00 00 01 ff
";

/// The body of a request, the number of its fault, or 0 if it is accepted, and its size in bytes;
/// and for an accepted one, its version, maximum, titles, reserved bytes, application context, and
/// of each presentation context the ID, the abstract syntax and the transfer syntaxes.
static BODIES: &str = "
the recorded request | fixed echo-application echo-context echo-information | 0 of 164 | \
    00 01 00 00 40 00 'DCMBOX          SCANNER1        ' 00*32 '1.2.840.10008.3.1.1.1' \
    01 '1.2.840.10008.1.1' 00 '1.2.840.10008.1.2' 00
an even ID | fixed echo-application 20 00 00 2e 02 echo-names echo-information | 33 of 164 |
without the last byte | fixed echo-application echo-context \
    50 00 00 11 51 00 00 04 00 00 40 00 52 00 00 05 '1.2.' | 31 of 163 |
without user information | fixed echo-application echo-context | 35 of 143 |
less than the fixed part | 00 01 00 00 'DCMBOX          SCANNER1        ' 00*31 | 31 of 67 |
an unknown item, in another order | fixed information unknown context application other | \
    0 of 128 | 00 01 00 00 40 00 'DCMBOX          SCANNER1        ' 00*32 '1.2' \
    03 '1' 00 '2' 00 05 '1' 00 '2' 00
a bare context | fixed application bare information | 31 of 94 |
a maximum that is cut off | fixed application context cut-maximum | 31 of 105 |
an item that is cut off | fixed application context information 60 | 31 of 106 |
two application contexts | fixed application context application information | 32 of 112 |
two abstract syntaxes | fixed application two-names information | 32 of 110 |
a long maximum | fixed application context long-maximum | 32 of 106 |
an ID twice | fixed application context other context information | 34 of 141 |
no user information | fixed application context | 35 of 93 |
the greatest body, of small items | fixed 60000000*16364 | 35 of 65524 |
the greatest body, of small items in a context | \
    fixed 20 00 ff ac 01 00 00 00 40000000*16362 | 32 of 65524 |
";

/// Appends the fields of a presentation context.
fn put_context(fields: &mut Vec<u8>, proposal: &Proposal) -> Result<(), AllocError> {
    fields.push(proposal.id())?;
    fields.extend_from_slice(proposal.abstract_syntax())?;
    fields.push(0)?;
    for syntax in proposal.transfer_syntaxes() {
        fields.extend_from_slice(syntax)?;
        fields.push(0)?;
    }
    Ok(())
}

/// Appends the fields of a request.
fn put_fields(fields: &mut Vec<u8>, request: &Request) -> Result<(), AllocError> {
    request.keeps();
    fields.extend_from_slice(&request.version().to_be_bytes())?;
    fields.extend_from_slice(&request.maximum().to_be_bytes())?;
    fields.extend_from_slice(&request.called().0)?;
    fields.extend_from_slice(&request.calling().0)?;
    fields.extend_from_slice(request.reserved())?;
    fields.extend_from_slice(request.application_context())?;
    for proposal in request.contexts() {
        put_context(fields, &proposal)?;
    }
    Ok(())
}

/// Returns the number of a body's fault, or 0 if the body is accepted. Appends the fields of an
/// accepted body.
fn refusal(body: &[u8], fields: &mut Vec<u8>) -> Result<u8, AllocError> {
    match read_request(body) {
        Ok(request) => {
            put_fields(fields, &request)?;
            Ok(0)
        }
        Err(fault) => Ok(fault.number()),
    }
}

/// Fails with the name of the test case unless its body is read as it states.
fn is_read(alloc: Global, parts: &Parts, case: &Case) -> Result<(), Fail> {
    let body = parts.bytes(case, 0)?;
    let mut fields = Vec::new(alloc);
    let number = refusal(body.as_slice(), &mut fields)?;
    case.expect(1, format!(in alloc; "{number} of {}", body.len())?.as_str())?;
    parts.expect(case, 2, fields.as_slice())
}

#[test]
fn bodies_of_requests(rt: HostRuntime) -> Result<(), Fail> {
    let parts = Parts::read(rt.alloc(), ITEMS, 14)?;
    for case in cases(rt.alloc(), BODIES, 16)?.as_slice() {
        is_read(rt.alloc(), &parts, case)?;
    }
    Ok(())
}

#[test]
fn heads_are_read(rt: HostRuntime) {
    let head = read_pdu_head(&[4, 0, 0, 0, 0, 0x4A]);
    assert!(rt; head.kind == 4 && head.length == 74);
    let head = read_pdv_head(&[0, 0, 0, 0x46, 1, 3]);
    assert!(rt; head.length == 70 && head.context == 1 && head.command && head.last);
}

/// A rejection, a release, an abort and a fragment, as they are sent.
const WRITTEN: &[u8] = &[
    3, 0, 0, 0, 0, 4, 0, 1, 1, 7, 6, 0, 0, 0, 0, 4, 0, 0, 0, 0, 7, 0, 0, 0, 0, 4, 0, 0, 2, 6, 4, 0,
    0, 0, 0, 8, 0, 0, 0, 4, 1, 1, 0, 0,
];

fn write_each(wire: &mut MemoryWire<Global>) -> Result<(), WireFailed> {
    write_reject(1, 1, 7, wire)?;
    write_release(wire)?;
    write_abort(2, 6, wire)?;
    write_data(1, true, false, &[0, 0], wire)
}

#[test]
fn pdus_are_written(rt: HostRuntime) {
    let mut wire = MemoryWire::new(rt.alloc());
    assert!(rt; write_each(&mut wire).is_ok() && wire.sent() == WRITTEN);
    assert!(rt; write_data(3, false, true, &[7; 600], &mut wire).is_ok());
    assert!(rt; wire.sent().len() == WRITTEN.len() + 612 && !wire.failed());
}

#[test]
fn a_wire_over_memory_accepts_long_sends(rt: HostRuntime) {
    let mut wire = MemoryWire::new(rt.alloc());
    assert!(rt; wire.send(&[1; 5000]).is_ok() && wire.send(&[2; 5000]).is_ok());
    assert!(rt; wire.sent().len() == 10000);
    assert!(rt; wire.sent()[4999..5001] == [1, 2] && !wire.failed());
}
