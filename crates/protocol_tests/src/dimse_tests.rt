//! Test cases of `dimse` on its public calls: commands as recorded, and replies byte for byte and
//! send for send.

use crate::counting_wire::CountingWire;
use cases::{Case, Parts, cases};
use dimse::{
    CLASS_MISMATCH, Command, Detail, DimseFault, INSTANCE_MISMATCH, cause_name, read_command,
    write_response,
};
use element::Tag;
use std::alloc::{AllocError, Global};
use std::test::Fail;

/// The command of the recorded C-ECHO.
pub(crate) const ECHO: [u8; 68] = [
    0, 0, 0, 0, 4, 0, 0, 0, 0x38, 0, 0, 0, // 0000
    0, 0, 2, 0, 18, 0, 0, 0, 0x31, 0x2e, 0x32, 0x2e, 0x38, 0x34, 0x30, 0x2e, 0x31, 0x30, 0x30,
    0x30, 0x38, 0x2e, 0x31, 0x2e, 0x31, 0, // 0002
    0, 0, 0, 1, 2, 0, 0, 0, 0x30, 0, // 0100
    0, 0, 0x10, 1, 2, 0, 0, 0, 1, 0, // 0110
    0, 0, 0, 8, 2, 0, 0, 0, 1, 1, // 0800
];

/// A C-STORE-RQ of a CT image `1.2.3`, with a priority.
pub(crate) const STORE: [u8; 100] = [
    0, 0, 0, 0, 4, 0, 0, 0, 88, 0, 0, 0, // 0000
    0, 0, 2, 0, 26, 0, 0, 0, 0x31, 0x2e, 0x32, 0x2e, 0x38, 0x34, 0x30, 0x2e, 0x31, 0x30, 0x30,
    0x30, 0x38, 0x2e, 0x35, 0x2e, 0x31, 0x2e, 0x34, 0x2e, 0x31, 0x2e, 0x31, 0x2e, 0x32, 0, // 0002
    0, 0, 0, 1, 2, 0, 0, 0, 1, 0, // 0100
    0, 0, 0x10, 1, 2, 0, 0, 0, 7, 0, // 0110
    0, 0, 0, 7, 2, 0, 0, 0, 0, 0, // 0700
    0, 0, 0, 8, 2, 0, 0, 0, 2, 1, // 0800
    0, 0, 0, 0x10, 6, 0, 0, 0, 0x31, 0x2e, 0x32, 0x2e, 0x33, 0, // 1000
];

/// The elements of the echo and the common parts of the replies; to a peer with a maximum of eight
/// bytes, the reply to the echo is sent in pairs.
static PARTS: &str = "
count | 00*4 04 00*3 38 00*3
class | 00 00 02 00 12 00*3 '1.2.840.10008.1.1' 00
field | 00 00 00 01 02 00*3 30 00
message | 00 00 10 01 02 00*3 01 00
kind | 00 00 00 08 02 00*3 01 01
without-data | 00 00 00 08 02 00*3 01 01
echo-answered | 00*4 04 00*3 42 00*3 class 00 00 00 01 02 00*3 30 80 00 00 20 01 02 00*3 01 00 \
    without-data 00 00 00 09 02 00*4 00
store-front | 00 00 02 00 1a 00*3 '1.2.840.10008.5.1.4.1.1.2' 00 00 00 00 01 02 00*3 01 80 00 \
    00 20 01 02 00*3 07 00 without-data 00 00 00 09 02 00*3
store-end | 00 00 00 10 06 00*3 '1.2.3' 00
store-request | 00 00 02 00 1a 00*3 '1.2.840.10008.5.1.4.1.1.2' 00 00 00 00 01 02 00*3 01 00 \
    00 00 10 01 02 00*3 07 00 00 00 00 07 02 00*5 00 00 00 08 02 00*3 02 01 store-end
originator | 00 00 30 10 08 00*3 'SCANNER2'
originator-message | 00 00 31 10 02 00*3 05 00
pairs | 0400000000080000000401010000 0400000000080000000401010000 0400000000080000000401010400 \
    0400000000080000000401010000 0400000000080000000401014200 0400000000080000000401010000 \
    0400000000080000000401010000 0400000000080000000401010200 0400000000080000000401011200 \
    0400000000080000000401010000 040000000008000000040101312e 040000000008000000040101322e \
    0400000000080000000401013834 040000000008000000040101302e 0400000000080000000401013130 \
    0400000000080000000401013030 040000000008000000040101382e 040000000008000000040101312e \
    0400000000080000000401013100 0400000000080000000401010000 0400000000080000000401010001 \
    0400000000080000000401010200 0400000000080000000401010000 0400000000080000000401013080 \
    0400000000080000000401010000 0400000000080000000401012001 0400000000080000000401010200 \
    0400000000080000000401010000 0400000000080000000401010100 0400000000080000000401010000 \
    0400000000080000000401010008 0400000000080000000401010200 0400000000080000000401010000 \
    0400000000080000000401010101 0400000000080000000401010000 0400000000080000000401010009 \
    0400000000080000000401010200 0400000000080000000401010000 0400000000080000000401030000
";

/// A command set, and the number of its fault, or else its Command Field, Message ID, whether a
/// data set follows, its SOP Class UID and its SOP Instance UID. `echo` and `store` stand for
/// `ECHO` and `STORE`.
static COMMANDS: &str = "
the echo | echo | 0030 1 false 1.2.840.10008.1.1 none
a store | store | 0001 7 true 1.2.840.10008.5.1.4.1.1.2 1.2.3
another count | 00*4 04 00*3 36 00*3 class field message kind | 41
a field of one byte | count class 00 00 00 01 01 00*3 30 00 message kind | 41
a second count | count 00 00 00 00 12 00*3 '1.2.840.10008.1.1' 00 field message kind | 41
no class | count 00 00 01 00 12 00*3 '1.2.840.10008.1.1' 00 field message kind | 41
a class that is no identifier | count 00 00 02 00 12 00*3 'A.2.840.10008.1.1' 00 field message \
    kind | 41
no message ID | count class field 00 00 11 01 02 00*3 01 00 kind | 41
an unknown field | count class 00 00 00 01 02 00*3 20 00 message kind | 42
an unknown field and another count | 00*4 04 00*3 36 00*3 class 00 00 00 01 02 00*3 20 00 \
    message kind | 41
an unknown field and no message ID | count class 00 00 00 01 02 00*3 20 00 00 00 11 01 02 00*3 \
    01 00 kind | 41
an unknown field with a data set | count class 00 00 00 01 02 00*3 20 00 message 00 00 00 08 \
    02 00*3 02 01 | 42
an echo with a data set | count class field message 00 00 00 08 02 00*3 02 01 | 43
a store without a data set | count class 00 00 00 01 02 00*3 01 00 message kind | 43
a store of a move | 00*4 04 00*3 72 00*3 store-request originator originator-message | \
    0001 7 true 1.2.840.10008.5.1.4.1.1.2 1.2.3
a store of a move, of other lengths | 00*4 04 00*3 6c 00*3 store-request 00 00 30 10 00*4 \
    00 00 31 10 04 00*3 05 00*3 | 0001 7 true 1.2.840.10008.5.1.4.1.1.2 1.2.3
an echo with the elements of a move | 00*4 04 00*3 52 00*3 class field message kind originator \
    originator-message | 0030 1 false 1.2.840.10008.1.1 none
a store of a move, the message first | 00*4 04 00*3 72 00*3 store-request originator-message \
    originator | 41
an originator of an odd length | 00*4 04 00*3 71 00*3 store-request 00 00 30 10 07 00*3 \
    'SCANNER' originator-message | 41
an originator twice | 00*4 04 00*3 78 00*3 store-request originator originator | 41
an originator that is not counted | 00*4 04 00*3 58 00*3 store-request originator | 41
a store without an instance | count class 00 00 00 01 02 00*3 01 00 message 00 00 00 08 02 \
    00*3 02 01 | 41
";

/// Returns the result of reading a command set, as text.
fn read(alloc: Global, bytes: &[u8]) -> Result<String, Fail> {
    let command = match read_command(bytes) {
        Ok(command) => command,
        Err(fault) => return Ok(format!(in alloc; "{}", fault.number())?),
    };
    let class = str::from_utf8(command.class().as_bytes())?;
    let instance = match command.instance() {
        Some(uid) => str::from_utf8(uid.as_bytes())?,
        None => "none",
    };
    let (field, message, with_data) = (command.field(), command.message(), command.with_data());
    Ok(format!(in alloc; "{field:04x} {message} {with_data} {class} {instance}")?)
}

/// Returns the parts above, with both commands.
fn all_parts(alloc: Global) -> Result<Parts<'static>, Fail> {
    let mut parts = Parts::read(alloc, PARTS, 13)?;
    parts.add("echo", Vec::from_slice(alloc, &ECHO)?)?;
    parts.add("store", Vec::from_slice(alloc, &STORE)?)?;
    Ok(parts)
}

#[test]
fn commands(rt: HostRuntime) -> Result<(), Fail> {
    let parts = all_parts(rt.alloc())?;
    for case in cases(rt.alloc(), COMMANDS, 22)?.as_slice() {
        let bytes = parts.bytes(case, 0)?;
        case.expect(1, read(rt.alloc(), bytes.as_slice())?.as_str())?;
    }
    Ok(())
}

/// The command and the status of its reply; the number and the tag of the fault, if any; the
/// presentation context ID; the greatest PDU that the peer accepts; and the number of sends and the
/// bytes of the reply.
static REPLIES: &str = "
an echo in one send, any maximum | echo | 00 00 | | | 01 | 0 | 1 | 04 00 00 00 00 54 00 00 00 \
    50 01 03 echo-answered
an echo in one send, the least maximum for one PDU | echo | 00 00 | | | 01 | 84 | 1 | 04 00 00 \
    00 00 54 00 00 00 50 01 03 echo-answered
an echo in one send, a greater maximum | echo | 00 00 | | | 01 | 85 | 1 | 04 00 00 00 00 54 00 \
    00 00 50 01 03 echo-answered
an echo in one send, the usual maximum | echo | 00 00 | | | 01 | 16384 | 1 | 04 00 00 00 00 54 \
    00 00 00 50 01 03 echo-answered
an echo in one send, the greatest maximum | echo | 00 00 | | | 01 | 4294967295 | 1 | 04 00 00 \
    00 00 54 00 00 00 50 01 03 echo-answered
an echo to a peer that takes 8 bytes | echo | 00 00 | | | 01 | 8 | 39 | pairs
an echo to a peer that takes 9 bytes | echo | 00 00 | | | 01 | 9 | 39 | pairs
an overrun | store | c0 00 | 17 | 00 00 00 00 | 03 | 16384 | 1 | 04 00*4 82 00*3 7e 03 03 00*4 \
    04 00*3 70 00*3 store-front 00 c0 00 00 02 09 10 00*3 'fault 17 Overrun' store-end
an undefined length | store | c0 00 | 14 | 7f e0 00 10 | 03 | 16384 | 1 | 04 00*4 96 00*3 92 \
    03 03 00*4 04 00*3 84 00*3 store-front 00 c0 00 00 01 09 04 00*3 e0 7f 10 00 00 00 02 09 \
    18 00*3 'fault 14 UndefinedLength' store-end
another instance | store | a9 00 | 46 | 00 08 00 18 | 03 | 16384 | 1 | 04 00*4 98 00*3 94 03 \
    03 00*4 04 00*3 86 00*3 store-front 00 a9 00 00 01 09 04 00*3 08 00 18 00 00 00 02 09 1a \
    00*3 'fault 46 InstanceMismatch ' store-end
another class | store | a9 00 | 45 | 00 08 00 16 | 03 | 16384 | 1 | 04 00*4 94 00*3 90 03 03 \
    00*4 04 00*3 82 00*3 store-front 00 a9 00 00 01 09 04 00*3 08 00 16 00 00 00 02 09 16 00*3 \
    'fault 45 ClassMismatch' store-end
a success | store | 00 00 | 17 | 00 08 00 16 | 03 | 16384 | 1 | 04 00*4 6a 00*3 66 03 03 00*4 \
    04 00*3 58 00*3 store-front 00 00 store-end
a class that is not supported | store | 01 22 | 45 | 00 08 00 16 | 03 | 16384 | 1 | 04 00*4 6a \
    00*3 66 03 03 00*4 04 00*3 58 00*3 store-front 22 01 store-end
out of resources | store | a7 00 | 17 | 00 08 00 16 | 03 | 16384 | 1 | 04 00*4 6a 00*3 66 03 \
    03 00*4 04 00*3 58 00*3 store-front 00 a7 store-end
a fault without a cause | store | c0 00 | 18 | 00 08 00 16 | 03 | 16384 | 1 | 04 00*4 6a 00*3 \
    66 03 03 00*4 04 00*3 58 00*3 store-front 00 c0 store-end
";

/// Returns the big-endian number of these bytes.
fn number_of(bytes: &[u8]) -> u16 {
    match bytes {
        [one] => u16::from(*one),
        [high, low, ..] => u16::from_be_bytes([*high, *low]),
        [] => 0,
    }
}

/// Returns the fault of a test case, if any.
fn detail_of(parts: &Parts, case: &Case) -> Result<Option<Detail>, Fail> {
    let tag = parts.bytes(case, 3)?;
    if tag.len() != 4 {
        return Ok(None);
    }
    let tag = Tag(number_of(tag.as_slice()), number_of(&tag.as_slice()[2..]));
    let number = case.field(2)?.parse()?;
    Ok(Some(Detail { number, tag }))
}

/// Fails with the name of the test case unless a command gets the reply of the test case.
fn is_answered(alloc: Global, parts: &Parts, case: &Case, command: &Command) -> Result<(), Fail> {
    let status = number_of(parts.bytes(case, 1)?.as_slice());
    let context = case.field(4)?.parse()?;
    let peer_max = case.field(5)?.parse::<u32>()?;
    if 0 < peer_max && peer_max < 8 {
        return Err(case.fails("a maximum below 8"));
    }
    let detail = detail_of(parts, case)?;
    let mut wire = CountingWire::new(alloc);
    if write_response(command, status, detail, context, peer_max, &mut wire).is_err() {
        return Err(case.fails("is not sent"));
    }
    case.expect(6, format!(in alloc; "{}", wire.sends)?.as_str())?;
    parts.expect(case, 7, wire.wire.sent())
}

#[test]
fn replies(rt: HostRuntime) -> Result<(), Fail> {
    let parts = all_parts(rt.alloc())?;
    for case in cases(rt.alloc(), REPLIES, 15)?.as_slice() {
        let bytes = parts.bytes(case, 0)?;
        let command = read_command(bytes.as_slice()).ok().ok_or("a command")?;
        is_answered(rt.alloc(), &parts, case, &command)?;
    }
    Ok(())
}

/// Returns whether the fault prints this text.
fn is_shown(alloc: Global, fault: DimseFault, shown: &str) -> Result<bool, AllocError> {
    let text = format!(in alloc; "{fault}")?;
    Ok(text.as_str() == shown)
}

static SHOWN: [(DimseFault, u8, &str); 5] = [
    (DimseFault::CommandTooLong, 40, "40 CommandTooLong"),
    (DimseFault::BadCommand, 41, "41 BadCommand"),
    (DimseFault::UnknownField, 42, "42 UnknownField"),
    (DimseFault::WrongKind, 43, "43 WrongKind"),
    (DimseFault::OtherContext, 44, "44 OtherContext"),
];

#[test]
fn faults_have_numbers_and_names(rt: HostRuntime) -> Result<(), AllocError> {
    for (fault, number, shown) in &SHOWN {
        assert!(rt; fault.number() == *number && is_shown(rt.alloc(), *fault, shown)?);
    }
    let causes = [
        (17, Some("Overrun")),
        (CLASS_MISMATCH, Some("ClassMismatch")),
        (INSTANCE_MISMATCH, Some("InstanceMismatch")),
        (18, None),
    ];
    for (number, name) in causes {
        assert!(rt; cause_name(number) == name);
    }
    Ok(())
}
