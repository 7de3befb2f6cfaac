//! The log lines of messages that abort an association.
use crate::shown::reports;
use std::test::Fail;

static PDU: &str = "log | Warn
send | request
send | 0400 00030d40 0000
closes
line | [WARN  aborted by dcmbox, its provider: invalid PDU parameter value (P-DATA-TF PDU of 200000 bytes, at \
    most 16384) calling \"SCANNER1\"

log | Warn
send | request
send | 040000000005
closes
line | [WARN  aborted by dcmbox, its provider: invalid PDU parameter value (P-DATA-TF PDU of 5 bytes, at \
    least 6) calling \"SCANNER1\"

log | Warn
send | request
send | request
closes
line | [WARN  aborted by dcmbox, its provider: unexpected PDU (PDU type 01) calling \"SCANNER1\"

log | Warn
send | request
send | 0a0000000004
closes
line | [WARN  aborted by dcmbox, its provider: unrecognized PDU (PDU type 0A) calling \"SCANNER1\"

log | Warn
send | request
send | 050000000006
closes
line | [WARN  aborted by dcmbox, its provider: invalid PDU parameter value (PDU type 05 of 6 bytes, not 4) \
    calling \"SCANNER1\"";

#[test]
fn a_pdu_is_why(rt: HostRuntime) -> Result<(), Fail> {
    reports(&rt, "a_pdu_is_why", PDU)
}

static VALUE: &str = "log | Warn
send | request
send | 040000000006 00000001 0103
closes
line | [WARN  aborted by dcmbox, its provider: invalid PDU parameter value (bad presentation data value) \
    calling \"SCANNER1\"

log | Warn
send | request
send | 040000000009 00000002 0101 000000
closes
line | [WARN  aborted by dcmbox, its provider: invalid PDU parameter value (bytes after the last presentation \
    data value) calling \"SCANNER1\"

log | Warn
send | request
pdu | zeros | 03 01 | 00*4
send | zeros
closes
line | [WARN  aborted by dcmbox, its provider: invalid PDU parameter value (presentation context 3 is not \
    accepted) calling \"SCANNER1\"";

#[test]
fn a_value_is_why(rt: HostRuntime) -> Result<(), Fail> {
    reports(&rt, "a_value_is_why", VALUE)
}

static FRAGMENT: &str = "log | Warn
send | request
pdu | zeros | 01 03 | 00*1026
send | zeros
closes
line | [WARN  aborted by dcmbox, its application (command: 40 CommandTooLong, 1026 bytes of at most 1024) calling \
    \"SCANNER1\"

log | Warn
send | request
pdu | zeros | 01 01 | 00*200
send | zeros*6
closes
line | [WARN  aborted by dcmbox, its application (command: 40 CommandTooLong, 1200 bytes of at most 1024) calling \
    \"SCANNER1\"

log | Warn
send | request
pdu | zeros | 01 02 | 00*8
send | zeros
closes
line | [WARN  aborted by dcmbox, its application (command: 43 WrongKind, data without a command) calling \"SCANNER1\"

log | Warn
send | request
pdu | part | 01 01 | 00*200
pdu | more | 01 02 | 00*8
send | part more
closes
line | [WARN  aborted by dcmbox, its application (command: 43 WrongKind, data before its end) calling \"SCANNER1\"";

#[test]
fn a_fragment_is_why(rt: HostRuntime) -> Result<(), Fail> {
    reports(&rt, "a_fragment_is_why", FRAGMENT)
}

/// The recorded request with its only context twice, as 1 and as 3, 50 bytes longer than the
/// recording.
static OTHER_CONTEXT: &str = "log | Warn
let | second | request[99..103] 03 request[104..149]
let | twice | 0100000000d6 request[6..149] second request[149..]
pdu | part | 01 01 | 00*200
pdu | other | 03 01 | 00*200
send | twice part other
closes
line | [WARN  aborted by dcmbox, its application (command: 44 OtherContext, context 3 inside a message of context 1) \
    calling \"SCANNER1\"";

#[test]
fn another_context_is_why(rt: HostRuntime) -> Result<(), Fail> {
    reports(&rt, "another_context", OTHER_CONTEXT)
}

/// The last message is an echo that announces a data set.
static COMMAND: &str = "log | Warn
send | request
pdu | zeros | 01 03 | 00*80
send | zeros
closes
line | [WARN  aborted by dcmbox, its application (command: 41 BadCommand) calling \"SCANNER1\"

log | Warn
send | request
put | find | 3a 20 | echo
send | find
closes
line | [WARN  aborted by dcmbox, its application (command: 42 UnknownField, C-FIND-RQ 0020H) calling \"SCANNER1\"

log | Warn
send | request
put | nameless | 3a 23 | echo
send | nameless
closes
line | [WARN  aborted by dcmbox, its application (command: 42 UnknownField, field 0023H) calling \"SCANNER1\"

log | Warn
send | request
put | with_data | 4e 02 | echo
send | with_data
closes
line | [WARN  aborted by dcmbox, its application (command: 43 WrongKind, C-ECHO-RQ 0030H) calling \"SCANNER1\"";

#[test]
fn a_command_is_why(rt: HostRuntime) -> Result<(), Fail> {
    reports(&rt, "a_command_is_why", COMMAND)
}

static SECOND_COMMAND: &str = "log | Warn
pdu | asked | 01 03 | command
send | ct_request asked*2
closes
line | [WARN  aborted by dcmbox, its application (command: 43 WrongKind, two commands without data) calling \
    \"SCANNER1\"
line | [WARN  not stored: no reply, aborted by dcmbox, its application (command: 43 WrongKind, two commands without \
    data) class CTImageStorage instance 1.2.3 stores 1 calling \"SCANNER1\"";

#[test]
fn a_second_command_is_why(rt: HostRuntime) -> Result<(), Fail> {
    reports(&rt, "a_second_command", SECOND_COMMAND)
}
