//! The log lines of stores: the result of each, and the counts.
use crate::shown::reports;
use std::test::Fail;

static EACH_STORE: &str = "log | Debug
pdu | asked | 01 03 | other_command
pdu | cut | 01 02 | set[..40]
send | ct_request store asked cut
send | release
closes
line | [DEBUG store class CTImageStorage instance 1.2.3 syntax ExplicitVRLittleEndian bytes 48 \
    status 0000 file I0000001
line | [WARN  not stored: status C000 fault 20 Truncated tag 0008,0018 class CTImageStorage instance 1.2.4 \
    syntax ExplicitVRLittleEndian calling \"SCANNER1\"
line | [DEBUG store class CTImageStorage instance 1.2.4 syntax ExplicitVRLittleEndian bytes 40 \
    status C000 fault 20 Truncated tag 0008,0018
line | [INFO  Ended held 0 files 2 dropped 1 received 260 in 1 s calling \"SCANNER1\" called \"DCMBOX\" \
    released contexts 1 of 1 stored 1 refused 0 failed 1";

#[test]
fn each_store_has_a_line(rt: HostRuntime) -> Result<(), Fail> {
    reports(&rt, "each_store", EACH_STORE)
}

/// A stored image and a faulty one, in fragments of which some have the same head and some are
/// empty.
static IN_PIECES: &str = "pieces | 1 3 7 4096
log | Debug
pdu | asked | 01 01 | command[..40]
pdu | empty | 01 01 |
pdu | rest | 01 03 | command[40..]
pdu | first | 01 00 | set[..16]
pdu | second | 01 00 | set[16..32]
pdu | third | 01 02 | set[32..]
pdu | other | 01 03 | other_command
pdu | cut | 01 00 | set[..40]
pdu | end | 01 02 |
let | stored | asked empty rest first second third
send | ct_request stored echo other cut end release
closes
line | [DEBUG store class CTImageStorage instance 1.2.3 syntax ExplicitVRLittleEndian bytes 48 \
    status 0000 file I0000001
line | [WARN  an echo was refused: status 0122 calling \"SCANNER1\"
line | [WARN  not stored: status C000 fault 20 Truncated tag 0008,0018 class CTImageStorage instance 1.2.4 \
    syntax ExplicitVRLittleEndian calling \"SCANNER1\"
line | [DEBUG store class CTImageStorage instance 1.2.4 syntax ExplicitVRLittleEndian bytes 40 \
    status C000 fault 20 Truncated tag 0008,0018
line | [INFO  Ended held 0 files 2 dropped 1 received 260 in 1 s calling \"SCANNER1\" called \"DCMBOX\" \
    released contexts 1 of 1 stored 1 refused 0 failed 1";

#[test]
fn pieces_of_any_size_have_the_same_lines(rt: HostRuntime) -> Result<(), Fail> {
    reports(&rt, "pieces", IN_PIECES)
}

/// The P-DATA-TF PDU of the data set has three extra bytes, which are not the head of a
/// presentation data value.
static STORE_BEFORE: &str = "log | Debug
pdu | asked | 01 03 | command
pdu | all | 01 02 | set
put | longer | 05 39 | all
send | ct_request
send | asked
send | longer 000000
closes
line | [DEBUG store class CTImageStorage instance 1.2.3 syntax ExplicitVRLittleEndian bytes 48 \
    status 0000 file I0000001
line | [WARN  aborted by dcmbox, its provider: invalid PDU parameter value (bytes after the last presentation \
    data value) calling \"SCANNER1\"
line | [INFO  Ended held 0 files 2 dropped 0 received 260 in 1 s calling \"SCANNER1\" called \"DCMBOX\" \
    aborted by dcmbox, its provider: invalid PDU parameter value (bytes after the last presentation data value) \
    contexts 1 of 1 stored 1 refused 0 failed 0";

#[test]
fn a_store_before_bytes_that_are_remaining_is_reported_of(rt: HostRuntime) -> Result<(), Fail> {
    reports(&rt, "bytes_left", STORE_BEFORE)
}

static COMMAND_BEFORE: &str = "log | Debug
pdu | asked | 01 03 | command
put | longer | 05 6d | asked
send | ct_request
send | longer 000000
closes
line | [WARN  aborted by dcmbox, its provider: invalid PDU parameter value (bytes after the last presentation \
    data value) calling \"SCANNER1\"
line | [WARN  not stored: no reply, aborted by dcmbox, its provider: invalid PDU parameter value (bytes after \
    the last presentation data value) stores 1 calling \"SCANNER1\"
line | [INFO  Ended held 0 files 2 dropped 1 received 260 in 1 s calling \"SCANNER1\" called \"DCMBOX\" \
    aborted by dcmbox, its provider: invalid PDU parameter value (bytes after the last presentation data value) \
    contexts 1 of 1 stored 0 refused 0 failed 0";

#[test]
fn a_command_before_bytes_that_are_remaining_has_no_reply(rt: HostRuntime) -> Result<(), Fail> {
    reports(&rt, "bytes_left", COMMAND_BEFORE)
}

static CUT_OFF: &str = "log | Info
send | ct_request store[..130]
closes
line | [WARN  not stored: no reply, closed by the peer class CTImageStorage instance 1.2.3 stores 1 calling \
    \"SCANNER1\"
line | [INFO  Ended held 0 files 2 dropped 1 received 260 in 1 s calling \"SCANNER1\" called \"DCMBOX\" \
    closed by the peer contexts 1 of 1 stored 0 refused 0 failed 0";

#[test]
fn a_store_that_is_cut_off_is_dropped(rt: HostRuntime) -> Result<(), Fail> {
    reports(&rt, "a_cut_store", CUT_OFF)
}

/// The peer accepts the A-ASSOCIATE-AC, of 171 bytes, and a part of the reply.
static UNSENT: &str = "log | Info
accepts | 180
send | ct_request store[..172]
fails
line | [WARN  filed, but not confirmed: the connection failed file I0000001 class CTImageStorage instance 1.2.3 \
    calling \"SCANNER1\"
line | [INFO  Ended held 0 files 2 dropped 0 received 260 in 1 s calling \"SCANNER1\" called \"DCMBOX\" the \
    connection failed contexts 1 of 1 stored 1 refused 0 failed 0";

#[test]
fn a_reply_that_is_not_sent_is_reported_of(rt: HostRuntime) -> Result<(), Fail> {
    reports(&rt, "an_unsent_reply", UNSENT)
}

static NO_FOLDER: &str = "log | Warn
folder goes
send | ct_request store[..172]
closes
line | [ERROR a file could not be written: No such file or directory (os error 2) class CTImageStorage \
    instance 1.2.3 calling \"SCANNER1\"";

#[test]
fn a_folder_that_accepts_no_file_is_why(rt: HostRuntime) -> Result<(), Fail> {
    reports(&rt, "a_lost_folder", NO_FOLDER)
}

static QUIET: &str = "log | Warn
send | ct_request store[..172]
send | echo
closes
line | [WARN  an echo was refused: status 0122 calling \"SCANNER1\"";

#[test]
fn a_quiet_log_has_the_warnings_alone(rt: HostRuntime) -> Result<(), Fail> {
    reports(&rt, "a_quiet_log", QUIET)
}
