//! The log lines of associations: their ends, titles and contexts.
use crate::shown::reports;
use std::test::Fail;

static ECHO: &str = "log | Info
send | request
send | echo
send | release
closes
line | [INFO  Ended held 0 files 2 dropped 0 received 260 in 1 s calling \"SCANNER1\" called \"DCMBOX\" \
    released contexts 1 of 1 stored 0 refused 0 failed 0";

#[test]
fn an_echo_is_released(rt: HostRuntime) -> Result<(), Fail> {
    reports(&rt, "an_echo_is_released", ECHO)
}

static ECHO_IN_PIECES: &str = "log | Info
let | all | request echo release
send | all[..3]
send | all[3..]
closes
line | [INFO  Ended held 0 files 2 dropped 0 received 260 in 1 s calling \"SCANNER1\" called \"DCMBOX\" \
    released contexts 1 of 1 stored 0 refused 0 failed 0";

#[test]
fn an_echo_in_pieces_is_released(rt: HostRuntime) -> Result<(), Fail> {
    reports(&rt, "an_echo_in_pieces", ECHO_IN_PIECES)
}

static REJECTION: &str = "log | Info
send | request[..10] 'OTHER           ' request[26..]
closes
line | [WARN  rejected: called AE title not recognized calling \"SCANNER1\" called \"OTHER\"
line | [INFO  Ended held 0 files 2 dropped 0 received 260 in 1 s calling \"SCANNER1\" called \"OTHER\" \
    rejected: called AE title not recognized contexts 0 of 1 stored 0 refused 0 failed 0";

#[test]
fn a_rejection_has_both_titles(rt: HostRuntime) -> Result<(), Fail> {
    reports(&rt, "a_rejection", REJECTION)
}

static SMALL_MAXIMUM: &str = "log | Info
send | request[..157] 00000007 request[161..]
closes
line | [WARN  rejected: no reason given (maximum length 7, at least 8) calling \"SCANNER1\" called \"DCMBOX\"
line | [INFO  Ended held 0 files 2 dropped 0 received 260 in 1 s calling \"SCANNER1\" called \"DCMBOX\" \
    rejected: no reason given (maximum length 7, at least 8) contexts 0 of 1 stored 0 refused 0 failed 0";

#[test]
fn a_maximum_length_without_room_is_named(rt: HostRuntime) -> Result<(), Fail> {
    reports(&rt, "a_small_maximum", SMALL_MAXIMUM)
}

/// If the titles are received after the rejection, the last line has them.
static LONG_REQUEST: &str = "log | Info
send | 010000010000 request[6..42]
closes
line | [WARN  rejected: local limit exceeded (request of 65536 bytes, at most 65524) calling \"SCANNER1\" \
    called \"DCMBOX\"
line | [INFO  Ended held 0 files 2 dropped 0 received 260 in 1 s calling \"SCANNER1\" called \"DCMBOX\" \
    rejected: local limit exceeded (request of 65536 bytes, at most 65524) contexts 0 of 0 stored 0 refused 0 \
    failed 0

log | Info
let | long | 010000010000 request[6..42]
send | long[..20]
send | long[20..]
closes
line | [WARN  rejected: local limit exceeded (request of 65536 bytes, at most 65524) calling \"\" called \"\"
line | [INFO  Ended held 0 files 2 dropped 0 received 260 in 1 s calling \"SCANNER1\" called \"DCMBOX\" \
    rejected: local limit exceeded (request of 65536 bytes, at most 65524) contexts 0 of 0 stored 0 refused 0 \
    failed 0";

#[test]
fn a_request_that_is_too_long_has_its_titles(rt: HostRuntime) -> Result<(), Fail> {
    reports(&rt, "a_long_request", LONG_REQUEST)
}

static FORGED: &str = "log | Info
send | request[..10] 0a 1b '[31mX\"' 00 ff '\\ ' 09 0d ' 1  Y             ' request[42..]
closes
line | [WARN  rejected: called AE title not recognized calling \"Y\" called \"??[31mX???\\ ?? 1\"
line | [INFO  Ended held 0 files 2 dropped 0 received 260 in 1 s calling \"Y\" called \"??[31mX???\\ ?? 1\" \
    rejected: called AE title not recognized contexts 0 of 1 stored 0 refused 0 failed 0";

#[test]
fn bytes_of_a_title_do_not_forge_a_line(rt: HostRuntime) -> Result<(), Fail> {
    reports(&rt, "forged_titles", FORGED)
}

static EXPIRES: &str = "log | Info
send | request[..60]
later | 30
line | [INFO  Ended held 0 files 2 dropped 0 received 260 in 1 s calling \"\" called \"\" ARTIM timer expired \
    contexts 0 of 0 stored 0 refused 0 failed 0

log | Info
closes
line | [INFO  Ended held 0 files 2 dropped 0 received 260 in 1 s calling \"\" called \"\" closed by the peer \
    contexts 0 of 0 stored 0 refused 0 failed 0";

#[test]
fn a_request_that_is_not_received_expires(rt: HostRuntime) -> Result<(), Fail> {
    reports(&rt, "an_expiry", EXPIRES)
}

static PEER_ABORTS: &str = "log | Info
send | request
send | 07000000000400000000
closes
line | [INFO  Ended held 0 files 2 dropped 0 received 260 in 1 s calling \"SCANNER1\" called \"DCMBOX\" \
    aborted by the peer, its application (source 0 reason 0) contexts 1 of 1 stored 0 refused 0 failed 0

log | Info
send | request
send | 07000000000400000202
closes
line | [INFO  Ended held 0 files 2 dropped 0 received 260 in 1 s calling \"SCANNER1\" called \"DCMBOX\" \
    aborted by the peer, its provider: unexpected PDU (source 2 reason 2) contexts 1 of 1 stored 0 refused 0 \
    failed 0

log | Info
send | request
send | 07000000000400000109
closes
line | [INFO  Ended held 0 files 2 dropped 0 received 260 in 1 s calling \"SCANNER1\" called \"DCMBOX\" \
    aborted by the peer, a reserved source (source 1 reason 9) contexts 1 of 1 stored 0 refused 0 failed 0";

#[test]
fn an_abort_of_the_peer_names_its_reason(rt: HostRuntime) -> Result<(), Fail> {
    reports(&rt, "peer_aborts", PEER_ABORTS)
}

static EARLY_ABORTS: &str = "log | Info
send | 'GET / HTTP/1.0' 0d0a0d0a
closes
line | [WARN  aborted by dcmbox, its application (PDU type 47)
line | [INFO  Ended held 0 files 2 dropped 0 received 260 in 1 s calling \"\" called \"\" aborted by dcmbox, \
    its application (PDU type 47) contexts 0 of 0 stored 0 refused 0 failed 0

log | Info
send | release
closes
line | [WARN  aborted by dcmbox, its application (PDU type 05)
line | [INFO  Ended held 0 files 2 dropped 0 received 260 in 1 s calling \"\" called \"\" aborted by dcmbox, \
    its application (PDU type 05) contexts 0 of 0 stored 0 refused 0 failed 0

log | Info
send | 01000000000100
closes
line | [WARN  aborted by dcmbox, its application (request: 31 BadLength)
line | [INFO  Ended held 0 files 2 dropped 0 received 260 in 1 s calling \"\" called \"\" aborted by dcmbox, \
    its application (request: 31 BadLength) contexts 0 of 0 stored 0 refused 0 failed 0

log | Info
send | 070000000005
closes
line | [WARN  aborted by dcmbox, its application (PDU type 07 of 5 bytes, not 4)
line | [INFO  Ended held 0 files 2 dropped 0 received 260 in 1 s calling \"\" called \"\" aborted by dcmbox, \
    its application (PDU type 07 of 5 bytes, not 4) contexts 0 of 0 stored 0 refused 0 failed 0";

#[test]
fn an_abort_before_a_request_reports_why(rt: HostRuntime) -> Result<(), Fail> {
    reports(&rt, "early_aborts", EARLY_ABORTS)
}

static IDLE: &str = "log | Info
send | request
later | 600
closes
line | [WARN  aborted: the peer was idle calling \"SCANNER1\"
line | [INFO  Ended held 0 files 2 dropped 0 received 260 in 1 s calling \"SCANNER1\" called \"DCMBOX\" \
    aborted: the peer was idle contexts 1 of 1 stored 0 refused 0 failed 0";

#[test]
fn silence_is_why_the_box_aborts(rt: HostRuntime) -> Result<(), Fail> {
    reports(&rt, "idle_peer", IDLE)
}

static OWN_END: &str = "log | Info
longest | 50
send | request
later | 50
closes
line | [WARN  aborted: it lasted too long calling \"SCANNER1\"
line | [INFO  Ended held 0 files 2 dropped 0 received 260 in 1 s calling \"SCANNER1\" called \"DCMBOX\" \
    aborted: it lasted too long contexts 1 of 1 stored 0 refused 0 failed 0

log | Info
send | request
stop
closes
line | [WARN  aborted: the box stops calling \"SCANNER1\"
line | [INFO  Ended held 0 files 2 dropped 0 received 260 in 1 s calling \"SCANNER1\" called \"DCMBOX\" \
    aborted: the box stops contexts 1 of 1 stored 0 refused 0 failed 0";

#[test]
fn the_box_itself_ends_an_association(rt: HostRuntime) -> Result<(), Fail> {
    reports(&rt, "own_end", OWN_END)
}

/// The recorded request with Explicit VR Big Endian as its only transfer syntax, two bytes longer
/// than the recording.
static REFUSED_CONTEXT: &str = "log | Trace
let | syntax | 40000013 '1.2.840.10008.1.2.2'
send | 0100000000a6 request[6..101] 0030 request[103..128] syntax request[149..]
closes
line | [TRACE context 1 refused: transfer syntaxes not supported class Verification syntaxes ExplicitVRBigEndian
line | [INFO  classes refused: Verification (syntaxes ExplicitVRBigEndian) calling \"SCANNER1\"
line | [INFO  Ended held 0 files 2 dropped 0 received 260 in 1 s calling \"SCANNER1\" called \"DCMBOX\" \
    closed by the peer contexts 0 of 1 stored 0 refused 0 failed 0";

#[test]
fn a_refused_context_has_its_keywords(rt: HostRuntime) -> Result<(), Fail> {
    reports(&rt, "a_refused_context", REFUSED_CONTEXT)
}
