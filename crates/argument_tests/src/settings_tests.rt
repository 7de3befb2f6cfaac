//! The settings of the commands for a command line, given or by default, and the texts with which
//! arguments are refused.
use crate::asked::asks;
use std::test::Fail;

static SERVE: &str =
    "dcmbox serve --port 11112 --out received --bind 0.0.0.0 --listen 127.0.0.1:104 --listen [::1]:2762 --ae BOX --ae ARCHIVE --any-called --caller SCANNER1 --caller SCANNER2 \
    --timeout 7 --idle 11 --max-pdu 2000 --max-data 3000 -v --log json --per 5 --no-sync --once --metrics box.prom
port | 11112
out | received
bind | 0.0.0.0
listen | 127.0.0.1:104 [::1]:2762
ae | BOX ARCHIVE
any-called | yes
max-pdu | 2000
max-data | 3000
callers | SCANNER1 SCANNER2
timeout | 7
idle | 11
per | 5
sync | no
once | yes
metrics | box.prom
numbers | none
level | Debug
log | json";

#[test]
fn settings_of_serve_are_its_arguments(rt: HostRuntime) -> Result<(), Fail> {
    asks(rt.alloc(), SERVE)
}

static DEFAULTS: &str = "dcmbox serve --port 104 --out files
port | 104
out | files
bind | 127.0.0.1
listen |
ae | DCMBOX
any-called | no
max-pdu | 16384
max-data | 1099511627776
callers |
timeout | 30
idle | 600
per | 0
sync | yes
once | no
metrics | none
level | Info
log | text";

#[test]
fn settings_of_serve_have_defaults(rt: HostRuntime) -> Result<(), Fail> {
    asks(rt.alloc(), DEFAULTS)
}

static LEVELS: &str = "dcmbox serve --port 1 --out DIR --once
level | Info
dcmbox serve --port 1 --out DIR --verbose
level | Debug
dcmbox serve --port 1 --out DIR -v
level | Debug
dcmbox serve --port 1 --out DIR -vv
level | Trace";

#[test]
fn a_log_reports_more_with_each_letter(rt: HostRuntime) -> Result<(), Fail> {
    asks(rt.alloc(), LEVELS)
}

static COUNTED: &str = "dcmbox serve --port 1 --out DIR -v --verbose -v
level | Trace";

#[test]
fn a_log_counts_words_of_its_option(rt: HostRuntime) -> Result<(), Fail> {
    asks(rt.alloc(), COUNTED)
}

static QUIET: &str = "dcmbox serve --port 1 --out DIR -q --log text
level | Warn
log | text";

#[test]
fn a_log_is_quiet_where_it_is_asked_to_be(rt: HostRuntime) -> Result<(), Fail> {
    asks(rt.alloc(), QUIET)
}

static NO_LOG: &str = "dcmbox serve --port 1 --out DIR -q -v
refused | error: --verbose and --quiet exclude each other
dcmbox serve --port 1 --out DIR --log xml
refused | error: --log takes text or json, not 'xml'";

#[test]
fn what_is_no_log_is_refused(rt: HostRuntime) -> Result<(), Fail> {
    asks(rt.alloc(), NO_LOG)
}

static REPLAY: &str = "dcmbox replay echo.bin --out received --ae BOX --ae ARCHIVE --cut 7 --per 5
file | echo.bin
out | received
cut | 7
ae | BOX ARCHIVE
any-called | no
max-pdu | 16384
max-data | 1099511627776
callers |
per | 5
dcmbox replay ct.bin --out files
file | ct.bin
out | files
cut | 4096
ae | DCMBOX
max-pdu | 16384
max-data | 1099511627776
callers |
per | 0";

#[test]
fn settings_of_replay_are_its_arguments(rt: HostRuntime) -> Result<(), Fail> {
    asks(rt.alloc(), REPLAY)
}

/// `new` stands for a new UID.
static INDEX: &str = "dcmbox index received --uid 2.25.1 --keep
dir | received
uid | 2.25.1
keep | yes
replace | no
descriptions | no
dcmbox index files --uid 2.25.2 --replace
dir | files
uid | 2.25.2
keep | no
replace | yes
dcmbox index files --new-uid --descriptions
uid | new
keep | no
replace | no
descriptions | yes";

#[test]
fn settings_of_index_are_its_arguments(rt: HostRuntime) -> Result<(), Fail> {
    asks(rt.alloc(), INDEX)
}

/// Each numeric option accepts its least and greatest number, and rejects the numbers beyond and
/// texts.
static BOUNDS: &str = "dcmbox serve --out DIR --port 1
port | 1
dcmbox serve --out DIR --port 65535
port | 65535
dcmbox serve --out DIR --port 0
refused | error: --port takes a number from 1 to 65535, not '0'
dcmbox serve --out DIR --port 65536
refused | error: --port takes a number from 1 to 65535, not '65536'
dcmbox serve --out DIR --port all
refused | error: --port takes a number from 1 to 65535, not 'all'
dcmbox serve --out DIR --port 1 --timeout 1
timeout | 1
dcmbox serve --out DIR --port 1 --timeout 86400
timeout | 86400
dcmbox serve --out DIR --port 1 --timeout 0
refused | error: --timeout takes a number from 1 to 86400, not '0'
dcmbox serve --out DIR --port 1 --timeout 86401
refused | error: --timeout takes a number from 1 to 86400, not '86401'
dcmbox serve --out DIR --port 1 --timeout all
refused | error: --timeout takes a number from 1 to 86400, not 'all'
dcmbox serve --out DIR --port 1 --idle 1
idle | 1
dcmbox serve --out DIR --port 1 --idle 86400
idle | 86400
dcmbox serve --out DIR --port 1 --idle 0
refused | error: --idle takes a number from 1 to 86400, not '0'
dcmbox serve --out DIR --port 1 --idle 86401
refused | error: --idle takes a number from 1 to 86400, not '86401'
dcmbox serve --out DIR --port 1 --idle all
refused | error: --idle takes a number from 1 to 86400, not 'all'
dcmbox serve --out DIR --port 1 --max-pdu 1024
max-pdu | 1024
dcmbox serve --out DIR --port 1 --max-pdu 131072
max-pdu | 131072
dcmbox serve --out DIR --port 1 --max-pdu 1023
refused | error: --max-pdu takes a number from 1024 to 131072, not '1023'
dcmbox serve --out DIR --port 1 --max-pdu 131073
refused | error: --max-pdu takes a number from 1024 to 131072, not '131073'
dcmbox serve --out DIR --port 1 --max-pdu all
refused | error: --max-pdu takes a number from 1024 to 131072, not 'all'
dcmbox serve --out DIR --port 1 --max-data 1024
max-data | 1024
dcmbox serve --out DIR --port 1 --max-data 281474976710656
max-data | 281474976710656
dcmbox serve --out DIR --port 1 --max-data 1023
refused | error: --max-data takes a number from 1024 to 281474976710656, not '1023'
dcmbox serve --out DIR --port 1 --max-data 281474976710657
refused | error: --max-data takes a number from 1024 to 281474976710656, not '281474976710657'
dcmbox serve --out DIR --port 1 --max-data all
refused | error: --max-data takes a number from 1024 to 281474976710656, not 'all'
dcmbox serve --out DIR --port 1 --per 1
per | 1
dcmbox serve --out DIR --port 1 --per 9999
per | 9999
dcmbox serve --out DIR --port 1 --per 0
refused | error: --per takes a number from 1 to 9999, not '0'
dcmbox serve --out DIR --port 1 --per 10000
refused | error: --per takes a number from 1 to 9999, not '10000'
dcmbox serve --out DIR --port 1 --per all
refused | error: --per takes a number from 1 to 9999, not 'all'
dcmbox replay FILE --out DIR --cut 1
cut | 1
dcmbox replay FILE --out DIR --cut 65536
cut | 65536
dcmbox replay FILE --out DIR --cut 0
refused | error: --cut takes a number from 1 to 65536, not '0'
dcmbox replay FILE --out DIR --cut 65537
refused | error: --cut takes a number from 1 to 65536, not '65537'
dcmbox replay FILE --out DIR --cut all
refused | error: --cut takes a number from 1 to 65536, not 'all'";

#[test]
fn numbers_are_accepted_within_their_bounds(rt: HostRuntime) -> Result<(), Fail> {
    asks(rt.alloc(), BOUNDS)
}

static REFUSED: &str = "dcmbox serve --port 1 --out DIR --ae SEVENTEENLETTERSX
refused | error: --ae takes an AE title of 1 to 16 characters, not 'SEVENTEENLETTERSX'
dcmbox serve --port 1 --out DIR --caller A\\B
refused | error: --caller takes an AE title of 1 to 16 characters, not 'A\\B'
dcmbox serve --port 1 --out DIR --listen 127.0.0.1
refused | error: --listen takes an IP address and a port, as 127.0.0.1:11112 or [::1]:11112, not '127.0.0.1'
dcmbox serve --port 1 --out DIR --listen scanners:104
refused | error: --listen takes an IP address and a port, as 127.0.0.1:11112 or [::1]:11112, not 'scanners:104'
dcmbox serve --port 1 --out DIR --listen 127.0.0.1:0
refused | error: --listen takes an IP address and a port, as 127.0.0.1:11112 or [::1]:11112, not '127.0.0.1:0'
dcmbox replay FILE --out DIR --ae BLANK
refused | error: --ae takes an AE title of 1 to 16 characters, not ' '
dcmbox index DIR --uid 2.25.x
refused | error: --uid takes a UID of 1 to 64 digits and dots, not '2.25.x'
dcmbox index DIR --uid 2.25.1 --new-uid
refused | error: --uid and --new-uid exclude each other
dcmbox index DIR
refused | error: index needs --uid UID, or --new-uid, which makes one";

#[test]
fn titles_and_identifiers_are_refused(rt: HostRuntime) -> Result<(), Fail> {
    asks(rt.alloc(), REFUSED)
}
