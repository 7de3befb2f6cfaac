//! Connections whose files wait to be settled. The peer sends two stores, the first of which waits.

use crate::play::play;
use std::test::Fail;

/// After the first reply the turn continues with the second store.
static REPLY_WAITS: &str = "files wait
send | ct_request
send | store
send | store
turns | 65536 | Filing
held | yes
note
waits | yes
accepted | ct_accept
turn | 65536 | Filing
start writing
write out
accepted | ct_accept
no read
no byte
settle | named | yes
waits | no
kept | 1
accepted | ct_accept success
turn | 65536 | Filing
settle | named | yes
turn | 65536 | Socket
held | yes
accepted | ct_accept success*2
end
files | 2
lost | 0";

#[test]
fn a_reply_waits_for_its_file(rt: HostRuntime) -> Result<(), Fail> {
    play(&rt, REPLY_WAITS)
}

static LOST: &str = "files wait
send | ct_request
send | store
send | store
turns | 65536 | Filing
held | yes
settle | unnamed | no
waits | yes
lost | 1
kept | 0
turn | 65536 | Filing
stop
at | 900
expire
accepted | ct_accept
end
standing | Closing
accepted | ct_accept
unsent | success abort";

#[test]
fn a_lost_file_has_no_reply(rt: HostRuntime) -> Result<(), Fail> {
    play(&rt, LOST)
}

static ABORT_AFTER: &str = "files wait
longest | 50
send | ct_request
send | store
send | store
turns | 65536 | Filing
held | yes
at | 50
round
accepted | ct_accept
why | Some(Longest)
settle | named | yes
accepted | ct_accept success abort";

#[test]
fn an_abort_follows_the_reply(rt: HostRuntime) -> Result<(), Fail> {
    play(&rt, ABORT_AFTER)
}

static NOT_SILENT: &str = "files wait
send | ct_request
send | store
send | store
turns | 65536 | Filing
held | yes
at | 601
wait | Silent
expire
why | None
accepted | ct_accept";

#[test]
fn nobody_is_silent_whose_file_waits(rt: HostRuntime) -> Result<(), Fail> {
    play(&rt, NOT_SILENT)
}
