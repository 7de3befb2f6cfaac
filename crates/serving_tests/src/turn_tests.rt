//! What one of several connections does in its turn, and when its time is up.

use crate::play::play;
use std::test::Fail;

/// Of all bytes read, the head of the request is used first; bytes after an answer are used in the
/// next turn.
static ANSWERED: &str = "turn | 1024 | Socket
send | request
send | echo
turn | 1024 | Next
accepted | accept
received | 170
turn | 1024 | Socket
accepted | accept reply
received | 250
over | no
shown | request echo
answered | 259
sent | accept reply
ahead | 244
closes
turn | 1024 | Over
over | yes
why | Some(Closed)
turn | 1024 | Over";

#[test]
fn an_echo_is_answered_in_a_turn(rt: HostRuntime) -> Result<(), Fail> {
    play(&rt, ANSWERED)
}

/// The body of the request exceeds what remains after its head, and the command what remains after
/// the body.
static NO_MORE: &str = "send | request
send | echo
turn | 0 | Next
received | 0
turn | 100 | Next
received | 6
turn | 100 | Next
received | 106
accepted |
turn | 100 | Next
received | 170
accepted | accept
turn | 100 | Socket
received | 250";

#[test]
fn a_turn_accepts_no_more_than_it_may(rt: HostRuntime) -> Result<(), Fail> {
    play(&rt, NO_MORE)
}

/// A data set of 60 bytes and Pixel Data, in five fragments of 16,378 bytes: more than fits in an
/// inbox.
static ONE_READ: &str = "send | ct_request
turn | 65536 | Socket
reads | 2
pdu | asked | 01 03 | command
pdu | first | 01 00 | set e07f1000 'OW' 0000 a63f0100 pixels[..16318]
pdu | later | 01 00 | pixels
pdu | last | 01 02 | pixels
let | stream | asked first later*3 last
send | stream
turn | 65536 | Next
turn | 65536 | Socket
reads | 5
end
files | 1
as alone | ct_request | stream";

#[test]
fn what_was_received_is_one_read(rt: HostRuntime) -> Result<(), Fail> {
    play(&rt, ONE_READ)
}

static ANSWER_WAITS: &str = "accepts | 3
send | request
send | echo*50
turn | 4096 | Socket
note
turn | 4096 | Socket
no read
received | 170
accepted | accept[..3]
accepts | all
turns | 4096 | Socket
received | 4170";

#[test]
fn nothing_is_read_while_an_answer_waits(rt: HostRuntime) -> Result<(), Fail> {
    play(&rt, ANSWER_WAITS)
}

static READ_TOGETHER: &str = "send | request
send | echo*20
turns | 8192 | Socket
reads | 2
received | 1770
end
unconsumed |";

#[test]
fn small_messages_are_read_together(rt: HostRuntime) -> Result<(), Fail> {
    play(&rt, READ_TOGETHER)
}

static AFTER_THE_END: &str = "send | request
send | abort
send | echo
turns | 4096 | Over
over | yes
received | 180
end
unconsumed | echo";

#[test]
fn what_follows_the_end_is_not_accepted(rt: HostRuntime) -> Result<(), Fail> {
    play(&rt, AFTER_THE_END)
}

static HALF: &str = "send | request[..60]
at | 20
turn | 4096 | Socket
at | 29
wait | Remaining(1s)
expire
over | no
why | None
at | 30
wait | Expired
expire
over | yes
why | Some(Timer)
accepted |";

#[test]
fn half_a_request_expires(rt: HostRuntime) -> Result<(), Fail> {
    play(&rt, HALF)
}

static STALLED: &str = "send | ct_request
send | store[..130]
at | 10
turns | 4096 | Socket
at | 609
expire
accepted | ct_accept
at | 610
wait | Silent
expire
over | no
why | Some(Idle)
accepted | ct_accept abort
at | 639
expire
over | no
at | 640
expire
over | yes
end
files | 0";

#[test]
fn a_stalled_store_is_aborted(rt: HostRuntime) -> Result<(), Fail> {
    play(&rt, STALLED)
}

static ACCEPTS_NOTHING: &str = "accepts | 100
send | request
turn | 4096 | Socket
at | 600
expire
over | yes
failures | 1
end
accepted | accept[..100]
unsent size | 69";

#[test]
fn a_peer_that_accepts_nothing_is_closed(rt: HostRuntime) -> Result<(), Fail> {
    play(&rt, ACCEPTS_NOTHING)
}

/// When its time is up, the peer accepts one more byte, and then all.
static ACCEPTS_AT_LAST: &str = "accepts | 100
send | request
turn | 4096 | Socket
accepts | 1
at | 600
expire
wait | Remaining(600s)
accepts | all
at | 1200
expire
over | no
why | None
accepted | accept
at | 1800
expire
why | Some(Idle)
failures | 0";

#[test]
fn a_peer_that_accepts_at_last_is_not_closed(rt: HostRuntime) -> Result<(), Fail> {
    play(&rt, ACCEPTS_AT_LAST)
}

static FAILS: &str = "fails
send | request
turn | 4096 | Over
over | yes
failures | 1
at | 900
expire
stop
failures | 1
why | None
end
unsent | accept";

#[test]
fn a_write_that_fails_closes(rt: HostRuntime) -> Result<(), Fail> {
    play(&rt, FAILS)
}

static LOCAL_ABORT: &str = "accepts | 0
send | request
turn | 4096 | Socket
stop
stop
over | no
accepts | all
closes
turn | 4096 | Over
accepted | accept abort";

#[test]
fn the_local_user_aborts_while_an_answer_waits(rt: HostRuntime) -> Result<(), Fail> {
    play(&rt, LOCAL_ABORT)
}
