//! When a connection closes because its peer is late: at the deadline, and not just before.

use crate::play::play;
use std::test::Fail;

/// Bytes of a request do not restart the ARTIM timer.
static FROM_THE_ACCEPT: &str = "send | request[..100]
at | 29
turn | 4096 | Socket
just before | 30
wait | Remaining(1ns)
expire
over | no
why | None
at | 30
wait | Expired
expire
over | yes
why | Some(Timer)
accepted |";

/// The timer starts with the release; bytes after it do not restart the timer.
static FROM_THE_RELEASE: &str = "send | request
turn | 4096 | Socket
at | 100
send | release
turn | 4096 | Socket
at | 120
send | echo
turn | 4096 | Socket
just before | 130
wait | Remaining(1ns)
expire
over | no
at | 130
wait | Expired
expire
over | yes
why | Some(Timer)
accepted | accept released";

#[test]
fn the_timer_expires_after_its_time_and_not_before(rt: HostRuntime) -> Result<(), Fail> {
    play(&rt, FROM_THE_ACCEPT)?;
    play(&rt, FROM_THE_RELEASE)
}

/// A requested abort starts the timer; another abort sends nothing and does not restart the timer.
static FROM_AN_ABORT: &str = "longest | 50
send | request
turn | 4096 | Socket
at | 50
round
why | Some(Longest)
accepted | accept abort
wait | Remaining(30s)
at | 60
stop
accepted | accept abort
just before | 80
wait | Remaining(1ns)
expire
over | no
at | 80
wait | Expired
expire
over | yes
accepted | accept abort";

#[test]
fn a_peer_that_was_aborted_has_the_time_of_the_timer(rt: HostRuntime) -> Result<(), Fail> {
    play(&rt, FROM_AN_ABORT)
}

/// The silence of the peer starts with its last chunk.
static FROM_THE_LAST_PIECE: &str = "send | request
turn | 4096 | Socket
at | 100
send | echo
turn | 4096 | Socket
just before | 700
wait | Remaining(1ns)
expire
why | None
accepted | accept reply
at | 700
wait | Silent
expire
over | no
why | Some(Idle)
accepted | accept reply abort
wait | Remaining(30s)";

/// The silence of the peer starts with the last byte that it accepted.
static FROM_THE_LAST_BYTE: &str = "accepts | 100
send | request
turn | 4096 | Socket
at | 500
accepts | 1
turn | 4096 | Socket
just before | 1100
wait | Remaining(1ns)
expire
over | no
failures | 0
at | 1100
wait | Silent
expire
over | yes
failures | 1
accepted | accept[..101]";

#[test]
fn a_peer_is_idle_after_its_time_and_not_before(rt: HostRuntime) -> Result<(), Fail> {
    play(&rt, FROM_THE_LAST_PIECE)?;
    play(&rt, FROM_THE_LAST_BYTE)
}
