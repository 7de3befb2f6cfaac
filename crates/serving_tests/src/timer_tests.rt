//! The ARTIM timer of a connection runs from the accept and restarts when the association enters
//! another state in which it runs.

use crate::play::play;
use std::test::Fail;

static FROM_THE_ACCEPT: &str = "moment | 0 | Remaining(30s) | request[..1]
moment | 10 | Remaining(20s) | request[1..100]
moment | 29 | Remaining(1s) | request[100..169]
moment | 30 | Expired |
over | yes
accepted |";

#[test]
fn an_unfinished_request_has_the_time_from_the_accept(rt: HostRuntime) -> Result<(), Fail> {
    play(&rt, FROM_THE_ACCEPT)
}

/// The rejection states that the called AE title is not recognized; each A-ABORT is of the service
/// provider, for an unexpected PDU.
static REJECTED: &str = "let | other | request[..10] 'ANOTHER         ' request[26..]
moment | 0 | Remaining(30s) | other[..100]
moment | 20 | Remaining(10s) | other[100..]
moment | 25 | Remaining(25s) | request
moment | 35 | Remaining(15s) | release
moment | 45 | Remaining(5s) | request
moment | 50 | Expired |
over | yes
accepted | 03 00 00 00 00 04 00 01 01 07 07000000000400000202*2";

/// The rejection (AE-6) restarts the timer; the A-ABORT to a peer that keeps sending (AA-7) and an
/// ignored PDU (AA-6) do not.
#[test]
fn a_rejection_starts_the_timer_and_an_abort_after_it_does_not(
    rt: HostRuntime,
) -> Result<(), Fail> {
    play(&rt, REJECTED)
}

static RELEASED: &str = "moment | 0 | Remaining(30s) | request
moment | 1 | Remaining(599s) | echo
moment | 500 | Remaining(101s) | release
moment | 510 | Remaining(20s) | echo
moment | 529 | Remaining(1s) | echo
moment | 530 | Expired |
over | yes
accepted | accept reply released";

static RELEASED_AT_ONCE: &str = "moment | 0 | Remaining(30s) | request release
moment | 29 | Remaining(1s) | echo
moment | 30 | Expired |
over | yes
accepted | accept released";

/// A release (AR-4) restarts the timer, even with the request in the same chunk.
#[test]
fn a_release_starts_the_timer(rt: HostRuntime) -> Result<(), Fail> {
    play(&rt, RELEASED)?;
    play(&rt, RELEASED_AT_ONCE)
}
