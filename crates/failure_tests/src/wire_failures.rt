//! A wire that fails in the middle of a reply.

use crate::wires::FailingWire;
use dimse::{read_command, status, write_response};
use fixtures::bytes::back;
use fixtures::echo::ECHO;
use std::test::Fail;

/// The reply to the echo takes 39 sends to a peer with a maximum of eight bytes; the failing send
/// is the last that is made.
#[test]
fn nothing_is_sent_after_a_failed_send(rt: HostRuntime) -> Result<(), Fail> {
    let echo = read_command(back(ECHO, 12)).ok().ok_or("an echo")?;
    for at in [0, 3, 38] {
        let mut wire = FailingWire::new(rt.alloc(), at, 0);
        assert!(rt; write_response(&echo, status::SUCCESS, None, 1, 8, &mut wire).is_err());
        assert!(rt; wire.sends() == at + 1 && wire.sent().len() == 14 * at);
    }
    Ok(())
}
