//! Deadlines that pass.

use acceptor::State;
use service::Timeouts;
use serving::{Deadlines, Wait};
use std::test::Fail;
use std::time::{Duration, Instant};

/// Returns the time `seconds` seconds after `time`.
fn after(time: Instant, seconds: u64) -> Instant {
    match time.checked_add(Duration::from_secs(seconds)) {
        Some(time) => time,
        None => time,
    }
}

fn remaining(seconds: u64) -> Wait {
    Wait::Remaining(Duration::from_secs(seconds))
}

#[test]
fn times_run_out(rt: HostRuntime) -> Result<(), Fail> {
    let begin = Instant::now(&rt)?;
    let timeouts = Timeouts {
        artim: Duration::from_secs(30),
        idle: Duration::from_secs(600),
    };
    let mut deadlines = Deadlines::new(timeouts, None, begin);
    // Bytes of a request do not extend the timer.
    deadlines.hear(after(begin, 29));
    deadlines.follow(after(begin, 29), State::Sta2);
    assert!(rt; deadlines.wait(after(begin, 29)) == remaining(1));
    assert!(rt; deadlines.wait(after(begin, 30)) == Wait::Expired);
    // A rejection restarts the timer; nothing after it does.
    deadlines.follow(after(begin, 29), State::Sta13);
    deadlines.follow(after(begin, 40), State::Sta13);
    assert!(rt; deadlines.wait(after(begin, 58)) == remaining(1));
    assert!(rt; deadlines.wait(after(begin, 59)) == Wait::Expired);
    // The silence of an established association starts with the last bytes of its peer.
    let mut deadlines = Deadlines::new(timeouts, None, begin);
    deadlines.hear(after(begin, 29));
    deadlines.follow(after(begin, 50), State::Sta6);
    assert!(rt; deadlines.wait(after(begin, 59)) == remaining(570));
    deadlines.note_consumed(after(begin, 100));
    assert!(rt; deadlines.wait(after(begin, 699)) == remaining(1));
    assert!(rt; deadlines.wait(after(begin, 700)) == Wait::Silent);
    deadlines.hear(after(begin, 101));
    assert!(rt; deadlines.wait(after(begin, 700)) == remaining(1));
    // After the release the timer runs again.
    deadlines.follow(after(begin, 200), State::Sta13);
    assert!(rt; deadlines.wait(after(begin, 229)) == remaining(1));
    assert!(rt; deadlines.wait(after(begin, 230)) == Wait::Expired);
    Ok(())
}
