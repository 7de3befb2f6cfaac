//! Test cases of `acceptor` on its public calls: the state table entry by entry, and the effects of
//! its actions.
use acceptor::Action::*;
use acceptor::Event::*;
use acceptor::State::*;
use acceptor::{Action, Event, Sending, State, Timer, act};

/// A row of the table: a state and an event, and the action and the next state.
type Row = (State, Event, Action, State);

/// Returns whether the state table has these rows.
fn are_given(rows: &[Row]) -> bool {
    for (state, event, action, next) in rows {
        let (found, after) = act(*state, *event);
        if found != *action || after != *next {
            return false;
        }
    }
    true
}

const BEFORE: [Row; 14] = [
    (Sta1, Connected, Ae5, Sta2),
    (Sta2, AcceptableRq, Ae6, Sta3),
    (Sta2, UnacceptableRq, Ae6, Sta13),
    (Sta2, Ac, Aa1, Sta13),
    (Sta2, Rj, Aa1, Sta13),
    (Sta2, Data, Aa1, Sta13),
    (Sta2, ReleaseRq, Aa1, Sta13),
    (Sta2, ReleaseRp, Aa1, Sta13),
    (Sta2, Invalid, Aa1, Sta13),
    (Sta2, Event::Abort, Aa2, Sta1),
    (Sta2, Expired, Aa2, Sta1),
    (Sta2, Closed, Aa5, Sta1),
    (Sta3, UserAccepts, Ae7, Sta6),
    (Sta3, UserRefuses, Ae8, Sta13),
];

#[test]
fn rows_before_the_association(rt: HostRuntime) {
    assert!(rt; are_given(&BEFORE));
}

const DURING: [Row; 12] = [
    (Sta6, Data, Dt2, Sta6),
    (Sta6, ReleaseRq, Ar2, Sta8),
    (Sta6, AcceptableRq, Aa8, Sta13),
    (Sta6, UnacceptableRq, Aa8, Sta13),
    (Sta6, Ac, Aa8, Sta13),
    (Sta6, Rj, Aa8, Sta13),
    (Sta6, ReleaseRp, Aa8, Sta13),
    (Sta6, Invalid, Aa8, Sta13),
    (Sta6, Event::Abort, Aa3, Sta1),
    (Sta6, Closed, Aa4, Sta1),
    (Sta6, UserAborts, Aa1, Sta13),
    (Sta8, UserReleases, Ar4, Sta13),
];

#[test]
fn rows_of_the_association(rt: HostRuntime) {
    assert!(rt; are_given(&DURING));
}

const AFTER: [Row; 11] = [
    (Sta13, Ac, Aa6, Sta13),
    (Sta13, Rj, Aa6, Sta13),
    (Sta13, Data, Aa6, Sta13),
    (Sta13, ReleaseRq, Aa6, Sta13),
    (Sta13, ReleaseRp, Aa6, Sta13),
    (Sta13, AcceptableRq, Aa7, Sta13),
    (Sta13, UnacceptableRq, Aa7, Sta13),
    (Sta13, Invalid, Aa7, Sta13),
    (Sta13, Event::Abort, Aa2, Sta1),
    (Sta13, Expired, Aa2, Sta1),
    (Sta13, Closed, Ar5, Sta1),
];

#[test]
fn rows_after_the_association(rt: HostRuntime) {
    assert!(rt; are_given(&AFTER));
}

const OUTSIDE: [Row; 7] = [
    (Sta1, Data, Nothing, Sta1),
    (Sta2, Connected, Nothing, Sta2),
    (Sta2, UserAborts, Nothing, Sta2),
    (Sta3, Data, Nothing, Sta3),
    (Sta6, Expired, Nothing, Sta6),
    (Sta8, Data, Nothing, Sta8),
    (Sta13, UserAborts, Nothing, Sta13),
];

#[test]
fn pairs_outside_the_table(rt: HostRuntime) {
    assert!(rt; are_given(&OUTSIDE));
}

/// An action, the next state and the reason of an A-ABORT; what the action sends, and its effect on
/// the ARTIM timer.
type ActionRow = (Action, State, u8, Sending, Timer);

/// The actions of PS3.8 Tables 9-6 to 9-9, in order, and no action.
const EFFECTS: [ActionRow; 22] = [
    (Ae5, Sta2, 6, Sending::Nothing, Timer::Starts),
    (Ae6, Sta3, 6, Sending::Nothing, Timer::Stops),
    (Ae6, Sta13, 6, Sending::Answer, Timer::Starts),
    (Ae7, Sta6, 6, Sending::Answer, Timer::Continues),
    (Ae8, Sta13, 6, Sending::Answer, Timer::Starts),
    (Dt2, Sta6, 6, Sending::Nothing, Timer::Continues),
    (Ar2, Sta8, 6, Sending::Nothing, Timer::Continues),
    (Ar4, Sta13, 6, Sending::ReleaseResponse, Timer::Starts),
    (Ar5, Sta1, 6, Sending::Nothing, Timer::Stops),
    (Aa1, Sta13, 6, Sending::Abort(0, 0), Timer::Starts),
    (Aa2, Sta1, 6, Sending::Nothing, Timer::Stops),
    (Aa3, Sta1, 6, Sending::Nothing, Timer::Continues),
    (Aa4, Sta1, 6, Sending::Nothing, Timer::Continues),
    (Aa5, Sta1, 6, Sending::Nothing, Timer::Stops),
    (Aa6, Sta13, 6, Sending::Nothing, Timer::Continues),
    (Aa7, Sta13, 1, Sending::Abort(2, 1), Timer::Continues),
    (Aa7, Sta13, 2, Sending::Abort(2, 2), Timer::Continues),
    (Aa7, Sta13, 6, Sending::Abort(2, 6), Timer::Continues),
    (Aa8, Sta13, 1, Sending::Abort(2, 1), Timer::Starts),
    (Aa8, Sta13, 2, Sending::Abort(2, 2), Timer::Starts),
    (Aa8, Sta13, 6, Sending::Abort(2, 6), Timer::Starts),
    (Nothing, Sta6, 6, Sending::Nothing, Timer::Continues),
];

#[test]
fn effects_of_actions(rt: HostRuntime) {
    for (action, next, reason, sending, timer) in EFFECTS {
        assert!(rt; action.sends(next, reason) == sending && action.timer(next) == timer);
    }
}

/// An effect on the timer, and whether the timer runs afterwards if it did not run before, and if
/// it did.
const AFTERWARDS: [(Timer, bool, bool); 3] = [
    (Timer::Starts, true, true),
    (Timer::Stops, false, false),
    (Timer::Continues, false, true),
];

#[test]
fn the_timer_afterwards(rt: HostRuntime) {
    for (timer, stopped, running) in AFTERWARDS {
        assert!(rt; timer.after(false) == stopped && timer.after(true) == running);
    }
    for state in [Sta1, Sta2, Sta3, Sta6, Sta8, Sta13] {
        assert!(rt; state.timer_runs() == (state == Sta2 || state == Sta13));
    }
}
