//! The settings of `serve` for the number of associations at once, their duration, and the end of
//! the program.
use crate::asked::asks;
use std::test::Fail;

static SERIAL: &str = "dcmbox serve --port 1 --out DIR
at-once | 1
per-peer | 1
serial | yes
longest | none
stop-file | none
grace | 10";

#[test]
fn one_is_served_after_the_other_by_default(rt: HostRuntime) -> Result<(), Fail> {
    asks(rt.alloc(), SERIAL)
}

static SEVERAL: &str = "dcmbox serve --port 1 --out DIR --at-once 5 --grace 0 -q
at-once | 5
per-peer | 3
serial | no
grace | 0
dcmbox serve --port 1 --out DIR --at-once 64 --per-peer 7 -q
at-once | 64
per-peer | 7
dcmbox serve --port 1 --out DIR --longest 9 --stop-file stop -q
longest | 9
stop-file | stop
serial | no";

#[test]
fn several_are_served_at_once(rt: HostRuntime) -> Result<(), Fail> {
    asks(rt.alloc(), SEVERAL)
}

static REFUSED: &str = "dcmbox serve --port 1 --out DIR --at-once 0
refused | error: --at-once takes a number from 1 to 64, not '0'
dcmbox serve --port 1 --out DIR --at-once 65
refused | error: --at-once takes a number from 1 to 64, not '65'
dcmbox serve --port 1 --out DIR --per-peer 0
refused | error: --per-peer takes a number from 1 to 1, not '0'
dcmbox serve --port 1 --out DIR --at-once 5 --per-peer 6 -q
refused | error: --per-peer takes a number from 1 to 5, not '6'
dcmbox serve --port 1 --out DIR --longest 0
refused | error: --longest takes a number from 1 to 86400, not '0'
dcmbox serve --port 1 --out DIR --grace 86401
refused | error: --grace takes a number from 0 to 86400, not '86401'";

#[test]
fn numbers_of_associations_are_refused(rt: HostRuntime) -> Result<(), Fail> {
    asks(rt.alloc(), REFUSED)
}
