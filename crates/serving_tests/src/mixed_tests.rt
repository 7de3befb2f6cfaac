//! Associations interleaved by generated turns: each sends, files and ends as it does alone.

use crate::chance::Chance;
use crate::peer::{Audience, FickleSocket, Viewer};
use crate::scripted::over;
use crate::streams::{Traffic, stream_of};
use engine::Standing;
use fixtures::{Step, config, over_memory};
use negotiate::Config;
use part10::MemoryFiling;
use serving::{Connection, Turn};
use std::alloc::Global;
use std::cell::RefCell;
use std::test::Fail;
use std::time::{Clock, Instant};

/// One connection of a test.
type Mixed<'a> = Connection<'a, FickleSocket<'a>, MemoryFiling<Global>, Viewer<'a>>;

/// What one peer sends and receives.
#[derive(Drop)]
struct Side {
    stream: Vec<u8>,
    consumed: RefCell<Vec<u8>>,
}

fn sides(alloc: Global, count: usize, from: usize) -> Result<Vec<Side>, Fail> {
    let mut sides = Vec::new(alloc);
    for number in 0..count {
        sides.push(Side {
            stream: stream_of(alloc, Traffic::of(from.saturating_add(number)))?,
            consumed: RefCell::new(Vec::new(alloc)),
        })?;
    }
    Ok(sides)
}

fn audiences(alloc: Global, count: usize) -> Result<Vec<Audience>, Fail> {
    let mut audiences = Vec::new(alloc);
    for _ in 0..count {
        audiences.push(Audience::new(alloc))?;
    }
    Ok(audiences)
}

fn connections<'a>(
    alloc: Global,
    config: &'a Config,
    (sides, audiences): (&'a [Side], &'a [Audience]),
    chance: &mut Chance,
    now: Instant,
) -> Result<Vec<Box<Mixed<'a>>>, Fail> {
    let mut all = Vec::new(alloc);
    for (side, audience) in sides.iter().zip(audiences) {
        let most = chance.below(40).saturating_add(1);
        let seed = chance.below(1_000_000) as u64;
        let peer = FickleSocket::new(side.stream.as_slice(), most, seed, &side.consumed);
        let filing = MemoryFiling::new(alloc);
        let one = over(
            alloc,
            config,
            (peer, filing, Viewer::new(audience)),
            None,
            now,
        )?;
        all.push(Box::new(alloc, one)?)?;
    }
    Ok(all)
}

/// Gives the connections generated turns until all are over, at most 1,000,000. Returns whether all
/// are over.
fn mix(all: &mut [Box<Mixed<'_>>], chance: &mut Chance, now: Instant) -> bool {
    let mut over = 0usize;
    for _ in 0..1_000_000 {
        let index = chance.below(all.len());
        let most = chance.below(512);
        let Some(one) = all.get_mut(index) else {
            return false;
        };
        if one.is_over() {
            continue;
        }
        if one.turn(now, most) == Turn::Over {
            over = over.saturating_add(1);
        }
        if over >= all.len() {
            return true;
        }
    }
    false
}

/// Returns whether a connection did what its association does alone.
fn is_as_alone(
    alloc: Global,
    one: Mixed<'_>,
    side: &Side,
    audience: &Audience,
    now: Instant,
) -> bool {
    let alone = over_memory(alloc, &[Step::Piece(side.stream.as_slice()), Step::Closed]);
    let (end, _viewer, _memory) = one.close(now);
    let (Ok(consumed), Ok(shown)) = (side.consumed.try_borrow(), audience.sent.try_borrow()) else {
        return false;
    };
    consumed.as_slice() == alone.wire.sent()
        && shown.as_slice() == alone.wire.sent()
        && end.exchange.unsent.pending().is_empty()
        && end.filing.files() == alone.filing.files()
        && end.exchange.report.standing == Standing::Ended
        && end.exchange.report.held == alone.shown.held
}

/// Interleaves `count` connections, of consecutive kinds from this one. Returns whether each did
/// what its association does alone.
fn each_is_as_alone<R: Clock>(
    rt: &R,
    alloc: Global,
    (count, from): (usize, usize),
    seed: u64,
) -> Result<bool, Fail> {
    let (config, now) = (config(), Instant::now(rt)?);
    let mut chance = Chance::new(seed);
    let sides = sides(alloc, count, from)?;
    let audiences = audiences(alloc, count)?;
    let mut all = connections(
        alloc,
        &config,
        (sides.as_slice(), audiences.as_slice()),
        &mut chance,
        now,
    )?;
    if !mix(all.as_mut_slice(), &mut chance, now) {
        return Ok(false);
    }
    let all_sides = sides.as_slice().iter().zip(audiences.as_slice());
    for (one, (side, audience)) in all.into_iter().zip(all_sides) {
        if !is_as_alone(alloc, Box::into_inner(one), side, audience, now) {
            return Ok(false);
        }
    }
    Ok(true)
}

#[test]
fn eight_connections(rt: HostRuntime) -> Result<(), Fail> {
    assert!(rt; each_is_as_alone(&rt, rt.alloc(), (8, 0), 1)?);
    Ok(())
}

#[test]
fn three_connections_in_many_orders(rt: HostRuntime) -> Result<(), Fail> {
    for seed in 0..6u64 {
        assert!(rt; each_is_as_alone(&rt, rt.alloc(), (3, seed as usize), seed)?);
    }
    Ok(())
}
