//! Runs a script on a connection over a test socket: a further step needs no proof.

use crate::peer::{Audience, Viewer};
use crate::scripted::{Script, ScriptedSocket, after, at_once, just_before, longest_of, over};
use crate::waiting_filing::WaitingFiling;
use crate::words::{names, number, parts, peer_does};
use cases::{Case, Parts};
use fixtures::{Step, config, over_memory};
use serving::{Connection, ConnectionEnd, Turn};
use std::alloc::Global;
use std::cell::RefCell;
use std::test::Fail;
use std::time::Instant;

type Played<'a> = Connection<'a, ScriptedSocket<'a>, WaitingFiling, Viewer<'a>>;

type PlayedEnd<'a> = ConnectionEnd<ScriptedSocket<'a>, WaitingFiling>;

/// The peer of a connection, and the observer's record.
#[derive(Drop)]
struct Sides<'a> {
    alloc: Global,
    script: &'a Script,
    shown: &'a Audience,
}

/// When the connection was opened, and the current time.
#[derive(Clone, Copy)]
struct Times {
    begin: Instant,
    now: Instant,
}

/// Runs a script on a connection over a test socket. Fails with the first line that does not hold,
/// and what was seen.
///
/// Each line is a step: a verb, its operands, and the expected result, separated by bars. Names of
/// bytes and the verbs of the peer are those of `words`.
///
/// - `files wait`, as the first line: each file waits to be settled. `longest | SECONDS`: the
///   longest duration of the connection.
/// - `at | SECONDS`, `just before | SECONDS`: sets the time to this long after the connection was
///   opened, or a nanosecond less.
/// - `turn | MOST | TURN`, `turns`: a turn of at most `MOST` bytes and its result; or turns until
///   one waits.
/// - `settle | named | yes`: whether a file is settled if its name is synced (`named`) or not
///   (`unnamed`).
/// - `expire`, `round`, `stop`, `start writing`, `write out`: calls without a check.
/// - `moment | SECONDS | WAIT | BYTES`: at this time, checks that the association is not over and
///   how long its peer is waited for; then the peer sends the bytes, and the connection gets turns
///   and expires if it is due.
/// - `received | NUMBER`, `reads`, `answered`, `ahead`, `failures`, `kept`, `lost`: the numbers of
///   bytes received, reads of the socket, bytes to be sent, most bytes that waited behind a chunk,
///   failed writes, and files kept and lost.
/// - `over | yes`, `waits`, `held`: whether the connection is over, has a file that waits, or has
///   its last answer held back. `wait | WAIT`, `why | END`: how long the peer is waited for, and why
///   reading ended.
/// - `accepted | BYTES`, `shown`, `sent`: the bytes that the peer accepted, and those observed as
///   received and as sent.
/// - `note`, `no read`, `no byte`: since `note`, the socket was not read, or no byte was received.
/// - `end`: closes the connection; then checks what remains: `unsent | BYTES`, `unconsumed`,
///   `unsent size | NUMBER`, `files`, `standing | STANDING`, and `as alone | BYTES | BYTES`:
///   whether an association in memory files the same.
pub fn play(rt: &HostRuntime, script: &str) -> Result<(), Fail> {
    let alloc = rt.alloc();
    let begin = Instant::now(rt)?;
    let (peer, shown) = (Script::new(alloc), Audience::new(alloc));
    let sides = Sides {
        alloc,
        script: &peer,
        shown: &shown,
    };
    let filing = WaitingFiling::new(alloc, script.starts_with("files wait\n"));
    let parts = (ScriptedSocket(&peer), filing, Viewer::new(&shown));
    let config = config();
    let one = over(alloc, &config, parts, longest_of(script), begin)?;
    perform(one, sides, begin, script)
}

fn perform(one: Played<'_>, sides: Sides<'_>, begin: Instant, script: &str) -> Result<(), Fail> {
    let mut one = one;
    let mut parts = parts(sides.alloc)?;
    let mut times = Times { begin, now: begin };
    let mut noted = (0, 0);
    let (steps, rest) = script.split_once("\nend\n").unwrap_or((script, ""));
    let mut at = 0usize;
    for line in steps.lines() {
        at = at.saturating_add(1);
        let case = Case::of(line);
        let seen = step(&mut one, &sides, &mut parts, &mut times, &case)?;
        differs(at, line, seen)?;
        if case.name == "note" {
            noted = (sides.script.reads.get(), received(&sides));
        }
        let (reads, bytes) = noted;
        if case.name == "no read" && sides.script.reads.get() != reads
            || case.name == "no byte" && received(&sides) != bytes
        {
            return Err(Fail::new(format_args!("line {at}: {line}: there is one")));
        }
    }
    at = at.saturating_add(1);
    let (end, _viewer, _memory) = one.close(times.now);
    for line in rest.lines() {
        at = at.saturating_add(1);
        let seen = look_at_end(&end, &sides, &parts, &Case::of(line))?;
        differs(at, line, seen)?;
    }
    Ok(())
}

/// Fails with this line if something else was seen.
fn differs(at: usize, line: &str, seen: Option<String>) -> Result<(), Fail> {
    match seen {
        Some(seen) => Err(Fail::new(format_args!("line {at}: {line}: it is {seen}"))),
        None => Ok(()),
    }
}

/// Applies a step. Returns what was seen instead of what the step expects, or `None`.
fn step<'a>(
    one: &mut Played<'_>,
    sides: &Sides<'_>,
    parts: &mut Parts<'a>,
    times: &mut Times,
    case: &Case<'a>,
) -> Result<Option<String>, Fail> {
    if case.name == "at" {
        times.now = after(times.begin, number(case, 0)? as u64);
        return Ok(None);
    }
    if case.name == "just before" {
        times.now = just_before(times.begin, number(case, 0)? as u64);
        return Ok(None);
    }
    if case.name == "moment" {
        return moment(one, sides, parts, times.begin, case);
    }
    if names(sides.alloc, parts, case)?
        || peer_does(sides.script, parts, case)?
        || box_does(one, sides, times.now, case)?
    {
        return Ok(None);
    }
    if let Some(kept) = kept_of(sides, case.name) {
        return kept_differs(sides.alloc, kept, parts, case);
    }
    match count_of(sides, case.name) {
        Some(count) => count_differs(sides.alloc, count, case),
        None => shown_differs(one, sides, times.now, case),
    }
}

/// Applies a step that returns nothing. Returns whether it is such a step.
fn box_does(
    one: &mut Played<'_>,
    sides: &Sides<'_>,
    now: Instant,
    case: &Case,
) -> Result<bool, Fail> {
    match case.name {
        "expire" => one.expire(now),
        "round" => {
            let _done = one.round(now, None);
        }
        "stop" => {
            let _done = one.stop(at_once(now), now);
        }
        "start writing" => one.start_writing(),
        "write out" => one.write_out(),
        "files wait" | "longest" | "note" | "no read" | "no byte" => {}
        _ => return Ok(false),
    }
    Ok(true)
}

/// Gives the connection turns until one waits, at most 1,000.
fn turns(one: &mut Played<'_>, now: Instant, most: usize) -> Turn {
    for _ in 0..1000 {
        let turn = one.turn(now, most);
        if turn != Turn::Next {
            return turn;
        }
    }
    Turn::Next
}

/// Returns the wait if it is not as expected; else sends the bytes and gives turns.
fn moment(
    one: &mut Played<'_>,
    sides: &Sides<'_>,
    parts: &Parts<'_>,
    begin: Instant,
    case: &Case,
) -> Result<Option<String>, Fail> {
    let then = after(begin, number(case, 0)? as u64);
    let wait = format!(in sides.alloc; "{:?}", one.wait(then))?;
    if one.is_over() || wait.as_str() != case.field(1)? {
        return Ok(Some(wait));
    }
    sides.script.send(parts.bytes(case, 2)?.as_slice())?;
    let _turn = turns(one, then, 4096);
    one.expire(then);
    Ok(None)
}

/// Returns the recorded bytes with this name.
fn kept_of<'a>(sides: &'a Sides<'_>, name: &str) -> Option<&'a RefCell<Vec<u8>>> {
    match name {
        "accepted" => Some(&sides.script.consumed),
        "shown" => Some(&sides.shown.received),
        "sent" => Some(&sides.shown.sent),
        _ => None,
    }
}

fn kept_differs(
    alloc: Global,
    kept: &RefCell<Vec<u8>>,
    parts: &Parts<'_>,
    case: &Case,
) -> Result<Option<String>, Fail> {
    match kept.try_borrow() {
        Ok(kept) => bytes_differ(alloc, kept.as_slice(), parts, case),
        Err(_) => Err(case.fails("borrowed")),
    }
}

/// Returns the bytes unless they equal the field.
fn bytes_differ(
    alloc: Global,
    bytes: &[u8],
    parts: &Parts<'_>,
    case: &Case,
) -> Result<Option<String>, Fail> {
    if parts.bytes(case, 0)?.as_slice() == bytes {
        return Ok(None);
    }
    Ok(Some(format!(in alloc; "{bytes:?}")?))
}

/// Returns how many bytes were received.
fn received(sides: &Sides<'_>) -> u64 {
    match sides.shown.received.try_borrow() {
        Ok(received) => received.len() as u64,
        Err(_) => 0,
    }
}

/// Returns the count with this name.
fn count_of(sides: &Sides<'_>, name: &str) -> Option<u64> {
    let shown = sides.shown;
    Some(match name {
        "received" => received(sides),
        "reads" => u64::from(sides.script.reads.get()),
        "answered" => shown.answered.get() as u64,
        "ahead" => shown.most_ahead.get() as u64,
        "failures" => u64::from(shown.failures.get()),
        "kept" => u64::from(shown.kept.get()),
        "lost" => u64::from(shown.lost.get()),
        _ => return None,
    })
}

/// Returns the count unless it equals the field.
fn count_differs(alloc: Global, count: u64, case: &Case) -> Result<Option<String>, Fail> {
    if case.field(0)?.parse::<u64>() == Ok(count) {
        return Ok(None);
    }
    Ok(Some(format!(in alloc; "{count}")?))
}

/// Returns what was seen unless it equals the last field.
fn shown_differs(
    one: &mut Played<'_>,
    sides: &Sides<'_>,
    now: Instant,
    case: &Case,
) -> Result<Option<String>, Fail> {
    let alloc = sides.alloc;
    let (index, seen) = match case.name {
        "turn" => {
            let turn = one.turn(now, number(case, 0)?);
            (1, format!(in alloc; "{turn:?}")?)
        }
        "turns" => {
            let turn = turns(one, now, number(case, 0)?);
            (1, format!(in alloc; "{turn:?}")?)
        }
        "settle" => {
            let is_named = case.field(0)? == "named";
            let is_settled = !one.settle(&is_named, now);
            (1, yes_or_no(alloc, is_settled)?)
        }
        "wait" => (0, format!(in alloc; "{:?}", one.wait(now))?),
        "why" => (0, format!(in alloc; "{:?}", sides.shown.end.get())?),
        "over" => (0, yes_or_no(alloc, one.is_over())?),
        "waits" => (0, yes_or_no(alloc, one.has_pending())?),
        "held" => (0, yes_or_no(alloc, sides.shown.is_held.get())?),
        _ => return Err(case.fails("no such step")),
    };
    if case.field(index)? == seen.as_str() {
        return Ok(None);
    }
    Ok(Some(seen))
}

fn yes_or_no(alloc: Global, is: bool) -> Result<String, Fail> {
    Ok(String::from_str(alloc, if is { "yes" } else { "no" })?)
}

/// Checks a closed connection. Returns what was seen instead of what the line expects.
fn look_at_end(
    end: &PlayedEnd<'_>,
    sides: &Sides<'_>,
    parts: &Parts<'_>,
    case: &Case,
) -> Result<Option<String>, Fail> {
    let alloc = sides.alloc;
    let exchange = &end.exchange;
    match case.name {
        "unsent" => bytes_differ(alloc, exchange.unsent.pending(), parts, case),
        "unconsumed" => bytes_differ(alloc, exchange.unconsumed.pending(), parts, case),
        "unsent size" => count_differs(alloc, exchange.unsent.pending().len() as u64, case),
        "files" => count_differs(alloc, end.filing.files.files().len() as u64, case),
        "standing" => {
            let standing = format!(in alloc; "{:?}", exchange.report.standing)?;
            if case.field(0)? == standing.as_str() {
                return Ok(None);
            }
            Ok(Some(standing))
        }
        "as alone" => alone_differs(alloc, end, parts, case),
        "accepted" => kept_differs(alloc, &sides.script.consumed, parts, case),
        "lost" => count_differs(alloc, u64::from(sides.shown.lost.get()), case),
        _ => Err(case.fails("no such look")),
    }
}

/// Returns how many files an association in memory files from the same bytes, if the files differ.
fn alone_differs(
    alloc: Global,
    end: &PlayedEnd<'_>,
    parts: &Parts<'_>,
    case: &Case,
) -> Result<Option<String>, Fail> {
    let (first, second) = (parts.bytes(case, 0)?, parts.bytes(case, 1)?);
    let pieces = [
        Step::Piece(first.as_slice()),
        Step::Piece(second.as_slice()),
    ];
    let alone = over_memory(alloc, &pieces);
    if end.filing.files.files() == alone.filing.files() {
        return Ok(None);
    }
    Ok(Some(format!(in alloc; "{} others", alone.filing.files().len())?))
}
