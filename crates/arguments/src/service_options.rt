//! Reads the settings of how connections are served.
ghost use Rattle.std.specs.Prelude.{◌≡◌, IfOk, IsSomeAnd, codes};
ghost use Rattle.clap.specs.Walk.{first_of};
ghost use Rattle.arguments.specs.AskedService.{IsLongest, IsPerPeer, IsService, SpellsTime};

use crate::given::Given;
use crate::settings::{number, number_of};
use failures::WordsError;
use service::{Service, Timeouts};
use std::alloc::Global;
use std::time::Duration;

/// The most seconds of a time: a day.
const DAY: u64 = 86400;

/// Reads the time that the option gives: `least` seconds to a day.
pub(crate) fn seconds_of(
    alloc: Global,
    given: &Given,
    option: &str,
    least: u64,
) -> Result<Duration, WordsError>
    ensures { IfOk result (λ time. IsSomeAnd (first_of option.now given.now) (λ text. SpellsTime least text time)) }
{
    Ok(Duration::from_secs(number_of(alloc, given, option, least, DAY)?))
}

/// Reads how many associations one address may have, 1 to `at_once`; by default half of `at_once`,
/// rounded up.
fn per_peer_of(alloc: Global, given: &Given, at_once: usize) -> Result<usize, WordsError>
    ensures { IfOk result (λ n. IsPerPeer at_once (first_of (codes "per-peer") given.now) n) }
{
    match given.get("per-peer") {
        Some(text) => Ok(number(alloc, "per-peer", text, 1, at_once as u64)? as usize),
        None => Ok(at_once / 2 + at_once % 2),
    }
}

/// Reads how long an association may last; `None` for no limit.
fn longest_of(alloc: Global, given: &Given) -> Result<Option<Duration>, WordsError>
    ensures { IfOk result (λ longest. IsLongest longest (first_of (codes "longest") given.now)) }
{
    match given.get("longest") {
        Some(text) => Ok(Some(Duration::from_secs(number(alloc, "longest", text, 1, DAY)?))),
        None => Ok(None),
    }
}

/// Returns the settings of how `serve` serves connections.
pub fn service_of<'a>(alloc: Global, given: &Given<'a>) -> Result<Service<'a>, WordsError>
    ensures { IfOk result (λ s. IsService s given.now) }
{
    let artim = seconds_of(alloc, given, "timeout", 1)?;
    let idle = seconds_of(alloc, given, "idle", 1)?;
    let associations = number_of(alloc, given, "at-once", 1, 64)? as usize;
    let per_peer = per_peer_of(alloc, given, associations)?;
    let longest = longest_of(alloc, given)?;
    let grace = seconds_of(alloc, given, "grace", 0)?;
    Ok(Service {
        timeouts: Timeouts { artim, idle },
        associations,
        per_peer,
        longest,
        stop_file: given.get("stop-file"),
        grace,
        once: given.flag("once"),
    })
}
