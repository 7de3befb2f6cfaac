//! What a walker reads next.
ghost use Rattle.std.specs.Prelude.{◌≡◌};
ghost use Rattle.sequence.specs.machine.Judging.{numbered};
ghost use Rattle.sequence.specs.machine.Spare.{stage_by};

use crate::fault::Fault;
use element::{Rule, Tag};

/// What a walker reads next: a header, a value, or nothing after a fault.
#[derive(Clone, Copy)]
pub enum Stage {
    /// A header; the walker's buffer has the bytes of it that were received.
    Heading,
    /// The value of the element, or the fragment, with this tag; `remaining` bytes of it, at least one,
    /// are missing. `kept` is whether it is a wanted value.
    Value {
        tag: Tag,
        remaining: u32,
        kept: bool,
    },
    /// Nothing: a rule was broken.
    Stopped(Fault),
}

/// Returns the stage at the offset `offset`, where a header may start: `Heading`, or the fault if a
/// rule is `broken` there.
pub fn stage_at(broken: Option<(Rule, Tag)>, offset: u64) -> Stage
    ensures { result ≡ stage_by (numbered broken) offset }
{
    match broken {
        None => Stage::Heading,
        Some((rule, tag)) => Stage::Stopped(Fault::new(rule, offset, tag)),
    }
}
