//! The stack of open levels (sequences and items), the innermost last.
ghost use Rattle.std.specs.Prelude.{◌≡◌, ℕ, ◌<◌, ◌≤◌, ◌^◌, ◌+◌, ◌-◌, ◌&&◌, not, nat_eq, None, [], length, get_or, IsTrue, IfSome};
ghost use Rattle.element.specs.Header.{number};
ghost use Rattle.arrayvec.specs.ArrayVec.{array_vec_len};
ghost use Rattle.sequence.specs.machine.Machine.{leave, stops_at, spot_of, less, is_none, started, stop_of, set_scope, sequence_scope};
ghost use Rattle.sequence.specs.declared.level.Scope.{Scope};
ghost use Rattle.sequence.specs.machine.Scopes.{LeavesEnded, top_of, below_of, nearest_from};
ghost use Rattle.sequence.specs.Fields.{scope_of};

use crate::coding::Coding;
use crate::level::{Level, Scope};
use crate::shape::UNDEFINED;
use crate::spot::Spot;
use arrayvec::ArrayVec;
use element::Tag;

/// Returns whether the innermost level has defined length and ends at the offset `offset`.
pub fn ends_here<const D: usize>(levels: &ArrayVec<Level, D>, offset: u64) -> bool
    requires { offset < 2 ^ 64 - 1 }
    ensures some { IsTrue result → 0 < array_vec_len levels.now }
    ensures ends { (root : Scope) → root.stop ≡ None → result ≡ stops_at (top_of root levels.now.items).stop offset }
{
    match levels.as_slice() {
        [] => false,
        [.., level] => level.ends_at(offset),
    }
}

/// Removes the levels that end at the offset `offset`, from the innermost outwards.
pub fn leave_ended<const D: usize>(levels: &mut ArrayVec<Level, D>, offset: u64)
    requires { offset < 2 ^ 64 - 1 }
    ensures { LeavesEnded offset levels.old.items levels.new.items }
{
    while ends_here(levels, offset) {
        levels.pop();
    }
}

/// Returns the end of the innermost level of defined length, as an offset, or `None` if there is
/// none. No level around it ends before.
pub fn nearest(levels: &[Level]) -> Option<u64>
    ensures { result ≡ nearest_from None levels.now }
{
    let mut open = levels.len();
    while 0 < open {
        open -= 1;
        if let Some(stop) = levels[open].scope().stop {
            return Some(stop);
        }
    }
    None
}

/// Returns the number of bytes from the offset `offset` to the end `near`, or `None` if there is no
/// end.
pub fn remaining_before(near: Option<u64>, offset: u64) -> Option<u64>
    ensures { result ≡ less near offset }
{
    match near {
        None => None,
        Some(stop) => Some(stop.saturating_sub(offset)),
    }
}

/// Returns the scope of the innermost open level, or of the data set itself if none is open.
pub fn top_scope(root: Scope, levels: &[Level]) -> Scope
    ensures { result ≡ top_of root levels.now }
{
    match levels {
        [] => root,
        [.., level] => level.scope(),
    }
}

/// Returns whether a level is open and the innermost one has undefined length.
pub fn is_open_ended(top: Scope, levels: &[Level]) -> bool
    ensures { result ≡ (is_none top.stop && not (nat_eq (length levels.now) 0)) }
{
    top.stop.is_none() && !levels.is_empty()
}

/// Returns the context of a header at the offset `offset`.
pub fn spot_at(root: Scope, levels: &[Level], offset: u64) -> Spot
    requires { root.stop ≡ None }
    ensures { result ≡ spot_of (top_of root levels.now) (below_of root [] levels.now) offset }
{
    let near = remaining_before(nearest(levels), offset);
    let top = top_scope(root, levels);
    let open_ended = is_open_ended(top, levels);
    Spot {
        syntax: top.syntax,
        in_sequence: top.in_sequence,
        open_ended,
        near,
        last: top.last,
        depth: levels.len(),
        offset,
    }
}

/// Sets the tag of the last element in the innermost level, or in the data set itself if no level
/// is open.
pub fn set_last<const D: usize>(root: &mut Scope, levels: &mut ArrayVec<Level, D>, tag: Tag)
    ensures top { top_of root.new levels.new.items ≡ started (top_of root.old levels.old.items) tag }
    ensures below { below_of root.new [] levels.new.items ≡ below_of root.old [] levels.old.items }
    ensures stop { root.new.stop ≡ root.old.stop }
    ensures syntax { root.new.syntax ≡ root.old.syntax }
    ensures len { array_vec_len levels.new ≡ array_vec_len levels.old }
    ensures last { array_vec_len levels.old ≡ 0 → root.new.last ≡ number tag }
    ensures root { 0 < array_vec_len levels.old → root.new ≡ root.old }
{
    match levels.as_mut_slice() {
        [] => root.last = tag.number(),
        [.., level] => level.set_last(tag.number()),
    }
}

/// Returns the end of a level of this length whose header ends at the offset `offset`, or `None` if
/// the length is undefined.
fn stop_at(offset: u64, length: u32) -> Option<u64>
    requires { offset < 2 ^ 49 }
    ensures stop { result ≡ stop_of offset length }
    ensures small { IfSome result (λ end. end < 2 ^ 64 - 1) }
{
    if length == UNDEFINED {
        None
    } else {
        Some(offset + length as u64)
    }
}

/// Returns the scope of an item of this length whose header ends at the offset `offset`.
pub fn item_scope(syntax: Coding, offset: u64, length: u32) -> Scope
    requires { offset < 2 ^ 49 }
    ensures scope { result ≡ set_scope syntax (stop_of offset length) 0 }
    ensures small { IfSome result.stop (λ end. end < 2 ^ 64 - 1) }
{
    Scope {
        in_sequence: false,
        syntax,
        stop: stop_at(offset, length),
        last: 0,
    }
}

/// Returns the scope of a sequence of this length whose header ends at the offset `offset`.
pub fn sequence_scope(syntax: Coding, offset: u64, length: u32) -> Scope
    requires { offset < 2 ^ 49 }
    ensures scope { result ≡ sequence_scope syntax (stop_of offset length) }
    ensures small { IfSome result.stop (λ end. end < 2 ^ 64 - 1) }
{
    Scope {
        in_sequence: true,
        syntax,
        stop: stop_at(offset, length),
        last: 0,
    }
}
