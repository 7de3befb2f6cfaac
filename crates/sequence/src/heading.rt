//! Finds the end of a header that may be received in several chunks.
ghost use Rattle.std.specs.Prelude.{◌≡◌, ◌≤◌, ◌<◌, ◌^◌, ◌+◌, ◌++◌, take, length, IfSome};
ghost use Rattle.arrayvec.specs.ArrayVec.{array_vec_len};
ghost use Rattle.sequence.specs.machine.Judging.{limits_by};
ghost use Rattle.sequence.specs.machine.Heading.{IsExamined, IsQuiet, IsEnd, is_part, is_end, kept_by};

use crate::broken::{broken, is_unbroken};
use crate::reading::{Front, is_whole, read_front};
use crate::shape::{Shape, shape_of};
use crate::spot::{Bounds, Spot};
use crate::wanted::Wanted;
use arrayvec::ArrayVec;
use element::{Header, Need, Rule, Tag, need, read_header};

/// The result of looking for the end of a header.
#[derive(Clone, Copy)]
pub enum End {
    /// A rule is broken: the number of bytes up to the one that breaks it, the rule, and the tag of
    /// the fault.
    Refused(usize, Rule, Tag),
    /// The header is whole: its number of bytes, its fields, and what follows it.
    Whole(usize, Header, Shape),
    /// The bytes end before the header does, and break no rule.
    Part,
}

fn is_part(end: &End) -> bool
    ensures { result ≡ is_part end.now }
{
    matches!(end, End::Part)
}

fn is_whole_header(end: &End) -> bool
    ensures { result ≡ is_end end.now }
{
    matches!(end, End::Whole(_, _, _))
}

/// Checks the first `count` bytes of a header. Returns `End::Part` without a check if there are
/// fewer bytes, or if `count` is at most `started`, the number of bytes that were checked before.
fn examine(
    wanted: &Wanted,
    bounds: &Bounds,
    spot: &Spot,
    bytes: &[u8],
    started: usize,
    count: usize,
) -> End
    requires offset { spot.now.offset < 2 ^ 49 }
    requires size { count ≤ 12 }
    ensures { IsExamined (limits_by wanted.now.list.items bounds.now) spot.now bytes.now started count result }
{
    if count <= started || bytes.len() < count {
        return End::Part;
    }
    let front = &bytes[..count];
    match broken(wanted, bounds, spot, front) {
        Some((rule, tag)) => End::Refused(count, rule, tag),
        None => {
            if is_whole(spot.syntax.layout(), front) {
                let header = read_header(spot.syntax.layout(), front);
                let shape = shape_of(spot.syntax, &header);
                End::Whole(count, header, shape)
            } else {
                End::Part
            }
        }
    }
}

/// Finds the end of a header whose first `started` bytes, at least one, break no rule. After the
/// first byte only the fourth (tag), the sixth (VR) and the last (length) can break a rule.
fn end_after(wanted: &Wanted, bounds: &Bounds, spot: &Spot, bytes: &[u8], started: usize) -> End
    requires offset { spot.now.offset < 2 ^ 49 }
    requires started { started ≤ length bytes.now }
    requires quiet { IsQuiet (limits_by wanted.now.list.items bounds.now) spot.now (take started bytes.now) }
    ensures { IsEnd (limits_by wanted.now.list.items bounds.now) spot.now bytes.now started result }
{
    let tagged = examine(wanted, bounds, spot, bytes, started, 4);
    if !is_part(&tagged) {
        return tagged;
    }
    let named = examine(wanted, bounds, spot, bytes, started, 6);
    if !is_part(&named) {
        return named;
    }
    match need(spot.syntax.layout(), bytes) {
        Need::Size(size) => examine(wanted, bounds, spot, bytes, started, size),
        // Two arms, as the proof treats each by itself.
        Need::More => End::Part,
        Need::BadVr => End::Part,
    }
}

/// Finds the end of a header and checks its bytes in order from the first. The first `started` bytes,
/// which may be none, break no rule.
fn end_from_front(
    wanted: &Wanted,
    bounds: &Bounds,
    spot: &Spot,
    bytes: &[u8],
    started: usize,
) -> End
    requires offset { spot.now.offset < 2 ^ 49 }
    requires more { started < length bytes.now }
    requires quiet { 0 < started → IsQuiet (limits_by wanted.now.list.items bounds.now) spot.now (take started bytes.now) }
    ensures { IsEnd (limits_by wanted.now.list.items bounds.now) spot.now bytes.now started result }
{
    if started == 0 {
        let first = examine(wanted, bounds, spot, bytes, 0, 1);
        if !is_part(&first) {
            return first;
        }
        end_after(wanted, bounds, spot, bytes, 1)
    } else {
        end_after(wanted, bounds, spot, bytes, started)
    }
}

/// Finds the end of a header of which the first `started` bytes were checked before. Checks a whole
/// header at once. Only if it breaks a rule, or is unfinished, are its bytes checked in order.
fn end_in(wanted: &Wanted, bounds: &Bounds, spot: &Spot, bytes: &[u8], started: usize) -> End
    requires offset { spot.now.offset < 2 ^ 49 }
    requires more { started < length bytes.now }
    requires quiet { 0 < started → IsQuiet (limits_by wanted.now.list.items bounds.now) spot.now (take started bytes.now) }
    ensures { IsEnd (limits_by wanted.now.list.items bounds.now) spot.now bytes.now started result }
{
    if let Need::Size(size) = need(spot.syntax.layout(), bytes) {
        let whole = examine(wanted, bounds, spot, bytes, started, size);
        if is_whole_header(&whole) {
            return whole;
        }
    }
    end_from_front(wanted, bounds, spot, bytes, started)
}

/// Appends the first bytes of `piece` to those of the header, up to 12 in all, the size of the
/// longest header.
fn gather(header: &mut ArrayVec<u8, 12>, piece: &[u8])
    requires { array_vec_len header.old ≤ 11 }
    ensures { header.new.items ≡ take 12 (header.old.items ++ piece.now) }
{
    let room = 12 - header.len();
    if piece.len() <= room {
        let _fits = header.try_extend_from_slice(piece);
    } else {
        let _fits = header.try_extend_from_slice(&piece[..room]);
    }
}

/// Finds the end of a header that starts in the buffer `header` and continues in `piece`.
/// Afterwards the buffer has the bytes of an unfinished header, or is empty if the header ended.
fn gathered_end(
    wanted: &Wanted,
    bounds: Bounds,
    spot: Spot,
    header: &mut ArrayVec<u8, 12>,
    piece: &[u8],
) -> End
    requires offset { spot.offset < 2 ^ 49 }
    requires started { array_vec_len header.old ≤ 11 }
    requires more { 0 < length piece.now }
    requires quiet { 0 < array_vec_len header.old → IsQuiet (limits_by wanted.now.list.items bounds) spot header.old.items }
    ensures end { IsEnd (limits_by wanted.now.list.items bounds) spot (header.old.items ++ piece.now) (length header.old.items) result }
    ensures kept { header.new.items ≡ kept_by result (header.old.items ++ piece.now) }
{
    let started = header.len();
    gather(header, piece);
    let end = end_in(wanted, &bounds, &spot, header.as_slice(), started);
    if !is_part(&end) {
        header.clear();
    }
    end
}

/// Reads the header at the front of `piece`. Returns `None` if it is unfinished or breaks a rule.
fn whole_header(wanted: &Wanted, bounds: &Bounds, spot: &Spot, piece: &[u8]) -> Option<Front>
    requires offset { spot.now.offset < 2 ^ 49 }
    requires more { 0 < length piece.now }
    ensures { IfSome result (λ front. IsEnd (limits_by wanted.now.list.items bounds.now) spot.now piece.now 0 (End.Whole front.size front.header front.shape)) }
{
    let front = read_front(spot.syntax, piece)?;
    if is_unbroken(wanted, bounds, spot, &front) {
        Some(front)
    } else {
        None
    }
}

/// Finds the end of a header that starts in the buffer `header`, which may be empty, and continues
/// in `piece`. A header that is whole in `piece` is not copied. Afterwards the buffer has the bytes
/// of an unfinished header, or is empty if the header ended.
pub fn header_end(
    wanted: &Wanted,
    bounds: &Bounds,
    spot: &Spot,
    header: &mut ArrayVec<u8, 12>,
    piece: &[u8],
) -> End
    requires offset { spot.now.offset < 2 ^ 49 }
    requires started { array_vec_len header.old ≤ 11 }
    requires more { 0 < length piece.now }
    requires quiet { 0 < array_vec_len header.old → IsQuiet (limits_by wanted.now.list.items bounds.now) spot.now header.old.items }
    ensures end { IsEnd (limits_by wanted.now.list.items bounds.now) spot.now (header.old.items ++ piece.now) (length header.old.items) result }
    ensures kept { header.new.items ≡ kept_by result (header.old.items ++ piece.now) }
{
    if header.is_empty() {
        match whole_header(wanted, bounds, spot, piece) {
            Some(front) => End::Whole(front.size, front.header, front.shape),
            None => gathered_end(wanted, *bounds, *spot, header, piece),
        }
    } else {
        gathered_end(wanted, *bounds, *spot, header, piece)
    }
}
