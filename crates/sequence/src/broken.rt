//! Checks a header, or its first bytes, against the rules of a data set.
ghost use Rattle.std.specs.Prelude.{◌≡◌, ◌<◌, ◌≤◌, ◌^◌, ◌+◌, ◌%◌, length, nat_le, nat_lt, nat_eq, ◌&&◌, not, None, IsTrue};
ghost use Rattle.element.specs.Header.{is_marker};
ghost use Rattle.sequence.specs.Shape.{is_undefined};
ghost use Rattle.sequence.specs.Coding.{has_fragments};
ghost use Rattle.sequence.specs.Shape as shapes;
ghost use Rattle.sequence.specs.Rules as rules;
ghost use Rattle.sequence.specs.machine.Heading.{broken_whole};
ghost use Rattle.sequence.specs.machine.Judging.{limits_by, numbered, broken_at_tag, broken_at_vr, broken_at_end};

use crate::reading::{Front, is_plain, is_whole};
use crate::shape::{Shape, UNDEFINED, shape_of};
use crate::spot::{Bounds, Spot};
use crate::wanted::Wanted;
use element::{Header, Need, Rule, Tag, need, read_header, read_tag};

/// Returns whether two tags are equal.
pub fn same_tag(a: Tag, b: Tag) -> bool
    ensures { result ≡ rules.same_tag a b }
{
    a.0 == b.0 && a.1 == b.1
}

/// Returns whether `count` more bytes would pass the nearest end of a level of defined length.
/// `near` is the number of bytes up to that end, `None` if all open levels have undefined length.
pub fn passes(near: Option<u64>, count: u64) -> bool
    ensures { result ≡ rules.passes near count }
{
    match near {
        None => false,
        Some(remaining) => remaining < count,
    }
}

/// Returns `Overrun`, with tag (0000,0000), if fewer than the 8 bytes of a header remain before the
/// nearest end of a level.
pub fn broken_due(spot: &Spot) -> Option<(Rule, Tag)>
    ensures { numbered result ≡ rules.broken_due spot.now }
{
    if passes(spot.near, 8) {
        Some((Rule::Overrun, Tag(0, 0)))
    } else {
        None
    }
}

/// Returns the rule that a tag breaks in this context, with the tag: `UnexpectedTag` for an item or
/// delimitation that is not allowed, or another tag where an item or delimitation is required;
/// `BadGroup` for group 0000 or 0002; `Order` if it is not above the tag of the preceding element.
#[tactic(auto, unfolding(crate::specs::Rules::broken_tag))]
pub fn broken_tag(spot: &Spot, tag: Tag) -> Option<(Rule, Tag)>
    ensures { numbered result ≡ rules.broken_tag spot.now tag }
{
    if spot.in_sequence {
        if same_tag(tag, Tag::ITEM)
            || (same_tag(tag, Tag::SEQUENCE_DELIMITATION) && spot.open_ended)
        {
            None
        } else {
            Some((Rule::UnexpectedTag, tag))
        }
    } else if tag.is_marker() {
        if same_tag(tag, Tag::ITEM_DELIMITATION) && spot.open_ended {
            None
        } else {
            Some((Rule::UnexpectedTag, tag))
        }
    } else if tag.0 == 0 || tag.0 == 2 {
        Some((Rule::BadGroup, tag))
    } else if tag.number() <= spot.last {
        Some((Rule::Order, tag))
    } else {
        None
    }
}

/// Returns the rule that a header breaks, with its tag: `BadVr` by its VR, or `Overrun` if the
/// header itself passes the nearest end of a level.
pub fn broken_need(spot: &Spot, need: Need, tag: Tag) -> Option<(Rule, Tag)>
    ensures { numbered result ≡ rules.broken_need spot.now need tag }
{
    match need {
        Need::More => None,
        Need::BadVr => Some((Rule::BadVr, tag)),
        Need::Size(size) => {
            if passes(spot.near, size as u64) {
                Some((Rule::Overrun, tag))
            } else {
                None
            }
        }
    }
}

fn is_not_allowed(shape: Shape) -> bool
    ensures { result ≡ rules.is_not_allowed shape }
{
    matches!(shape, Shape::NotAllowed)
}

fn is_sequence(shape: Shape) -> bool
    ensures { result ≡ rules.is_sequence shape }
{
    matches!(shape, Shape::Sequence(_))
}

fn is_value(shape: Shape) -> bool
    ensures { result ≡ rules.is_value shape }
{
    matches!(shape, Shape::Value)
}

/// Returns whether the header, of this shape, is that of a wanted value longer than its limit (see
/// [`Want`](crate::Want)).
fn is_too_long(wanted: &Wanted, bounds: &Bounds, spot: &Spot, header: &Header, shape: Shape) -> bool
    requires { shape ≡ shapes.shape spot.now.syntax header.now }
    ensures { result ≡ rules.is_too_long (limits_by wanted.now.list.items bounds.now) spot.now header.now }
{
    spot.depth == 0
        && !header.tag.is_marker()
        && is_value(shape)
        && passes(wanted.room(header.tag.number()), header.length as u64)
}

/// Returns whether the header is that of a delimitation with a length other than 0.
fn is_long_mark(header: &Header) -> bool
    ensures { result ≡ rules.is_long_mark header.now }
{
    header.tag.is_marker() && !same_tag(header.tag, Tag::ITEM) && header.length != 0
}

/// Returns whether the header is that of an element whose length is undefined but must be defined.
fn is_forbidden(header: &Header, shape: Shape) -> bool
    ensures { result ≡ (not (is_marker header.now.tag) && rules.is_not_allowed shape) }
{
    !header.tag.is_marker() && is_not_allowed(shape)
}

/// Returns whether the header is that of a fragment of encapsulated Pixel Data with undefined
/// length.
fn is_endless(spot: &Spot, header: &Header) -> bool
    ensures { result ≡ rules.is_endless spot.now header.now }
{
    header.tag.is_marker() && spot.syntax.has_fragments() && header.length == UNDEFINED
}

/// Returns whether the length in the header is defined and odd.
fn is_odd(header: &Header) -> bool
    ensures { result ≡ (not (is_undefined header.now.length) && nat_eq (header.now.length % 2) 1) }
{
    header.length != UNDEFINED && header.length % 2 == 1
}

/// Returns whether the value, sequence or item of this header of `size` bytes has defined length
/// and passes the nearest end of a level.
fn is_overrun(spot: &Spot, size: usize, header: &Header) -> bool
    requires { size ≤ 12 }
    ensures { result ≡ (not (is_undefined header.now.length) && rules.passes spot.now.near (size + header.now.length)) }
{
    header.length != UNDEFINED && passes(spot.near, size as u64 + header.length as u64)
}

/// Returns the number of bytes that follow a header by its length: 0 for undefined length.
fn counted_length(length: u32) -> u64
    ensures value { result ≡ rules.counted_length length }
    ensures small { result < 2 ^ 32 }
{
    if length == UNDEFINED {
        0
    } else {
        length as u64
    }
}

/// Returns whether the header of `size` bytes, with the bytes that its length counts, passes the
/// greatest size of a data set.
fn is_beyond(bounds: &Bounds, spot: &Spot, size: usize, header: &Header) -> bool
    requires offset { spot.now.offset < 2 ^ 49 }
    requires size { size ≤ 12 }
    ensures { result ≡ nat_lt bounds.now.bytes (spot.now.offset + size + rules.counted_length header.now.length) }
{
    bounds.bytes < spot.offset + size as u64 + counted_length(header.length)
}

/// Returns whether the header opens a level: that of a sequence or an item whose length is not 0.
fn opens(spot: &Spot, header: &Header, shape: Shape) -> bool
    requires { shape ≡ shapes.shape spot.now.syntax header.now }
    ensures { result ≡ rules.opens spot.now header.now }
{
    let nests = header.tag.is_marker() && !spot.syntax.has_fragments();
    (nests || is_sequence(shape)) && header.length != 0
}

/// Returns whether the header opens a level when the greatest number of levels is already open.
fn is_too_deep(bounds: &Bounds, spot: &Spot, header: &Header, shape: Shape) -> bool
    requires { shape ≡ shapes.shape spot.now.syntax header.now }
    ensures { result ≡ (rules.opens spot.now header.now && nat_le bounds.now.depth spot.now.depth) }
{
    opens(spot, header, shape) && bounds.depth <= spot.depth
}

/// Returns the first rule that a whole header of `size` bytes breaks by its length or by the
/// limits, with its tag. Its tag, its VR and its own size are checked before.
#[tactic(auto, unfolding(crate::specs::Rules::broken_header))]
pub fn broken_header(
    wanted: &Wanted,
    bounds: &Bounds,
    spot: &Spot,
    size: usize,
    header: &Header,
) -> Option<(Rule, Tag)>
    requires offset { spot.now.offset < 2 ^ 49 }
    requires size { size ≤ 12 }
    ensures { numbered result ≡ rules.broken_header (limits_by wanted.now.list.items bounds.now) spot.now size header.now }
{
    let tag = header.tag;
    let shape = shape_of(spot.syntax, header);
    if is_long_mark(header) {
        Some((Rule::DelimiterLength, tag))
    } else if is_forbidden(header, shape) {
        Some((Rule::UndefinedLength, tag))
    } else if is_endless(spot, header) {
        Some((Rule::UndefinedLength, tag))
    } else if is_odd(header) {
        Some((Rule::OddLength, tag))
    } else if is_overrun(spot, size, header) {
        Some((Rule::Overrun, tag))
    } else if is_beyond(bounds, spot, size, header) {
        Some((Rule::TooLong, tag))
    } else if is_too_long(wanted, bounds, spot, header, shape) {
        Some((Rule::KeptTooLong, tag))
    } else if is_too_deep(bounds, spot, header, shape) {
        Some((Rule::TooDeep, tag))
    } else {
        None
    }
}

fn at_tag(spot: &Spot, bytes: &[u8]) -> Option<(Rule, Tag)>
    ensures { numbered result ≡ broken_at_tag spot.now bytes.now }
{
    if 4 <= bytes.len() {
        broken_tag(spot, read_tag(bytes))
    } else {
        None
    }
}

fn at_vr(spot: &Spot, bytes: &[u8]) -> Option<(Rule, Tag)>
    ensures { numbered result ≡ broken_at_vr spot.now bytes.now }
{
    if 6 <= bytes.len() && !is_plain(spot.syntax.layout(), read_tag(bytes)) {
        broken_need(spot, need(spot.syntax.layout(), bytes), read_tag(bytes))
    } else {
        None
    }
}

fn at_end(wanted: &Wanted, bounds: &Bounds, spot: &Spot, bytes: &[u8]) -> Option<(Rule, Tag)>
    requires offset { spot.now.offset < 2 ^ 49 }
    requires size { length bytes.now ≤ 12 }
    ensures { numbered result ≡ broken_at_end (limits_by wanted.now.list.items bounds.now) spot.now bytes.now }
{
    if is_whole(spot.syntax.layout(), bytes) {
        broken_header(
            wanted,
            bounds,
            spot,
            bytes.len(),
            &read_header(spot.syntax.layout(), bytes),
        )
    } else {
        None
    }
}

/// Returns the first rule that these bytes break, with the tag of the fault. They are a whole
/// header, or its first bytes.
#[tactic(auto, unfolding(crate::specs::Rules::broken))]
pub fn broken(wanted: &Wanted, bounds: &Bounds, spot: &Spot, bytes: &[u8]) -> Option<(Rule, Tag)>
    requires offset { spot.now.offset < 2 ^ 49 }
    requires size { length bytes.now ≤ 12 }
    ensures { numbered result ≡ rules.broken (limits_by wanted.now.list.items bounds.now) spot.now bytes.now }
{
    if let Some(rule) = broken_due(spot) {
        return Some(rule);
    }
    if let Some(rule) = at_tag(spot, bytes) {
        return Some(rule);
    }
    if let Some(rule) = at_vr(spot, bytes) {
        return Some(rule);
    }
    at_end(wanted, bounds, spot, bytes)
}

/// Returns whether a whole header breaks no rule: the fast path. If the header passes the nearest
/// end, or its 8 bytes do not fit before it, then its value also passes that end, so one comparison
/// checks all three.
#[tactic(auto, using(crate::proofs::CodeIsMachine::FittingHeader::is_fitting))]
pub fn is_unbroken(wanted: &Wanted, bounds: &Bounds, spot: &Spot, front: &Front) -> bool
    requires offset { spot.now.offset < 2 ^ 49 }
    requires least { 8 ≤ front.now.size }
    requires size { front.now.size ≤ 12 }
    requires shape { front.now.shape ≡ shapes.shape spot.now.syntax front.now.header }
    ensures { IsTrue result → broken_whole (limits_by wanted.now.list.items bounds.now) spot.now front.now.size front.now.header ≡ None }
{
    let header = &front.header;
    let end = front.size as u64 + counted_length(header.length);
    broken_tag(spot, header.tag).is_none()
        && !passes(spot.near, end)
        && spot.offset + end <= bounds.bytes
        && !is_long_mark(header)
        && !is_forbidden(header, front.shape)
        && !is_endless(spot, header)
        && !is_odd(header)
        && !is_too_long(wanted, bounds, spot, header, front.shape)
        && !is_too_deep(bounds, spot, header, front.shape)
}
