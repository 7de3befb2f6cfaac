//! The position of a deframer in its stream of PDUs, and the event that the next bytes complete.
ghost use Rattle.std.specs.Prelude.{◌≡◌, ◌≤◌, ◌<◌, ◌-◌, ◌+◌, ◌*◌, ◌++◌, ◌⊎◌, min, [], ℕ, List, length, take, Option, None, Some, IfSome, MatchOption, true, false};
ghost use Rattle.arrayvec.specs.ArrayVec.{array_vec_len};
ghost use Rattle.pdu.specs.declared.event.Event.TheVariants as event;
ghost use Rattle.pdu.specs.declared.position.Position.TheVariants as position;
ghost use Rattle.pdu.specs.Heads.{pdu_head_of, pdv_head_of};
ghost use Rattle.pdu.specs.Marks as spelling;
ghost use Rattle.pdu.specs.Marks.{Mark};
ghost use Rattle.pdu.specs.Deframing.{At, AtHead, AtBody, AtPdvHead, AtFragment, IsOver, SkipsAt, Longest};
ghost use Rattle.pdu.specs.machine.Positions.{IsSound};
ghost use Rattle.pdu.specs.machine.Finds.{Finds, FindsEnd, StepsTo};
ghost use Rattle.pdu.specs.Steps.{FollowsHead, FollowsPdv, FollowsPdvHead, events_due};

use crate::event::Event;
use crate::head::{PduHead, PdvHead, read_pdu_head, read_pdv_head};
use crate::pdu_type::P_DATA_TF;
use arrayvec::ArrayVec;

/// The position of a deframer in its stream of PDUs. If a count is 0, the PDU or fragment is
/// complete, and the event of its end is next.
#[derive(Drop)]
pub(crate) enum Position {
    /// In the head of a PDU, with the none to five bytes of it that were received.
    Head(ArrayVec<u8, 6>),
    /// In the body of a PDU other than P-DATA-TF, or in the rest of a P-DATA-TF after an invalid
    /// presentation data value or leftover bytes. `remaining` bytes of the PDU are missing.
    Body {
        kind: u8,
        remaining: u32,
    },
    /// In the head of a presentation data value, with the bytes of it that were received. `remaining`
    /// bytes of the P-DATA-TF are missing.
    PdvHead {
        remaining: u32,
        bytes: ArrayVec<u8, 6>,
    },
    /// In a fragment, of which `more` bytes are missing; `remaining` bytes of the P-DATA-TF are missing.
    Fragment {
        remaining: u32,
        more: u32,
    },
    /// After a presentation data value, when one to five bytes of the P-DATA-TF are missing and the
    /// event `Leftover` is next.
    Leftover {
        remaining: u32,
    },
    /// In a PDU that is skipped, of which `remaining` bytes are missing.
    Skipped {
        kind: u8,
        remaining: u32,
    },
}

/// Appends the first bytes of `piece` to an unfinished head, at most `most` and up to six in all.
/// Returns the number of bytes appended.
fn fill(bytes: &mut ArrayVec<u8, 6>, most: usize, piece: &[u8]) -> usize
    requires short { array_vec_len bytes.old < 6 }
    ensures within { result ≤ length piece.now }
    ensures fits { result ≤ most }
    ensures room { array_vec_len bytes.new ≡ array_vec_len bytes.old + result }
    ensures all { (result ≡ length piece.now) ⊎ ((result ≡ most) ⊎ (array_vec_len bytes.new ≡ 6)) }
    ensures fills { bytes.new.items ≡ bytes.old.items ++ take result piece.now }
{
    let count = piece.len().min(6 - bytes.len()).min(most);
    bytes.try_extend_from_slice(&piece[..count]).unwrap();
    count
}

/// Reads the head of a PDU. Returns `None` if it has fewer than six bytes.
fn pdu_head(bytes: &ArrayVec<u8, 6>) -> Option<PduHead>
    ensures { MatchOption result (array_vec_len bytes.now < 6) (λ head. (array_vec_len bytes.now ≡ 6) × (head ≡ pdu_head_of bytes.now.items)) }
{
    match bytes.first_chunk::<6>() {
        Some(six) => Some(read_pdu_head(six)),
        None => None,
    }
}

/// Reads the head of a presentation data value. Returns `None` if it has fewer than six bytes.
fn pdv_head(bytes: &ArrayVec<u8, 6>) -> Option<PdvHead>
    ensures { MatchOption result (array_vec_len bytes.now < 6) (λ head. (array_vec_len bytes.now ≡ 6) × (head ≡ pdv_head_of bytes.now.items)) }
{
    match bytes.first_chunk::<6>() {
        Some(six) => Some(read_pdv_head(six)),
        None => None,
    }
}

/// Returns the position after the head of a PDU.
fn after_head(head: PduHead) -> Position
    ensures values { head.kind ≡ 4 → 0 < head.length → (r : List ℕ) (due : List Mark) → AtPdvHead head.length [] r due → At result r due }
    ensures other { (head.kind ≡ 4 → head.length ≡ 0) → result ≡ position.Body head.kind head.length }
    ensures sound { IsSound result }
    ensures follows { FollowsHead head result }
{
    if head.kind == P_DATA_TF && head.length > 0 {
        return Position::PdvHead {
            remaining: head.length,
            bytes: ArrayVec::new(),
        };
    }
    Position::Body {
        kind: head.kind,
        remaining: head.length,
    }
}

/// Returns the position after a presentation data value, when `remaining` bytes of its PDU are missing.
fn after_pdv(remaining: u32) -> Position
    ensures over { remaining ≡ 0 → result ≡ position.Body 4 0 }
    ensures leftover { spelling.is_leftover remaining ≡ true → result ≡ position.Leftover remaining }
    ensures another { 0 < remaining → spelling.is_leftover remaining ≡ false → (r : List ℕ) (due : List Mark) → AtPdvHead remaining [] r due → At result r due }
    ensures sound { IsSound result }
    ensures follows { FollowsPdv result }
    ensures few { events_due result ≤ 2 }
{
    match remaining {
        0 => Position::Body {
            kind: P_DATA_TF,
            remaining,
        },
        1..=5 => Position::Leftover { remaining },
        _ => Position::PdvHead {
            remaining,
            bytes: ArrayVec::new(),
        },
    }
}

/// Returns the position after the head of a presentation data value, and the event of the head,
/// valid or not, when `remaining` bytes of its PDU are missing.
fn after_pdv_head<'p>(head: PdvHead, remaining: u32) -> (Position, Event<'p>)
    ensures bad { (head.length < 2) ⊎ (remaining + 2 < head.length) → result ≡ (position.Body 4 remaining, event.BadPdv) }
    ensures good { 2 ≤ head.length → head.length ≤ remaining + 2 → result ≡ (position.Fragment remaining (head.length - 2), event.PdvHead head) }
    ensures sound { IsSound result.0 }
    ensures follows { FollowsPdvHead head remaining result.1 result.0 }
{
    if head.length < 2 || head.length - 2 > remaining {
        let kind = P_DATA_TF;
        return (Position::Body { kind, remaining }, Event::BadPdv);
    }
    let more = head.length - 2;
    (Position::Fragment { remaining, more }, Event::PdvHead(head))
}

/// Reads bytes of the head of a PDU. Returns their number and, if they complete the head, the new
/// position and the event.
fn take_head<'p>(
    bytes: &mut ArrayVec<u8, 6>,
    piece: &'p [u8],
) -> (usize, Option<(Position, Event<'p>)>)
    requires short { array_vec_len bytes.old < 6 }
    ensures within { result.0 ≤ length piece.now }
    ensures used_up { result.1 ≡ None → result.0 ≡ length piece.now }
    ensures short { result.1 ≡ None → array_vec_len bytes.new < 6 }
    ensures sound { IfSome result.1 (λ found. IsSound found.0) }
    ensures finds { (r : List ℕ) (due : List Mark) → AtHead bytes.old.items r due → Finds (position.Head bytes.new) r due (take result.0 piece.now) result.1 }
    ensures steps { StepsTo (position.Head bytes.old) (position.Head bytes.new) result.0 (take result.0 piece.now) result.1 }
    ensures fewer { IfSome result.1 (λ found. events_due found.0 < events_due (position.Head bytes.old) + 4 * result.0) }
{
    let count = fill(bytes, 6, piece);
    match pdu_head(bytes) {
        Some(head) => (count, Some((after_head(head), Event::PduHead(head)))),
        None => (count, None),
    }
}

/// Reads bytes of the head of a presentation data value. Returns their number and, if they complete
/// the head or the PDU ends inside it, the new position and the event.
fn take_pdv_head<'p>(
    remaining: &mut u32,
    bytes: &mut ArrayVec<u8, 6>,
    piece: &'p [u8],
) -> (usize, Option<(Position, Event<'p>)>)
    requires short { array_vec_len bytes.old < 6 }
    requires some { 0 < remaining.old }
    ensures within { result.0 ≤ length piece.now }
    ensures used_up { result.1 ≡ None → result.0 ≡ length piece.now }
    ensures short { result.1 ≡ None → array_vec_len bytes.new < 6 }
    ensures some { result.1 ≡ None → 0 < remaining.new }
    ensures sound { IfSome result.1 (λ found. IsSound found.0) }
    ensures finds { (r : List ℕ) (due : List Mark) → AtPdvHead remaining.old bytes.old.items r due → Finds (position.PdvHead remaining.new bytes.new) r due (take result.0 piece.now) result.1 }
    ensures steps { StepsTo (position.PdvHead remaining.old bytes.old) (position.PdvHead remaining.new bytes.new) result.0 (take result.0 piece.now) result.1 }
    ensures fewer { IfSome result.1 (λ found. events_due found.0 < events_due (position.PdvHead remaining.old bytes.old) + 4 * result.0) }
{
    let count = fill(bytes, *remaining as usize, piece);
    let rest = *remaining - count as u32;
    *remaining = rest;
    if let Some(head) = pdv_head(bytes) {
        return (count, Some(after_pdv_head(head, rest)));
    }
    if rest == 0 {
        return (
            count,
            Some((Position::Head(ArrayVec::new()), Event::PduEnd(P_DATA_TF))),
        );
    }
    (count, None)
}

/// Reads bytes of a body. Returns their number, the new position and the event: the bytes, or the
/// end of the PDU if `remaining` is 0. Otherwise an empty `piece` has no event.
fn take_body<'p>(
    kind: u8,
    remaining: u32,
    piece: &'p [u8],
) -> (usize, Option<(Position, Event<'p>)>)
    ensures within { result.0 ≤ length piece.now }
    ensures used_up { result.1 ≡ None → result.0 ≡ length piece.now }
    ensures sound { IfSome result.1 (λ found. IsSound found.0) }
    ensures longest { result.0 ≡ min (length piece.now) remaining }
    ensures finds { (r : List ℕ) (due : List Mark) → AtBody kind remaining r due → Finds (position.Body kind remaining) r due (take result.0 piece.now) result.1 }
    ensures steps { StepsTo (position.Body kind remaining) (position.Body kind remaining) result.0 (take result.0 piece.now) result.1 }
    ensures fewer { IfSome result.1 (λ found. events_due found.0 < events_due (position.Body kind remaining) + 4 * result.0) }
{
    if remaining == 0 {
        return (
            0,
            Some((Position::Head(ArrayVec::new()), Event::PduEnd(kind))),
        );
    }
    if piece.is_empty() {
        return (0, None);
    }
    let count = piece.len().min(remaining as usize);
    let remaining = remaining - count as u32;
    (
        count,
        Some((
            Position::Body { kind, remaining },
            Event::Body(&piece[..count]),
        )),
    )
}

/// Reads bytes of a fragment. Returns their number, the new position and the event: the bytes, or
/// the end of the presentation data value if `more` is 0. Otherwise an empty `piece` has no event.
fn take_fragment<'p>(
    remaining: u32,
    more: u32,
    piece: &'p [u8],
) -> (usize, Option<(Position, Event<'p>)>)
    requires fits { more ≤ remaining }
    ensures within { result.0 ≤ length piece.now }
    ensures used_up { result.1 ≡ None → result.0 ≡ length piece.now }
    ensures sound { IfSome result.1 (λ found. IsSound found.0) }
    ensures longest { result.0 ≡ min (length piece.now) more }
    ensures finds { (r : List ℕ) (due : List Mark) → AtFragment remaining more r due → Finds (position.Fragment remaining more) r due (take result.0 piece.now) result.1 }
    ensures steps { StepsTo (position.Fragment remaining more) (position.Fragment remaining more) result.0 (take result.0 piece.now) result.1 }
    ensures fewer { IfSome result.1 (λ found. events_due found.0 < events_due (position.Fragment remaining more) + 4 * result.0) }
{
    if more == 0 {
        return (0, Some((after_pdv(remaining), Event::PdvEnd)));
    }
    if piece.is_empty() {
        return (0, None);
    }
    let count = piece.len().min(more as usize);
    let remaining = remaining - count as u32;
    let more = more - count as u32;
    (
        count,
        Some((
            Position::Fragment { remaining, more },
            Event::Fragment(&piece[..count]),
        )),
    )
}

/// Reads bytes of a skipped PDU. Returns their number and, after the last byte, the new position
/// and the event of the PDU's end.
fn take_skipped<'p>(
    kind: u8,
    remaining: &mut u32,
    piece: &'p [u8],
) -> (usize, Option<(Position, Event<'p>)>)
    ensures within { result.0 ≤ length piece.now }
    ensures used_up { result.1 ≡ None → result.0 ≡ length piece.now }
    ensures sound { IfSome result.1 (λ found. IsSound found.0) }
    ensures counts { remaining.new + result.0 ≡ remaining.old }
    ensures finds { (r : List ℕ) (due : List Mark) → IsOver kind remaining.old r due → Finds (position.Skipped kind remaining.new) r due (take result.0 piece.now) result.1 }
    ensures steps { StepsTo (position.Skipped kind remaining.old) (position.Skipped kind remaining.new) result.0 (take result.0 piece.now) result.1 }
    ensures fewer { IfSome result.1 (λ found. events_due found.0 < events_due (position.Skipped kind remaining.old) + 4 * result.0) }
    ensures continues { 0 < remaining.new → result.1 ≡ None }
    ensures ends { remaining.new ≡ 0 → IfSome result.1 (λ found. (found.1 ≡ event.PduEnd kind) × At found.0 [] []) }
    ensures reported { remaining.new ≡ 0 → result.1 ≡ None → ⊥ }
{
    let count = piece.len().min(*remaining as usize);
    let rest = *remaining - count as u32;
    *remaining = rest;
    if rest == 0 {
        return (
            count,
            Some((Position::Head(ArrayVec::new()), Event::PduEnd(kind))),
        );
    }
    (count, None)
}

/// Reads the first bytes of `piece`. Returns their number, and the next event with the position
/// after it. Without an event, `cursor` is updated to the new position instead.
#[tactic(auto, using(crate::proofs::CallFollowsTheMarks::leftover_reported, crate::proofs::CallConsumesTheLongest::longest_head, crate::proofs::CallConsumesTheLongest::longest_body, crate::proofs::CallConsumesTheLongest::longest_pdv_head, crate::proofs::CallConsumesTheLongest::longest_fragment, crate::proofs::CallConsumesTheLongest::longest_leftover, crate::proofs::CallConsumesTheLongest::longest_over))]
pub(crate) fn find<'p>(
    cursor: &mut Position,
    piece: &'p [u8],
) -> (usize, Option<(Position, Event<'p>)>)
    requires sound { IsSound cursor.old }
    ensures within { result.0 ≤ length piece.now }
    ensures used_up { result.1 ≡ None → result.0 ≡ length piece.now }
    ensures sound { IfSome result.1 (λ found. IsSound found.0) }
    ensures still_sound { result.1 ≡ None → IsSound cursor.new }
    ensures finds { (r : List ℕ) (due : List Mark) → At cursor.old r due → Finds cursor.new r due (take result.0 piece.now) result.1 }
    ensures longest { (r : List ℕ) → At cursor.old r [] → Longest r (length piece.now) result.0 }
    ensures skipped { (r : List ℕ) → SkipsAt cursor.old r → FindsEnd cursor.new r (take result.0 piece.now) result.1 }
    ensures steps { StepsTo cursor.old cursor.new result.0 (take result.0 piece.now) result.1 }
    ensures fewer { IfSome result.1 (λ found. events_due found.0 < events_due cursor.old + 4 * result.0) }
{
    match cursor {
        Position::Head(bytes) => take_head(bytes, piece),
        Position::Body { kind, remaining } => take_body(*kind, *remaining, piece),
        Position::PdvHead { remaining, bytes } => take_pdv_head(remaining, bytes, piece),
        Position::Fragment { remaining, more } => take_fragment(*remaining, *more, piece),
        Position::Leftover { remaining } => {
            let kind = P_DATA_TF;
            let remaining = *remaining;
            (
                0,
                Some((Position::Body { kind, remaining }, Event::Leftover)),
            )
        }
        Position::Skipped { kind, remaining } => take_skipped(*kind, remaining, piece),
    }
}
