//! Divides a stream of PDUs, received in chunks of any size, into events.
ghost use Rattle.std.specs.Prelude.{◌≡◌, ◌≤◌, ◌<◌, ◌-◌, ◌+◌, ◌*◌, ◌++◌, ◌⊎◌, [], ℕ, List, length, take, Option, None, Some, IfSome};
ghost use Rattle.pdu.specs.Deframing.{bytes_held};
ghost use Rattle.pdu.specs.machine.Positions.{remaining_least, remaining_of, fragment_due};

mod fields;

use crate::event::Event;
use crate::pdu_type::P_DATA_TF;
use crate::position::{Position, find};
use arrayvec::ArrayVec;

/// Divides a stream of PDUs into events (PS3.8 section 9.3). It allocates nothing: bytes of bodies
/// and fragments are returned as slices of the received chunks, and only an unfinished head, at
/// most five bytes, is held.
#[derive(Drop)]
pub struct Deframer {
    position: Position,
    ghost short: { bytes_held position < 6 },
    ghost some: { 0 < remaining_least position },
    ghost within: { fragment_due position ≤ remaining_of position },
}

impl Deframer {
    ghost use Rattle.pdu.specs.Marks.{Mark};
    ghost use Rattle.pdu.specs.Frames.{IsRest};
    ghost use Rattle.pdu.specs.Deframing.{Consumed, Longest, Skipped, Skip, unfinished_heads};
    ghost use Rattle.pdu.specs.Deframed.{IsAt, Skips, position_of};
    ghost use Rattle.pdu.specs.Steps.{Steps, body_kind, bytes_due, events_due, skip_of};

    /// Creates a deframer at the start of a stream.
    pub fn new() -> Self
        ensures { IsAt result [] [] }
    {
        Deframer {
            position: Position::Head(ArrayVec::new()),
        }
    }

    /// Reads the first bytes of `piece`. Returns their number and the next event, or `None` if all
    /// of `piece` is read and completes nothing. Some events read no byte, so call this until it
    /// returns `None`.
    pub fn next<'p>(&mut self, piece: &'p [u8]) -> (usize, Option<Event<'p>>)
        ensures within { result.0 ≤ length piece.now }
        ensures used_up { result.1 ≡ None → result.0 ≡ length piece.now }
        ensures consumes { (r : List ℕ) (due : List Mark) → IsAt self.old r due → Consumed (position_of self.new) r due (take result.0 piece.now) result.1 }
        ensures longest { (r : List ℕ) → IsAt self.old r [] → Longest r (length piece.now) result.0 }
        ensures skipped { (r : List ℕ) → Skips self.old r → Skipped (position_of self.new) r (take result.0 piece.now) result.1 }
        ensures steps { Steps (position_of self.old) result.0 (take result.0 piece.now) result.1 (position_of self.new) }
        ensures fewer { IfSome result.1 (λ e. events_due (position_of self.new) < events_due (position_of self.old) + 4 * result.0) }
    {
        match find(&mut self.position, piece) {
            (count, Some((position, event))) => {
                self.position = position;
                (count, Some(event))
            }
            (count, None) => (count, None),
        }
    }

    /// Skips the rest of the PDU whose head was the last `PduHead` event: `PduEnd` is the next
    /// event. Does nothing between PDUs.
    pub fn skip_frame(&mut self)
        ensures skip { (r : List ℕ) (due : List Mark) → IsAt self.old r due → Skip (position_of self.new) r due }
        ensures skips { (r : List ℕ) → Skips self.old r → Skips self.new r }
        ensures fewer { events_due (position_of self.new) ≤ events_due (position_of self.old) }
        ensures moves { position_of self.new ≡ skip_of (position_of self.old) }
    {
        // One arm for each position, as the proof treats each by itself.
        let (kind, remaining) = match &self.position {
            Position::Head(_) => return,
            Position::Body { kind, remaining } => (*kind, *remaining),
            Position::PdvHead { remaining, .. } => (P_DATA_TF, *remaining),
            Position::Fragment { remaining, .. } => (P_DATA_TF, *remaining),
            Position::Leftover { remaining } => (P_DATA_TF, *remaining),
            Position::Skipped { kind, remaining } => (*kind, *remaining),
        };
        self.position = Position::Skipped { kind, remaining };
    }

    /// Returns the type of the PDU whose body is being reported as `Event::Body`, or 0 outside such
    /// a body.
    pub fn kind(&self) -> u8
        ensures { result ≡ body_kind (position_of self.now) }
    {
        if let Position::Body { kind, .. } = &self.position {
            *kind
        } else {
            0
        }
    }

    /// Returns the number of bytes missing from the unfinished part of the stream: a head, a body,
    /// a fragment, or a skipped PDU. It is 0 if `next` returns an event before it reads a byte.
    pub fn due(&self) -> usize
        ensures { result ≡ bytes_due (position_of self.now) }
    {
        match &self.position {
            Position::Head(bytes) => 6 - bytes.len(),
            Position::Body { remaining, .. } => *remaining as usize,
            Position::PdvHead { remaining, bytes } => (*remaining as usize).min(6 - bytes.len()),
            Position::Fragment { more, .. } => *more as usize,
            Position::Leftover { .. } => 0,
            Position::Skipped { remaining, .. } => *remaining as usize,
        }
    }

    /// Returns the number of received bytes that are held: those of an unfinished head, at most
    /// five.
    pub fn held(&self) -> usize
        ensures held { (r : List ℕ) (due : List Mark) → IsAt self.now r due → result ≡ unfinished_heads r }
        ensures skipping { (r : List ℕ) → Skips self.now r → result ≡ 0 }
        ensures few { result < 6 }
        ensures bytes { result ≡ bytes_held (position_of self.now) }
    {
        match &self.position {
            Position::Head(bytes) => bytes.len(),
            Position::PdvHead { bytes, .. } => bytes.len(),
            _ => 0,
        }
    }
}
