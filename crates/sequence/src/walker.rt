//! Reads a data set in chunks of any size.
ghost use Rattle.std.specs.Prelude.{◌≡◌, ℕ, ◌<◌, ◌≤◌, ◌^◌, ◌+◌, ◌-◌, ◌&&◌, ◌++◌, ◌∷◌, [], None, Some, length, take, IsTrue, IfSome, nat_eq, true, false, if◌then◌else◌};
ghost use Rattle.arrayvec.specs.ArrayVec.{array_vec_len};
ghost use Rattle.sequence.specs.machine.Spare.{owed, spare, head_room, due_of, due_kept, is_wanted_in};
ghost use Rattle.sequence.specs.Fields.{is_kept};
ghost use Rattle.sequence.specs.Stored.{wants_of, values_of};
ghost use Rattle.sequence.specs.machine.Stored.{remaining_of_keep};
ghost use Rattle.sequence.specs.Wanted.{is_wanted, room_of};
ghost use Rattle.sequence.specs.Open.{in_header};
ghost use Rattle.sequence.specs.machine.Scopes.{top_of, below_of};
ghost use Rattle.sequence.specs.machine.Heading.{is_started};
ghost use Rattle.sequence.specs.FirstFault.{tag_of_tail};
ghost use Rattle.sequence.specs.Coding.{has_fragments};

use crate::answering::{header_step, value_step};
use crate::broken::{broken_due, same_tag};
use crate::coding::Coding;
use crate::fault::Fault;
use crate::heading::{End, header_end};
use crate::keep::Keep;
use crate::level::{Level, Scope};
use crate::levels::{item_scope, leave_ended, sequence_scope, set_last, spot_at, top_scope};
use crate::shape::Shape;
use crate::spot::Bounds;
use crate::stage::{Stage, stage_at};
use crate::step::Step;
use crate::wanted::Wanted;
use arrayvec::ArrayVec;
use element::{Header, Rule, Syntax, Tag, read_tag};

mod fields;
mod reported;

/// Starts to keep the value of this tag if it is wanted and no level is open. Returns whether it is
/// kept.
fn begin_kept<const V: usize, const D: usize>(
    kept: &mut Keep<V>,
    levels: &ArrayVec<Level, D>,
    tag: u32,
) -> bool
    requires { array_vec_len levels.now ≡ 0 → kept.old.last < tag }
    ensures wanted { result ≡ (nat_eq (length levels.now.items) 0 && is_wanted (wants_of kept.old) tag) }
    ensures remaining { (room : ℕ) → result ≡ true → room_of (wants_of kept.old) tag ≡ Some room → remaining_of_keep kept.new ≡ room }
    ensures values { values_of kept.new ≡ (if (nat_eq (length levels.now.items) 0 && is_wanted (wants_of kept.old) tag) then values_of kept.old ++ (tag, []) ∷ [] else values_of kept.old) }
    ensures wants { wants_of kept.new ≡ wants_of kept.old }
    ensures last { array_vec_len levels.now ≡ 0 → kept.new.last ≤ tag }
    ensures same { 0 < array_vec_len levels.now → kept.new ≡ kept.old }
{
    if levels.is_empty() {
        kept.begin(tag)
    } else {
        false
    }
}

/// Returns the tag at the front of an unfinished header, or (0000,0000) if it has fewer than four
/// bytes.
fn started_tag(header: &[u8]) -> Tag
    ensures { result ≡ tag_of_tail (in_header header.now) }
{
    if 4 <= header.len() {
        read_tag(header)
    } else {
        Tag(0, 0)
    }
}

/// Returns the first bytes of `piece`, at most `most`.
fn front(piece: &[u8], most: u32) -> &[u8]
    ensures { result.now ≡ take most piece.now }
{
    if piece.len() <= most as usize {
        piece
    } else {
        &piece[..most as usize]
    }
}

/// Reads one data set in chunks of any size: its headers, values, sequences and items, up to the
/// first rule that it breaks. Holds an unfinished header and the wanted values (at most `V` bytes
/// together), and 16 bytes for each open sequence or item (at most `D`).
#[derive(Drop)]
pub struct Walker<const V: usize, const D: usize> {
    root: Scope,
    limit: u64,
    offset: u64,
    header: ArrayVec<u8, 12>,
    kept: Keep<V>,
    levels: ArrayVec<Level, D>,
    stage: Stage,
    ghost greatest_v: { V ≤ 2 ^ 24 },
    ghost greatest_d: { D ≤ 2 ^ 24 },
    ghost no_end: { root.stop ≡ None },
    ghost elements: { has_fragments root.syntax ≡ false },
    ghost few: { array_vec_len header ≤ head_room stage },
    ghost together: { array_vec_len header + array_vec_len kept.bytes ≤ V },
    ghost started: { is_started (record { wanted = wants_of kept; depth = D; bytes = limit }) (top_of root levels.items) (below_of root [] levels.items) offset header.items ≡ true },
    ghost behind: { array_vec_len header ≤ offset },
    ghost due: { 0 < due_of stage },
    ghost small: { limit ≤ 2 ^ 48 },
    ghost within: { offset + owed stage ≤ limit + spare stage (array_vec_len header) },
    ghost flag: { is_kept stage ≡ is_wanted_in (wants_of kept) levels.items stage },
    ghost room: { due_kept stage ≤ remaining_of_keep kept },
    ghost order: { kept.last ≤ root.last },
}

impl<const V: usize, const D: usize> Walker<V, D> {
    ghost use Rattle.std.specs.Prelude.{◌++◌, take, List, ◌≡◌, ℕ, ◌<◌, ◌≤◌, ◌^◌, ◌+◌, ◌-◌, [], None, Some, length, IsTrue, IfSome, IsOk, IfErr, true, false, nat_eq, ◌&&◌, option_map};
    ghost use Rattle.element.specs.Header.{number, is_marker};
    ghost use Rattle.sequence.specs.machine.Machine.{arrive, begin_level, begin_value, leave, take_item, take_header, run};
    ghost use Rattle.sequence.specs.machine.Keeping.{wanted_at, with_value, keep_header, keeps};
    ghost use Rattle.sequence.specs.Rules.{counted_length};
    ghost use Rattle.sequence.specs.Shape as shapes;
    ghost use Rattle.sequence.specs.Wanted.{room_of, rooms, value_of};
    ghost use Rattle.sequence.specs.Stored.{wanted_tags};
    ghost use Rattle.sequence.specs.Coding.{coding_of, has_fragments};
    ghost use Rattle.sequence.specs.declared.coding.Coding.TheVariants as codings;
    ghost use Rattle.sequence.specs.declared.fault.Fault.{Fault};
    ghost use Rattle.sequence.specs.machine.State.{state_of, kept_values, top, below, IsSameWalk, has_room, fits_wanted};
    ghost use Rattle.sequence.specs.Consumed.{limits_of, walker_syntax, fault_of, StandsAt};
    ghost use Rattle.sequence.specs.Ending.{IsWholeDataSet, Fails};
    ghost use Rattle.sequence.specs.Answering.{Answers};
    ghost use Rattle.sequence.specs.Pieces.{ConsumesMost};
    ghost use Rattle.sequence.specs.machine.Steps.{IsConsumed};

    /// Removes the levels that end here, and checks that a header fits before the nearest end.
    fn arrive(&mut self)
        requires offset { self.old.offset ≤ self.old.limit }
        requires header { self.old.header.items ≡ [] }
        requires stage { self.old.stage ≡ Stage.Heading }
        ensures state { state_of self.new ≡ arrive self.old.offset (top self.old) (below self.old) }
        ensures same { IsSameWalk self.old self.new }
        ensures values { kept_values self.new ≡ kept_values self.old }
    {
        leave_ended(&mut self.levels, self.offset);
        let spot = spot_at(self.root, self.levels.as_slice(), self.offset);
        self.stage = stage_at(broken_due(&spot), self.offset);
    }

    /// Opens the level of a sequence or an item after its header, unless its length is 0.
    fn begin_level(&mut self, scope: Scope, length: u32)
        requires offset { self.old.offset ≤ self.old.limit }
        requires header { self.old.header.items ≡ [] }
        requires stage { self.old.stage ≡ Stage.Heading }
        requires room { 0 < length → array_vec_len self.old.levels < D }
        requires stop { IfSome scope.stop (λ end. end < 2 ^ 64 - 1) }
        ensures state { state_of self.new ≡ begin_level self.old.offset scope (top self.old) (below self.old) length }
        ensures same { IsSameWalk self.old self.new }
        ensures values { kept_values self.new ≡ kept_values self.old }
    {
        if length == 0 {
            self.arrive();
        } else {
            self.levels.push(Level::new(scope));
            self.arrive();
        }
    }

    /// Starts a value after its header. A value of length 0 is complete at once.
    fn begin_value(&mut self, tag: Tag, length: u32)
        requires offset { self.old.offset + length ≤ self.old.limit }
        requires header { self.old.header.items ≡ [] }
        requires stage { self.old.stage ≡ Stage.Heading }
        requires order { array_vec_len self.old.levels ≡ 0 → self.old.kept.last < number tag }
        requires last { array_vec_len self.old.levels ≡ 0 → number tag ≤ self.old.root.last }
        requires fit { (room : ℕ) → array_vec_len self.old.levels ≡ 0 → room_of (wants_of self.old.kept) (number tag) ≡ Some room → length ≤ room }
        ensures state { state_of self.new ≡ begin_value self.old.offset (top self.old) (below self.old) tag length }
        ensures same { IsSameWalk self.old self.new }
        ensures values { kept_values self.new ≡ with_value (limits_of self.old) (below self.old) (number tag) [] (kept_values self.old) }
    {
        let kept = begin_kept(&mut self.kept, &self.levels, tag.number());
        if length == 0 {
            self.arrive();
        } else {
            self.stage = Stage::Value {
                tag,
                remaining: length,
                kept,
            };
        }
    }

    /// Closes the innermost level after its delimitation.
    fn leave(&mut self)
        requires offset { self.old.offset ≤ self.old.limit }
        requires header { self.old.header.items ≡ [] }
        requires stage { self.old.stage ≡ Stage.Heading }
        ensures state { state_of self.new ≡ leave self.old.offset (top self.old) (below self.old) }
        ensures same { IsSameWalk self.old self.new }
        ensures values { kept_values self.new ≡ kept_values self.old }
    {
        self.levels.pop();
        self.arrive();
    }

    /// Continues after the header of an item, with its elements, or of a fragment, with its bytes.
    fn take_item(&mut self, header: &Header, coding: Coding)
        requires coding { coding ≡ (top self.old).syntax }
        requires header { self.old.header.items ≡ [] }
        requires stage { self.old.stage ≡ Stage.Heading }
        requires offset { self.old.offset + counted_length header.now.length ≤ self.old.limit }
        requires marker { is_marker header.now.tag ≡ true }
        requires defined { has_fragments coding ≡ true → shapes.is_undefined header.now.length ≡ false }
        requires room { IsTrue (has_room D (array_vec_len self.old.levels) coding header.now) }
        ensures state { state_of self.new ≡ take_item self.old.offset (top self.old) (below self.old) header.now }
        ensures same { IsSameWalk self.old self.new }
        ensures values { kept_values self.new ≡ kept_values self.old }
    {
        if coding.has_fragments() {
            self.begin_value(header.tag, header.length);
        } else {
            self.begin_level(
                item_scope(coding, self.offset, header.length),
                header.length,
            );
        }
    }

    /// Continues after a whole header with what follows it, `shape`.
    fn take_header(&mut self, header: &Header, shape: Shape)
        requires shape { shape ≡ shapes.shape (top self.old).syntax header.now }
        requires header { self.old.header.items ≡ [] }
        requires stage { self.old.stage ≡ Stage.Heading }
        requires offset { self.old.offset + counted_length header.now.length ≤ self.old.limit }
        requires room { IsTrue (has_room D (array_vec_len self.old.levels) (top self.old).syntax header.now) }
        requires fit { IsTrue (fits_wanted (wants_of self.old.kept) (array_vec_len self.old.levels) (top self.old).syntax header.now) }
        requires rising { is_marker header.now.tag ≡ false → (top self.old).last < number header.now.tag }
        requires defined { is_marker header.now.tag ≡ true → has_fragments (top self.old).syntax ≡ true → shapes.is_undefined header.now.length ≡ false }
        ensures state { state_of self.new ≡ take_header self.old.offset (top self.old) (below self.old) header.now }
        ensures same { IsSameWalk self.old self.new }
        ensures values { kept_values self.new ≡ keep_header (limits_of self.old) (top self.old) (below self.old) header.now (kept_values self.old) }
    {
        let top = top_scope(self.root, self.levels.as_slice());
        if header.tag.is_marker() {
            if same_tag(header.tag, Tag::ITEM) {
                self.take_item(header, top.syntax);
            } else {
                self.leave();
            }
        } else {
            match shape {
                Shape::Value => {
                    set_last(&mut self.root, &mut self.levels, header.tag);
                    self.begin_value(header.tag, header.length);
                }
                Shape::Sequence(inner) => {
                    set_last(&mut self.root, &mut self.levels, header.tag);
                    self.begin_level(
                        sequence_scope(inner, self.offset, header.length),
                        header.length,
                    );
                }
                Shape::NotAllowed => self.arrive(),
            }
        }
    }

    /// Reads bytes of a header up to its end or a fault. Returns their number, and the header if it
    /// is whole.
    fn advance_heading(&mut self, piece: &[u8]) -> (usize, Option<Header>)
        requires { self.old.stage ≡ Stage.Heading }
        ensures consumed { result.0 ≤ length piece.now }
        ensures some { 0 < length piece.now → 0 < result.0 }
        ensures state { state_of self.new ≡ run (limits_of self.old) (state_of self.old) (take result.0 piece.now) }
        ensures same { IsSameWalk self.old self.new }
        ensures values { kept_values self.new ≡ keeps (limits_of self.old) (state_of self.old) (kept_values self.old) (take result.0 piece.now) }
        ensures offset { self.new.offset ≡ self.old.offset + result.0 }
        ensures reported { IsConsumed (top self.old).syntax self.old.header.items piece.now self.old.offset result.0 self.new.stage self.new.header.items result.1 }
    {
        if piece.is_empty() {
            return (0, None);
        }
        let started = self.header.len();
        let start = self.offset - started as u64;
        let spot = spot_at(self.root, self.levels.as_slice(), start);
        let bounds = Bounds {
            depth: D,
            bytes: self.limit,
        };
        match header_end(self.kept.wanted(), &bounds, &spot, &mut self.header, piece) {
            End::Refused(count, rule, tag) => {
                self.offset = start + count as u64;
                self.stage = Stage::Stopped(Fault::new(rule, start, tag));
                (count - started, None)
            }
            End::Whole(count, header, shape) => {
                self.offset = start + count as u64;
                self.take_header(&header, shape);
                (count - started, Some(header))
            }
            End::Part => {
                self.offset += piece.len() as u64;
                (piece.len(), None)
            }
        }
    }

    /// Reads bytes of a value, at most the `remaining` that are still missing.
    fn advance_value(&mut self, bytes: &[u8], tag: Tag, remaining: u32, kept: bool)
        requires stage { self.old.stage ≡ Stage.Value tag remaining kept }
        requires some { 0 < length bytes.now }
        requires within { length bytes.now ≤ remaining }
        ensures state { state_of self.new ≡ run (limits_of self.old) (state_of self.old) bytes.now }
        ensures same { IsSameWalk self.old self.new }
        ensures values { kept_values self.new ≡ keeps (limits_of self.old) (state_of self.old) (kept_values self.old) bytes.now }
        ensures offset { self.new.offset ≡ self.old.offset + length bytes.now }
    {
        let rest = remaining - bytes.len() as u32;
        self.offset += bytes.len() as u64;
        // Both branches start alike, as the proof treats each by itself.
        if rest == 0 {
            self.stage = Stage::Heading;
            self.kept.extend_if(kept, bytes);
            self.arrive();
        } else {
            self.stage = Stage::Heading;
            self.kept.extend_if(kept, bytes);
            self.stage = Stage::Value {
                tag,
                remaining: rest,
                kept,
            };
        }
    }

    /// Creates a walker for a data set of this encoding.
    fn coded(coding: Coding, wanted: Wanted, limit: u64) -> Self
        requires elements { has_fragments coding ≡ false }
        requires least_kept { 140 ≤ V }
        requires greatest_kept { V ≤ 2 ^ 24 }
        requires least_levels { 2 ≤ D }
        requires greatest_levels { D ≤ 2 ^ 24 }
        requires limit { limit ≤ 2 ^ 48 }
        requires rooms { rooms (wanted_tags wanted) + 12 ≤ V }
        ensures stands { StandsAt result [] }
        ensures syntax { walker_syntax result ≡ coding }
        ensures limits { limits_of result ≡ record { wanted = wanted_tags wanted; depth = D; bytes = limit } }
    {
        Walker {
            root: Scope {
                in_sequence: false,
                syntax: coding,
                stop: None,
                last: 0,
            },
            limit,
            offset: 0,
            header: ArrayVec::new(),
            kept: Keep::new(wanted),
            levels: ArrayVec::new(),
            stage: Stage::Heading,
        }
    }

    /// Creates a walker for a data set of at most `limit` bytes in this transfer syntax, with
    /// native Pixel Data.
    pub fn new(syntax: Syntax, wanted: Wanted, limit: u64) -> Self
        requires least_kept { 140 ≤ V }
        requires greatest_kept { V ≤ 2 ^ 24 }
        requires least_levels { 2 ≤ D }
        requires greatest_levels { D ≤ 2 ^ 24 }
        requires limit { limit ≤ 2 ^ 48 }
        requires rooms { rooms (wanted_tags wanted) + 12 ≤ V }
        ensures stands { StandsAt result [] }
        ensures syntax { walker_syntax result ≡ coding_of syntax }
        ensures limits { limits_of result ≡ record { wanted = wanted_tags wanted; depth = D; bytes = limit } }
    {
        Walker::coded(Coding::of(syntax), wanted, limit)
    }

    /// Creates a walker for a data set of at most `limit` bytes in Explicit VR Little Endian, whose
    /// Pixel Data may be encapsulated.
    pub fn encapsulated(wanted: Wanted, limit: u64) -> Self
        requires least_kept { 140 ≤ V }
        requires greatest_kept { V ≤ 2 ^ 24 }
        requires least_levels { 2 ≤ D }
        requires greatest_levels { D ≤ 2 ^ 24 }
        requires limit { limit ≤ 2 ^ 48 }
        requires rooms { rooms (wanted_tags wanted) + 12 ≤ V }
        ensures stands { StandsAt result [] }
        ensures syntax { walker_syntax result ≡ codings.Encapsulated }
        ensures limits { limits_of result ≡ record { wanted = wanted_tags wanted; depth = D; bytes = limit } }
    {
        Walker::coded(Coding::Encapsulated, wanted, limit)
    }

    /// Reads `piece` up to its end, the end of a header or value, or the first byte that breaks a
    /// rule. Returns the number of bytes read and what they are. Reads at least one byte, unless
    /// `piece` is empty or a rule was broken before.
    pub fn step<'p>(&mut self, piece: &'p [u8]) -> (usize, Step<'p>)
        ensures consumed { result.0 ≤ length piece.now }
        ensures some { fault_of self.old ≡ None → 0 < length piece.now → 0 < result.0 }
        ensures stands { (b : List ℕ) → StandsAt self.old b → StandsAt self.new (b ++ take result.0 piece.now) }
        ensures answers { (b : List ℕ) → StandsAt self.old b → Answers (walker_syntax self.old) (limits_of self.old) b piece.now (take result.0 piece.now) result.1 }
        ensures longest { (b : List ℕ) → StandsAt self.old b → fault_of self.old ≡ None → ConsumesMost (walker_syntax self.old) (limits_of self.old) b piece.now result.0 }
        ensures syntax { walker_syntax self.new ≡ walker_syntax self.old }
        ensures limits { limits_of self.new ≡ limits_of self.old }
        ensures refused { (fault : Fault) → fault_of self.old ≡ Some fault → (result ≡ (0, Step.Refused fault)) × (self.new ≡ self.old) }
    {
        match self.stage {
            Stage::Stopped(fault) => (0, Step::Refused(fault)),
            Stage::Heading => {
                let (count, made) = self.advance_heading(piece);
                (count, header_step(self.stage, made))
            }
            Stage::Value {
                tag,
                remaining,
                kept,
            } => {
                if piece.is_empty() {
                    (0, Step::More)
                } else {
                    let run = front(piece, remaining);
                    self.advance_value(run, tag, remaining, kept);
                    (run.len(), value_step(self.stage, run))
                }
            }
        }
    }

    /// Returns whether no header is unfinished and no level is open.
    fn is_between(&self) -> bool
        ensures { result ≡ (nat_eq (length self.now.header.items) 0 && nat_eq (length self.now.levels.items) 0) }
    {
        self.header.is_empty() && self.levels.is_empty()
    }

    /// Checks that the bytes read so far are a whole data set within the limits. Fails with the
    /// fault that a step returned, or else with `Truncated` if the data set is unfinished.
    pub fn finish(&self) -> Result<(), Fault>
        ensures whole { IsOk result → (b : List ℕ) → StandsAt self.now b → IsWholeDataSet (walker_syntax self.now) (limits_of self.now) b }
        ensures exactly { (b : List ℕ) → StandsAt self.now b → IsWholeDataSet (walker_syntax self.now) (limits_of self.now) b → IsOk result }
        ensures fails { IfErr result (λ fault. (b : List ℕ) → StandsAt self.now b → Fails (walker_syntax self.now) (limits_of self.now) b fault) }
    {
        match self.stage {
            Stage::Stopped(fault) => Err(fault),
            Stage::Value { tag, .. } => Err(Fault::new(Rule::Truncated, self.offset, tag)),
            Stage::Heading => {
                if self.is_between() {
                    Ok(())
                } else {
                    let tag = started_tag(self.header.as_slice());
                    Err(Fault::new(Rule::Truncated, self.offset, tag))
                }
            }
        }
    }
}
