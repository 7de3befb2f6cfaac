//! The buffer of the wanted values of a data set, which are stored one after the other.
ghost use Rattle.std.specs.Prelude.{◌≡◌, ◌≤◌, ◌<◌, ◌^◌, ◌+◌, ◌-◌, ◌++◌, ◌∷◌, [], IsTrue, IfSome, length, if◌then◌else◌, slice_set, true, option_map};
ghost use Rattle.arrayvec.specs.ArrayVec.{array_vec_len};
ghost use Rattle.sequence.specs.Wanted.{rooms, is_wanted, room_of, value_of};
ghost use Rattle.sequence.specs.Fields.{stored, absent, reported_values};
ghost use Rattle.sequence.specs.machine.Keeping.{counts, are_stored, is_latest, remaining_at};
ghost use Rattle.sequence.specs.machine.Steps.{with_bytes};
ghost use Rattle.sequence.specs.Wanted.{size_of_values};

use crate::wanted::{Want, Wanted};
use arrayvec::ArrayVec;

mod fields;

/// The length of a value that was not reached in the data set.
const ABSENT: u32 = 0xffff_ffff;

/// Returns the lengths of the complete values. If `started`, the value at index `slot` is unfinished
/// and counts as absent.
fn reported_lengths(lengths: &[u32; 16], slot: usize, started: bool) -> [u32; 16]
    requires { started ≡ true → slot < 16 }
    ensures { result ≡ (if started then slice_set lengths.now slot absent else lengths.now) }
{
    let mut reported = *lengths;
    if started {
        reported[slot] = ABSENT;
    }
    reported
}

/// Returns the value of this tag, or `None` if it is absent. `bytes` has the values in the order of
/// `list`, and `lengths` their sizes.
#[tactic(auto, using(crate::proofs::WantedValues::OneRoom::look_absent, crate::proofs::WantedValues::OneRoom::look_here, crate::proofs::WantedValues::OneRoom::look_on, crate::proofs::WantedValues::OneRoom::look_end, crate::proofs::WantedValues::OneRoom::size_absent, crate::proofs::WantedValues::OneRoom::size_on))]
fn find_value<'a>(list: &[Want], lengths: &[u32; 16], bytes: &'a [u8], tag: u32) -> Option<&'a [u8]>
    requires few { length list.now ≤ 16 }
    requires fit { counts list.now lengths.now ≤ length bytes.now }
    ensures { option_map (λ part. part.now) result ≡ value_of (stored list.now lengths.now bytes.now) tag }
{
    let mut rest = bytes;
    let mut at = 0;
    while at < list.len() {
        let size = lengths[at];
        if size != ABSENT {
            if list[at].tag.number() == tag {
                return Some(&rest[..size as usize]);
            }
            rest = &rest[size as usize..];
        }
        at += 1;
    }
    None
}

/// The wanted values that were read so far, in a buffer of `V` bytes: the length of each, in the
/// order of the wanted tags, and their bytes.
#[derive(Drop)]
pub struct Keep<const V: usize> {
    wanted: Wanted,
    lengths: [u32; 16],
    bytes: ArrayVec<u8, V>,
    /// The index of the last value that was started, among the wanted tags.
    slot: usize,
    /// The tag of the last value that was started as a number, 0 if there is none.
    last: u32,
    ghost greatest: { V ≤ 2 ^ 24 },
    ghost fit: { rooms wanted.list.items + 12 ≤ V },
    ghost short: { array_vec_len bytes + 12 ≤ V },
    ghost stored: { IsTrue (are_stored wanted.list.items lengths last) },
    ghost counted: { counts wanted.list.items lengths ≡ array_vec_len bytes },
    ghost latest: { IsTrue (is_latest slot wanted.list.items lengths) },
}

impl<const V: usize> Keep<V> {
    ghost use Rattle.std.specs.Prelude.{◌≡◌, ◌≤◌, ◌<◌, ◌^◌, ◌+◌, ◌-◌, ◌++◌, ◌∷◌, [], IsTrue, IfSome, IsSome, ◌↔◌, length, if◌then◌else◌, is_some, option_map, true};
    ghost use Rattle.sequence.specs.Wanted.{is_wanted, room_of, value_of, size_of_values};
    ghost use Rattle.sequence.specs.Stored.{values_of, wants_of};
    ghost use Rattle.sequence.specs.machine.Stored.{remaining_of_keep};

    /// Creates an empty buffer for the values of the wanted tags.
    pub fn new(wanted: Wanted) -> Keep<V>
        requires greatest { V ≤ 2 ^ 24 }
        requires fit { rooms (wanted.list.items) + 12 ≤ V }
        ensures values { values_of result ≡ [] }
        ensures wants { wants_of result ≡ wanted.list.items }
        ensures last { result.last ≡ 0 }
    {
        Keep {
            wanted,
            lengths: [ABSENT; 16],
            bytes: ArrayVec::new(),
            slot: 0,
            last: 0,
        }
    }

    /// Starts an empty value for a tag above all earlier ones, if the tag is wanted. Returns
    /// whether it is.
    pub fn begin(&mut self, tag: u32) -> bool
        requires { self.old.last < tag }
        ensures wanted { result ≡ is_wanted (wants_of self.old) tag }
        ensures values { values_of self.new ≡ (if is_wanted (wants_of self.old) tag then values_of self.old ++ (tag, []) ∷ [] else values_of self.old) }
        ensures remaining { (room : _) → room_of (wants_of self.old) tag ≡ Some room → remaining_of_keep self.new ≡ room }
        ensures wants { wants_of self.new ≡ wants_of self.old }
        ensures last { self.new.last ≤ tag }
    {
        match self.wanted.find(tag) {
            None => false,
            Some(slot) => {
                self.lengths[slot] = 0;
                self.slot = slot;
                self.last = tag;
                true
            }
        }
    }

    /// Appends bytes to the value that was started last, which must stay within its limit.
    pub fn extend(&mut self, bytes: &[u8])
        requires some { 0 < length bytes.now }
        requires room { length bytes.now ≤ remaining_of_keep self.old }
        ensures values { values_of self.new ≡ with_bytes (values_of self.old) bytes.now }
        ensures remaining { remaining_of_keep self.new ≡ remaining_of_keep self.old - length bytes.now }
        ensures wants { wants_of self.new ≡ wants_of self.old }
        ensures last { self.new.last ≡ self.old.last }
    {
        self.lengths[self.slot] += bytes.len() as u32;
        let _fits = self.bytes.try_extend_from_slice(bytes);
    }

    /// Appends bytes to the value that was started last if `kept` is true; otherwise does nothing.
    pub fn extend_if(&mut self, kept: bool, bytes: &[u8])
        requires some { 0 < length bytes.now }
        requires room { kept ≡ true → length bytes.now ≤ remaining_of_keep self.old }
        ensures values { values_of self.new ≡ (if kept then with_bytes (values_of self.old) bytes.now else values_of self.old) }
        ensures remaining { kept ≡ true → remaining_of_keep self.new ≡ remaining_of_keep self.old - length bytes.now }
        ensures wants { wants_of self.new ≡ wants_of self.old }
        ensures last { self.new.last ≡ self.old.last }
    {
        if kept {
            self.extend(bytes);
        }
    }

    /// Returns the total number of bytes of the values.
    pub fn len(&self) -> usize
        ensures value { result ≡ size_of_values (values_of self.now) }
        ensures all { result ≡ array_vec_len self.now.bytes }
        ensures small { result ≤ 2 ^ 24 }
    {
        self.bytes.len()
    }

    /// Returns the value of this tag, or `None` if it is not wanted or was not read. If `started`,
    /// the last value is unfinished and left out.
    pub fn value(&self, tag: u32, started: bool) -> Option<&[u8]>
        requires { started ≡ true → 0 < remaining_of_keep self.now }
        ensures { option_map (λ bytes. bytes.now) result ≡ value_of (reported_values started (values_of self.now)) tag }
    {
        let lengths = reported_lengths(&self.lengths, self.slot, started);
        find_value(self.wanted.as_slice(), &lengths, self.bytes.as_slice(), tag)
    }

    /// Returns the wanted tags.
    pub fn wanted(&self) -> &Wanted
        ensures { result.now ≡ self.now.wanted }
    {
        &self.wanted
    }
}
