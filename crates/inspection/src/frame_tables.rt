//! Compares the offset tables of encapsulated Pixel Data with its fragments: the Basic Offset Table
//! (PS3.5 section A.4), and the Extended Offset Table with its lengths (PS3.3 section C.7.6.3.1.8).
use crate::fragments::{FragmentEvent, Fragments};
use crate::judgement::{Note, Rule};
use crate::number_table::{Met, NumberTable};
use element::{Header, Tag, Vr};

/// The tag of Extended Offset Table.
const OFFSETS: Tag = Tag(0x7fe0, 0x0001);

/// The tag of Extended Offset Table Lengths.
const LENGTHS: Tag = Tag(0x7fe0, 0x0002);

/// The rule that the first offset is 0, and each other that of a fragment after the fragment of the
/// offset before it.
const WRONG_OFFSET: Rule = (15, "WrongOffset");

/// The rule that there are as many offsets as frames, and as many lengths as offsets.
const WRONG_COUNT: Rule = (16, "WrongCount");

/// The rule that a length is that of the fragment at its offset.
const WRONG_LENGTH: Rule = (17, "WrongLength");

/// The rule that the Basic Offset Table is empty if there is an Extended Offset Table.
const SECOND_TABLE: Rule = (18, "SecondTable");

/// Returns the note that the table whose header is at this offset breaks a rule.
fn note_of(offset: u64, tag: Tag, rule: Rule) -> Note {
    let vr = if tag == Tag::ITEM { None } else { Some(Vr::OV) };
    Note {
        offset,
        tag,
        vr,
        rule,
    }
}

/// Returns the number that an integer string of digits spells, or `None` for any other string.
fn number_of(value: &[u8]) -> Option<u64> {
    let mut number: u64 = 0;
    for byte in value {
        if *byte != b' ' {
            let digit = char::from(*byte).to_digit(10)?;
            number = number.checked_mul(10)?.checked_add(u64::from(digit))?;
        }
    }
    Some(number)
}

/// Which table's bytes are read next.
#[derive(Clone, Copy)]
enum TableValue {
    Other,
    Basic,
    Offsets,
    Lengths,
}

/// The offset tables of one Pixel Data element.
#[derive(Drop)]
pub(crate) struct FrameTables {
    fragments: Fragments,
    value: TableValue,
    basic: NumberTable,
    offsets: NumberTable,
    lengths: NumberTable,
    /// The level of the extended table.
    level: usize,
    /// The data set's Number of Frames.
    frames: Option<u64>,
    /// How many offsets a table must have.
    count: Option<u64>,
}

impl FrameTables {
    pub(crate) fn new() -> FrameTables {
        FrameTables {
            fragments: Fragments::new(),
            value: TableValue::Other,
            basic: NumberTable::new(4),
            offsets: NumberTable::new(8),
            lengths: NumberTable::new(8),
            level: 0,
            frames: None,
            count: None,
        }
    }

    /// Stores the data set's Number of Frames.
    pub(crate) fn set_frames(&mut self, value: &[u8]) {
        self.frames = number_of(value);
    }

    /// Discards the extended table.
    fn forget(&mut self) {
        self.offsets.forget();
        self.lengths.forget();
    }

    /// Applies a header outside Pixel Data. An extended table precedes Pixel Data in the same level
    /// and group.
    fn on_element(&mut self, offset: u64, level: usize, header: &Header) {
        let Header { tag, length, vr } = *header;
        if tag.0 != OFFSETS.0 || level != self.level {
            self.forget();
            self.level = level;
        }
        if vr != Some(Vr::OV) {
            return;
        }
        if tag == OFFSETS {
            self.offsets.begin(offset, length);
            self.value = TableValue::Offsets;
        } else if tag == LENGTHS {
            self.lengths.begin(offset, length);
            self.value = TableValue::Lengths;
        }
    }

    /// Starts Pixel Data. Returns a note unless there are as many lengths as offsets.
    fn open(&mut self, level: usize) -> Option<Note> {
        if level != self.level {
            self.forget();
        }
        self.basic.forget();
        self.count = if level == 0 { self.frames } else { None };
        let (offsets, lengths) = (self.offsets.length(), self.lengths.length());
        if offsets == lengths {
            return None;
        }
        self.lengths.close();
        let (offset, tag) = if lengths > 0 {
            (self.lengths.offset(), LENGTHS)
        } else {
            (self.offsets.offset(), OFFSETS)
        };
        Some(note_of(offset, tag, WRONG_COUNT))
    }

    /// Starts the Basic Offset Table. Returns a note if there is an extended table as well.
    fn begin_basic(&mut self, offset: u64, length: u32) -> Option<Note> {
        if length > 0 && self.offsets.length() > 0 {
            return Some(note_of(offset, Tag::ITEM, SECOND_TABLE));
        }
        self.basic.begin(offset, length);
        self.value = TableValue::Basic;
        None
    }

    /// Returns the note that the table of offsets in use breaks a rule.
    fn note(&self, rule: Rule) -> Note {
        if self.offsets.length() > 0 {
            note_of(self.offsets.offset(), OFFSETS, rule)
        } else {
            note_of(self.basic.offset(), Tag::ITEM, rule)
        }
    }

    /// Compares the length of a frame's only fragment with the table of lengths.
    fn meet_length(&mut self, length: u32) -> Option<Note> {
        if !self.lengths.is_held() || self.lengths.meet_length(length) {
            return None;
        }
        self.lengths.close();
        Some(note_of(self.lengths.offset(), LENGTHS, WRONG_LENGTH))
    }

    /// Compares a fragment, at offset `at` from the first fragment, with the table of offsets.
    fn meet(&mut self, at: u64, length: u32) -> Option<Note> {
        let table = if self.offsets.is_held() {
            &mut self.offsets
        } else if self.basic.is_held() {
            &mut self.basic
        } else {
            return None;
        };
        match table.meet_offset(at) {
            Met::Named => self.meet_length(length),
            Met::Additional => None,
            Met::Wrong => {
                self.lengths.close();
                Some(self.note(WRONG_OFFSET))
            }
        }
    }

    /// Returns the rule that a table of offsets breaks after the last fragment, if any.
    fn broken_at_end(&self, table: &NumberTable) -> Option<Rule> {
        if !table.is_held() {
            return None;
        }
        if table.has_more() {
            return Some(WRONG_OFFSET);
        }
        match self.count {
            Some(count) if count != table.count() => Some(WRONG_COUNT),
            _ => None,
        }
    }

    /// Ends Pixel Data. Returns the note of a wrong table, if any.
    fn end(&mut self) -> Option<Note> {
        let broken = self
            .broken_at_end(&self.offsets)
            .or(self.broken_at_end(&self.basic));
        let note = match broken {
            Some(rule) => Some(self.note(rule)),
            None => None,
        };
        self.forget();
        note
    }

    /// Applies a header. Returns the note of a wrong table, if any.
    pub(crate) fn on_header(&mut self, offset: u64, level: usize, header: &Header) -> Option<Note> {
        self.value = TableValue::Other;
        match self.fragments.on_header(offset, header) {
            FragmentEvent::Outside => {
                self.on_element(offset, level, header);
                None
            }
            FragmentEvent::Opens => self.open(level),
            FragmentEvent::Table => self.begin_basic(offset, header.length),
            FragmentEvent::Fragment(at) => self.meet(at, header.length),
            FragmentEvent::Ends => self.end(),
        }
    }

    /// Stores bytes of the last header's value if it is a table.
    pub(crate) fn on_bytes(&mut self, bytes: &[u8]) {
        match self.value {
            TableValue::Other => {}
            TableValue::Basic => self.basic.take(bytes),
            TableValue::Offsets => self.offsets.take(bytes),
            TableValue::Lengths => self.lengths.take(bytes),
        }
    }
}
