//! `dcmbox check --strict`: also checks values against the whole table of VRs.
use crate::check::Due;
use crate::error::InspectionError;
use crate::followed_sets::SPECIFIC_CHARACTER_SET;
use crate::frame_tables::FrameTables;
use crate::identity::{Identity, MISSING_UID, MOST_DUE, OTHER_INSTANCE, SOP_INSTANCE_UID};
use crate::judgement::{Judgement, Note, Rule};
use crate::keyword::UNDEFINED;
use crate::limits::LONGEST;
use crate::notes::Notes;
use crate::origin::TRANSFER_SYNTAX_UID;
use crate::outcome::{Inspected, Outcome};
use crate::sets::Sets;
use crate::walk::{Finding, Listing};
use arrayvec::ArrayVec;
use dictionary::vr_of;
use element::{Header, Tag, ValueFault, Vr, check_value};
use std::io::{self, Write};
use values::{Reading, check_form, number_size};

/// The tag of Number of Frames.
const NUMBER_OF_FRAMES: Tag = Tag(0x0028, 0x0008);

/// The rule that the items of a sequence of defined length whose tag is not in the dictionary are
/// valid.
const WRONG_ITEMS: Rule = (19, "WrongItems");

/// Checks each value of at most `LONGEST` bytes, and the size of the numbers in longer values.
#[derive(Drop)]
pub(crate) struct StrictValues<'a, O: Write> {
    due: Option<Due>,
    value: ArrayVec<u8, LONGEST>,
    text: ArrayVec<u8, LONGEST>,
    sets: Sets,
    tables: FrameTables,
    identity: Identity,
    notes: Notes<'a, O>,
    /// How many values were not judged.
    unjudged: u64,
}

/// Returns whether the value of a header can't be judged: its VR is unknown or UN.
fn is_opaque(header: &Header) -> bool {
    let Header { tag, length, vr } = *header;
    let is_known = match vr {
        Some(vr) => vr.letters() != *b"UN",
        None => tag.is_marker() || vr_of(tag).is_some(),
    };
    !is_known && 0 < length && length != UNDEFINED
}

impl<'a, O: Write> StrictValues<'a, O> {
    pub(crate) fn new(notes: Notes<'a, O>) -> StrictValues<'a, O> {
        StrictValues {
            due: None,
            value: ArrayVec::new(),
            text: ArrayVec::new(),
            sets: Sets::new(),
            tables: FrameTables::new(),
            identity: Identity::new(),
            notes,
            unjudged: 0,
        }
    }

    /// Returns the result of the check that ended so.
    pub(crate) fn finish(
        &mut self,
        outcome: Result<Outcome, InspectionError>,
    ) -> Result<Inspected, InspectionError> {
        self.notes.finish(outcome, self.unjudged)
    }

    /// Returns the rule of its VR that a value breaks, if any.
    fn broken(&mut self, due: Due) -> Option<Rule> {
        let value = self.value.as_slice();
        if let Err(fault) = check_value(due.vr, value) {
            return Some((fault.number(), fault.name()));
        }
        self.text.clear();
        Reading::new(self.sets.of(due.level, due.vr)).read(value, &mut self.text);
        match check_form(due.vr, self.text.as_slice()) {
            Ok(()) => None,
            Err(fault) => Some((fault.number(), fault.name())),
        }
    }

    /// Writes a note for each required UID that is absent before an element with this tag number.
    fn report_missing(&mut self, offset: u64, number: u32) -> io::Result<()> {
        for _ in 0..MOST_DUE {
            match self.identity.take_missing(number) {
                Some(tag) => self.notes.add(&Note::of_uid(offset, tag, MISSING_UID))?,
                None => break,
            }
        }
        Ok(())
    }

    /// Writes a note if the data set's SOP Instance UID, whose header is at offset `offset`, differs
    /// from that in the file's header.
    fn compare(&mut self, offset: u64) -> io::Result<()> {
        let value = self.value.as_slice();
        let note = Note::of_uid(offset, SOP_INSTANCE_UID, OTHER_INSTANCE);
        match self.identity.other_than(value) {
            Some(header) => self.notes.add_instance(&note, value, header),
            None => Ok(()),
        }
    }

    /// Checks a value of which all bytes were read.
    fn check(&mut self, due: Due) -> io::Result<()> {
        if due.tag == SPECIFIC_CHARACTER_SET {
            self.sets.name(due.level, self.value.as_slice());
        }
        if due.tag == NUMBER_OF_FRAMES && due.level == 0 {
            self.tables.set_frames(self.value.as_slice());
        }
        if due.tag == SOP_INSTANCE_UID && due.level == 0 {
            self.compare(due.offset)?;
        }
        let Some(rule) = self.broken(due) else {
            return Ok(());
        };
        let repertoire = self.sets.repertoire_of(due.level, due.vr);
        self.notes
            .add_value(&due.note(rule), due.vr, self.value.as_slice(), repertoire)
    }

    /// Checks the length of a value that is longer than `LONGEST`.
    fn check_length(&mut self, due: Due) -> io::Result<()> {
        if due.length % number_size(due.vr) == 0 {
            return Ok(());
        }
        let fault = ValueFault::WrongSize;
        self.notes
            .add_long(&due.note((fault.number(), fault.name())), due.length)
    }

    /// Checks a header and, if its value is long, the length of the value.
    fn on_header(&mut self, offset: u64, level: usize, header: &Header) -> io::Result<()> {
        self.value.clear();
        self.due = None;
        self.sets.hand_down(level);
        if level == 0 {
            self.report_missing(offset, header.tag.number())?;
            self.identity.meet(header);
        }
        if let Some(note) = self.tables.on_header(offset, level, header) {
            self.notes.add(&note)?;
        }
        if is_opaque(header) {
            self.unjudged = self.unjudged.saturating_add(1);
        }
        match Due::of(offset, level, header) {
            Some(due) if due.length <= LONGEST => {
                self.due = Some(due);
                Ok(())
            }
            Some(due) if header.length != UNDEFINED => self.check_length(due),
            _ => Ok(()),
        }
    }

    /// Stores bytes of the last header's value, and checks the value once it is complete.
    fn on_bytes(&mut self, bytes: &[u8]) -> io::Result<()> {
        self.tables.on_bytes(bytes);
        let Some(due) = self.due else {
            return Ok(());
        };
        if self.value.try_extend_from_slice(bytes).is_err() || self.value.len() < due.length {
            return Ok(());
        }
        self.due = None;
        self.check(due)
    }
}

impl<O: Write> Listing for StrictValues<'_, O> {
    fn take(&mut self, finding: &Finding<'_>) -> io::Result<()> {
        match finding {
            Finding::Meta(meta) => {
                self.identity.begin(*meta);
                Ok(())
            }
            Finding::Bare(_) => self
                .notes
                .add(&Note::of_uid(0, TRANSFER_SYNTAX_UID, MISSING_UID)),
            Finding::Header(offset, level, header) => self.on_header(*offset, *level, header),
            Finding::Bytes(bytes) => self.on_bytes(*bytes),
            Finding::WrongItems(offset, tag) => self.notes.add(&Note {
                offset: *offset,
                tag: *tag,
                vr: Some(Vr::SQ),
                rule: WRONG_ITEMS,
            }),
            Finding::End(judgement) => {
                if let Judgement::Good(length) = judgement {
                    self.report_missing(*length, u32::MAX)?;
                }
                self.notes.end(judgement)
            }
        }
    }
}
