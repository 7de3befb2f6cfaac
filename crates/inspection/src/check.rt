//! `dcmbox check`: reports the first fault of a file, and the values that break a rule of their VR.
use crate::error::InspectionError;
use crate::front::FileFront;
use crate::judgement::{Note, Rule};
use crate::notes::Notes;
use crate::options::{CheckOptions, Syntaxes, Vocabulary};
use crate::outcome::Inspected;
use crate::strict::StrictValues;
use crate::walk::{Finding, Listing, list};
use arrayvec::ArrayVec;
use dictionary::vr_of;
use element::{Header, Tag, Vr, check_value};
use std::io::{self, Read, Write};
use values::Repertoire;

/// The longest value, in bytes, that is checked without `strict`.
const SHORT: usize = 1024;

/// A value that is checked once all of its bytes were read.
#[derive(Clone, Copy)]
pub(crate) struct Due {
    /// The offset of the value's header.
    pub offset: u64,
    pub level: usize,
    pub tag: Tag,
    pub vr: Vr,
    pub length: usize,
}

impl Due {
    /// Returns the value of a header at this offset, or `None` if its VR is unknown.
    pub(crate) fn of(offset: u64, level: usize, header: &Header) -> Option<Due> {
        Some(Due {
            offset,
            level,
            tag: header.tag,
            vr: header.vr.or(vr_of(header.tag))?,
            length: header.length as usize,
        })
    }

    /// Returns the note that the value breaks a rule.
    pub(crate) fn note(&self, rule: Rule) -> Note {
        Note {
            offset: self.offset,
            tag: self.tag,
            vr: Some(self.vr),
            rule,
        }
    }
}

/// Checks each value of at most `SHORT` bytes.
#[derive(Drop)]
struct Values<'a, O: Write> {
    due: Option<Due>,
    value: ArrayVec<u8, SHORT>,
    notes: Notes<'a, O>,
}

impl<O: Write> Values<'_, O> {
    /// Stores bytes of the last header's value, and checks the value once it is complete.
    fn on_bytes(&mut self, bytes: &[u8]) -> io::Result<()> {
        let Some(due) = self.due else {
            return Ok(());
        };
        if self.value.try_extend_from_slice(bytes).is_err() || self.value.len() < due.length {
            return Ok(());
        }
        self.due = None;
        let value = self.value.as_slice();
        match check_value(due.vr, value) {
            Ok(()) => Ok(()),
            Err(fault) => {
                let note = due.note((fault.number(), fault.name()));
                // Only `strict` checks the VRs whose text may be in another character set.
                self.notes
                    .add_value(&note, due.vr, value, Repertoire::Ascii)
            }
        }
    }
}

impl<O: Write> Listing for Values<'_, O> {
    fn take(&mut self, finding: &Finding<'_>) -> io::Result<()> {
        match finding {
            Finding::Header(offset, level, header) => {
                self.value.clear();
                self.due = None;
                if header.length as usize <= SHORT {
                    self.due = Due::of(*offset, *level, header);
                }
                Ok(())
            }
            Finding::Bytes(bytes) => self.on_bytes(*bytes),
            Finding::End(judgement) => self.notes.end(judgement),
            Finding::Meta(_) | Finding::Bare(_) | Finding::WrongItems(..) => Ok(()),
        }
    }
}

/// Checks a file by the rules of VRs in the dictionary.
fn check_usual<R: Read, O: Write>(
    input: &mut FileFront<'_, R>,
    syntaxes: Syntaxes,
    notes: Notes<'_, O>,
) -> Result<Inspected, InspectionError> {
    let mut values = Values {
        due: None,
        value: ArrayVec::new(),
        notes,
    };
    let accepted = (syntaxes, Vocabulary::Dictionary, false);
    let outcome = list(input, accepted, &mut values);
    values.notes.finish(outcome, 0)
}

/// Checks a file by the whole table of VRs.
fn check_all<R: Read, O: Write>(
    input: &mut FileFront<'_, R>,
    syntaxes: Syntaxes,
    notes: Notes<'_, O>,
) -> Result<Inspected, InspectionError> {
    let mut values = StrictValues::new(notes);
    let accepted = (syntaxes, Vocabulary::Standard, false);
    let outcome = list(input, accepted, &mut values);
    values.finish(outcome)
}

/// Checks the file that `input` yields from its start: writes a note for each value of at most 1024
/// bytes that breaks a rule of its VR (a note is no fault), and then the file's length or its first
/// fault.
///
/// With `strict`, each value of at most 65,536 bytes is also checked against the table of VRs, and a
/// longer value against the size of its numbers; an element without a VR in its header gets its VR
/// from PS3.6, and an element that has none there is counted as not judged. With `values`, the line
/// after a note has the keyword and the value (for more than 256 bytes, its length), and the line
/// after a data set's fault has the keyword.
///
/// Fails if the file can't be read or the output can't be written.
pub fn check_with<R: Read, O: Write>(
    input: &mut FileFront<'_, R>,
    options: CheckOptions,
    out: &mut O,
) -> Result<Inspected, InspectionError> {
    let mut notes = Notes::new(options, out);
    notes.begin().map_err(InspectionError::Write)?;
    if options.strict {
        check_all(input, options.syntaxes, notes)
    } else {
        check_usual(input, options.syntaxes, notes)
    }
}
