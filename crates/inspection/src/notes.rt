//! Writes the notes of a check and its final line.
use crate::error::InspectionError;
use crate::json::{JudgementJson, NoteJson};
use crate::judgement::{Judgement, Note};
use crate::keyword::known_keyword;
use crate::options::{CheckOptions, OutputForm};
use crate::outcome::{Inspected, Outcome};
use crate::shown_value::ShownText;
use crate::texts::Printable;
use crate::value_text::ValueText;
use element::{Tag, Uid, Vr};
use std::io::{self, Write};
use values::Repertoire;

/// The longest value, in bytes, that is written with its note.
const LONGEST_NOTED: usize = 256;

/// Writes the notes of a check and counts them.
#[derive(Drop)]
pub(crate) struct Notes<'a, O: Write> {
    form: OutputForm,
    /// Whether values are written with their notes.
    values: bool,
    count: u64,
    out: &'a mut O,
}

/// Returns the printed form of a value in this repertoire, of which lines have ASCII only, or its
/// length if it is longer than `LONGEST_NOTED`.
fn shown(form: OutputForm, vr: Vr, value: &[u8], repertoire: Repertoire) -> ShownText<'_> {
    if value.len() > LONGEST_NOTED {
        return ShownText::Long(value.len());
    }
    ShownText::Value(ValueText {
        vr: Some(vr),
        value,
        form,
        repertoire: match form {
            OutputForm::Lines => Repertoire::Ascii,
            OutputForm::Json => repertoire,
        },
    })
}

impl<'a, O: Write> Notes<'a, O> {
    /// Creates a writer that has written no note.
    pub(crate) fn new(options: CheckOptions, out: &'a mut O) -> Notes<'a, O> {
        Notes {
            form: options.form,
            values: options.values,
            count: 0,
            out,
        }
    }

    /// Writes the text before the first note.
    pub(crate) fn begin(&mut self) -> io::Result<()> {
        match self.form {
            OutputForm::Lines => Ok(()),
            OutputForm::Json => write!(self.out, "\"notes\":["),
        }
    }

    /// Writes the line with the keyword that follows a note or a fault, if values are written. It
    /// has the value of the note, if any.
    fn write_keyword(&mut self, tag: Tag, value: Option<&ShownText<'_>>) -> io::Result<()> {
        if !self.values {
            return Ok(());
        }
        let keyword = known_keyword(tag).unwrap_or("?");
        match value {
            Some(value) => writeln!(self.out, "           {keyword} = {value}"),
            None => writeln!(self.out, "           {keyword}"),
        }
    }

    /// Counts a note, and begins to write it.
    fn open(&mut self, note: &Note) -> io::Result<()> {
        let comma = if self.count > 0 { "," } else { "" };
        self.count = self.count.saturating_add(1);
        if self.form == OutputForm::Lines {
            return write!(self.out, "{note}");
        }
        let note = NoteJson(note);
        write!(self.out, "{comma}{{{note}")
    }

    /// Writes a note, with this value if there is one and the options ask for it.
    fn add_shown(&mut self, note: &Note, value: Option<&ShownText<'_>>) -> io::Result<()> {
        self.open(note)?;
        if self.form == OutputForm::Lines {
            writeln!(self.out)?;
            return self.write_keyword(note.tag, value);
        }
        match value {
            Some(ShownText::Value(value)) if self.values => {
                write!(self.out, ",\"value\":\"{value}\"}}")
            }
            _ => write!(self.out, "}}"),
        }
    }

    /// Writes a note that has no value.
    pub(crate) fn add(&mut self, note: &Note) -> io::Result<()> {
        self.add_shown(note, None)
    }

    /// Writes a note about a value whose text is in this repertoire.
    pub(crate) fn add_value(
        &mut self,
        note: &Note,
        vr: Vr,
        value: &[u8],
        repertoire: Repertoire,
    ) -> io::Result<()> {
        let value = shown(self.form, vr, value, repertoire);
        self.add_shown(note, Some(&value))
    }

    /// Writes a note about a value of this length, which was not kept.
    pub(crate) fn add_long(&mut self, note: &Note, length: usize) -> io::Result<()> {
        self.add_shown(note, Some(&ShownText::Long(length)))
    }

    /// Writes a note that the data set's SOP Instance UID, `value`, differs from that in the file's
    /// header.
    pub(crate) fn add_instance(
        &mut self,
        note: &Note,
        value: &[u8],
        header: &Uid,
    ) -> io::Result<()> {
        let value = shown(self.form, Vr::UI, value, Repertoire::Ascii);
        let header = Printable(header.as_bytes());
        self.open(note)?;
        match self.form {
            OutputForm::Lines => writeln!(self.out, " {value} header {header}"),
            OutputForm::Json => {
                write!(self.out, ",\"value\":\"{value}\",\"header\":\"{header}\"}}")
            }
        }
    }

    /// Writes the final judgement of the file.
    pub(crate) fn end(&mut self, judgement: &Judgement) -> io::Result<()> {
        if self.form == OutputForm::Json {
            let judgement = JudgementJson(judgement);
            return writeln!(self.out, "],{judgement}}}");
        }
        writeln!(self.out, "{judgement}")?;
        match *judgement {
            Judgement::BadData(_, fault) => self.write_keyword(fault.tag, None),
            _ => Ok(()),
        }
    }

    /// Returns the result of the check that ended so, and ends the output for a file that can't be
    /// read to its end.
    pub(crate) fn finish(
        &mut self,
        outcome: Result<Outcome, InspectionError>,
        unjudged: u64,
    ) -> Result<Inspected, InspectionError> {
        match outcome {
            Ok(outcome) => Ok(Inspected {
                outcome,
                notes: self.count,
                unjudged,
            }),
            Err(InspectionError::Read(error)) if self.form == OutputForm::Json => {
                match writeln!(self.out, "],\"result\":\"unread\"}}") {
                    Ok(()) => Err(InspectionError::Read(error)),
                    Err(error) => Err(InspectionError::Write(error)),
                }
            }
            Err(error) => Err(error),
        }
    }
}
