//! `dcmbox show`: lists the elements of a file, with or without their values.
use crate::error::InspectionError;
use crate::followed_sets::FollowedSets;
use crate::front::FileFront;
use crate::json::{JudgementJson, OrNull, vr_json};
use crate::judgement::Judgement;
use crate::keyword::{UNDEFINED, known_keyword};
use crate::options::{OutputForm, ShowOptions, Vocabulary};
use crate::outcome::Inspected;
use crate::shown_value::{ShownText, ShownValue};
use crate::texts::{Indent, Printable, TagText, VrText};
use crate::walk::{Finding, Listing, list};
use dictionary::{Transfer, vr_of};
use element::Header;
use part10::Meta;
use std::fmt;
use std::io::{self, Read, Write};
use values::Repertoire;

/// The length of a value in an output of this form. An undefined length is printed as `undefined`,
/// in JSON as `null`.
#[derive(Clone, Copy)]
struct LengthText(u32, OutputForm);

impl fmt::Display for LengthText {
    fn fmt<W: fmt::Write>(&self, f: &mut fmt::Formatter<W>) -> fmt::Result {
        let LengthText(length, form) = *self;
        match (length, form) {
            (UNDEFINED, OutputForm::Lines) => f.write_str("undefined"),
            (UNDEFINED, OutputForm::Json) => f.write_str("null"),
            _ => write!(f, "{length}"),
        }
    }
}

/// What is open in JSON.
#[derive(Clone, Copy)]
enum Opened {
    Nothing,
    /// The list of elements, which has none.
    List,
    /// The list and its last element.
    Element,
}

impl Opened {
    /// Returns the text that closes what is open.
    fn closing(self) -> &'static str {
        match self {
            Opened::Nothing => "",
            Opened::List => "],",
            Opened::Element => "}],",
        }
    }
}

/// Lists each header, or only those of the chosen tags, with the values if the options ask for
/// them.
#[derive(Drop)]
struct Elements<'a, O: Write> {
    options: ShowOptions<'a>,
    value: ShownValue,
    sets: FollowedSets,
    opened: Opened,
    out: &'a mut O,
}

/// Writes the line of an element.
fn write_line<O: Write>(
    (offset, levels): (u64, usize),
    header: &Header,
    vocabulary: Vocabulary,
    out: &mut O,
) -> io::Result<()> {
    let Header { tag, length, vr } = *header;
    let keyword = vocabulary.keyword(tag).unwrap_or("?");
    // The dictionary's VR if the header has none.
    let vr = VrText(vr.or(vr_of(tag)));
    let (indent, length) = (Indent(levels), LengthText(length, OutputForm::Lines));
    let tag = TagText(tag);
    writeln!(out, "{offset:010} {indent}{tag} {vr} {length} {keyword}")
}

/// Writes the members of an element's object, except its value.
fn write_object<O: Write>(
    (offset, levels): (u64, usize),
    header: &Header,
    opened: Opened,
    out: &mut O,
) -> io::Result<()> {
    let Header { tag, length, vr } = *header;
    let (vr, keyword) = (vr_json(vr.or(vr_of(tag))), OrNull(known_keyword(tag)));
    let (tag, length) = (TagText(tag), LengthText(length, OutputForm::Json));
    let before = match opened {
        Opened::Element => "},",
        Opened::Nothing | Opened::List => "",
    };
    write!(
        out,
        "{before}{{\"place\":{offset},\"level\":{levels},\"tag\":\"{tag}\","
    )?;
    write!(out, "\"vr\":{vr},\"length\":{length},\"keyword\":{keyword}")
}

impl<O: Write> Elements<'_, O> {
    /// Lists the UIDs in the file's header, if it has one, and the transfer syntax.
    fn begin(&mut self, meta: Option<&Meta>, syntax: Transfer) -> io::Result<()> {
        let (class, instance) = match meta {
            Some(meta) => (
                Some(Printable(meta.class.as_bytes())),
                Some(Printable(meta.instance.as_bytes())),
            ),
            None => (None, None),
        };
        let syntax = Printable(syntax.uid());
        if self.options.form == OutputForm::Json {
            self.opened = Opened::List;
            let (class, instance) = (OrNull(class), OrNull(instance));
            return write!(
                self.out,
                "\"class\":{class},\"instance\":{instance},\"syntax\":\"{syntax}\",\"elements\":["
            );
        }
        if !self.options.tags.is_empty() {
            return Ok(());
        }
        if let (Some(class), Some(instance)) = (class, instance) {
            writeln!(self.out, "class {class}\ninstance {instance}")?;
        }
        writeln!(self.out, "syntax {syntax}")
    }

    /// Lists a header.
    fn on_header(&mut self, offset: u64, levels: usize, header: &Header) -> io::Result<()> {
        let options = self.options;
        self.value.begin(header);
        if options.has_unicode() {
            self.sets.on_header(levels, header);
        }
        if !options.names(header.tag) {
            return Ok(());
        }
        if options.values {
            let vr = header.vr.or(vr_of(header.tag));
            let repertoire = if options.has_unicode() {
                self.sets.repertoire_of(levels, vr)
            } else {
                Repertoire::Ascii
            };
            self.value.expect(levels, header, repertoire);
        }
        let at = (offset, levels);
        if options.form == OutputForm::Lines {
            return write_line(at, header, options.vocabulary(), self.out);
        }
        let opened = self.opened;
        self.opened = Opened::Element;
        write_object(at, header, opened, self.out)
    }

    /// Lists the last header's value, once all of its bytes were read.
    fn on_bytes(&mut self, bytes: &[u8]) -> io::Result<()> {
        if self.options.has_unicode() {
            self.sets.on_bytes(bytes);
        }
        self.value.take(bytes);
        if !self.value.is_whole() {
            return Ok(());
        }
        let (indent, value) = (Indent(self.value.levels()), self.value.text());
        match (self.options.form, value) {
            (OutputForm::Lines, value) => writeln!(self.out, "           {indent}= {value}")?,
            (OutputForm::Json, ShownText::Value(value)) => {
                write!(self.out, ",\"value\":\"{value}\"")?;
            }
            (OutputForm::Json, ShownText::Long(_)) => write!(self.out, ",\"cut\":true")?,
        }
        self.value.forget();
        Ok(())
    }

    /// Writes the length of the file, or its fault.
    fn end(&mut self, judgement: &Judgement) -> io::Result<()> {
        if self.options.form == OutputForm::Json {
            let (closing, judgement) = (self.opened.closing(), JudgementJson(judgement));
            return writeln!(self.out, "{closing}{judgement}}}");
        }
        match judgement {
            Judgement::Good(_) if !self.options.tags.is_empty() => Ok(()),
            Judgement::Good(length) => writeln!(self.out, "end {length}"),
            _ => writeln!(self.out, "{judgement}"),
        }
    }

    /// Ends the object of a file that can't be read to its end.
    fn give_up(&mut self) -> io::Result<()> {
        let closing = self.opened.closing();
        writeln!(self.out, "{closing}\"result\":\"unread\"}}")
    }
}

impl<O: Write> Listing for Elements<'_, O> {
    fn take(&mut self, finding: &Finding<'_>) -> io::Result<()> {
        match finding {
            Finding::Meta(meta) => self.begin(Some(*meta), meta.syntax),
            Finding::Bare(syntax) => self.begin(None, *syntax),
            Finding::Header(offset, levels, header) => self.on_header(*offset, *levels, header),
            Finding::Bytes(bytes) => self.on_bytes(*bytes),
            Finding::WrongItems(..) => Ok(()),
            Finding::End(judgement) => self.end(judgement),
        }
    }
}

/// Lists the file that `input` yields from its start: its class, instance and transfer syntax, a
/// line for each header, and its length, or its first fault instead of the length.
///
/// With `tags`, only these elements are listed, and with `values` each value after its element. For
/// a value of more than 64 bytes (65,536 if values are shown whole) a line has the length instead;
/// JSON has `"cut":true` in place of a value of more than 65,536 bytes.
///
/// Fails if the file can't be read or the output can't be written.
pub fn show_with<R: Read, O: Write>(
    input: &mut FileFront<'_, R>,
    options: ShowOptions<'_>,
    out: &mut O,
) -> Result<Inspected, InspectionError> {
    let mut elements = Elements {
        options,
        value: ShownValue::new(&options),
        sets: FollowedSets::new(),
        opened: Opened::Nothing,
        out,
    };
    match list(input, options.accepted(), &mut elements) {
        Ok(outcome) => Ok(Inspected {
            outcome,
            notes: 0,
            unjudged: 0,
        }),
        Err(InspectionError::Read(error)) if options.form == OutputForm::Json => {
            match elements.give_up() {
                Ok(()) => Err(InspectionError::Read(error)),
                Err(error) => Err(InspectionError::Write(error)),
            }
        }
        Err(error) => Err(error),
    }
}
