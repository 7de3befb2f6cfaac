//! The printed form of values.
use crate::columns::Column;
use element::Vr;
use inspection::{JsonText, OutputForm, ValueText};
use std::alloc::Allocator;
use std::fmt;
use values::Repertoire;

/// Returns the printed form of a text of a repertoire in a line.
fn in_line(text: &[u8], repertoire: Repertoire) -> ValueText<'_> {
    ValueText {
        vr: Some(Vr::LO),
        value: text,
        form: OutputForm::Lines,
        repertoire,
    }
}

/// Prints a text of a repertoire. An empty text is `-` in a line and `null` in JSON.
#[derive(Clone, Copy)]
pub(crate) struct Text<'a> {
    pub text: &'a [u8],
    pub repertoire: Repertoire,
    pub form: OutputForm,
}

impl fmt::Display for Text<'_> {
    fn fmt<W: fmt::Write>(&self, f: &mut fmt::Formatter<W>) -> fmt::Result {
        if self.form == OutputForm::Json {
            let text = JsonText(self.text, self.repertoire);
            return write!(f, "{text}");
        }
        if self.text.is_empty() {
            return f.write_char('-');
        }
        let text = in_line(self.text, self.repertoire);
        write!(f, "{text}")
    }
}

/// Prints the further columns, if any: in a line, each after a tab, an empty text without
/// characters; in JSON, as the member `columns`, an object.
#[derive(Drop)]
pub(crate) struct ColumnTexts<'a, A: Allocator> {
    pub columns: &'a [Column<'a>],
    pub values: &'a [Vec<u8, A>],
    /// The repertoire of the texts.
    pub repertoire: Repertoire,
    pub form: OutputForm,
}

impl<A: Allocator> fmt::Display for ColumnTexts<'_, A> {
    fn fmt<W: fmt::Write>(&self, f: &mut fmt::Formatter<W>) -> fmt::Result {
        let is_json = self.form == OutputForm::Json;
        for (index, (column, value)) in self.columns.iter().zip(self.values).enumerate() {
            let (text, repertoire) = (value.as_slice(), column.repertoire_in(self.repertoire));
            if is_json {
                let before = if index > 0 { "," } else { ",\"columns\":{" };
                let (keyword, text) = (column.keyword, JsonText(text, repertoire));
                write!(f, "{before}\"{keyword}\":{text}")?;
            } else {
                let text = in_line(text, repertoire);
                write!(f, "\t{text}")?;
            }
        }
        f.write_str(if is_json && !self.columns.is_empty() {
            "}"
        } else {
            ""
        })
    }
}

/// Prints ASCII texts: in a line with a backslash between them, or `-` if there are none; in JSON
/// as an array.
#[derive(Clone, Copy)]
pub(crate) struct Texts<'a> {
    pub texts: &'a [&'a [u8]],
    pub form: OutputForm,
}

impl fmt::Display for Texts<'_> {
    fn fmt<W: fmt::Write>(&self, f: &mut fmt::Formatter<W>) -> fmt::Result {
        let form = self.form;
        let (open, separator, close) = match form {
            OutputForm::Lines if self.texts.is_empty() => ("-", "", ""),
            OutputForm::Lines => ("", "\\", ""),
            OutputForm::Json => ("[", ",", "]"),
        };
        f.write_str(open)?;
        for (index, text) in self.texts.iter().enumerate() {
            let before = if index > 0 { separator } else { "" };
            let text = Text {
                text: *text,
                repertoire: Repertoire::Ascii,
                form,
            };
            write!(f, "{before}{text}")?;
        }
        f.write_str(close)
    }
}
