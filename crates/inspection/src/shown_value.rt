//! Collects the value that is shown next.
use crate::fragments::opens_fragments;
use crate::keyword::UNDEFINED;
use crate::limits::LONGEST;
use crate::options::{OutputForm, ShowOptions};
use crate::value_text::ValueText;
use arrayvec::ArrayVec;
use dictionary::vr_of;
use element::{Header, Tag, Vr};
use std::fmt;
use values::Repertoire;

/// Where the Basic Offset Table is: in the first item of encapsulated Pixel Data (PS3.5 section
/// A.4).
#[derive(Clone, Copy)]
enum Table {
    /// Elsewhere.
    Elsewhere,
    /// In the next item.
    Next,
    /// In the current item.
    Here,
}

impl Table {
    /// Returns the new state after a header.
    fn after(self, header: &Header) -> Table {
        if opens_fragments(header) {
            return Table::Next;
        }
        match self {
            Table::Next if header.tag == Tag::ITEM => Table::Here,
            _ => Table::Elsewhere,
        }
    }
}

/// Collects the bytes of a value.
#[derive(Drop)]
pub(crate) struct ShownValue {
    vr: Option<Vr>,
    levels: usize,
    /// The length of the value to show, if any.
    length: Option<u32>,
    /// The length in bytes of the longest value that is shown.
    longest: usize,
    bytes: ArrayVec<u8, LONGEST>,
    has_started: bool,
    table: Table,
    form: OutputForm,
    repertoire: Repertoire,
}

/// A value, or its length if it is too long to be shown.
#[derive(Clone, Copy)]
pub(crate) enum ShownText<'a> {
    Value(ValueText<'a>),
    Long(usize),
}

impl fmt::Display for ShownText<'_> {
    fn fmt<W: fmt::Write>(&self, f: &mut fmt::Formatter<W>) -> fmt::Result {
        match self {
            ShownText::Value(text) => write!(f, "{text}"),
            ShownText::Long(length) => write!(f, "({length} bytes)"),
        }
    }
}

impl ShownValue {
    pub(crate) fn new(options: &ShowOptions<'_>) -> ShownValue {
        ShownValue {
            vr: None,
            levels: 0,
            length: None,
            longest: options.longest(),
            bytes: ArrayVec::new(),
            has_started: false,
            table: Table::Elsewhere,
            form: options.form,
            repertoire: Repertoire::Ascii,
        }
    }

    /// Returns whether a value of this length is too long to be shown.
    fn is_long(&self, length: u32) -> bool {
        length as usize > self.longest
    }

    /// Expects no value.
    pub(crate) fn forget(&mut self) {
        self.length = None;
    }

    /// Applies a header, and expects no value until `expect` is called.
    pub(crate) fn begin(&mut self, header: &Header) {
        self.table = self.table.after(header);
        self.forget();
    }

    /// Returns the VR of a header's value; the Basic Offset Table has VR UL.
    fn vr_of(&self, header: &Header) -> Option<Vr> {
        match self.table {
            Table::Here => Some(Vr::UL),
            _ => header.vr.or(vr_of(header.tag)),
        }
    }

    /// Expects the value of this header, if it has one. The value's text is in this repertoire.
    pub(crate) fn expect(&mut self, levels: usize, header: &Header, repertoire: Repertoire) {
        let Header { tag, length, .. } = *header;
        let vr = self.vr_of(header);
        let is_item = tag == Tag::ITEM && vr.is_none();
        let is_container = is_item || vr == Some(Vr::SQ) || length == UNDEFINED;
        if length == 0 || is_container {
            return;
        }
        self.vr = vr;
        self.levels = levels;
        self.repertoire = repertoire;
        self.length = Some(length);
        self.bytes.clear();
        self.has_started = false;
    }

    /// Stores bytes of the value.
    pub(crate) fn take(&mut self, bytes: &[u8]) {
        self.has_started = true;
        if let Some(length) = self.length {
            if !self.is_long(length) {
                let _ = self.bytes.try_extend_from_slice(bytes);
            }
        }
    }

    /// Returns whether the value can be shown: all of its bytes were read, or its length is shown
    /// instead.
    pub(crate) fn is_whole(&self) -> bool {
        match self.length {
            None => false,
            Some(length) if self.is_long(length) => self.has_started,
            Some(length) => self.bytes.len() >= length as usize,
        }
    }

    /// Returns how many levels are open around the value.
    pub(crate) fn levels(&self) -> usize {
        self.levels
    }

    /// Returns the value, or its length if it is too long.
    pub(crate) fn text(&self) -> ShownText<'_> {
        match self.length {
            Some(length) if self.is_long(length) => ShownText::Long(length as usize),
            _ => ShownText::Value(ValueText {
                vr: self.vr,
                value: self.bytes.as_slice(),
                form: self.form,
                repertoire: self.repertoire,
            }),
        }
    }
}
