//! The options of an inspection.
use crate::keyword::{keyword, known_keyword};
use crate::limits::{LONGEST, LONGEST_SHOWN};
use element::Tag;

/// The format of the output.
#[derive(Clone, Copy, Debug, PartialEq, Eq)]
pub enum OutputForm {
    /// Each finding is a line.
    Lines,
    /// Findings are members of one JSON object, which the caller opened; a brace and a line feed
    /// end it.
    Json,
}

/// Which transfer syntaxes a file may have.
#[derive(Clone, Copy, Debug, PartialEq, Eq)]
pub enum Syntaxes {
    /// The two transfer syntaxes with native Pixel Data.
    Native,
    /// Also the transfer syntaxes with encapsulated Pixel Data.
    All,
    /// As `All`; also files without preamble and File Meta Information (see `bare_form`).
    Any,
}

/// The source of VRs for elements whose headers have none.
#[derive(Clone, Copy, Debug, PartialEq, Eq)]
pub(crate) enum Vocabulary {
    /// The dictionary by which the walker reads a data set.
    Dictionary,
    /// The dictionary and PS3.6.
    Standard,
}

impl Vocabulary {
    /// Returns the keyword of a tag.
    pub(crate) fn keyword(self, tag: Tag) -> Option<&'static str> {
        match self {
            Vocabulary::Dictionary => keyword(tag),
            Vocabulary::Standard => known_keyword(tag),
        }
    }
}

/// The options of a check.
#[derive(Clone, Copy, Debug)]
pub struct CheckOptions {
    /// Whether values are checked against the whole table of VRs.
    pub strict: bool,
    /// Whether a note is written with keyword and value, and a fault with its keyword.
    pub values: bool,
    pub form: OutputForm,
    pub syntaxes: Syntaxes,
}

/// The options of a listing.
#[derive(Clone, Copy, Debug)]
pub struct ShowOptions<'a> {
    /// Whether values are shown.
    pub values: bool,
    /// Whether values are shown whole, up to 65,536 bytes.
    pub full: bool,
    /// Whether the File Meta Information is listed.
    pub meta: bool,
    /// The elements that are shown; empty for all.
    pub tags: &'a [Tag],
    pub form: OutputForm,
    /// Whether lines have the characters of values beyond ASCII, in UTF-8. JSON always has them.
    pub unicode: bool,
    pub syntaxes: Syntaxes,
}

impl ShowOptions<'_> {
    /// Returns whether only the headers of all elements are shown.
    pub(crate) fn is_plain(&self) -> bool {
        !self.values && !self.meta && self.tags.is_empty()
    }

    /// Returns whether elements of the File Meta Information are listed.
    pub(crate) fn has_meta(&self) -> bool {
        self.meta || self.tags.iter().any(|tag: &Tag| tag.0 == 2)
    }

    /// Returns the length in bytes of the longest value that is shown.
    pub(crate) fn longest(&self) -> usize {
        if self.full || self.form == OutputForm::Json {
            LONGEST
        } else {
            LONGEST_SHOWN
        }
    }

    /// Returns the source of VRs: the dictionary alone for a listing in lines without options.
    pub(crate) fn vocabulary(&self) -> Vocabulary {
        if self.is_plain() && self.form == OutputForm::Lines {
            Vocabulary::Dictionary
        } else {
            Vocabulary::Standard
        }
    }

    /// Returns whether the output has characters of values beyond ASCII.
    pub(crate) fn has_unicode(&self) -> bool {
        self.unicode || self.form == OutputForm::Json
    }

    /// Returns what a listing accepts: the transfer syntaxes, the source of VRs, and whether
    /// elements of the File Meta Information are listed.
    pub(crate) fn accepted(&self) -> (Syntaxes, Vocabulary, bool) {
        (self.syntaxes, self.vocabulary(), self.has_meta())
    }

    /// Returns whether elements of this tag are shown.
    pub(crate) fn names(&self, tag: Tag) -> bool {
        self.tags.is_empty() || self.tags.iter().any(|named| *named == tag)
    }
}
