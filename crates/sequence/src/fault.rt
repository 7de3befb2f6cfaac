//! The first fault of a data set.
ghost use Rattle.std.specs.Prelude.{◌≡◌};
ghost use Rattle.element.specs.RuleNames.{rule_name, rule_number, rule_of};

use element::{Rule, Tag};
use std::fmt;

/// The first rule that a data set breaks, with offset and tag. After it a [`Walker`](crate::Walker)
/// reads no further bytes.
#[derive(Clone, Copy, Debug, PartialEq, Eq)]
pub struct Fault {
    /// The number of the rule (see [`Rule`]), from 10 to 21.
    pub number: u8,
    /// The offset of the header that breaks the rule, in bytes from the start of the data set. For
    /// `Truncated` (20), the number of bytes of the unfinished data set.
    pub offset: u64,
    /// The tag of that header, or of the unfinished header or value; (0000,0000) if fewer than the
    /// four bytes of a tag were read.
    pub tag: Tag,
}

impl Fault {
    /// The number of `Rule::BadVr`.
    pub const BAD_VR: u8 = Rule::BadVr as u8;

    /// The number of `Rule::OddLength`.
    pub const ODD_LENGTH: u8 = Rule::OddLength as u8;

    /// The number of `Rule::Order`.
    pub const NOT_RISING: u8 = Rule::Order as u8;

    /// The number of `Rule::BadGroup`.
    pub const BAD_GROUP: u8 = Rule::BadGroup as u8;

    /// The number of `Rule::UndefinedLength`.
    pub const UNDEFINED_NOT_ALLOWED: u8 = Rule::UndefinedLength as u8;

    /// The number of `Rule::UnexpectedTag`.
    pub const UNEXPECTED_TAG: u8 = Rule::UnexpectedTag as u8;

    /// The number of `Rule::DelimiterLength`.
    pub const DELIMITER_LENGTH: u8 = Rule::DelimiterLength as u8;

    /// The number of `Rule::Overrun`.
    pub const OVERRUN: u8 = Rule::Overrun as u8;

    /// The number of `Rule::TooDeep`.
    pub const TOO_DEEP: u8 = Rule::TooDeep as u8;

    /// The number of `Rule::TooLong`.
    pub const TOO_LONG: u8 = Rule::TooLong as u8;

    /// The number of `Rule::Truncated`.
    pub const TRUNCATED: u8 = Rule::Truncated as u8;

    /// The number of `Rule::KeptTooLong`.
    pub const KEPT_TOO_LONG: u8 = Rule::KeptTooLong as u8;

    /// Returns the fault of a header at the offset `offset` with this tag.
    pub(crate) fn new(rule: Rule, offset: u64, tag: Tag) -> Fault
        ensures { result ≡ record { number = rule_number rule; offset = offset; tag = tag } }
    {
        Fault {
            number: rule.number(),
            offset,
            tag,
        }
    }

    /// Returns the broken rule, or `None` if no rule has this number.
    pub fn rule(self) -> Option<Rule>
        ensures { result ≡ rule_of self.number }
    {
        Rule::of(self.number)
    }

    /// Returns the name of the rule, or `Unknown` if no rule has this number.
    pub fn name(self) -> &'static str
        ensures { result.now ≡ rule_name self.number }
    {
        match self.rule() {
            Some(rule) => rule.name(),
            None => "Unknown",
        }
    }
}

/// Prints the number and the name of the rule, the offset in bytes and the tag, as `17 Overrun at
/// 26 tag 0008,0060`.
impl fmt::Display for Fault {
    fn fmt<W: fmt::Write>(&self, f: &mut fmt::Formatter<W>) -> fmt::Result {
        let Tag(group, element) = self.tag;
        write!(
            f,
            "{} {} at {} tag {group:04x},{element:04x}",
            self.number,
            self.name(),
            self.offset
        )
    }
}
