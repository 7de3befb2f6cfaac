//! The faults of values by the table of VRs.
ghost use Rattle.std.specs.Prelude.{◌≡◌};
ghost use Rattle.values.specs.Forms as forms;

use std::fmt;

/// How a value breaks the rules of its VR on form (PS3.5 table 6.2-1), beyond the characters and
/// sizes of `element::ValueFault`, whose numbers these continue.
#[derive(Clone, Copy, Debug, PartialEq, Eq)]
pub enum FormFault {
    /// 5: a value has more characters than its VR allows. Padding spaces count, except one at the
    /// end of the value field.
    LongText,
    /// 6: a text has a control character that its VR does not allow.
    BadControl,
    /// 7: a date does not exist in the calendar.
    NoSuchDate,
    /// 8: a time of day does not exist.
    NoSuchTime,
    /// 9: an offset from UTC is not from -1200 to +1400, or is -0000.
    NoSuchOffset,
    /// 10: a text is not a number.
    BadNumber,
    /// 11: an integer is not from -2^31 to 2^31 - 1.
    OutOfRange,
    /// 12: a person name has more than three component groups, or a group of more than five
    /// components.
    BadName,
    /// 13: an application entity title consists of spaces alone.
    BlankTitle,
    /// 14: a URI has a character that URIs may not have, or leading spaces.
    BadLocator,
}

impl FormFault {
    /// Returns the number of the fault, from 5 to 14.
    pub fn number(self) -> u8
        ensures { result ≡ forms.form_number self }
    {
        match self {
            FormFault::LongText => 5,
            FormFault::BadControl => 6,
            FormFault::NoSuchDate => 7,
            FormFault::NoSuchTime => 8,
            FormFault::NoSuchOffset => 9,
            FormFault::BadNumber => 10,
            FormFault::OutOfRange => 11,
            FormFault::BadName => 12,
            FormFault::BlankTitle => 13,
            FormFault::BadLocator => 14,
        }
    }

    /// Returns the printed name of the fault, which is that of the variant.
    pub fn name(self) -> &'static str
        ensures { result.now ≡ forms.form_name self }
    {
        match self {
            FormFault::LongText => "LongText",
            FormFault::BadControl => "BadControl",
            FormFault::NoSuchDate => "NoSuchDate",
            FormFault::NoSuchTime => "NoSuchTime",
            FormFault::NoSuchOffset => "NoSuchOffset",
            FormFault::BadNumber => "BadNumber",
            FormFault::OutOfRange => "OutOfRange",
            FormFault::BadName => "BadName",
            FormFault::BlankTitle => "BlankTitle",
            FormFault::BadLocator => "BadLocator",
        }
    }
}

impl fmt::Display for FormFault {
    fn fmt<W: fmt::Write>(&self, f: &mut fmt::Formatter<W>) -> fmt::Result {
        f.write_str(self.name())
    }
}
