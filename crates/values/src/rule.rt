//! Checks a single value of an element against a rule of the table of VRs.
ghost use Rattle.std.specs.Prelude.{◌≡◌};
ghost use Rattle.values.specs.Forms as forms;

use crate::calendar::is_date;
use crate::clock::is_time;
use crate::fault::FormFault;
use crate::moment::{has_date, has_time, is_offset, offset_part};
use crate::name::{groups_are_at_most, is_name};
use crate::numbers::{fits_32_bits, is_decimal, is_integer};
use crate::texts::{are_lines, is_locator, is_string};
use element::without_trailing_spaces;

/// A rule of the table of VRs (PS3.5 table 6.2-1): what a single value must be or have.
#[derive(Clone, Copy)]
pub(crate) enum FormRule {
    /// At most this number of characters.
    AtMost(usize),
    /// At most this number of characters in each component group of a person name.
    GroupsAtMost(usize),
    /// No control character except ESC.
    String,
    /// No control character except TAB, LF, FF, CR and ESC.
    Lines,
    /// A date that exists.
    Day,
    /// A time of day that exists.
    Clock,
    /// In a date time, a date that exists.
    DayOfMoment,
    /// In a date time, a time of day that exists, or none.
    ClockOfMoment,
    /// In a date time, a valid offset from UTC, or none.
    OffsetOfMoment,
    /// A decimal number.
    Decimal,
    /// An integer.
    Integer,
    /// An integer from -2^31 to 2^31 - 1.
    Range,
    /// At most three component groups of at most five components each, as in a person name.
    Name,
    /// Not spaces alone.
    Title,
    /// Only characters that a URI may have.
    Locator,
}

impl FormRule {
    /// Returns the fault of a value that breaks the rule.
    pub(crate) fn fault(self) -> FormFault
        ensures { result ≡ forms.fault_of_rule self }
    {
        match self {
            FormRule::AtMost(_) | FormRule::GroupsAtMost(_) => FormFault::LongText,
            FormRule::String | FormRule::Lines => FormFault::BadControl,
            FormRule::Day | FormRule::DayOfMoment => FormFault::NoSuchDate,
            FormRule::Clock | FormRule::ClockOfMoment => FormFault::NoSuchTime,
            FormRule::OffsetOfMoment => FormFault::NoSuchOffset,
            FormRule::Decimal | FormRule::Integer => FormFault::BadNumber,
            FormRule::Range => FormFault::OutOfRange,
            FormRule::Name => FormFault::BadName,
            FormRule::Title => FormFault::BlankTitle,
            FormRule::Locator => FormFault::BadLocator,
        }
    }
}

/// Returns whether an offset from UTC is empty or valid.
fn is_no_other_offset(offset: &[u8]) -> bool
    ensures { result ≡ forms.is_no_other_offset offset.now }
{
    offset.is_empty() || is_offset(offset)
}

/// Returns whether a text that is not empty and has no trailing spaces obeys a rule.
fn text_obeys(rule: FormRule, text: &[u8]) -> bool
    ensures { result ≡ forms.text_obeys rule text.now }
{
    match rule {
        FormRule::Day => is_date(text),
        FormRule::Clock => is_time(text),
        FormRule::DayOfMoment => has_date(text),
        FormRule::ClockOfMoment => has_time(text),
        FormRule::OffsetOfMoment => is_no_other_offset(offset_part(text)),
        FormRule::Decimal => is_decimal(text),
        FormRule::Integer => is_integer(text),
        FormRule::Range => fits_32_bits(text),
        FormRule::Name => is_name(text),
        FormRule::Locator => is_locator(text),
        _ => true,
    }
}

/// Returns whether a single value obeys a rule. An empty value obeys every rule; a value of spaces
/// alone obeys each rule on form but `Title`.
pub(crate) fn obeys(rule: FormRule, part: &[u8]) -> bool
    ensures { result ≡ forms.obeys rule part.now }
{
    let text = without_trailing_spaces(part);
    match rule {
        FormRule::AtMost(most) => part.len() <= most,
        FormRule::GroupsAtMost(most) => groups_are_at_most(most, part),
        FormRule::String => is_string(part),
        FormRule::Lines => are_lines(part),
        FormRule::Title => part.is_empty() || !text.is_empty(),
        _ => text.is_empty() || text_obeys(rule, text),
    }
}
