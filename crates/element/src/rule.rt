//! The rules that a data set has to obey.
ghost use Rattle.std.specs.Prelude.{◌≡◌, ◌≤◌, length};
ghost use Rattle.std.specs.List.{find};
ghost use Rattle.element.specs.RuleNames as names;

/// A rule that a data set has to obey (PS3.5 chapter 7; the limits and the numbers are this
/// product's own profile). Each variant describes what breaks the rule; its discriminant is the
/// number that is logged and printed.
#[derive(Clone, Copy, Debug, PartialEq, Eq)]
pub enum Rule {
    /// A header in Explicit VR whose VR field is not two capital letters.
    BadVr = 10,
    /// A defined length that is odd.
    OddLength = 11,
    /// A tag that is not above the tag of the element before it in the same data set or item.
    Order = 12,
    /// A tag of group 0000 or 0002, which no data set contains.
    BadGroup = 13,
    /// Undefined length of an element or fragment that must have a defined length.
    UndefinedLength = 14,
    /// An item or delimitation where none is allowed, or another element where one is required.
    UnexpectedTag = 15,
    /// A delimitation whose length is not 0.
    DelimiterLength = 16,
    /// A header, value, sequence or item that passes the end of the sequence or item around it.
    Overrun = 17,
    /// More nested sequences and items than the configured limit.
    TooDeep = 18,
    /// A data set of more bytes than the configured limit.
    TooLong = 19,
    /// The data set ends inside a header, a value, a sequence or an item.
    Truncated = 20,
    /// A wanted value (`sequence::Want`) that is longer than its limit.
    KeptTooLong = 21,
}

/// Returns the first of `rules` that has this number, or `None` if none has it.
fn first_with(rules: &[Rule], number: u8) -> Option<Rule>
    ensures { result ≡ find (names.has_number number) rules.now }
{
    rules.iter().copied().find(|rule| rule.number() == number)
}

impl Rule {
    /// Returns all rules, in the order of their numbers.
    fn all() -> [Rule; 12]
        ensures { result ≡ names.all_rules }
    {
        [
            Rule::BadVr,
            Rule::OddLength,
            Rule::Order,
            Rule::BadGroup,
            Rule::UndefinedLength,
            Rule::UnexpectedTag,
            Rule::DelimiterLength,
            Rule::Overrun,
            Rule::TooDeep,
            Rule::TooLong,
            Rule::Truncated,
            Rule::KeptTooLong,
        ]
    }

    /// Returns the rule with this number, or `None` if no rule has it.
    pub fn of(number: u8) -> Option<Rule>
        ensures { result ≡ names.rule_of number }
    {
        first_with(&Rule::all(), number)
    }

    /// Returns the number of the rule, from 10 to 21.
    pub fn number(self) -> u8
        ensures { result ≡ names.rule_number self }
    {
        self as u8
    }

    /// Returns the printed name of the rule, which is that of the variant; at most 16 bytes.
    pub fn name(self) -> &'static str
        ensures value { result.now ≡ names.text_of_rule self }
        ensures short { length result.now ≤ 16 }
    {
        match self {
            Rule::BadVr => "BadVr",
            Rule::OddLength => "OddLength",
            Rule::Order => "Order",
            Rule::BadGroup => "BadGroup",
            Rule::UndefinedLength => "UndefinedLength",
            Rule::UnexpectedTag => "UnexpectedTag",
            Rule::DelimiterLength => "DelimiterLength",
            Rule::Overrun => "Overrun",
            Rule::TooDeep => "TooDeep",
            Rule::TooLong => "TooLong",
            Rule::Truncated => "Truncated",
            Rule::KeptTooLong => "KeptTooLong",
        }
    }
}
