//! The rules of directories.
ghost use Rattle.std.specs.Prelude.{◌≡◌};
ghost use Rattle.std.specs.List.{find};
ghost use Rattle.dicomdir.specs.FaultNumbers as numbers;

/// A rule that the records of a directory and their offsets must obey (PS3.3 annex F; the limits
/// and the numbers are this product's own profile). The variant says how a directory breaks the
/// rule; its discriminant is the number that is printed.
#[derive(Clone, Copy, Debug, PartialEq, Eq)]
pub enum DirRule {
    /// An offset is not the position of a record. It is reported at the record that has the offset,
    /// or at the element of the root.
    BadOffset = 60,
    /// An offset leads back to the record that has it, to an earlier sibling of that record, or to
    /// a record above it.
    Cycle = 61,
    /// An offset leads to any other record that was reached before.
    TwiceReached = 62,
    /// A record in use is reached by no offset.
    Unreached = 63,
    /// The Directory Record Type of a record does not fit its level.
    WrongLevel = 64,
    /// The Referenced File ID of a record in use is invalid, or an IMAGE record has none.
    BadFileId = 65,
    /// The file would have 2^32 bytes or more, or more than the caller's limit.
    TooLarge = 66,
    /// Memory ran out.
    OutOfMemory = 67,
    /// A required element of the root or of a record is missing, or its value is wrong.
    BadRecord = 68,
}

/// Returns the first of these rules that has this number.
fn first_with(rules: &[DirRule], number: u8) -> Option<DirRule>
    ensures { result ≡ find (numbers.has_number number) rules.now }
{
    rules.iter().copied().find(|rule| rule.number() == number)
}

impl DirRule {
    /// Returns all rules, in the order of their numbers.
    fn all() -> [DirRule; 9]
        ensures { result ≡ numbers.all_rules }
    {
        [
            DirRule::BadOffset,
            DirRule::Cycle,
            DirRule::TwiceReached,
            DirRule::Unreached,
            DirRule::WrongLevel,
            DirRule::BadFileId,
            DirRule::TooLarge,
            DirRule::OutOfMemory,
            DirRule::BadRecord,
        ]
    }

    /// Returns the rule with this number, or `None` if no rule has it.
    pub fn of(number: u8) -> Option<DirRule>
        ensures { result ≡ numbers.rule_of number }
    {
        first_with(&DirRule::all(), number)
    }

    /// Returns the number of the rule, from 60 to 68.
    pub fn number(self) -> u8
        ensures { result ≡ numbers.rule_number self }
    {
        self as u8
    }

    /// Returns the name of the rule, as it is printed: that of the variant.
    pub fn name(self) -> &'static str
        ensures { result.now ≡ numbers.text_of_rule self }
    {
        match self {
            DirRule::BadOffset => "BadOffset",
            DirRule::Cycle => "Cycle",
            DirRule::TwiceReached => "TwiceReached",
            DirRule::Unreached => "Unreached",
            DirRule::WrongLevel => "WrongLevel",
            DirRule::BadFileId => "BadFileId",
            DirRule::TooLarge => "TooLarge",
            DirRule::OutOfMemory => "OutOfMemory",
            DirRule::BadRecord => "BadRecord",
        }
    }
}
