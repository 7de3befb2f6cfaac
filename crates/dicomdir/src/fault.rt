//! The faults of directory files.
ghost use Rattle.std.specs.Prelude.{◌≡◌};
ghost use Rattle.sequence.specs.Rules.{no_tag};
ghost use Rattle.dicomdir.specs.FaultNumbers as names;

use crate::rule::DirRule;
use element::Tag;
use part10::MetaFault;
use sequence::Fault;
use std::fmt;
use std::fmt::{Display, Formatter};

/// Why a directory file is invalid, or cannot be built.
#[derive(Clone, Copy, Debug, PartialEq, Eq)]
pub struct DirFault {
    /// The number of the rule: 10 to 20 are rules of a data set (`element::Rule`), 50, 51 and 53
    /// faults of File Meta Information (`part10::MetaFault`), and 60 to 68 rules of directories
    /// ([`DirRule`]).
    pub number: u8,
    /// The position of the fault in bytes from the start of the file; 0 for 66 and 67.
    pub offset: u64,
    /// The tag of a fault of the data set (10 to 20); (0000,0000) for all others.
    pub tag: Tag,
}

impl DirFault {
    /// The number of `DirRule::BadOffset`.
    pub const BAD_OFFSET: u8 = DirRule::BadOffset as u8;

    /// The number of `DirRule::Cycle`.
    pub const CYCLE: u8 = DirRule::Cycle as u8;

    /// The number of `DirRule::TwiceReached`.
    pub const TWICE_REACHED: u8 = DirRule::TwiceReached as u8;

    /// The number of `DirRule::Unreached`.
    pub const UNREACHED: u8 = DirRule::Unreached as u8;

    /// The number of `DirRule::WrongLevel`.
    pub const WRONG_LEVEL: u8 = DirRule::WrongLevel as u8;

    /// The number of `DirRule::BadFileId`.
    pub const BAD_FILE_ID: u8 = DirRule::BadFileId as u8;

    /// The number of `DirRule::TooLarge`.
    pub const TOO_LARGE: u8 = DirRule::TooLarge as u8;

    /// The number of `DirRule::OutOfMemory`.
    pub const OUT_OF_MEMORY: u8 = DirRule::OutOfMemory as u8;

    /// The number of `DirRule::BadRecord`.
    pub const BAD_RECORD: u8 = DirRule::BadRecord as u8;

    /// Returns the fault with this number at this position of the file, without a tag.
    pub(crate) fn at(number: u8, offset: u64) -> DirFault
        ensures { result ≡ record { number = number; offset = offset; tag = no_tag } }
    {
        DirFault {
            number,
            offset,
            tag: Tag(0, 0),
        }
    }

    /// Returns the fault of a file that would be too large (66).
    pub fn too_large() -> DirFault
        ensures { result ≡ record { number = 66; offset = 0; tag = no_tag } }
    {
        DirFault::at(DirFault::TOO_LARGE, 0)
    }

    /// Returns the fault that memory ran out (67).
    pub fn out_of_memory() -> DirFault
        ensures { result ≡ record { number = 67; offset = 0; tag = no_tag } }
    {
        DirFault::at(DirFault::OUT_OF_MEMORY, 0)
    }

    /// Returns this fault as one of a data set, with the same number, position and tag.
    fn of_data_set(self) -> Fault
        ensures { result ≡ record { number = self.number; offset = self.offset; tag = self.tag } }
    {
        Fault {
            number: self.number,
            offset: self.offset,
            tag: self.tag,
        }
    }

    /// Returns the name of the rule, or `Unknown` if no rule has this number.
    pub fn name(self) -> &'static str
        ensures { result.now ≡ names.name_of_number self.number }
    {
        match self.number {
            50 => MetaFault::NotPart10.name(),
            51 => MetaFault::BadMeta.name(),
            53 => MetaFault::OtherSyntax.name(),
            number => match DirRule::of(number) {
                Some(rule) => rule.name(),
                None => self.of_data_set().name(),
            },
        }
    }
}

/// Prints the number and the name of the rule and the position, as `60 BadOffset at 320`; for a
/// fault of the data set also the tag, as `17 Overrun at 346 tag 0008,0060`.
impl Display for DirFault {
    fn fmt<W: fmt::Write>(&self, f: &mut Formatter<W>) -> fmt::Result {
        if 10 <= self.number && self.number <= 21 {
            return self.of_data_set().fmt(f);
        }
        write!(f, "{} {} at {}", self.number, self.name(), self.offset)
    }
}
