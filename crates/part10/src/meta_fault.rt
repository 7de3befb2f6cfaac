//! The faults of File Meta Information.
ghost use Rattle.std.specs.Prelude.{◌≡◌};
ghost use Rattle.part10.specs.MetaText.{fault_name, fault_number};

use std::fmt;

/// Why the File Meta Information of a file is rejected (PS3.10 section 7.1). The number of each
/// variant is printed.
#[derive(Clone, Copy, Debug, PartialEq, Eq)]
pub enum MetaFault {
    /// 50: the file has no prefix `DICM` after the preamble of 128 bytes.
    NotPart10,
    /// 51: group 0002 does not begin with File Meta Information Group Length, does not end where
    /// that says, or has an element that is invalid, out of order, of odd or undefined length, or
    /// of another group; or the SOP class, SOP instance or transfer syntax UID is missing or
    /// invalid.
    BadMeta,
    /// 53: the transfer syntax is not accepted: `read_meta` accepts the two native ones,
    /// `read_any_meta` each one of the dictionary.
    OtherSyntax,
    /// 54: a read of the file failed.
    ReadFailed,
}

impl MetaFault {
    /// Returns the number of the fault: 50, 51, 53 or 54.
    pub fn number(self) -> u8
        ensures { result ≡ fault_number self }
    {
        match self {
            MetaFault::NotPart10 => 50,
            MetaFault::BadMeta => 51,
            MetaFault::OtherSyntax => 53,
            MetaFault::ReadFailed => 54,
        }
    }

    /// Returns the printed name of the fault, which is that of the variant.
    pub fn name(self) -> &'static str
        ensures { result.now ≡ fault_name self }
    {
        match self {
            MetaFault::NotPart10 => "NotPart10",
            MetaFault::BadMeta => "BadMeta",
            MetaFault::OtherSyntax => "OtherSyntax",
            MetaFault::ReadFailed => "ReadFailed",
        }
    }
}

/// Prints the number and the name, as `51 BadMeta`.
impl fmt::Display for MetaFault {
    fn fmt<W: fmt::Write>(&self, f: &mut fmt::Formatter<W>) -> fmt::Result {
        write!(f, "{} {}", self.number(), self.name())
    }
}
