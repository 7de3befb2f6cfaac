//! The faults for which a DIMSE message is rejected.
ghost use Rattle.std.specs.Prelude.{◌≡◌};
ghost use Rattle.dimse.specs.Fault.{fault_name, number_of};

use std::fmt;

/// Why a DIMSE message is rejected, after which the local user aborts the association. The number
/// of each variant is logged.
#[derive(Clone, Copy, Debug, PartialEq, Eq)]
pub enum DimseFault {
    /// 40: the command set has more bytes than the receiver's limit (1,024 in the program).
    CommandTooLong,
    /// 41: the bytes are not a command set, or a required element is missing or invalid.
    BadCommand,
    /// 42: the Command Field is neither that of C-ECHO-RQ nor that of C-STORE-RQ.
    UnknownField,
    /// 43: a C-ECHO announces a data set, or a C-STORE announces none; or a fragment is of a data
    /// set where a command set is required, or the reverse.
    WrongKind,
    /// 44: a fragment has another presentation context ID than the first fragment of the message.
    OtherContext,
}

impl DimseFault {
    /// Returns the number of the fault, from 40 to 44.
    pub fn number(self) -> u8
        ensures { result ≡ number_of self }
    {
        match self {
            DimseFault::CommandTooLong => 40,
            DimseFault::BadCommand => 41,
            DimseFault::UnknownField => 42,
            DimseFault::WrongKind => 43,
            DimseFault::OtherContext => 44,
        }
    }

    /// Returns the name of the fault, which is that of the variant.
    pub fn name(self) -> &'static str
        ensures { result.now ≡ fault_name self }
    {
        match self {
            DimseFault::CommandTooLong => "CommandTooLong",
            DimseFault::BadCommand => "BadCommand",
            DimseFault::UnknownField => "UnknownField",
            DimseFault::WrongKind => "WrongKind",
            DimseFault::OtherContext => "OtherContext",
        }
    }
}

/// Prints the number and the name, as `41 BadCommand`.
impl fmt::Display for DimseFault {
    fn fmt<W: fmt::Write>(&self, f: &mut fmt::Formatter<W>) -> fmt::Result {
        write!(f, "{} {}", self.number(), self.name())
    }
}
