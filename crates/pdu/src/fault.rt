//! The faults of an A-ASSOCIATE-RQ.
ghost use Rattle.std.specs.Prelude.{◌≡◌};

use std::fmt;

/// Why an A-ASSOCIATE-RQ is invalid. Each fault has a number.
#[derive(Clone, Copy, Debug, PartialEq, Eq)]
pub enum PduFault {
    /// 31: a body of fewer than 68 bytes, an item or sub-item that passes the end of the body or
    /// item around it, one to three bytes after the last item, or a proposed presentation context
    /// without its ID and reserved bytes.
    BadLength,
    /// 32: a second application context, user information or maximum length, a maximum length that
    /// is not of four bytes, or a proposed presentation context without exactly one abstract syntax
    /// and at least one transfer syntax.
    BadItem,
    /// 33: an even presentation context ID.
    BadContextId,
    /// 34: the presentation context ID of an earlier proposed presentation context.
    DoubleContext,
    /// 35: no application context, no proposed presentation context or no user information.
    Missing,
}

impl PduFault {
    ghost use Rattle.pdu.specs.Fault.{fault_name, fault_number};

    /// Returns the number of the fault, from 31 to 35.
    pub fn number(self) -> u8
        ensures { result ≡ fault_number self }
    {
        match self {
            PduFault::BadLength => 31,
            PduFault::BadItem => 32,
            PduFault::BadContextId => 33,
            PduFault::DoubleContext => 34,
            PduFault::Missing => 35,
        }
    }

    /// Returns the name of the fault, which is that of the variant.
    pub fn name(self) -> &'static str
        ensures { result.now ≡ fault_name self }
    {
        match self {
            PduFault::BadLength => "BadLength",
            PduFault::BadItem => "BadItem",
            PduFault::BadContextId => "BadContextId",
            PduFault::DoubleContext => "DoubleContext",
            PduFault::Missing => "Missing",
        }
    }
}

/// Prints the number and the name, as `31 BadLength`.
impl fmt::Display for PduFault {
    fn fmt<W: fmt::Write>(&self, f: &mut fmt::Formatter<W>) -> fmt::Result {
        write!(f, "{} {}", self.number(), self.name())
    }
}
