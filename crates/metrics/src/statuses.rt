//! The statuses of responses to C-STOREs, as they are counted (PS3.7 annex C, PS3.4 annex B.2.3).
ghost use Rattle.std.specs.Prelude.{◌≡◌};
ghost use Rattle.metrics.specs.Statuses.{status_of};

/// The status of the response to a C-STORE, as the metrics distinguish it.
#[derive(Clone, Copy, Debug, PartialEq, Eq)]
pub enum CountedStatus {
    /// Success.
    Success,
    /// Refused: SOP class not supported.
    ClassNotSupported,
    /// Refused: out of resources.
    OutOfResources,
    /// Error: data set does not match SOP class.
    DataSetMismatch,
    /// Error: cannot understand.
    CannotUnderstand,
    /// Any other status; this program sends none.
    Other,
}

impl CountedStatus {
    /// All variants, in the order of the file, each with the value of its label `status`: the
    /// status in hexadecimal, or `other`.
    pub const ALL: [(CountedStatus, &'static str); 6] = [
        (CountedStatus::Success, "0000"),
        (CountedStatus::ClassNotSupported, "0122"),
        (CountedStatus::OutOfResources, "A700"),
        (CountedStatus::DataSetMismatch, "A900"),
        (CountedStatus::CannotUnderstand, "C000"),
        (CountedStatus::Other, "other"),
    ];

    /// Returns the variant that counts this status.
    pub fn of(status: u16) -> CountedStatus
        ensures { result ≡ status_of status }
    {
        match status {
            0x0000 => CountedStatus::Success,
            0x0122 => CountedStatus::ClassNotSupported,
            0xa700 => CountedStatus::OutOfResources,
            0xa900 => CountedStatus::DataSetMismatch,
            0xc000 => CountedStatus::CannotUnderstand,
            _ => CountedStatus::Other,
        }
    }
}
