//! The events into which a stream of PDUs is divided.
use crate::head::{PduHead, PdvHead};

/// What the next bytes of a stream of PDUs are, or what they complete (PS3.8 section 9.3).
#[derive(Clone, Copy, Debug, PartialEq, Eq)]
pub enum Event<'p> {
    /// The end of the head of a PDU, its sixth byte.
    PduHead(PduHead),
    /// Bytes of the body of a PDU other than P-DATA-TF, or of the rest of a P-DATA-TF after
    /// `BadPdv` or `Leftover`. Until the PDU ends, only `Body` events and `PduEnd` follow.
    Body(&'p [u8]),
    /// The end of a valid head of a presentation data value: its length is at least 2 and does not
    /// pass the end of the PDU.
    PdvHead(PdvHead),
    /// Bytes of a fragment of a command set or a data set.
    Fragment(&'p [u8]),
    /// The end of a presentation data value.
    PdvEnd,
    /// The end of an invalid head of a presentation data value: its length is below 2 or passes the
    /// end of the PDU. The rest of the PDU is reported as `Body`.
    BadPdv,
    /// One to five bytes of the PDU follow a presentation data value, too few for another one. They
    /// are reported as `Body`.
    Leftover,
    /// The end of a PDU of this type.
    PduEnd(u8),
}
