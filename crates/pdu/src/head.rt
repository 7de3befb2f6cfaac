//! The heads of PDUs and of presentation data values, of six bytes each.
ghost use Rattle.std.specs.Prelude.{◌≡◌};
ghost use Rattle.pdu.specs.Heads.{pdu_head_of, pdv_head_of};

use byteorder::{BigEndian, ByteOrder};

/// The head of a PDU, its first six bytes (PS3.8 section 9.3.1).
#[derive(Clone, Copy, Debug, PartialEq, Eq)]
pub struct PduHead {
    /// The type of the PDU: one of [`pdu_type`](crate::pdu_type), or an unrecognized one.
    pub kind: u8,
    /// The number of bytes that follow the head.
    pub length: u32,
}

/// The head of a presentation data value, its first six bytes (PS3.8 section 9.3.5.1 and annex
/// E.2).
#[derive(Clone, Copy, Debug, PartialEq, Eq)]
pub struct PdvHead {
    /// The number of bytes that follow this field: context ID, message control header and fragment.
    pub length: u32,
    /// The presentation context ID.
    pub context: u8,
    /// Whether the fragment is part of a command set, else of a data set: bit 0 of the message
    /// control header.
    pub command: bool,
    /// Whether the fragment is the last one: bit 1 of the message control header. Bits 2 to 7 are
    /// ignored.
    pub last: bool,
}

/// Reads the head of a PDU: its type, a reserved byte, which is ignored, and its length in big
/// endian.
pub fn read_pdu_head(bytes: &[u8; 6]) -> PduHead
    ensures { result ≡ pdu_head_of bytes.now }
{
    PduHead {
        kind: bytes[0],
        length: BigEndian::read_u32(&bytes[2..]),
    }
}

/// Reads the head of a presentation data value: its length in big endian, its presentation context
/// ID and its message control header.
pub fn read_pdv_head(bytes: &[u8; 6]) -> PdvHead
    ensures { result ≡ pdv_head_of bytes.now }
{
    PdvHead {
        length: BigEndian::read_u32(bytes),
        context: bytes[4],
        command: bytes[5] % 2 == 1,
        last: bytes[5] / 2 % 2 == 1,
    }
}
