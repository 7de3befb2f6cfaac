//! Why the header of a PDU leads to an A-ABORT.

/// Why the header of a PDU leads to an A-ABORT (PS3.8 section 9.2).
#[derive(Clone, Copy, Debug, PartialEq, Eq)]
pub enum HeadFault {
    /// The type is none of the seven PDU types.
    Unrecognized,
    /// A PDU of this type is not allowed in this state.
    Unexpected,
    /// The body of a PDU of this type must have four bytes.
    OtherLength,
    /// An A-ASSOCIATE-RQ is shorter than the 68 bytes before its items.
    ShortRequest,
    /// A P-DATA-TF is longer than this maximum length in bytes, which was announced to the peer.
    LongData(u32),
    /// A P-DATA-TF is too short for the header of a presentation data value.
    ShortData,
}
