//! The meanings of the numbers in an A-ASSOCIATE-RJ, in an A-ABORT, and in the result of a context
//! (PS3.8 sections 9.3.3, 9.3.4 and 9.3.8).

/// Returns why an association was rejected, from the source and the reason of its A-ASSOCIATE-RJ
/// (PS3.8 Table 9-21).
pub fn rejection_words(source: u8, reason: u8) -> &'static str {
    match (source, reason) {
        (1, 1) => "no reason given",
        (1, 2) => "application context name not supported",
        (1, 3) => "calling AE title not recognized",
        (1, 7) => "called AE title not recognized",
        (2, 1) => "no reason given by the service provider",
        (2, 2) => "protocol version not supported",
        (3, 1) => "temporary congestion",
        (3, 2) => "local limit exceeded",
        _ => "reserved reason",
    }
}

/// Returns why a service provider aborted an association, from the reason of its A-ABORT (PS3.8
/// Table 9-26).
pub fn provider_words(reason: u8) -> &'static str {
    match reason {
        0 => "reason not specified",
        1 => "unrecognized PDU",
        2 => "unexpected PDU",
        4 => "unrecognized PDU parameter",
        5 => "unexpected PDU parameter",
        6 => "invalid PDU parameter value",
        _ => "reserved reason",
    }
}

/// Returns the meaning of the result of a presentation context (PS3.8 Table 9-18).
pub(crate) fn context_words(answer: u8) -> &'static str {
    match answer {
        0 => "acceptance",
        1 => "user rejection",
        2 => "no reason",
        3 => "abstract syntax not supported",
        4 => "transfer syntaxes not supported",
        _ => "reserved result",
    }
}
