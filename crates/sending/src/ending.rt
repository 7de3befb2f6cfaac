//! How an association ends early.
use std::{fmt, io};

/// Why an association ended before its release.
#[derive(Drop)]
pub enum Ending {
    /// The peer sent an A-ASSOCIATE-RJ with this result, source and reason.
    Rejected(u8, u8, u8),
    /// The peer sent an A-ABORT with this source and reason.
    Aborted(u8, u8),
    /// The peer sent what the standard does not allow there.
    Invalid(&'static str),
    /// The connection broke, the peer closed it, or it was silent for too long.
    Broken(io::Error),
    /// The file cannot be read to its end. The association was aborted.
    Unread(io::Error),
}

impl fmt::Display for Ending {
    fn fmt<W: fmt::Write>(&self, f: &mut fmt::Formatter<W>) -> fmt::Result {
        match self {
            Ending::Rejected(outcome, source, reason) => {
                write!(
                    f,
                    "association rejected: result {outcome} source {source} reason {reason}"
                )
            }
            Ending::Aborted(source, reason) => {
                write!(
                    f,
                    "association aborted by the peer: source {source} reason {reason}"
                )
            }
            Ending::Invalid(what) => write!(f, "association aborted: the peer sent {what}"),
            Ending::Broken(error) => write!(f, "connection lost: {error}"),
            Ending::Unread(error) => write!(f, "the file can't be read: {error}"),
        }
    }
}
