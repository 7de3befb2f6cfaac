//! How an association ended.
ghost use Rattle.std.specs.Prelude.{◌≡◌};

use crate::cause::Cause;
use crate::words::{provider_words, rejection_words};
use decisions::Decision;
use metrics::CountedEnd;
use service::{REQUEST, ReadEnd};
use std::fmt;

/// The size in bytes of the headers of a PDU and a presentation data value, by which the limit of a
/// request is below `REQUEST`.
const HEADS: usize = 12;

/// The smallest maximum length of a peer that has room for a fragment.
const LEAST_MAXIMUM: u32 = 8;

/// Why a request was rejected: the source and the reason of the A-ASSOCIATE-RJ, and the number in
/// the request that caused it.
#[derive(Clone, Copy, Debug, PartialEq, Eq)]
pub(crate) struct Rejection {
    pub source: u8,
    pub reason: u8,
    pub about: About,
}

/// The number in a request that caused its rejection.
#[derive(Clone, Copy, Debug, PartialEq, Eq)]
pub(crate) enum About {
    /// No number.
    Nothing,
    /// The size of the body of the request in bytes.
    Length(u32),
    /// The maximum length of a P-DATA-TF PDU that the peer receives.
    Maximum(u32),
}

impl fmt::Display for Rejection {
    fn fmt<W: fmt::Write>(&self, f: &mut fmt::Formatter<W>) -> fmt::Result {
        f.write_str(rejection_words(self.source, self.reason))?;
        match self.about {
            About::Nothing => Ok(()),
            About::Length(length) => {
                let most = REQUEST - HEADS;
                write!(f, " (request of {length} bytes, at most {most})")
            }
            About::Maximum(maximum) => {
                write!(f, " (maximum length {maximum}, at least {LEAST_MAXIMUM})")
            }
        }
    }
}

/// The source and the reason of an A-ABORT (PS3.8 section 9.3.8).
#[derive(Clone, Copy, Debug, PartialEq, Eq)]
pub(crate) struct Abort {
    pub source: u8,
    pub reason: u8,
}

impl Abort {
    ghost use Rattle.journal.specs.Ends.{IsEndOf};

    /// Returns the source and the reason of the A-ABORT with which these bytes end.
    pub(crate) fn ending(bytes: &[u8]) -> Abort
        ensures { IsEndOf bytes.now result }
    {
        if bytes.len() < 2 {
            return Abort {
                source: 0,
                reason: 0,
            };
        }
        Abort {
            source: bytes[bytes.len() - 2],
            reason: bytes[bytes.len() - 1],
        }
    }
}

/// Writes whether the service user or provider aborted, and the reason of a provider.
impl fmt::Display for Abort {
    fn fmt<W: fmt::Write>(&self, f: &mut fmt::Formatter<W>) -> fmt::Result {
        match self.source {
            0 => f.write_str("its application"),
            2 => {
                let why = provider_words(self.reason);
                write!(f, "its provider: {why}")
            }
            _ => f.write_str("a reserved source"),
        }
    }
}

/// How an association ended.
#[derive(Clone, Copy, Debug, PartialEq, Eq)]
pub(crate) enum End {
    /// The peer released it.
    Released,
    /// The request was rejected.
    Rejected(Rejection),
    /// The peer aborted it.
    AbortedByPeer(Abort),
    /// dcmbox aborted it by this A-ABORT, with this decision on what the peer had sent.
    Aborted(Abort, Decision),
    /// Reading ended.
    Read(ReadEnd),
    /// A send failed.
    SendFailed,
    /// The file of a store was committed, but could not be made durable.
    FileLost,
}

impl End {
    ghost use Rattle.journal.specs.Ends.{counted_as};

    /// Returns the counter that this end increments, which matches the words in the log.
    pub(crate) fn counted(self) -> CountedEnd
        ensures { result ≡ counted_as self }
    {
        match self {
            End::Released => CountedEnd::Released,
            End::Rejected(_) => CountedEnd::Rejected,
            End::AbortedByPeer(_) => CountedEnd::AbortedByPeer,
            End::Aborted(..) => CountedEnd::AbortedByBox,
            End::Read(ReadEnd::Closed) => CountedEnd::Closed,
            End::Read(ReadEnd::Timer) => CountedEnd::TimerExpired,
            End::Read(ReadEnd::Idle) => CountedEnd::Idle,
            End::Read(ReadEnd::Longest) => CountedEnd::TooLong,
            End::Read(ReadEnd::Stopped) => CountedEnd::Stopping,
            End::Read(ReadEnd::Failed) | End::SendFailed => CountedEnd::ConnectionFailed,
            End::FileLost => CountedEnd::FileLost,
        }
    }
}

impl fmt::Display for End {
    fn fmt<W: fmt::Write>(&self, f: &mut fmt::Formatter<W>) -> fmt::Result {
        match *self {
            End::Released => f.write_str("released"),
            End::Rejected(rejection) => write!(f, "rejected: {rejection}"),
            End::AbortedByPeer(abort) => {
                let Abort { source, reason } = abort;
                write!(
                    f,
                    "aborted by the peer, {abort} (source {source} reason {reason})"
                )
            }
            End::Aborted(abort, decision) => {
                let cause = Cause(abort, decision);
                write!(f, "aborted by dcmbox, {abort} ({cause})")
            }
            End::Read(ReadEnd::Closed) => f.write_str("closed by the peer"),
            End::Read(ReadEnd::Timer) => f.write_str("ARTIM timer expired"),
            End::Read(ReadEnd::Idle) => f.write_str("aborted: the peer was idle"),
            End::Read(ReadEnd::Longest) => f.write_str("aborted: it lasted too long"),
            End::Read(ReadEnd::Stopped) => f.write_str("aborted: the box stops"),
            End::Read(ReadEnd::Failed) | End::SendFailed => f.write_str("the connection failed"),
            End::FileLost => f.write_str("closed by dcmbox: a file was lost"),
        }
    }
}
