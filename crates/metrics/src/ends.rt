//! How associations end, as they are counted.
/// How an association ended, as the metrics distinguish it.
#[derive(Clone, Copy, Debug, PartialEq, Eq)]
pub enum CountedEnd {
    /// The peer released the association.
    Released,
    /// The association request was rejected.
    Rejected,
    /// The peer sent an A-ABORT.
    AbortedByPeer,
    /// This program aborted the association for what the peer had sent.
    AbortedByBox,
    /// The peer closed the connection.
    Closed,
    /// The ARTIM timer expired.
    TimerExpired,
    /// The peer was silent for too long.
    Idle,
    /// The association lasted too long.
    TooLong,
    /// The program stops.
    Stopping,
    /// A read or a send failed.
    ConnectionFailed,
    /// A stored file was lost after it was committed and before it was settled.
    FileLost,
    /// No cause was recorded.
    Unknown,
}

impl CountedEnd {
    /// All variants, in the order of the file, each with the value of its label `end`.
    pub const ALL: [(CountedEnd, &'static str); 12] = [
        (CountedEnd::Released, "released"),
        (CountedEnd::Rejected, "rejected"),
        (CountedEnd::AbortedByPeer, "aborted_by_peer"),
        (CountedEnd::AbortedByBox, "aborted_by_box"),
        (CountedEnd::Closed, "closed_by_peer"),
        (CountedEnd::TimerExpired, "artim_expired"),
        (CountedEnd::Idle, "idle"),
        (CountedEnd::TooLong, "too_long"),
        (CountedEnd::Stopping, "stopping"),
        (CountedEnd::ConnectionFailed, "connection_failed"),
        (CountedEnd::FileLost, "file_lost"),
        (CountedEnd::Unknown, "unknown"),
    ];
}
