//! The events of the upper layer's state machine.

/// An event of an association: a row of PS3.8 Table 9-10 that concerns an acceptor.
#[derive(Clone, Copy, Debug, PartialEq, Eq)]
pub enum Event {
    /// Transport connection indication: the transport connection is open.
    Connected,
    /// An A-ASSOCIATE-RQ PDU was received that the service provider accepts. `AcceptableRq` and
    /// `UnacceptableRq` are the two outcomes of action AE-6.
    AcceptableRq,
    /// An A-ASSOCIATE-RQ PDU was received that the service provider rejects.
    UnacceptableRq,
    /// An A-ASSOCIATE-AC PDU was received.
    Ac,
    /// An A-ASSOCIATE-RJ PDU was received.
    Rj,
    /// A P-DATA-TF PDU was received.
    Data,
    /// An A-RELEASE-RQ PDU was received.
    ReleaseRq,
    /// An A-RELEASE-RP PDU was received.
    ReleaseRp,
    /// An A-ABORT PDU was received.
    Abort,
    /// An unrecognized or invalid PDU was received.
    Invalid,
    /// Transport connection closed indication: the peer closed the connection, or it broke.
    Closed,
    /// The ARTIM timer expired.
    Expired,
    /// The local user accepts the association (A-ASSOCIATE response primitive, accept).
    UserAccepts,
    /// The local user rejects the association (A-ASSOCIATE response primitive, reject).
    UserRefuses,
    /// The local user agrees to the release (A-RELEASE response primitive).
    UserReleases,
    /// The local user aborts the association (A-ABORT request primitive).
    UserAborts,
}
