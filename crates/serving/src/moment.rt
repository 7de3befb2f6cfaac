//! When an association was given an input.
use crate::deadlines::Deadlines;
use std::snapshot::Snapshot;
use std::time::Instant;

/// For contracts: when an association was given an input, and the deadlines after that.
#[derive(Drop)]
pub struct Moment {
    /// Whether the input is an abort that was requested.
    pub(crate) is_asked: bool,
    /// The deadlines after the input.
    pub(crate) remaining: Snapshot<Deadlines>,
    pub(crate) now: Instant,
}
