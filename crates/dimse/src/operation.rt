//! The DIMSE operations that this product performs.
use element::Uid;

/// The operation that a request asks for (PS3.7 sections 9.1.1 and 9.1.5).
#[derive(Debug, Drop)]
pub(crate) enum Operation {
    /// C-ECHO.
    Echo,
    /// C-STORE, with its Affected SOP Instance UID.
    Store { instance: Uid },
}
