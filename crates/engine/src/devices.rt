//! The wire and the filing of an association.

/// The wire and the filing of an association, borrowed for one call.
#[derive(Drop)]
pub(crate) struct Devices<'d, W, F> {
    pub(crate) wire: &'d mut W,
    pub(crate) filing: &'d mut F,
}
