//! Why a file has no row.
use element::Tag;

/// Why a file has no row in a directory.
#[derive(Clone, Copy, Debug, PartialEq, Eq)]
pub enum Skip {
    /// The File Meta Information or the data set has the fault with this number (10 to 21, 50, 51,
    /// 53), or a read failed (54).
    Fault(u8),
    /// The first key of type 1 that is missing or empty, by its tag.
    Missing(Tag),
    /// Memory ran out.
    OutOfMemory,
}
