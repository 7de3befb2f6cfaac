//! The values of Status (0000,0900) in responses (PS3.7 annex C, PS3.4 annex B.2.3).

/// Success.
pub const SUCCESS: u16 = 0x0000;

/// Refused: SOP class not supported.
pub const CLASS_NOT_SUPPORTED: u16 = 0x0122;

/// Refused: out of resources.
pub const OUT_OF_RESOURCES: u16 = 0xa700;

/// Error: data set does not match SOP class.
pub const DATA_SET_MISMATCH: u16 = 0xa900;

/// Error: cannot understand.
pub const CANNOT_UNDERSTAND: u16 = 0xc000;
