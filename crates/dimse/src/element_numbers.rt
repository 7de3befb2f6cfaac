//! The element numbers in command sets, group 0000 (PS3.7 annex E).

/// Command Group Length (0000,0000): the number of bytes that follow this element.
pub const LENGTH: u16 = 0x0000;

/// Affected SOP Class UID (0000,0002).
pub const CLASS: u16 = 0x0002;

/// Command Field (0000,0100).
pub const FIELD: u16 = 0x0100;

/// Message ID (0000,0110).
pub const MESSAGE: u16 = 0x0110;

/// Message ID Being Responded To (0000,0120).
pub const RESPONDED: u16 = 0x0120;

/// Command Data Set Type (0000,0800).
pub const DATA_SET_TYPE: u16 = 0x0800;

/// Status (0000,0900).
pub const STATUS: u16 = 0x0900;

/// Offending Element (0000,0901).
pub const OFFENDING: u16 = 0x0901;

/// Error Comment (0000,0902).
pub const COMMENT: u16 = 0x0902;

/// Affected SOP Instance UID (0000,1000).
pub const INSTANCE: u16 = 0x1000;

/// The value of Command Data Set Type for a message without a data set.
pub const NO_DATA_SET: u16 = 0x0101;
