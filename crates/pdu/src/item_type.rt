//! The types of the items and sub-items of an A-ASSOCIATE-RQ and an A-ASSOCIATE-AC: the first byte
//! of each (PS3.8 sections 9.3.2 and 9.3.3, annex D.1; PS3.7 annex D.3.3.2).

/// Application context.
pub const APPLICATION_CONTEXT: u8 = 0x10;

/// A presentation context that a request proposes.
pub const PROPOSED_CONTEXT: u8 = 0x20;

/// A presentation context in an A-ASSOCIATE-AC.
pub const ANSWERED_CONTEXT: u8 = 0x21;

/// Abstract syntax, in a proposed presentation context.
pub const ABSTRACT_SYNTAX: u8 = 0x30;

/// Transfer syntax, in a presentation context.
pub const TRANSFER_SYNTAX: u8 = 0x40;

/// User information.
pub const USER_INFORMATION: u8 = 0x50;

/// Maximum length, in user information.
pub const MAXIMUM_LENGTH: u8 = 0x51;

/// Implementation class UID, in user information.
pub const IMPLEMENTATION_CLASS_UID: u8 = 0x52;

/// Implementation version name, in user information.
pub const IMPLEMENTATION_VERSION_NAME: u8 = 0x55;
