//! The names of this implementation for peers and for the files that it writes.

/// The implementation class UID (PS3.7 annex D.3.3.2, PS3.10 section 7.1).
pub const IMPLEMENTATION_CLASS_UID: &[u8] = b"2.25.20260101";

/// The implementation version name: 1 to 16 characters (PS3.7 annex D.3.3.2, PS3.10 section 7.1).
pub const IMPLEMENTATION_VERSION_NAME: &[u8] = b"DCMBOX_1";
