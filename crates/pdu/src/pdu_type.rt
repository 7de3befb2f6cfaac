//! The types of PDUs: the first byte of each (PS3.8 sections 9.3.2 to 9.3.8).

/// A-ASSOCIATE-RQ.
pub const A_ASSOCIATE_RQ: u8 = 0x01;

/// A-ASSOCIATE-AC.
pub const A_ASSOCIATE_AC: u8 = 0x02;

/// A-ASSOCIATE-RJ.
pub const A_ASSOCIATE_RJ: u8 = 0x03;

/// P-DATA-TF.
pub const P_DATA_TF: u8 = 0x04;

/// A-RELEASE-RQ.
pub const A_RELEASE_RQ: u8 = 0x05;

/// A-RELEASE-RP.
pub const A_RELEASE_RP: u8 = 0x06;

/// A-ABORT.
pub const A_ABORT: u8 = 0x07;
