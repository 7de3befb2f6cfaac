//! The numbers in an A-ASSOCIATE-RJ (PS3.8 section 9.3.4, Table 9-21).

/// Result: rejected-permanent.
pub const PERMANENT: u8 = 1;

/// Result: rejected-transient.
pub const TRANSIENT: u8 = 2;

/// Source: DICOM UL service-user.
pub const SERVICE_USER: u8 = 1;

/// Source: DICOM UL service-provider (ACSE related function).
pub const SERVICE_PROVIDER_ACSE: u8 = 2;

/// Source: DICOM UL service-provider (presentation related function).
pub const SERVICE_PROVIDER_PRESENTATION: u8 = 3;

/// Reason of the service-user: no-reason-given.
pub const NO_REASON_GIVEN: u8 = 1;

/// Reason of the service-user: application-context-name-not-supported.
pub const APPLICATION_CONTEXT_NAME_NOT_SUPPORTED: u8 = 2;

/// Reason of the service-user: calling-AE-title-not-recognized.
pub const CALLING_AE_TITLE_NOT_RECOGNIZED: u8 = 3;

/// Reason of the service-user: called-AE-title-not-recognized.
pub const CALLED_AE_TITLE_NOT_RECOGNIZED: u8 = 7;

/// Reason of the service-provider, ACSE: protocol-version-not-supported.
pub const PROTOCOL_VERSION_NOT_SUPPORTED: u8 = 2;

/// Reason of the service-provider, presentation: local-limit-exceeded.
pub const LOCAL_LIMIT_EXCEEDED: u8 = 2;
