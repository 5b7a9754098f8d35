//! The limits of a certificate.

/// The most cuts that a certificate has.
pub const MAX_CUTS: u32 = 1_048_576;

/// The most records whose lines a text of version 2 has.
pub const MAX_RECORDS: u32 = 1_048_576;

/// The most terms that these have together.
pub const MAX_TOTAL_TERMS: u32 = 67_112_960;
