//! Limits of a record: of cuts with multipliers that show a bound.

/// The most terms that a record has.
pub const MAX_TERMS: usize = 4096;

/// The greatest scale of a record.
pub const MAX_SCALE: u32 = 65_536;
