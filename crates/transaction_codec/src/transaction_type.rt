//! The type, bits 7-4 of a header. IPbus 2.0, transaction header. This profile has no others.

/// A read of consecutive addresses (IPbus 2.0, transaction types).
pub const READ: u8 = 0;
/// A write of consecutive addresses (IPbus 2.0, transaction types).
pub const WRITE: u8 = 1;
/// Reads one address again and again.
pub const READ_PORT: u8 = 2;
/// Writes one address again and again.
pub const WRITE_PORT: u8 = 3;
/// Reads a word X and writes (X AND A) OR B.
pub const RMW_BITS: u8 = 4;
/// Reads a word X and writes the sum of X and an addend, modulo 2^32.
pub const RMW_SUM: u8 = 5;
