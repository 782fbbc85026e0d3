//! The info code, bits 3-0 of a header. IPbus 2.0, transaction header. The others are reserved.

/// The transaction was done.
pub const SUCCESS: u8 = 0;
/// The request's header was bad, or the request was cut short.
pub const BAD_HEADER: u8 = 1;
/// Bus error on read.
pub const READ_ERROR: u8 = 4;
/// Bus error on write.
pub const WRITE_ERROR: u8 = 5;
/// Bus timeout on read.
pub const READ_TIMEOUT: u8 = 6;
/// Bus timeout on write.
pub const WRITE_TIMEOUT: u8 = 7;
/// The transaction is a request.
pub const REQUEST: u8 = 15;
