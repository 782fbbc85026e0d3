/// The version of the protocol, in bits 31 to 28 of each packet header and each transaction header (IPbus 2.0).
pub const VERSION: u32 = 2;
