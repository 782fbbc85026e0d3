/// The most bytes of an id (profile).
pub const MAX_ID_BYTES: usize = 64;

/// The most words of a block or a port (profile).
pub const MAX_WORDS: u32 = 4_194_304;

/// The most registers that one node may name by indexes (profile).
pub const MAX_INDEXES: u32 = 65_536;
