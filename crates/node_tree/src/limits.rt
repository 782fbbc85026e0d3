/// The most names that a walk through a table and its modules may come to, and so the most registers of an index
/// (profile).
pub const MAX_NODES: usize = 65_536;

/// The most ids in the name of a register (profile).
pub const MAX_IDS: u32 = 16;
