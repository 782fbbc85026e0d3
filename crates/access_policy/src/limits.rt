/// The most rules of a policy (profile).
pub const MAX_RULES: usize = 1024;

/// The greatest index of a register in a name and in a pattern (profile).
pub const MAX_INDEX: u32 = 65_535;
