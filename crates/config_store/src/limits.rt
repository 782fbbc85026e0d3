/// The most registers that the boards of a session may keep together (profile): as many writes and as many reads are
/// the most operations of a session.
pub const MAX_KEPT: usize = 50_000;
