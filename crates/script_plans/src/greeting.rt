//! What greeting a board told.

/// What greeting a board told (profile).
#[derive(Clone, Copy, PartialEq, Eq)]
pub enum Greeting {
    /// The board answered. `payload` is the words of the longest packet that it takes, the packet header included.
    Live { payload: u32 },
    /// The board did not answer.
    Silent,
    /// The link to the board failed.
    Down,
}
