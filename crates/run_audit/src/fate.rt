//! What a line tells of the body of its operation.

/// What became of a body, as the line of an operation tells it (profile).
#[derive(Clone, Copy, PartialEq, Eq)]
pub enum Fate {
    /// Its reply came in time.
    Answered,
    /// It was timed out, and no answer came.
    TimedOut,
    /// It was timed out, and then its reply came.
    AnsweredLate,
    /// It was never sent.
    Unsent,
    /// The link failed before its reply came.
    LinkLost,
}
