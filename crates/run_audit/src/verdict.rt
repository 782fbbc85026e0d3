//! What an audit finds.

/// The rule that a transcript breaks (profile). The first of them in this order that it breaks is told.
#[derive(Clone, Copy, PartialEq, Eq)]
pub enum AuditWhy {
    /// The text is no transcript of the session: a line may not stand there, is missing, or is left over.
    Form,
    /// An operation of several pieces shows some of its places and not all, so not which of its pieces they are of.
    Partial,
    /// A place is not that of its piece, or places do not rise, or two bodies have one.
    Place,
    /// A result is not the one that a bus with a single thread gives at the places that are shown.
    Result,
    /// The line of a board counts other places than are shown, or its numbers do not add up.
    Count,
}

/// What an audit finds (profile).
#[derive(Clone, Copy, PartialEq, Eq)]
pub enum Verdict {
    /// The transcript fits the session.
    Yes,
    /// It breaks this rule, and this is the first line, from 1, at which it does.
    No { line: u32, why: AuditWhy },
}
