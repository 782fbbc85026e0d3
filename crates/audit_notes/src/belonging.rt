//! Which line of a transcript belongs where.

use crate::judged::Judged;
use script_steps::{RegOp, Step, Steps};

/// An operation that a client asks for.
#[derive(Clone, Copy)]
pub(crate) struct Asked<'a> {
    /// The client, from 0.
    pub(crate) client: usize,
    /// The number of the operation among those of its client, from 1.
    pub(crate) number: u64,
    /// The step of its client that asks for it, from 0.
    pub(crate) step: usize,
    pub(crate) op: &'a RegOp,
    /// The rule that denies it.
    pub(crate) denied: Option<u32>,
}

/// What belongs in a line of a transcript.
#[derive(Clone, Copy)]
pub(crate) enum Belongs<'a> {
    /// The heading of a client, from 1.
    Heading(usize),
    /// The line of an operation.
    Operation(Asked<'a>),
    /// The line of the board at this position.
    Board(usize),
    Nothing,
}

/// What belongs in a line, from 1.
pub(crate) fn what_belongs(judged: Judged<'_>, line: u64) -> Belongs<'_> {
    let mut before = 0u64;
    for (client, steps) in judged.steps.iter().enumerate() {
        if line == before.saturating_add(1) {
            return Belongs::Heading(client + 1);
        }
        before = before.saturating_add(1);
        match operation(client, line - before.min(line), steps) {
            Ok(asked) => return Belongs::Operation(asked),
            Err(count) => before = before.saturating_add(count),
        }
    }
    let position = (line - before.min(line)) as usize;
    if position <= judged.session.boards.as_slice().len() && position > 0 {
        return Belongs::Board(position - 1);
    }
    Belongs::Nothing
}

/// The line of the board at this position.
pub(crate) fn board_line(judged: Judged<'_>, position: usize) -> u32 {
    let mut before = 0u64;
    for steps in judged.steps {
        before = before.saturating_add(1).saturating_add(operations(steps));
    }
    let line = before.saturating_add(position as u64).saturating_add(1);
    u32::try_from(line).unwrap_or(u32::MAX)
}

/// How many operations a client has, denied or not.
fn operations(steps: &Steps) -> u64 {
    let mut count = 0u64;
    for step in steps.as_slice() {
        if !matches!(step, Step::Dispatch) {
            count = count.saturating_add(1);
        }
    }
    count
}

/// The operation of a client of this number, from 1; or else how many operations the client has, denied or not.
fn operation(client: usize, number: u64, steps: &Steps) -> Result<Asked<'_>, u64> {
    let mut count = 0u64;
    for (position, step) in steps.as_slice().iter().enumerate() {
        let (op, denied) = match step {
            Step::Do(op) => (op, None),
            Step::Denied { rule, op } => (op, Some(*rule)),
            Step::Dispatch => continue,
        };
        count = count.saturating_add(1);
        if count == number {
            return Ok(Asked {
                client,
                number,
                step: position,
                op,
                denied,
            });
        }
    }
    Err(count)
}
