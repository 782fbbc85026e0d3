//! The order of a board, as the lines of a transcript show it.

use ipb_base::NoMemory;
use memchr::memchr;
use script_plans::{PieceAt, Planned};
use script_steps::{RegOp, Step, Verb};

/// A body, by its client and its number among those that are planned of the client on the board, at its place in the order
/// of the board.
#[derive(Clone, Copy)]
pub(crate) struct Placed {
    pub(crate) place: u64,
    pub(crate) client: usize,
    pub(crate) body: usize,
}

/// The lines of a transcript that are left.
#[derive(Clone, Copy)]
pub(crate) struct Lines<'a> {
    text: &'a [u8],
}

/// The lines of a transcript.
pub(crate) fn transcript_lines(text: &[u8]) -> Lines<'_> {
    Lines { text }
}

impl<'a> Lines<'a> {
    /// The next line, without its line feed; empty behind the last one.
    pub(crate) fn next(&mut self) -> &'a [u8] {
        let text = self.text;
        match memchr(b'\n', text) {
            Some(end) => {
                self.text = text.get(end.saturating_add(1)..).unwrap_or(&[]);
                text.get(..end).unwrap_or(&[])
            }
            None => {
                self.text = &[];
                text
            }
        }
    }
}

/// The operations of a client on a board of which the bodies are looked for: those that can change a register, and the
/// one of a step, from 0.
#[derive(Clone, Copy)]
pub(crate) struct Looked {
    pub(crate) client: usize,
    pub(crate) board: u32,
    pub(crate) wanted: Option<usize>,
}

impl Looked {
    /// Whether the bodies of the operation of this step are looked for.
    fn has(self, op: &RegOp, step: usize) -> bool {
        !matches!(op.verb, Verb::Read | Verb::ReadBlock) || self.wanted == Some(step)
    }
}

/// A stretch of a client's steps, in which each body of a board is whole or cut at the end: from one step on, in front of
/// another.
#[derive(Clone, Copy)]
pub(crate) struct Stretch<'a> {
    pub(crate) from: usize,
    pub(crate) to: usize,
    /// The lines from that of the first step on.
    lines: Lines<'a>,
}

/// A short stretch of a client's steps that has each operation that is looked for; it is empty where there is none. The
/// lines of the client are passed.
pub(crate) fn stretch_of<'a>(steps: &[Step], lines: &mut Lines<'a>, looked: Looked) -> Stretch<'a> {
    let mut stretch = Stretch {
        from: 0,
        to: 0,
        lines: *lines,
    };
    for (position, step) in steps.iter().enumerate() {
        if matches!(step, Step::Dispatch) {
            continue;
        }
        let rest = *lines;
        let line = lines.next();
        if let Step::Do(op) = step
            && op.board == looked.board
        {
            stretch.reach(rest, line, position, looked.has(op, position));
        }
    }
    stretch
}

impl<'a> Stretch<'a> {
    /// Goes on to an operation on the board, of which the line stands in front of these. As long as none that is looked
    /// for was met, the stretch begins with the last one whose line shows that it begins a body.
    fn reach(&mut self, lines: Lines<'a>, line: &[u8], position: usize, is_looked_for: bool) {
        if self.to == 0 && begins_body(line) {
            self.from = position;
            self.lines = lines;
        }
        if is_looked_for {
            self.to = position.saturating_add(1);
        }
    }
}

/// Whether a line shows one place, and there the first number of a body.
fn begins_body(line: &[u8]) -> bool {
    let Some(front) = line.strip_suffix(b".1".as_slice()) else {
        return false;
    };
    match front.iter().rposition(|byte| !byte.is_ascii_digit()) {
        Some(at) => front.get(at) == Some(&b'@'),
        None => false,
    }
}

/// Adds the bodies of the operations of a stretch that are looked for, where the lines of these show a place.
pub(crate) fn push_client(
    order: &mut Vec<Placed>,
    planned: &Planned,
    steps: &[Step],
    stretch: Stretch<'_>,
    looked: Looked,
) -> Result<(), NoMemory> {
    let mut lines = stretch.lines;
    let mut number = 0usize;
    let steps = steps.get(stretch.from..stretch.to).unwrap_or(&[]);
    for (i, step) in steps.iter().enumerate() {
        match step {
            Step::Do(op) => {
                let line = lines.next();
                if op.board == looked.board {
                    if looked.has(op, stretch.from.saturating_add(i)) {
                        let pieces = planned.pieces(number).unwrap_or(&[]);
                        push_pieces(order, looked.client, pieces, line)?;
                    }
                    number = number.saturating_add(1);
                }
            }
            Step::Denied { .. } => {
                lines.next();
            }
            Step::Dispatch => {}
        }
    }
    Ok(())
}

/// Adds the bodies of these pieces, at the places that a line shows.
fn push_pieces(
    order: &mut Vec<Placed>,
    client: usize,
    pieces: &[PieceAt],
    line: &[u8],
) -> Result<(), NoMemory> {
    let Some(at) = line.iter().rposition(|byte| *byte == b'@') else {
        return Ok(());
    };
    let mut places = line.get(at..).unwrap_or(&[]).split(|byte| *byte == b',');
    for piece in pieces {
        let Some(text) = places.next() else {
            return Ok(());
        };
        let placed = Placed {
            place: number_at(text),
            client,
            body: piece.body,
        };
        if !is_there(order, &placed) {
            order.push(placed)?;
        }
    }
    Ok(())
}

/// Whether the last body is this one. The pieces of a body stand one behind the other.
fn is_there(order: &[Placed], placed: &Placed) -> bool {
    match order.last() {
        Some(last) => last.client == placed.client && last.body == placed.body,
        None => false,
    }
}

/// The number before the dot in a place, behind the sign in front of it.
fn number_at(text: &[u8]) -> u64 {
    let mut number = 0u64;
    for byte in text {
        match *byte {
            digit @ b'0'..=b'9' => {
                number = number
                    .saturating_mul(10)
                    .saturating_add(u64::from(digit.saturating_sub(b'0')));
            }
            b'.' => return number,
            _ => {}
        }
    }
    number
}

/// How many operations are on a board and not denied.
pub(crate) fn allowed_on(steps: &[Step], board: u32) -> usize {
    let mut allowed = 0usize;
    for step in steps {
        if let Step::Do(op) = step
            && op.board == board
        {
            allowed = allowed.saturating_add(1);
        }
    }
    allowed
}
