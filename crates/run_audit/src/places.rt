//! The places that lines show.

ghost use Rattle.std.specs.Prelude.{◌≡◌, ◌≢◌, ◌++◌, ◌+◌, ◌<◌, ◌↔◌, ◌==◌, ◌||◌, ℕ, if◌then◌else◌, true, [], IfOk, IsTrue, List};
ghost use Rattle.std.specs.Prelude.{OnOk, length, map, option_map};
ghost use Rattle.std.specs.Option.{ForSome};
ghost use Rattle.board_specs.specs.declared.spec.BoardSpec.{BoardSpec};
ghost use Rattle.script_plans.specs.Claims.{Rises};
ghost use Rattle.script_steps.specs.declared.operation.Step.{Step};
ghost use Rattle.transcript.specs.Shown as spec;
ghost use Rattle.transcript_reader.specs.declared.shown.Shown.{Shown as ShownValue};
ghost use Rattle.run_audit.specs.AskedLines.{with_places};
ghost use Rattle.run_audit.specs.Places.{AreOfOneBody, HasMisplaced, IsMisplaced, IsMisplacedAt, IsPartialAt};
ghost use Rattle.run_audit.specs.Steps.{AreOf, IsFirstBroken, StandsBefore, asking, disagrees, earliest_of};
ghost use Rattle.run_audit.specs.Steps.{planned_shown, piece_kept};
ghost use Rattle.run_audit.specs.Taken.{has};

use crate::asking::AskedOp;
use crate::plans::{BoardPlans, pieces_at};
use crate::taken::Taken;
use ipb_base::NoMemory;
use script_plans::PieceAt;
use std::alloc::Global;
use transcript::BoardLine;
use transcript_reader::Shown;

/// A piece, and the place that the line of its operation shows for it.
#[derive(Clone, Copy)]
pub(crate) struct PieceShown {
    /// The number of that line.
    pub(crate) line: u32,
    pub(crate) client: usize,
    /// The body that it stands in, and its number there, both from 0.
    pub(crate) body: usize,
    pub(crate) index: u16,
    /// The place of a body and the number of a transaction in it, as they are shown.
    pub(crate) place: u64,
    pub(crate) transaction: u16,
}

/// Whether the line shows a place for some of these pieces, and not for all.
fn is_partial(pieces: &[PieceAt], asked: &AskedOp) -> bool
    ensures { IsTrue result ↔ ((asked.now.shown.now.1 ≢ []) × (length asked.now.shown.now.1 < length pieces.now)) }
{
    let shown = asked.shown;
    let places = shown.places.as_slice();
    !places.is_empty() && places.len() < pieces.len()
}

/// The first line that shows a place for some pieces of its operation, and not for all.
pub(crate) fn first_partial(plans: &[BoardPlans], asked: &[AskedOp]) -> Option<u32>
    ensures { (boards : List BoardSpec) (scripts : List (List Step)) (shown : ShownValue) →
        AreOf boards scripts shown plans.now (map asking asked.now) →
        IsFirstBroken (IsPartialAt boards scripts shown) result }
{
    for ask in asked {
        if is_partial(pieces_at(plans, ask), ask) {
            return Some(ask.line);
        }
    }
    None
}

/// Adds those of an operation's pieces that its line shows with a place.
fn push_pieces(
    all: &mut Vec<PieceShown>,
    asked: &AskedOp,
    pieces: &[PieceAt],
) -> Result<(), NoMemory>
    ensures { OnOk result (map piece_kept all.new.items ≡ map piece_kept all.old.items
        ++ with_places (asking asked.now) pieces.now asked.now.shown.now.1) }
{
    let shown = asked.shown;
    let places = shown.places.as_slice();
    for (at, piece) in pieces.iter().enumerate() {
        let Some(&(place, transaction)) = places.get(at) else {
            return Ok(());
        };
        all.push(PieceShown {
            line: asked.line,
            client: asked.client,
            body: piece.body,
            index: piece.index,
            place,
            transaction,
        })?;
    }
    Ok(())
}

/// All pieces on a board that are shown with a place, in the order of the text.
pub(crate) fn shown_pieces(
    alloc: Global,
    plans: &[BoardPlans],
    asked: &[AskedOp],
    board: usize,
) -> Result<Vec<PieceShown>, NoMemory>
    ensures { IfOk result (λ all. map piece_kept all.items ≡ planned_shown plans.now board (map asking asked.now)) }
{
    let mut all = Vec::new(alloc);
    for ask in asked {
        if ask.op.board as usize == board {
            push_pieces(&mut all, ask, pieces_at(plans, ask))?;
        }
    }
    Ok(all)
}

/// Whether the board's line does not count the place of a piece, or its transaction is another one.
fn is_misplaced(sent: u64, piece: &PieceShown) -> bool
    ensures { IsTrue result ↔ IsMisplaced sent (piece_kept piece.now) }
{
    u32::from(piece.transaction) != u32::from(piece.index) + 1
        || piece.place == 0
        || sent < piece.place
}

/// Whether both stand in one body.
fn are_of_one_body(one: &PieceShown, other: &PieceShown) -> bool
    ensures { IsTrue result ↔ AreOfOneBody (piece_kept one.now) (piece_kept other.now) }
{
    one.client == other.client && one.body == other.body
}

/// Whether a piece disagrees with one that is shown before it, by the last of these and by whether its place is one of
/// theirs.
fn disagrees(last: Option<PieceShown>, is_taken: bool, piece: &PieceShown) -> bool
    ensures { result ≡ disagrees (option_map piece_kept last) is_taken (piece_kept piece.now) }
{
    match last {
        Some(last) if are_of_one_body(&last, piece) => last.place != piece.place,
        Some(last) => is_taken || (last.client == piece.client && piece.place <= last.place),
        None => false,
    }
}

/// Puts the place of a piece among those of the pieces before it, of which `last` is the last. Answers whether it was
/// there.
pub(crate) fn take_place(
    taken: &mut Taken,
    last: Option<PieceShown>,
    piece: &PieceShown,
) -> Result<bool, NoMemory>
    requires { ForSome last (λ last. has taken.old last.place ≡ true) }
    ensures was { IfOk result (λ was. was ≡ has taken.old piece.now.place) }
    ensures places { OnOk result ((place : ℕ) → has taken.new place
        ≡ (has taken.old place || (place == piece.now.place))) }
    ensures count { IfOk result (λ was.
        taken.new.count ≡ (if was then taken.old.count else taken.old.count + 1)) }
{
    match last {
        // the pieces of one body are shown one behind the other
        Some(last) if last.place == piece.place => Ok(true),
        _ => taken.take(piece.place),
    }
}

/// The first line at which some of these pieces of a board, as the text shows them, is misplaced, or disagrees with one
/// that is shown before it.
fn first_misplaced_of(
    alloc: Global,
    pieces: &[PieceShown],
    sent: u64,
) -> Result<Option<u32>, NoMemory>
    ensures { Rises StandsBefore (map piece_kept pieces.now) →
        IfOk result (IsFirstBroken (HasMisplaced sent (map piece_kept pieces.now))) }
{
    // places that are well counted are at most as many as pieces
    let mut taken = Taken::new(alloc, pieces.len())?;
    let mut last = None;
    for piece in pieces {
        let is_taken = take_place(&mut taken, last, piece)?;
        if is_misplaced(sent, piece) || disagrees(last, is_taken, piece) {
            return Ok(Some(piece.line));
        }
        last = Some(*piece);
    }
    Ok(None)
}

/// How many places the line of a board tells.
pub(crate) fn places_told(line: &BoardLine) -> u64
    ensures { result ≡ spec.places_told line.now }
{
    match line {
        BoardLine::Live { sent, .. } => *sent,
        BoardLine::Silent { .. } | BoardLine::Down { .. } => 0,
    }
}

/// The lesser of two lines, where there are such lines.
pub(crate) fn earliest(one: Option<u32>, other: Option<u32>) -> Option<u32>
    ensures { result ≡ earliest_of one other }
{
    match (one, other) {
        (Some(line), Some(other)) => Some(line.min(other)),
        (Some(line), None) => Some(line),
        (None, other) => other,
    }
}

/// The first line at which some piece of a board is misplaced, or disagrees with one that is shown before it.
pub(crate) fn first_misplaced(
    alloc: Global,
    plans: &[BoardPlans],
    asked: &[AskedOp],
    shown: &Shown,
) -> Result<Option<u32>, NoMemory>
    ensures { (boards : List BoardSpec) (scripts : List (List Step)) →
        AreOf boards scripts shown.now plans.now (map asking asked.now) →
        IfOk result (IsFirstBroken (IsMisplacedAt boards scripts shown.now)) }
{
    let mut first = None;
    for (board, line) in shown.boards.as_slice().iter().enumerate() {
        let pieces = shown_pieces(alloc, plans, asked, board)?;
        let found = first_misplaced_of(alloc, pieces.as_slice(), places_told(line))?;
        first = earliest(first, found);
    }
    Ok(first)
}
