//! What the lines of boards count.

ghost use Rattle.std.specs.Prelude.{◌≡◌, ℕ, ◌+◌, ◌<◌, ◌≤◌, ◌^◌, ◌↔◌, IfOk, IsTrue, List, MatchOption, length, map};
ghost use Rattle.board_specs.specs.declared.spec.BoardSpec.{BoardSpec};
ghost use Rattle.script_steps.specs.Rulings.{asked_operations};
ghost use Rattle.transcript_reader.specs.Entries.{clients_from};
ghost use Rattle.run_audit.specs.Counts.{IsMiscounted, IsMiscountedAt, distinct};
ghost use Rattle.run_audit.specs.Steps.{AreOf, IsFirstBroken, asking, place_of, piece_kept};

use crate::asking::AskedOp;
use crate::places::{PieceShown, shown_pieces, take_place};
use crate::plans::BoardPlans;
use crate::taken::Taken;
use ipb_base::NoMemory;
use script_steps::{Step, Steps};
use std::alloc::Global;
use transcript::BoardLine;
use transcript_reader::Shown;

/// How many operations a client asks for, denied or not.
fn count_operations(steps: &[Step]) -> u32
    requires { length (asked_operations steps.now) < 2 ^ 32 }
    ensures { result ≡ length (asked_operations steps.now) }
{
    let mut count = 0;
    for step in steps {
        match step {
            Step::Do(_) | Step::Denied { .. } => count += 1,
            Step::Dispatch => {}
        }
    }
    count
}

/// How many lines a transcript has before those of its boards.
fn count_client_lines(scripts: &[Steps]) -> u32
    requires { length (clients_from 1 scripts.now) < 2 ^ 32 }
    ensures { result ≡ length (clients_from 1 scripts.now) }
{
    let mut lines = 0;
    for steps in scripts {
        lines += 1 + count_operations(steps.as_slice());
    }
    lines
}

/// How many different places pieces are shown with.
fn distinct_places(alloc: Global, pieces: &[PieceShown]) -> Result<usize, NoMemory>
    ensures { IfOk result (λ count. count ≡ distinct (map place_of (map piece_kept pieces.now))) }
{
    let mut places = Taken::new(alloc, pieces.len())?;
    let mut last = None;
    for piece in pieces {
        take_place(&mut places, last, piece)?;
        last = Some(*piece);
    }
    Ok(places.count())
}

/// The bodies of a board that were replied to, timed out or lost, all together; none where 64 bits do not count them.
fn ended(replied: u64, timed_out: u64, lost: u64) -> Option<u64>
    ensures { MatchOption result (2 ^ 64 ≤ replied + timed_out + lost) (λ all. all ≡ replied + timed_out + lost) }
{
    replied.checked_add(timed_out)?.checked_add(lost)
}

/// Whether the line of a board counts other places than these pieces are shown with, or its numbers do not add up.
fn is_miscounted(alloc: Global, pieces: &[PieceShown], told: &BoardLine) -> Result<bool, NoMemory>
    ensures { IfOk result (λ wrong. IsTrue wrong ↔ IsMiscounted (map piece_kept pieces.now) told.now) }
{
    match told {
        BoardLine::Live {
            sent,
            replied,
            timed_out,
            lost,
            ..
        } => {
            let places = distinct_places(alloc, pieces)? as u64;
            let adds_up = ended(*replied, *timed_out, *lost) == Some(*sent);
            Ok(places != *sent || !adds_up)
        }
        BoardLine::Silent { .. } | BoardLine::Down { .. } => Ok(false),
    }
}

/// The line of the first board that counts other places than are shown, or whose numbers do not add up.
pub(crate) fn first_miscounted(
    alloc: Global,
    plans: &[BoardPlans],
    asked: &[AskedOp],
    scripts: &[Steps],
    shown: &Shown,
) -> Result<Option<u32>, NoMemory>
    requires { length (clients_from 1 scripts.now) + length shown.now.boards < 2 ^ 32 }
    ensures { (boards : List BoardSpec) → AreOf boards scripts.now shown.now plans.now (map asking asked.now) →
        IfOk result (IsFirstBroken (IsMiscountedAt boards scripts.now shown.now)) }
{
    let before = count_client_lines(scripts);
    for (board, told) in shown.boards.as_slice().iter().enumerate() {
        let pieces = shown_pieces(alloc, plans, asked, board)?;
        if is_miscounted(alloc, pieces.as_slice(), told)? {
            return Ok(Some(before + board as u32 + 1));
        }
    }
    Ok(None)
}
