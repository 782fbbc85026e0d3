//! Results that are not those of the replay.

ghost use Rattle.std.specs.Prelude.{◌≡◌, ◌↔◌, IfOk, IsTrue, [], map, slice_get, unwrap_or};
ghost use Rattle.transcript_reader.specs.declared.shown.Shown.{Shown};
ghost use Rattle.run_audit.specs.Agreeing.{HaveNoLate, IsAnswer, IsUnreplayedAt};
ghost use Rattle.run_audit.specs.Replaying.{AreReplayed};
ghost use Rattle.run_audit.specs.Steps.{IsFirstBroken, asking};
ghost use Rattle.run_audit.specs.Unreplayed as spec;

use crate::agreeing::{came_to, ends_of, is_late_answer};
use crate::asking::AskedOp;
use crate::run_pieces::{pieces_in, sent_pieces};
use ipb_base::NoMemory;
use script_lang::Session;
use script_plans::{BoardRun, ClientPart};
use script_steps::Steps;
use std::alloc::Global;
use std::marker::Model;
use transcript::{BodyEnd, OpResult};

/// How the bodies of a client on a board ended, none of them with a late answer. Contracts see that list.
#[derive(Drop)]
struct PartEnds {
    items: Vec<BodyEnd>,
}

impl Model for PartEnds {
    ghost use Rattle.std.specs.Prelude.{List};
    ghost use Rattle.transcript.specs.declared.body_end.BodyEnd.{BodyEnd};
    ghost use Rattle.run_audit.specs.Agreeing.{HaveNoLate};

    ghost Value = { List BodyEnd };

    ghost view = { λ ends. ends.items.items };

    ghost invariant = { λ ends. HaveNoLate ends.items.items };
}

impl PartEnds {
    /// The ends of a client's bodies, of which none has a late answer.
    fn of_part(alloc: Global, part: &ClientPart) -> Result<PartEnds, NoMemory>
        ensures { IfOk result (λ ends. ends ≡ spec.ends_in_time part.now) }
    {
        let items = ends_of(alloc, part.planned.bodies(), part.outcomes.as_slice())?;
        Ok(PartEnds { items })
    }

    /// How the bodies ended, in order.
    fn as_slice(&self) -> &[BodyEnd]
        ensures ends { result.now ≡ self.now }
        ensures in_time { HaveNoLate result.now }
    {
        self.items.as_slice()
    }
}

/// How the bodies of each client on a board ended. Contracts see that list.
#[derive(Drop)]
struct BoardEnds {
    items: Vec<PartEnds>,
}

impl Model for BoardEnds {
    ghost use Rattle.std.specs.Prelude.{List};
    ghost use Rattle.transcript.specs.declared.body_end.BodyEnd.{BodyEnd};

    ghost Value = { List (List BodyEnd) };

    ghost view = { λ ends. ends.items.items };
}

impl BoardEnds {
    /// The ends of the bodies of all clients of a board.
    fn of_run(alloc: Global, run: &BoardRun) -> Result<BoardEnds, NoMemory>
        ensures { IfOk result (λ ends. ends ≡ spec.board_ends run.now) }
    {
        let parts = run.parts.as_slice();
        let mut items = Vec::with_capacity(alloc, parts.len())?;
        for part in parts {
            items.push(PartEnds::of_part(alloc, part)?)?;
        }
        Ok(BoardEnds { items })
    }

    /// The ends of one client's bodies; none where the client is not there.
    fn of_client(&self, client: usize) -> &[BodyEnd]
        ensures ends { result.now ≡ unwrap_or (slice_get self.now client) [] }
        ensures in_time { HaveNoLate result.now }
    {
        match self.items.get(client) {
            Some(ends) => ends.as_slice(),
            None => &[],
        }
    }
}

/// How the bodies of the clients on each board ended. Each reply is joined to its body once.
fn ends_of_boards(alloc: Global, runs: &[BoardRun]) -> Result<Vec<BoardEnds>, NoMemory>
    ensures { IfOk result (λ ends. ends.items ≡ map spec.board_ends runs.now) }
{
    let mut ends = Vec::with_capacity(alloc, runs.len())?;
    for run in runs {
        ends.push(BoardEnds::of_run(alloc, run)?)?;
    }
    Ok(ends)
}

/// How the bodies of a client on a board ended; none where one of them is not there.
fn ends_at<'a>(ends: &'a [BoardEnds], board: usize, client: usize) -> &'a [BodyEnd]
    ensures ends { result.now ≡ spec.ends_at ends.now board client }
    ensures in_time { HaveNoLate result.now }
{
    match ends.get(board) {
        Some(on_board) => on_board.of_client(client),
        None => &[],
    }
}

/// Whether the line of an operation shows what it came to on these boards, on which the bodies of its client ended so. A
/// reply tells what it shows.
fn shows_answer(
    words: &mut Vec<u32>,
    runs: &[BoardRun],
    ends: &[BodyEnd],
    ask: &AskedOp,
) -> Result<bool, NoMemory>
    requires { IsAnswer (asking ask.now).shows.0 }
    ensures { IfOk result (λ is. IsTrue is ↔ ((asking ask.now).shows.0
        ≡ spec.comes_to ends.now ask.now.op.now (spec.sent_in runs.now (asking ask.now)))) }
{
    let Some(pieces) = sent_pieces(runs, ask) else {
        return Ok(false);
    };
    let shown = ask.shown;
    came_to(words, ends, ask.op, pieces, &shown.result)
}

/// Whether the line of an operation agrees with what it came to on these boards, on which the bodies ended so.
fn is_replayed(
    words: &mut Vec<u32>,
    rounds: u8,
    runs: &[BoardRun],
    ends: &[BoardEnds],
    ask: &AskedOp,
) -> Result<bool, NoMemory>
    requires { ends.now ≡ map spec.board_ends runs.now }
    ensures { IfOk result (λ is. IsTrue is ↔ spec.AgreesBy rounds runs.now (asking ask.now)) }
{
    let bodies = ends_at(ends, ask.op.board as usize, ask.client);
    let shown = ask.shown;
    match &shown.result {
        OpResult::Value(_)
        | OpResult::Done
        | OpResult::Was(_)
        | OpResult::Error { .. }
        | OpResult::Skipped => shows_answer(words, runs, bodies, ask),
        OpResult::TimedOut { rounds: other } => Ok(*other == rounds),
        OpResult::Late {
            rounds: other,
            answer,
        } => {
            let pieces = pieces_in(runs, ask);
            Ok(*other == rounds && is_late_answer(bodies, ask.op, pieces, answer))
        }
        OpResult::Unsent | OpResult::LinkLost | OpResult::Denied { .. } => Ok(true),
        OpResult::Garbled => Ok(false),
    }
}

/// The first line whose result is not the one of the replay.
pub(crate) fn first_unreplayed(
    alloc: Global,
    session: &Session,
    scripts: &[Steps],
    runs: &[BoardRun],
    asked: &[AskedOp],
) -> Result<Option<u32>, NoMemory>
    ensures { (shown : Shown) →
        AreReplayed session.now.boards scripts.now shown runs.now (map asking asked.now) →
        IfOk result (IsFirstBroken (IsUnreplayedAt session.now.settings.rounds session.now.boards scripts.now
        (map asking asked.now))) }
{
    let rounds = session.settings.rounds();
    let ends = ends_of_boards(alloc, runs)?;
    let mut words = Vec::new(alloc);
    for ask in asked {
        if !is_replayed(&mut words, rounds, runs, ends.as_slice(), ask)? {
            return Ok(Some(ask.line));
        }
    }
    Ok(None)
}
