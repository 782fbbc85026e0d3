//! The world that moves lead to.

ghost use Rattle.std.specs.Prelude.{◌≡◌, ◌≢◌, ◌↔◌, ◌≤◌, ◌^◌, ℕ, List, [], length, IfOk, IfErr, OnOk, IsTrue};
ghost use Rattle.std.specs.Prelude.{Some, Ok, Err};
ghost use Rattle.std.specs.List.{AllByRecursion, slice_get};
ghost use Rattle.reliable_engine.specs.Answers.{body_count};
ghost use Rattle.world_model.specs.declared.moves.WorldEnd.TheVariants.{NotThere, TooOld, NoMemory as no_memory};
ghost use Rattle.world_model.specs.declared.offered.Fate.TheVariants.{Replied, TimedOut};
ghost use Rattle.world_model.specs.Board.{bodies_executed, expected_identifier};
ghost use Rattle.world_model.specs.World.{run_moves, start};
ghost use Rattle.world_model.specs.History.{IsAnsweredLate, IsExecutedAtMostOnce, IsExecutedThere, IsHandedOut};
ghost use Rattle.world_model.specs.History.{IsLateAnswer, IsRun, IsTrueHistory};
ghost use Rattle.world_core.specs.Runs.{IsNotThere, IsShortMove, IsTooOld, StopsAt};
ghost use Rattle.world_core.specs.Steps.{HasSpellings, world_of};

use crate::laws::a_run_stops_at_the_first_move_that_is_not_allowed;
use crate::run::Run;
use board_node::Board;
use ipb_base::{NoMemory, Words};
use lossy_network::datagrams::Datagrams;
use packet_codec::MAX_BODY_WORDS;
use packet_ids::laws::identifiers_follow_each_other;
use reliable_engine::{Engine, Fate, Settings};
use status_packet::laws::what_is_written_is_known;
use status_packet::{Status, read_status_reply, write_status_request};
use std::alloc::Global;
use std::marker::Model;
use world_model::laws::history::{a_fate_is_that_of_its_place, each_body_is_executed_once};
use world_model::laws::late_answers::a_late_answer_of_a_run_is_of_a_timed_out_body;
use world_model::{WorldEnd, WorldMove};

/// A board, the hub of it, the air between them and what was handed out, after some moves. Contracts see it as
/// `world_model`'s world.
#[derive(Drop)]
pub struct World {
    run: Run,
}

impl Model for World {
    ghost use Rattle.world_model.specs.World.{World as WorldValue};
    ghost use Rattle.world_core.specs.Steps.{world_of};

    ghost Value = { WorldValue };

    ghost view = { λ w. world_of w.run };
}

impl World {
    /// The board of the world.
    pub fn board(&self) -> &Board
        ensures { result.now ≡ self.now.board }
    {
        &self.run.board
    }

    /// How many bodies the hub sent first: re-sends are not counted.
    pub fn sent(&self) -> u64
        ensures { result ≡ length self.now.hub.sent }
    {
        self.run.hub.sent()
    }

    /// What became of offered bodies, each under its tag. Fates of an earlier move stand before those of a later one;
    /// within a move sent bodies are sorted by place, and the never sent ones follow as they were offered.
    pub fn fates(&self) -> &[(u64, Fate)]
        ensures { result.now ≡ self.now.fates }
    {
        self.run.fates.as_slice()
    }

    /// The late answers, in the order in which they came, each with its place: the words of replies that came after
    /// their bodies were timed out.
    pub fn lates(&self) -> &[(u64, Words)]
        ensures { result.now ≡ self.now.lates }
    {
        self.run.lates.as_slice()
    }
}

/// Whether each offered body is at most 2242 words long, as many as a packet has after its header.
pub fn are_short(moves: &[WorldMove]) -> bool
    ensures { IsTrue result ↔ AllByRecursion IsShortMove moves.now }
{
    for next in moves {
        if let WorldMove::Offer { tag: _, body } = next {
            if body.len() > MAX_BODY_WORDS {
                return false;
            }
        }
    }
    true
}

/// Runs moves from a board that has executed nothing, a hub that has sent nothing, and an empty air. The hub knows the
/// board, and its window is the smaller one of the board's buffers and the session's window (profile). The moves choose
/// what the path does to each datagram, so what is said of all lists of moves is said of any path. At most 2^61 moves,
/// each offered body at most 2242 words long.
pub fn run_world(
    alloc: Global,
    settings: Settings,
    board: Board,
    moves: &[WorldMove],
) -> Result<World, WorldEnd>
    requires fresh { bodies_executed board ≡ [] }
    requires short { AllByRecursion IsShortMove moves.now }
    requires few { length moves.now ≤ 2 ^ 61 }
    // The world after all the moves.
    ensures moved { IfOk result (λ w.
        run_moves 0 (start settings.window settings.rounds board []) moves.now ≡ Ok w) }
    // No end but by a move that is not allowed, unless memory ran out.
    ensures refused { IfErr result (λ end. end ≢ no_memory
        → run_moves 0 (start settings.window settings.rounds board []) moves.now ≡ Err end) }
    // The first such move, and why it is not allowed.
    ensures not_there { (at : ℕ) → result ≡ Err (NotThere at)
        → StopsAt (start settings.window settings.rounds board []) moves.now at IsNotThere }
    ensures too_old { (at : ℕ) → result ≡ Err (TooOld at)
        → StopsAt (start settings.window settings.rounds board []) moves.now at IsTooOld }
    // The executed bodies are the front of those that were sent first, in order, and each reply that was handed out, in
    // time or late, is the one that a bus with a single thread gives at its place.
    ensures history { IfOk result IsTrueHistory }
    // A body whose reply was handed out was sent and executed at the place of that reply.
    ensures replied { IfOk result (λ w. (tag place : ℕ) (words : List ℕ) → IsHandedOut w tag (Replied place words)
        → IsExecutedThere w tag place) }
    // A body that timed out was executed at its place or not at all.
    ensures timed_out { IfOk result (λ w. (tag place rounds : ℕ) → IsHandedOut w tag (TimedOut place rounds)
        → IsExecutedAtMostOnce w tag place) }
    // A body with a late answer timed out at its place, and was executed there all the same.
    ensures late { IfOk result (λ w. (place : ℕ) (words : List ℕ) → IsLateAnswer w place words
        → IsAnsweredLate w place) }
    // No place has two late answers.
    ensures late_once { IfOk result (λ w. (place one other : ℕ) (words again : List ℕ)
        → slice_get w.lates one ≡ Some (place, words) → slice_get w.lates other ≡ Some (place, again)
        → one ≡ other) }
{
    a_late_answer_of_a_run_is_of_a_timed_out_body();
    each_body_is_executed_once();
    a_fate_is_that_of_its_place();
    a_run_stops_at_the_first_move_that_is_not_allowed();
    run(alloc, settings, board, moves)
}

/// Runs moves one by one.
fn run(
    alloc: Global,
    settings: Settings,
    board: Board,
    moves: &[WorldMove],
) -> Result<World, WorldEnd>
    requires fresh { bodies_executed board ≡ [] }
    requires short { AllByRecursion IsShortMove moves.now }
    requires few { length moves.now ≤ 2 ^ 61 }
    ensures ran { IfOk result (IsRun settings.window settings.rounds board [] moves.now) }
    ensures moved { IfOk result (λ w.
        run_moves 0 (start settings.window settings.rounds board []) moves.now ≡ Ok w) }
    ensures refused { IfErr result (λ end. end ≢ no_memory
        → run_moves 0 (start settings.window settings.rounds board []) moves.now ≡ Err end) }
{
    board.keeps_its_ranges();
    let _window = settings.window();
    let mut run = begin(alloc, settings, board)?;
    for at in 0..moves.len() {
        run.step(alloc, at, &moves[at])?;
    }
    Ok(World { run })
}

/// A run before its first move.
fn begin(alloc: Global, settings: Settings, board: Board) -> Result<Run, NoMemory>
    requires { bodies_executed board ≡ [] }
    ensures begun { IfOk result (λ run. world_of run ≡ start settings.window settings.rounds board []) }
    ensures spellings { IfOk result (λ run. HasSpellings run.hub) }
    ensures counted { IfOk result (λ run. body_count run.hub ≡ 0) }
{
    identifiers_follow_each_other();
    board.keeps_its_ranges();
    let mut board = board;
    let status = status_of(alloc, &mut board)?;
    Ok(Run {
        hub: Engine::new(alloc, settings, status)?,
        board,
        air: Datagrams::new(alloc),
        fates: Vec::new(alloc),
        lates: Vec::new(alloc),
    })
}

/// The status that a board tells.
fn status_of(alloc: Global, board: &mut Board) -> Result<Status, NoMemory>
    ensures board { OnOk result (board.new ≡ board.old) }
    ensures buffers { IfOk result (λ status. status.buffers ≡ board.old.buffers) }
    ensures next { IfOk result (λ status. status.next ≡ expected_identifier board.old) }
{
    what_is_written_is_known();
    identifiers_follow_each_other();
    board.keeps_its_ranges();
    let mut answer = Vec::new(alloc);
    board.hear(&write_status_request(), &mut answer)?;
    match read_status_reply(&answer) {
        Ok(status) => Ok(status),
        Err(_) => unreachable!(),
    }
}
