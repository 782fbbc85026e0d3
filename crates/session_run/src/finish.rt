//! The run of each board once the clients ran, and its link given back.

ghost use Rattle.std.specs.Prelude.{◌≡◌, ◌<◌, ◌^◌, ◌++◌, ◌∷◌, [], true, length, IfOk, IfSome};
ghost use Rattle.std.specs.List.{AllByRecursion};
ghost use Rattle.std.specs.Vec.Iter.{into_iter_items};
ghost use Rattle.script_steps.specs.Packing.{CanBePacked, HaveFewPieces};
ghost use Rattle.board_history.specs.Links.{LinkReport, numbers_of};
ghost use Rattle.board_history.specs.LinkRuns.{AreRunsOver, IsRunOver, ShowsLates, ShowsScripts};
ghost use Rattle.board_greeting.specs.Boards.{HasRoom, IsIdle};
ghost use Rattle.board_greeting.specs.Reports.{shown_by};
ghost use Rattle.board_greeting.specs.Standings.{number_in, numbers_in};
ghost use Rattle.session_run.specs.Boards.{IsNamed, OnRun};
ghost use Rattle.session_run.specs.Lanes.{IsRunOn, IsStoppedLane};
ghost use Rattle.session_run.specs.Links.{AreLeft, IsLeft, Keeps};
ghost use Rattle.session_run.specs.Places.{AreCameOf, IsCameOf, parts_after, parts_at};

use crate::late_answers::with_late_answers;
use crate::laws::a_fresh_link_is_left;
use board_greeting::{Standing, close_lane};
use board_history::records::{a_finished_lane_is_a_live_run, a_lane_sends_a_merge_at_any_moment};
use board_specs::BoardSpec;
use hub_lane::Lane;
use ipb_base::{NoMemory, Text};
use lane_record::Outcomes;
use links::{Link, Rack};
use reliable_engine::Settings;
use script_plans::{BoardRun, ClientPart, ClientParts, Greeting, Lates, plan_on};
use script_steps::Steps;
use std::alloc::Global;
use std::vec::IntoIter;

/// The run of a board under its name, where it has parts.
fn named(
    alloc: Global,
    spec: &BoardSpec,
    greeting: Greeting,
    parts: Option<ClientParts>,
) -> Result<BoardRun, NoMemory>
    ensures { IfOk result (IsNamed spec.now greeting parts) }
{
    let Some(parts) = parts else {
        return Err(NoMemory);
    };
    let name = Text::copy_of(alloc, spec.name.as_str())?;
    Ok(BoardRun {
        name,
        greeting,
        parts,
    })
}

/// The run of a live board, where its clients ran to the end, with what came late on its lane; and its link.
fn finish_live<L: Link>(
    alloc: Global,
    settings: Settings,
    lane: Lane<L>,
    parts: Option<ClientParts>,
    spec: &BoardSpec,
    position: u32,
    scripts: &[Steps],
) -> (L, Result<BoardRun, NoMemory>)
    requires stopped { IsStoppedLane settings scripts.now position spec.now (L.telling lane.link) lane }
    requires ran { IfSome parts (λ there. IsRunOn scripts.now position lane there) }
    ensures ran { IfOk result.1 (λ run. IsRunOver settings spec.now position scripts.now run
        (shown_by L.Link result.0)) }
    ensures left { IsLeft spec.now position scripts.now (shown_by L.Link result.0) }
    ensures number { L.number result.0 ≡ lane.number }
{
    a_finished_lane_is_a_live_run();
    a_lane_sends_a_merge_at_any_moment();
    lane.is_sound();
    let payload = lane.payload();
    let whole = with_late_answers(alloc, &lane, parts);
    let run = named(alloc, spec, Greeting::Live { payload }, whole);
    (close_lane(lane), run)
}

/// The run of a board that is not live: its clients ask nothing of it.
fn run_idle(
    alloc: Global,
    spec: &BoardSpec,
    position: u32,
    greeting: Greeting,
    scripts: &[Steps],
) -> Result<BoardRun, NoMemory>
    requires idle { IsIdle greeting }
    requires can { AllByRecursion (AllByRecursion CanBePacked) scripts.now }
    requires few { AllByRecursion HaveFewPieces scripts.now }
    ensures scripts { IfOk result (ShowsScripts spec.now position scripts.now) }
    ensures greeting { IfOk result (λ run. run.greeting ≡ greeting) }
    ensures lates { IfOk result (λ run. (link : LinkReport) → ShowsLates run link) }
{
    let mut parts = Vec::with_capacity(alloc, scripts.len())?;
    for steps in scripts {
        let planned = plan_on(alloc, steps.as_slice(), position, greeting)?;
        let outcomes = Outcomes::from_vec(Vec::new(alloc));
        let lates = Lates::from_vec(Vec::new(alloc));
        parts.push_reserved(ClientPart {
            planned,
            outcomes,
            lates,
        });
    }
    named(alloc, spec, greeting, Some(ClientParts::from_vec(parts)))
}

/// The run of a board, if there is memory for it, and its link. `parts` is what came of its clients, if that is known.
fn finish_board<L: Link>(
    alloc: Global,
    settings: Settings,
    board: Standing<L>,
    parts: Option<ClientParts>,
    spec: &BoardSpec,
    position: u32,
    scripts: &[Steps],
) -> (L, Result<BoardRun, NoMemory>)
    requires can { AllByRecursion (AllByRecursion CanBePacked) scripts.now }
    requires few { AllByRecursion HaveFewPieces scripts.now }
    requires came { IsCameOf (shown_by L.Link) settings scripts.now position spec.now board parts }
    ensures ran { IfOk result.1 (λ run. IsRunOver settings spec.now position scripts.now run
        (shown_by L.Link result.0)) }
    ensures left { IsLeft spec.now position scripts.now (shown_by L.Link result.0) }
    ensures number { L.number result.0 ∷ [] ≡ number_in L.number board }
{
    a_fresh_link_is_left();
    match board {
        Standing::Live(lane) => finish_live(alloc, settings, lane, parts, spec, position, scripts),
        Standing::AtHub => unreachable!(),
        Standing::Silent(link) => (
            link,
            run_idle(alloc, spec, position, Greeting::Silent, scripts),
        ),
        Standing::Down(link) => (
            link,
            run_idle(alloc, spec, position, Greeting::Down, scripts),
        ),
    }
}

/// What came of the clients of a board, if it is live and that is known: the next parts.
fn next_parts<L: Link>(
    board: &Standing<L>,
    parts: &mut IntoIter<ClientParts>,
) -> Option<ClientParts>
    ensures parts { result ≡ parts_at board.now (into_iter_items parts.old) }
    ensures others { into_iter_items parts.new ≡ parts_after board.now (into_iter_items parts.old) }
{
    match board {
        Standing::Live(_) => parts.next(),
        Standing::AtHub | Standing::Silent(_) | Standing::Down(_) => None,
    }
}

/// Adds a run, if there is one, and tells whether it stands behind all that were before: whether they are whole.
fn add_run(runs: &mut Vec<BoardRun>, run: Result<BoardRun, NoMemory>, is_whole: bool) -> bool
    ensures whole { result ≡ true → is_whole ≡ true }
    ensures added { result ≡ true → OnRun run (λ run. runs.new.items ≡ runs.old.items ++ run ∷ []) }
{
    match run {
        Ok(run) => runs.push(run).is_ok() && is_whole,
        Err(NoMemory) => false,
    }
}

/// The runs of all boards, in order, and each link is given back to the rack. `parts` is what came of the clients of each
/// live board, or nothing.
pub(crate) fn finish_boards<R: Rack>(
    alloc: Global,
    settings: Settings,
    boards: Vec<Standing<R::L>>,
    parts: Vec<ClientParts>,
    specs: &[BoardSpec],
    scripts: &[Steps],
    rack: &mut R,
) -> Result<Vec<BoardRun>, NoMemory>
    requires few_boards { length specs.now < 2 ^ 32 }
    requires can { AllByRecursion (AllByRecursion CanBePacked) scripts.now }
    requires few { AllByRecursion HaveFewPieces scripts.now }
    requires came { AreCameOf (shown_by R.L.Link) settings scripts.now 0 specs.now boards.items parts.items }
    requires room { HasRoom R.Rack rack.old (length specs.now) }
    ensures ran { IfOk result (λ runs. Keeps R.Rack R.L.Link rack.old rack.new
        (AreRunsOver settings 0 specs.now scripts.now runs.items)) }
    ensures left { Keeps R.Rack R.L.Link rack.old rack.new
        (λ links. AreLeft 0 specs.now scripts.now links × (length links ≡ length specs.now)
        × (numbers_of links ≡ numbers_in R.L.number boards.items)) }
    ensures made { R.made rack.new ≡ R.made rack.old }
    ensures faults { R.faults rack.new ≡ R.faults rack.old }
{
    let mut boards = boards.into_iter();
    let mut parts = parts.into_iter();
    let mut runs = Vec::new(alloc);
    let mut is_whole = true;
    for (position, spec) in specs.iter().enumerate() {
        let Some(board) = boards.next() else {
            unreachable!()
        };
        let came = next_parts(&board, &mut parts);
        let (link, run) = finish_board(
            alloc,
            settings,
            board,
            came,
            spec,
            position as u32,
            scripts,
        );
        rack.keep(link);
        is_whole = add_run(&mut runs, run, is_whole);
    }
    if is_whole { Ok(runs) } else { Err(NoMemory) }
}
