//! What `record` makes of the bytes of a document.

ghost use Rattle.std.specs.Prelude.{◌≡◌, ◌≤◌, ◌∷◌, ◌==◌, [], length, Some, Err, IfErr, IfOk, IfSome, false};
ghost use Rattle.std.specs.Vec.{vec_capacity};
ghost use Rattle.links.specs.Racks.{made_after};
ghost use Rattle.board_history.specs.LinkRuns.{AreRunsOver};
ghost use Rattle.hub_lane.specs.Greeting.{link_of};
ghost use Rattle.session_input.specs.Recording.{IsOneSimulated, IsSimulated};
ghost use Rattle.board_greeting.specs.Boards.{IsReached};
ghost use Rattle.board_greeting.specs.Reports.{shown_by};
ghost use Rattle.board_greeting.specs.Links.{CanBeReached, Keeps};
ghost use Rattle.session_run.specs.Scripts.{CanBeRun};
ghost use Rattle.session_run.specs.Links.{AreLeft};
ghost use Rattle.session_run.specs.Faults.{IsRunFailure};
ghost use Rattle.run_laws.specs.Leaving.{RunLeaves};
ghost use Rattle.run_laws.specs.Steps.{MayRun};
ghost use Rattle.ipb_outside.specs.Faults.{RisesExactlyIf};
ghost use Rattle.command_terms.specs.Leaving.{Leaves};
ghost use Rattle.command_terms.specs.Numbers.{refused_status};
ghost use Rattle.command_terms.specs.Outside.{NoneCame, no_pairs};
ghost use Rattle.capture_reader.specs.CaptureText.{AreItems};
ghost use Rattle.record_command.specs.Headline as spec;
ghost use Rattle.record_command.specs.Steps.{Records, WritesOf};
ghost use Rattle.record_command.specs.Taps.{tap_ghosts};
ghost use Rattle.record_command.specs.Terms.{record_terms};

use crate::capture_laws::a_capture_of_a_lane_proves_what_was_executed;
use crate::tap::TapLink;
use crate::taps::Taps;
use board_bus::laws::words_stay_words;
use board_greeting::{Standing, is_out_of_memory, keep_all, standing_of};
use board_history::records::a_lane_sends_a_merge_at_any_moment;
use board_specs::{BoardSpec, LinkSpec};
use capture_reader::{Capture, Id, proved, write_capture};
use client_threads::Gate;
use command_terms::{Answer, done_status, refused};
use hub_lane::{Greeted, Lane};
use ipb_base::NoMemory;
use links::{Link, Rack, RackFault};
use reliable_engine::Settings;
use run_laws::laws::{
    a_document_can_run_its_steps, a_document_has_few_clients,
    runs_over_links_are_runs_of_a_session, steps_that_fit_may_be_run,
};
use script_lang::Session;
use script_plans::{BoardRun, ClientPart};
use script_steps::Steps;
use session_input::{Unread, read_for_record};
use session_run::laws::a_fresh_link_is_left;
use session_run::{RunFault, run_greeted};
use std::alloc::Global;
use std::marker::{Send, Sync};
use std::sync::Wait;
use std::thread::Threads;
use transcript::print_runs;

/// Runs the scripts of a session document on its one simulated board (profile): makes a link for it by the rack, runs
/// each client over a tap of that link in a thread of its own that calls the gate, gives the link back, and answers the
/// text of the capture of its datagrams, from the board's first identifier on. The status is 0 where each line that `run`
/// would write of an operation is a value, `done` or `was`, and the capture proves that all bodies were executed, and else
/// 1. A document that breaks a rule, has several boards or one on a network is answered by the line of the first rule
/// broken, with 3, and no link is made. `Rack` is answered where the link could not be made.
pub fn record_document<R: Rack, T: Threads + Wait + Sync, G: Gate>(
    rt: &T,
    alloc: Global,
    bytes: &[u8],
    rack: &mut R,
    gate: &G,
) -> Result<Answer, RunFault>
    ensures leaves { Keeps R.Rack R.L.Link rack.old rack.new
        (λ links. Leaves NoneCame IsRunFailure RunFault.Rack record_terms bytes.now (R.made rack.old) (R.made rack.new)
        result (no_pairs links)) }
    ensures refused { IfOk result (λ answer. answer.status ≡ refused_status → rack.new ≡ rack.old) }
    ensures rack_faults { RisesExactlyIf (result ≡ Err RunFault.Rack) (R.faults rack.old) (R.faults rack.new) }
{
    a_document_can_run_its_steps();
    a_document_has_few_clients();
    steps_that_fit_may_be_run();
    runs_over_links_are_runs_of_a_session();
    match read_for_record(alloc, bytes) {
        Ok(read) => recorded(rt, alloc, &read.session, &read.steps, rack, gate),
        Err(Unread::Refused(refusal)) => Ok(refused(alloc, refusal)?),
        Err(Unread::NoMemory) => Err(RunFault::NoMemory),
    }
}

/// The capture of a session on its one board, and the status that goes with it.
fn recorded<R: Rack, T: Threads + Wait + Sync, G: Gate>(
    rt: &T,
    alloc: Global,
    session: &Session,
    steps: &[Steps],
    rack: &mut R,
    gate: &G,
) -> Result<Answer, RunFault>
    requires may { MayRun session.now steps.now }
    requires one { IsOneSimulated session.now.boards }
    ensures leaves { Keeps R.Rack R.L.Link rack.old rack.new
        (RunLeaves (Records session.now steps.now) session.now steps.now (R.made rack.old) (R.made rack.new) result) }
    ensures rack_faults { RisesExactlyIf (result ≡ Err RunFault.Rack) (R.faults rack.old) (R.faults rack.new) }
{
    a_capture_of_a_lane_proves_what_was_executed();
    a_lane_sends_a_merge_at_any_moment();
    let settings = session.settings;
    let boards = session.boards.as_slice();
    let board = &boards[0];
    let first = first_of(&board.link);
    let mut taps = Taps::new(alloc, &board.link)?;
    let room = room_for_one(alloc)?;
    let greeted = match greet_tapped(alloc, settings, board, rack) {
        Ok(greeted) => greeted,
        Err(fault) => {
            keep_all(&mut taps, room);
            return Err(RunFault::from(fault));
        }
    };
    let (tap, runs) = run_tapped(
        rt, alloc, settings, boards, steps, room, greeted, taps, gate,
    );
    let (link, capture) = tap.into_parts(first);
    rack.keep(link);
    written(alloc, &capture, steps, runs)
}

/// The identifier that a simulated board expects first.
fn first_of(link: &LinkSpec) -> Id
    requires { IsSimulated link.now }
    ensures { spec.first_of link.now ≡ Some result }
{
    match link {
        LinkSpec::Sim { first, .. } => *first,
        LinkSpec::Udp { .. } => unreachable!(),
    }
}

/// Room for one item.
fn room_for_one<T>(alloc: Global) -> Result<Vec<T>, NoMemory>
    ensures empty { IfOk result (λ room. room.items ≡ []) }
    ensures room { IfOk result (λ room. 1 ≤ vec_capacity room) }
{
    Ok(Vec::with_capacity(alloc, 1)?)
}

/// Makes the link of a board and greets it over a tap.
fn greet_tapped<R: Rack>(
    alloc: Global,
    settings: Settings,
    spec: &BoardSpec,
    rack: &mut R,
) -> Result<Greeted<TapLink<R::L>>, RackFault>
    requires reached { CanBeReached spec.now }
    ensures reached { IfOk result (λ board. IsReached settings spec.now board
        (shown_by (tap_ghosts R.L.Link) (link_of board))) }
    ensures faults { RisesExactlyIf (result ≡ Err RackFault.Failed) (R.faults rack.old) (R.faults rack.new) }
    ensures kept { R.kept rack.new ≡ R.kept rack.old }
    ensures made { R.made rack.new ≡ made_after result spec.now.link (R.made rack.old) }
    ensures number { IfOk result (λ board. R.L.number (link_of board).link ≡ length (R.made rack.old)) }
    ensures within { length (R.kept rack.old) ≤ length (R.made rack.old) }
{
    words_stay_words();
    let _window = settings.window();
    let link = rack.make(spec)?;
    Ok(Lane::greet(alloc, TapLink::new(alloc, link), settings))
}

/// Runs the scripts on the one board, which was greeted over a tap, and gives the tap back. `room` is empty and has room
/// for the board.
fn run_tapped<L: Link + Send + Drop, T: Threads + Wait + Sync, G: Gate>(
    rt: &T,
    alloc: Global,
    settings: Settings,
    specs: &[BoardSpec],
    steps: &[Steps],
    room: Vec<Standing<TapLink<L>>>,
    greeted: Greeted<TapLink<L>>,
    taps: Taps<L>,
    gate: &G,
) -> (TapLink<L>, Result<Vec<BoardRun>, NoMemory>)
    requires one { length specs.now ≡ 1 }
    requires can { CanBeRun steps.now }
    requires reached { (spec : BoardSpec) → specs.now ≡ spec ∷ []
        → IsReached settings spec greeted (shown_by (tap_ghosts L.Link) (link_of greeted)) }
    requires empty { room.items ≡ [] }
    requires room { 1 ≤ vec_capacity room }
    requires none_kept { taps.kept ≡ [] }
    requires one_made { length taps.made ≡ 1 }
    ensures ran { IfOk result.1 (λ runs. AreRunsOver settings 0 specs.now steps.now runs.items
        (shown_by L.Link result.0.link ∷ [])) }
    ensures left { AreLeft 0 specs.now steps.now (shown_by L.Link result.0.link ∷ []) }
    ensures number { L.number result.0.link ≡ L.number (link_of greeted).link }
{
    a_fresh_link_is_left();
    let no_memory = is_out_of_memory(&greeted);
    let mut boards = room;
    let mut taps = taps;
    boards.push_reserved(standing_of(greeted));
    if no_memory {
        keep_all(&mut taps, boards);
        return (taps.into_tap(), Err(NoMemory));
    }
    let runs = run_greeted(rt, alloc, settings, boards, specs, steps, &mut taps, gate);
    (taps.into_tap(), runs)
}

/// The text of a capture, and the status that goes with it after these runs.
fn written(
    alloc: Global,
    capture: &Capture,
    steps: &[Steps],
    runs: Result<Vec<BoardRun>, NoMemory>,
) -> Result<Answer, RunFault>
    requires { AreItems capture.now.items }
    ensures writes { IfOk result (λ answer. WritesOf steps.now runs capture.now answer) }
    ensures fails { IfErr result (λ fault. fault ≡ RunFault.NoMemory) }
{
    let runs = runs?;
    let printed = print_runs(alloc, &runs, steps)?;
    let Some(bodies) = body_count(&runs) else {
        return Err(RunFault::NoMemory);
    };
    let text = write_capture(alloc, capture)?;
    let place = proved(capture);
    let all = printed.all_good && place == bodies;
    Ok(Answer::new(alloc, done_status(all), text))
}

/// How many bodies the clients ask of a board; `None` where they are more than 64 bits count.
fn bodies_of_run(run: &BoardRun) -> Option<u64>
    ensures { IfSome result (λ count. count ≡ spec.bodies_of_run run.now) }
{
    let mut count = 0u64;
    for part in run.parts.as_slice() {
        count = count.checked_add(part.planned.bodies().len() as u64)?;
    }
    Some(count)
}

/// How many bodies the runs of all boards have together.
fn body_count(runs: &[BoardRun]) -> Option<u64>
    ensures { IfSome result (λ count. count ≡ spec.body_count runs.now) }
{
    let mut count = 0u64;
    for run in runs {
        count = count.checked_add(bodies_of_run(run)?)?;
    }
    Some(count)
}
