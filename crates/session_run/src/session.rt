//! A whole session over the links of a rack.

ghost use Rattle.std.specs.Prelude.{◌≡◌, ◌^◌, ◌<◌, [], length, map, Err, IfOk, OnErr};
ghost use Rattle.std.specs.List.{AllByRecursion};
ghost use Rattle.ipb_outside.specs.Faults.{RisesExactlyIf};
ghost use Rattle.board_history.specs.Links.{IsUntouched, numbers_of};
ghost use Rattle.board_history.specs.LinkRuns.{AreRunsOver};
ghost use Rattle.board_greeting.specs.Boards.{AreReached, HasRoom};
ghost use Rattle.board_greeting.specs.Reports.{shown_by};
ghost use Rattle.board_greeting.specs.Standings.{links_in};
ghost use Rattle.session_run.specs.Scripts.{CanBeRun};
ghost use Rattle.session_run.specs.Links.{AreLeft, AreMadeFor, CanBeReached, Keeps};

use crate::finish::finish_boards;
use crate::lanes::run_lanes;
use crate::laws::a_fresh_link_is_left;
use board_greeting::{Standing, greet_boards, keep_all, put_back, take_lanes};
use board_specs::BoardSpec;
use client_threads::Gate;
use ipb_base::NoMemory;
use links::{Rack, RackFault};
use reliable_engine::Settings;
use script_plans::{BoardRun, ClientParts};
use script_steps::Steps;
use std::alloc::Global;
use std::marker::Sync;
use std::sync::Wait;
use std::thread::Threads;

/// Why a session has no runs.
#[derive(Clone, Copy, PartialEq, Eq)]
pub enum RunFault {
    /// A link could not be made. The rack counted it.
    Rack,
    /// Memory ran out while the session ran.
    NoMemory,
}

impl From<NoMemory> for RunFault {
    ghost use Rattle.std.specs.Prelude.{◌≡◌};
    ghost use Rattle.session_run.specs.declared.session.RunFault.TheVariants.{NoMemory as no_memory};

    ghost from_gives = { λ _ fault. fault ≡ no_memory };

    fn from(_error: NoMemory) -> RunFault {
        RunFault::NoMemory
    }
}

impl From<RackFault> for RunFault {
    ghost use Rattle.std.specs.Prelude.{◌≡◌};
    ghost use Rattle.session_run.specs.Faults.{run_fault};

    ghost from_gives = { λ fault result. result ≡ run_fault fault };

    fn from(fault: RackFault) -> RunFault {
        match fault {
            RackFault::Failed => RunFault::Rack,
            RackFault::NoMemory => RunFault::NoMemory,
        }
    }
}

/// The parts of the clients, none where memory ran out.
fn parts_or_none(alloc: Global, parts: Result<Vec<ClientParts>, NoMemory>) -> Vec<ClientParts>
    ensures all { IfOk parts (λ there. result.items ≡ there.items) }
    ensures none { OnErr parts (result.items ≡ []) }
{
    match parts {
        Ok(parts) => parts,
        Err(NoMemory) => Vec::new(alloc),
    }
}

/// Runs the scripts on boards that were greeted, all at once, and gives each link back to the rack.
pub fn run_greeted<R: Rack, T: Threads + Wait + Sync, G: Gate>(
    rt: &T,
    alloc: Global,
    settings: Settings,
    mut boards: Vec<Standing<R::L>>,
    specs: &[BoardSpec],
    scripts: &[Steps],
    rack: &mut R,
    gate: &G,
) -> Result<Vec<BoardRun>, NoMemory>
    requires few_boards { length specs.now < 2 ^ 32 }
    requires can { CanBeRun scripts.now }
    requires all { length boards.items ≡ length specs.now }
    requires reached { AreReached (shown_by R.L.Link) settings specs.now boards.items }
    requires room { HasRoom R.Rack rack.old (length specs.now) }
    ensures ran { IfOk result (λ runs. Keeps R.Rack R.L.Link rack.old rack.new
        (AreRunsOver settings 0 specs.now scripts.now runs.items)) }
    ensures left { Keeps R.Rack R.L.Link rack.old rack.new
        (λ links. AreLeft 0 specs.now scripts.now links × (length links ≡ length specs.now)
        × (numbers_of links ≡ numbers_of (map (shown_by R.L.Link) (links_in boards.items)))) }
    ensures made { R.made rack.new ≡ R.made rack.old }
    ensures faults { R.faults rack.new ≡ R.faults rack.old }
{
    a_fresh_link_is_left();
    let Ok(lanes) = take_lanes(alloc, &mut boards) else {
        keep_all(rack, boards);
        return Err(NoMemory);
    };
    let (lanes, parts) = run_lanes(rt, alloc, lanes, &boards, scripts, gate);
    put_back(&mut boards, lanes);
    let parts = parts_or_none(alloc, parts);
    finish_boards(alloc, settings, boards, parts, specs, scripts, rack)
}

/// Runs the clients of a session over the links that a rack makes: all boards are greeted, and then each client runs
/// its script in a thread of its own. The gate is called at the turns of its dispatches.
pub fn run_session<R: Rack, T: Threads + Wait + Sync, G: Gate>(
    rt: &T,
    alloc: Global,
    settings: Settings,
    specs: &[BoardSpec],
    scripts: &[Steps],
    rack: &mut R,
    gate: &G,
) -> Result<Vec<BoardRun>, RunFault>
    requires few_boards { length specs.now < 2 ^ 32 }
    requires reached { AllByRecursion CanBeReached specs.now }
    requires can { CanBeRun scripts.now }
    // What the runs show of each board is what its link bears out.
    ensures ran { IfOk result (λ runs. Keeps R.Rack R.L.Link rack.old rack.new
        (AreRunsOver settings 0 specs.now scripts.now runs.items)) }
    // Whatever came of it, links were made of the specs of the first boards, and they are given back board by board: the
    // link of a board is the one that was made of its spec. What was sent to each board is what the scripts ask of it.
    ensures left { Keeps R.Rack R.L.Link rack.old rack.new (AreLeft 0 specs.now scripts.now) }
    ensures made { Keeps R.Rack R.L.Link rack.old rack.new
        (λ links. AreMadeFor specs.now links (R.made rack.old) (R.made rack.new)) }
    ensures rack_faults { RisesExactlyIf (result ≡ Err RunFault.Rack) (R.faults rack.old) (R.faults rack.new) }
    ensures untouched { result ≡ Err RunFault.Rack → Keeps R.Rack R.L.Link rack.old rack.new
        (AllByRecursion IsUntouched) }
{
    a_fresh_link_is_left();
    let _rounds = settings.rounds();
    let boards = greet_boards(alloc, settings, specs, rack)?;
    run_greeted(rt, alloc, settings, boards, specs, scripts, rack, gate).map_err(RunFault::from)
}
