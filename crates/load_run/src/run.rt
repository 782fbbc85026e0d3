//! The run of a generated session.

ghost use Rattle.std.specs.Prelude.{◌≡◌, ◌≤◌, Err, IfOk};
ghost use Rattle.ipb_outside.specs.Faults.{RisesExactlyIf};
ghost use Rattle.board_greeting.specs.Links.{Keeps};
ghost use Rattle.load_run.specs.Loading.{IsGenerated, IsLoadOf, LoadLeaves, PrintsLoad};
ghost use Rattle.ipb_base.specs.Numbers.{most_operations};
ghost use Rattle.load_run.specs.Summary as spec;
ghost use Rattle.transcript.specs.Lines.{transcript_of};

use crate::laws::a_generated_session_can_be_run;
use crate::run_laws::the_run_of_a_generated_session;
use crate::session::generated;
use crate::summary::{all_done, summary_of_runs, summary_text};
use board_specs::BoardSpec;
use client_threads::Gate;
use ipb_base::NoMemory;
use links::Rack;
use reliable_engine::Settings;
use script_plans::BoardRun;
use script_steps::Steps;
use session_run::{RunFault, run_session};
use std::alloc::Global;
use std::marker::Sync;
use std::sync::Wait;
use std::thread::Threads;

/// What is told of a run.
#[derive(Drop)]
pub struct Load {
    /// Whether every operation was done.
    pub done: bool,
    /// The four lines of the summary.
    pub text: Vec<u8>,
}

/// The summary of runs.
fn printed(alloc: Global, count: u32, runs: &[BoardRun], steps: &[Steps]) -> Result<Load, NoMemory>
    ensures text { IfOk result (λ load. load.text.items
        ≡ spec.summary_text (spec.summary_of count (transcript_of steps.now runs.now))) }
    ensures done { IfOk result (λ load. load.done
        ≡ spec.all_done (spec.summary_of count (transcript_of steps.now runs.now))) }
{
    let summary = summary_of_runs(alloc, count, runs, steps)?;
    let text = summary_text(alloc, &summary)?;
    let done = all_done(&summary);
    Ok(Load { done, text })
}

/// Runs a session that was generated, and sums it up.
fn run_generated<R: Rack, T: Threads + Wait + Sync, G: Gate>(
    rt: &T,
    alloc: Global,
    count: u32,
    settings: Settings,
    boards: &[BoardSpec],
    steps: &[Steps],
    rack: &mut R,
    gate: &G,
) -> Result<Load, RunFault>
    requires { IsGenerated count settings boards.now steps.now }
    ensures leaves { Keeps R.Rack R.L.Link rack.old rack.new
        (LoadLeaves PrintsLoad count (R.made rack.old) (R.made rack.new) result) }
    ensures rack_faults { RisesExactlyIf (result ≡ Err RunFault.Rack) (R.faults rack.old) (R.faults rack.new) }
{
    let runs = run_session(rt, alloc, settings, boards, steps, rack, gate)?;
    Ok(printed(alloc, count, &runs, steps)?)
}

/// Runs the generated session of so many operations over the link that a rack makes, gives the link back, and sums the
/// run up.
pub fn run_load<R: Rack, T: Threads + Wait + Sync, G: Gate>(
    rt: &T,
    alloc: Global,
    count: u32,
    rack: &mut R,
    gate: &G,
) -> Result<Load, RunFault>
    requires { count ≤ most_operations }
    // The link was given back, and what it shows, the lines of the summary and whether all was done go together.
    ensures leaves { Keeps R.Rack R.L.Link rack.old rack.new
        (LoadLeaves IsLoadOf count (R.made rack.old) (R.made rack.new) result) }
    ensures rack_faults { RisesExactlyIf (result ≡ Err RunFault.Rack) (R.faults rack.old) (R.faults rack.new) }
{
    a_generated_session_can_be_run();
    the_run_of_a_generated_session();
    let session = generated(alloc, count)?;
    let boards = session.boards.as_slice();
    let steps = session.steps.as_slice();
    run_generated(
        rt,
        alloc,
        count,
        session.settings,
        boards,
        steps,
        rack,
        gate,
    )
}
