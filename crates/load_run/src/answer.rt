//! What `load` answers.

ghost use Rattle.std.specs.Prelude.{◌≡◌, ◌≢◌, ◌≤◌, ℕ, List, Err, IfOk};
ghost use Rattle.board_greeting.specs.Links.{Keeps};
ghost use Rattle.session_run.specs.Faults.{IsRunFailure};
ghost use Rattle.ipb_outside.specs.Faults.{RisesExactlyIf};
ghost use Rattle.command_terms.specs.Leaving.{Leaves};
ghost use Rattle.command_terms.specs.Numbers.{refused_status};
ghost use Rattle.command_terms.specs.Outside.{NoneCame, no_pairs};
ghost use Rattle.ipb_base.specs.Numbers.{most_operations};
ghost use Rattle.load_run.specs.Terms.{load_terms};

use crate::run::run_load;
use client_threads::Gate;
use command_terms::{Answer, done_status};
use links::Rack;
use session_run::RunFault;
use std::alloc::Global;
use std::marker::Sync;
use std::sync::Wait;
use std::thread::Threads;

/// Runs the generated session of so many operations, at most `MAX_COUNT`, over a link that the rack makes, gives the link
/// back, and answers the summary (profile), with 0 where every operation was done, and else with 1. It reads no bytes,
/// so its terms are met of any. `Rack` is answered where the link could not be made.
pub fn answer_load<R: Rack, T: Threads + Wait + Sync, G: Gate>(
    rt: &T,
    alloc: Global,
    count: u32,
    rack: &mut R,
    gate: &G,
) -> Result<Answer, RunFault>
    requires { count ≤ most_operations }
    ensures leaves { (bytes : List ℕ) → Keeps R.Rack R.L.Link rack.old rack.new
        (λ links. Leaves NoneCame IsRunFailure RunFault.Rack (load_terms count) bytes (R.made rack.old)
        (R.made rack.new) result (no_pairs links)) }
    ensures not_refused { IfOk result (λ answer. answer.status ≢ refused_status) }
    ensures rack_faults { RisesExactlyIf (result ≡ Err RunFault.Rack) (R.faults rack.old) (R.faults rack.new) }
{
    let load = run_load(rt, alloc, count, rack, gate)?;
    Ok(Answer::new(alloc, done_status(load.done), load.text))
}
