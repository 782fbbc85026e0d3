//! One client's steps, run on boards, and the text of what they read.

ghost use Rattle.std.specs.Prelude.{◌≡◌, Err, IfOk, length};
ghost use Rattle.board_greeting.specs.Links.{Keeps};
ghost use Rattle.transcript.specs.Lines as lines;
ghost use Rattle.ipb_outside.specs.Faults.{RisesExactlyIf};
ghost use Rattle.config_store.specs.Text as texts;
ghost use Rattle.run_laws.specs.Leaving.{RunLeaves};
ghost use Rattle.run_laws.specs.Steps.{MayRun};
ghost use Rattle.config_commands.specs.Steps.{Writes, first_of};

use board_specs::BoardSpec;
use client_threads::Gate;
use command_terms::{Answer, done_status};
use config_store::state_text;
use ipb_base::NoMemory;
use links::Rack;
use script_lang::Session;
use script_plans::BoardRun;
use script_steps::Steps;
use session_run::{RunFault, run_session};
use std::alloc::Global;
use std::marker::Sync;
use std::sync::Wait;
use std::thread::Threads;
use transcript::{all_good, lines_of_clients};

/// The text of what the steps of one client read on the boards of a session, and the status that goes with it.
pub(crate) fn write_configuration<R: Rack, T: Threads + Wait + Sync, G: Gate>(
    rt: &T,
    alloc: Global,
    session: &Session,
    steps: &[Steps],
    rack: &mut R,
    gate: &G,
) -> Result<Answer, RunFault>
    requires runs { MayRun session.now steps.now }
    requires alone { length steps.now ≡ 1 }
    ensures leaves { Keeps R.Rack R.L.Link rack.old rack.new
        (RunLeaves (Writes session.now steps.now) session.now steps.now (R.made rack.old) (R.made rack.new) result) }
    ensures rack_faults { RisesExactlyIf (result ≡ Err RunFault.Rack) (R.faults rack.old) (R.faults rack.new) }
{
    let boards = session.boards.as_slice();
    let runs = run_session(rt, alloc, session.settings, boards, steps, rack, gate)?;
    Ok(written(alloc, boards, &runs, steps)?)
}

/// The text of what one client's steps read in these runs, and the status that goes with it.
fn written(
    alloc: Global,
    boards: &[BoardSpec],
    runs: &[BoardRun],
    steps: &[Steps],
) -> Result<Answer, NoMemory>
    requires { length steps.now ≡ 1 }
    ensures text { IfOk result (λ answer. answer.text.items
        ≡ texts.state_text boards.now (lines.client_lines runs.now 0 (first_of steps.now))) }
    ensures status { IfOk result (λ answer. answer.status
        ≡ lines.run_status (lines.transcript_of steps.now runs.now).clients) }
{
    let clients = lines_of_clients(alloc, runs, steps)?;
    let text = state_text(alloc, boards, &clients[0])?;
    Ok(Answer::new(alloc, done_status(all_good(&clients)), text))
}
