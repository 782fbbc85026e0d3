//! What `run` makes of the bytes of a document.

ghost use Rattle.std.specs.Prelude.{◌≡◌, Err, IfOk};
ghost use Rattle.board_greeting.specs.Links.{Keeps};
ghost use Rattle.transcript.specs.Lines as lines;
ghost use Rattle.transcript.specs.Text as texts;
ghost use Rattle.session_run.specs.Faults.{IsRunFailure};
ghost use Rattle.ipb_outside.specs.Faults.{RisesExactlyIf};
ghost use Rattle.command_terms.specs.Leaving.{Leaves};
ghost use Rattle.command_terms.specs.Numbers.{refused_status};
ghost use Rattle.command_terms.specs.Outside.{NoneCame, no_pairs};
ghost use Rattle.run_laws.specs.Leaving.{RunLeaves};
ghost use Rattle.run_laws.specs.Steps.{MayRun};
ghost use Rattle.run_command.specs.Steps.{Prints};
ghost use Rattle.run_command.specs.Terms.{run_terms};

use client_threads::Gate;
use command_terms::{Answer, done_status, refused};
use ipb_base::NoMemory;
use links::Rack;
use run_laws::laws::{
    a_document_can_run_its_steps, a_document_has_few_clients,
    runs_over_links_are_runs_of_a_session, steps_that_fit_may_be_run,
};
use script_lang::Session;
use script_plans::BoardRun;
use script_steps::Steps;
use session_input::{Unread, read_for_run};
use session_run::{RunFault, run_session};
use std::alloc::Global;
use std::marker::Sync;
use std::sync::Wait;
use std::thread::Threads;
use transcript::print_runs;

/// Runs the scripts of a session document on its boards (profile): makes a link for each of them by the rack, runs each
/// client in a thread of its own that calls the gate, gives each link back, and answers the transcript, with 0 where each
/// line of an operation is a value, `done` or `was`, and else with 1. A document that breaks a rule is answered by the
/// line of the first, with 3, and no link is made. `Rack` is answered where a link could not be made.
pub fn run_document<R: Rack, T: Threads + Wait + Sync, G: Gate>(
    rt: &T,
    alloc: Global,
    bytes: &[u8],
    rack: &mut R,
    gate: &G,
) -> Result<Answer, RunFault>
    ensures leaves { Keeps R.Rack R.L.Link rack.old rack.new
        (λ links. Leaves NoneCame IsRunFailure RunFault.Rack run_terms bytes.now (R.made rack.old) (R.made rack.new)
        result (no_pairs links)) }
    ensures refused { IfOk result (λ answer. answer.status ≡ refused_status → rack.new ≡ rack.old) }
    ensures rack_faults { RisesExactlyIf (result ≡ Err RunFault.Rack) (R.faults rack.old) (R.faults rack.new) }
{
    a_document_can_run_its_steps();
    a_document_has_few_clients();
    steps_that_fit_may_be_run();
    runs_over_links_are_runs_of_a_session();
    match read_for_run(alloc, bytes) {
        Ok(read) => transcript(rt, alloc, &read.session, &read.steps, rack, gate),
        Err(Unread::Refused(refusal)) => Ok(refused(alloc, refusal)?),
        Err(Unread::NoMemory) => Err(RunFault::NoMemory),
    }
}

/// The transcript of a session, and the status that goes with it.
fn transcript<R: Rack, T: Threads + Wait + Sync, G: Gate>(
    rt: &T,
    alloc: Global,
    session: &Session,
    steps: &[Steps],
    rack: &mut R,
    gate: &G,
) -> Result<Answer, RunFault>
    requires { MayRun session.now steps.now }
    ensures leaves { Keeps R.Rack R.L.Link rack.old rack.new
        (RunLeaves (Prints session.now steps.now) session.now steps.now (R.made rack.old) (R.made rack.new) result) }
    ensures rack_faults { RisesExactlyIf (result ≡ Err RunFault.Rack) (R.faults rack.old) (R.faults rack.new) }
{
    let boards = session.boards.as_slice();
    let runs = run_session(rt, alloc, session.settings, boards, steps, rack, gate)?;
    Ok(printed(alloc, &runs, steps)?)
}

/// The transcript of runs, and the status that goes with it.
fn printed(alloc: Global, runs: &[BoardRun], steps: &[Steps]) -> Result<Answer, NoMemory>
    ensures text { IfOk result (λ answer. answer.text.items
        ≡ texts.transcript_text (lines.transcript_of steps.now runs.now)) }
    ensures status { IfOk result (λ answer. answer.status
        ≡ lines.run_status (lines.transcript_of steps.now runs.now).clients) }
{
    let printed = print_runs(alloc, runs, steps)?;
    let status = done_status(printed.all_good);
    Ok(Answer::new(alloc, status, printed.text))
}
