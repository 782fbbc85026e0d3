//! What `save` and `apply` make of the bytes of a document.

ghost use Rattle.std.specs.Prelude.{◌≡◌, Err, IfOk};
ghost use Rattle.board_greeting.specs.Links.{Keeps};
ghost use Rattle.session_run.specs.Faults.{IsRunFailure};
ghost use Rattle.ipb_outside.specs.Faults.{RisesExactlyIf};
ghost use Rattle.command_terms.specs.Leaving.{Leaves};
ghost use Rattle.command_terms.specs.Numbers.{refused_status};
ghost use Rattle.command_terms.specs.Outside.{NoneCame, no_pairs};
ghost use Rattle.config_input.specs.Lines.{refusal_line};
ghost use Rattle.config_commands.specs.Terms.{apply_terms, save_terms};

use crate::laws::{
    applied_texts_are_those_of_given_and_opening_values, saved_texts_are_those_of_opening_values,
    steps_for_a_command_can_be_run,
};
use crate::run::write_configuration;
use client_threads::Gate;
use command_terms::{Answer, REFUSED};
use config_input::{ConfigRefusal, ConfigUnread, read_for_apply, read_for_save};
use ipb_base::NoMemory;
use links::Rack;
use run_laws::laws::{runs_over_links_are_runs_of_a_session, steps_that_fit_may_be_run};
use session_run::RunFault;
use std::alloc::Global;
use std::marker::Sync;
use std::sync::Wait;
use std::thread::Threads;

/// Saves the configuration of the boards of a session document (profile): makes a link for each of them by the rack,
/// reads each kept register as client 1, in a thread that calls the gate, gives each link back, and answers the text of
/// the values, with 0 where each read gave its value, and else with 1. A document that breaks a rule is answered by the
/// line of the first, with 3, and no link is made. `Rack` is answered where a link could not be made.
pub fn save_document<R: Rack, T: Threads + Wait + Sync, G: Gate>(
    rt: &T,
    alloc: Global,
    bytes: &[u8],
    rack: &mut R,
    gate: &G,
) -> Result<Answer, RunFault>
    ensures leaves { Keeps R.Rack R.L.Link rack.old rack.new
        (λ links. Leaves NoneCame IsRunFailure RunFault.Rack save_terms bytes.now (R.made rack.old) (R.made rack.new)
        result (no_pairs links)) }
    ensures refused { IfOk result (λ answer. answer.status ≡ refused_status → rack.new ≡ rack.old) }
    ensures rack_faults { RisesExactlyIf (result ≡ Err RunFault.Rack) (R.faults rack.old) (R.faults rack.new) }
{
    saved_texts_are_those_of_opening_values();
    steps_for_a_command_can_be_run();
    steps_that_fit_may_be_run();
    runs_over_links_are_runs_of_a_session();
    match read_for_save(alloc, bytes) {
        Ok(read) => write_configuration(rt, alloc, &read.session, &read.steps, rack, gate),
        Err(ConfigUnread::Refused(refusal)) => Ok(refused(alloc, refusal)?),
        Err(ConfigUnread::NoMemory) => Err(RunFault::NoMemory),
    }
}

/// Applies the values that a session document has under its key `state` to the boards of the session (profile): makes a
/// link for each of them by the rack, writes each value and then reads each kept register as client 1, in a thread that
/// calls the gate, gives each link back, and answers the text of what was read, with 0 where each write was done and each
/// read gave its value, and else with 1. A document that breaks a rule is answered by the line of the first, with 3, and
/// no link is made. `Rack` is answered where a link could not be made.
pub fn apply_document<R: Rack, T: Threads + Wait + Sync, G: Gate>(
    rt: &T,
    alloc: Global,
    bytes: &[u8],
    rack: &mut R,
    gate: &G,
) -> Result<Answer, RunFault>
    ensures leaves { Keeps R.Rack R.L.Link rack.old rack.new
        (λ links. Leaves NoneCame IsRunFailure RunFault.Rack apply_terms bytes.now (R.made rack.old) (R.made rack.new)
        result (no_pairs links)) }
    ensures refused { IfOk result (λ answer. answer.status ≡ refused_status → rack.new ≡ rack.old) }
    ensures rack_faults { RisesExactlyIf (result ≡ Err RunFault.Rack) (R.faults rack.old) (R.faults rack.new) }
{
    applied_texts_are_those_of_given_and_opening_values();
    steps_for_a_command_can_be_run();
    steps_that_fit_may_be_run();
    runs_over_links_are_runs_of_a_session();
    match read_for_apply(alloc, bytes) {
        Ok(read) => write_configuration(rt, alloc, &read.session, &read.steps, rack, gate),
        Err(ConfigUnread::Refused(refusal)) => Ok(refused(alloc, refusal)?),
        Err(ConfigUnread::NoMemory) => Err(RunFault::NoMemory),
    }
}

/// The answer to a document that is refused: the line of the refusal, and `REFUSED`.
fn refused(alloc: Global, refusal: ConfigRefusal) -> Result<Answer, NoMemory>
    ensures status { IfOk result (λ answer. answer.status ≡ refused_status) }
    ensures text { IfOk result (λ answer. answer.text.items ≡ refusal_line refusal) }
{
    let line = refusal.line(alloc)?;
    Ok(Answer::new(alloc, REFUSED, line.into_bytes()))
}
