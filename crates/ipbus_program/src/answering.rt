//! What each command answers. A command has a case in `limit_of`, in `too_long` and in one of `answer_to` and
//! `answer_without_door`, and nowhere else.

ghost use Rattle.std.specs.Prelude.{◌≡◌, ◌≢◌, ◌≤◌, ℕ, Err, IfOk, IsOkAnd, false, true};
ghost use Rattle.ipb_outside.specs.Doors.{Listens};
ghost use Rattle.ipb_outside.specs.Pairs.{GivesBack};
ghost use Rattle.board_greeting.specs.Links.{Keeps};
ghost use Rattle.session_run.specs.Faults.{IsRunFailure};
ghost use Rattle.session_serve.specs.Executed.{CameInFrames};
ghost use Rattle.session_serve.specs.Serving.{AreBack};
ghost use Rattle.command_words.specs.declared.command.Command.{Command as CommandValue};
ghost use Rattle.command_words.specs.declared.command.Command.TheVariants.{Load, Serve};
ghost use Rattle.ipb_outside.specs.Faults.{RisesExactlyIf};
ghost use Rattle.command_terms.specs.Leaving.{Leaves};
ghost use Rattle.command_terms.specs.Numbers.{refused_status};
ghost use Rattle.command_terms.specs.Outside.{NoneCame, no_pairs};
ghost use Rattle.command_terms.specs.Terms.{AreTerms, Reads};
ghost use Rattle.ipb_base.specs.Numbers.{most_operations};
ghost use Rattle.ipbus_program.specs.Commands.{terms_of};
ghost use Rattle.ipbus_program.specs.Steps.{IsFailure, LeavesAlone};

use crate::check::check_document;
use crate::check_laws::the_terms_of_check;
use crate::no_answer::NoAnswer;
use audit_command::laws::the_terms_of_audit;
use audit_command::{AuditRefusal, MAX_AUDIT, audit_answer, refused_input};
use capture_commands::laws::{the_terms_of_describe, the_terms_of_undescribe};
use capture_commands::{
    MAX_CAPTURE, TextRefusal, describe_answer, refused_text, undescribe_answer,
};
use client_threads::Gate;
use command_terms::{Answer, refused};
use command_words::Command;
use config_commands::laws::{the_terms_of_apply, the_terms_of_save};
use config_commands::{apply_document, save_document};
use ipb_base::NoMemory;
use ipb_outside::Door;
use links::Rack;
use load_run::answer_load;
use load_run::laws::the_terms_of_load;
use record_command::laws::the_terms_of_record;
use record_command::record_document;
use run_command::laws::the_terms_of_run;
use run_command::run_document;
use serve_command::laws::the_terms_of_serve;
use serve_command::serve_document;
use session_input::{MAX_DOCUMENT, Refusal};
use session_run::RunFault;
use std::alloc::Global;
use std::marker::Sync;
use std::sync::Wait;
use std::thread::Threads;

/// What each command owes are the terms of a command.
pub(crate) fn terms_are_terms()
    ensures { (command : CommandValue) → AreTerms (terms_of command) }
{
    the_terms_of_run();
    the_terms_of_check();
    the_terms_of_serve();
    the_terms_of_load();
    the_terms_of_audit();
    the_terms_of_record();
    the_terms_of_describe();
    the_terms_of_undescribe();
    the_terms_of_save();
    the_terms_of_apply();
}

/// How many bytes the input of a command may have, and none where it reads no input.
pub(crate) fn limit_of(command: &Command) -> Option<usize>
    ensures { result ≡ (terms_of command.now).limit }
{
    match command {
        Command::Run => Some(MAX_DOCUMENT),
        Command::Check { table: _ } => Some(MAX_DOCUMENT),
        Command::Serve { port: _, count: _ } => Some(MAX_DOCUMENT),
        Command::Load { count: _ } => None,
        Command::Audit => Some(MAX_AUDIT),
        Command::Record => Some(MAX_DOCUMENT),
        Command::Describe => Some(MAX_CAPTURE),
        Command::Undescribe => Some(MAX_CAPTURE),
        Command::Save => Some(MAX_DOCUMENT),
        Command::Apply => Some(MAX_DOCUMENT),
    }
}

/// The answer to an input that is longer.
pub(crate) fn too_long(alloc: Global, command: &Command) -> Result<Answer, NoMemory>
    requires { Reads (terms_of command.now) }
    ensures status { IfOk result (λ answer. answer.status ≡ refused_status) }
    ensures text { IfOk result (λ answer. answer.text.items ≡ (terms_of command.now).long_line) }
{
    match command {
        Command::Run => refused(alloc, Refusal::TooLong),
        Command::Check { table: _ } => refused(alloc, Refusal::TooLong),
        Command::Serve { port: _, count: _ } => refused(alloc, Refusal::TooLong),
        Command::Load { count: _ } => unreachable!(),
        Command::Audit => refused_input(alloc, &AuditRefusal::OfSession(Refusal::TooLong)),
        Command::Record => refused(alloc, Refusal::TooLong),
        Command::Describe => refused_text(alloc, &TextRefusal::LongCapture),
        Command::Undescribe => refused_text(alloc, &TextRefusal::LongDescription),
        Command::Save => refused(alloc, Refusal::TooLong),
        Command::Apply => refused(alloc, Refusal::TooLong),
    }
}

/// What a command answers that lets nobody in: to the bytes of its input; one that reads none, whatever the bytes.
fn answer_without_door<R: Rack, T: Threads + Wait + Sync, G: Gate>(
    rt: &T,
    alloc: Global,
    command: &Command,
    bytes: &[u8],
    rack: &mut R,
    gate: &G,
) -> Result<Answer, RunFault>
    requires bounded { (count : ℕ) → command.now ≡ Load count → count ≤ most_operations }
    requires no_server { (port count : ℕ) → command.now ≢ Serve port count }
    ensures leaves { Keeps R.Rack R.L.Link rack.old rack.new
        (λ links. Leaves NoneCame IsRunFailure RunFault.Rack (terms_of command.now) bytes.now (R.made rack.old)
        (R.made rack.new) result (no_pairs links)) }
    ensures refused { IfOk result (λ answer. answer.status ≡ refused_status → rack.new ≡ rack.old) }
    ensures unmade { (terms_of command.now).makes_links ≡ false → rack.new ≡ rack.old }
    ensures rack_faults { RisesExactlyIf (result ≡ Err RunFault.Rack) (R.faults rack.old) (R.faults rack.new) }
{
    match command {
        Command::Run => run_document(rt, alloc, bytes, rack, gate),
        Command::Check { table } => Ok(check_document(alloc, bytes, table.as_str())?),
        Command::Serve { port: _, count: _ } => unreachable!(),
        Command::Load { count } => answer_load(rt, alloc, *count, rack, gate),
        Command::Audit => Ok(audit_answer(alloc, bytes)?),
        Command::Record => record_document(rt, alloc, bytes, rack, gate),
        Command::Describe => Ok(describe_answer(alloc, bytes)?),
        Command::Undescribe => Ok(undescribe_answer(alloc, bytes)?),
        Command::Save => save_document(rt, alloc, bytes, rack, gate),
        Command::Apply => apply_document(rt, alloc, bytes, rack, gate),
    }
}

/// What a command answers to the bytes of its input; one that reads none, whatever the bytes.
pub(crate) fn answer_to<R: Rack, D: Door, T: Threads + Wait + Sync, G: Gate>(
    rt: &T,
    alloc: Global,
    command: &Command,
    bytes: &[u8],
    rack: &mut R,
    door: &mut D,
    gate: &G,
) -> Result<Answer, NoAnswer>
    requires { (count : ℕ) → command.now ≡ Load count → count ≤ most_operations }
    ensures leaves { Keeps R.Rack R.L.Link rack.old rack.new
        (λ links. GivesBack D.Door D.Incoming.Source D.Outgoing.Sink door.old door.new
        (λ came back. Leaves AreBack IsFailure NoAnswer.RackFault (terms_of command.now) bytes.now (R.made rack.old)
        (R.made rack.new) result (record { links = links; came = came; back = back }))) }
    ensures in_frames { (port count : ℕ) → command.now ≡ Serve port count
        → Keeps R.Rack R.L.Link rack.old rack.new
        (λ links. GivesBack D.Door D.Incoming.Source D.Outgoing.Sink door.old door.new (CameInFrames links)) }
    ensures alone { LeavesAlone (terms_of command.now) result rack.old rack.new door.old door.new }
    ensures none_out { D.out door.new ≡ D.out door.old }
    ensures listens { (port count : ℕ) → command.now ≡ Serve port count
        → Listens port (IsOkAnd result (λ answer. answer.status ≢ refused_status)) (D.ports door.old)
        (D.ports door.new) }
    ensures serves { result ≡ Err NoAnswer.DoorFault → (terms_of command.now).lets_in ≡ true }
    ensures not_read_fault { result ≢ Err NoAnswer.ReadFault }
    ensures rack_faults { RisesExactlyIf (result ≡ Err NoAnswer.RackFault) (R.faults rack.old) (R.faults rack.new) }
    ensures door_faults { RisesExactlyIf (result ≡ Err NoAnswer.DoorFault) (D.faults door.old) (D.faults door.new) }
{
    match command {
        Command::Serve { port, count } => {
            Ok(serve_document(rt, alloc, bytes, *port, *count, rack, door)?)
        }
        _ => Ok(answer_without_door(rt, alloc, command, bytes, rack, gate)?),
    }
}
