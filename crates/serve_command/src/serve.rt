//! What `serve` makes of the bytes of a document.

ghost use Rattle.std.specs.Prelude.{◌≡◌, ◌≢◌, Err, IfOk, IsOk, IsOkAnd};
ghost use Rattle.ipb_outside.specs.Doors.{Listens};
ghost use Rattle.ipb_outside.specs.Pairs.{GivesBack};
ghost use Rattle.board_greeting.specs.Links.{Keeps};
ghost use Rattle.session_serve.specs.Faults.{IsServeFailure};
ghost use Rattle.session_serve.specs.Executed.{CameInFrames};
ghost use Rattle.session_serve.specs.Serving.{AreBack};
ghost use Rattle.serve_command.specs.Text as texts;
ghost use Rattle.ipb_outside.specs.Faults.{RisesExactlyIf};
ghost use Rattle.command_terms.specs.Leaving.{Leaves};
ghost use Rattle.command_terms.specs.Numbers.{refused_status};
ghost use Rattle.serve_command.specs.Steps.{MayServe, ServeLeaves};
ghost use Rattle.serve_command.specs.Terms.{serve_terms};

use crate::below::serve_laws;
use crate::text::{all_closed, serve_text};
use command_terms::{Answer, done_status, refused};
use ipb_base::NoMemory;
use ipb_outside::Door;
use links::Rack;
use script_lang::Session;
use script_lang::laws::the_ranges_of_a_session_name_words;
use session_input::{Unread, read_for_serve};
use session_serve::{ServeFault, ServeReport, serve_session};
use std::alloc::Global;
use std::marker::Sync;
use std::sync::Wait;
use std::thread::Threads;

/// Serves connections at the boards of a session document, whose scripts are checked and not run (profile): makes a link
/// for each board by the rack, lets so many connections in by the door at this port, serves each in a thread of its own,
/// gives each pair and each link back, and answers a line for each connection and each board, with 0 where the client of
/// each connection ended it behind a whole frame, and else with 1. A document that breaks a rule is answered by the line
/// of the first, with 3, and neither rack nor door is called. `Rack` is answered where a link could not be made, `Door`
/// where the port could not be listened to or a connection not be accepted.
pub fn serve_document<R: Rack, D: Door, T: Threads + Wait + Sync>(
    rt: &T,
    alloc: Global,
    bytes: &[u8],
    port: u16,
    count: u32,
    rack: &mut R,
    door: &mut D,
) -> Result<Answer, ServeFault>
    ensures leaves { Keeps R.Rack R.L.Link rack.old rack.new
        (λ links. GivesBack D.Door D.Incoming.Source D.Outgoing.Sink door.old door.new
        (λ came back. Leaves AreBack IsServeFailure ServeFault.Rack (serve_terms count) bytes.now (R.made rack.old)
        (R.made rack.new) result (record { links = links; came = came; back = back }))) }
    ensures in_frames { Keeps R.Rack R.L.Link rack.old rack.new
        (λ links. GivesBack D.Door D.Incoming.Source D.Outgoing.Sink door.old door.new (CameInFrames links)) }
    ensures refused { IfOk result (λ answer. answer.status ≡ refused_status
        → (rack.new ≡ rack.old) × (door.new ≡ door.old)) }
    ensures not_listened { result ≡ Err ServeFault.Rack → door.new ≡ door.old }
    ensures none_out { D.out door.new ≡ D.out door.old }
    ensures listens { Listens port (IsOkAnd result (λ answer. answer.status ≢ refused_status)) (D.ports door.old)
        (D.ports door.new) }
    ensures rack_faults { RisesExactlyIf (result ≡ Err ServeFault.Rack) (R.faults rack.old) (R.faults rack.new) }
    ensures door_faults { RisesExactlyIf (result ≡ Err ServeFault.Door) (D.faults door.old) (D.faults door.new) }
{
    serve_laws();
    the_ranges_of_a_session_name_words();
    match read_for_serve(alloc, bytes) {
        Ok(session) => served(rt, alloc, &session, port, count, rack, door),
        Err(Unread::Refused(refusal)) => Ok(refused(alloc, refusal)?),
        Err(Unread::NoMemory) => Err(ServeFault::NoMemory),
    }
}

/// The text of a server at the boards of a session, and the status that goes with it.
fn served<R: Rack, D: Door, T: Threads + Wait + Sync>(
    rt: &T,
    alloc: Global,
    session: &Session,
    port: u16,
    count: u32,
    rack: &mut R,
    door: &mut D,
) -> Result<Answer, ServeFault>
    requires { MayServe session.now }
    ensures leaves { Keeps R.Rack R.L.Link rack.old rack.new
        (λ links. GivesBack D.Door D.Incoming.Source D.Outgoing.Sink door.old door.new
        (λ came back. ServeLeaves session.now count (R.made rack.old) (R.made rack.new) result
        (record { links = links; came = came; back = back }))) }
    ensures in_frames { Keeps R.Rack R.L.Link rack.old rack.new
        (λ links. GivesBack D.Door D.Incoming.Source D.Outgoing.Sink door.old door.new (CameInFrames links)) }
    ensures not_listened { result ≡ Err ServeFault.Rack → door.new ≡ door.old }
    ensures none_out { D.out door.new ≡ D.out door.old }
    ensures listens { Listens port (IsOk result) (D.ports door.old) (D.ports door.new) }
    ensures rack_faults { RisesExactlyIf (result ≡ Err ServeFault.Rack) (R.faults rack.old) (R.faults rack.new) }
    ensures door_faults { RisesExactlyIf (result ≡ Err ServeFault.Door) (D.faults door.old) (D.faults door.new) }
{
    let boards = session.boards.as_slice();
    let report = serve_session(rt, alloc, session.settings, boards, port, count, rack, door)?;
    Ok(printed(alloc, &report)?)
}

/// The text of a report, and the status that goes with it.
fn printed(alloc: Global, report: &ServeReport) -> Result<Answer, NoMemory>
    ensures text { IfOk result (λ answer. answer.text.items
        ≡ texts.serve_text report.now.connections.items report.now.boards.items) }
    ensures status { IfOk result (λ answer. answer.status ≡ texts.serve_status report.now.connections.items) }
{
    let text = serve_text(alloc, &report.connections, &report.boards)?;
    let status = done_status(all_closed(&report.connections));
    Ok(Answer::new(alloc, status, text))
}
