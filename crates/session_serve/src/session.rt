//! Connections of a door served at the boards of a document.

ghost use Rattle.std.specs.Prelude.{◌≡◌, ◌≢◌, ◌^◌, ◌<◌, length, map, Err, IfOk, IsOk};
ghost use Rattle.std.specs.List.{AllByRecursion};
ghost use Rattle.ipb_outside.specs.Faults.{RisesExactlyIf};
ghost use Rattle.ipb_outside.specs.Doors.{Listens};
ghost use Rattle.ipb_outside.specs.Pairs.{GivesBack};
ghost use Rattle.board_history.specs.Links.{IsUntouched, numbers_of};
ghost use Rattle.board_greeting.specs.Boards.{AreReached, HasRoom};
ghost use Rattle.board_greeting.specs.Reports.{shown_by};
ghost use Rattle.board_greeting.specs.Links.{AreMadeFor, CanBeReached, Keeps};
ghost use Rattle.board_greeting.specs.Standings.{links_in, numbers_in, with_lanes};
ghost use Rattle.session_serve.specs.Boards.{AreLinksTo};
ghost use Rattle.session_serve.specs.Executed.{CameInFrames};
ghost use Rattle.session_serve.specs.Prepared.{IsReady};
ghost use Rattle.session_serve.specs.Serving.{AreBack, AreServed, HadMemory};

use crate::below::laws_of_reports;
use crate::finish::finish_boards;
use crate::hub::serve_at_hub;
use crate::prepared::{Prepared, prepare};
use crate::report::{ServeFault, ServeReport};
use board_greeting::{Standing, greet_boards, keep_all, put_back};
use board_specs::BoardSpec;
use ipb_base::NoMemory;
use ipb_outside::Door;
use links::Rack;
use reliable_engine::Settings;
use std::alloc::Global;
use std::marker::Sync;
use std::sync::Wait;
use std::thread::Threads;

/// Serves connections at boards whose lanes were taken, and gives each link back to the rack.
fn serve_prepared<R: Rack, D: Door, T: Threads + Wait + Sync>(
    rt: &T,
    alloc: Global,
    settings: Settings,
    mut boards: Vec<Standing<R::L>>,
    prepared: Prepared<R::L>,
    specs: &[BoardSpec],
    port: u16,
    count: u32,
    rack: &mut R,
    door: &mut D,
) -> Result<ServeReport, ServeFault>
    requires ready { IsReady (shown_by R.L.Link) settings specs.now boards.items prepared }
    requires room { HasRoom R.Rack rack.old (length specs.now) }
    ensures served { IfOk result (λ report. Keeps R.Rack R.L.Link rack.old rack.new
        (λ links. GivesBack D.Door D.Incoming.Source D.Outgoing.Sink door.old door.new
        (λ came back. AreServed settings specs.now links came back report.connections.items report.boards.items))) }
    ensures all { IfOk result (λ report. length report.connections.items ≡ count) }
    ensures had_memory { IfOk result (λ report. AllByRecursion HadMemory report.connections.items) }
    ensures links { Keeps R.Rack R.L.Link rack.old rack.new
        (λ links. AreLinksTo specs.now links × (length links ≡ length specs.now)
        × (numbers_of links ≡ numbers_in R.L.number (with_lanes boards.items prepared.lanes.items))) }
    ensures pairs { GivesBack D.Door D.Incoming.Source D.Outgoing.Sink door.old door.new AreBack }
    ensures in_frames { Keeps R.Rack R.L.Link rack.old rack.new
        (λ links. GivesBack D.Door D.Incoming.Source D.Outgoing.Sink door.old door.new (CameInFrames links)) }
    ensures none_out { D.out door.new ≡ D.out door.old }
    ensures listens { Listens port (IsOk result) (D.ports door.old) (D.ports door.new) }
    ensures made { R.made rack.new ≡ R.made rack.old }
    ensures rack_faults { R.faults rack.new ≡ R.faults rack.old }
    ensures door_faults { RisesExactlyIf (result ≡ Err ServeFault.Door) (D.faults door.old) (D.faults door.new) }
    ensures not_rack { result ≢ Err ServeFault.Rack }
{
    laws_of_reports();
    let Prepared {
        names,
        mut lines,
        states,
        lanes,
    } = prepared;
    let (lanes, served) = serve_at_hub(rt, alloc, lanes, &states, port, count, door);
    put_back(&mut boards, lanes);
    finish_boards(boards, names, &mut lines, rack);
    match served {
        Ok(connections) => Ok(ServeReport {
            connections,
            boards: lines,
        }),
        Err(fault) => Err(fault),
    }
}

/// Serves connections at boards that were greeted, and gives each link back to the rack.
fn serve_greeted<R: Rack, D: Door, T: Threads + Wait + Sync>(
    rt: &T,
    alloc: Global,
    settings: Settings,
    mut boards: Vec<Standing<R::L>>,
    specs: &[BoardSpec],
    port: u16,
    count: u32,
    rack: &mut R,
    door: &mut D,
) -> Result<ServeReport, ServeFault>
    requires few_boards { length specs.now < 2 ^ 32 }
    requires all { length boards.items ≡ length specs.now }
    requires reached { AreReached (shown_by R.L.Link) settings specs.now boards.items }
    requires room { HasRoom R.Rack rack.old (length specs.now) }
    ensures served { IfOk result (λ report. Keeps R.Rack R.L.Link rack.old rack.new
        (λ links. GivesBack D.Door D.Incoming.Source D.Outgoing.Sink door.old door.new
        (λ came back. AreServed settings specs.now links came back report.connections.items report.boards.items))) }
    ensures all { IfOk result (λ report. length report.connections.items ≡ count) }
    ensures had_memory { IfOk result (λ report. AllByRecursion HadMemory report.connections.items) }
    ensures links { Keeps R.Rack R.L.Link rack.old rack.new
        (λ links. AreLinksTo specs.now links × (length links ≡ length specs.now)
        × (numbers_of links ≡ numbers_of (map (shown_by R.L.Link) (links_in boards.items)))) }
    ensures pairs { GivesBack D.Door D.Incoming.Source D.Outgoing.Sink door.old door.new AreBack }
    ensures in_frames { Keeps R.Rack R.L.Link rack.old rack.new
        (λ links. GivesBack D.Door D.Incoming.Source D.Outgoing.Sink door.old door.new (CameInFrames links)) }
    ensures none_out { D.out door.new ≡ D.out door.old }
    ensures listens { Listens port (IsOk result) (D.ports door.old) (D.ports door.new) }
    ensures made { R.made rack.new ≡ R.made rack.old }
    ensures rack_faults { R.faults rack.new ≡ R.faults rack.old }
    ensures door_faults { RisesExactlyIf (result ≡ Err ServeFault.Door) (D.faults door.old) (D.faults door.new) }
    ensures not_rack { result ≢ Err ServeFault.Rack }
{
    match prepare(alloc, specs, &mut boards) {
        Ok(prepared) => serve_prepared(
            rt, alloc, settings, boards, prepared, specs, port, count, rack, door,
        ),
        Err(NoMemory) => {
            keep_all(rack, boards);
            Err(ServeFault::NoMemory)
        }
    }
}

/// Serves `count` connections of a door at the boards of a document (profile). First a link is made for each board and
/// the board is greeted over it, board by board; only then does the door listen on the port, one time, and let the
/// connections in. The number of a connection, from 1, is that of its client at a hub of all live boards. A connection
/// has a thread to itself; if no thread can be had, this call serves the connection before it lets in another. At the
/// end the door takes back each connection, in the order of acceptance, and the rack each link, in board order. All
/// memory of this call is taken before the door listens.
///
/// If the rack fails, or memory runs out before the door listens, no connection is let in. If the door fails no more
/// are let in, and those that were are still served until each has ended. If a connection ends with want of memory,
/// that is the answer, unless the door failed.
pub fn serve_session<R: Rack, D: Door, T: Threads + Wait + Sync>(
    rt: &T,
    alloc: Global,
    settings: Settings,
    specs: &[BoardSpec],
    port: u16,
    count: u32,
    rack: &mut R,
    door: &mut D,
) -> Result<ServeReport, ServeFault>
    requires few_boards { length specs.now < 2 ^ 32 }
    requires reached { AllByRecursion CanBeReached specs.now }

    // What is reported of each board is what its link bears out, and of each connection what its pair does.
    ensures served { IfOk result (λ report. Keeps R.Rack R.L.Link rack.old rack.new
        (λ links. GivesBack D.Door D.Incoming.Source D.Outgoing.Sink door.old door.new
        (λ came back. AreServed settings specs.now links came back report.connections.items report.boards.items))) }
    ensures all { IfOk result (λ report. length report.connections.items ≡ count) }
    ensures had_memory { IfOk result (λ report. AllByRecursion HadMemory report.connections.items) }

    // Whatever came of it, links were made of the specs of the first boards, and each is given back once, in board
    // order, so that the link of a board is the one that was made of its spec, and each connection that was let in once,
    // in the order of acceptance.
    ensures links { Keeps R.Rack R.L.Link rack.old rack.new
        (λ links. AreLinksTo specs.now links × AreMadeFor specs.now links (R.made rack.old)
        (R.made rack.new)) }
    ensures pairs { GivesBack D.Door D.Incoming.Source D.Outgoing.Sink door.old door.new AreBack }
    ensures none_out { D.out door.new ≡ D.out door.old }

    // Whatever came of it, over a link that tells no board executed a body that no frame of a connection had for it.
    ensures in_frames { Keeps R.Rack R.L.Link rack.old rack.new
        (λ links. GivesBack D.Door D.Incoming.Source D.Outgoing.Sink door.old door.new (CameInFrames links)) }

    // The door listened on the port once, and on no other; where there is no report, once or not at all.
    ensures listens { Listens port (IsOk result) (D.ports door.old) (D.ports door.new) }

    // The faults of the rack and of the door come only from them. Where the rack failed the door was not called.
    ensures rack_faults { RisesExactlyIf (result ≡ Err ServeFault.Rack) (R.faults rack.old) (R.faults rack.new) }
    ensures untouched { result ≡ Err ServeFault.Rack → Keeps R.Rack R.L.Link rack.old rack.new
        (AllByRecursion IsUntouched) }
    ensures not_listened { result ≡ Err ServeFault.Rack → door.new ≡ door.old }
    ensures door_faults { RisesExactlyIf (result ≡ Err ServeFault.Door) (D.faults door.old) (D.faults door.new) }
{
    let boards = greet_boards(alloc, settings, specs, rack)?;
    serve_greeted(rt, alloc, settings, boards, specs, port, count, rack, door)
}
