//! The boards of a document, greeted in order.

ghost use Rattle.std.specs.Prelude.{◌≡◌, ◌≤◌, ◌<◌, ◌+◌, ◌++◌, [], Err, length, map, IfOk, OnErr, OnOk, false};
ghost use Rattle.std.specs.List.{AllByRecursion};
ghost use Rattle.std.specs.Vec.{vec_capacity, vec_len};
ghost use Rattle.ipb_outside.specs.Faults.{RisesExactlyIf};
ghost use Rattle.links.specs.Racks.{made_after};
ghost use Rattle.hub_lane.specs.Greeting.{link_of};
ghost use Rattle.board_greeting.specs.Boards.{AreFreshLinks, AreReached, HasMemory, HasRoom, IsFreshAt, IsReached, OfFirst};
ghost use Rattle.board_greeting.specs.Standings.{link_in, links_in};
ghost use Rattle.board_greeting.specs.Reports.{shown_by};
ghost use Rattle.board_greeting.specs.Links.{AreMadeFor, CanBeReached, Keeps};

use crate::standing::{Standing, standing_of};
use board_bus::laws::words_stay_words;
use board_specs::BoardSpec;
use hub_lane::{Greeted, Lane};
use links::{Link, Rack, RackFault};
use reliable_engine::Settings;
use std::alloc::Global;

/// Gives the link of a board back to the rack, unless it is with its lane at a hub.
fn keep_board<R: Rack>(rack: &mut R, board: Standing<R::L>)
    requires room { HasRoom R.Rack rack.old (length (link_in board)) }
    ensures kept { R.kept rack.new ≡ R.kept rack.old ++ link_in board }
    ensures made { R.made rack.new ≡ R.made rack.old }
    ensures faults { R.faults rack.new ≡ R.faults rack.old }
{
    match board {
        Standing::Live(lane) => rack.keep(lane.close()),
        Standing::AtHub => (),
        Standing::Silent(link) => rack.keep(link),
        Standing::Down(link) => rack.keep(link),
    }
}

/// Gives the links of boards back to the rack, in board order.
pub fn keep_all<R: Rack>(rack: &mut R, boards: Vec<Standing<R::L>>)
    requires room { HasRoom R.Rack rack.old (length (links_in boards.items)) }
    ensures kept { R.kept rack.new ≡ R.kept rack.old ++ links_in boards.items }
    ensures made { R.made rack.new ≡ R.made rack.old }
    ensures faults { R.faults rack.new ≡ R.faults rack.old }
{
    for board in boards {
        keep_board(rack, board);
    }
}

/// Makes the link of a board and greets it.
fn greet_board<R: Rack>(
    alloc: Global,
    settings: Settings,
    spec: &BoardSpec,
    rack: &mut R,
) -> Result<Greeted<R::L>, RackFault>
    requires reached { CanBeReached spec.now }
    ensures reached { IfOk result (λ board. IsReached settings spec.now board (shown_by R.L.Link (link_of board))) }
    ensures faults { RisesExactlyIf (result ≡ Err RackFault.Failed) (R.faults rack.old) (R.faults rack.new) }
    ensures kept { R.kept rack.new ≡ R.kept rack.old }
    ensures made { R.made rack.new ≡ made_after result spec.now.link (R.made rack.old) }
    ensures number { IfOk result (λ board. R.L.number (link_of board) ≡ length (R.made rack.old)) }
    ensures within { length (R.kept rack.old) ≤ length (R.made rack.old) }
{
    words_stay_words();
    let _window = settings.window();
    let link = rack.make(spec)?;
    Ok(Lane::greet(alloc, link, settings))
}

/// Whether memory ran out at the greeting.
pub fn is_out_of_memory<L: Link>(board: &Greeted<L>) -> bool
    ensures { result ≡ false → HasMemory board.now }
{
    matches!(board, Greeted::NoMemory { .. })
}

/// Greets the boards in order, and puts them into `boards`, which has room for all. One on whose link memory ran out is
/// the last.
fn greet_into<R: Rack>(
    alloc: Global,
    settings: Settings,
    specs: &[BoardSpec],
    rack: &mut R,
    boards: &mut Vec<Standing<R::L>>,
) -> Result<(), RackFault>
    requires reached { AllByRecursion CanBeReached specs.now }
    requires empty { boards.old.items ≡ [] }
    requires room { vec_len boards.old + length specs.now ≤ vec_capacity boards.old }
    ensures fresh { OfFirst (IsFreshAt (shown_by R.L.Link) settings) specs.now boards.new.items }
    ensures reached { OnOk result (AreReached (shown_by R.L.Link) settings specs.now boards.new.items) }
    ensures all { OnOk result (length boards.new.items ≡ length specs.now) }
    ensures faults { RisesExactlyIf (result ≡ Err RackFault.Failed) (R.faults rack.old) (R.faults rack.new) }
    ensures kept { R.kept rack.new ≡ R.kept rack.old }
    ensures made { AreMadeFor specs.now (map (shown_by R.L.Link) (links_in boards.new.items)) (R.made rack.old)
        (R.made rack.new) }
    ensures room { HasRoom R.Rack rack.new (length boards.new.items) }
{
    for spec in specs {
        let board = greet_board(alloc, settings, spec, rack)?;
        let is_last = is_out_of_memory(&board);
        boards.push_reserved(standing_of(board));
        if is_last {
            return Err(RackFault::NoMemory);
        }
    }
    Ok(())
}

/// Makes a link for each board and greets it, in order: how each board stands. If that fails, the links that were made
/// are given back to the rack, in order.
pub fn greet_boards<R: Rack>(
    alloc: Global,
    settings: Settings,
    specs: &[BoardSpec],
    rack: &mut R,
) -> Result<Vec<Standing<R::L>>, RackFault>
    requires reached { AllByRecursion CanBeReached specs.now }
    ensures reached { IfOk result (λ boards. AreReached (shown_by R.L.Link) settings specs.now boards.items) }
    ensures all { IfOk result (λ boards. length boards.items ≡ length specs.now) }
    ensures kept { OnOk result (R.kept rack.new ≡ R.kept rack.old) }
    ensures made { IfOk result (λ boards. AreMadeFor specs.now (map (shown_by R.L.Link) (links_in boards.items))
        (R.made rack.old) (R.made rack.new)) }
    ensures room { OnOk result (HasRoom R.Rack rack.new (length specs.now)) }
    ensures left { OnErr result (Keeps R.Rack R.L.Link rack.old rack.new
        (λ links. AreFreshLinks settings specs.now links
        × AreMadeFor specs.now links (R.made rack.old) (R.made rack.new))) }
    ensures faults { RisesExactlyIf (result ≡ Err RackFault.Failed) (R.faults rack.old) (R.faults rack.new) }
{
    let Ok(mut boards) = Vec::with_capacity(alloc, specs.len()) else {
        return Err(RackFault::NoMemory);
    };
    match greet_into(alloc, settings, specs, rack, &mut boards) {
        Ok(()) => Ok(boards),
        Err(fault) => {
            keep_all(rack, boards);
            Err(fault)
        }
    }
}
