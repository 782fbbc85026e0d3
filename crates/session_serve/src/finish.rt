//! The lines of the boards once their lanes came back, and their links given back.

ghost use Rattle.std.specs.Prelude.{◌≡◌, ◌≤◌, ◌+◌, ◌++◌, ◌∷◌, [], length};
ghost use Rattle.std.specs.List.{AllByRecursion};
ghost use Rattle.std.specs.Vec.{vec_capacity};
ghost use Rattle.board_greeting.specs.Boards.{HasRoom};
ghost use Rattle.board_greeting.specs.Standings.{link_in, links_in};
ghost use Rattle.session_serve.specs.Finish.{IsHere, IsSound, line_in, lines_in};

use board_greeting::{Standing, close_lane};
use ipb_base::Text;
use links::{Link, Rack};
use transcript::BoardLine;

/// The link of a board, and its line: for a live one the numbers that its lane tells.
fn finish_board<L: Link>(board: Standing<L>, name: Text) -> (L, BoardLine)
    requires { IsHere board }
    ensures link { link_in board ≡ result.0 ∷ [] }
    ensures line { result.1 ≡ line_in name board }
    ensures sound { IsSound L.Link board }
{
    match board {
        Standing::Live(lane) => {
            lane.is_sound();
            let sent = lane.sent();
            let (replied, timed_out, lost) = lane.counts();
            let line = BoardLine::Live {
                name,
                sent,
                replied,
                timed_out,
                lost,
            };
            (close_lane(lane), line)
        }
        Standing::AtHub => unreachable!(),
        Standing::Silent(link) => (link, BoardLine::Silent { name }),
        Standing::Down(link) => (link, BoardLine::Down { name }),
    }
}

/// Adds the line of each board, under its name, to lines that have room for all, and gives each link back to the rack.
pub(crate) fn finish_boards<R: Rack>(
    boards: Vec<Standing<R::L>>,
    names: Vec<Text>,
    lines: &mut Vec<BoardLine>,
    rack: &mut R,
)
    requires all { length names.items ≡ length boards.items }
    requires here { AllByRecursion IsHere boards.items }
    requires room { HasRoom R.Rack rack.old (length boards.items) }
    requires empty { lines.old.items ≡ [] }
    requires place { length names.items ≤ vec_capacity lines.old }
    ensures lines { lines.new.items ≡ lines_in names.items boards.items }
    ensures kept { R.kept rack.new ≡ R.kept rack.old ++ links_in boards.items }
    ensures sound { AllByRecursion (IsSound R.L.Link) boards.items }
    ensures made { R.made rack.new ≡ R.made rack.old }
    ensures faults { R.faults rack.new ≡ R.faults rack.old }
{
    let mut boards = boards.into_iter();
    for name in names {
        let Some(board) = boards.next() else {
            unreachable!()
        };
        let (link, line) = finish_board(board, name);
        rack.keep(link);
        lines.push_reserved(line);
    }
}
