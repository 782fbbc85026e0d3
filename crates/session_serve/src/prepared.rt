//! What the report of boards takes of memory, how the boards stand, and their lanes, before the door listens.

ghost use Rattle.std.specs.Prelude.{◌≡◌, ◌<◌, ◌^◌, length, map, IfOk, OnErr, OnOk};
ghost use Rattle.board_greeting.specs.Standings.{all_at_hub};
ghost use Rattle.session_serve.specs.Prepared.{IsPrepared};

use crate::states::BoardStates;
use board_greeting::{Standing, states_of, take_lanes};
use board_specs::BoardSpec;
use hub_lane::Lane;
use ipb_base::{NoMemory, Text};
use links::Link;
use std::alloc::Global;
use transcript::BoardLine;

/// The names of the boards, room for their lines, how they stand, and the lanes of the live ones.
pub(crate) struct Prepared<L: Link> {
    pub(crate) names: Vec<Text>,
    pub(crate) lines: Vec<BoardLine>,
    pub(crate) states: BoardStates,
    pub(crate) lanes: Vec<Lane<L>>,
}

/// The names of boards.
fn names_of(alloc: Global, specs: &[BoardSpec]) -> Result<Vec<Text>, NoMemory>
    ensures { IfOk result (λ names. names.items ≡ map (λ spec. spec.name) specs.now) }
{
    let mut names = Vec::with_capacity(alloc, specs.len())?;
    for spec in specs {
        names.push_reserved(Text::copy_of(alloc, spec.name.as_str())?);
    }
    Ok(names)
}

/// All that the report of these boards takes of memory, how they stand, and their lanes, which are taken out of their
/// places. If memory runs out nothing changes.
pub(crate) fn prepare<L: Link + Drop>(
    alloc: Global,
    specs: &[BoardSpec],
    boards: &mut [Standing<L>],
) -> Result<Prepared<L>, NoMemory>
    requires few { length boards.old < 2 ^ 32 }
    ensures prepared { IfOk result (IsPrepared specs.now boards.old) }
    ensures left { OnOk result (boards.new ≡ all_at_hub boards.old) }
    ensures unchanged { OnErr result (boards.new ≡ boards.old) }
{
    let names = names_of(alloc, specs)?;
    let lines = Vec::with_capacity(alloc, specs.len())?;
    let states = BoardStates::from_vec(states_of(alloc, boards)?);
    let lanes = take_lanes(alloc, boards)?;
    Ok(Prepared {
        names,
        lines,
        states,
        lanes,
    })
}
