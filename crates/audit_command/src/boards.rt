//! The rules on the boards of a session that is to be audited.

ghost use Rattle.std.specs.Prelude.{IfErr, OnOk};
ghost use Rattle.std.specs.List.{AllByRecursion};
ghost use Rattle.session_input.specs.Deserved.{Tells};
ghost use Rattle.session_input.specs.Recording.{IsSimulated, TellsNotSim};
ghost use Rattle.audit_command.specs.Boards as spec;

use board_specs::{BoardSpec, LinkSpec};
use session_input::{Refusal, Text, Unread, check_buses};
use std::alloc::Global;
use std::slice;

/// Whether an audit takes each board: its ranges are a bus, and it is one of this process. Refused is the first that it
/// does not take.
pub(crate) fn check_boards(alloc: Global, boards: &[BoardSpec]) -> Result<(), Unread>
    ensures taken { OnOk result (AllByRecursion spec.IsAuditable boards.now) }
    ensures refused { IfErr result (Tells (spec.TellsFirstBoard boards.now)) }
{
    for board in boards {
        check_board(alloc, board)?;
    }
    Ok(())
}

/// Whether an audit takes a board.
fn check_board(alloc: Global, board: &BoardSpec) -> Result<(), Unread>
    ensures taken { OnOk result (spec.IsAuditable board.now) }
    ensures refused { IfErr result (Tells (spec.TellsBoard board.now)) }
{
    check_buses(alloc, slice::from_ref(board))?;
    check_kind(alloc, board)
}

/// Whether a board is one of this process.
fn check_kind(alloc: Global, board: &BoardSpec) -> Result<(), Unread>
    ensures simulated { OnOk result (IsSimulated board.now.link) }
    ensures refused { IfErr result (Tells (TellsNotSim board.now.link board.now.name)) }
{
    match &board.link {
        LinkSpec::Sim { .. } => Ok(()),
        LinkSpec::Udp { .. } => {
            let name = Text::copy_of(alloc, board.name.as_str())?;
            Err(Unread::Refused(Refusal::NotSim { name }))
        }
    }
}
