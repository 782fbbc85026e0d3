//! A document read to record the traffic of its board.

ghost use Rattle.std.specs.Prelude.{◌≤◌, IfOk, IfErr, OnOk, length};
ghost use Rattle.std.specs.List.{AllByRecursion};
ghost use Rattle.script_lang.specs.Limits.{IsWithin};
ghost use Rattle.script_steps.specs.Packing.{AreWithinLimits, CanBePacked, HaveFewPieces};
ghost use Rattle.script_lang.specs.declared.script_refusal.TheConstants.{MAX_LINES};
ghost use Rattle.session_input.specs.Deserved.{Deserves, Tells};
ghost use Rattle.session_input.specs.Recording as spec;

use crate::reading::{Runnable, read, with_steps};
use crate::refusal::{Refusal, Unread};
use board_specs::{BoardSpec, LinkSpec};
use ipb_base::Text;
use script_lang::Session;
use std::alloc::Global;

/// Reads a document to record the traffic of its board (profile): the session that the bytes stand for, of one simulated
/// board, and the steps of its scripts under its policy, or else the first rule that is broken.
pub fn read_for_record(alloc: Global, bytes: &[u8]) -> Result<Runnable, Unread>
    ensures recordable { IfOk result (λ read. spec.IsRecordable bytes.now read.session read.steps.items) }
    ensures refused { IfErr result (Tells (Deserves spec.BreaksInRecord bytes.now)) }
    ensures within { IfOk result (λ read. IsWithin read.session) }
    // Each operation of the steps can be packed, whatever packets its board takes, and no client has too many.
    ensures packed { IfOk result (λ read. AllByRecursion (AllByRecursion CanBePacked) read.steps.items) }
    ensures few { IfOk result (λ read. AllByRecursion HaveFewPieces read.steps.items) }
    ensures limits { IfOk result (λ read. AreWithinLimits read.steps.items) }
    ensures short { IfOk result (λ read. AllByRecursion (λ steps. length steps ≤ MAX_LINES) read.steps.items) }
{
    let stated = read(alloc, bytes)?;
    check_boards(alloc, &stated.session)?;
    with_steps(alloc, stated)
}

/// Whether a session has one board, which is simulated.
fn check_boards(alloc: Global, session: &Session) -> Result<(), Unread>
    ensures one { OnOk result (spec.IsOneSimulated session.now.boards) }
    ensures refused { IfErr result (Tells (spec.TellsNotOne session.now.boards)) }
{
    let boards = session.boards.as_slice();
    if boards.len() != 1 {
        return Err(Unread::Refused(Refusal::OneBoard));
    }
    let board = &boards[0];
    check_board(alloc, board)
}

/// Whether a board is simulated.
fn check_board(alloc: Global, board: &BoardSpec) -> Result<(), Unread>
    ensures simulated { OnOk result (spec.IsSimulated board.now.link) }
    ensures refused { IfErr result (Tells (spec.TellsNotSim board.now.link board.now.name)) }
{
    match &board.link {
        LinkSpec::Sim { .. } => Ok(()),
        LinkSpec::Udp { .. } => {
            let name = Text::copy_of(alloc, board.name.as_str())?;
            Err(Unread::Refused(Refusal::NotSim { name }))
        }
    }
}
