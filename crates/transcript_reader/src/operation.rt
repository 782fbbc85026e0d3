//! Reading the line of an operation.

ghost use Rattle.std.specs.Prelude.{◌≡◌, ◌↔◌, [], IfOk, IfSome, IsTrue};
ghost use Rattle.std.specs.List.{AllByRecursion};
ghost use Rattle.transcript_reader.specs.Entries as entries;
ghost use Rattle.ipb_base.specs.Fronts.{Finds};
ghost use Rattle.transcript_reader.specs.Walks as spec;
ghost use Rattle.transcript_reader.specs.Walks.{CanBeSent, HasRoom, HoldsLive, IsPrintedShowing, ReadsOperation};
ghost use Rattle.transcript_reader.specs.Walks.{ReadsShown};

use crate::deciding::can_show_live;
use crate::front::{behind, same_bytes};
use crate::showing::read_showing;
use crate::shown::ShownOp;
use crate::writing::{push_asked, push_shown};
use board_specs::BoardSpec;
use ipb_base::NoMemory;
use script_plans::Greeting;
use script_steps::RegOp;
use std::alloc::Global;
use transcript::{LinePlaces, OpResult};

/// What is shown without a place.
fn without_place(alloc: Global, came_to: OpResult) -> ShownOp
    ensures { result ≡ (came_to, []) }
{
    ShownOp {
        result: came_to,
        places: LinePlaces::from_vec(Vec::new(alloc)),
    }
}

/// What alone the text behind a register can show.
fn candidate(
    alloc: Global,
    denied: Option<u32>,
    told: Greeting,
    text: &[u8],
) -> Result<Option<ShownOp>, NoMemory>
    ensures printed { IfOk result (λ found. IfSome found IsPrintedShowing) }
    ensures read { IfOk result (λ found. Finds (λ shown. shown) found (spec.candidate denied told text.now)) }
{
    if let Some(rule) = denied {
        return Ok(Some(without_place(alloc, OpResult::Denied { rule })));
    }
    match told {
        Greeting::Live { .. } => read_showing(alloc, text),
        Greeting::Silent => Ok(Some(without_place(alloc, OpResult::Unsent))),
        Greeting::Down => Ok(Some(without_place(alloc, OpResult::LinkLost))),
    }
}

/// Whether a live board can show this, where the operation is sent to one.
fn holds_live(denied: Option<u32>, told: Greeting, op: &RegOp, shown: &ShownOp) -> bool
    requires room { HasRoom told }
    requires sound { CanBeSent denied op.now }
    requires printed { IsPrintedShowing shown.now }
    ensures { IsTrue result ↔ HoldsLive denied told op.now shown.now }
{
    match (denied, told) {
        (None, Greeting::Live { payload }) => can_show_live(payload, op, shown),
        _ => true,
    }
}

/// What the text behind a register shows.
fn read_shown(
    alloc: Global,
    written: &mut String,
    denied: Option<u32>,
    told: Greeting,
    op: &RegOp,
    text: &[u8],
) -> Result<Option<ShownOp>, NoMemory>
    requires room { HasRoom told }
    requires sound { CanBeSent denied op.now }
    ensures { IfOk result (ReadsShown denied told op.now text.now) }
{
    let Some(shown) = candidate(alloc, denied, told, text)? else {
        return Ok(None);
    };
    if !holds_live(denied, told, op, &shown) {
        return Ok(None);
    }
    written.clear();
    push_shown(written, &shown)?;
    if same_bytes(written.as_bytes(), text) {
        Ok(Some(shown))
    } else {
        Ok(None)
    }
}

/// The name of the board at a position, empty where none is there.
fn name_at(boards: &[BoardSpec], board: usize) -> &str
    ensures { result.now ≡ entries.name_at boards.now board }
{
    match boards.get(board) {
        Some(spec) => spec.name.as_str(),
        None => "",
    }
}

/// What the line of an operation shows, by its number among those of its client.
pub(crate) fn read_operation(
    alloc: Global,
    written: &mut String,
    boards: &[BoardSpec],
    told: &[Greeting],
    number: u32,
    denied: Option<u32>,
    op: &RegOp,
    line: &[u8],
) -> Result<Option<ShownOp>, NoMemory>
    requires room { AllByRecursion HasRoom told.now }
    requires sound { CanBeSent denied op.now }
    ensures { IfOk result (ReadsOperation boards.now told.now number (record { op = op.now; denied = denied }) line.now) }
{
    let board = op.board as usize;
    let Some(told) = told.get(board) else {
        return Ok(None);
    };
    written.clear();
    push_asked(written, number, op, name_at(boards, board))?;
    let Some(text) = behind(written.as_bytes(), line) else {
        return Ok(None);
    };
    read_shown(alloc, written, denied, *told, op, text)
}
