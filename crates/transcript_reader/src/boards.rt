//! Reading the line of a board.

ghost use Rattle.std.specs.Prelude.{◌≡◌, ◌++◌, IfOk, OnOk, string_bytes};
ghost use Rattle.transcript.specs.Text as texts;
ghost use Rattle.ipb_base.specs.Fronts.{Finds};
ghost use Rattle.transcript_reader.specs.Reading.{counts_at};
ghost use Rattle.transcript_reader.specs.Walks.{ReadsBoard, ReadsLive, board_front};

use crate::front::{behind, same_bytes};
use crate::greeting::{push_down, push_silent};
use crate::number::read_number;
use board_specs::BoardSpec;
use ipb_base::{NoMemory, Text};
use std::alloc::Global;
use transcript::BoardLine;

/// The counts of a live board: places, and how many of them were replied to, timed out, or were lost.
#[tactic(auto, unfolding(crate::specs::Reading::counts_at))]
fn read_counts(text: &[u8]) -> Option<(u64, u64, u64, u64)>
    ensures { Finds (λ counts. counts) result (counts_at text.now) }
{
    let (sent, rest) = read_number(10, behind(b" places ", text)?)?;
    let (replied, rest) = read_number(10, behind(b" replied ", rest)?)?;
    let (timed_out, rest) = read_number(10, behind(b" timeout ", rest)?)?;
    let (lost, _rest) = read_number(10, behind(b" lost ", rest)?)?;
    Some((sent, replied, timed_out, lost))
}

/// Puts what stands before the counts of a board behind a text.
fn push_front(text: &mut String, name: &str) -> Result<(), NoMemory>
    ensures { OnOk result (string_bytes text.new ≡ string_bytes text.old ++ board_front name.now) }
{
    Ok(write!(text, "board {name}")?)
}

/// Puts the line of a live board behind a text.
fn push_live(text: &mut String, name: &str, counts: (u64, u64, u64, u64)) -> Result<(), NoMemory>
    ensures { OnOk result (string_bytes text.new
        ≡ string_bytes text.old ++ texts.live_text name.now counts.0 counts.1 counts.2 counts.3) }
{
    let (sent, replied, timed_out, lost) = counts;
    Ok(write!(
        text,
        "board {name} places {sent} replied {replied} timeout {timed_out} lost {lost}\n"
    )?)
}

/// What the line of a live board shows.
fn read_live(
    alloc: Global,
    written: &mut String,
    board: &BoardSpec,
    line: &[u8],
) -> Result<Option<BoardLine>, NoMemory>
    ensures { IfOk result (ReadsLive board.now line.now) }
{
    let name = board.name.as_str();
    written.clear();
    push_front(written, name)?;
    let Some(text) = behind(written.as_bytes(), line) else {
        return Ok(None);
    };
    let Some(counts) = read_counts(text) else {
        return Ok(None);
    };
    written.clear();
    push_live(written, name, counts)?;
    if !same_bytes(written.as_bytes(), line) {
        return Ok(None);
    }
    let (sent, replied, timed_out, lost) = counts;
    Ok(Some(BoardLine::Live {
        name: Text::copy_of(alloc, name)?,
        sent,
        replied,
        timed_out,
        lost,
    }))
}

/// What the line of a board shows.
pub(crate) fn read_board(
    alloc: Global,
    written: &mut String,
    board: &BoardSpec,
    line: &[u8],
) -> Result<Option<BoardLine>, NoMemory>
    ensures { IfOk result (ReadsBoard board.now line.now) }
{
    let name = board.name.as_str();
    written.clear();
    push_silent(written, name)?;
    if same_bytes(written.as_bytes(), line) {
        let name = Text::copy_of(alloc, name)?;
        return Ok(Some(BoardLine::Silent { name }));
    }
    written.clear();
    push_down(written, name)?;
    if same_bytes(written.as_bytes(), line) {
        let name = Text::copy_of(alloc, name)?;
        return Ok(Some(BoardLine::Down { name }));
    }
    read_live(alloc, written, board, line)
}
