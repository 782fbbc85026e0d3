//! Writing the line of an operation, to be compared with one that was read.

ghost use Rattle.std.specs.Prelude.{◌≡◌, ◌++◌, [], codes, OnOk, string_bytes};
ghost use Rattle.transcript.specs.Lines.{line_with, never_sent};
ghost use Rattle.transcript.specs.Text as spec;
ghost use Rattle.transcript_reader.specs.Walks.{shows_text};

use crate::shown::ShownOp;
use ipb_base::NoMemory;
use script_steps::RegOp;
use transcript::{push_result, verb_text};

/// Puts what stands before the result behind a text: number, verb and register.
pub(crate) fn push_asked(
    text: &mut String,
    number: u32,
    op: &RegOp,
    board: &str,
) -> Result<(), NoMemory>
    ensures { OnOk result (string_bytes text.new
        ≡ string_bytes text.old ++ spec.asked_text (line_with number op.now board.now never_sent)) }
{
    let verb = verb_text(op.verb);
    let name = op.name.as_str();
    Ok(write!(text, "{number} {verb} {board}:{name} ")?)
}

/// The place of a body and the number of a transaction in it.
fn push_place(text: &mut String, place: (u64, u16)) -> Result<(), NoMemory>
    ensures { OnOk result (string_bytes text.new ≡ string_bytes text.old ++ spec.place_text place) }
{
    let (place, transaction) = place;
    Ok(write!(text, "{place}.{transaction}")?)
}

/// Places behind the first, each behind a comma.
fn push_more_places(text: &mut String, places: &[(u64, u16)]) -> Result<(), NoMemory>
    ensures { OnOk result (string_bytes text.new ≡ string_bytes text.old ++ spec.more_places places.now) }
{
    for place in places {
        text.push_str(",")?;
        push_place(text, *place)?;
    }
    Ok(())
}

/// The places of an operation, behind an at sign, where it has any.
fn push_places(text: &mut String, places: &[(u64, u16)]) -> Result<(), NoMemory>
    ensures { OnOk result (string_bytes text.new ≡ string_bytes text.old ++ spec.places_text places.now) }
{
    match places {
        [] => Ok(()),
        [first, others @ ..] => {
            text.push_str(" @")?;
            push_place(text, *first)?;
            push_more_places(text, others)
        }
    }
}

/// Puts what a line shows behind a text, up to the line's end.
pub(crate) fn push_shown(text: &mut String, shown: &ShownOp) -> Result<(), NoMemory>
    ensures { OnOk result (string_bytes text.new ≡ string_bytes text.old ++ shows_text shown.now) }
{
    push_result(text, &shown.result)?;
    push_places(text, shown.places.as_slice())?;
    Ok(text.push_str("\n")?)
}

/// Puts the heading of a client behind a text.
pub(crate) fn push_heading(text: &mut String, client: u64) -> Result<(), NoMemory>
    ensures { OnOk result (string_bytes text.new ≡ string_bytes text.old ++ spec.heading client) }
{
    Ok(write!(text, "client {client}\n")?)
}
