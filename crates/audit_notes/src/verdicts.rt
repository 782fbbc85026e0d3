//! What a line of a transcript shows that does not fit its session, and what its rule wants there.

ghost use Rattle.run_audit.specs.Verdicts.{CanBeAudited};

use crate::belonging::{Belongs, what_belongs};
use crate::judged::Judged;
use crate::line_forms::say_operation;
use crate::replayed_line::say_result;
use crate::shown_lines::{line_at, say_line, shown_text};
use note_lines::{Notes, OneLine};
use run_audit::AuditWhy;

/// Says of a transcript that does not fit its session what the first line at fault shows, by its number from 1, and what the
/// rule that it breaks wants there. The transcript is not judged again.
pub fn say_verdict(notes: &mut Notes, judged: Judged<'_>, line: u32, why: AuditWhy)
    requires { CanBeAudited judged.session.now judged.steps.now }
{
    let shown = line_at(judged.transcript, line);
    let text = match shown {
        Some(shown) => Some(shown_text(shown)),
        None => None,
    };
    say_line(notes, line, text);
    match why {
        AuditWhy::Form => say_form(notes, judged, line, shown),
        AuditWhy::Partial => notes.say(PARTIAL),
        AuditWhy::Place => notes.say(PLACE),
        AuditWhy::Result => say_result(notes, judged, line, text.unwrap_or("")),
        AuditWhy::Count => notes.say(COUNT),
    }
}

const PARTIAL: &str =
    "an operation of several pieces shows the place of each, or of none, so that it is known which places are shown";

const PLACE: &str =
    "each piece shows the place of its body, from 1 to the places of the board's line, and its number there; a body has one place, no two have the same, and those of a client rise";

const COUNT: &str =
    "a board's line counts the places that the lines above show, and these are replied, timeout and lost together";

/// Says which line of a transcript belongs there, and what of the line that is there cannot be.
fn say_form(notes: &mut Notes, judged: Judged<'_>, line: u32, shown: Option<&[u8]>) {
    match what_belongs(judged, u64::from(line)) {
        Belongs::Heading(client) => notes.say(format_args!("here belongs: client {client}")),
        Belongs::Operation(asked) => say_operation(notes, judged, asked, shown),
        Belongs::Board(position) => {
            let name = OneLine(judged.board_name(position));
            notes.say(format_args!("here belongs the line of board {name}"))
        }
        Belongs::Nothing => notes.say("no line belongs here"),
    }
    if let Some(bytes) = shown {
        say_end(notes, bytes);
    }
}

/// Says what is wrong at the end of a line.
fn say_end(notes: &mut Notes, bytes: &[u8]) {
    let Some(line) = bytes.strip_suffix(b"\n".as_slice()) else {
        return notes.say(
            "this line has no line feed at its end: the text is cut, or its last line feed was lost",
        );
    };
    match line.last() {
        Some(b' ') => notes.say("a space stands at the end of this line"),
        Some(b'\t') => notes.say("a tab stands at the end of this line"),
        Some(b'\r') => notes.say(
            "this line ends as on Windows: take out the carriage returns, as tr -d '\\r' does",
        ),
        _ => {}
    }
}
