//! What is said beside a status that tells of a fault: what was done, and what is missing.

use command_words::Command;

/// The input could not be read.
pub(crate) const READ_NOTE: &str = "the input could not be read; nothing was executed or written";

/// What is said where memory ran out.
pub const MEMORY_NOTE: &str =
    "memory ran out; nothing was written, and what boards were asked before may have been executed";

/// What is said where memory ran out in a command that asks no board.
const NO_BOARD_NOTE: &str = "memory ran out; nothing was written";

/// What is said where memory ran out, by what the words asked for.
pub(crate) fn memory_note(command: Option<&Command>) -> &'static str {
    match command {
        Some(
            Command::Describe | Command::Undescribe | Command::Audit | Command::Check { table: _ },
        ) => NO_BOARD_NOTE,
        _ => MEMORY_NOTE,
    }
}

/// A link could not be made.
pub(crate) const RACK_NOTE: &str =
    "a link to a board could not be made; nothing was executed or written";

/// The port could not be used.
pub(crate) const DOOR_NOTE: &str =
    "the port could not be listened to, or a connection not be accepted: the boards were asked before, and only the text is missing";

/// The text could not be written: what was done before, by what the words asked for. `refused` says that the input was
/// refused.
pub(crate) fn write_note(command: Option<&Command>, refused: bool) -> &'static str {
    if refused {
        return refusal_cut(command);
    }
    match command {
        Some(Command::Run) => {
            "the output could not be written: the scripts were executed, and only the text is cut or missing"
        }
        Some(Command::Audit) => {
            "the output could not be written: only the answer is cut or missing"
        }
        Some(Command::Record) => {
            "the output could not be written: the scripts were executed, and only the capture is cut or missing"
        }
        Some(Command::Serve { port: _, count: _ }) => {
            "the output could not be written: the connections were served, and only the text is cut or missing"
        }
        Some(Command::Load { count: _ }) => {
            "the output could not be written: the session was run, and only the text is cut or missing"
        }
        Some(Command::Check { table: _ }) => {
            "the output could not be written: only the listing is cut or missing"
        }
        Some(Command::Describe) => {
            "the output could not be written: only the description is cut or missing"
        }
        Some(Command::Undescribe) => {
            "the output could not be written: only the text of the capture is cut or missing"
        }
        Some(Command::Save) => {
            "the output could not be written: the registers were read, and only the text is cut or missing"
        }
        Some(Command::Apply) => {
            "the output could not be written: the values were written and the registers read, and only the text is cut or missing"
        }
        None => "the output could not be written: only the usage line is cut or missing",
    }
}

/// The line of a refusal could not be written.
fn refusal_cut(command: Option<&Command>) -> &'static str {
    match command {
        Some(Command::Describe) => {
            "the output could not be written: the capture was refused, and the line that says so is cut or missing"
        }
        Some(Command::Undescribe) => {
            "the output could not be written: the description was refused, and the line that says so is cut or missing"
        }
        _ => {
            "the output could not be written: the document was refused, nothing was executed, and the line that says so is cut or missing"
        }
    }
}
