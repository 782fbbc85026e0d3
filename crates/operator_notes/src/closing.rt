//! What is said at the end, by the status.

use crate::denials::{may_have, say_denials};
use crate::given_values::Applied;
use crate::refusals::say_of_input;
use crate::statuses::{DOOR_NOTE, RACK_NOTE, READ_NOTE, memory_note, write_note};
use crate::summaries::say_summary;
use crate::unmatched_rules::say_unmatched;
use crate::unread::found;
use crate::usage::{ask_version, say_usage};
use audit_command::MAX_AUDIT;
use capture_commands::MAX_CAPTURE;
use command_terms::{
    DONE, DOOR_FAULT, NO_MEMORY, NOT_ALL_DONE, RACK_FAULT, READ_FAULT, REFUSED, USAGE, WRITE_FAULT,
};
use command_words::Command;
use ipb_base::NoMemory;
use note_lines::Notes;
use session_input::{MAX_DOCUMENT, read_for_run};
use session_notes::say_asked;
use std::alloc::Global;

/// How the program ends: the status, the words and the command that they are, if they are one, and the input and the
/// output, if they were kept whole.
#[derive(Clone, Copy)]
pub struct Ending<'a> {
    pub status: u8,
    pub words: &'a [String],
    pub command: Option<&'a Command>,
    pub given: Option<&'a [u8]>,
    pub written: Option<&'a [u8]>,
}

/// Whether the words asked for the version.
pub fn asks_version(ending: &Ending<'_>) -> bool {
    ending.status == USAGE && ask_version(ending.words)
}

/// How many bytes of the input are kept, to say what to look for in them: one byte more than the longest input of the
/// command tells that it is too long.
pub fn most_given(command: Option<&Command>) -> usize {
    match command {
        Some(Command::Describe | Command::Undescribe) => MAX_CAPTURE + 1,
        Some(Command::Audit) => MAX_AUDIT + 1,
        _ => MAX_DOCUMENT + 1,
    }
}

/// How many bytes of the output are kept: more than the text of a configuration can have, to say what was read of it.
pub fn most_written(command: Option<&Command>) -> usize {
    match command {
        Some(Command::Save | Command::Apply) => MAX_CAPTURE,
        _ => 0,
    }
}

/// What standard error says at the end of the program, line by line. Fails where there is not enough memory for it.
pub fn closing_notes(alloc: Global, ending: Ending<'_>) -> Result<Vec<String>, NoMemory> {
    let mut notes = Notes::new(alloc);
    say_ending(&mut notes, ending);
    notes.finish()
}

fn say_ending(notes: &mut Notes, ending: Ending<'_>) {
    match ending.status {
        DONE => say_what_is_done(notes, ending),
        NOT_ALL_DONE => say_what_is_missing(notes, ending),
        USAGE => say_usage(notes, ending.words),
        REFUSED => say_refusal(notes, ending),
        READ_FAULT => notes.say(READ_NOTE),
        WRITE_FAULT => say_write_fault(notes, ending),
        NO_MEMORY => notes.say(memory_note(ending.command)),
        RACK_FAULT => notes.say(RACK_NOTE),
        DOOR_FAULT => notes.say(DOOR_NOTE),
        _ => {}
    }
}

/// Says which rules of a policy match nothing, what the scripts of a document that was checked ask of its boards, and
/// what was read of a configuration.
fn say_what_is_done(notes: &mut Notes, ending: Ending<'_>) {
    say_rules(notes, ending);
    say_plans(notes, ending);
    say_configuration(notes, ending);
}

/// Says what a policy denied, what the scripts of a document that was checked ask of its boards, and what was not read or
/// written of a configuration.
fn say_what_is_missing(notes: &mut Notes, ending: Ending<'_>) {
    say_policy(notes, ending);
    say_plans(notes, ending);
    say_configuration(notes, ending);
}

/// Says what the policy of a document denied that was run.
fn say_policy(notes: &mut Notes, ending: Ending<'_>) {
    if let (Some(command), Some(bytes)) = (ending.command, ending.given) {
        say_denials(notes, command, bytes);
    }
    say_rules(notes, ending);
}

/// Says which rules of the policy of a document that is run or checked match no register.
fn say_rules(notes: &mut Notes, ending: Ending<'_>) {
    if let Some(
        Command::Run
        | Command::Record
        | Command::Save
        | Command::Apply
        | Command::Check { table: _ },
    ) = ending.command
        && let Some(bytes) = ending.given
    {
        say_unmatched(notes, bytes);
    }
}

/// Says what the scripts of a document that was checked ask of its boards.
fn say_plans(notes: &mut Notes, ending: Ending<'_>) {
    if let (Some(Command::Check { table: _ }), Some(bytes)) = (ending.command, ending.given)
        && may_have(bytes, "script")
        && let Some(read) = found(read_for_run(notes.alloc, bytes), notes)
    {
        say_asked(notes, read.session.boards.as_slice(), read.steps.as_slice());
    }
}

/// Says what to look for where a command refuses the bytes that it was given.
fn say_refusal(notes: &mut Notes, ending: Ending<'_>) {
    if let (Some(command), Some(bytes)) = (ending.command, ending.given) {
        say_of_input(notes, command, bytes);
    }
}

/// Says what was done where the text could not be written, and of an input that is refused what to look for in it.
fn say_write_fault(notes: &mut Notes, ending: Ending<'_>) {
    say_policy(notes, ending);
    let place = notes.count();
    say_refusal(notes, ending);
    let is_refused = notes.count() > place;
    notes.say(write_note(ending.command, is_refused));
    notes.put_behind(place);
}

/// Says what was read of the configuration of boards, and which registers are not as `apply` was to write them.
fn say_configuration(notes: &mut Notes, ending: Ending<'_>) {
    if let Some(Command::Save | Command::Apply) = ending.command
        && let Some(text) = ending.written
    {
        say_summary(notes, text, applied(ending));
    }
}

/// The values that `apply` was to write, and whether all was done.
fn applied(ending: Ending<'_>) -> Option<Applied<'_>> {
    match (ending.command, ending.given) {
        (Some(Command::Apply), Some(document)) => Some(Applied {
            document,
            is_all_done: ending.status == DONE,
        }),
        _ => None,
    }
}
