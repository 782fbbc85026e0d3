//! The line of a script that breaks a rule.

use crate::script_words::word_at_fault;
use crate::unread::found;
use ipb_base::Text;
use note_lines::{Notes, OneLine};
use script_lang::{ScriptWhy, Scripts, parse_document, read_session_table, take_key};
use toml::Table;

/// Says a line of a script, by the numbers from 1 of its client and of itself, and the word of it that is at fault.
pub(crate) fn quote_line(notes: &mut Notes, client: u32, line: u32, why: ScriptWhy, bytes: &[u8]) {
    if let Some(mut document) = found(parse_document(notes.alloc, bytes), notes) {
        take_key(&mut document, "policy");
        take_key(&mut document, "state");
        quote_line_of(notes, client, line, why, document);
    }
}

/// Says a line of the scripts of a session.
fn quote_line_of(notes: &mut Notes, client: u32, line: u32, why: ScriptWhy, session: Table) {
    if let Some(session) = found(read_session_table(notes.alloc, session), notes)
        && let Some(line) = line_in(&session.scripts, client, line)
    {
        quote(notes, line.as_str(), why);
    }
}

fn line_in(scripts: &Scripts, client: u32, line: u32) -> Option<&Text> {
    let script = scripts.as_slice().get(client.saturating_sub(1) as usize)?;
    script.as_slice().get(line.saturating_sub(1) as usize)
}

fn quote(notes: &mut Notes, line: &str, why: ScriptWhy) {
    let text = OneLine(line);
    match word_at_fault(line, why) {
        Some(word) => {
            let word = OneLine(word);
            notes.say(format_args!("the word \"{word}\" of the line \"{text}\""));
        }
        None => notes.say(format_args!("the line \"{text}\"")),
    }
}
