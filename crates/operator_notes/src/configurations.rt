//! What to look for in a document of which the configuration is not saved or applied.

use crate::refusals::say_refusal;
use crate::seams::say_seam;
use crate::sentences::of_state;
use crate::state_faults::say_given;
use crate::state_overlaps::say_overlapped;
use crate::unread::Refused;
use config_input::{ConfigRefusal, ConfigUnread};
use config_store::StoreWhy;
use note_lines::Notes;

impl Refused for ConfigUnread {
    fn say(&self, notes: &mut Notes, input: &[u8]) {
        match self {
            ConfigUnread::Refused(ConfigRefusal::OfSession(refusal)) => {
                say_refusal(notes, refusal, input);
                say_seam(notes, input);
            }
            ConfigUnread::Refused(ConfigRefusal::OfState { board, name, why }) => {
                say_of_state(notes, board.as_str(), name.as_str(), of_state(*why));
                let (board, name) = (board.as_str(), name.as_str());
                if *why == StoreWhy::Overlap {
                    say_overlapped(notes, board, name, input);
                } else {
                    say_given(notes, board, name, *why, input);
                }
                say_seam(notes, input);
            }
            ConfigUnread::NoMemory => notes.lack_memory(),
        }
    }
}

/// Says a rule on the value of a register. There is no name where the board or the document as a whole is at fault.
fn say_of_state(notes: &mut Notes, board: &str, name: &str, rule: &str) {
    if board.is_empty() {
        return notes.say(rule);
    }
    notes.say_in("board", board, name, rule);
}
