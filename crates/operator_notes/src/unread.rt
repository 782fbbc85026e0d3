//! Why something is not read.

ghost use Rattle.std.specs.Prelude.{◌≡◌};
ghost use Rattle.std.specs.Result.{result_ok};

use access_policy::PolicyRefusal;
use config_input::ConfigUnread;
use config_store::StoreRefusal;
use node_tree::CompileRefusal;
use note_lines::Notes;
use script_lang::SessionRefusal;
use session_input::Unread as SessionUnread;

/// What was read, if it was. Where there was not enough memory for it, that is kept.
pub(crate) fn found<T: Drop, E: Unread>(read: Result<T, E>, notes: &mut Notes) -> Option<T>
    ensures { result ≡ result_ok read }
{
    match read {
        Ok(value) => Some(value),
        Err(unread) => {
            if unread.lacks_memory() {
                notes.lack_memory();
            }
            None
        }
    }
}

/// Why something is not read or made: a rule is broken, or there was not enough memory.
pub(crate) trait Unread: Drop {
    /// Whether there was not enough memory.
    fn lacks_memory(&self) -> bool;
}

impl Unread for SessionRefusal {
    fn lacks_memory(&self) -> bool {
        matches!(self, SessionRefusal::NoMemory)
    }
}

impl Unread for CompileRefusal {
    fn lacks_memory(&self) -> bool {
        matches!(self, CompileRefusal::NoMemory)
    }
}

impl Unread for PolicyRefusal {
    fn lacks_memory(&self) -> bool {
        matches!(self, PolicyRefusal::NoMemory)
    }
}

impl Unread for StoreRefusal {
    fn lacks_memory(&self) -> bool {
        matches!(self, StoreRefusal::NoMemory)
    }
}

impl Unread for SessionUnread {
    fn lacks_memory(&self) -> bool {
        matches!(self, SessionUnread::NoMemory)
    }
}

impl Unread for ConfigUnread {
    fn lacks_memory(&self) -> bool {
        matches!(self, ConfigUnread::NoMemory)
    }
}

/// Why a command reads nothing of an input.
pub(crate) trait Refused: Drop {
    /// Says what to look for in the input, by the rule that it breaks.
    fn say(&self, notes: &mut Notes, input: &[u8]);
}

/// Says what to look for in an input of which this was read. Nothing where it breaks no rule.
pub(crate) fn say_refused<T: Drop, E: Refused>(
    notes: &mut Notes,
    read: Result<T, E>,
    input: &[u8],
) {
    if let Err(refused) = read {
        refused.say(notes, input);
    }
}
