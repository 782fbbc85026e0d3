//! Standard error while the program runs, as the links of a rack and the connections of a door share it.

use std::alloc::Global;
use std::fmt::Display;
use std::io::{IsTerminal, Stderr};
use std::rt::Clock;
use std::sync::atomic::{AtomicU32, Ordering};
use std::sync::{Arc, Mutex};
use std::time::Duration;

/// What links and doors say while the program runs: lines on standard error, each of which begins with `ipbus: `. Where
/// standard error cannot be written nothing is said, and where memory ran out less. Handles of one console share what was
/// said.
#[derive(Drop)]
pub struct Console {
    host: HostRuntime,
    tells_greetings: bool,
    shared: Option<Arc<Shared, Global>>,
}

/// A bit of `Shared::screen`: a board over UDP has a link.
const HAS_NETWORK: u32 = 1;

/// A bit of `Shared::screen`: a line that is rewritten may stand on the terminal.
const HAS_ROW: u32 = 2;

/// Goes to the front of a line of the terminal and removes what stands there.
const CLEAR_ROW: &str = "\r\x1b[K";

/// What links and connections know of one another.
#[derive(Drop)]
struct Shared {
    boards: Mutex<Boards>,
    // a bit for each board by its position, where it was said that the hub takes no more packets for it
    full: AtomicU32,
    screen: AtomicU32,
}

#[derive(Drop)]
struct Boards {
    // by position in the document
    names: Vec<String>,
    // the board that is greeted and told nothing yet
    greeted: Option<String>,
}

impl Console {
    /// The standard error of the process. With `tells_greetings` it is said what each board told at its greeting.
    pub fn new(host: HostRuntime, tells_greetings: bool) -> Console {
        let alloc: Global = host.alloc();
        let shared = Shared {
            boards: Mutex::new(Boards {
                names: Vec::new(alloc),
                greeted: None,
            }),
            full: AtomicU32::new(0),
            screen: AtomicU32::new(0),
        };
        Console {
            host,
            tells_greetings,
            shared: Arc::new(alloc, shared).ok(),
        }
    }

    /// Another handle of it.
    pub fn again(&self) -> Console {
        let shared = match &self.shared {
            Some(shared) => Arc::try_clone(shared).ok(),
            None => None,
        };
        Console {
            host: self.host,
            tells_greetings: self.tells_greetings,
            shared,
        }
    }

    fn to(&self) -> Stderr {
        self.host.stderr()
    }

    /// Whether its lines go to a terminal.
    pub fn is_terminal(&self) -> bool {
        self.to().is_terminal()
    }

    /// Says a line. A line that is rewritten makes way for it.
    pub(crate) fn say<D: Display + Drop>(&self, line: D) {
        let to = self.to();
        let cleared = if self.has(HAS_ROW) { CLEAR_ROW } else { "" };
        let _ = eprintln!(to; "{cleared}ipbus: {line}");
    }

    /// From now on a line that is rewritten may stand on the terminal.
    pub(crate) fn open_row(&self) {
        self.add(HAS_ROW);
    }

    /// Writes the line anew that is rewritten.
    pub(crate) fn show_row<D: Display + Drop>(&self, line: D) {
        let to = self.to();
        let _ = eprint!(to; "{CLEAR_ROW}ipbus: {line}");
    }

    /// Removes the line that is rewritten, if there may be one. There will be none.
    pub(crate) fn close_row(&self) {
        if self.has(HAS_ROW) {
            let to = self.to();
            let _ = eprint!(to; "{CLEAR_ROW}");
        }
    }

    /// A board over UDP has a link.
    pub(crate) fn add_network(&self) {
        self.add(HAS_NETWORK);
    }

    /// Whether a board over UDP had a link.
    pub(crate) fn has_network(&self) -> bool {
        self.has(HAS_NETWORK)
    }

    fn add(&self, bit: u32) {
        if let Some(shared) = &self.shared {
            shared.screen.fetch_or(bit, Ordering::SeqCst);
        }
    }

    fn has(&self, bit: u32) -> bool {
        match &self.shared {
            Some(shared) => shared.screen.load(Ordering::SeqCst) & bit != 0,
            None => false,
        }
    }

    /// What it stands on.
    pub(crate) fn host(&self) -> HostRuntime {
        self.host
    }

    /// The time of a clock that never goes back. `None` where the machine has none.
    pub(crate) fn now(&self) -> Option<Duration> {
        self.host.monotonic().ok()
    }

    /// The milliseconds of that clock.
    pub(crate) fn milliseconds(&self) -> Option<u64> {
        u64::try_from(self.now()?.as_millis()).ok()
    }

    /// Whether it is said what a board told at its greeting.
    pub(crate) fn tells_greetings(&self) -> bool {
        self.tells_greetings
    }

    /// The next board of the document has this name.
    pub(crate) fn add_board(&self, name: String) {
        if let Some(shared) = &self.shared
            && let Some(mut boards) = shared.boards.try_lock()
        {
            let _ = boards.names.push(name);
        }
    }

    /// A board is greeted, and is called so where it stays silent. The greetings before are over.
    pub(crate) fn begin_greeting(&self, board: String) {
        self.end_greetings();
        self.put_greeted(Some(board));
    }

    /// The board that is greeted told its status, or its link failed.
    pub(crate) fn end_greeting(&self) {
        self.put_greeted(None);
    }

    fn put_greeted(&self, board: Option<String>) {
        if let Some(shared) = &self.shared
            && let Some(mut boards) = shared.boards.try_lock()
        {
            boards.greeted = board;
        }
    }

    fn take_greeted(&self) -> Option<String> {
        let shared = self.shared.as_ref()?;
        let mut boards = shared.boards.try_lock()?;
        boards.greeted.take()
    }

    /// All greetings so far are over: says which board told nothing, once.
    pub(crate) fn end_greetings(&self) {
        if let Some(board) = self.take_greeted() {
            self.say(format_args!(
                "{board} does not answer: it is not asked again until the next start"
            ));
        }
    }

    /// The hub takes no more packets for these boards, a bit each: says it once of each.
    pub(crate) fn full(&self, boards: u32) {
        let Some(shared) = &self.shared else {
            return;
        };
        let new = boards & !shared.full.fetch_or(boards, Ordering::SeqCst);
        for board in 0..u32::BITS {
            if new >> board & 1 == 1 {
                self.say_full(shared, board);
            }
        }
    }

    fn say_full(&self, shared: &Shared, board: u32) {
        let Some(boards) = shared.boards.try_lock() else {
            return;
        };
        if let Some(name) = boards.names.get(board as usize) {
            self.say(format_args!(
                "board {name} takes no more packets of this hub, its clients get code 8: start the hub anew"
            ));
        }
    }
}
