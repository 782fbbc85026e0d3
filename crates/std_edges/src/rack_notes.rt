//! What a rack knows of its boards over UDP beside their links: which addresses have a link, the locks of this machine,
//! and who says so.

ghost use Rattle.std.specs.Prelude.{◌≡◌, IfOk};
ghost use Rattle.std_edges.specs.States.{new_udp};

use crate::board_locks::{BoardLock, Claim, is_shared, lock_board};
use crate::console::Console;
use crate::link_notes::Voice;
use crate::places::place_of_board;
use crate::udp_link::UdpLink;
use links::RackFault;
use std::alloc::{AllocError, Global};
use std::io;
use std::net::{Net, SocketAddr};

/// A board over UDP that has a link, and its lock.
#[derive(Drop)]
struct Linked {
    board: SocketAddr,
    name: String,
    _lock: Option<BoardLock>,
}

/// Why no link may be made to a board.
#[derive(Clone, Copy, PartialEq, Eq)]
enum Barred {
    /// Another board of this rack has its address, or another hub of this machine has the board.
    InUse,
    /// There is no memory for what is kept of the link.
    NoMemory,
}

impl From<AllocError> for Barred {
    fn from(_error: AllocError) -> Barred {
        Barred::NoMemory
    }
}

// Why no link is made to a board that was not admitted.
impl From<Barred> for RackFault {
    fn from(barred: Barred) -> RackFault {
        match barred {
            Barred::InUse => RackFault::Failed,
            Barred::NoMemory => RackFault::NoMemory,
        }
    }
}

/// The boards over UDP of a rack. Without a console nothing is said, and no lock of this machine is asked for.
#[derive(Drop)]
pub struct RackNotes {
    console: Option<Console>,
    linked: Vec<Linked>,
    said_no_lock: bool,
}

impl RackNotes {
    /// Of a rack that made no link.
    pub fn new(alloc: Global, console: Option<Console>) -> RackNotes {
        RackNotes {
            console,
            linked: Vec::new(alloc),
            said_no_lock: false,
        }
    }

    /// The next board of the document has this name.
    pub fn add_board(&self, alloc: Global, name: &str) {
        if let Some(console) = &self.console
            && let Ok(name) = String::from_str(alloc, name)
        {
            console.add_board(name);
        }
    }

    /// A link to the board of this name, at this address, the most significant number first, and this port. One receive
    /// waits for `wait` milliseconds, and for 1 where that is 0. `Failed` where the machine refuses the socket, where the
    /// rack has a link to that address and port, and where another process has the lock of the board.
    pub fn link_to<R: Net + AllocGlobal>(
        &mut self,
        rt: &R,
        name: &str,
        address: [u8; 4],
        port: u16,
        wait: u32,
    ) -> Result<UdpLink, RackFault>
        ensures { IfOk result (λ link. link ≡ new_udp address port wait) }
    {
        let (linked, voice) = self.admit(rt.alloc(), name, place_of_board(address, port))?;
        let Ok(mut link) = UdpLink::with_notes(rt, address, port, wait, voice) else {
            return Err(RackFault::Failed);
        };
        if let Some(console) = &self.console {
            link.set_host(console.host());
        }
        self.add(linked)?;
        Ok(link)
    }

    // Whether a link may be made to this board: what is kept of it then, and the voice of the link.
    fn admit(
        &mut self,
        alloc: Global,
        name: &str,
        board: SocketAddr,
    ) -> Result<(Linked, Option<Voice>), Barred> {
        if let Some(other) = other_at(&self.linked, board) {
            self.say_one_address(other, name, board);
            return Err(Barred::InUse);
        }
        let lock = self.lock(name, board)?;
        let linked = Linked {
            board,
            name: String::from_str(alloc, name)?,
            _lock: lock,
        };
        match &self.console {
            Some(console) => {
                console.add_network();
                Ok((linked, Voice::new(console, name, board)))
            }
            None => Ok((linked, None)),
        }
    }

    // The link to an admitted board was made.
    fn add(&mut self, linked: Linked) -> Result<(), Barred> {
        match self.linked.push(linked) {
            Ok(()) => Ok(()),
            Err(_) => Err(Barred::NoMemory),
        }
    }

    fn say_one_address(&self, other: &str, name: &str, board: SocketAddr) {
        if let Some(console) = &self.console {
            console.say(format_args!("boards {other} and {name} have one address, {board}"));
        }
    }

    /// A link is given back: the greetings are over.
    pub fn given_back(&self) {
        if let Some(console) = &self.console {
            console.end_greetings();
        }
    }

    // The lock of the board, where there is one. `InUse` where another process has it.
    fn lock(&mut self, name: &str, board: SocketAddr) -> Result<Option<BoardLock>, Barred> {
        let Some(console) = &self.console else {
            return Ok(None);
        };
        match lock_board(console.host(), board) {
            Claim::Held(lock) => Ok(Some(lock)),
            Claim::Taken(_) if is_shared(console.host()) => Ok(None),
            Claim::Taken(process) => {
                say_taken(console, name, board, process);
                Err(Barred::InUse)
            }
            Claim::Impossible(error) => {
                if !self.said_no_lock {
                    say_no_lock(console, error);
                }
                self.said_no_lock = true;
                Ok(None)
            }
        }
    }
}

// The name of the board that has a link to this address.
fn other_at(linked: &[Linked], board: SocketAddr) -> Option<&str> {
    for other in linked {
        if other.board == board {
            return Some(other.name.as_str());
        }
    }
    None
}

fn say_taken(console: &Console, name: &str, board: SocketAddr, process: Option<u32>) {
    match process {
        Some(process) => console.say(format_args!(
            "{name} ({board}) belongs to a hub that runs, process {process}; with IPBUS_SHARE=1 this one goes on"
        )),
        None => console.say(format_args!(
            "{name} ({board}) belongs to a hub that runs; with IPBUS_SHARE=1 this one goes on"
        )),
    }
}

fn say_no_lock(console: &Console, error: io::Error) {
    console.say(format_args!(
        "no lock file can be made: {error}; another hub at one of the boards would not be noticed"
    ));
}
