//! What is said of a port and its connections, for whoever runs the program: a line each.

use crate::console::Console;
use crate::reply_codes::ReplyCodes;
use std::io;

/// What is said of a port: for how many connections it is open, that the last of them is there, and why it cannot be
/// used.
#[derive(Drop)]
pub(crate) struct DoorNotes {
    console: Console,
    connections: u32,
    accepted: u32,
}

impl DoorNotes {
    /// Of a port that is opened for so many connections.
    pub(crate) fn new(console: Console, connections: u32) -> DoorNotes {
        DoorNotes {
            console,
            connections,
            accepted: 0,
        }
    }

    /// The port is open. The boards were greeted before.
    pub(crate) fn listens(&self, port: u16) {
        self.console.end_greetings();
        let connections = self.connections;
        let plural = if connections == 1 { "" } else { "s" };
        self.console.say(format_args!(
            "listens on port {port} for {connections} connection{plural}"
        ));
    }

    /// The machine does not open the port.
    pub(crate) fn not_opened(&self, port: u16, error: io::Error) {
        self.console.end_greetings();
        self.console.say(format_args!("port {port}: {error}"));
    }

    /// A connection was let in: the last one is said.
    pub(crate) fn accepted(&mut self) {
        self.accepted = self.accepted.saturating_add(1);
        if self.accepted == self.connections {
            let connections = self.connections;
            self.console.say(format_args!(
                "connection {connections} of {connections} is the last one: later ones are not answered"
            ));
        }
    }

    /// The machine does not let a connection in.
    pub(crate) fn not_accepted(&self, error: io::Error) {
        self.console.say(format_args!("accept: {error}"));
    }

    /// What is said of a connection.
    pub(crate) fn of_connection(&self) -> SinkNotes {
        SinkNotes {
            console: self.console.again(),
            codes: ReplyCodes::new(),
        }
    }
}

/// What is said of a connection: that the hub takes no more packets for a board.
#[derive(Drop)]
pub(crate) struct SinkNotes {
    console: Console,
    codes: ReplyCodes,
}

impl SinkNotes {
    /// These bytes of reply frames were written.
    pub(crate) fn wrote(&mut self, bytes: &[u8]) {
        let boards = self.codes.read(bytes);
        if boards != 0 {
            self.console.full(boards);
        }
    }
}
