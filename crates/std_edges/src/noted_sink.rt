//! A sink beside which something is said.

ghost use Rattle.std.specs.Prelude.{◌≡◌};

use crate::console::Console;
use ipb_outside::{Failed, Sink};
use std::marker::Model;

/// A sink whose notes are lines on standard error. Contracts see the sink.
#[derive(Drop)]
pub struct NotedSink<S: Sink + Drop> {
    sink: S,
    console: Console,
}

impl<S: Sink + Drop> Model for NotedSink<S> {
    ghost Value = { S };

    ghost view = { λ noted. noted.sink };
}

impl<S: Sink + Drop> NotedSink<S> {
    /// The sink, whose notes are said by this console.
    pub fn new(sink: S, console: Console) -> NotedSink<S>
        ensures { result ≡ sink }
    {
        NotedSink { sink, console }
    }
}

impl<S: Sink + Drop> Sink for NotedSink<S> {
    ghost written = { λ noted. S.written noted };

    ghost faults = { λ noted. S.faults noted };

    ghost ended = { λ noted. S.ended noted };

    /// One write of the sink.
    fn write(&mut self, bytes: &[u8]) -> Result<usize, Failed> {
        self.sink.write(bytes)
    }

    fn end(&mut self) {
        self.sink.end();
    }

    /// Says the line behind the name of the program.
    fn note(&mut self, line: &str) {
        self.console.say(line);
    }
}
