//! A sink that keeps what it took.

ghost use Rattle.std.specs.Prelude.{◌≡◌};

use crate::copying::appended;
use ipb_outside::{Failed, Sink};
use std::alloc::Global;
use std::marker::Model;

/// A sink that keeps a copy of the bytes that it took, as many as it is to keep at the most. Where there is no memory for
/// them it keeps none. Contracts see the sink.
#[derive(Drop)]
pub struct KeptSink<S: Sink + Drop> {
    sink: S,
    copy: Option<Vec<u8>>,
    most: usize,
}

impl<S: Sink + Drop> Model for KeptSink<S> {
    ghost Value = { S };

    ghost view = { λ kept. kept.sink };
}

impl<S: Sink + Drop> KeptSink<S> {
    /// The sink, of which up to `most` bytes are kept.
    pub fn new(alloc: Global, sink: S, most: usize) -> KeptSink<S>
        ensures { result ≡ sink }
    {
        KeptSink {
            sink,
            copy: Some(Vec::new(alloc)),
            most,
        }
    }

    /// The bytes that it took, if it kept them all.
    pub fn taken(&self) -> Option<&[u8]> {
        match &self.copy {
            Some(copy) => Some(copy.as_slice()),
            None => None,
        }
    }

    fn keep(&mut self, bytes: &[u8])
        ensures { self.new ≡ self.old }
    {
        if !appended(&mut self.copy, bytes, self.most) {
            self.copy = None;
        }
    }
}

impl<S: Sink + Drop> Sink for KeptSink<S> {
    ghost written = { λ kept. S.written kept };

    ghost faults = { λ kept. S.faults kept };

    ghost ended = { λ kept. S.ended kept };

    /// One write of the sink.
    fn write(&mut self, bytes: &[u8]) -> Result<usize, Failed> {
        let count = self.sink.write(bytes)?;
        self.keep(&bytes[..count]);
        Ok(count)
    }

    fn end(&mut self) {
        self.sink.end();
    }

    fn note(&mut self, line: &str) {
        self.sink.note(line);
    }
}
