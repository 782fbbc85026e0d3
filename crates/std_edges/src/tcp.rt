//! The two sides of a TCP connection. They stand on any reader and writer of std, so that a clause says what is handed
//! to those that tell their bytes, as those of a test do; a stream does not tell them.

ghost use Rattle.std.specs.Prelude.{◌≡◌, ◌<◌, ◌≤◌, false, Ok, None, IfOk, length, IsErr};
ghost use Rattle.std.specs.Io.KnownBytes.{IsAtEnd, ReadConsumes, WriteAppends};
ghost use Rattle.ipb_outside.specs.Faults.{RisesExactlyIf};
ghost use Rattle.ipb_outside.specs.Told.{Reads, Writes};

use crate::counting::{read_counted, write_counted};
use crate::door_notes::SinkNotes;
use ipb_outside::{Failed, Sink, Source};
use std::io::{Read, Write};
use std::marker::Model;
use std::net::{Shutdown, TcpStream};

/// The side of a TCP connection from which bytes come. A read waits for the peer, for as long as that takes. Contracts
/// see a `SourceState`.
#[derive(Drop)]
pub struct TcpSource<R: Read + Drop = TcpStream> {
    stream: R,
    faults: u64,
}

impl<R: Read + Drop> Model for TcpSource<R> {
    ghost use Rattle.std_edges.specs.States.{SourceState};

    ghost Value = { SourceState };

    ghost view = { λ source. record { remaining = R.remaining source.stream; faults = source.faults } };
}

impl<R: Read + Drop> TcpSource<R> {
    /// The stream, or one of two handles of it, as a source that met no error yet.
    pub fn new(stream: R) -> TcpSource<R>
        ensures { result ≡ record { remaining = R.remaining stream; faults = 0 } }
    {
        TcpSource { stream, faults: 0 }
    }
}

impl<R: Read + Drop> Source for TcpSource<R> {
    ghost left = { λ _. None };

    ghost faults = { λ source. source.faults };

    /// One read of the stream. An error, of any kind, is counted.
    fn read(&mut self, buf: &mut [u8]) -> Result<usize, Failed>
        ensures within { IfOk result (λ count. count ≤ length buf.new) }
        ensures taken { Reads None None result buf.new }
        ensures at_end { result ≡ Ok 0 → 0 < length buf.new → IsAtEnd None }
        ensures faults { RisesExactlyIf (IsErr result) self.old.faults self.new.faults }
        ensures handed_on { ReadConsumes self.old.remaining self.new.remaining result buf.new }
    {
        read_counted(&mut self.stream, buf, &mut self.faults)
    }
}

/// A writer whose peer reads to an end once nothing more is written.
pub trait EndWriting: Write {
    /// Says that nothing more is written. Where that is no longer possible the connection is gone already.
    fn end_writing(&mut self);
}

impl EndWriting for TcpStream {
    /// Shuts the writing side of the stream down.
    fn end_writing(&mut self) {
        let _ = self.shutdown(Shutdown::Write);
    }
}

/// The side of a TCP connection to which bytes go. A write may wait for the peer, for as long as that takes. Contracts
/// see a `SinkState`.
#[derive(Drop)]
pub struct TcpSink<W: EndWriting + Drop = TcpStream> {
    stream: W,
    notes: Option<SinkNotes>,
    faults: u64,
    ended: bool,
}

impl<W: EndWriting + Drop> Model for TcpSink<W> {
    ghost use Rattle.std_edges.specs.States.{SinkState};

    ghost Value = { SinkState };

    ghost view = { λ sink. record { contents = W.contents sink.stream; faults = sink.faults; ended = sink.ended } };
}

impl<W: EndWriting + Drop> TcpSink<W> {
    /// The stream, or one of two handles of it, as a sink that met no error yet and was not ended.
    pub fn new(stream: W) -> TcpSink<W>
        ensures { result ≡ record { contents = W.contents stream; faults = 0; ended = false } }
    {
        TcpSink::with_notes(stream, None)
    }

    /// The stream as a sink, whose notes, where they are given, say on standard error what the reply frames tell that are
    /// written to it.
    pub(crate) fn with_notes(stream: W, notes: Option<SinkNotes>) -> TcpSink<W>
        ensures { result ≡ record { contents = W.contents stream; faults = 0; ended = false } }
    {
        TcpSink {
            stream,
            notes,
            faults: 0,
            ended: false,
        }
    }
}

impl<W: EndWriting + Drop> Sink for TcpSink<W> {
    ghost written = { λ _. None };

    ghost faults = { λ sink. sink.faults };

    ghost ended = { λ sink. sink.ended };

    /// One write of the stream. An error, of any kind, and a write that took nothing of bytes that are there are
    /// counted.
    fn write(&mut self, bytes: &[u8]) -> Result<usize, Failed>
        ensures within { IfOk result (λ count. count ≤ length bytes.now) }
        ensures goes_on { IfOk result (λ count. 0 < length bytes.now → 0 < count) }
        ensures appended { Writes None None result bytes.now }
        ensures faults { RisesExactlyIf (IsErr result) self.old.faults self.new.faults }
        ensures ended_kept { self.new.ended ≡ self.old.ended }
        ensures handed_on { WriteAppends self.old.contents self.new.contents result bytes.now }
    {
        let written = write_counted(&mut self.stream, bytes, &mut self.faults);
        note_written(&written, bytes, &mut self.notes);
        written
    }

    /// Shuts the writing side of the stream down, so that the peer reads to its end. An error is not counted: then the
    /// connection is gone already.
    fn end(&mut self) {
        self.stream.end_writing();
        self.ended = true;
    }
}

// Notes what was written of these bytes.
fn note_written(written: &Result<usize, Failed>, bytes: &[u8], notes: &mut Option<SinkNotes>) {
    if let (Ok(count), Some(notes)) = (written, notes) {
        if let Some(front) = bytes.get(..*count) {
            notes.wrote(front);
        }
    }
}
