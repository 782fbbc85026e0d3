//! Standard input as a source, standard output as a sink. Neither tells its bytes to the layers above, since a reader
//! or a writer may tell nothing and then something; what those of a test tell is handed on by clauses of their own.

ghost use Rattle.std.specs.Prelude.{◌≡◌, ◌<◌, ◌≤◌, ℕ, List, Option, false, true, Ok, None, IfOk, length, IsErr};
ghost use Rattle.std.specs.Io.KnownBytes.{IsAtEnd, ReadConsumes, WriteAppends};
ghost use Rattle.ipb_outside.specs.Faults.{RisesExactlyIf};
ghost use Rattle.ipb_outside.specs.Told.{Reads, Writes};

use crate::counting::{read_counted, write_counted};
use ipb_outside::{Failed, Sink, Source};
use std::io::{self, Input, Print, Write};
use std::marker::Model;

/// Standard input. It counts the errors that it meets, in 64 bits. A read may wait for what writes to it, for as long
/// as that takes. Contracts see a `SourceState`.
#[derive(Drop)]
pub struct StdinSource<R: Input> {
    reader: R::Reader,
    faults: u64,
}

impl<R: Input> Model for StdinSource<R> {
    ghost use Rattle.std_edges.specs.States.{SourceState};

    ghost Value = { SourceState };

    ghost view = { λ source. record { remaining = R.Reader.remaining source.reader; faults = source.faults } };
}

impl<R: Input> StdinSource<R> {
    /// Standard input of the runtime, as a source that met no error yet.
    pub fn new(rt: &R) -> StdinSource<R>
        ensures { result.faults ≡ 0 }
    {
        StdinSource {
            reader: rt.reader(),
            faults: 0,
        }
    }
}

impl<R: Input> Source for StdinSource<R> {
    ghost left = { λ _. None };

    ghost faults = { λ source. source.faults };

    /// One read, into the same buffer. An error, of any kind, is counted.
    fn read(&mut self, buf: &mut [u8]) -> Result<usize, Failed>
        ensures within { IfOk result (λ count. count ≤ length buf.new) }
        ensures taken { Reads None None result buf.new }
        ensures at_end { result ≡ Ok 0 → 0 < length buf.new → IsAtEnd None }
        ensures faults { RisesExactlyIf (IsErr result) self.old.faults self.new.faults }
        ensures handed_on { ReadConsumes self.old.remaining self.new.remaining result buf.new }
    {
        read_counted(&mut self.reader, buf, &mut self.faults)
    }
}

/// What bytes are printed to. It may tell them, as one of a test does. Standard output tells nothing.
pub trait Output {
    /// The bytes that were printed so far, where it tells them.
    ghost printed: { Self → Option (List ℕ) };

    /// Prints some bytes from the front of these, and answers how many. An error printed none.
    fn print_some(&mut self, bytes: &[u8]) -> io::Result<usize>
        ensures within { IfOk result (λ count. count ≤ length bytes.now) }
        ensures printed { WriteAppends (printed self.old) (printed self.new) result bytes.now };
}

/// Standard output of a runtime.
#[derive(Drop)]
pub struct StandardOutput<R: Print + Drop> {
    rt: R,
}

// What follows is what no contract sees: the call of std.
impl<R: Print + Drop> Output for StandardOutput<R> {
    ghost printed = { λ _. None };

    fn print_some(&mut self, bytes: &[u8]) -> io::Result<usize> {
        self.rt.write_some(bytes)
    }
}

/// An output as a writer of std: each of its writes is one print of the same bytes.
#[derive(Drop)]
pub struct Printed<W: Output + Drop> {
    to: W,
}

impl<W: Output + Drop> Write for Printed<W> {
    ghost contents = { λ printed. W.printed printed.to };

    fn write(&mut self, buf: &[u8]) -> io::Result<usize> {
        self.to.print_some(buf)
    }

    /// Nothing is held back.
    fn flush(&mut self) -> io::Result<()> {
        Ok(())
    }
}

/// Standard output. It counts the errors that it meets, and the writes that took nothing of bytes that are there, in 64
/// bits. A write may wait for what reads from it, for as long as that takes. Contracts see a `SinkState`.
#[derive(Drop)]
pub struct StdoutSink<W: Write + Drop> {
    writer: W,
    faults: u64,
    ended: bool,
}

impl<W: Write + Drop> Model for StdoutSink<W> {
    ghost use Rattle.std_edges.specs.States.{SinkState};

    ghost Value = { SinkState };

    ghost view = { λ sink. record { contents = W.contents sink.writer; faults = sink.faults; ended = sink.ended } };
}

impl<R: Print + Drop> StdoutSink<Printed<StandardOutput<R>>> {
    /// Standard output of the runtime, as a sink that met no error yet and was not ended.
    pub fn new(rt: R) -> StdoutSink<Printed<StandardOutput<R>>>
        ensures { result ≡ record { contents = None; faults = 0; ended = false } }
    {
        StdoutSink::printing(StandardOutput { rt })
    }
}

impl<W: Output + Drop> StdoutSink<Printed<W>> {
    /// An output in place of standard output, as a sink that met no error yet and was not ended.
    pub fn printing(to: W) -> StdoutSink<Printed<W>>
        ensures { result ≡ record { contents = W.printed to; faults = 0; ended = false } }
    {
        StdoutSink::over(Printed { to })
    }
}

impl<W: Write + Drop> StdoutSink<W> {
    /// A writer in place of standard output, as a sink that met no error yet and was not ended.
    pub fn over(writer: W) -> StdoutSink<W>
        ensures { result ≡ record { contents = W.contents writer; faults = 0; ended = false } }
    {
        StdoutSink {
            writer,
            faults: 0,
            ended: false,
        }
    }
}

impl<W: Write + Drop> Sink for StdoutSink<W> {
    ghost written = { λ _. None };

    ghost faults = { λ sink. sink.faults };

    ghost ended = { λ sink. sink.ended };

    /// One write of the same bytes. An error, of any kind, and a write that took nothing of bytes that are there are
    /// counted.
    fn write(&mut self, bytes: &[u8]) -> Result<usize, Failed>
        ensures within { IfOk result (λ count. count ≤ length bytes.now) }
        ensures goes_on { IfOk result (λ count. 0 < length bytes.now → 0 < count) }
        ensures appended { Writes None None result bytes.now }
        ensures faults { RisesExactlyIf (IsErr result) self.old.faults self.new.faults }
        ensures ended_kept { self.new.ended ≡ self.old.ended }
        ensures handed_on { WriteAppends self.old.contents self.new.contents result bytes.now }
    {
        write_counted(&mut self.writer, bytes, &mut self.faults)
    }

    /// Notes that nothing more is written. Standard output itself stays open.
    fn end(&mut self)
        ensures { self.new ≡ record self.old { ended = true } }
    {
        self.ended = true;
    }
}
