//! Standard input and output, over runtimes that stand in for them.

ghost use Rattle.std.specs.Prelude.{◌≤◌, length};

use crate::bytes::{differing_bytes, is_rest};
use ipb_outside::{Failed, Sink, Source, write_whole};
use std::alloc::{Allocator, Global};
use std::fmt::Display;
use std::io::{self, BufRead, ErrorKind, Input, Lines, Print};
use std::sync::atomic::{AtomicUsize, Ordering};
use std_edges::{StdinSource, StdoutSink};

/// A runtime whose standard input is these bytes.
#[derive(Clone, Copy)]
struct Bytes(&'static [u8]);

impl Input for Bytes {
    type Reader = &'static [u8];

    fn read_line<A: Allocator + Clone>(&self, _buf: &mut String<A>) -> io::Result<usize> {
        Err(io::Error::from(ErrorKind::Unsupported))
    }

    fn lines<A: Allocator>(&self, alloc: A) -> Lines<&'static [u8], A> {
        self.0.lines(alloc)
    }

    fn reader(&self) -> &'static [u8] {
        self.0
    }
}

/// Whether the bytes of standard input are read: two, and then the rest.
fn is_read_to_its_end(alloc: Global) -> bool {
    let mut source = StdinSource::new(&Bytes(b"hello"));
    let mut front = [0u8; 2];
    source.read(&mut front) == Ok(2) && front == *b"he" && is_rest(alloc, &mut source, b"llo")
}

#[test]
fn standard_input_is_read_to_its_end(rt: HostRuntime) {
    assert!(rt; is_read_to_its_end(rt.alloc()));
}

/// How a write to standard output goes.
#[derive(Clone, Copy)]
enum Way<'a> {
    Fails,
    TakesNone,
    TakesOne,
    /// It takes seven bytes at once, and counts those that are the next of the bytes awaited.
    Awaits {
        bytes: &'a [u8],
        right: &'a AtomicUsize,
    },
}

/// How many of these bytes are taken: seven at once. Those that are the next of the bytes awaited are counted.
fn count_next(awaited: &[u8], right: &AtomicUsize, bytes: &[u8]) -> usize
    ensures { result ≤ length bytes.now }
{
    let count = bytes.len().min(7);
    for byte in &bytes[..count] {
        let next = right.load(Ordering::SeqCst);
        if awaited.get(next) == Some(byte) {
            right.fetch_add(1, Ordering::SeqCst);
        }
    }
    count
}

impl<'a> Print for Way<'a> {
    fn print<D: Display + Drop>(&self, _value: D) -> io::Result<()> {
        Err(io::Error::from(ErrorKind::Unsupported))
    }

    fn println<D: Display + Drop>(&self, _value: D) -> io::Result<()> {
        Err(io::Error::from(ErrorKind::Unsupported))
    }

    fn write_all(&self, _bytes: &[u8]) -> io::Result<()> {
        Err(io::Error::from(ErrorKind::Unsupported))
    }

    fn write_some(&self, bytes: &[u8]) -> io::Result<usize> {
        match self {
            Way::Fails => Err(io::Error::from(ErrorKind::BrokenPipe)),
            Way::TakesNone => Ok(0),
            Way::TakesOne => Ok(bytes.len().min(1)),
            Way::Awaits {
                bytes: awaited,
                right,
            } => Ok(count_next(awaited, right, bytes)),
        }
    }
}

/// Ways, bytes, and what one write of them answers.
const WRITES: [(Way<'static>, &[u8], Result<usize, Failed>); 5] = [
    (Way::Fails, b"ab", Err(Failed)),
    (Way::Fails, b"", Err(Failed)),
    (Way::TakesNone, b"ab", Err(Failed)),
    (Way::TakesNone, b"", Ok(0)),
    (Way::TakesOne, b"ab", Ok(1)),
];

/// Whether a sink of this way answers so, to one write and to the next one.
fn answers(way: Way<'_>, bytes: &[u8], wanted: Result<usize, Failed>) -> bool {
    let mut sink = StdoutSink::new(way);
    let is_right = sink.write(bytes) == wanted && sink.write(bytes) == wanted;
    sink.end();
    is_right
}

#[test]
fn writes_of_each_way(rt: HostRuntime) {
    for &(way, bytes, wanted) in &WRITES {
        assert!(rt; answers(way, bytes, wanted));
    }
}

/// How many of these bytes are written as they are.
fn count_right(bytes: &[u8]) -> usize {
    let right = AtomicUsize::new(0);
    let mut sink = StdoutSink::new(Way::Awaits {
        bytes,
        right: &right,
    });
    if write_whole(&mut sink, bytes).is_err() {
        return 0;
    }
    right.load(Ordering::SeqCst)
}

#[test]
fn each_byte_is_written_to_standard_output(rt: HostRuntime) {
    assert!(rt; count_right(&differing_bytes::<1000>()) == 1000);
}
