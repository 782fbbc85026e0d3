//! Sources and sinks in memory, and reading and writing whole over them.

use ipb_outside::{CalmSink, CalmSource, Failed, ReadEnd, Sink, read_all, write_whole};
use std::alloc::Global;

/// Whether the rest of a source is these bytes.
fn is_rest(alloc: Global, source: &mut CalmSource, wanted: &[u8]) -> bool {
    match read_all(alloc, source, wanted.len()) {
        Ok(rest) => rest.as_slice() == wanted,
        Err(_) => false,
    }
}

/// Whether a source of eight bytes is longer than three, and four of them are left then: one more than the limit was
/// taken.
fn is_limit_exact(alloc: Global, mut source: CalmSource) -> bool {
    let is_over = matches!(read_all(alloc, &mut source, 3), Err(ReadEnd::TooLong));
    is_over && is_rest(alloc, &mut source, b"5678")
}

fn stops_at_three(alloc: Global) -> bool {
    match b"12345678".to_vec(alloc) {
        Ok(bytes) => is_limit_exact(alloc, CalmSource::new(bytes)),
        Err(_) => false,
    }
}

#[test]
fn the_limit_is_exact(rt: HostRuntime) {
    assert!(rt; stops_at_three(rt.alloc()));
}

/// Writes to a sink with room for three bytes, and what they come to.
const WRITES: [(&[u8], Result<(), Failed>); 2] = [(b"ab", Ok(())), (b"cd", Err(Failed))];

fn writes(sink: &mut CalmSink) -> bool {
    for &(bytes, wanted) in &WRITES {
        if write_whole(sink, bytes) != wanted {
            return false;
        }
    }
    sink.end();
    true
}

/// Whether a sink takes two bytes, and one of two more.
fn is_written_over(mut sink: CalmSink) -> bool {
    writes(&mut sink) && sink.bytes() == b"abc".as_slice()
}

fn writes_over_its_room(alloc: Global) -> bool {
    match b"...".to_vec(alloc) {
        Ok(room) => is_written_over(CalmSink::new(room)),
        Err(_) => false,
    }
}

#[test]
fn a_calm_sink_writes_over_its_room(rt: HostRuntime) {
    assert!(rt; writes_over_its_room(rt.alloc()));
}
