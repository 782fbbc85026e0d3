//! A source that keeps what it gave.

use crate::bytes::is_rest;
use ipb_outside::MemSource;
use std::alloc::Global;
use std_edges::KeptSource;

/// A source of three bytes, of which so many are kept.
fn kept(alloc: Global, most: usize) -> Option<KeptSource<MemSource>> {
    let bytes = b"\x07\x08\x09".to_vec(alloc).ok()?;
    let source = MemSource::new(bytes, 2, Vec::new(alloc));
    Some(KeptSource::new(alloc, source, most))
}

/// Whether that source gives its bytes, and then tells them or does not.
fn gives(alloc: Global, most: usize, told: Option<&[u8]>) -> bool {
    match kept(alloc, most) {
        Some(mut source) => is_rest(alloc, &mut source, b"\x07\x08\x09") && source.given() == told,
        None => false,
    }
}

/// How many bytes are kept, and what is told then.
const KEPT: [(usize, Option<&[u8]>); 2] = [(2, None), (3, Some(b"\x07\x08\x09"))];

#[test]
fn a_source_keeps_what_it_gave(rt: HostRuntime) {
    for &(most, told) in &KEPT {
        assert!(rt; gives(rt.alloc(), most, told));
    }
}
