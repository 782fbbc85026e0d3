//! Bytes to compare, and what comes from a source.

use ipb_outside::{Source, read_all};
use std::alloc::Global;

/// Bytes of which those beside one another differ, and those a power of two apart.
pub(crate) fn differing_bytes<const N: usize>() -> [u8; N] {
    let mut bytes = [0; N];
    let mut next = 1u8;
    for byte in &mut bytes {
        *byte = next;
        next = if next < 251 { next + 1 } else { 1 };
    }
    bytes
}

/// Whether the rest of a source, up to its end, is these bytes.
pub(crate) fn is_rest<S: Source>(alloc: Global, source: &mut S, wanted: &[u8]) -> bool {
    match read_all(alloc, source, wanted.len()) {
        Ok(bytes) => bytes.as_slice() == wanted,
        Err(_) => false,
    }
}
