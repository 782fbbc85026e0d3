//! Copies of what passed over a stream.

/// Adds bytes to a copy, if that leaves it at so many at the most and there is memory for them.
pub(crate) fn appended(copy: &mut Option<Vec<u8>>, bytes: &[u8], most: usize) -> bool {
    match copy {
        Some(copy) => {
            copy.len().saturating_add(bytes.len()) <= most && copy.extend_from_slice(bytes).is_ok()
        }
        None => false,
    }
}
