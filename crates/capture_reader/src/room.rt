//! How much room a text takes, about, so that it is asked for at once. Nothing rests on these numbers: where too little
//! was asked for, or there is not so much, memory is taken as the text grows.

use crate::capture::Caught;

/// So much at the front tells about the rest: bytes of a text, or datagrams.
const FRONT: usize = 4096;

/// The description of a datagram has so many bytes about, and `BYTES` for each byte of the datagram.
const LINE: usize = 32;

const BYTES: usize = 3;

/// How many lines a text has.
pub(crate) fn lines_about(text: &[u8]) -> usize {
    let front = &text[..text.len().min(FRONT)];
    let mut lines: usize = 0;
    for byte in front {
        if *byte == b'\n' {
            lines = lines.saturating_add(1);
        }
    }
    scaled(lines, front.len(), text.len())
}

/// How many bytes the text of some datagrams has, and their description.
pub(crate) fn text_about(items: &[Caught]) -> usize {
    let front = &items[..items.len().min(FRONT)];
    let mut bytes: usize = 0;
    for item in front {
        let of_item = item.bytes.as_slice().len().saturating_mul(BYTES);
        bytes = bytes.saturating_add(of_item.saturating_add(LINE));
    }
    scaled(bytes, front.len(), items.len())
}

/// How many there are in all, where there are so many in the front.
fn scaled(in_front: usize, front: usize, all: usize) -> usize {
    if front == 0 {
        return 0;
    }
    (all / front).saturating_add(1).saturating_mul(in_front)
}
