//! The codes of reply frames, read as they are written.

/// The code of a reply frame where the hub takes no more packets for the board (profile).
pub const OVERFULL: u16 = 8;

/// The bytes of a frame up to its code: its length, the position of the board, and the code.
const HEAD: usize = 10;

/// Boards have positions below this one.
const MOST_BOARDS: u32 = 32;

/// Reads along a stream of reply frames, whose pieces may begin and end anywhere.
#[derive(Drop)]
pub struct ReplyCodes {
    head: [u8; HEAD],
    // how many bytes of the head are there
    filled: usize,
    // how many bytes stand between the head and the next frame
    skipped: usize,
}

impl ReplyCodes {
    /// At the beginning of a stream.
    pub fn new() -> ReplyCodes {
        ReplyCodes {
            head: [0; HEAD],
            filled: 0,
            skipped: 0,
        }
    }

    /// Reads the next piece. The answer has bit `n` where the code of board `n` was `OVERFULL` in it.
    pub fn read(&mut self, piece: &[u8]) -> u32 {
        let mut boards = 0;
        let mut rest = piece;
        for _ in 0..piece.len() {
            if rest.is_empty() {
                break;
            }
            let skipped = self.skipped.min(rest.len());
            self.skipped -= skipped;
            rest = &rest[skipped..];
            if let [first, behind @ ..] = rest {
                boards |= self.take(*first);
                rest = behind;
            }
        }
        boards
    }

    // Takes a byte of a head.
    fn take(&mut self, byte: u8) -> u32 {
        if self.filled < HEAD {
            self.head[self.filled] = byte;
            self.filled += 1;
        }
        if self.filled == HEAD {
            self.end_head()
        } else {
            0
        }
    }

    // The head is there: goes on behind its frame.
    fn end_head(&mut self) -> u32 {
        let [l0, l1, l2, l3, b0, b1, b2, b3, c0, c1] = self.head;
        let length = u32::from_be_bytes([l0, l1, l2, l3]) as usize;
        self.filled = 0;
        // the length counts what stands behind it: the board and the code, 6 bytes of the head, and the rest
        self.skipped = length.saturating_sub(HEAD - 4);
        let board = u32::from_be_bytes([b0, b1, b2, b3]);
        if u16::from_be_bytes([c0, c1]) == OVERFULL && board < MOST_BOARDS {
            1 << board
        } else {
            0
        }
    }
}
