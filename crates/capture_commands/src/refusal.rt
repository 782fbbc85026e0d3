//! Why a command on captures refuses a text.

use capture_reader::CaptureWhy;

/// The most bytes of the text of a capture, and of a description, that a command reads (profile).
pub const MAX_CAPTURE: usize = 134_217_728;

/// Why a text is refused: the first rule that it breaks (profile).
#[derive(Clone, Copy)]
pub enum TextRefusal {
    /// The text of a capture has more than `MAX_CAPTURE` bytes.
    LongCapture,
    /// The first faulty line of the text of a capture, counted from 1, and the first rule that it breaks.
    Capture { line: u64, why: CaptureWhy },
    /// A description has more than `MAX_CAPTURE` bytes.
    LongDescription,
    /// No capture has this description.
    NotDescription,
}

/// Why a text gives no capture.
#[derive(Clone, Copy)]
pub enum Unread {
    Refused(TextRefusal),
    /// There was not enough memory.
    NoMemory,
}
