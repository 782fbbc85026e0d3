//! What serving a connection came to.

/// Why a connection was served no further.
#[derive(Clone, Copy, PartialEq, Eq)]
pub enum SessionEnd {
    /// The input ended behind a whole frame, or before the first.
    Closed,
    /// The source failed while it was read.
    ReadFault,
    /// The sink failed while an answer was written.
    WriteFault,
    /// The length field of a frame is below 8 or above 8976.
    BadFrame,
    /// The input ended within a frame.
    CutFrame,
    /// Memory ran out while the connection was served.
    NoMemory,
}

/// A connection that was served.
#[derive(Clone, Copy, PartialEq, Eq)]
pub struct Served {
    /// How many reply frames were written whole. It stands still at its end.
    pub frames: u64,
    /// Why there are no more.
    pub end: SessionEnd,
}
