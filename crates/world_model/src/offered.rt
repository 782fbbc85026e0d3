use ipb_base::Words;

/// A body that was offered to a hub, under the tag of whoever offered it.
#[derive(Drop)]
pub struct Offered {
    /// The tag under which its fate is handed out.
    pub tag: u64,
    /// The words of the control packet after its header: at most 2242.
    pub body: Words,
}

/// A place whose body was sent and whose reply was not taken.
#[derive(Clone, Copy, PartialEq, Eq)]
pub struct OpenPlace {
    /// The place, from 1, in the order of first sends.
    pub place: u64,
    /// Whether its fate is still owed to whoever offered it. After a give-up it is not.
    pub waited: bool,
    /// Whether a re-send request for it is to be sent.
    pub resend: bool,
    /// Whether its control packet is to be sent again.
    pub control: bool,
}

/// What became of a body that was offered. It never changes.
#[derive(Drop)]
pub enum Fate {
    /// A reply came while somebody wanted it.
    Replied { place: u64, words: Words },
    /// The hub gave up after this many rounds without a reply. Whether the body was executed is not known; it was at
    /// most once.
    TimedOut { place: u64, rounds: u8 },
    /// The hub gave up before it was sent. It was never executed.
    Unsent,
}
