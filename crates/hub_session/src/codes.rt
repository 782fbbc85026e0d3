//! The codes of reply frames, which say what became of a request (profile).

/// The board replied: the words of its reply stand behind the code.
pub const REPLIED: u16 = 0;

/// The hub gave up after some rounds without an answer: whether the board executed the body is not known.
pub const TIMED_OUT: u16 = 1;

/// The board did not answer the greeting, or the hub gave up before the body was sent. The board never executed it.
pub const UNSENT: u16 = 2;

/// The link of the board failed at the greeting, or before the reply came.
pub const LINK_LOST: u16 = 3;

/// The bytes are no packet, or no control packet.
pub const BAD_PACKET: u16 = 4;

/// No board has that position.
pub const NO_BOARD: u16 = 5;

/// The body with its header is longer than a packet of the board.
pub const BODY_TOO_LONG: u16 = 6;

/// The longest reply with its header is longer than a packet of the board.
pub const REPLY_TOO_LONG: u16 = 7;

/// The lane of the board has as many bodies, or as many words of bodies and replies, as it may have.
pub const OVERFULL: u16 = 8;
