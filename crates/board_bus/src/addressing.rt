ghost use Rattle.std.specs.Prelude.{◌≡◌, ◌≤◌};
ghost use Rattle.board_bus.specs.Answering;

use transaction_codec::transaction_type::{READ, READ_PORT, WRITE, WRITE_PORT};

/// How the addresses of a read or a write follow one another.
#[derive(Clone, Copy)]
pub(crate) enum Addressing {
    /// `base`, `base + 1`, .. IPbus 2.0, read and write.
    Block,
    /// `base` each time. IPbus 2.0, non-incrementing read and write.
    Port,
}

impl Addressing {
    /// How far each address is from the one before it.
    pub(crate) fn step(self) -> u64
        ensures value { result ≡ Answering.step_of self }
        ensures small { result ≤ 1 }
    {
        match self {
            Addressing::Block => 1,
            Addressing::Port => 0,
        }
    }

    /// The type of a read.
    pub(crate) fn read_type(self) -> u8
        ensures { result ≡ Answering.read_type self }
    {
        match self {
            Addressing::Block => READ,
            Addressing::Port => READ_PORT,
        }
    }

    /// The type of a write.
    pub(crate) fn write_type(self) -> u8
        ensures { result ≡ Answering.write_type self }
    {
        match self {
            Addressing::Block => WRITE,
            Addressing::Port => WRITE_PORT,
        }
    }
}
