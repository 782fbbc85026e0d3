ghost use Rattle.std.specs.Prelude.{◌≡◌};
ghost use Rattle.board_bus.specs.Fault.{fault_code};

use std::error::Error;
use std::fmt;

/// Why an access to one address was refused. The numbers are IPbus 2.0 info codes.
#[derive(Clone, Copy, Debug, PartialEq, Eq)]
pub enum BusFault {
    /// A read of an address that is absent or write-only.
    ReadError = 4,
    /// A write of an address that is absent or read-only.
    WriteError = 5,
    /// A read of a slow address.
    ReadTimeout = 6,
    /// A write of a slow address.
    WriteTimeout = 7,
}

impl BusFault {
    /// The info code of a reply that ends with this fault, 4 to 7.
    pub fn code(self) -> u8
        ensures { result ≡ fault_code self }
    {
        self as u8
    }
}

impl fmt::Display for BusFault {
    fn fmt<W: fmt::Write>(&self, f: &mut fmt::Formatter<W>) -> fmt::Result {
        f.write_str(match self {
            BusFault::ReadError => "bus error on read",
            BusFault::WriteError => "bus error on write",
            BusFault::ReadTimeout => "bus timeout on read",
            BusFault::WriteTimeout => "bus timeout on write",
        })
    }
}

impl Error for BusFault {}
