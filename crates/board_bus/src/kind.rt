ghost use Rattle.std.specs.Prelude.{◌≡◌};
ghost use Rattle.board_bus.specs.Cells.{read_fault, write_fault};

use crate::BusFault;

/// What may be done at the addresses of a range. Profile.
#[derive(Clone, Copy, PartialEq, Eq)]
pub enum RangeKind {
    /// May be read and written.
    Rw,
    /// Read only: a write is refused with code 5.
    Ro,
    /// Written only: a read is refused with code 4.
    Wo,
    /// Does not answer in time: a read is refused with code 6, a write with code 7.
    Slow,
}

impl RangeKind {
    /// Why a read is refused, if it is.
    pub(crate) fn read_fault(self) -> Option<BusFault>
        ensures { result ≡ read_fault self }
    {
        match self {
            RangeKind::Rw | RangeKind::Ro => None,
            RangeKind::Wo => Some(BusFault::ReadError),
            RangeKind::Slow => Some(BusFault::ReadTimeout),
        }
    }

    /// Why a write is refused, if it is.
    pub(crate) fn write_fault(self) -> Option<BusFault>
        ensures { result ≡ write_fault self }
    {
        match self {
            RangeKind::Rw | RangeKind::Wo => None,
            RangeKind::Ro => Some(BusFault::WriteError),
            RangeKind::Slow => Some(BusFault::WriteTimeout),
        }
    }
}
