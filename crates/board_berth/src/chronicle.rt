//! A berth as a value with a record.

use crate::berth::Berth;
use hub_lane::Link;
use turn_pass::Chronicle;

impl<L: Link> Chronicle for Berth<L> {
    ghost use Rattle.board_berth.specs.Berths.{berth_record};

    ghost entries = { λ berth. berth_record L.telling berth };

    fn count(&self) -> u64 {
        self.entry_count()
    }
}
