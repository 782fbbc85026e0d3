ghost use Rattle.std.specs.Prelude.{◌≡◌};

use board_bus::Range;
use std::marker::Model;

/// The ranges of a board's bus, in the order of the document. Contracts see that list.
#[derive(Drop)]
pub struct Ranges {
    items: Vec<Range>,
}

impl Model for Ranges {
    ghost use Rattle.std.specs.Prelude.{List};
    ghost use Rattle.board_bus.specs.declared.range.Range.{Range};

    ghost Value = { List Range };

    ghost view = { λ ranges. ranges.items.items };
}

impl Ranges {
    /// The ranges of a vector, in its order. It takes no memory.
    pub fn from_vec(items: Vec<Range>) -> Ranges
        ensures { result ≡ items.items }
    {
        Ranges { items }
    }

    /// The vector of these ranges. It takes no memory.
    pub fn into_vec(self) -> Vec<Range>
        ensures { result.items ≡ self }
    {
        let Ranges { items } = self;
        items
    }

    /// The ranges, in order.
    pub fn as_slice(&self) -> &[Range]
        ensures { result.now ≡ self.now }
    {
        self.items.as_slice()
    }
}
