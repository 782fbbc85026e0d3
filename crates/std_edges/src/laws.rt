//! Laws of the numbers. These functions do nothing when they run: their clauses are what is proved.

ghost use Rattle.std.specs.Prelude.{◌≡◌};
ghost use Rattle.links.specs.declared.waiter.TheConstants.{MOST_FROM_ELSEWHERE};
ghost use Rattle.std_edges.specs.Numbers.{most_from_elsewhere, silent_after};
ghost use Rattle.std_edges.specs.declared.silence.TheConstants.{SILENT_AFTER};

/// How many datagrams from elsewhere one receive passes over, and when a board counts as silent.
pub fn the_numbers_of_links()
    ensures elsewhere { MOST_FROM_ELSEWHERE ≡ most_from_elsewhere }
    ensures silence { SILENT_AFTER ≡ silent_after }
{}
