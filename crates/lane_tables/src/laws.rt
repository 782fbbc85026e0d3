//! Laws of the tables of a lane. These functions do nothing when they run: their clauses are what is proved.

ghost use Rattle.std.specs.Prelude.{◌≡◌};
ghost use Rattle.lane_tables.specs.declared.book.TheConstants.{MAX_BODIES, MAX_WORDS};
ghost use Rattle.lane_tables.specs.Planned.{most_bodies, most_words};

use crate::book::{MAX_BODIES, MAX_WORDS};

/// The limits of what is planned on a lane.
pub fn the_limits_of_what_is_planned()
    ensures bodies { MAX_BODIES ≡ most_bodies }
    ensures words { MAX_WORDS ≡ most_words }
{}
