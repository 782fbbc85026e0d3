//! Room for links that are given back.

ghost use Rattle.std.specs.Prelude.{◌≡◌, ◌≤◌, ◌<◌, length, OnOk};
ghost use Rattle.std.specs.Vec.{vec_capacity};

use ipb_base::NoMemory;

/// Takes the room to keep one link more than were made.
pub(crate) fn make_room<L>(kept: &mut Vec<L>, made: usize) -> Result<(), NoMemory>
    requires within { length kept.old.items ≤ made }
    requires places { made ≤ vec_capacity kept.old }
    ensures same { kept.new.items ≡ kept.old.items }
    ensures room { OnOk result (made < vec_capacity kept.new) }
    ensures places { made ≤ vec_capacity kept.new }
{
    kept.reserve(made - kept.len() + 1)?;
    Ok(())
}
