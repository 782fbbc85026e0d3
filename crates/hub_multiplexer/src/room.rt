//! Room for the values of many turns, taken before they are needed.

ghost use Rattle.std.specs.Prelude.{◌≡◌, [], ◌∷◌, IfOk, ℕ};
ghost use Rattle.hub_multiplexer.specs.Ends.{IsRoomPass};
ghost use Rattle.std.specs.Vec.{vec_capacity};

use ipb_base::NoMemory;
use std::alloc::Global;
use std::marker::Model;
use turn_pass::{Chronicle, NotMade, Pass, Turn};

/// An empty vector. It lies in a turn of its own while threads share the other turns, since threads may share a turn of
/// what they may not share itself. Its record tells its capacity, so whoever takes it knows it.
#[derive(Drop)]
pub(crate) struct Room<T> {
    items: Vec<T>,
}

impl<T> Model for Room<T> {
    ghost use Rattle.std.specs.Prelude.{◌≡◌, ℕ, []};
    ghost use Rattle.std.specs.Vec.{vec_capacity};

    ghost Value = { ℕ };

    ghost view = { λ room. vec_capacity room.items };

    ghost invariant = { λ room. room.items.items ≡ [] };
}

impl<T> Chronicle for Room<T> {
    ghost use Rattle.std.specs.Prelude.{[], ◌∷◌};

    ghost entries = { λ capacity. record { head = capacity ∷ []; entries = [] } };

    fn count(&self) -> u64 {
        0
    }
}

impl<T> Room<T> {
    /// The room of an empty vector.
    pub(crate) fn of(items: Vec<T>) -> Room<T>
        requires { items.items ≡ [] }
        ensures { result ≡ vec_capacity items }
    {
        Room { items }
    }

    /// The vector with all that was pushed into it.
    pub(crate) fn into_vec(self) -> Vec<T>
        ensures empty { result.items ≡ [] }
        ensures capacity { vec_capacity result ≡ self }
    {
        let Room { items } = self;
        items
    }
}

/// A turn of the room for so many items, and its first pass.
pub(crate) fn room_for<T: Send + Drop>(
    alloc: Global,
    count: usize,
) -> Result<(Turn<Room<T>>, Pass), NoMemory>
    ensures turn { IfOk result (λ made. made.1.turn ≡ made.0) }
    ensures room { IfOk result (λ made. IsRoomPass count made.1) }
{
    let items = Vec::with_capacity(alloc, count)?;
    match Turn::new(alloc, Room::of(items)) {
        Ok(made) => Ok(made),
        Err(NotMade { value: _room }) => Err(NoMemory),
    }
}
