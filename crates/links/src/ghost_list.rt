//! Lists that contracts alone see.

ghost use Rattle.std.specs.Prelude.{◌≡◌, ◌++◌, ◌∷◌, []};

use std::marker::Model;
use std::mem;
use std::snapshot::Snapshot;

/// The items of a list.
#[derive(Drop)]
enum Items<T> {
    /// The list has no items.
    Nothing,
    /// The items before the last one, and the last one.
    More {
        before: Snapshot<Items<T>>,
        last: Snapshot<T>,
    },
}

/// A list that contracts alone see: where the program runs it has no byte, and adding to it takes no memory.
#[derive(Drop)]
pub struct GhostList<T> {
    items: Snapshot<Items<T>>,
}

impl<T> Model for GhostList<T> {
    ghost use Rattle.std.specs.Prelude.{List};
    ghost use Rattle.links.specs.GhostLists.{items_of};

    ghost Value = { List T };

    ghost view = { λ list. items_of list.items.value };
}

impl<T> GhostList<T> {
    /// A list with no items.
    pub fn new() -> GhostList<T>
        ensures { result ≡ [] }
    {
        let nothing: Items<T> = Items::Nothing;
        GhostList {
            items: Snapshot::of(&nothing),
        }
    }

    /// Adds an item behind the others.
    pub fn add(&mut self, item: &T)
        ensures { self.new ≡ self.old ++ item.now ∷ [] }
    {
        let nothing: Items<T> = Items::Nothing;
        let before = mem::replace(&mut self.items, Snapshot::of(&nothing));
        let more = Items::More {
            before,
            last: Snapshot::of(item),
        };
        self.items = Snapshot::of(&more);
    }
}
