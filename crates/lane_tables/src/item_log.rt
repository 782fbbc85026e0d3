//! The entries of a record, and what each of them holds.

ghost use Rattle.std.specs.Prelude.{◌≡◌, ◌≤◌, ◌<◌, ◌+◌, ◌^◌, ◌∷◌, ◌++◌, [], OnOk, length, map};
ghost use Rattle.lane_record.specs.Coding.{entry_of};

use ipb_base::NoMemory;
use lane_record::{Item, What};
use std::alloc::Global;
use std::marker::Model;
use std::snapshot::Snapshot;
use turn_pass::Entry;

/// An entry that is to be added. Contracts see what it holds, of which it has no copy.
#[derive(Drop)]
pub(crate) struct Note {
    entry: Entry,
    item: Snapshot<Item>,
}

impl Model for Note {
    ghost use Rattle.std.specs.Prelude.{◌≡◌};
    ghost use Rattle.lane_record.specs.Coding.{entry_of};
    ghost use Rattle.lane_record.specs.declared.item.Item.{Item};

    ghost Value = { Item };

    ghost view = { λ note. note.item.value };

    ghost invariant = { λ note. note.entry ≡ entry_of note.item.value };
}

impl Note {
    /// The entry of this item.
    pub(crate) fn of(item: &Item) -> Note
        ensures { result ≡ item.now }
    {
        Note {
            entry: entry_of(item),
            item: Snapshot::of(item),
        }
    }
}

/// The entries of a record, in order, with room for more. Contracts see what each of them holds; where the program runs
/// there is no copy of that.
#[derive(Drop)]
pub(crate) struct ItemLog {
    entries: Vec<Entry>,
    items: Vec<Snapshot<Item>>,
}

impl Model for ItemLog {
    ghost use Rattle.std.specs.Prelude.{◌≡◌, map};
    ghost use Rattle.lane_record.specs.Coding.{entry_of};
    ghost use Rattle.lane_tables.specs.Books.{BookState, room_of};

    ghost Value = { BookState };

    ghost view = { λ log. record {
      items = map (λ item. item.value) log.items.items;
      room = room_of log.items.cap log.items.len log.entries.cap log.entries.len;
    } };

    ghost invariant = { λ log. log.entries.items ≡ map entry_of (map (λ item. item.value) log.items.items) };
}

impl ItemLog {
    /// A record with no entries. It takes no memory.
    pub(crate) fn new(alloc: Global) -> ItemLog
        ensures { result.items ≡ [] }
    {
        ItemLog {
            entries: Vec::new(alloc),
            items: Vec::new(alloc),
        }
    }

    /// The entries of the record, in order.
    pub(crate) fn entries(&self) -> &[Entry]
        ensures { result.now ≡ map entry_of self.now.items }
    {
        self.entries.as_slice()
    }

    /// Takes room for so many more.
    pub(crate) fn reserve(&mut self, more: usize) -> Result<(), NoMemory>
        ensures room { OnOk result (more ≤ self.new.room) }
        ensures items { self.new.items ≡ self.old.items }
        ensures no_less { self.old.room ≤ self.new.room }
    {
        self.items.reserve(more)?;
        self.entries.reserve(more)?;
        Ok(())
    }

    /// Adds one behind the others, for which there is room.
    pub(crate) fn add(&mut self, note: Note)
        requires { 1 ≤ self.old.room }
        ensures items { self.new.items ≡ self.old.items ++ note ∷ [] }
        ensures room { self.old.room ≤ self.new.room + 1 }
        ensures few { length self.new.items < 2 ^ 62 }
    {
        let Note { entry, item } = note;
        self.entries.push_reserved(entry);
        self.items.push_reserved(item);
    }
}

/// The entry of an item.
fn entry_of(item: &Item) -> Entry
    ensures { result ≡ entry_of item.now }
{
    let kind = match &item.what {
        What::Plan { body: _ } => 1,
        What::Seal => 2,
        What::Ask { give_ups: _ } => 3,
        What::Took {
            outcome: _,
            give_ups: _,
        } => 4,
    };
    Entry {
        maker: item.client,
        kind,
        seq: item.seq,
    }
}
