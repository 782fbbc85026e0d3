//! Datagrams one after another in one store of bytes, so that none of them takes memory of its own.

ghost use Rattle.std.specs.Prelude.{◌≡◌, ◌+◌, ◌^◌, ◌<◌, ◌≤◌, ◌++◌, ◌∷◌, [], length, OnOk, OnErr};
ghost use Rattle.std.specs.List.{slice_get};
ghost use Rattle.std.specs.Vec.{vec_len, vec_capacity};
ghost use Rattle.lossy_network.specs.Airs.{answers_of, IsHeardAt};
ghost use Rattle.lossy_network.specs.Store.{lent_datagram, stored_bytes, AreWithin};

use board_node::Board;
use ipb_base::NoMemory;
use links::MAX_DATAGRAM;
use std::alloc::Global;
use std::marker::Model;
use world_model::Direction;

/// Where the bytes of a datagram stand in the store, who hears it, and the number of first sends when it was sent.
#[derive(Clone, Copy)]
struct Entry {
    direction: Direction,
    birth: u64,
    start: usize,
    end: usize,
}

/// A datagram, with its bytes where they stand.
#[derive(Clone, Copy)]
pub struct DatagramRef<'a> {
    /// Who hears the datagram, hub or board.
    pub direction: Direction,
    /// Its bytes, lent by the store.
    pub bytes: &'a [u8],
    /// How many first sends to the board there were when it was sent, itself counted.
    pub birth: u64,
}

/// Every datagram that was sent, in order. Contracts see the list of them.
#[derive(Drop)]
pub struct Datagrams {
    bytes: Vec<u8>,
    entries: Vec<Entry>,
    /// Where a board writes its answer, before that joins the others.
    answer: Vec<u8>,
}

impl Model for Datagrams {
    ghost use Rattle.std.specs.Prelude.{List};
    ghost use Rattle.world_model.specs.declared.datagram.Datagram.{Datagram};
    ghost use Rattle.lossy_network.specs.Store.{datagrams_of, IsStored};

    ghost Value = { List Datagram };

    ghost view = { datagrams_of };

    ghost invariant = { IsStored };
}

impl Datagrams {
    /// A list with no datagrams. It takes no memory.
    pub fn new(alloc: Global) -> Datagrams
        ensures { result ≡ [] }
    {
        Datagrams {
            bytes: Vec::new(alloc),
            entries: Vec::new(alloc),
            answer: Vec::new(alloc),
        }
    }

    /// How many there are.
    pub fn len(&self) -> usize
        ensures { result ≡ length self.now }
    {
        self.entries.len()
    }

    /// There are fewer than 2^63. It does nothing when it runs.
    pub fn are_few(&self)
        ensures { length self.now < 2 ^ 63 }
    {
        let _entries = &self.entries;
    }

    /// The datagram at a place, from 0.
    pub fn get(&self, place: usize) -> Option<DatagramRef<'_>>
        ensures { lent_datagram result ≡ slice_get self.now place }
    {
        datagram_at(&self.bytes, &self.entries, place)
    }

    /// Puts a datagram at the end. Where memory ran out nothing changed.
    pub fn push(
        &mut self,
        direction: Direction,
        datagram: &[u8],
        birth: u64,
    ) -> Result<(), NoMemory>
        ensures put { OnOk result (self.new
            ≡ self.old ++ record { direction = direction; bytes = datagram.now; birth = birth } ∷ []) }
        ensures unchanged { OnErr result (self.new ≡ self.old) }
    {
        make_room(&mut self.bytes, &mut self.entries, datagram.len())?;
        put(
            &mut self.bytes,
            &mut self.entries,
            direction,
            datagram,
            birth,
        );
        Ok(())
    }

    /// The board hears the datagram at a place, and its answer is put at the end. All memory is taken before.
    pub fn hear_at(&mut self, board: &mut Board, sent: u64, place: usize) -> Result<(), NoMemory>
        requires { place < length self.old }
        ensures heard { OnOk result (IsHeardAt sent place board.old self.old board.new self.new) }
        ensures board { OnErr result (board.new ≡ board.old) }
        ensures air { OnErr result (self.new ≡ self.old) }
    {
        make_room(&mut self.bytes, &mut self.entries, MAX_DATAGRAM)?;
        board.keeps_its_ranges();
        board.answers_fit();
        let Some(datagram) = datagram_at(&self.bytes, &self.entries, place) else {
            unreachable!();
        };
        board.hear(datagram.bytes, &mut self.answer)?;
        put_answer(&mut self.bytes, &mut self.entries, &self.answer, sent);
        Ok(())
    }
}

/// Takes room for one more datagram of so many bytes. The datagrams that are there stay as they are.
fn make_room(bytes: &mut Vec<u8>, entries: &mut Vec<Entry>, count: usize) -> Result<(), NoMemory>
    ensures bytes { bytes.new.items ≡ bytes.old.items }
    ensures entries { entries.new.items ≡ entries.old.items }
    ensures room { OnOk result (vec_len bytes.new + count ≤ vec_capacity bytes.new) }
    ensures place { OnOk result (vec_len entries.new < vec_capacity entries.new) }
{
    entries.reserve(1)?;
    bytes.reserve(count)?;
    Ok(())
}

/// The datagram at a place.
fn datagram_at<'a>(bytes: &'a [u8], entries: &[Entry], place: usize) -> Option<DatagramRef<'a>>
    requires { AreWithin (length bytes.now) entries.now }
    ensures { lent_datagram result ≡ slice_get (stored_bytes bytes.now entries.now) place }
{
    if place >= entries.len() {
        return None;
    }
    let entry = &entries[place];
    Some(DatagramRef {
        direction: entry.direction,
        bytes: &bytes[entry.start..entry.end],
        birth: entry.birth,
    })
}

/// Puts an answer at the end, where there is one, in room that was taken before.
fn put_answer(bytes: &mut Vec<u8>, entries: &mut Vec<Entry>, answer: &[u8], birth: u64)
    requires bytes { vec_len bytes.old + length answer.now ≤ vec_capacity bytes.old }
    requires entries { vec_len entries.old < vec_capacity entries.old }
    requires within { AreWithin (length bytes.old.items) entries.old.items }
    ensures within { AreWithin (length bytes.new.items) entries.new.items }
    ensures put { stored_bytes bytes.new.items entries.new.items
        ≡ stored_bytes bytes.old.items entries.old.items ++ answers_of birth answer.now }
{
    if answer.is_empty() {
        return;
    }
    put(bytes, entries, Direction::ToHub, answer, birth);
}

/// Puts a datagram at the end, in room that was taken before.
fn put(
    bytes: &mut Vec<u8>,
    entries: &mut Vec<Entry>,
    direction: Direction,
    datagram: &[u8],
    birth: u64,
)
    requires bytes { vec_len bytes.old + length datagram.now ≤ vec_capacity bytes.old }
    requires entries { vec_len entries.old < vec_capacity entries.old }
    requires within { AreWithin (length bytes.old.items) entries.old.items }
    ensures within { AreWithin (length bytes.new.items) entries.new.items }
    ensures put { stored_bytes bytes.new.items entries.new.items ≡ stored_bytes bytes.old.items entries.old.items
        ++ record { direction = direction; bytes = datagram.now; birth = birth } ∷ [] }
{
    let start = bytes.len();
    bytes.extend_from_slice(datagram).unwrap();
    let end = bytes.len();
    entries.push_reserved(Entry {
        direction,
        birth,
        start,
        end,
    });
}
