//! What clients planned, asked and took, in the order in which they did, with tables of it.

ghost use Rattle.std.specs.Prelude.{◌≡◌, ◌≤◌, ◌<◌, ◌+◌, ◌∷◌, ◌++◌, [], OnOk, OnErr, IfOk, IfSome, IfNone, map, false};
ghost use Rattle.std.specs.Prelude.{◌↔◌};
ghost use Rattle.std.specs.Prelude.{length, IsTrue, Some, ◌^◌, is_some, true};
ghost use Rattle.transaction_codec.specs.Answer.{reply_room};
ghost use Rattle.lane_record.specs.Items.{asked_count, told_by_first, is_sealed, plan_in, planned_count, took_in};
ghost use Rattle.lane_record.specs.NextEntry.{ask_of, plan_of, the_seal, took_of};
ghost use Rattle.lane_record.specs.Coding.{entry_of};
ghost use Rattle.lane_tables.specs.Planned.{IsFull, LeavesRoom};

use crate::item_log::{ItemLog, Note};
use crate::rows::{ClientRow, add_ask, add_plan, add_took, row_of};
use ipb_base::{NoMemory, Words};
use lane_record::{Item, Outcome, What};
use std::alloc::Global;
use std::marker::Model;
use turn_pass::Entry;

/// The most bodies that are planned on a lane (profile).
pub const MAX_BODIES: u64 = 200_000;

/// The most words of all bodies and longest replies that are planned on a lane (profile).
pub const MAX_WORDS: u64 = 33_554_432;

/// The record of a lane. Contracts see its entries with what they hold, and how many more there is room for. Where the
/// program runs it has the words of the bodies that were planned, each once, and no copy of what became of them.
#[derive(Drop)]
pub struct Book {
    alloc: Global,
    log: ItemLog,
    rows: Vec<ClientRow>,
    asks: usize,
    bodies: u64,
    words: u64,
    sealed: bool,
}

impl Model for Book {
    ghost use Rattle.lane_tables.specs.Books.{BookState, IsBook};

    ghost Value = { BookState };

    ghost view = { λ b. b.log };

    ghost invariant = { λ b. IsBook b.log b.rows.items b.asks b.bodies b.words b.sealed };
}

impl Book {
    ghost use Rattle.lane_tables.specs.Books.{HasMorePlans};
    ghost use Rattle.lane_tables.specs.Taken.{HasDoneAll, HasTakenAll, IsAllTaken, IsAskAt, IsOldest};

    /// A record without entries, with room for the Seal.
    pub fn new(alloc: Global) -> Result<Book, NoMemory>
        ensures { IfOk result (λ book. book.items ≡ []) }
    {
        let mut log = ItemLog::new(alloc);
        log.reserve(1)?;
        Ok(Book {
            alloc,
            log,
            rows: Vec::new(alloc),
            asks: 0,
            bodies: 0,
            words: 0,
            sealed: false,
        })
    }

    /// The entries of the record, in order.
    pub fn entries(&self) -> &[Entry]
        ensures { result.now ≡ map entry_of self.now.items }
    {
        self.log.entries()
    }

    /// Whether planning was closed.
    pub fn is_sealed(&self) -> bool
        ensures { result ≡ is_sealed self.now.items }
    {
        self.sealed
    }

    /// Whether a body and a longest reply of so many words would be too many.
    pub fn is_full(&self, body: usize, reply: u32) -> bool
        requires { body < 2 ^ 32 }
        ensures { IsTrue result ↔ IsFull self.now.items body reply }
    {
        self.bodies >= MAX_BODIES || self.words + body as u64 + u64::from(reply) > MAX_WORDS
    }

    /// Whether so many bodies more may be planned, and so many words more of bodies and longest replies.
    pub fn leaves_room(&self, bodies: u64, words: u64) -> bool
        ensures { IsTrue result ↔ LeavesRoom self.now.items bodies words }
    {
        bodies <= MAX_BODIES - self.bodies && words <= MAX_WORDS - self.words
    }

    /// How many bodies a client planned.
    pub fn planned(&self, client: u32) -> u64
        ensures { result ≡ planned_count client self.now.items }
    {
        match row_of(&self.rows, client) {
            Some(row) => row.planned() as u64,
            None => 0,
        }
    }

    /// How many bodies a client asked.
    pub fn asked(&self, client: u32) -> u64
        ensures { result ≡ asked_count client self.now.items }
    {
        match row_of(&self.rows, client) {
            Some(row) => row.asked() as u64,
            None => 0,
        }
    }

    /// The client's next body that was planned and not asked.
    pub fn next(&self, client: u32) -> Option<&Words>
        ensures some { IfSome result (λ body. told_by_first plan_in client (asked_count client self.now.items) self.now.items
            ≡ Some body.now) }
        ensures none { IfNone result (asked_count client self.now.items ≡ planned_count client self.now.items) }
    {
        row_of(&self.rows, client)?.next()
    }

    /// The client's oldest body that was asked and not taken.
    pub fn oldest(&self, client: u32) -> Option<u64>
        ensures some { IfSome result (λ seq. IsOldest self.now.items client seq) }
        ensures none { IfNone result (HasTakenAll self.now.items client) }
    {
        row_of(&self.rows, client)?.oldest()
    }

    /// Whether each body that was planned was asked, and what became of it taken.
    pub fn is_all_taken(&self) -> bool
        ensures { IsTrue result ↔ IsAllTaken self.now.items }
    {
        for at in 0..self.rows.len() {
            if !self.has_done_all(self.rows[at].client()) {
                return false;
            }
        }
        true
    }

    /// Whether each body that a client planned was asked, and what became of it taken.
    fn has_done_all(&self, client: u32) -> bool
        ensures { IsTrue result ↔ HasDoneAll self.now.items client }
    {
        match self.oldest(client) {
            None => self.asked(client) == self.planned(client),
            Some(_) => false,
        }
    }

    /// The number of the Ask of a client's body, where it was asked.
    pub fn ask_of(&self, client: u32, seq: u64) -> Option<usize>
        ensures some { IfSome result (IsAskAt self.now.items client seq) }
        ensures none { IfNone result (asked_count client self.now.items ≤ seq) }
    {
        row_of(&self.rows, client)?.ask_of(seq)
    }

    /// Takes room for one entry and the Seal.
    pub fn reserve(&mut self) -> Result<(), NoMemory>
        ensures room { OnOk result (2 ≤ self.new.room) }
        ensures items { self.new.items ≡ self.old.items }
    {
        self.log.reserve(2)
    }

    /// Adds a Plan of the client's next body, which is not too much. Answers its number.
    pub fn plan(&mut self, client: u32, body: Words, reply: u32) -> Result<u64, NoMemory>
        requires room { 2 ≤ self.old.room }
        requires reply { reply ≡ reply_room body }
        requires few { ¬ IsFull self.old.items (length body) (reply_room body) }
        ensures number { IfOk result (λ seq. seq ≡ planned_count client self.old.items) }
        ensures entry { OnOk result (self.new.items
            ≡ self.old.items ++ plan_of client (planned_count client self.old.items) body ∷ []) }
        ensures unchanged { OnErr result (self.new.items ≡ self.old.items) }
    {
        let seq = self.planned(client);
        let words = body.len() as u64 + u64::from(reply);
        let plan = Item {
            client,
            seq,
            what: What::Plan { body },
        };
        let note = Note::of(&plan);
        add_plan(self.alloc, &mut self.rows, client, body_of(plan.what))?;
        self.bodies += 1;
        self.words += words;
        self.log.add(note);
        Ok(seq)
    }

    /// Adds the Seal: planning is closed from then on.
    pub fn seal(&mut self)
        requires { is_sealed self.old.items ≡ false }
        ensures { self.new.items ≡ self.old.items ++ the_seal ∷ [] }
    {
        self.sealed = true;
        self.log.add(Note::of(&Item {
            client: 0,
            seq: 0,
            what: What::Seal,
        }));
    }

    /// Adds an Ask of the client's next body, which has this number.
    pub fn ask(&mut self, client: u32, seq: u64, give_ups: u64)
        requires room { 2 ≤ self.old.room }
        requires next { HasMorePlans client self.old.items }
        requires number { seq ≡ asked_count client self.old.items }
        ensures { self.new.items ≡ self.old.items ++ ask_of client seq give_ups ∷ [] }
    {
        add_ask(&mut self.rows, client, self.asks);
        self.log.add(Note::of(&Item {
            client,
            seq,
            what: What::Ask { give_ups },
        }));
        self.asks += 1;
    }

    /// Adds a Took of a body that was asked. Gives back what became of it, of which no copy is kept.
    pub fn take(&mut self, client: u32, seq: u64, outcome: Outcome, give_ups: u64) -> Outcome
        requires room { 2 ≤ self.old.room }
        requires asked { seq < asked_count client self.old.items }
        ensures items { self.new.items ≡ self.old.items ++ took_of client seq outcome give_ups ∷ [] }
        ensures outcome { result ≡ outcome }
    {
        add_took(&mut self.rows, client, seq);
        let took = Item {
            client,
            seq,
            what: What::Took { outcome, give_ups },
        };
        self.log.add(Note::of(&took));
        outcome_of(took.what)
    }
}

/// The words of the body of a Plan.
fn body_of(what: What) -> Words
    requires { is_some (plan_in what) ≡ true }
    ensures { plan_in what ≡ Some result }
{
    match what {
        What::Plan { body } => body,
        What::Seal => unreachable!(),
        What::Ask { give_ups: _ } => unreachable!(),
        What::Took {
            outcome: _outcome,
            give_ups: _,
        } => unreachable!(),
    }
}

/// What became of the body of a Took.
fn outcome_of(what: What) -> Outcome
    requires { is_some (took_in what) ≡ true }
    ensures { took_in what ≡ Some result }
{
    match what {
        What::Plan { body: _body } => unreachable!(),
        What::Seal => unreachable!(),
        What::Ask { give_ups: _ } => unreachable!(),
        What::Took {
            outcome,
            give_ups: _,
        } => outcome,
    }
}
