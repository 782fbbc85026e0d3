//! The bodies of each client, client by client, each found by its number. A session has at most 64 clients, so rows are
//! looked through.

ghost use Rattle.std.specs.Prelude.{◌≡◌, ◌≤◌, ◌<◌, ℕ, length, true, false, Some, None, MatchOption, OnOk, OnErr};
ghost use Rattle.lane_tables.specs.Books.{HasAsked, HasNext, as_asked, as_taken, is_marked, with_changed_body};
ghost use Rattle.lane_tables.specs.Books.{row_at, row_of, with_ask, with_plan, with_took};

use ipb_base::{NoMemory, Words};
use std::alloc::Global;
use std::marker::Model;

/// A body of a client: its words, the number of its Ask once it was asked, and whether what became of it was taken.
#[derive(Drop)]
pub(crate) struct PlannedBody {
    pub(crate) words: Words,
    pub(crate) ask: Option<usize>,
    pub(crate) is_taken: bool,
}

impl PlannedBody {
    ghost use Rattle.lane_tables.specs.Books.{just_planned};

    /// A body that was not asked.
    fn new(words: Words) -> PlannedBody
        ensures { result ≡ just_planned words }
    {
        PlannedBody {
            words,
            ask: None,
            is_taken: false,
        }
    }
}

/// The bodies of one client, by number: how many were asked, and the number of the first one that was not taken.
#[derive(Drop)]
pub(crate) struct ClientRow {
    client: u32,
    bodies: Vec<PlannedBody>,
    asked: usize,
    taken: usize,
}

impl Model for ClientRow {
    ghost use Rattle.lane_tables.specs.Books.{IsFirstUntaken, Row};

    ghost Value = { Row };

    ghost view = { λ r. record {
      client = r.client;
      bodies = r.bodies.items;
      asked = r.asked;
    } };

    ghost invariant = { λ r. IsFirstUntaken r.bodies.items r.asked r.taken };
}

impl ClientRow {
    ghost use Rattle.std.specs.Prelude.{◌++◌, ◌∷◌, [], ◌+◌, IfOk, IfSome, IfNone};
    ghost use Rattle.lane_tables.specs.Books.{after_ask, after_took, ask_at, first_row, just_planned, next_in};
    ghost use Rattle.lane_tables.specs.declared.rows.PlannedBody.{PlannedBody};

    /// The row of a client with one Plan.
    fn new(alloc: Global, client: u32, body: Words) -> Result<ClientRow, NoMemory>
        ensures { IfOk result (λ row. row ≡ first_row client body) }
    {
        let mut bodies = Vec::new(alloc);
        bodies.push(PlannedBody::new(body))?;
        Ok(ClientRow {
            client,
            bodies,
            asked: 0,
            taken: 0,
        })
    }

    /// Adds a Plan, with the body that is planned.
    fn add_plan(&mut self, body: Words) -> Result<(), NoMemory>
        ensures ok { OnOk result (self.new ≡ record self.old { bodies = self.old.bodies ++ just_planned body ∷ [] }) }
        ensures err { OnErr result (self.new ≡ self.old) }
    {
        self.bodies.push(PlannedBody::new(body))?;
        Ok(())
    }

    /// Adds the Ask of this number.
    fn add_ask(&mut self, ask: usize)
        requires { self.old.asked < length self.old.bodies }
        ensures { self.new ≡ after_ask ask self.old }
    {
        set_asked(&mut self.bodies, self.asked, ask);
        self.asked += 1;
    }

    /// Adds a Took of a body that was asked.
    fn add_took(&mut self, seq: u64)
        requires { seq < self.old.asked }
        ensures { self.new ≡ after_took seq self.old }
    {
        set_taken(&mut self.bodies, seq as usize);
        self.taken = untaken_from(&self.bodies, self.taken, self.asked);
    }

    /// The number of the client whose row it is.
    pub(crate) fn client(&self) -> u32
        ensures { result ≡ self.now.client }
    {
        self.client
    }

    /// How many bodies were planned.
    pub(crate) fn planned(&self) -> usize
        ensures { result ≡ length self.now.bodies }
    {
        self.bodies.len()
    }

    /// How many were asked.
    pub(crate) fn asked(&self) -> usize
        ensures { result ≡ self.now.asked }
    {
        self.asked
    }

    /// The number of the Ask of a body, where it was asked.
    pub(crate) fn ask_of(&self, seq: u64) -> Option<usize>
        ensures { result ≡ ask_at self.now.bodies seq }
    {
        match self.bodies.get(seq as usize) {
            Some(body) => body.ask,
            None => None,
        }
    }

    /// The number of the first body that was asked and not taken.
    pub(crate) fn oldest(&self) -> Option<u64>
        ensures below { IfSome result (λ seq. seq < self.now.asked) }
        ensures untaken { IfSome result (λ seq. is_marked self.now.bodies seq ≡ false) }
        ensures before { IfSome result (λ seq. (n : ℕ) → n < seq → is_marked self.now.bodies n ≡ true) }
        ensures all { IfNone result ((n : ℕ) → n < self.now.asked → is_marked self.now.bodies n ≡ true) }
    {
        if self.taken < self.asked {
            Some(self.taken as u64)
        } else {
            None
        }
    }

    /// The next body that was not asked.
    pub(crate) fn next(&self) -> Option<&Words>
        ensures { MatchOption result (next_in self.now ≡ None) (λ body. next_in self.now ≡ Some body.now) }
    {
        let body = self.bodies.get(self.asked)?;
        Some(&body.words)
    }
}

/// A body was asked under this number.
fn set_asked(bodies: &mut Vec<PlannedBody>, at: usize, ask: usize)
    requires { at < length bodies.old.items }
    ensures { bodies.new.items ≡ with_changed_body at (as_asked ask) bodies.old.items }
{
    let body = &mut bodies[at];
    body.ask = Some(ask);
}

/// What became of a body was taken.
fn set_taken(bodies: &mut Vec<PlannedBody>, at: usize)
    requires { at < length bodies.old.items }
    ensures { bodies.new.items ≡ with_changed_body at as_taken bodies.old.items }
{
    let body = &mut bodies[at];
    body.is_taken = true;
}

/// The least number from `from` on of a body that was not taken, or `asked` where all below it were. Over all calls a
/// client's bodies are gone through once.
fn untaken_from(bodies: &[PlannedBody], from: usize, asked: usize) -> usize
    requires from { from ≤ asked }
    requires asked { asked ≤ length bodies.now }
    ensures from { from ≤ result }
    ensures within { result ≤ asked }
    ensures taken { (n : ℕ) → from ≤ n → n < result → is_marked bodies.now n ≡ true }
    ensures stops { result < asked → is_marked bodies.now result ≡ false }
{
    for at in from..asked {
        let body = &bodies[at];
        if !body.is_taken {
            return at;
        }
    }
    asked
}

/// Where the row of a client stands.
pub(crate) fn row_at(rows: &[ClientRow], client: u32) -> Option<usize>
    ensures { result ≡ row_at client rows.now }
{
    for at in 0..rows.len() {
        if rows[at].client() == client {
            return Some(at);
        }
    }
    None
}

/// The row of a client.
pub(crate) fn row_of(rows: &Vec<ClientRow>, client: u32) -> Option<&ClientRow>
    ensures { MatchOption result (row_of client rows.now.items ≡ None)
        (λ row. row_of client rows.now.items ≡ Some row.now) }
{
    let at = row_at(rows, client)?;
    Some(&rows[at])
}

/// Adds a Plan of a client's next body.
pub(crate) fn add_plan(
    alloc: Global,
    rows: &mut Vec<ClientRow>,
    client: u32,
    body: Words,
) -> Result<(), NoMemory>
    ensures ok { OnOk result (rows.new.items ≡ with_plan client body rows.old.items) }
    ensures err { OnErr result (rows.new.items ≡ rows.old.items) }
{
    match row_at(rows, client) {
        Some(at) => {
            let row = &mut rows[at];
            row.add_plan(body)
        }
        None => {
            let row = ClientRow::new(alloc, client, body)?;
            rows.push(row)?;
            Ok(())
        }
    }
}

/// Adds an Ask of a client, which has a Plan that was not asked; it has this number.
pub(crate) fn add_ask(rows: &mut Vec<ClientRow>, client: u32, ask: usize)
    requires { HasNext client rows.old.items }
    ensures { rows.new.items ≡ with_ask client ask rows.old.items }
{
    if let Some(at) = row_at(rows, client) {
        let row = &mut rows[at];
        row.add_ask(ask);
    }
}

/// Adds a Took of a client's body, which was asked.
pub(crate) fn add_took(rows: &mut Vec<ClientRow>, client: u32, seq: u64)
    requires { HasAsked client seq rows.old.items }
    ensures { rows.new.items ≡ with_took client seq rows.old.items }
{
    if let Some(at) = row_at(rows, client) {
        let row = &mut rows[at];
        row.add_took(seq);
    }
}
