//! Where a hub and its board are in the order of packets, as far as the datagrams of their link tell.

ghost use Rattle.std.specs.Prelude.{◌<◌};

use packet_ids::{Id, id_at};

/// After so many status replies in a row that tell an identifier which cannot be the board's, the board counts as out
/// of step (profile).
pub const OUT_OF_STEP_AFTER: u32 = 3;

/// How many identifiers there are.
const IDENTIFIERS: u32 = 65_535;

/// What a status reply tells of the order of packets.
#[derive(Clone, Copy, PartialEq, Eq)]
pub enum Told {
    /// It is the first one: the order begins at its identifier.
    First,
    /// The board may expect this identifier, or it is not known yet that it does not.
    InStep,
    /// The board expects an identifier that it cannot expect of this hub, which has `next` for it. Told once.
    OutOfStep { next: Id },
}

/// The identifiers that a board may expect: from `least`, behind the last packet that it is known to have executed, to
/// `next`, which the hub sends next for the first time.
#[derive(Clone, Copy)]
struct Span {
    least: Id,
    next: Id,
}

/// What the datagrams of a link tell of its board's place in the order of packets.
///
/// A network may bring an old status reply late. So of those that cannot be, one counts for each status request that was
/// sent, and a reply or a status reply that can be begins the count again.
#[derive(Drop)]
pub struct Steps {
    span: Option<Span>,
    is_asked: bool,
    strange: u32,
}

impl Steps {
    /// Of a board that told nothing yet.
    pub fn new() -> Steps {
        Steps {
            span: None,
            is_asked: false,
            strange: 0,
        }
    }

    /// Whether the board told its status.
    pub fn is_greeted(&self) -> bool {
        self.span.is_some()
    }

    /// A status request was sent.
    pub fn ask(&mut self) {
        self.is_asked = true;
    }

    /// A control packet was sent, for the first time or again.
    pub fn send(&mut self, id: Id) {
        if let Some(span) = self.span
            && span.next == id
        {
            self.span = Some(Span {
                least: span.least,
                next: following(id),
            });
        }
    }

    /// The reply to a control packet came.
    pub fn reply(&mut self, id: Id) {
        if let Some(span) = self.span
            && distance(span.least, id) < distance(span.least, span.next)
        {
            self.move_to(following(id), span.next);
        }
    }

    /// A status reply came, by which the board expects this identifier.
    pub fn status(&mut self, expected: Id) -> Told {
        let Some(span) = self.span else {
            self.move_to(expected, expected);
            return Told::First;
        };
        if distance(span.least, expected) <= distance(span.least, span.next) {
            self.move_to(expected, span.next);
            return Told::InStep;
        }
        self.count_strange(span.least)
    }

    // The board is known to expect this identifier, or a later one.
    fn move_to(&mut self, least: Id, next: Id) {
        self.span = Some(Span { least, next });
        self.strange = 0;
    }

    // Counts a status reply that cannot be, where one was asked for since the last one.
    fn count_strange(&mut self, next: Id) -> Told {
        if !self.is_asked {
            return Told::InStep;
        }
        self.is_asked = false;
        self.strange = self.strange.saturating_add(1);
        if self.strange == OUT_OF_STEP_AFTER {
            Told::OutOfStep { next }
        } else {
            Told::InStep
        }
    }
}

// The identifier behind this one.
fn following(id: Id) -> Id {
    id_at(id, 2)
}

// How many identifiers behind the first one the other comes.
fn distance(from: Id, to: Id) -> u32
    ensures { result < 65_535 }
{
    (u32::from(to.get()) + IDENTIFIERS - u32::from(from.get())) % IDENTIFIERS
}
