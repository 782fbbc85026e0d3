//! What a lane's record lists. A lane is the hub's side of one board: its engine, its link, and the record of what
//! clients did.

ghost use Rattle.std.specs.Prelude.{◌≡◌};
ghost use Rattle.lane_record.specs.Coding.{entry_of, kind_of};

use crate::outcome::Outcome;
use ipb_base::Words;
use turn_pass::Entry;

/// The kind of an entry by which a body was planned.
pub const PLAN: u8 = 1;

/// The kind of the entry by which planning was closed.
pub const SEAL: u8 = 2;

/// The kind of an entry by which a planned body was asked.
pub const ASK: u8 = 3;

/// The kind of an entry by which an outcome was taken.
pub const TOOK: u8 = 4;

/// What a call did to a lane (profile).
#[derive(Drop)]
pub enum What {
    /// The client planned this body: the words of a control packet after its header, at most 2242.
    Plan { body: Words },
    /// Planning was closed for all clients.
    Seal,
    /// The client asked the board to execute its next planned body, when the lane had given up so many times.
    Ask { give_ups: u64 },
    /// The client took what became of a body that it had asked, when the lane had given up so many times.
    Took { outcome: Outcome, give_ups: u64 },
}

/// One entry of a lane's record, with its content (profile).
#[derive(Drop)]
pub struct Item {
    /// Who made it, from 1. A Seal is made by nobody, which is 0.
    pub client: u32,
    /// The number of the client's body that it is of, from 0. A Seal has 0.
    pub seq: u64,
    /// What was done to the body, or to planning.
    pub what: What,
}

impl What {
    /// The number of this kind of entry.
    pub fn kind(&self) -> u8
        ensures { result ≡ kind_of self.now }
    {
        match self {
            What::Plan { body: _ } => PLAN,
            What::Seal => SEAL,
            What::Ask { give_ups: _ } => ASK,
            What::Took {
                outcome: _,
                give_ups: _,
            } => TOOK,
        }
    }
}

impl Item {
    /// The entry without its content.
    pub fn entry(&self) -> Entry
        ensures { result ≡ entry_of self.now }
    {
        Entry {
            maker: self.client,
            kind: self.what.kind(),
            seq: self.seq,
        }
    }
}
