//! What the clients of a run asked for and took, as many threads count it.

use crate::meter::{Counts, Share};
use std::alloc::Global;
use std::sync::atomic::{AtomicU32, AtomicU64, Ordering};

/// So many dispatches of a client that no board answers tell how long the others take (profile).
pub const DEAF_AFTER: u32 = 3;

/// What a client took of a packet.
#[derive(Clone, Copy, PartialEq, Eq)]
pub enum Taken {
    /// A reply of the board.
    Reply,
    /// A timeout: the hub gave up.
    Timeout,
    /// No reply, since the packet was not sent or the link failed.
    Other,
}

/// How a client is with its dispatches.
#[derive(Drop)]
struct Turns {
    // how many it has in all, empty ones left out
    dispatches: AtomicU64,
    // when it was first done with asking, in milliseconds
    began: AtomicU64,
    done: AtomicU64,
    // how many operations the dispatches had that it is done with
    operations: AtomicU64,
    // how many operations and packets this dispatch has, and how many packets were taken
    operations_now: AtomicU64,
    packets_now: AtomicU64,
    taken: AtomicU64,
    // a bit for each lane that timed out in this dispatch
    timed_out: AtomicU64,
    // a bit for each lane that timed out in each dispatch so far
    deaf: AtomicU64,
}

impl Turns {
    fn new() -> Turns {
        Turns {
            dispatches: AtomicU64::new(0),
            began: AtomicU64::new(0),
            done: AtomicU64::new(0),
            operations: AtomicU64::new(0),
            operations_now: AtomicU64::new(0),
            packets_now: AtomicU64::new(0),
            taken: AtomicU64::new(0),
            timed_out: AtomicU64::new(0),
            deaf: AtomicU64::new(u64::MAX),
        }
    }

    // How many operations are done: of a dispatch that is under way as large a part as of its packets.
    fn operations_done(&self) -> u64 {
        let all = self.operations_now.load(Ordering::SeqCst);
        let part = match all.checked_mul(self.taken.load(Ordering::SeqCst)) {
            Some(product) => product
                .checked_div(self.packets_now.load(Ordering::SeqCst))
                .unwrap_or(0),
            None => 0,
        };
        self.operations
            .load(Ordering::SeqCst)
            .saturating_add(part.min(all))
    }

    // The dispatch that was under way is done.
    fn end_dispatch(&self) {
        let operations = self.operations_now.swap(0, Ordering::SeqCst);
        self.operations.fetch_add(operations, Ordering::SeqCst);
    }

    // A packet was taken, on the lane of this bit.
    fn take(&self, bit: u64, taken: Taken) {
        self.taken.fetch_add(1, Ordering::SeqCst);
        if taken == Taken::Timeout {
            self.timed_out.fetch_or(bit, Ordering::SeqCst);
        }
    }
}

/// The first dispatches of a client timed out on a board.
#[derive(Clone, Copy, PartialEq, Eq)]
pub struct Deaf {
    /// When they began, in milliseconds.
    pub began: u64,
    /// How many dispatches the client has left.
    pub left: u64,
}

/// The counts of a run. Threads share it by reference.
#[derive(Drop)]
pub struct Tally {
    operations: AtomicU64,
    packets: AtomicU64,
    packets_done: AtomicU64,
    // a bit for each lane that timed out at the last packet that was taken
    silent: AtomicU64,
    has_warned: AtomicU32,
    clients: Vec<Turns>,
}

impl Tally {
    /// Of a run that has not begun, of so many clients at most. `None` where memory ran out.
    pub fn new(alloc: Global, most_clients: usize) -> Option<Tally> {
        let mut clients = Vec::with_capacity(alloc, most_clients).ok()?;
        for _ in 0..most_clients {
            clients.push(Turns::new()).ok()?;
        }
        Some(Tally {
            operations: AtomicU64::new(0),
            packets: AtomicU64::new(0),
            packets_done: AtomicU64::new(0),
            silent: AtomicU64::new(0),
            has_warned: AtomicU32::new(0),
            clients,
        })
    }

    fn turns(&self, client: u32) -> Option<&Turns> {
        let client = usize::try_from(client).ok()?;
        self.clients.get(client.checked_sub(1)?)
    }

    /// A client, from 1, has so many dispatches with so many packets, for so many operations.
    pub fn planned(&self, client: u32, dispatches: u64, packets: u64, operations: u64) {
        self.operations.fetch_add(operations, Ordering::SeqCst);
        self.packets.fetch_add(packets, Ordering::SeqCst);
        if let Some(turns) = self.turns(client) {
            turns.dispatches.store(dispatches, Ordering::SeqCst);
        }
    }

    /// Whether a client asked nothing yet.
    pub fn is_fresh(&self, client: u32) -> bool {
        match self.turns(client) {
            Some(turns) => {
                turns.began.load(Ordering::SeqCst) == 0 && turns.done.load(Ordering::SeqCst) == 0
            }
            None => false,
        }
    }

    /// A client has asked for its first packets at this time, in milliseconds.
    pub fn began(&self, client: u32, time: u64) {
        if let Some(turns) = self.turns(client) {
            turns.began.store(time, Ordering::SeqCst);
        }
    }

    /// A client took what became of a packet on this lane.
    pub fn took(&self, client: u32, lane: usize, taken: Taken) {
        self.packets_done.fetch_add(1, Ordering::SeqCst);
        let bit = bit_of(lane);
        if let Some(turns) = self.turns(client) {
            turns.take(bit, taken);
        }
        match taken {
            Taken::Timeout => {
                self.silent.fetch_or(bit, Ordering::SeqCst);
            }
            Taken::Reply => {
                self.silent.fetch_and(!bit, Ordering::SeqCst);
            }
            Taken::Other => {}
        }
    }

    /// A client has asked so many packets of a dispatch, for so many operations.
    pub fn asked(&self, client: u32, packets: u64, operations: u32) {
        if let Some(turns) = self.turns(client) {
            turns.packets_now.store(packets, Ordering::SeqCst);
            turns
                .operations_now
                .store(u64::from(operations), Ordering::SeqCst);
        }
    }

    /// A client is done with a dispatch: says whether its first ones all timed out on a board, and others are left. One
    /// in which nothing was asked counts for nothing there.
    pub fn answered(&self, client: u32) -> Option<Deaf> {
        let turns = self.turns(client)?;
        turns.end_dispatch();
        if turns.taken.swap(0, Ordering::SeqCst) == 0 {
            return None;
        }
        let done = turns.done.load(Ordering::SeqCst).saturating_add(1);
        turns.done.store(done, Ordering::SeqCst);
        let timed_out = turns.timed_out.swap(0, Ordering::SeqCst);
        let deaf = turns.deaf.fetch_and(timed_out, Ordering::SeqCst) & timed_out;
        let left = turns.dispatches.load(Ordering::SeqCst).saturating_sub(done);
        if done != u64::from(DEAF_AFTER) || deaf == 0 || left == 0 {
            return None;
        }
        Some(Deaf {
            began: turns.began.load(Ordering::SeqCst),
            left,
        })
    }

    /// Whether this is the first warning of the run.
    pub fn warns_first(&self) -> bool {
        self.has_warned.swap(1, Ordering::SeqCst) == 0
    }

    // How many operations of all clients are done.
    fn operations_done(&self) -> u64 {
        let mut done = 0u64;
        for turns in self.clients.iter() {
            done = done.saturating_add(turns.operations_done());
        }
        done
    }

    /// How far the run is.
    pub fn counts(&self) -> Counts {
        Counts {
            operations: Share {
                done: self.operations_done(),
                all: self.operations.load(Ordering::SeqCst),
            },
            packets: Share {
                done: self.packets_done.load(Ordering::SeqCst),
                all: self.packets.load(Ordering::SeqCst),
            },
            silent: self.silent.load(Ordering::SeqCst).count_ones(),
        }
    }
}

// The bit of a lane, none where 64 are not enough.
fn bit_of(lane: usize) -> u64 {
    match u32::try_from(lane) {
        Ok(lane) => 1u64.checked_shl(lane).unwrap_or(0),
        Err(_) => 0,
    }
}
