//! A line on a terminal that says how far a run is, and is rewritten once a second.

use crate::console::Console;
use crate::meter::{LongWait, Meter, Row, rest_at};
use crate::tally::{DEAF_AFTER, Taken, Tally};
use std::alloc::Global;
use std::sync::atomic::{AtomicU32, Ordering};
use std::sync::{Arc, Wait};
use std::thread::Parker;
use std::time::Duration;

/// The line is rewritten after so many milliseconds (profile).
const TICK: u64 = 1000;

/// What takes so many milliseconds is no long wait (profile).
const SHORT: u64 = 2000;

/// What the clients of a run and the thread that tells of it share.
#[derive(Drop)]
struct Run {
    tally: Tally,
    is_over: AtomicU32,
    parker: Parker,
}

/// What is said of a run while it goes on: that a board keeps a client waiting, and to a `Watch` how far it is.
#[derive(Drop)]
pub struct Progress {
    console: Console,
    run: Arc<Run, Global>,
}

/// Who says how far a run is, in a thread.
#[derive(Drop)]
pub struct Watch {
    console: Console,
    run: Arc<Run, Global>,
}

impl Progress {
    /// Of a run that has not begun, of so many clients at most. `None` where memory ran out.
    pub fn new(alloc: Global, console: Console, most_clients: usize) -> Option<Progress> {
        let run = Run {
            tally: Tally::new(alloc, most_clients)?,
            is_over: AtomicU32::new(0),
            parker: Parker::new(),
        };
        match Arc::new(alloc, run) {
            Ok(run) => Some(Progress { console, run }),
            Err(_) => None,
        }
    }

    /// Who says how far it is. `None` where standard error is no terminal.
    pub fn watch(&self) -> Option<Watch> {
        if !self.console.is_terminal() {
            return None;
        }
        match Arc::try_clone(&self.run) {
            Ok(run) => Some(Watch {
                console: self.console.again(),
                run,
            }),
            Err(_) => None,
        }
    }

    /// A client has so many dispatches with so many packets, for so many operations.
    pub fn planned(&self, client: u32, dispatches: u64, packets: u64, operations: u64) {
        self.run
            .tally
            .planned(client, dispatches, packets, operations);
    }

    /// A client has asked for so many packets of a dispatch, for so many operations.
    pub fn asked(&self, client: u32, packets: u64, operations: u32) {
        self.run.tally.asked(client, packets, operations);
        if self.run.tally.is_fresh(client)
            && let Some(now) = self.console.milliseconds()
        {
            self.run.tally.began(client, now);
        }
    }

    /// A client took what became of a packet on this lane.
    pub fn took(&self, client: u32, lane: usize, taken: Taken) {
        self.run.tally.took(client, lane, taken);
    }

    /// A client is done with a dispatch. Says once of a run that the dispatches left take long, where the first ones
    /// timed out.
    pub fn answered(&self, client: u32) {
        let Some(deaf) = self.run.tally.answered(client) else {
            return;
        };
        let Some(now) = self.console.milliseconds() else {
            return;
        };
        let took = now.saturating_sub(deaf.began);
        if let Some(rest) = rest_at(deaf.left, u64::from(DEAF_AFTER), took)
            && rest >= SHORT
            && self.run.tally.warns_first()
        {
            self.console.say(LongWait {
                client,
                waited: DEAF_AFTER,
                took,
                left: deaf.left,
                rest,
            });
        }
    }

    /// The run is over: the watch ends at once.
    pub fn end(&self) {
        self.run.is_over.store(1, Ordering::SeqCst);
        self.run.parker.unpark();
    }

    /// The watch has ended: removes its line.
    pub fn clear(&self) {
        self.console.close_row();
    }
}

impl Watch {
    /// Rewrites the line once a second, until the run is over. The first tick only begins to measure the pace.
    pub fn keep<R: Wait>(&self, rt: &R) {
        let mut meter = None;
        for _ in rt.forever() {
            self.run
                .parker
                .park_timeout(rt, Duration::from_millis(TICK));
            if self.run.is_over.load(Ordering::SeqCst) == 1 {
                return;
            }
            self.tick(&mut meter);
        }
    }

    // Says how far the run is, where clients were planned and a tick was before.
    fn tick(&self, meter: &mut Option<Meter>) {
        let counts = self.run.tally.counts();
        let Some(now) = self.console.milliseconds() else {
            return;
        };
        if counts.packets.all == 0 || !self.console.has_network() {
            return;
        }
        match meter {
            Some(meter) => {
                let rest = meter.rest(now, counts.packets);
                self.console.show_row(Row { counts, rest });
            }
            None => {
                self.console.open_row();
                *meter = Some(Meter::new(now, counts.packets.done));
            }
        }
    }
}
