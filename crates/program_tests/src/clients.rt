//! `control` on sessions whose clients run at once.

use crate::fixtures::{calm, shut_door, wide_sink, words_of};
use crossbeam_queue::ArrayQueue;
use ipb_base::NoMemory;
use ipb_outside::MemSink;
use ipbus_program::{DONE, Gate, Outcome, control};
use lossy_network::SimRack;
use std::alloc::Global;
use std::marker::Sync;
use std::sync::Wait;
use std::sync::atomic::{AtomicU64, Ordering};
use std::test::Fail;
use std::thread::{Threads, yield_now};

/// How often a client looks at most whether the other has come as far as it waits for.
const TURNS: u64 = 10_000_000;

/// Two clients with two dispatches each.
const TWO_CLIENTS: &str = r#"[[tables.main]]
id = "id"
address = 4
[[board]]
name = "b0"
table = "main"
[[board.ranges]]
base = 0
size = 16
init = [0, 0, 0, 0, 0xabcd]
[[client]]
script = ["read b0:id", "dispatch", "read b0:id"]
[[client]]
script = ["read b0:id", "dispatch", "read b0:id"]
"#;

/// What `answered` adds to the number of a client, which alone is a call of `between`.
const ANSWERED: u32 = 10;

/// All calls of the gate behind the first two, which come in either order.
const CALLS: [u32; 6] = [12, 2, 12, 11, 1, 11];

const FIRST_BEFORE_SECOND: &str =
    "client 1\n1 read b0:id = 0x0000abcd @1.1\n2 read b0:id = 0x0000abcd @4.1
client 2\n1 read b0:id = 0x0000abcd @2.1\n2 read b0:id = 0x0000abcd @3.1
board b0 places 4 replied 4 timeout 0 lost 0\n";

const SECOND_BEFORE_FIRST: &str =
    "client 1\n1 read b0:id = 0x0000abcd @2.1\n2 read b0:id = 0x0000abcd @4.1
client 2\n1 read b0:id = 0x0000abcd @1.1\n2 read b0:id = 0x0000abcd @3.1
board b0 places 4 replied 4 timeout 0 lost 0\n";

/// Writes down each call, and makes the clients meet: the second goes on behind its first asks once the first has asked
/// too, and the first once the second has all its answers.
#[derive(Drop)]
struct MakesThemMeet<R: Wait + Sync + Drop> {
    rt: R,
    calls: ArrayQueue<u32>,
    first_asked: AtomicU64,
    second_answered: AtomicU64,
    waits_in_vain: AtomicU64,
    planned: AtomicU64,
    under_way: AtomicU64,
    replied: AtomicU64,
}

/// Waits until a count has come so far, for so many turns at most, and answers whether it has.
fn comes_to(count: &AtomicU64, least: u64) -> bool {
    for _ in 0..TURNS {
        if count.load(Ordering::SeqCst) >= least {
            return true;
        }
        yield_now();
    }
    false
}

impl<R: Wait + Sync + Drop> MakesThemMeet<R> {
    /// Whether each call came once and in its order. The calls are taken.
    fn saw_each_call(&self) -> bool {
        let first = self.calls.pop(&self.rt).unwrap_or(0);
        let second = self.calls.pop(&self.rt).unwrap_or(0);
        if first.min(second) != 1 || first.max(second) != 2 {
            return false;
        }
        for call in CALLS.as_slice() {
            if self.calls.pop(&self.rt) != Some(*call) {
                return false;
            }
        }
        self.calls.pop(&self.rt).is_none()
    }
}

/// Whether a text is that of the two clients, whichever asked first.
fn is_text_of_both(text: &[u8]) -> bool {
    text == FIRST_BEFORE_SECOND.as_bytes() || text == SECOND_BEFORE_FIRST.as_bytes()
}

/// What `planned` counts for each dispatch of a client, and for each operation.
const A_DISPATCH: u64 = 100;

const AN_OPERATION: u64 = 10_000;

impl<R: Wait + Sync + Drop> Gate for MakesThemMeet<R> {
    fn planned(&self, _client: u32, dispatches: u64, bodies: u64, operations: u64) {
        let planned = dispatches.wrapping_mul(A_DISPATCH).wrapping_add(bodies);
        let planned = planned.wrapping_add(operations.wrapping_mul(AN_OPERATION));
        self.planned.fetch_add(planned, Ordering::SeqCst);
    }

    fn between(&self, client: u32, bodies: u64, operations: u32) {
        self.under_way.fetch_add(
            bodies.wrapping_add(u64::from(operations).wrapping_mul(AN_OPERATION)),
            Ordering::SeqCst,
        );
        let _ = self.calls.push(&self.rt, client);
        let is_met = if client == 1 {
            self.first_asked.fetch_add(1, Ordering::SeqCst);
            comes_to(&self.second_answered, 2)
        } else {
            comes_to(&self.first_asked, 1)
        };
        if !is_met {
            self.waits_in_vain.fetch_add(1, Ordering::SeqCst);
        }
    }

    fn took(&self, _client: u32, lane: usize, outcome: &Outcome) {
        if lane == 0 && matches!(outcome, Outcome::Replied { .. }) {
            self.replied.fetch_add(1, Ordering::SeqCst);
        }
    }

    fn answered(&self, client: u32) {
        let _ = self.calls.push(&self.rt, ANSWERED.wrapping_add(client));
        if client == 2 {
            self.second_answered.fetch_add(1, Ordering::SeqCst);
        }
    }
}

/// The status and the text that `run` ends with on the document, with this gate.
fn gated<T: Threads + Wait + Sync, G: Gate + Sync>(
    rt: &T,
    alloc: Global,
    gate: &G,
) -> Result<(u8, MemSink), NoMemory> {
    let words = words_of(alloc, "run")?;
    let mut input = calm(alloc, TWO_CLIENTS)?;
    let mut out = wide_sink(alloc)?;
    let mut rack = SimRack::new(alloc, Vec::new(alloc), Vec::new(alloc));
    let mut door = shut_door(alloc)?;
    let status = control(
        rt, alloc, &words, &mut input, &mut out, &mut rack, &mut door, gate,
    );
    Ok((status, out))
}

/// Each call of the gate comes once, in its order and with the number of its client, behind the asks of its dispatch.
/// Where a call of `between` came before the asks, the first client's would have no place before the second's last; and
/// where clients ran one after another, one would wait in vain.
#[test]
fn clients_run_at_once(rt: HostRuntime) -> Result<(), Fail> {
    let gate = MakesThemMeet {
        rt,
        calls: ArrayQueue::new(rt.alloc(), 64)?,
        first_asked: AtomicU64::new(0),
        second_answered: AtomicU64::new(0),
        waits_in_vain: AtomicU64::new(0),
        planned: AtomicU64::new(0),
        under_way: AtomicU64::new(0),
        replied: AtomicU64::new(0),
    };
    let (status, out) = gated(&rt, rt.alloc(), &gate)?;
    assert!(rt; status == DONE && gate.waits_in_vain.load(Ordering::SeqCst) == 0);
    assert!(rt; is_text_of_both(out.bytes()));
    assert!(rt; gate.saw_each_call());
    // two clients with two dispatches of one packet each, for one operation
    assert!(rt; gate.planned.load(Ordering::SeqCst) == 4 * AN_OPERATION + 4 * A_DISPATCH + 4);
    assert!(rt; gate.under_way.load(Ordering::SeqCst) == 4 * AN_OPERATION + 4);
    assert!(rt; gate.replied.load(Ordering::SeqCst) == 4);
    Ok(())
}
