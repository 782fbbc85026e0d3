//! What the threads that wait for one board share.

ghost use Rattle.std.specs.Prelude.{◌≡◌, length, map, IfOk};

use crate::at_hub::AtHub;
use hub_lane::{NoMemory, Waiter};
use std::alloc::Global;
use std::sync::atomic::{AtomicU64, Ordering};
use std::sync::{Mutex, Wait};

/// What waits beside a board's lane, where its link has such, and who uses it. Of the threads that wait for the board
/// one at a time listens: it waits beside the lane, and steps where the link has something to tell. The others sleep
/// until the bell rings.
///
/// No wakeup is lost. A thread that waits reads the number of rings, then tries to become the listener, then looks at
/// the lane, and then sleeps while the number is still that one.
/// - What comes of its body behind its look comes by a step of another thread, which rings behind the step, or by a
///   send that stopped the lane: whoever finds it stopped rings behind its call. So the number was read before that
///   ring.
/// - Where it is not the listener there was one when it tried. That one rings when it ends listening, behind the try,
///   so the number was read before that ring, and some thread tries again.
/// - What came of its body before it became the listener it finds at its look, which is behind the try.
/// - Who is about to sleep counts itself among the sleepers before the system reads the number, and who rings raises
///   the number before it looks for sleepers. So either the system does not let it sleep, or it is woken.
/// - The waiter is exchanged while nothing that was asked is untaken, by a thread that holds the lane. So nobody waits
///   with the old one: it would have looked before, and found that nothing came of its body yet. Who asks for the waiter
///   at that moment is told that nothing came, and begins again. The exchange rings behind the give.
#[derive(Drop)]
pub(crate) struct Bell {
    // locked for a wait, for a question whether the link is ready, and while it is exchanged
    waiter: Mutex<Option<Waiter>>,
    // 1 where there is a waiter
    waits: AtomicU64,
    listens: AtomicU64,
    rings: AtomicU64,
    sleepers: AtomicU64,
}

impl Bell {
    /// A bell at which nobody listens yet.
    pub(crate) fn of(waiter: Option<Waiter>) -> Bell {
        Bell {
            waits: AtomicU64::new(u64::from(waiter.is_some())),
            waiter: Mutex::new(waiter),
            listens: AtomicU64::new(0),
            rings: AtomicU64::new(0),
            sleepers: AtomicU64::new(0),
        }
    }

    /// Whether there is what waits beside the lane.
    pub(crate) fn has_waiter(&self) -> bool {
        self.waits.load(Ordering::SeqCst) > 0
    }

    /// Waits until the link can tell something. False where it still cannot; then it is asked again. The listener alone
    /// asks.
    pub(crate) fn wait(&self) -> bool {
        match self.waiter.try_lock() {
            Some(waiter) => match &*waiter {
                Some(waiter) => waiter.wait(),
                None => true,
            },
            None => false,
        }
    }

    /// Whether the link can still tell something at once. Whoever asks holds the lane.
    pub(crate) fn link_is_ready(&self) -> bool {
        match self.waiter.try_lock() {
            Some(waiter) => match &*waiter {
                Some(waiter) => waiter.is_ready(),
                None => true,
            },
            None => false,
        }
    }

    /// Another waiter from now on. Whoever exchanges it holds the lane, finds nothing there that any client asked and has
    /// not taken, and rings when the lane is given back.
    pub(crate) fn exchange<R: Wait>(&self, rt: &R, waiter: Option<Waiter>) {
        let waits = waiter.is_some();
        *self.waiter.lock(rt) = waiter;
        self.waits.store(u64::from(waits), Ordering::SeqCst);
    }

    /// Makes the caller the listener where there is none.
    pub(crate) fn begin_listening(&self) -> bool {
        self.listens.swap(1, Ordering::SeqCst) == 0
    }

    /// Ends what `begin_listening` began. Those who sleep wake up, and one of them listens.
    pub(crate) fn end_listening(&self) {
        self.listens.store(0, Ordering::SeqCst);
        self.ring();
    }

    /// How often it rang.
    pub(crate) fn rings(&self) -> u64 {
        self.rings.load(Ordering::SeqCst)
    }

    /// Wakes all who sleep. It asks nothing of the system where none does.
    pub(crate) fn ring(&self) {
        self.rings.fetch_add(1, Ordering::SeqCst);
        if self.sleepers.load(Ordering::SeqCst) > 0 {
            self.rings.wake_all();
        }
    }

    /// Wakes all who sleep, where the lane has stopped, so that something came of every body, or where it was exchanged
    /// for another.
    pub(crate) fn ring_if(&self, changed: bool) {
        if changed {
            self.ring();
        }
    }

    /// Sleeps until it rings, unless it rang more often than so. The system compares the low 32 bits.
    pub(crate) fn sleep<R: Wait>(&self, rt: &R, rings: u64) {
        self.sleepers.fetch_add(1, Ordering::SeqCst);
        self.rings.park(rt, (rings % (1 << 32)) as u32);
        self.sleepers.fetch_sub(1, Ordering::SeqCst);
    }
}

/// A bell for each value, in order. What the values show stays.
pub(crate) fn bells_of<V: AtHub>(alloc: Global, values: &mut Vec<V>) -> Result<Vec<Bell>, NoMemory>
    ensures shown { map V.entries values.new.items ≡ map V.entries values.old.items }
    ensures bells { IfOk result (λ bells. length bells.items ≡ length values.old.items) }
{
    let mut bells = Vec::with_capacity(alloc, values.len())?;
    for i in 0..values.len() {
        bells.push_reserved(bell_of(&mut values[i]));
    }
    Ok(bells)
}

/// The bell of a value. What it shows stays.
fn bell_of<V: AtHub>(value: &mut V) -> Bell
    ensures { V.entries value.new ≡ V.entries value.old }
{
    Bell::of(value.waiter_beside())
}
