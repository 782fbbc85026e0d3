//! The datagrams that are under way on a simulated link, by their places in the air.

ghost use Rattle.std.specs.Prelude.{◌≡◌, ◌+◌, ◌≤◌, ◌++◌, ◌∷◌, ℕ, List, [], length, IfSome, IfNone, IfOk, OnOk};
ghost use Rattle.std.specs.VecDeque.{deque_len, deque_capacity};
ghost use Rattle.std.specs.Vec.{vec_len};
ghost use Rattle.ipb_base.specs.Faults.{one_more};
ghost use Rattle.lossy_network.specs.Traffic.{due_at, is_due, meets, put_on, releases, still_late};
ghost use Rattle.lossy_network.specs.Inside.{HasRoom, traffic_of};

use crate::fates::DatagramFate;
use ipb_base::NoMemory;
use std::alloc::Global;
use std::collections::VecDeque;

/// The most datagrams that are delayed at once: the longest delay.
const MOST_DELAYED: usize = 9;

/// A delayed datagram: its place in the air, and by how many further datagrams it is delayed.
#[derive(Clone, Copy, PartialEq, Eq)]
pub(crate) struct Late {
    pub(crate) place: usize,
    pub(crate) by: u8,
}

/// The queue of those that are ready to be heard, those that are delayed, and how many were lost, delayed or dropped.
/// At most nine are delayed at once, so that a datagram costs no more the longer a link has run.
#[derive(Drop)]
pub(crate) struct UnderWay {
    pub(crate) queue: VecDeque<usize>,
    pub(crate) delayed: Vec<Late>,
    pub(crate) held: u64,
}

impl UnderWay {
    /// None under way. It takes the room for all that can be delayed at once.
    pub(crate) fn new(alloc: Global) -> Result<UnderWay, NoMemory>
        ensures { IfOk result (λ none. traffic_of none ≡ record { queue = []; delayed = []; held = 0 }) }
    {
        Ok(UnderWay {
            queue: VecDeque::new(alloc),
            delayed: Vec::with_capacity(alloc, MOST_DELAYED + 1)?,
            held: 0,
        })
    }

    /// Takes the room for one more datagram, and for those that are released then.
    pub(crate) fn reserve(&mut self) -> Result<(), NoMemory>
        ensures same { traffic_of self.new ≡ traffic_of self.old }
        ensures room { OnOk result (HasRoom self.new) }
    {
        self.delayed.reserve(1)?;
        self.queue.reserve(self.delayed.len() + 2)?;
        Ok(())
    }

    /// Puts the datagram at this place, which was sent just now, on its way. After it those that are delayed by so many
    /// join the queue.
    pub(crate) fn put(&mut self, fate: DatagramFate, place: usize)
        requires { HasRoom self.old }
        ensures { traffic_of self.new ≡ put_on fate place (traffic_of self.old) }
    {
        self.meet(fate, place);
        self.release(place);
    }

    /// Does to a datagram what its fate says.
    fn meet(&mut self, fate: DatagramFate, place: usize)
        requires { HasRoom self.old }
        ensures met { traffic_of self.new ≡ meets fate place (traffic_of self.old) }
        ensures room { deque_len self.new.queue + vec_len self.new.delayed ≤ deque_capacity self.new.queue }
    {
        match fate {
            DatagramFate::Delivered => self.queue.push_back_reserved(place),
            DatagramFate::Lost => self.held = self.held.saturating_add(1),
            DatagramFate::Repeated => {
                self.queue.push_back_reserved(place);
                self.queue.push_back_reserved(place);
            }
            DatagramFate::Delayed(by) => {
                self.delayed.push_reserved(Late { place, by });
                self.held = self.held.saturating_add(1);
            }
        }
    }

    /// Datagrams that are delayed up to this place go to the back of the queue, in order of sending.
    fn release(&mut self, place: usize)
        requires { deque_len self.old.queue + vec_len self.old.delayed ≤ deque_capacity self.old.queue }
        ensures { traffic_of self.new ≡ releases place (traffic_of self.old) }
    {
        queue_due(&mut self.queue, &self.delayed, place);
        keep_late(&mut self.delayed, place);
    }

    /// The place at the front of the queue.
    pub(crate) fn front(&self) -> Option<usize>
        ensures some { IfSome result (λ place. (rest : List ℕ) × (self.now.queue.items ≡ place ∷ rest)) }
        ensures none { IfNone result (self.now.queue.items ≡ []) }
    {
        self.queue.front().copied()
    }

    /// One was dropped for age.
    pub(crate) fn count_dropped(&mut self)
        ensures { traffic_of self.new ≡ record (traffic_of self.old) { held = one_more self.old.held } }
    {
        self.held = self.held.saturating_add(1);
    }
}

/// Puts those that are delayed up to this place at the back of the queue, in order.
fn queue_due(queue: &mut VecDeque<usize>, delayed: &[Late], place: usize)
    requires { deque_len queue.old + length delayed.now ≤ deque_capacity queue.old }
    ensures { queue.new.items ≡ queue.old.items ++ due_at place delayed.now }
{
    for late in delayed {
        if is_due(late, place) {
            queue.push_back_reserved(late.place);
        }
    }
}

/// Keeps those that are delayed further.
fn keep_late(delayed: &mut Vec<Late>, place: usize)
    ensures { delayed.new.items ≡ still_late place delayed.old.items }
{
    delayed.retain(|late| !is_due(late, place));
}

/// Whether a datagram is delayed up to this place.
fn is_due(late: &Late, place: usize) -> bool
    ensures { result ≡ is_due place late.now }
{
    late.place <= place && place - late.place == usize::from(late.by)
}
