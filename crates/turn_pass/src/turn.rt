//! A value that one pass at a time may take.

ghost use Rattle.std.specs.Prelude.{◌≡◌, ◌≢◌, ◌^◌, ◌<◌, ◌≤◌, true, false, [], ◌∷◌};
ghost use Rattle.std.specs.Prelude.{IfOk, IfErr, IfSome, IfNone, IsSome, MatchOption};
ghost use Rattle.turn_pass.specs.Record.{GrowsBy};
ghost use Rattle.turn_pass.specs.Pass.{
  first_knowledge,
  having_given,
  having_seen,
  in_vain,
  newcomer,
  one_more_made,
  taking_in,
  Told,
};
ghost use Rattle.turn_pass.specs.Rule.Stage.{Has, Idle};
ghost use Rattle.turn_pass.specs.Steps.{view_at};

use crate::chronicle::Chronicle;
use crate::pass::{Pass, PassView};
use crate::plays::{Give, Load, OneMore, Store, Take, TakeIn, TurnRule};
use atomic_table::{Badge, Refused, Seat, Shared, Table};
use std::alloc::{AllocFailed, Global};
use std::marker::Model;
use std::snapshot::Snapshot;
use std::sync::Wait;
use std::sync::atomic::{AtomicU64, Ordering};
use std::{mem, thread};

type TurnTable<V> = Table<Option<V>, PassView, Snapshot<V>, TurnRule, Global>;

type TurnShared<V> = Shared<Option<V>, PassView, Snapshot<V>, TurnRule>;

/// A value that one pass at a time may take. Contracts see which turn it is; what they know of the value stands in the
/// record of the pass that took it.
#[derive(Drop)]
pub struct Turn<V: Chronicle> {
    table: TurnTable<V>,
    sleepers: AtomicU64,
}

impl<V: Chronicle> Model for Turn<V> {
    ghost use Rattle.std.specs.Prelude.{◌≡◌};
    ghost use Rattle.atomic_table.specs.Seated.{table_id_coded};
    ghost use Rattle.turn_pass.specs.Pass.{TurnId};

    ghost Value = { TurnId };

    ghost coded = { table_id_coded };

    ghost view = { λ turn. turn.table.shared.table_id };

    ghost invariant = { λ turn. (turn.table.shared.table_id.words ≡ 2) × (turn.table.shared.table_id.slots ≡ 1) };
}

/// There was no memory for a turn. The value comes back.
#[derive(Drop)]
pub struct NotMade<V> {
    pub value: V,
}

impl<V: Chronicle + Send> Turn<V> {
    /// A turn that has the value, and its first pass, which has seen the record of the value. The value comes back
    /// where memory runs out.
    pub fn new(alloc: Global, value: V) -> Result<(Turn<V>, Pass), NotMade<V>>
        ensures first { IfOk result (λ made. made.1 ≡
            record { turn = made.0; holds = false; knows = first_knowledge (V.entries value) }) }
        ensures refused { IfErr result (λ not_made. not_made.value ≡ value) }
    {
        let about = Snapshot::of(&value);
        let count = value.count();
        let slots = only_slot(alloc, value)?;
        match Table::new(alloc, &[0, count], slots, &about) {
            Ok((table, seat)) => Ok((
                Turn {
                    table,
                    sleepers: AtomicU64::new(0),
                },
                Pass::of(0, 1, seat.into_badge()),
            )),
            Err(Refused { slots }) => Err(NotMade {
                value: only_value(slots),
            }),
        }
    }

    /// One pass more, with the next number. It has seen what the first pass has.
    pub fn split(&self, pass: &mut Pass) -> Pass
        requires turn { pass.old.turn ≡ self.now }
        requires idle { pass.old.holds ≡ false }
        requires first { pass.old.knows.number ≡ 0 }
        requires room { pass.old.knows.made < 2 ^ 32 }
        ensures first { pass.new ≡ record pass.old { knows = one_more_made pass.old.knows } }
        ensures made { result ≡ record pass.old { knows = newcomer pass.old.knows } }
    {
        let number = pass.made as u32;
        let mut seat = mem::replace(&mut pass.badge, Badge::blank()).into_seat();
        let other = self.table.shared.split_seat::<OneMore>(&mut seat);
        pass.made += 1;
        pass.badge = seat.into_badge();
        Pass::of(number, 0, other.into_badge())
    }

    /// Takes in another pass: the longer of the two records seen, and the other's number and entries.
    pub fn join(&self, pass: &mut Pass, other: Pass)
        requires turn { pass.old.turn ≡ self.now }
        requires idle { pass.old.holds ≡ false }
        requires other_turn { other.turn ≡ self.now }
        requires other_idle { other.holds ≡ false }
        requires not_first { other.knows.number ≢ 0 }
        ensures { pass.new ≡ record pass.old { knows = taking_in pass.old.knows other.knows } }
    {
        let Pass { badge, .. } = other;
        let mut seat = mem::replace(&mut pass.badge, Badge::blank()).into_seat();
        self.table
            .shared
            .join_seat::<TakeIn>(&mut seat, badge.into_seat());
        pass.badge = seat.into_badge();
    }

    /// Takes the value by one exchange. `None` where the slot was empty at that exchange, which counts as one in vain.
    /// It never waits. Where no other pass was made it finds the value.
    pub fn try_take(&self, pass: &mut Pass) -> Option<V>
        requires turn { pass.old.turn ≡ self.now }
        requires idle { pass.old.holds ≡ false }
        ensures vain { IfNone result (pass.new ≡ record pass.old { knows = in_vain pass.old.knows }) }
        ensures taken { IfSome result (λ value. pass.new ≡
            record pass.old { holds = true; knows = having_seen pass.old.knows (V.entries value) }) }
        ensures told { IfSome result (λ value. Told pass.old.knows (V.entries value)) }
        ensures only { pass.old.knows.number ≡ 0 → pass.old.knows.made ≡ 1 → IsSome result }
    {
        let mut seat = mem::replace(&mut pass.badge, Badge::blank()).into_seat();
        let value = take_from(&self.table.shared, &mut seat);
        pass.badge = seat.into_badge();
        value
    }

    /// Gives the value back. What was added to its record since the pass took it becomes the pass's own entries.
    pub fn give(&self, pass: &mut Pass, value: V)
        requires turn { pass.old.turn ≡ self.now }
        requires holds { pass.old.holds ≡ true }
        requires grows { GrowsBy pass.old.knows.number pass.old.knows.seen (V.entries value) }
        ensures { pass.new ≡
            record pass.old { holds = false; knows = having_given pass.old.knows (V.entries value) } }
    {
        let mut seat = mem::replace(&mut pass.badge, Badge::blank()).into_seat();
        give_to(&self.table.shared, &mut seat, value);
        pass.badge = seat.into_badge();
        self.wake_a_sleeper();
    }

    /// Takes the value, and tries again until it has it. It waits for the pass that holds the value, and sleeps where
    /// that takes long.
    pub fn take<R: Wait>(&self, rt: &R, pass: &mut Pass) -> V
        requires turn { pass.old.turn ≡ self.now }
        requires idle { pass.old.holds ≡ false }
        ensures vain { pass.old.knows.vain ≤ pass.new.knows.vain }
        ensures taken { pass.new ≡ record pass.old {
          holds = true;
          knows = record (having_seen pass.old.knows (V.entries result)) { vain = pass.new.knows.vain };
        } }
        ensures told { Told pass.old.knows (V.entries result) }
    {
        for _ in rt.forever() {
            if let Some(value) = self.try_take(pass) {
                return value;
            }
            self.sleep(rt);
        }
        unreachable!()
    }

    /// Takes the value for good. It waits for the pass that holds it.
    pub fn close<R: Wait>(self, rt: &R, mut pass: Pass) -> V
        requires turn { pass.turn ≡ self }
        requires idle { pass.holds ≡ false }
        ensures { Told pass.knows (V.entries result) }
    {
        let value = self.take(rt, &mut pass);
        let Turn {
            table,
            sleepers: _sleepers,
        } = self;
        let Pass { badge, .. } = pass;
        close_empty(table, badge.into_seat());
        value
    }

    /// Waits while the value is taken: it looks for some time, and then sleeps until the value is given.
    ///
    /// No wakeup is lost. A thread counts itself among the sleepers before the system looks once more whether the value
    /// is taken, and whoever gives the value empties word 0 before it looks for sleepers. So either the system finds
    /// the word changed and does not let the thread sleep, or the giver finds the sleeper.
    fn sleep<R: Wait>(&self, rt: &R) {
        for _ in 0..LOOKS {
            if !self.is_taken() {
                return;
            }
            thread::yield_now();
        }
        self.sleepers.fetch_add(1, Ordering::SeqCst);
        self.table.shared.park(rt, 0, TAKEN);
        self.sleepers.fetch_sub(1, Ordering::SeqCst);
    }

    /// Wakes a thread that sleeps until the value is given. It asks nothing of the system where none sleeps.
    fn wake_a_sleeper(&self) {
        if self.sleepers.load(Ordering::SeqCst) > 0 {
            self.table.shared.wake_one(0);
        }
    }

    /// Whether a pass holds the value. It is no step of the rule, and tells no pass anything.
    fn is_taken(&self) -> bool {
        self.table.shared.peek(0) == u64::from(TAKEN)
    }
}

/// Word 0 while a pass holds the value.
const TAKEN: u32 = 1;

/// How often a thread looks whether the value was given before it sleeps (profile): for some tens of microseconds, in
/// which a lane is mostly given back. A thread that sleeps takes some 50 microseconds to run again.
const LOOKS: u32 = 64;

/// The exchange, the value out of the slot, and the load, by which the emptied slot is at home again.
fn take_from<V: Chronicle>(
    shared: &TurnShared<V>,
    seat: &mut Seat<Option<V>, PassView>,
) -> Option<V>
    requires table { (seat.old.table_id ≡ shared.now.table_id) × (shared.now.table_id.words ≡ 2)
        × (shared.now.table_id.slots ≡ 1) }
    requires idle { seat.old.me ≡ (view_at Idle seat.old.me.0.knows, []) }
    ensures table { seat.new.table_id ≡ seat.old.table_id }
    ensures vain { IfNone result (seat.new.me ≡ (view_at Idle (in_vain seat.old.me.0.knows), [])) }
    ensures taken { IfSome result (λ value. seat.new.me ≡
        (view_at (Has (V.entries value)) (having_seen seat.old.me.0.knows (V.entries value)), [])) }
    ensures told { IfSome result (λ value. Told seat.old.me.0.knows (V.entries value)) }
    ensures only { seat.old.me.0.knows.number ≡ 0 → seat.old.me.0.knows.made ≡ 1 → IsSome result }
{
    if shared.swap::<Take>(seat, 0, 1) != 0 {
        return None;
    }
    let value = shared.exchange(seat, 0, None);
    shared.load::<Load>(seat, 1);
    value
}

/// The store, by which the slot is taken again, the value into the slot, and the exchange that gives.
fn give_to<V: Chronicle>(shared: &TurnShared<V>, seat: &mut Seat<Option<V>, PassView>, value: V)
    requires table { (seat.old.table_id ≡ shared.now.table_id) × (shared.now.table_id.words ≡ 2)
        × (shared.now.table_id.slots ≡ 1) }
    requires holds { seat.old.me ≡ (view_at (Has seat.old.me.0.knows.seen) seat.old.me.0.knows, []) }
    requires grows { GrowsBy seat.old.me.0.knows.number seat.old.me.0.knows.seen (V.entries value) }
    ensures table { seat.new.table_id ≡ seat.old.table_id }
    ensures given { seat.new.me ≡ (view_at Idle (having_given seat.old.me.0.knows (V.entries value)), []) }
{
    let count = value.count();
    shared.store::<Store>(seat, 1, count);
    match shared.exchange(seat, 0, Some(value)) {
        None => {}
        Some(_) => unreachable!(),
    }
    shared.swap::<Give>(seat, 0, 0);
}

/// A slot with the value.
fn only_slot<V>(alloc: Global, value: V) -> Result<Vec<Option<V>>, NotMade<V>>
    ensures slot { IfOk result (λ slots. slots.items ≡ Some value ∷ []) }
    ensures refused { IfErr result (λ not_made. not_made.value ≡ value) }
{
    let mut slots = Vec::new(alloc);
    match slots.push(Some(value)) {
        Ok(()) => Ok(slots),
        Err(AllocFailed { value }) => {
            slots.destroy_empty();
            Err(NotMade {
                value: value.unwrap(),
            })
        }
    }
}

/// The value of a slot that is the only one.
fn only_value<V>(mut slots: Vec<Option<V>>) -> V
    requires { (value : V) × (slots.items ≡ Some value ∷ []) }
    ensures { slots.items ≡ Some result ∷ [] }
{
    let value = slots.pop().unwrap().unwrap();
    slots.destroy_empty();
    value
}

/// Lets go of a table whose value was taken.
fn close_empty<V: Chronicle>(table: TurnTable<V>, seat: Seat<Option<V>, PassView>)
    requires table { (seat.table_id ≡ table.shared.table_id) × (table.shared.table_id.slots ≡ 1) }
    requires holds { seat.me.0 ≡ view_at (Has seat.me.0.knows.seen) seat.me.0.knows }
{
    let mut closed = table.close_with(seat);
    match closed.take(0) {
        None => {}
        Some(_) => unreachable!(),
    }
    closed.free();
}
