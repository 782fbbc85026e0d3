//! Waiting for what becomes of a body.

ghost use Rattle.std.specs.Prelude.{◌≡◌, ◌≤◌, false, IfOk, OnErr};
ghost use Rattle.hub_multiplexer.specs.AnyCalls.{FindMeansAs, IsNone, MadeInTimeAs, PerformMeansAs};

use crate::answers::Performed;
use crate::at_hub::AtHub;
use crate::bell::Bell;
use crate::boxed::Boxed;
use crate::boxed_calls::{has_stopped, visit_on};
use crate::visit::Visit;
use hub_lane::NoMemory;
use std::sync::Wait;
use turn_pass::{Pass, Turn};

/// Waits until something became of the client's oldest asked and untaken body, and takes it. It waits for the lane, and
/// for the board.
pub(crate) fn perform<V: AtHub + Send, R: Wait>(
    rt: &R,
    turn: &Turn<Boxed<V>>,
    bell: &Bell,
    pass: &mut Pass,
    client: u32,
) -> Result<Performed, NoMemory>
    requires turn { pass.old.turn ≡ turn.now }
    requires idle { (pass.old.holds ≡ false) × (pass.old.knows.number ≡ client) }
    requires client { 1 ≤ client }
    ensures same { pass.new ≡ record pass.old { knows = pass.new.knows } }
    ensures number { pass.new.knows.number ≡ client }
    ensures performed { IfOk result (λ performed.
        MadeInTimeAs V.manner pass.old.knows (PerformMeansAs V.manner pass.old.knows performed) pass.new.knows) }
    ensures looked { OnErr result (MadeInTimeAs V.manner pass.old.knows IsNone pass.new.knows) }
{
    for _ in rt.forever() {
        match wait_once(rt, turn, bell, pass, client)? {
            Some(performed) => return Ok(performed),
            None => {}
        }
    }
    unreachable!()
}

/// One wait beside the lane, or one step where the link has nothing that waits there.
fn wait_once<V: AtHub + Send, R: Wait>(
    rt: &R,
    turn: &Turn<Boxed<V>>,
    bell: &Bell,
    pass: &mut Pass,
    client: u32,
) -> Result<Option<Performed>, NoMemory>
    requires turn { pass.old.turn ≡ turn.now }
    requires idle { (pass.old.holds ≡ false) × (pass.old.knows.number ≡ client) }
    requires client { 1 ≤ client }
    ensures same { pass.new ≡ record pass.old { knows = pass.new.knows } }
    ensures number { pass.new.knows.number ≡ client }
    ensures found { IfOk result (λ found. MadeInTimeAs V.manner pass.old.knows (FindMeansAs V.manner pass.old.knows found) pass.new.knows) }
    ensures looked { OnErr result (MadeInTimeAs V.manner pass.old.knows IsNone pass.new.knows) }
{
    if bell.has_waiter() {
        wait_beside(rt, turn, bell, pass, client)
    } else {
        visit(rt, turn, bell, pass, client, Visit::Step)
    }
}

/// Listens once where nobody does. Else it looks, and sleeps until the bell rings where nothing came yet.
fn wait_beside<V: AtHub + Send, R: Wait>(
    rt: &R,
    turn: &Turn<Boxed<V>>,
    bell: &Bell,
    pass: &mut Pass,
    client: u32,
) -> Result<Option<Performed>, NoMemory>
    requires turn { pass.old.turn ≡ turn.now }
    requires idle { (pass.old.holds ≡ false) × (pass.old.knows.number ≡ client) }
    requires client { 1 ≤ client }
    ensures same { pass.new ≡ record pass.old { knows = pass.new.knows } }
    ensures number { pass.new.knows.number ≡ client }
    ensures found { IfOk result (λ found. MadeInTimeAs V.manner pass.old.knows (FindMeansAs V.manner pass.old.knows found) pass.new.knows) }
    ensures looked { OnErr result (MadeInTimeAs V.manner pass.old.knows IsNone pass.new.knows) }
{
    // the order matters: the rings, then who listens, then the lane
    let rings = bell.rings();
    if bell.begin_listening() {
        let heard = listen(rt, turn, bell, pass, client);
        bell.end_listening();
        return heard;
    }
    let found = visit(rt, turn, bell, pass, client, Visit::Look)?;
    if found.is_none() {
        bell.sleep(rt, rings);
    }
    Ok(found)
}

/// Looks, waits beside the lane where nothing came yet, and steps where the link then has something to tell. Nobody
/// else listens meanwhile.
fn listen<V: AtHub + Send, R: Wait>(
    rt: &R,
    turn: &Turn<Boxed<V>>,
    bell: &Bell,
    pass: &mut Pass,
    client: u32,
) -> Result<Option<Performed>, NoMemory>
    requires turn { pass.old.turn ≡ turn.now }
    requires idle { (pass.old.holds ≡ false) × (pass.old.knows.number ≡ client) }
    requires client { 1 ≤ client }
    ensures same { pass.new ≡ record pass.old { knows = pass.new.knows } }
    ensures number { pass.new.knows.number ≡ client }
    ensures found { IfOk result (λ found. MadeInTimeAs V.manner pass.old.knows (FindMeansAs V.manner pass.old.knows found) pass.new.knows) }
    ensures looked { OnErr result (MadeInTimeAs V.manner pass.old.knows IsNone pass.new.knows) }
{
    match visit(rt, turn, bell, pass, client, Visit::Look)? {
        Some(performed) => return Ok(Some(performed)),
        None => {}
    }
    if !bell.wait() {
        return Ok(None);
    }
    visit(rt, turn, bell, pass, client, Visit::StepIfReady(bell))
}

/// Takes the lane, visits it so, and gives it back. It waits for the lane. Where the lane has stopped all who sleep are
/// woken.
fn visit<V: AtHub + Send, R: Wait>(
    rt: &R,
    turn: &Turn<Boxed<V>>,
    bell: &Bell,
    pass: &mut Pass,
    client: u32,
    how: Visit<'_>,
) -> Result<Option<Performed>, NoMemory>
    requires turn { pass.old.turn ≡ turn.now }
    requires idle { (pass.old.holds ≡ false) × (pass.old.knows.number ≡ client) }
    requires client { 1 ≤ client }
    ensures same { pass.new ≡ record pass.old { knows = pass.new.knows } }
    ensures number { pass.new.knows.number ≡ client }
    ensures found { IfOk result (λ found. MadeInTimeAs V.manner pass.old.knows (FindMeansAs V.manner pass.old.knows found) pass.new.knows) }
    ensures looked { OnErr result (MadeInTimeAs V.manner pass.old.knows IsNone pass.new.knows) }
{
    let mut value = turn.take(rt, pass);
    let found = visit_on(&mut value, client, how);
    let stopped = has_stopped(&value);
    turn.give(pass, value);
    bell.ring_if(stopped);
    found
}
