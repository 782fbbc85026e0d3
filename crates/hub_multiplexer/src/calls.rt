//! One call of one client on one board.

ghost use Rattle.std.specs.Prelude.{◌≡◌, ◌≤◌, false, IfOk, IfErr, OnErr};
ghost use Rattle.transaction_codec.specs.Answer.{reply_room};
ghost use Rattle.hub_multiplexer.specs.AnyCalls.{AskMeansAs, AskTriedAs, HasSubmittedAs, IsNone, MadeAs, MadeInTimeAs};
ghost use Rattle.hub_multiplexer.specs.AnyCalls.{BegunAs, StepTriedAs};
ghost use Rattle.hub_multiplexer.specs.OwnItems.{asked_by, planned_by};

use crate::answers::{AskTry, StepTry};
use crate::at_hub::AtHub;
use crate::bell::Bell;
use crate::boxed::Boxed;
use crate::boxed_calls::{ask_on, begin_on, has_stopped, step_on, submit_on};
use hub_lane::{Asked, NoMemory, Words};
use std::sync::Wait;
use turn_pass::{Pass, Turn};

/// Asks the client's next planned body, by one exchange.
pub(crate) fn try_ask<V: AtHub + Send>(
    turn: &Turn<Boxed<V>>,
    bell: &Bell,
    pass: &mut Pass,
    client: u32,
) -> Result<AskTry, NoMemory>
    requires turn { pass.old.turn ≡ turn.now }
    requires idle { (pass.old.holds ≡ false) × (pass.old.knows.number ≡ client) }
    requires client { 1 ≤ client }
    ensures same { pass.new ≡ record pass.old { knows = pass.new.knows } }
    ensures number { pass.new.knows.number ≡ client }
    ensures tried { IfOk result (λ tried. AskTriedAs V.manner pass.old.knows tried pass.new.knows) }
    ensures looked { OnErr result (MadeAs V.manner pass.old.knows IsNone pass.new.knows) }
{
    let Some(mut value) = turn.try_take(pass) else {
        return Ok(AskTry::Busy);
    };
    let asked = ask_on(&mut value, client);
    let stopped = has_stopped(&value);
    turn.give(pass, value);
    bell.ring_if(stopped);
    Ok(AskTry::of::<V>(asked?))
}

/// Pumps once at most, and takes what became of the client's oldest asked and untaken body, by one exchange.
pub(crate) fn try_step<V: AtHub + Send>(
    turn: &Turn<Boxed<V>>,
    bell: &Bell,
    pass: &mut Pass,
    client: u32,
) -> Result<StepTry, NoMemory>
    requires turn { pass.old.turn ≡ turn.now }
    requires idle { (pass.old.holds ≡ false) × (pass.old.knows.number ≡ client) }
    requires client { 1 ≤ client }
    ensures same { pass.new ≡ record pass.old { knows = pass.new.knows } }
    ensures number { pass.new.knows.number ≡ client }
    ensures tried { IfOk result (λ tried. StepTriedAs V.manner pass.old.knows tried pass.new.knows) }
    ensures looked { OnErr result (MadeAs V.manner pass.old.knows IsNone pass.new.knows) }
{
    let Some(mut value) = turn.try_take(pass) else {
        return Ok(StepTry::Busy);
    };
    let stepped = step_on(&mut value, client);
    turn.give(pass, value);
    bell.ring();
    Ok(StepTry::of::<V>(stepped?))
}

/// Asks the client's next planned body. It waits for the value.
pub(crate) fn ask<V: AtHub + Send, R: Wait>(
    rt: &R,
    turn: &Turn<Boxed<V>>,
    bell: &Bell,
    pass: &mut Pass,
    client: u32,
) -> Result<Asked, NoMemory>
    requires turn { pass.old.turn ≡ turn.now }
    requires idle { (pass.old.holds ≡ false) × (pass.old.knows.number ≡ client) }
    requires client { 1 ≤ client }
    ensures same { pass.new ≡ record pass.old { knows = pass.new.knows } }
    ensures number { pass.new.knows.number ≡ client }
    ensures asked { IfOk result (λ asked. MadeInTimeAs V.manner pass.old.knows (AskMeansAs V.manner pass.old.knows asked) pass.new.knows) }
    ensures looked { OnErr result (MadeInTimeAs V.manner pass.old.knows IsNone pass.new.knows) }
{
    let mut value = turn.take(rt, pass);
    let asked = ask_on(&mut value, client);
    let stopped = has_stopped(&value);
    turn.give(pass, value);
    bell.ring_if(stopped);
    asked
}

/// Plans a body of the client, and asks it. It waits for the value.
pub(crate) fn submit<V: AtHub + Send, R: Wait>(
    rt: &R,
    turn: &Turn<Boxed<V>>,
    bell: &Bell,
    pass: &mut Pass,
    client: u32,
    body: Words,
    reply_words: u32,
) -> Result<u64, V::Refusal>
    requires turn { pass.old.turn ≡ turn.now }
    requires idle { (pass.old.holds ≡ false) × (pass.old.knows.number ≡ client) }
    requires client { 1 ≤ client }
    requires reply { reply_words ≡ reply_room body }
    requires all_asked { asked_by pass.old.knows ≡ planned_by pass.old.knows }
    ensures same { pass.new ≡ record pass.old { knows = pass.new.knows } }
    ensures number { pass.new.knows.number ≡ client }
    ensures submitted { IfOk result (λ seq.
        MadeInTimeAs V.manner pass.old.knows (HasSubmittedAs V.manner pass.old.knows body seq) pass.new.knows) }
    ensures refused { IfErr result (λ why.
        MadeInTimeAs V.manner pass.old.knows (V.manner.refuses pass.old.knows body why) pass.new.knows) }
{
    let mut value = turn.take(rt, pass);
    let submitted = submit_on(&mut value, client, body, reply_words);
    let stopped = has_stopped(&value);
    turn.give(pass, value);
    bell.ring_if(stopped);
    submitted
}

/// Begins another greeting where one is due. It waits for the value, and for the answer to the greeting. Whether one
/// began.
pub(crate) fn begin<V: AtHub + Send, R: Wait>(
    rt: &R,
    turn: &Turn<Boxed<V>>,
    bell: &Bell,
    pass: &mut Pass,
    client: u32,
) -> bool
    requires turn { pass.old.turn ≡ turn.now }
    requires idle { (pass.old.holds ≡ false) × (pass.old.knows.number ≡ client) }
    requires client { 1 ≤ client }
    ensures same { pass.new ≡ record pass.old { knows = pass.new.knows } }
    ensures number { pass.new.knows.number ≡ client }
    ensures begun { BegunAs V.manner pass.old.knows pass.new.knows }
{
    let mut value = turn.take(rt, pass);
    let begun = begin_on(rt, &mut value, bell, client);
    turn.give(pass, value);
    bell.ring_if(begun);
    begun
}
