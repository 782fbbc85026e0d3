//! The calls on what stands in a board's turn, where it is on the heap.

ghost use Rattle.std.specs.Prelude.{◌≡◌, ◌≤◌, IfOk, IfErr, OnErr};
ghost use Rattle.transaction_codec.specs.Answer.{reply_room};
ghost use Rattle.hub_multiplexer.specs.AnyCalls.{AskMeansAs, BeginsAs, FindMeansAs, HasSubmittedAs, IsNone};
ghost use Rattle.hub_multiplexer.specs.AnyCalls.{MeansAs, StepMeansAs};
ghost use Rattle.hub_multiplexer.specs.Manner.{IsAllAsked};

use crate::answers::Performed;
use crate::at_hub::AtHub;
use crate::bell::Bell;
use crate::boxed::Boxed;
use crate::visit::{Visit, visit_for};
use hub_lane::{Asked, NoMemory, Stepped, Words};
use std::sync::Wait;

/// Whether it sends and receives no more, so that whoever waits for it is to look.
pub(crate) fn has_stopped<V: AtHub>(boxed: &Boxed<V>) -> bool {
    boxed.value.has_stopped()
}

/// Asks the client's next planned body.
pub(crate) fn ask_on<V: AtHub>(boxed: &mut Boxed<V>, client: u32) -> Result<Asked, NoMemory>
    requires client { 1 ≤ client }
    ensures asked { IfOk result (λ asked. MeansAs V.manner client (V.entries boxed.old.value.value)
        (λ k. AskMeansAs V.manner k asked) (V.entries boxed.new.value.value)) }
    ensures looked { OnErr result (MeansAs V.manner client (V.entries boxed.old.value.value)
        (λ _. IsNone) (V.entries boxed.new.value.value)) }
{
    boxed.value.ask_next(client)
}

/// Pumps once at most, and takes what became of the client's oldest asked and untaken body.
pub(crate) fn step_on<V: AtHub>(boxed: &mut Boxed<V>, client: u32) -> Result<Stepped, NoMemory>
    requires client { 1 ≤ client }
    ensures stepped { IfOk result (λ stepped. MeansAs V.manner client (V.entries boxed.old.value.value)
        (λ k. StepMeansAs V.manner k stepped) (V.entries boxed.new.value.value)) }
    ensures looked { OnErr result (MeansAs V.manner client (V.entries boxed.old.value.value)
        (λ _. IsNone) (V.entries boxed.new.value.value)) }
{
    boxed.value.step_for(client)
}

/// Visits it, and takes what became of the client's oldest asked and untaken body, if anything did.
pub(crate) fn visit_on<V: AtHub>(
    boxed: &mut Boxed<V>,
    client: u32,
    how: Visit<'_>,
) -> Result<Option<Performed>, NoMemory>
    requires client { 1 ≤ client }
    ensures found { IfOk result (λ found. MeansAs V.manner client (V.entries boxed.old.value.value)
        (λ k. FindMeansAs V.manner k found) (V.entries boxed.new.value.value)) }
    ensures looked { OnErr result (MeansAs V.manner client (V.entries boxed.old.value.value)
        (λ _. IsNone) (V.entries boxed.new.value.value)) }
{
    visit_for(&mut *boxed.value, client, how)
}

/// Plans a body of the client, and asks it. The client has asked all bodies that stand planned for it.
pub(crate) fn submit_on<V: AtHub>(
    boxed: &mut Boxed<V>,
    client: u32,
    body: Words,
    reply_words: u32,
) -> Result<u64, V::Refusal>
    requires client { 1 ≤ client }
    requires reply { reply_words ≡ reply_room body }
    requires all_asked { IsAllAsked client (V.entries boxed.old.value.value) }
    ensures submitted { IfOk result (λ seq. MeansAs V.manner client (V.entries boxed.old.value.value)
        (λ k. HasSubmittedAs V.manner k body seq) (V.entries boxed.new.value.value)) }
    ensures refused { IfErr result (λ why. MeansAs V.manner client (V.entries boxed.old.value.value)
        (λ k. V.manner.refuses k body why) (V.entries boxed.new.value.value)) }
{
    boxed.value.submit_for(client, body, reply_words)
}

/// Begins another greeting where one is due, and has the bell know what waits beside the board's new link. Whether one
/// began.
pub(crate) fn begin_on<V: AtHub, R: Wait>(
    rt: &R,
    boxed: &mut Boxed<V>,
    bell: &Bell,
    client: u32,
) -> bool
    requires client { 1 ≤ client }
    ensures { BeginsAs V.manner client (V.entries boxed.old.value.value) (V.entries boxed.new.value.value) }
{
    if !boxed.value.begin_for(client) {
        return false;
    }
    bell.exchange(rt, boxed.value.waiter_beside());
    true
}
