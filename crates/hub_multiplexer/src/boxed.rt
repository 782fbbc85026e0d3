//! Values on the heap, so that a turn hands on an address and not a whole value.

ghost use Rattle.std.specs.Prelude.{◌≡◌, false, IfOk, IfErr, IfSome, IsSome};
ghost use Rattle.turn_pass.specs.Pass.{Told, first_knowledge};

use std::alloc::{AllocFailed, Global};
use std::sync::Wait;
use turn_pass::{Chronicle, NotMade, Pass, Turn};

/// A value on the heap. Its record is that of the value.
#[derive(Drop)]
pub(crate) struct Boxed<V> {
    pub(crate) value: Box<V>,
}

impl<V: Chronicle> Chronicle for Boxed<V> {
    ghost entries = { λ boxed. V.entries boxed.value.value };

    fn count(&self) -> u64 {
        self.value.count()
    }
}

/// A turn of a value on the heap, and its first pass, which has seen the record of the value. The value comes back
/// where memory runs out.
pub(crate) fn open_turn<V: Chronicle + Send>(
    alloc: Global,
    value: V,
) -> Result<(Turn<Boxed<V>>, Pass), NotMade<V>>
    ensures first { IfOk result (λ made. made.1 ≡
        record { turn = made.0; holds = false; knows = first_knowledge (V.entries value) }) }
    ensures refused { IfErr result (λ not_made. not_made.value ≡ value) }
{
    match Box::new(alloc, value) {
        Ok(value) => open_boxed(alloc, Boxed { value }),
        Err(AllocFailed { value }) => Err(NotMade { value }),
    }
}

/// Opens a turn over a value that is on the heap already.
fn open_boxed<V: Chronicle + Send>(
    alloc: Global,
    boxed: Boxed<V>,
) -> Result<(Turn<Boxed<V>>, Pass), NotMade<V>>
    ensures first { IfOk result (λ made. made.1 ≡
        record { turn = made.0; holds = false; knows = first_knowledge (V.entries boxed.value.value) }) }
    ensures refused { IfErr result (λ not_made. not_made.value ≡ boxed.value.value) }
{
    match Turn::new(alloc, boxed) {
        Ok(made) => Ok(made),
        Err(NotMade { value }) => Err(NotMade {
            value: off_heap(value),
        }),
    }
}

/// Takes the value off the heap.
fn off_heap<V>(boxed: Boxed<V>) -> V
    ensures { result ≡ boxed.value.value }
{
    let Boxed { value } = boxed;
    Box::into_inner(value)
}

/// Takes the value of a turn back. Nobody else has a pass, so it is there.
pub(crate) fn take_back<V: Chronicle + Send>(turn: &Turn<Boxed<V>>, pass: &mut Pass) -> Option<V>
    requires turn { pass.old.turn ≡ turn.now }
    requires idle { pass.old.holds ≡ false }
    ensures told { IfSome result (λ value. Told pass.old.knows (V.entries value)) }
    ensures only { pass.old.knows.number ≡ 0 → pass.old.knows.made ≡ 1 → IsSome result }
{
    match turn.try_take(pass) {
        Some(boxed) => Some(off_heap(boxed)),
        None => None,
    }
}

/// Takes the value of a turn for good. It waits for the pass that holds it.
pub(crate) fn close_turn<V: Chronicle + Send, R: Wait>(
    rt: &R,
    turn: Turn<Boxed<V>>,
    pass: Pass,
) -> V
    requires turn { pass.turn ≡ turn }
    requires idle { pass.holds ≡ false }
    ensures { Told pass.knows (V.entries result) }
{
    off_heap(turn.close(rt, pass))
}
