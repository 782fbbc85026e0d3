//! What a thread that waits does to the value of a turn that it took.

ghost use Rattle.std.specs.Prelude.{◌≤◌, IfOk, OnErr};
ghost use Rattle.hub_multiplexer.specs.AnyCalls.{FindMeansAs, IsNone, MeansAs};

use crate::answers::Performed;
use crate::at_hub::AtHub;
use crate::bell::Bell;
use hub_lane::NoMemory;

/// How a board's turn is visited. Each visit takes what became of the client's oldest asked and untaken body, if
/// anything did.
pub(crate) enum Visit<'a> {
    /// It sends what waits to be sent, so that nothing does while the thread waits beside the turn.
    Look,
    /// It pumps once at most.
    Step,
    /// It pumps once at most where the link can tell something at once. Else it only looks, since a receive would wait
    /// while the thread holds the value.
    StepIfReady(&'a Bell),
}

/// Does one thing to the value of a turn for a client.
pub(crate) fn visit_for<V: AtHub>(
    value: &mut V,
    client: u32,
    how: Visit<'_>,
) -> Result<Option<Performed>, NoMemory>
    requires client { 1 ≤ client }
    ensures found { IfOk result (λ found.
        MeansAs V.manner client (V.entries value.old) (λ k. FindMeansAs V.manner k found) (V.entries value.new)) }
    ensures looked { OnErr result (MeansAs V.manner client (V.entries value.old) (λ _. IsNone) (V.entries value.new)) }
{
    match how {
        Visit::Look => value.look_for(client),
        Visit::Step => step_found(value, client),
        Visit::StepIfReady(bell) => {
            if bell.link_is_ready() {
                step_found(value, client)
            } else {
                value.look_for(client)
            }
        }
    }
}

/// Pumps once at most, and takes what became of the body.
fn step_found<V: AtHub>(value: &mut V, client: u32) -> Result<Option<Performed>, NoMemory>
    requires client { 1 ≤ client }
    ensures found { IfOk result (λ found.
        MeansAs V.manner client (V.entries value.old) (λ k. FindMeansAs V.manner k found) (V.entries value.new)) }
    ensures looked { OnErr result (MeansAs V.manner client (V.entries value.old) (λ _. IsNone) (V.entries value.new)) }
{
    Ok(Performed::found_by(value.step_for(client)?))
}
