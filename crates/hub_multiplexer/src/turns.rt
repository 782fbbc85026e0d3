//! Turns of many values, made and closed.

ghost use Rattle.std.specs.Prelude.{◌≡◌, ◌≤◌, ◌+◌, [], ◌++◌, map, reverse, IfOk, OnOk, OnErr};
ghost use Rattle.std.specs.List.{AllByRecursion};
ghost use Rattle.std.specs.Vec.{vec_len, vec_capacity};
ghost use Rattle.hub_multiplexer.specs.Ends.{AreEnded, IsLast};
ghost use Rattle.hub_multiplexer.specs.Openings.{AreFresh, AreOpened, IsOpening, openings_of};
ghost use Rattle.hub_multiplexer.specs.Seats.{knows_of, turns_of};

use crate::boxed::{Boxed, close_turn, open_turn, take_back};
use ipb_base::NoMemory;
use std::alloc::Global;
use std::sync::Wait;
use turn_pass::{Chronicle, NotMade, Pass, Turn};

/// A turn for each value, in order, and its first pass. Where memory runs out there are as many values as before, with
/// the same records in the same order.
pub(crate) fn open_all<V: Chronicle + Send + Drop>(
    alloc: Global,
    values: &mut Vec<V>,
) -> Result<(Vec<Turn<Boxed<V>>>, Vec<Pass>), NoMemory>
    ensures opened { IfOk result (λ opened. AreOpened (map V.entries values.old.items) opened.0.items opened.1.items) }
    ensures back { OnErr result (map V.entries values.new.items ≡ map V.entries values.old.items) }
{
    let mut turns = Vec::with_capacity(alloc, values.len())?;
    let mut passes = Vec::with_capacity(alloc, values.len())?;
    let Ok(()) = open_from_last(alloc, values, &mut turns, &mut passes) else {
        take_all_back(values, turns, passes);
        return Err(NoMemory);
    };
    turns.reverse();
    passes.reverse();
    Ok((turns, passes))
}

/// A turn for each value, from the last one on, while there is memory.
fn open_from_last<V: Chronicle + Send + Drop>(
    alloc: Global,
    values: &mut Vec<V>,
    turns: &mut Vec<Turn<Boxed<V>>>,
    passes: &mut Vec<Pass>,
) -> Result<(), NoMemory>
    requires empty { (turns.old.items ≡ []) × (passes.old.items ≡ []) }
    requires turns_fit { vec_len values.old ≤ vec_capacity turns.old }
    requires passes_fit { vec_len values.old ≤ vec_capacity passes.old }
    ensures opening { IsOpening (map V.entries values.old.items) (map V.entries values.new.items)
        turns.new.items passes.new.items }
    ensures all { OnOk result (values.new.items ≡ []) }
    ensures room { vec_len values.new + vec_len turns.new ≤ vec_capacity values.new }
{
    while let Some(value) = values.pop() {
        match open_turn(alloc, value) {
            Ok((turn, pass)) => {
                turns.push_reserved(turn);
                passes.push_reserved(pass);
            }
            Err(NotMade { value }) => {
                values.push_reserved(value);
                return Err(NoMemory);
            }
        }
    }
    Ok(())
}

/// Takes the values of turns back, from the turn that was made last on. Nobody else has a pass, so none waits.
fn take_all_back<V: Chronicle + Send + Drop>(
    values: &mut Vec<V>,
    mut turns: Vec<Turn<Boxed<V>>>,
    mut passes: Vec<Pass>,
)
    requires room { vec_len values.old + vec_len turns ≤ vec_capacity values.old }
    requires fresh { AreFresh turns.items passes.items }
    ensures { map V.entries values.new.items ≡ map V.entries values.old.items ++ reverse (openings_of passes.items) }
{
    while let (Some(turn), Some(mut pass)) = (turns.pop(), passes.pop()) {
        let Some(value) = take_back(&turn, &mut pass) else {
            unreachable!();
        };
        values.push_reserved(value);
    }
}

/// Takes the values of turns for good, in order.
pub(crate) fn close_all<V: Chronicle + Send + Drop, R: Wait>(
    rt: &R,
    mut turns: Vec<Turn<Boxed<V>>>,
    mut passes: Vec<Pass>,
    values: &mut Vec<V>,
)
    requires turns { turns_of passes.items ≡ turns.items }
    requires last { AllByRecursion IsLast passes.items }
    requires empty { values.old.items ≡ [] }
    requires room { vec_len turns ≤ vec_capacity values.old }
    ensures { AreEnded (knows_of passes.items) (map V.entries values.new.items) }
{
    while !turns.is_empty() {
        let turn = turns.remove(0);
        let pass = passes.remove(0);
        values.push_reserved(close_turn(rt, turn, pass));
    }
}
