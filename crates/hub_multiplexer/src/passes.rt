//! Passes of many turns, one of each.

ghost use Rattle.std.specs.Prelude.{◌≡◌, ◌<◌, ◌≤◌, ◌^◌, [], map, length};
ghost use Rattle.std.specs.List.{AllByRecursion};
ghost use Rattle.std.specs.Vec.{vec_capacity};
ghost use Rattle.hub_multiplexer.specs.Seats.{after_join, after_split, IsFirst, IsIdle, split_off, turns_of};

use turn_pass::{Chronicle, Pass, Turn};

/// One pass more of each turn, after those in `made`.
pub(crate) fn split_all<V: Chronicle + Send>(
    turns: &[Turn<V>],
    firsts: &mut Vec<Pass>,
    made: &mut Vec<Pass>,
    count: u64,
)
    requires turns { turns_of firsts.old.items ≡ turns.now }
    requires firsts { AllByRecursion (IsFirst count) firsts.old.items }
    requires fewer { count < 2 ^ 32 }
    requires empty { made.old.items ≡ [] }
    requires room { length turns.now ≤ vec_capacity made.old }
    ensures firsts { firsts.new.items ≡ map after_split firsts.old.items }
    ensures made { made.new.items ≡ map split_off firsts.old.items }
{
    for i in 0..turns.len() {
        made.push_reserved(turns[i].split(&mut firsts[i]));
    }
}

/// Takes in the passes of a seat, each by the first pass of its turn.
pub(crate) fn join_all<V: Chronicle + Send>(
    turns: &[Turn<V>],
    firsts: &mut Vec<Pass>,
    mut others: Vec<Pass>,
    count: u64,
    client: u32,
)
    requires turns { turns_of firsts.old.items ≡ turns.now }
    requires other_turns { turns_of others.items ≡ turns.now }
    requires firsts { AllByRecursion (IsFirst count) firsts.old.items }
    requires others { AllByRecursion (IsIdle client) others.items }
    requires client { 1 ≤ client }
    ensures { firsts.new.items ≡ after_join firsts.old.items others.items }
{
    while let Some(other) = others.pop() {
        let board = others.len();
        turns[board].join(&mut firsts[board], other);
    }
}
