//! A hub of one board over a simulated link: a client step by step, one that plans as it goes, and four at once.

ghost use Rattle.std.specs.Prelude.{◌≡◌, ◌<◌, [], ◌∷◌, length, map, IfOk};
ghost use Rattle.std.specs.Thread.{IsSync};
ghost use Rattle.turn_pass.specs.Pass.{first_knowledge};
ghost use Rattle.hub_multiplexer.specs.Ends.{HasTakenIn};
ghost use Rattle.hub_multiplexer.specs.Lanes.{shown_record};
ghost use Rattle.hub_multiplexer.specs.Seats.{IsMasterOf, IsSeatOf};

use crate::fixtures::{digit, kinds, lane, place_of, planned, read_four};
use hub_lane::Entry;
use hub_multiplexer::laws::a_seat_that_asked_all_may_submit;
use hub_multiplexer::{
    AskTry, Asked, Hub, Lane, Link, Master, NoMemory, Outcome, Performed, Seat, StepTry,
};
use std::alloc::Global;
use std::marker::{Send, Sync};
use std::sync::Wait;
use std::test::Fail;
use std::thread::{Threads, join, yield_now};

/// A list of one lane.
fn list_of<L: Link + Drop>(alloc: Global, lane: Lane<L>) -> Result<Vec<Lane<L>>, NoMemory>
    ensures { IfOk result (λ lanes. lanes.items ≡ lane ∷ []) }
{
    let mut lanes = Vec::new(alloc);
    lanes.push(lane)?;
    Ok(lanes)
}

/// A hub of one board over a lane, and its master.
pub(crate) fn hub_of<L: Link + Send + Drop>(
    alloc: Global,
    lane: Lane<L>,
) -> Result<(Hub<L>, Master), Fail>
    ensures master { IfOk result (λ made. IsMasterOf made.0 made.1) }
    ensures no_seats { IfOk result (λ made. (made.1.seats ≡ 0) × HasTakenIn 1 made.1) }
    ensures board { IfOk result (λ made. length made.0.turns ≡ 1) }
    ensures knows { IfOk result (λ made.
        made.1.knows ≡ map first_knowledge (map (shown_record L.telling) (lane ∷ []))) }
{
    match Hub::new(alloc, list_of(alloc, lane)?) {
        Ok(made) => Ok(made),
        Err(_) => Err("no memory".into()),
    }
}

/// Such a hub, its master, and the seat of client 1.
fn seated<L: Link + Send + Drop>(
    alloc: Global,
    lane: Lane<L>,
) -> Result<(Hub<L>, Master, Seat), Fail>
    ensures master { IfOk result (λ made. IsMasterOf made.0 made.1) }
    ensures seats { IfOk result (λ made. (made.1.seats ≡ 1) × HasTakenIn 1 made.1) }
    ensures seat { IfOk result (λ made. IsSeatOf made.0 made.2 × (made.2.client ≡ 1)) }
    ensures board { IfOk result (λ made. 0 < length made.0.turns) }
{
    let (hub, mut master) = hub_of(alloc, lane)?;
    let seat = master.seat(alloc, &hub)?;
    Ok((hub, master, seat))
}

/// Joins the last seat, and takes the lane.
fn finish<R: Wait, L: Link + Send + Drop>(
    rt: &R,
    hub: Hub<L>,
    mut master: Master,
    seat: Seat,
) -> Result<Lane<L>, Fail>
    requires master { IsMasterOf hub master }
    requires seat { IsSeatOf hub seat × (seat.client ≡ master.seats) }
    requires joined { HasTakenIn seat.client master }
{
    master.join(&hub, seat);
    match hub.finish(rt, master).pop() {
        Some(lane) => Ok(lane),
        None => Err("the hub gave no lane back".into()),
    }
}

/// Steps until something became of the client's oldest untaken body, in so many turns at most.
fn step<L: Link + Send>(hub: &Hub<L>, seat: &mut Seat, turns: usize) -> Option<Outcome>
    requires board { 0 < length hub.now.turns }
    requires seat { IsSeatOf hub.now seat.old }
    ensures { IsSeatOf hub.now seat.new × (seat.new.client ≡ seat.old.client) }
{
    for _ in 0..turns {
        match hub.try_step(seat, 0) {
            Ok(StepTry::Ready(outcome)) => return Some(outcome),
            Ok(StepTry::NotYet(_)) => {}
            Ok(StepTry::Busy) => yield_now(),
            Ok(StepTry::Nothing) => return None,
            Err(_) => return None,
        }
    }
    None
}

/// Whether the client asks its body once and takes the right reply once, by calls that never wait.
fn asks_once<L: Link + Send>(hub: &Hub<L>, seat: &mut Seat) -> Result<bool, NoMemory>
    requires board { 0 < length hub.now.turns }
    requires seat { IsSeatOf hub.now seat.old }
    ensures { IsSeatOf hub.now seat.new × (seat.new.client ≡ seat.old.client) }
{
    let asked = hub.try_ask(seat, 0)?;
    let again = hub.try_ask(seat, 0)?;
    let place = place_of(step(hub, seat, 32));
    let left = step(hub, seat, 1).is_some();
    Ok(asked == AskTry::Asked(0) && again == AskTry::Nothing && place == Some(1) && !left)
}

/// Asks both reads of the client. Whether they were asked.
fn asks_both<R: Wait, L: Link + Send>(
    rt: &R,
    hub: &Hub<L>,
    seat: &mut Seat,
) -> Result<bool, NoMemory>
    requires board { 0 < length hub.now.turns }
    requires seat { IsSeatOf hub.now seat.old }
    ensures { IsSeatOf hub.now seat.new × (seat.new.client ≡ seat.old.client) }
{
    let first = hub.ask(rt, seat, 0)?;
    let second = hub.ask(rt, seat, 0)?;
    Ok(first == Asked::Asked(0) && second == Asked::Asked(1))
}

/// The same by calls that never wait.
fn tries_to_ask_both<L: Link + Send>(hub: &Hub<L>, seat: &mut Seat) -> Result<bool, NoMemory>
    requires board { 0 < length hub.now.turns }
    requires seat { IsSeatOf hub.now seat.old }
    ensures { IsSeatOf hub.now seat.new × (seat.new.client ≡ seat.old.client) }
{
    let first = hub.try_ask(seat, 0)?;
    let second = hub.try_ask(seat, 0)?;
    Ok(first == AskTry::Asked(0) && second == AskTry::Asked(1))
}

/// Steps once behind two asks. Whether an outcome was taken.
fn steps_once<L: Link + Send>(hub: &Hub<L>, seat: &mut Seat) -> Result<bool, NoMemory>
    requires board { 0 < length hub.now.turns }
    requires seat { IsSeatOf hub.now seat.old }
    ensures { IsSeatOf hub.now seat.new × (seat.new.client ≡ seat.old.client) }
{
    tries_to_ask_both(hub, seat)?;
    Ok(matches!(hub.try_step(seat, 0)?, StepTry::Ready(_)))
}

/// Submits a read where nothing is left to ask, and performs it. The place of its reply.
fn reads<R: Wait, L: Link + Send>(
    rt: &R,
    alloc: Global,
    hub: &Hub<L>,
    seat: &mut Seat,
) -> Result<Option<u64>, NoMemory>
    requires board { 0 < length hub.now.turns }
    requires seat { IsSeatOf hub.now seat.old }
    ensures { IsSeatOf hub.now seat.new × (seat.new.client ≡ seat.old.client) }
{
    a_seat_that_asked_all_may_submit();
    let AskTry::Nothing = hub.try_ask(seat, 0)? else {
        return Ok(None);
    };
    let (body, reply_words) = read_four(alloc)?;
    if hub.submit(rt, seat, 0, body, reply_words).is_err() {
        return Ok(None);
    }
    match hub.perform(rt, seat, 0)? {
        Performed::Ready(outcome) => Ok(place_of(Some(outcome))),
        Performed::Nothing => Ok(None),
    }
}

/// Whether two reads, one after the other, get their replies, and nothing is left to perform then.
fn reads_twice<R: Wait, L: Link + Send>(
    rt: &R,
    alloc: Global,
    hub: &Hub<L>,
    seat: &mut Seat,
) -> Result<bool, NoMemory>
    requires board { 0 < length hub.now.turns }
    requires seat { IsSeatOf hub.now seat.old }
    ensures { IsSeatOf hub.now seat.new × (seat.new.client ≡ seat.old.client) }
{
    let first = reads(rt, alloc, hub, seat)?;
    let second = reads(rt, alloc, hub, seat)?;
    let left = hub.perform(rt, seat, 0)?;
    Ok(first == Some(1) && second == Some(2) && matches!(left, Performed::Nothing))
}

/// What a client does at a hub.
#[derive(Clone, Copy)]
enum Act {
    AskOnce,
    AskBoth,
    TryToAskBoth,
    StepOnce,
    ReadTwice,
}

/// Whether the client could do that.
fn does<R: Wait, L: Link + Send>(
    rt: &R,
    alloc: Global,
    hub: &Hub<L>,
    seat: &mut Seat,
    act: Act,
) -> Result<bool, NoMemory>
    requires board { 0 < length hub.now.turns }
    requires seat { IsSeatOf hub.now seat.old }
    ensures { IsSeatOf hub.now seat.new × (seat.new.client ≡ seat.old.client) }
{
    match act {
        Act::AskOnce => asks_once(hub, seat),
        Act::AskBoth => asks_both(rt, hub, seat),
        Act::TryToAskBoth => tries_to_ask_both(hub, seat),
        Act::StepOnce => steps_once(hub, seat),
        Act::ReadTwice => reads_twice(rt, alloc, hub, seat),
    }
}

/// What the client of a hub does, with so many reads planned before, and whether it can; the kinds of the lane's
/// entries then, and how many bodies the lane sent and how many replies it received.
#[derive(Clone, Copy)]
struct Row {
    reads: u32,
    act: Act,
    can: bool,
    kinds: &'static str,
    counts: (u64, u64),
}

/// What the client of a hub of this lane could do, and the lane.
fn done<R: Wait, L: Link + Send + Drop>(
    rt: &R,
    alloc: Global,
    lane: Lane<L>,
    act: Act,
) -> Result<(Option<bool>, Lane<L>), Fail> {
    let (hub, master, mut seat) = seated(alloc, lane)?;
    let is_done = does(rt, alloc, &hub, &mut seat, act).ok();
    Ok((is_done, finish(rt, hub, master, seat)?))
}

/// Whether a lane has these entries, and sent and received so much.
fn has<L: Link>(alloc: Global, lane: &Lane<L>, row: Row) -> Result<bool, NoMemory> {
    let (replied, _timed_out, _lost) = lane.counts();
    let kinds = kinds(alloc, lane.entries())?;
    Ok(kinds.as_str() == row.kinds && (lane.sent(), replied) == row.counts)
}

/// Whether it is so at a hub over this lane, and the lane's link.
fn is_so<R: Wait, L: Link + Send + Drop>(
    rt: &R,
    alloc: Global,
    lane: Lane<L>,
    row: Row,
) -> Result<(bool, L), Fail> {
    let lane = planned(alloc, lane, 2, row.reads)?;
    let (is_done, lane) = done(rt, alloc, lane, row.act)?;
    let has = has(alloc, &lane, row) == Ok(true);
    Ok((has && is_done == Some(row.can), lane.close()))
}

/// Whether it is so over a link with these fates, of whose receives so many are quiet.
fn is_so_over<R: Wait>(
    rt: &R,
    alloc: Global,
    fates: &str,
    quiets: u64,
    row: Row,
) -> Result<bool, Fail> {
    let (is_so, link) = is_so(rt, alloc, lane(alloc, fates)?, row)?;
    Ok(is_so && link.quiets() == quiets)
}

/// The fates of a link, how many of its receives are quiet, and the rest.
const CLIENTS: &[(&str, u64, Row)] = &[
    (
        "ddl",
        1,
        Row {
            reads: 1,
            act: Act::AskOnce,
            can: true,
            kinds: "1234",
            counts: (1, 1),
        },
    ),
    // a second ask finds a lane that waits for a reply; it sends and receives nothing all the same
    (
        "",
        0,
        Row {
            reads: 2,
            act: Act::AskBoth,
            can: true,
            kinds: "11233",
            counts: (2, 0),
        },
    ),
    (
        "",
        0,
        Row {
            reads: 2,
            act: Act::TryToAskBoth,
            can: true,
            kinds: "11233",
            counts: (2, 0),
        },
    ),
    // one reply of two is received where both come, and one receive is quiet where both requests are lost
    (
        "",
        0,
        Row {
            reads: 2,
            act: Act::StepOnce,
            can: true,
            kinds: "112334",
            counts: (2, 1),
        },
    ),
    (
        "ddll",
        1,
        Row {
            reads: 2,
            act: Act::StepOnce,
            can: false,
            kinds: "11233",
            counts: (2, 0),
        },
    ),
    // a client that plans as it goes
    (
        "ddldl",
        2,
        Row {
            reads: 0,
            act: Act::ReadTwice,
            can: true,
            kinds: "134134",
            counts: (2, 2),
        },
    ),
];

#[test]
fn a_call_of_a_hub_does_what_it_says_and_no_more(rt: HostRuntime) -> Result<(), Fail> {
    for (fates, quiets, row) in CLIENTS {
        assert!(rt; is_so_over(&rt, rt.alloc(), fates, *quiets, *row)?);
    }
    Ok(())
}

/// The seats of clients 2 to 4.
fn more_seats<L: Link + Send>(
    alloc: Global,
    hub: &Hub<L>,
    master: &mut Master,
) -> Result<(Seat, Seat, Seat), NoMemory>
    requires master { IsMasterOf hub.now master.old × (master.old.seats ≡ 1) }
    requires taken_in { HasTakenIn 1 master.old }
    ensures two { IfOk result (λ seats. IsSeatOf hub.now seats.0 × (seats.0.client ≡ 2)) }
    ensures three { IfOk result (λ seats. IsSeatOf hub.now seats.1 × (seats.1.client ≡ 3)) }
    ensures four { IfOk result (λ seats. IsSeatOf hub.now seats.2 × (seats.2.client ≡ 4)) }
    ensures master { IfOk result (λ _. IsMasterOf hub.now master.new × (master.new.seats ≡ 4)) }
    ensures taken_in { IfOk result (λ _. HasTakenIn 1 master.new) }
{
    let two = master.seat(alloc, hub)?;
    let three = master.seat(alloc, hub)?;
    let four = master.seat(alloc, hub)?;
    Ok((two, three, four))
}

/// A client's seat, and the place of the right reply that it took: 0 where it took none.
type Taken = (Seat, u64);

/// Asks a client's planned body, and steps until something became of it, in so many turns at most.
fn read<R: Wait, L: Link + Send>(rt: &R, hub: &Hub<L>, mut seat: Seat) -> Taken
    requires board { 0 < length hub.now.turns }
    requires seat { IsSeatOf hub.now seat }
    ensures { IsSeatOf hub.now result.0 × (result.0.client ≡ seat.client) }
{
    if hub.ask(rt, &mut seat, 0).is_err() {
        return (seat, 0);
    }
    let place = place_of(step(hub, &mut seat, 1_000_000)).unwrap_or(0);
    (seat, place)
}

/// Two clients at once.
fn read_both<R: Threads + Wait + Sync, L: Link + Send>(
    rt: &R,
    hub: &Hub<L>,
    one: Seat,
    other: Seat,
) -> (Taken, Taken)
    requires board { 0 < length hub.now.turns }
    requires one { IsSeatOf hub.now one }
    requires other { IsSeatOf hub.now other }
    ensures one { IsSeatOf hub.now result.0.0 × (result.0.0.client ≡ one.client) }
    ensures other { IsSeatOf hub.now result.1.0 × (result.1.0.client ≡ other.client) }
{
    join(
        rt,
        move || -> Taken
            requires { IsSync R.row × (0 < length hub.now.turns) × IsSeatOf hub.now one }
            ensures { IsSeatOf hub.entry.now result.0 × (result.0.client ≡ one.client) }
        { read(rt, hub, one) },
        move || -> Taken
            requires { IsSync R.row × (0 < length hub.now.turns) × IsSeatOf hub.now other }
            ensures { IsSeatOf hub.entry.now result.0 × (result.0.client ≡ other.client) }
        { read(rt, hub, other) },
    )
}

/// Four clients at once.
fn read_all<R: Threads + Wait + Sync, L: Link + Send>(
    rt: &R,
    hub: &Hub<L>,
    one: Seat,
    two: Seat,
    three: Seat,
    four: Seat,
) -> ((Taken, Taken), (Taken, Taken))
    requires board { 0 < length hub.now.turns }
    requires first { IsSeatOf hub.now one × IsSeatOf hub.now two }
    requires second { IsSeatOf hub.now three × IsSeatOf hub.now four }
    ensures one { IsSeatOf hub.now result.0.0.0 × (result.0.0.0.client ≡ one.client) }
    ensures two { IsSeatOf hub.now result.0.1.0 × (result.0.1.0.client ≡ two.client) }
    ensures three { IsSeatOf hub.now result.1.0.0 × (result.1.0.0.client ≡ three.client) }
    ensures four { IsSeatOf hub.now result.1.1.0 × (result.1.1.0.client ≡ four.client) }
{
    join(
        rt,
        move || -> (Taken, Taken)
            requires { IsSync R.row × (0 < length hub.now.turns) × IsSeatOf hub.now one × IsSeatOf hub.now two }
            ensures { IsSeatOf hub.entry.now result.0.0 × (result.0.0.client ≡ one.client)
                × IsSeatOf hub.entry.now result.1.0 × (result.1.0.client ≡ two.client) }
        { read_both(rt, hub, one, two) },
        move || -> (Taken, Taken)
            requires { IsSync R.row × (0 < length hub.now.turns) × IsSeatOf hub.now three × IsSeatOf hub.now four }
            ensures { IsSeatOf hub.entry.now result.0.0 × (result.0.0.client ≡ three.client)
                × IsSeatOf hub.entry.now result.1.0 × (result.1.0.client ≡ four.client) }
        { read_both(rt, hub, three, four) },
    )
}

/// Joins the seats of clients 1 to 4, and takes the lane.
fn finish_four<R: Wait, L: Link + Send + Drop>(
    rt: &R,
    hub: Hub<L>,
    mut master: Master,
    first: (Seat, Seat),
    second: (Seat, Seat),
) -> Result<Lane<L>, Fail>
    requires master { IsMasterOf hub master × (master.seats ≡ 4) }
    requires taken_in { HasTakenIn 1 master }
    requires one { IsSeatOf hub first.0 × (first.0.client ≡ 1) }
    requires two { IsSeatOf hub first.1 × (first.1.client ≡ 2) }
    requires three { IsSeatOf hub second.0 × (second.0.client ≡ 3) }
    requires four { IsSeatOf hub second.1 × (second.1.client ≡ 4) }
{
    let (one, two) = first;
    let (three, four) = second;
    master.join(&hub, one);
    master.join(&hub, two);
    master.join(&hub, three);
    finish(rt, hub, master, four)
}

/// Whether these are the places 1 to 4, in some order.
fn are_the_first_four(places: [u64; 4]) -> bool {
    for place in 1u64..5 {
        if !places.contains(&place) {
            return false;
        }
    }
    true
}

/// Adds the kinds of a client's entries, in order, a digit each. A `?` for an entry that is not of its first body.
fn push_kinds(kinds: &mut String, entries: &[Entry], client: u32) -> Result<(), NoMemory> {
    for entry in entries {
        if entry.maker == client {
            let kind = if entry.seq == 0 {
                digit(entry.kind)
            } else {
                '?'
            };
            kinds.push(kind)?;
        }
    }
    Ok(())
}

/// The kinds of the entries of clients 1 to 4, one client after another.
fn kinds_by_client(alloc: Global, entries: &[Entry]) -> Result<String, NoMemory> {
    let mut kinds = String::new(alloc);
    for client in 1..5 {
        push_kinds(&mut kinds, entries, client)?;
    }
    Ok(kinds)
}

/// The places of the replies that four clients of a lane took at once, and the lane.
fn read_by_four<R: Threads + Wait + Sync, L: Link + Send + Drop>(
    rt: &R,
    alloc: Global,
    lane: Lane<L>,
) -> Result<([u64; 4], Lane<L>), Fail> {
    let (hub, mut master, one) = seated(alloc, lane)?;
    let (two, three, four) = more_seats(alloc, &hub, &mut master)?;
    let ((one, two), (three, four)) = read_all(rt, &hub, one, two, three, four);
    let places = [one.1, two.1, three.1, four.1];
    let lane = finish_four(rt, hub, master, (one.0, two.0), (three.0, four.0))?;
    Ok((places, lane))
}

/// Whether a record has three entries of each client, in order, and the seal.
fn has_four_reads(alloc: Global, entries: &[Entry]) -> Result<bool, NoMemory> {
    let kinds = kinds_by_client(alloc, entries)?;
    Ok(entries.len() == 13 && kinds.as_str() == "134134134134")
}

/// Whether four clients of a lane at once take each the reply to its own read, at one of the first four places.
fn four_read<R: Threads + Wait + Sync, L: Link + Send + Drop>(
    rt: &R,
    alloc: Global,
    lane: Lane<L>,
) -> Result<bool, Fail> {
    let lane = planned(alloc, lane, 5, 1)?;
    let (places, lane) = read_by_four(rt, alloc, lane)?;
    let are_whole = has_four_reads(alloc, lane.entries()) == Ok(true);
    Ok(are_whole && are_the_first_four(places) && lane.counts() == (4, 0, 0))
}

#[test]
fn four_clients_read_at_once(rt: HostRuntime) -> Result<(), Fail> {
    assert!(rt; four_read(&rt, rt.alloc(), lane(rt.alloc(), "ddlddld2r")?)?);
    Ok(())
}
