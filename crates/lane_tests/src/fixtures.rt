//! A small board, a lane over a simulated link to it, and what is asked of them.

ghost use Rattle.std.specs.Prelude.{◌≡◌, ◌≤◌, [], IfOk};
ghost use Rattle.transaction_codec.specs.Answer.{reply_room};
ghost use Rattle.world_model.specs.Board.{bodies_executed};
ghost use Rattle.hub_lane.specs.Greeting.{IfReady};

use board_node::{Board, Bus, Range, RangeKind};
use board_specs::Fates;
use hub_lane::{Entry, Greeted, Lane, Outcome, Settings};
use ipb_base::{NoMemory, Text, Words};
use links::Link;
use lossy_network::SimLink;
use packet_ids::Id;
use std::alloc::Global;
use std::slice;
use std::test::Fail;
use transaction_codec::reply_room;

/// A read of the word at address 4.
pub(crate) const READ_FOUR: [u32; 2] = [0x2000_010f, 4];

/// The reply to it.
pub(crate) const FOUR_READ: [u32; 2] = [0x2000_0100, 0xabcd];

/// A bus of 16 words, with 0xabcd at address 4.
fn bus(alloc: Global) -> Result<Bus, Fail> {
    let range = Range {
        base: 0,
        size: 16,
        kind: RangeKind::Rw,
        init: Words::from_vec([0, 0, 0, 0, 0xabcd].to_vec(alloc)?),
    };
    Ok(Bus::new(alloc, slice::from_ref(&range))?)
}

/// A board of such a bus with this MTU (92 to 1500), that keeps so many replies (1 to 64) and expects this identifier
/// first.
pub(crate) fn board(alloc: Global, mtu: u32, buffers: u32, first: u16) -> Result<Board, Fail>
    requires mtu { (92 ≤ mtu) × (mtu ≤ 1500) }
    requires buffers { (1 ≤ buffers) × (buffers ≤ 64) }
    ensures fresh { IfOk result (λ board. bodies_executed board ≡ []) }
    ensures log { IfOk result (λ board. board.log ≡ []) }
{
    let first = Id::new(first).ok_or("0 is no identifier")?;
    Ok(Board::new(alloc, bus(alloc)?, mtu, buffers, first)?)
}

/// The lane of a board that told its status, to which nothing was planned.
fn ready<L: Link + Drop>(greeted: Greeted<L>) -> Result<Lane<L>, Fail>
    requires { IfReady greeted (λ lane. lane.items ≡ []) }
    ensures { IfOk result (λ lane. lane.items ≡ []) }
{
    match greeted {
        Greeted::Ready(lane) => Ok(lane),
        _ => Err("the board told no status".into()),
    }
}

/// A lane over a simulated link with these fates, to such a board with 16 buffers that expects the identifier 1. The
/// hub sends at most 4 packets ahead of the replies, and gives up after 3 rounds.
pub(crate) fn lane(alloc: Global, fates: &str) -> Result<Lane<SimLink>, Fail>
    ensures { IfOk result (λ lane. lane.items ≡ []) }
{
    let settings = Settings::new(3, 4).ok_or("settings out of range")?;
    let fates = Fates::Text(Text::copy_of(alloc, fates)?);
    let board = board(alloc, 1500, 16, 1)?;
    board.keeps_its_ranges();
    let link = SimLink::new(alloc, board, fates, Vec::new(alloc))?;
    ready(Lane::greet(alloc, link, settings))
}

/// A body that reads that word, and the words of the longest reply to it.
pub(crate) fn read_four(alloc: Global) -> Result<(Words, u32), NoMemory>
    ensures { IfOk result (λ read. read.1 ≡ reply_room read.0) }
{
    let body = Words::from_vec(READ_FOUR.to_vec(alloc)?);
    let reply_words = reply_room(body.as_slice());
    Ok((body, reply_words))
}

/// Plans a read for a client.
fn plan<L: Link>(alloc: Global, lane: &mut Lane<L>, client: u32) -> Result<(), Fail>
    requires { 1 ≤ client }
{
    let (body, reply_words) = read_four(alloc)?;
    match lane.plan(client, body, reply_words) {
        Ok(_) => Ok(()),
        Err(_) => Err("the plan was refused".into()),
    }
}

/// Plans so many reads for a client.
fn plan_reads<L: Link>(
    alloc: Global,
    lane: &mut Lane<L>,
    client: u32,
    reads: u32,
) -> Result<(), Fail>
    requires { 1 ≤ client }
{
    for _ in 0..reads {
        plan(alloc, lane, client)?;
    }
    Ok(())
}

/// Plans so many reads for each client below this one.
fn plan_each<L: Link>(alloc: Global, lane: &mut Lane<L>, end: u32, reads: u32) -> Result<(), Fail> {
    for client in 1..end {
        plan_reads(alloc, lane, client, reads)?;
    }
    Ok(())
}

/// The lane with so many reads planned for each client below this one, and with planning closed where there is any.
pub(crate) fn planned<L: Link + Drop>(
    alloc: Global,
    mut lane: Lane<L>,
    end: u32,
    reads: u32,
) -> Result<Lane<L>, Fail> {
    plan_each(alloc, &mut lane, end, reads)?;
    if reads > 0 {
        lane.seal();
    }
    Ok(lane)
}

/// The place at which the read's reply came. `None` where another outcome came, or none.
pub(crate) fn place_of(outcome: Option<Outcome>) -> Option<u64> {
    match outcome {
        Some(Outcome::Replied { place, words }) => {
            if words.as_slice() == FOUR_READ.as_slice() {
                return Some(place);
            }
            None
        }
        _ => None,
    }
}

/// The kinds of these entries, in order, a digit each.
pub(crate) fn kinds(alloc: Global, entries: &[Entry]) -> Result<String, NoMemory> {
    let mut kinds = String::new(alloc);
    for entry in entries {
        kinds.push(digit(entry.kind))?;
    }
    Ok(kinds)
}

/// A kind as a digit.
pub(crate) fn digit(kind: u8) -> char {
    char::from_digit(u32::from(kind), 10).unwrap_or('?')
}
