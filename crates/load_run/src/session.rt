//! The generated session.

ghost use Rattle.std.specs.Prelude.{◌≡◌, ◌≤◌, IfOk};
ghost use Rattle.ipb_base.specs.Numbers.{most_operations};
ghost use Rattle.load_run.specs.Generated as spec;

use board_bus::{Range, RangeKind};
use board_specs::{BoardSpec, Fates, LinkSpec, Ranges};
use ipb_base::{NoMemory, Text, Words};
use packet_ids::Id;
use reliable_engine::Settings;
use script_steps::{RegOp, Step, Steps, Verb};
use std::alloc::Global;
use transaction_codec::Op;

/// The most operations of a generated session, by all clients together (profile).
pub const MAX_COUNT: u32 = 100_000;

/// How many clients there are.
const CLIENTS: u32 = 4;

/// A session that stands in no document (profile).
#[derive(Drop)]
pub struct GeneratedSession {
    /// How often a hub asks before it gives a body up, 255 rounds, and how many bodies go ahead of their replies, 16.
    pub settings: Settings,
    /// The one board, in this process.
    pub boards: Vec<BoardSpec>,
    /// The steps of the four clients, client 1 first: at most 50,000 each, and 200,000 together.
    pub steps: Vec<Steps>,
}

/// 16 words that may be read and written, and begin as 0.
fn range(alloc: Global) -> Range
    ensures { result ≡ spec.range }
{
    Range {
        base: 0,
        size: 16,
        kind: RangeKind::Rw,
        init: Words::from_vec(Vec::new(alloc)),
    }
}

/// The link to the board. The random numbers of its fates begin with the count.
fn link(alloc: Global, count: u32) -> Result<LinkSpec, NoMemory>
    ensures { IfOk result (λ link. link ≡ spec.link count) }
{
    let ranges = vec![in alloc; range(alloc)]?;
    Ok(LinkSpec::Sim {
        mtu: 1500,
        buffers: 16,
        first: Id::new(1).unwrap(),
        ranges: Ranges::from_vec(ranges),
        fates: Fates::Noise(count as u64),
    })
}

fn board(alloc: Global, count: u32) -> Result<BoardSpec, NoMemory>
    ensures { IfOk result (λ board. board ≡ spec.board count) }
{
    Ok(BoardSpec {
        name: Text::copy_of(alloc, "b0")?,
        table: Text::copy_of(alloc, "main")?,
        link: link(alloc, count)?,
    })
}

/// Adds 1 to the register, behind so many operations of its client.
fn operation(alloc: Global, before: u32) -> Result<RegOp, NoMemory>
    requires { before ≤ most_operations }
    ensures { IfOk result (λ op. op ≡ spec.operation before) }
{
    Ok(RegOp {
        line: 2 * before + 1,
        verb: Verb::RmwSum,
        board: 0,
        name: Text::copy_of(alloc, "count")?,
        mask: 0xffff_ffff,
        op: Op::RmwSum { base: 0, addend: 1 },
    })
}

/// So many operations of one client, each with a dispatch.
#[tactic(auto, using(crate::proofs::Scripts::one_step, crate::proofs::Scripts::no_step))]
fn client_steps(alloc: Global, operations: u32) -> Result<Steps, NoMemory>
    requires { operations ≤ most_operations }
    ensures { IfOk result (λ steps. steps ≡ spec.steps_behind 0 operations) }
{
    let mut steps = Vec::new(alloc);
    for before in 0..operations {
        steps.push(Step::Do(operation(alloc, before)?))?;
        steps.push(Step::Dispatch)?;
    }
    Ok(Steps::from_vec(steps))
}

/// How many operations a client, counted from 0, has of all.
fn share(count: u32, client: u32) -> u32
    requires few { count ≤ most_operations }
    requires client { client ≤ 3 }
    ensures share { result ≡ spec.share count client }
    ensures few { result ≤ count }
{
    (count + (CLIENTS - 1 - client)) / CLIENTS
}

/// The steps of the four clients.
fn all_steps(alloc: Global, count: u32) -> Result<Vec<Steps>, NoMemory>
    requires { count ≤ most_operations }
    ensures { IfOk result (λ steps. steps.items ≡ spec.steps count) }
{
    let first = client_steps(alloc, share(count, 0))?;
    let second = client_steps(alloc, share(count, 1))?;
    let third = client_steps(alloc, share(count, 2))?;
    let fourth = client_steps(alloc, share(count, 3))?;
    Ok(vec![in alloc; first, second, third, fourth]?)
}

/// The session of `count` operations, 0 to `MAX_COUNT` (profile). They go round the four clients: client 1 has the
/// first, the fifth, and so on. Each adds 1 to the register `count` of the board `b0`, the whole 32-bit word at address
/// 0, by an RMW sum (IPbus 2.0), and goes out in a body of its own. The board takes IP packets of 1500 bytes, keeps 16
/// replies, expects the identifier 1 first and has 16 words, all 0. `NoMemory` comes where there is no memory for the
/// session; nothing else is refused.
pub fn generated(alloc: Global, count: u32) -> Result<GeneratedSession, NoMemory>
    requires { count ≤ most_operations }
    ensures settings { IfOk result (λ session. session.settings ≡ spec.settings) }
    ensures boards { IfOk result (λ session. session.boards.items ≡ spec.boards count) }
    ensures steps { IfOk result (λ session. session.steps.items ≡ spec.steps count) }
{
    let board = board(alloc, count)?;
    Ok(GeneratedSession {
        settings: Settings::new(255, 16).unwrap(),
        boards: vec![in alloc; board]?,
        steps: all_steps(alloc, count)?,
    })
}
