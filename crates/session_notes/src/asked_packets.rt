//! How many packets and words the clients of a document ask of its boards.

ghost use Rattle.std.specs.List.{AllByRecursion};
ghost use Rattle.script_plans.specs.Plan.{IsGreeting};
ghost use Rattle.script_steps.specs.Packing.{CanBePacked, HaveFewPieces};

use crate::operations::{payload_on, words_read, words_written};
use board_specs::{BoardSpec, LinkSpec};
use ipb_base::NoMemory;
use mtu_packer::{MAX_PAYLOAD, MIN_PAYLOAD};
use note_lines::{Notes, OneLine};
use script_plans::{Greeting, Planned, plan_on};
use script_steps::{Step, Steps};
use std::alloc::Global;

/// The words of the longest packet where the MTU is 1500, as it is on most networks.
const USUAL_PAYLOAD: u32 = 368;

/// How many words the operations of a client on a board read and write.
#[derive(Clone, Copy)]
struct Moved {
    read: usize,
    written: usize,
}

/// Says how many packets and words each client asks of each board, and for which packets that of a board over UDP is
/// counted.
pub fn say_asked(notes: &mut Notes, boards: &[BoardSpec], scripts: &[Steps])
    requires packed { AllByRecursion (AllByRecursion CanBePacked) scripts.now }
    requires few { AllByRecursion HaveFewPieces scripts.now }
{
    let mut said = 0;
    let mut is_assumed = false;
    for (position, board) in boards.iter().enumerate() {
        let before = said;
        if let Some(plans) = notes.made(plans_on(notes.alloc, &board.link, position, scripts)) {
            said = say_board(notes, board, position, scripts, plans.as_slice(), said);
        }
        is_assumed = is_assumed || said > before && matches!(&board.link, LinkSpec::Udp { .. });
    }
    notes.say_others(said);
    if is_assumed {
        notes.say(
            "packets to boards over UDP are counted for an MTU of 1500; each board tells its own when a run starts",
        );
    }
}

/// Says what clients ask of a board, behind so many lines. It says how many lines there are then.
fn say_board(
    notes: &mut Notes,
    board: &BoardSpec,
    position: usize,
    scripts: &[Steps],
    plans: &[Planned],
    before: u32,
) -> u32 {
    let name = OneLine(board.name.as_str());
    let mut said = before;
    for (client, (steps, planned)) in scripts.iter().zip(plans).enumerate() {
        let packets = planned.bodies().len();
        if packets == 0 {
            continue;
        }
        said = said.saturating_add(1);
        let Moved { read, written } = moved_on(steps.as_slice(), position);
        let client = client.saturating_add(1);
        notes.name(
            said,
            format_args!(
                "client {client}, board {name}: packets {packets}, words read {read}, words written {written}"
            ),
        );
    }
    said
}

/// How many words the operations of a client on a board read and write. Those that a policy denies do neither.
fn moved_on(steps: &[Step], position: usize) -> Moved {
    let mut moved = Moved {
        read: 0,
        written: 0,
    };
    for step in steps {
        if let Step::Do(op) = step
            && op.board as usize == position
        {
            moved.read = moved.read.saturating_add(words_read(&op.op));
            moved.written = moved.written.saturating_add(words_written(&op.op));
        }
    }
    moved
}

/// What each client asks of the board at a position.
fn plans_on(
    alloc: Global,
    link: &LinkSpec,
    position: usize,
    scripts: &[Steps],
) -> Result<Vec<Planned>, NoMemory>
    requires packed { AllByRecursion (AllByRecursion CanBePacked) scripts.now }
    requires few { AllByRecursion HaveFewPieces scripts.now }
{
    let greeting = greeting_of(link);
    let board = u32::try_from(position).unwrap_or(u32::MAX);
    let mut plans = Vec::with_capacity(alloc, scripts.len())?;
    for steps in scripts {
        plans.push(plan_on(alloc, steps.as_slice(), board, greeting)?)?;
    }
    Ok(plans)
}

/// What a board answers to its greeting; one over UDP has the usual MTU.
fn greeting_of(link: &LinkSpec) -> Greeting
    ensures { IsGreeting result }
{
    let payload = match link {
        LinkSpec::Sim { .. } => payload_on(link),
        LinkSpec::Udp { .. } => USUAL_PAYLOAD,
    };
    if payload < MIN_PAYLOAD || MAX_PAYLOAD < payload {
        return Greeting::Down;
    }
    Greeting::Live { payload }
}
