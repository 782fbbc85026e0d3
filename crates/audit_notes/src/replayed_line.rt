//! What the registers of a board give at the places of one line.

ghost use Rattle.script_plans.specs.Plan.{IsGreeting};
ghost use Rattle.script_steps.specs.Packing.{CanBePacked, HaveFewPieces};
ghost use Rattle.std.specs.List.{AllByRecursion};
ghost use Rattle.run_audit.specs.Verdicts.{CanBeAudited};

use crate::belonging::{Asked, Belongs, what_belongs};
use crate::board_order::{
    Looked, Placed, Stretch, allowed_on, push_client, stretch_of, transcript_lines,
};
use crate::differences::say_difference;
use crate::judged::Judged;
use crate::piece_answers::{Reply, result_of};
use crate::shown_lines::is_cut;
use board_bus::Bus;
use board_specs::LinkSpec;
use ipb_base::{NoMemory, Words};
use mtu_packer::{MAX_PAYLOAD, MIN_PAYLOAD};
use note_lines::{MOST_SHOWN, Notes, OneLine};
use script_plans::{Greeting, PieceAt, Planned, plan_on};
use script_steps::{Step, Steps};
use session_notes::payload_on;
use std::alloc::Global;
use std::mem;
use transaction_codec::LONGEST_BODY;
use transcript::{OpResult, push_result};

/// Says what the board gives at the places of a line, and where the line differs from that. Of the packets of this board
/// those that can change a register are executed again, in the order of the places, and those of the line.
pub(crate) fn say_result(notes: &mut Notes, judged: Judged<'_>, line: u32, shown: &str)
    requires { CanBeAudited judged.session.now judged.steps.now }
{
    let Belongs::Operation(asked) = what_belongs(judged, u64::from(line)) else {
        return;
    };
    let Some(given) = notes.made(given_at(notes.alloc, judged, asked)) else {
        return;
    };
    if let Some(text) = notes.made(text_of(notes.alloc, &given)) {
        say_given(notes, text.as_str(), judged.session.settings.rounds());
        if let OpResult::Value(words) = &given
            && (is_cut(shown) || is_cut(text.as_str()))
        {
            say_difference(notes, shown, words.as_slice());
        }
    }
}

/// The text of a result; of a long value that of its first words, which are more than are shown.
fn text_of(alloc: Global, given: &OpResult) -> Result<String, NoMemory> {
    let mut text = String::new(alloc);
    if let OpResult::Value(words) = given
        && let Some(first) = words.as_slice().get(..MOST_SHOWN)
    {
        let first = Words::from_vec(first.to_vec(alloc)?);
        push_result(&mut text, &OpResult::Value(first))?;
    } else {
        push_result(&mut text, given)?;
    }
    Ok(text)
}

fn say_given(notes: &mut Notes, given: &str, rounds: u8) {
    let given = OneLine(given);
    notes.say(format_args!(
        "the registers of its board give at these places: {given}; a timeout tells {rounds} rounds, and operations of one packet are answered, timed out or lost together"
    ));
}

/// What an operation comes to at the places of its line, had its board replied in time. Of each client only a stretch of
/// its steps is planned that has the operations which are executed again.
fn given_at(alloc: Global, judged: Judged<'_>, asked: Asked<'_>) -> Result<OpResult, NoMemory>
    requires { CanBeAudited judged.session.now judged.steps.now }
{
    let position = asked.op.board;
    let Some(board) = judged.session.boards.as_slice().get(position as usize) else {
        return Ok(OpResult::Unsent);
    };
    let scripts = judged.steps;
    let stretches = stretches_on(alloc, judged, asked)?;
    let plans = plans_on(alloc, &board.link, position, scripts, stretches.as_slice())?;
    let order = order_on(
        alloc,
        scripts,
        plans.as_slice(),
        stretches.as_slice(),
        asked,
    )?;
    let Some(planned) = plans.get(asked.client) else {
        return Ok(OpResult::Unsent);
    };
    let pieces = pieces_of(planned, scripts, stretches.as_slice(), asked);
    let wanted = Wanted::of(asked.client, pieces);
    let replies = replies_to(
        alloc,
        &board.link,
        plans.as_slice(),
        order.as_slice(),
        wanted,
    )?;
    result_of(alloc, asked.op, planned, pieces, replies.as_slice())
}

/// The operations of a client that are executed again where a line is wanted.
fn looked_for(asked: Asked<'_>, client: usize) -> Looked {
    Looked {
        client,
        board: asked.op.board,
        wanted: (asked.client == client).then_some(asked.step),
    }
}

/// The stretch of each client's steps that is planned.
fn stretches_on<'a>(
    alloc: Global,
    judged: Judged<'a>,
    asked: Asked<'_>,
) -> Result<Vec<Stretch<'a>>, NoMemory> {
    let mut stretches = Vec::with_capacity(alloc, judged.steps.len())?;
    let mut lines = transcript_lines(judged.transcript);
    for (client, steps) in judged.steps.iter().enumerate() {
        // the heading
        lines.next();
        stretches.push(stretch_of(steps.as_slice(), &mut lines, looked_for(asked, client)))?;
    }
    Ok(stretches)
}

/// What each client asks of a board in its stretch.
fn plans_on(
    alloc: Global,
    link: &LinkSpec,
    board: u32,
    scripts: &[Steps],
    stretches: &[Stretch<'_>],
) -> Result<Vec<Planned>, NoMemory>
    requires packed { AllByRecursion (AllByRecursion CanBePacked) scripts.now }
    requires few { AllByRecursion HaveFewPieces scripts.now }
{
    let greeting = greeting_of(link);
    let mut plans = Vec::with_capacity(alloc, scripts.len())?;
    for steps in scripts {
        let stretch = stretches.get(plans.len());
        plans.push(plan_stretch(alloc, steps.as_slice(), stretch, board, greeting)?)?;
    }
    Ok(plans)
}

/// What a client asks of a board in a stretch of its steps; nothing where there is none.
#[tactic(auto, using(crate::proofs::Stretches::packed, crate::proofs::Stretches::few))]
fn plan_stretch(
    alloc: Global,
    steps: &[Step],
    stretch: Option<&Stretch<'_>>,
    board: u32,
    greeting: Greeting,
) -> Result<Planned, NoMemory>
    requires payload { IsGreeting greeting }
    requires packed { AllByRecursion CanBePacked steps.now }
    requires few { HaveFewPieces steps.now }
{
    let (from, to) = match stretch {
        Some(stretch) => (stretch.from, stretch.to),
        None => (0, 0),
    };
    let to = to.min(steps.len());
    let from = from.min(to);
    plan_on(alloc, &steps[from..to], board, greeting)
}

/// What a board answers to its greeting.
fn greeting_of(link: &LinkSpec) -> Greeting
    ensures { IsGreeting result }
{
    let payload = payload_on(link);
    if payload < MIN_PAYLOAD || MAX_PAYLOAD < payload {
        return Greeting::Down;
    }
    Greeting::Live { payload }
}

/// The bodies of a board that can change a register, and those of the wanted operation, which the transcript shows with a
/// place, in the order of their places.
fn order_on(
    alloc: Global,
    scripts: &[Steps],
    plans: &[Planned],
    stretches: &[Stretch<'_>],
    asked: Asked<'_>,
) -> Result<Vec<Placed>, NoMemory> {
    let mut order = Vec::new(alloc);
    for (client, steps) in scripts.iter().enumerate() {
        if let (Some(planned), Some(stretch)) = (plans.get(client), stretches.get(client)) {
            let looked = looked_for(asked, client);
            push_client(&mut order, planned, steps.as_slice(), *stretch, looked)?;
        }
    }
    order.sort_by_key(|placed| placed.place)?;
    Ok(order)
}

/// The pieces of an operation among those that are planned of its client.
fn pieces_of<'a>(
    planned: &'a Planned,
    scripts: &[Steps],
    stretches: &[Stretch<'_>],
    asked: Asked<'_>,
) -> &'a [PieceAt] {
    let (Some(steps), Some(stretch)) = (scripts.get(asked.client), stretches.get(asked.client))
    else {
        return &[];
    };
    let before = steps
        .as_slice()
        .get(stretch.from..asked.step)
        .unwrap_or(&[]);
    planned
        .pieces(allowed_on(before, asked.op.board))
        .unwrap_or(&[])
}

/// The bodies of a client that have a piece of an operation, from the first to the last one.
#[derive(Clone, Copy)]
struct Wanted {
    client: usize,
    bodies: Option<(usize, usize)>,
}

impl Wanted {
    /// The bodies of these pieces of a client, which stand one behind the other.
    fn of(client: usize, pieces: &[PieceAt]) -> Wanted {
        let bodies = match (pieces.first(), pieces.last()) {
            (Some(first), Some(last)) => Some((first.body, last.body)),
            _ => None,
        };
        Wanted { client, bodies }
    }

    /// Whether a body has a piece of the operation.
    fn has(self, placed: &Placed) -> bool {
        match self.bodies {
            Some((first, last)) => {
                placed.client == self.client && first <= placed.body && placed.body <= last
            }
            None => false,
        }
    }
}

/// The replies of a board to those of the bodies that have a piece of an operation, where the board executes all of them
/// in this order.
fn replies_to(
    alloc: Global,
    link: &LinkSpec,
    plans: &[Planned],
    order: &[Placed],
    wanted: Wanted,
) -> Result<Vec<Reply>, NoMemory> {
    let mut replies = Vec::new(alloc);
    let LinkSpec::Sim { ranges, .. } = link else {
        return Ok(replies);
    };
    let Ok(mut bus) = Bus::new(alloc, ranges.as_slice()) else {
        return Err(NoMemory);
    };
    let mut words = Vec::new(alloc);
    for placed in order {
        words.clear();
        execute(&mut bus, plans, placed, &mut words)?;
        if wanted.has(placed) {
            let words = Words::from_vec(mem::replace(&mut words, Vec::new(alloc)));
            replies.push(Reply {
                body: placed.body,
                words,
            })?;
        }
    }
    Ok(replies)
}

/// Executes a body on a bus, and adds the words of its reply.
fn execute(
    bus: &mut Bus,
    plans: &[Planned],
    placed: &Placed,
    words: &mut Vec<u32>,
) -> Result<(), NoMemory> {
    if let Some(planned) = plans.get(placed.client)
        && let Some(body) = planned.bodies().get(placed.body)
    {
        let body = body.as_slice();
        if body.len() <= LONGEST_BODY {
            bus.execute(body, words)?;
        }
    }
    Ok(())
}
