//! The summary of a run.

ghost use Rattle.std.specs.Prelude.{◌≡◌, ◌+◌, length, sum, sum_by, map, IfOk, string_bytes};
ghost use Rattle.transcript.specs.Lines.{transcript_of};
ghost use Rattle.transcript.specs.Shown as shown;
ghost use Rattle.ipb_base.specs.Numbers.{in_64_bits};
ghost use Rattle.load_run.specs.Summary as spec;

use ipb_base::NoMemory;
use script_plans::BoardRun;
use script_steps::Steps;
use std::alloc::Global;
use transcript::{BoardLine, OpLine, OpResult, board_lines, lines_of_clients};

/// What is told of the run of a generated session (profile).
#[derive(Clone, Copy, PartialEq, Eq)]
pub struct Summary {
    /// How many operations were asked for.
    pub count: u32,
    /// How many of them were answered `was`. It stands still at 2^64 - 1.
    pub done: u64,
    /// The sum of the words before, each of 32 bits. It stands still at 2^64 - 1.
    pub total: u64,
    /// How many bodies were sent first, to all boards. It stands still at 2^64 - 1.
    pub places: u64,
}

/// How many lines were answered `was`, and the sum of their words.
#[derive(Clone, Copy)]
struct Tally {
    done: u64,
    total: u64,
}

/// A tally with one answered word more.
fn add_word(tally: Tally, word: u32) -> Tally
    ensures done { result.done ≡ in_64_bits (tally.done + 1) }
    ensures total { result.total ≡ in_64_bits (tally.total + word) }
{
    Tally {
        done: tally.done.saturating_add(1),
        total: tally.total.saturating_add(word as u64),
    }
}

/// The word of a line more, where it was answered `was`.
fn add_line(tally: Tally, line: &OpLine) -> Tally
    ensures done { result.done ≡ in_64_bits (tally.done + length (spec.word_before line.now.result)) }
    ensures total { result.total ≡ in_64_bits (tally.total + sum (spec.word_before line.now.result)) }
{
    match line.result {
        OpResult::Was(word) => add_word(tally, word),
        _ => tally,
    }
}

/// A tally with the lines of one client more.
#[tactic(auto, using(crate::proofs::Sums::more_lines_done, crate::proofs::Sums::more_lines_total))]
fn add_lines(tally: Tally, lines: &[OpLine]) -> Tally
    ensures done { result.done ≡ in_64_bits (tally.done + length (spec.words_of_client lines.now)) }
    ensures total { result.total ≡ in_64_bits (tally.total + sum (spec.words_of_client lines.now)) }
{
    let mut more = tally;
    for line in lines {
        more = add_line(more, line);
    }
    more
}

/// The tally of the lines of all clients.
fn tally_of(clients: &[Vec<OpLine>]) -> Tally
    ensures done { let words = spec.words_before (map (λ client. client.items) clients.now) in
        result.done ≡ in_64_bits (length words) }
    ensures total { let words = spec.words_before (map (λ client. client.items) clients.now) in
        result.total ≡ in_64_bits (sum words) }
{
    let mut tally = Tally { done: 0, total: 0 };
    for lines in clients {
        tally = add_lines(tally, lines.as_slice());
    }
    tally
}

/// How many bodies were sent first to a board.
fn sent_to(line: &BoardLine) -> u64
    ensures { result ≡ shown.places_told line.now }
{
    match line {
        BoardLine::Live { sent, .. } => *sent,
        _ => 0,
    }
}

/// How many to all boards.
fn places_of(boards: &[BoardLine]) -> u64
    ensures { result ≡ in_64_bits (sum_by shown.places_told boards.now) }
{
    let mut places: u64 = 0;
    for line in boards {
        places = places.saturating_add(sent_to(line));
    }
    places
}

/// The summary of the lines of a run with so many operations (profile). It takes no memory.
pub fn summary_of(count: u32, clients: &[Vec<OpLine>], boards: &[BoardLine]) -> Summary
    ensures { result ≡ spec.summary_of count
        (record { clients = map (λ client. client.items) clients.now; boards = boards.now }) }
{
    let Tally { done, total } = tally_of(clients);
    Summary {
        count,
        done,
        total,
        places: places_of(boards),
    }
}

/// The summary of a run with so many operations, by what became of each board and by the steps of each client, client 1
/// first (profile). The lines of the run are made in memory: `NoMemory` comes from `transcript::lines_of_clients` and
/// `transcript::board_lines`, and never from the numbers of the summary.
pub fn summary_of_runs(
    alloc: Global,
    count: u32,
    runs: &[BoardRun],
    scripts: &[Steps],
) -> Result<Summary, NoMemory>
    ensures { IfOk result (λ summary. summary ≡ spec.summary_of count (transcript_of scripts.now runs.now)) }
{
    let clients = lines_of_clients(alloc, runs, scripts)?;
    let boards = board_lines(alloc, runs)?;
    Ok(summary_of(count, &clients, &boards))
}

/// Whether as many operations were answered `was` as were asked for: the status of a run is 0 then, and else 1
/// (profile).
pub fn all_done(summary: &Summary) -> bool
    ensures { result ≡ spec.all_done summary.now }
{
    summary.done == summary.count as u64
}

/// `load COUNT`, and `done` with how many lines were answered `was`.
fn done_text(alloc: Global, summary: &Summary) -> Result<String, NoMemory>
    ensures { IfOk result (λ text. string_bytes text ≡ spec.done_text summary.now) }
{
    let count = summary.count;
    let done = summary.done;
    Ok(format!(in alloc; "load {count}\ndone {done}\n")?)
}

/// `was total` with the sum of their words, and `places`.
fn total_text(alloc: Global, summary: &Summary) -> Result<String, NoMemory>
    ensures { IfOk result (λ text. string_bytes text ≡ spec.total_text summary.now) }
{
    let total = summary.total;
    let places = summary.places;
    Ok(format!(in alloc; "was total {total}\nplaces {places}\n")?)
}

/// The four lines of a summary in ASCII, each with its line feed (profile): `load COUNT`, `done D`, `was total S` and
/// `places P`, with decimal numbers. `NoMemory` comes where there is no memory for the text.
pub fn summary_text(alloc: Global, summary: &Summary) -> Result<Vec<u8>, NoMemory>
    ensures { IfOk result (λ text. text.items ≡ spec.summary_text summary.now) }
{
    let mut text = done_text(alloc, summary)?;
    let total = total_text(alloc, summary)?;
    text.push_str(total.as_str())?;
    Ok(text.into_bytes())
}
