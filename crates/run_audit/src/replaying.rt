//! The boards as they are shown, again.

ghost use Rattle.std.specs.Prelude.{◌≡◌, ◌++◌, IfOk, List, OnOk, map};
ghost use Rattle.std.specs.List.{AllByRecursion};
ghost use Rattle.board_specs.specs.declared.spec.BoardSpec.{BoardSpec as SpecValue};
ghost use Rattle.board_history.specs.Order.{bodies_in, by_place};
ghost use Rattle.board_history.specs.Runs.{opens_with};
ghost use Rattle.script_steps.specs.declared.operation.Step.{Step};
ghost use Rattle.transcript_reader.specs.declared.shown.Shown.{Shown};
ghost use Rattle.transcript_reader.specs.Entries.{IsHere, IsLinkHere};
ghost use Rattle.run_audit.specs.Replaying as spec;
ghost use Rattle.run_audit.specs.Steps.{AreOf, asking, replays_from, piece_kept};

use crate::asking::AskedOp;
use crate::places::{PieceShown, shown_pieces};
use crate::plans::BoardPlans;
use board_bus::Bus;
use board_specs::{BoardSpec, LinkSpec};
use ipb_base::{NoMemory, Text, Words};
use lane_record::{Outcome, Outcomes};
use script_plans::{BoardRun, ClientPart, ClientParts, Lates, Planned};
use std::alloc::Global;
use std::marker::Model;
use transcript_reader::greeting_of;

/// The place of each body of a client on a board, where one is shown. Contracts see that list.
#[derive(Drop)]
struct PlaceRow {
    places: Vec<Option<u64>>,
}

impl Model for PlaceRow {
    ghost use Rattle.std.specs.Prelude.{List, Option, ℕ};

    ghost Value = { List (Option ℕ) };

    ghost view = { λ row. row.places.items };
}

impl PlaceRow {
    /// The row of bodies of which no place is shown.
    fn new(alloc: Global, bodies: &[Words]) -> Result<PlaceRow, NoMemory>
        ensures { IfOk result (λ row. row ≡ spec.no_places bodies.now) }
    {
        let mut places = Vec::with_capacity(alloc, bodies.len())?;
        for _body in bodies {
            places.push(None)?;
        }
        Ok(PlaceRow { places })
    }

    /// A place of the body of this number, which counts where none was known.
    #[tactic(auto, using(crate::proofs::Marking::mark_is_set, crate::proofs::Marking::mark_is_past))]
    fn mark(&mut self, body: usize, place: u64)
        ensures { self.new ≡ spec.with_mark body place self.old }
    {
        if body < self.places.len() {
            self.places[body] = Some(self.places[body].unwrap_or(place));
        }
    }
}

/// The place of each body of each client on a board, where these pieces show one: the first that does.
fn rows_of(
    alloc: Global,
    plans: &[Planned],
    pieces: &[PieceShown],
) -> Result<Vec<PlaceRow>, NoMemory>
    ensures { IfOk result (λ rows. rows.items ≡ spec.rows_from (map piece_kept pieces.now) 0 plans.now) }
{
    let mut rows = Vec::with_capacity(alloc, plans.len())?;
    for planned in plans {
        rows.push(PlaceRow::new(alloc, planned.bodies())?)?;
    }
    mark_all(rows.as_mut_slice(), pieces);
    Ok(rows)
}

/// Marks the places that pieces show.
fn mark_all(rows: &mut [PlaceRow], pieces: &[PieceShown])
    ensures { rows.new ≡ spec.all_marked (map piece_kept pieces.now) rows.old }
{
    for piece in pieces {
        mark_in(rows, piece.client, piece.body, piece.place);
    }
}

/// Marks a place of a body of this client.
#[tactic(auto, using(crate::proofs::Marking::row_is_set, crate::proofs::Marking::rows_are_past))]
fn mark_in(rows: &mut [PlaceRow], client: usize, body: usize, place: u64)
    ensures { rows.new ≡ spec.marked_in client body place rows.old }
{
    if client < rows.len() {
        rows[client].mark(body, place);
    }
}

/// A body at its place.
#[derive(Clone, Copy)]
struct PlacedBody<'a> {
    place: u64,
    body: &'a Words,
}

/// Adds the bodies of a client that have a place.
fn push_placed<'a>(
    placed: &mut Vec<PlacedBody<'a>>,
    bodies: &'a [Words],
    row: &[Option<u64>],
) -> Result<(), NoMemory>
    ensures { OnOk result (map spec.placed_of placed.new.items
        ≡ map spec.placed_of placed.old.items ++ spec.placed_in_row bodies.now row.now) }
{
    for (i, body) in bodies.iter().enumerate() {
        let Some(known) = row.get(i) else {
            return Ok(());
        };
        if let Some(place) = *known {
            placed.push(PlacedBody { place, body })?;
        }
    }
    Ok(())
}

/// The bodies of all clients that have a place, client by client.
fn all_placed<'a>(
    alloc: Global,
    plans: &'a [Planned],
    rows: &[PlaceRow],
) -> Result<Vec<PlacedBody<'a>>, NoMemory>
    ensures { IfOk result (λ placed. map spec.placed_of placed.items ≡ spec.placed_in_rows plans.now rows.now) }
{
    let mut placed = Vec::new(alloc);
    for (i, planned) in plans.iter().enumerate() {
        let Some(row) = rows.get(i) else {
            return Ok(placed);
        };
        push_placed(&mut placed, planned.bodies(), row.places.as_slice())?;
    }
    Ok(placed)
}

/// The bodies of a board in the order of their places.
fn placed_in_order<'a>(
    alloc: Global,
    plans: &'a [Planned],
    rows: &[PlaceRow],
) -> Result<Vec<PlacedBody<'a>>, NoMemory>
    ensures { IfOk result (λ order.
        map spec.placed_of order.items ≡ by_place (spec.placed_in_rows plans.now rows.now)) }
{
    let mut order = all_placed(alloc, plans, rows)?;
    order.sort_by_key(|placed| placed.place)?;
    Ok(order)
}

/// A reply, and the place of its body.
#[derive(Drop)]
struct PlacedReply {
    place: u64,
    words: Words,
}

/// The replies of a bus that executes bodies in their order.
fn replies_of(
    alloc: Global,
    mut bus: Bus,
    order: &[PlacedBody],
) -> Result<Vec<PlacedReply>, NoMemory>
    requires { spec.AreShort (bodies_in (map spec.placed_of order.now)) }
    ensures { IfOk result (λ replies. replies.items ≡ spec.replies_from bus (map spec.placed_of order.now)) }
{
    let mut replies = Vec::with_capacity(alloc, order.len())?;
    for placed in order {
        let mut words = Vec::new(alloc);
        bus.execute(placed.body.as_slice(), &mut words)?;
        replies.push(PlacedReply {
            place: placed.place,
            words: Words::from_vec(words),
        })?;
    }
    Ok(replies)
}

/// The reply to the first body at a place, by rising places.
fn reply_at<'a>(replies: &'a [PlacedReply], place: u64) -> &'a [u32]
    requires { spec.Rise replies.now }
    ensures { result.now ≡ spec.reply_among replies.now place }
{
    let at = replies.partition_point(|reply| reply.place < place);
    if at >= replies.len() {
        return &[];
    }
    let first = &replies[at];
    if first.place != place {
        return &[];
    }
    first.words.as_slice()
}

/// What became of the bodies of a client, by the places that are shown of them.
fn outcomes_of(
    alloc: Global,
    replies: &[PlacedReply],
    row: &[Option<u64>],
) -> Result<Outcomes, NoMemory>
    requires { spec.Rise replies.now }
    ensures { IfOk result (λ outcomes. outcomes ≡ map (spec.outcome_among replies.now) row.now) }
{
    let mut outcomes = Vec::with_capacity(alloc, row.len())?;
    for known in row {
        outcomes.push(match *known {
            Some(place) => Outcome::Replied {
                place,
                words: Words::from_vec(reply_at(replies, place).to_vec(alloc)?),
            },
            None => Outcome::Unsent,
        })?;
    }
    Ok(Outcomes::from_vec(outcomes))
}

/// What the clients asked of a board, and what became of it.
fn parts_of(
    alloc: Global,
    plans: Vec<Planned>,
    replies: &[PlacedReply],
    rows: &[PlaceRow],
) -> Result<ClientParts, NoMemory>
    requires { spec.Rise replies.now }
    ensures { IfOk result (λ parts. parts ≡ spec.parts_among replies.now plans.items rows.now) }
{
    let mut parts = Vec::with_capacity(alloc, plans.len())?;
    let mut plans = plans.into_iter();
    for row in rows {
        let Some(planned) = plans.next() else {
            return Ok(ClientParts::from_vec(parts));
        };
        parts.push(ClientPart {
            planned,
            outcomes: outcomes_of(alloc, replies, row.places.as_slice())?,
            lates: Lates::from_vec(Vec::new(alloc)),
        })?;
    }
    Ok(ClientParts::from_vec(parts))
}

/// The bus that a board of this process opens with.
fn opening_bus(alloc: Global, link: &LinkSpec) -> Result<Bus, NoMemory>
    requires { IsLinkHere link.now }
    ensures { IfOk result (λ bus. bus ≡ opens_with link.now) }
{
    let LinkSpec::Sim { ranges, .. } = link else {
        unreachable!()
    };
    // The ranges open a bus, so only memory can be wanting.
    match Bus::new(alloc, ranges.as_slice()) {
        Ok(bus) => Ok(bus),
        Err(_refusal) => Err(NoMemory),
    }
}

/// The replies of the bus of a board to the bodies that have a place, by place.
fn shown_replies(
    alloc: Global,
    link: &LinkSpec,
    plans: &[Planned],
    rows: &[PlaceRow],
) -> Result<Vec<PlacedReply>, NoMemory>
    requires link { IsLinkHere link.now }
    requires short { AllByRecursion spec.HasShortBodies plans.now }
    ensures replies { IfOk result (λ replies.
        replies.items ≡ spec.replies_from (opens_with link.now) (by_place (spec.placed_in_rows plans.now rows.now))) }
    ensures rising { IfOk result (λ replies. spec.Rise replies.items) }
{
    let order = placed_in_order(alloc, plans, rows)?;
    replies_of(alloc, opening_bus(alloc, link)?, order.as_slice())
}

/// The run of a board on which the clients asked this, and of which these pieces are shown.
fn replayed_run(
    alloc: Global,
    board: &BoardSpec,
    plans: BoardPlans,
    pieces: &[PieceShown],
) -> Result<BoardRun, NoMemory>
    requires here { IsHere board.now }
    requires short { AllByRecursion spec.HasShortBodies plans }
    ensures { IfOk result (λ run. run ≡ spec.run_of board.now plans (map piece_kept pieces.now)) }
{
    let rows = rows_of(alloc, plans.as_slice(), pieces)?;
    let replies = shown_replies(alloc, &board.link, plans.as_slice(), rows.as_slice())?;
    Ok(BoardRun {
        name: Text::copy_of(alloc, board.name.as_str())?,
        greeting: greeting_of(&board.link),
        parts: parts_of(alloc, plans.into_vec(), replies.as_slice(), rows.as_slice())?,
    })
}

/// The pieces of one board that are shown with a place.
#[derive(Drop)]
struct BoardPieces {
    items: Vec<PieceShown>,
}

/// The pieces of each board, in board order.
fn all_pieces(
    alloc: Global,
    plans: &[BoardPlans],
    asked: &[AskedOp],
) -> Result<Vec<BoardPieces>, NoMemory>
    ensures { (boards : List SpecValue) (scripts : List (List Step)) (shown : Shown) →
        AreOf boards scripts shown plans.now (map asking asked.now) → IfOk result (λ all.
        map spec.pieces_in all.items ≡ spec.shown_from boards scripts (map asking asked.now) 0 plans.now) }
{
    let mut all = Vec::with_capacity(alloc, plans.len())?;
    for (board, _plans) in plans.iter().enumerate() {
        all.push(BoardPieces {
            items: shown_pieces(alloc, plans, asked, board)?,
        })?;
    }
    Ok(all)
}

/// The runs of boards on which the clients asked this, and of which these pieces are shown.
fn runs_of(
    alloc: Global,
    boards: &[BoardSpec],
    plans: Vec<BoardPlans>,
    pieces: &[BoardPieces],
) -> Result<Vec<BoardRun>, NoMemory>
    requires boards { AllByRecursion IsHere boards.now }
    requires short { AllByRecursion (AllByRecursion spec.HasShortBodies) plans.items }
    ensures { IfOk result (λ runs.
        runs.items ≡ spec.runs_among boards.now plans.items (map spec.pieces_in pieces.now)) }
{
    let mut runs = Vec::with_capacity(alloc, boards.len())?;
    let mut rest = plans.into_iter();
    for (i, board) in boards.iter().enumerate() {
        let Some(on_board) = rest.next() else {
            return Ok(runs);
        };
        let Some(shown) = pieces.get(i) else {
            return Ok(runs);
        };
        runs.push(replayed_run(alloc, board, on_board, shown.items.as_slice())?)?;
    }
    Ok(runs)
}

/// The runs of the boards as the lines of a session show them.
pub(crate) fn replayed_runs(
    alloc: Global,
    boards: &[BoardSpec],
    plans: Vec<BoardPlans>,
    asked: &[AskedOp],
) -> Result<Vec<BoardRun>, NoMemory>
    requires boards { AllByRecursion IsHere boards.now }
    requires short { AllByRecursion (AllByRecursion spec.HasShortBodies) plans.items }
    ensures { (scripts : List (List Step)) (shown : Shown) →
        AreOf boards.now scripts shown plans.items (map asking asked.now) → IfOk result (λ runs.
        runs.items ≡ replays_from boards.now scripts (map asking asked.now) 0 boards.now) }
{
    let pieces = all_pieces(alloc, plans.as_slice(), asked)?;
    runs_of(alloc, boards, plans, pieces.as_slice())
}
