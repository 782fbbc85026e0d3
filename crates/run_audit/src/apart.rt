//! Lines that tell different things of one body.

ghost use Rattle.std.specs.Prelude.{◌≡◌, ◌≢◌, ℕ, IfOk, OnOk, Some, map, unwrap_or};
ghost use Rattle.std.specs.Option.{ForSome};
ghost use Rattle.transcript_reader.specs.declared.shown.Shown.{Shown};
ghost use Rattle.run_audit.specs.Agreeing.{IsApartAt};
ghost use Rattle.run_audit.specs.Apart as spec;
ghost use Rattle.run_audit.specs.Replaying.{AreReplayed};
ghost use Rattle.run_audit.specs.Steps.{IsFirstBroken, asking};

use crate::agreeing::fate_in;
use crate::asking::AskedOp;
use crate::fate::Fate;
use crate::run_pieces::pieces_in;
use ipb_base::NoMemory;
use script_lang::Session;
use script_plans::BoardRun;
use script_steps::Steps;
use std::alloc::Global;
use std::collections::BTreeMap;

/// A body: its board, its client, and its number among the bodies of that client there.
type BodyAt = (u32, usize, usize);

/// What was told first of the bodies of a client on a board.
type Row = Vec<Option<Fate>>;

/// What was told first of bodies, by their boards and clients.
type Fates = BTreeMap<(u32, usize), Row>;

/// The body of an operation that has one piece.
fn body_in(runs: &[BoardRun], asked: &AskedOp) -> Option<BodyAt>
    ensures { result ≡ spec.body_in runs.now (asking asked.now) }
{
    match pieces_in(runs, asked) {
        [piece] => Some((asked.op.board, asked.client, piece.body)),
        _ => None,
    }
}

/// What was told first of the body of this number: this, where nothing was told of it before.
fn first_in(row: &mut Row, body: usize, fate: Fate) -> Result<Fate, NoMemory>
    ensures first { IfOk result (λ first. first ≡ unwrap_or (spec.fate_in row.old.items body) fate) }
    ensures here { IfOk result (λ first. spec.fate_in row.new.items body ≡ Some first) }
    ensures others { OnOk result ((other : ℕ) → other ≢ body →
        spec.fate_in row.new.items other ≡ spec.fate_in row.old.items other) }
{
    if body >= row.len() {
        row.resize(body.checked_add(1).ok_or(NoMemory)?, None)?;
    }
    let first = row[body].unwrap_or(fate);
    row[body] = Some(first);
    Ok(first)
}

/// What was told first of a body: this, where nothing was told of it before. `last` is a body with what was told of it.
fn first_told(
    alloc: Global,
    told: &mut Fates,
    last: Option<(BodyAt, Fate)>,
    body: BodyAt,
    fate: Fate,
) -> Result<Fate, NoMemory>
    requires { ForSome last (λ last. spec.fate_of told.old last.0 ≡ Some last.1) }
    ensures first { IfOk result (λ first. first ≡ unwrap_or (spec.fate_of told.old body) fate) }
    ensures here { IfOk result (λ first. spec.fate_of told.new body ≡ Some first) }
    ensures others { OnOk result ((other : spec.Body) → other ≢ body →
        spec.fate_of told.new other ≡ spec.fate_of told.old other) }
{
    // operations of one body mostly stand one behind the other
    if let Some((known, first)) = last
        && known == body
    {
        return Ok(first);
    }
    let (board, client, number) = body;
    let mut row = told.remove(&(board, client)).unwrap_or(Vec::new(alloc));
    let first = first_in(&mut row, number, fate)?;
    told.insert((board, client), row)?;
    Ok(first)
}

/// The first line that tells another thing of its body than a line before it.
pub(crate) fn first_apart(
    alloc: Global,
    session: &Session,
    scripts: &[Steps],
    runs: &[BoardRun],
    asked: &[AskedOp],
) -> Result<Option<u32>, NoMemory>
    ensures { (shown : Shown) →
        AreReplayed session.now.boards scripts.now shown runs.now (map asking asked.now) →
        IfOk result (IsFirstBroken (IsApartAt session.now.boards scripts.now (map asking asked.now))) }
{
    let mut told = BTreeMap::new(alloc);
    let mut last = None;
    for ask in asked {
        let Some(body) = body_in(runs, ask) else {
            continue;
        };
        let shown = ask.shown;
        let fate = fate_in(&shown.result);
        if first_told(alloc, &mut told, last, body, fate)? != fate {
            return Ok(Some(ask.line));
        }
        last = Some((body, fate));
    }
    Ok(None)
}
