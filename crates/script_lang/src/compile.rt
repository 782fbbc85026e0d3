//! Scripts as steps.

ghost use Rattle.std.specs.Prelude.{◌≡◌, ◌≤◌, ◌+◌, [], false, true, length, slice_get, Ok, IfOk, IfErr, OnOk, IfSome};
ghost use Rattle.std.specs.List.{AllByRecursion};
ghost use Rattle.node_tree.specs.Maps.{IsRegister};
ghost use Rattle.script_lang.specs.Lines.{takes};
ghost use Rattle.script_steps.specs.Packing.{AreWithinLimits, CanBePacked, HaveFewPieces};
ghost use Rattle.script_lang.specs.Operations as op;
ghost use Rattle.script_lang.specs.Scripts as spec;
ghost use Rattle.script_lang.specs.Tallies.{line_run, run_from, run_all, nothing, StopsAs};
ghost use Rattle.script_lang.specs.declared.refusal.TheConstants.{MAX_BOARDS, MAX_CLIENTS};
ghost use Rattle.script_lang.specs.declared.script_refusal.TheConstants.{MAX_LINES};

use crate::call::{Call, Command};
use crate::command::command;
use crate::script_refusal::{ScriptRefusal, ScriptWhy};
use crate::session::{Script, Session};
use crate::tally::{Tally, with_step};
use crate::using::use_of;
use board_specs::BoardSpec;
use ipb_base::{NoMemory, Text};
use node_tree::{Index, Register};
use script_steps::{Step, Steps};
use std::alloc::Global;

/// Compiles the scripts of a session (uHAL; the limits are the profile's), by one index for each board, in the boards'
/// order: the steps of each client, or the first faulty line and the first rule that it breaks. A board without an
/// index knows no register.
pub fn compile_scripts(
    alloc: Global,
    session: &Session,
    indexes: &[Index],
) -> Result<Vec<Steps>, ScriptRefusal>
    requires boards { length session.now.boards ≤ MAX_BOARDS }
    requires clients { length session.now.scripts ≤ MAX_CLIENTS }
    ensures steps { let steps = spec.steps_of session.now.boards indexes.now session.now.scripts in
        IfOk result (λ all. all.items ≡ steps) }
    ensures accepted { OnOk result (spec.script_faults session.now.boards indexes.now session.now.scripts ≡ []) }
    ensures refused { let faults = spec.script_faults session.now.boards indexes.now session.now.scripts in
        IfErr result (spec.TellsLine (slice_get faults 0)) }
    // Each operation can be packed, whatever packets its board takes, and those of a client are few enough.
    ensures packed { IfOk result (λ all. AllByRecursion (AllByRecursion CanBePacked) all.items) }
    ensures few { IfOk result (λ all. AllByRecursion HaveFewPieces all.items) }
    ensures limits { IfOk result (λ all. AreWithinLimits all.items) }
    ensures short { IfOk result (λ all. AllByRecursion (λ steps. length steps ≤ MAX_LINES) all.items) }
{
    let boards = session.boards.as_slice();
    let scripts = session.scripts.as_slice();
    all_steps(alloc, boards, indexes, scripts)
}

/// The position of the first board of a name.
fn board_at(boards: &[BoardSpec], name: &[u8]) -> Option<u32>
    requires { length boards.now ≤ MAX_BOARDS }
    ensures { result ≡ op.board_from 0 name.now boards.now }
{
    for (i, board) in boards.iter().enumerate() {
        if board.name.as_slice() == name {
            return Some(i as u32);
        }
    }
    None
}

/// The register of a name, in the index of the board at a position.
fn register_at(indexes: &[Index], board: u32, name: &str) -> Option<Register>
    ensures found { result ≡ op.register_at indexes.now board name.now }
    ensures register { IfSome result IsRegister }
{
    let index = indexes.get(board as usize)?;
    index.find(name)
}

/// What is asked of a register.
fn asked(
    alloc: Global,
    boards: &[BoardSpec],
    indexes: &[Index],
    line: u32,
    call: Call,
) -> Result<Result<Option<Step>, ScriptWhy>, NoMemory>
    requires few { length boards.now ≤ MAX_BOARDS }
    requires taken { takes call.verb call.numbers ≡ true }
    ensures step { IfOk result (λ step. step ≡ op.step_asked boards.now indexes.now line call.entry) }
    ensures packed { IfOk result (λ step. IfOk step (λ step. IfSome step CanBePacked)) }
{
    let Some(board) = board_at(boards, call.board.as_str().as_bytes()) else {
        return Ok(Err(ScriptWhy::UnknownBoard));
    };
    let Some(register) = register_at(indexes, board, call.name.as_str()) else {
        return Ok(Err(ScriptWhy::UnknownName));
    };
    match use_of(alloc, line, board, call, &register)? {
        Ok(op) => Ok(Ok(Some(Step::Do(op)))),
        Err(why) => Ok(Err(why)),
    }
}

/// What a line means: nothing or a step, or the first of the rules on single lines that it breaks.
fn meaning(
    alloc: Global,
    boards: &[BoardSpec],
    indexes: &[Index],
    line: u32,
    text: &str,
) -> Result<Result<Option<Step>, ScriptWhy>, NoMemory>
    requires { length boards.now ≤ MAX_BOARDS }
    ensures meaning { IfOk result (λ meaning. meaning ≡ op.meaning boards.now indexes.now line text.now) }
    ensures packed { IfOk result (λ meaning. IfOk meaning (λ step. IfSome step CanBePacked)) }
{
    match command(alloc, text) {
        Ok(None) => Ok(Err(ScriptWhy::BadLine)),
        Ok(Some(Command::Nothing)) => Ok(Ok(None)),
        Ok(Some(Command::Dispatch)) => Ok(Ok(Some(Step::Dispatch))),
        Ok(Some(Command::Ask(call))) => asked(alloc, boards, indexes, line, call),
        Err(NoMemory) => Err(NoMemory),
    }
}

/// The step of a line, and the tally with it.
fn next_step(
    alloc: Global,
    boards: &[BoardSpec],
    indexes: &[Index],
    client: u32,
    line: u32,
    text: &str,
    tally: Tally,
) -> Result<(Option<Step>, Tally), ScriptRefusal>
    requires few { length boards.now ≤ MAX_BOARDS }
    requires within { spec.is_over tally ≡ false }
    ensures next { let run = line_run client line tally (op.meaning boards.now indexes.now line text.now) in
        IfOk result (λ next. run ≡ Ok next) }
    ensures within { IfOk result (λ next. spec.is_over next.1 ≡ false) }
    ensures counted { IfOk result (λ next. next.1.lines ≡ tally.lines + 1) }
    ensures packed { IfOk result (λ next. IfSome next.0 CanBePacked) }
    ensures stopped { let run = line_run client line tally (op.meaning boards.now indexes.now line text.now) in
        IfErr result (StopsAs run) }
{
    match meaning(alloc, boards, indexes, line, text) {
        Ok(Ok(step)) => match with_step(tally, &step) {
            Some(next) => Ok((step, next)),
            None => Err(ScriptRefusal::At {
                client,
                line,
                why: ScriptWhy::TooMany,
            }),
        },
        Ok(Err(why)) => Err(ScriptRefusal::At { client, line, why }),
        Err(NoMemory) => Err(ScriptRefusal::NoMemory),
    }
}

/// The steps of one client, and the tally with its lines.
fn script_steps(
    alloc: Global,
    boards: &[BoardSpec],
    indexes: &[Index],
    client: u32,
    lines: &[Text],
    tally: Tally,
) -> Result<(Steps, Tally), ScriptRefusal>
    requires few { length boards.now ≤ MAX_BOARDS }
    requires within { spec.is_over tally ≡ false }
    ensures run { let run = run_from boards.now indexes.now client tally 1 lines.now in
        IfOk result (λ done. run ≡ Ok done) }
    ensures within { IfOk result (λ done. spec.is_over done.1 ≡ false) }
    ensures packed { IfOk result (λ done. AllByRecursion CanBePacked done.0) }
    ensures stopped { IfErr result (StopsAs (run_from boards.now indexes.now client tally 1 lines.now)) }
{
    let mut steps = Vec::with_capacity(alloc, lines.len())?;
    let mut so_far = tally;
    for (i, line) in lines.iter().enumerate() {
        let number = i as u32 + 1;
        let text = line.as_str();
        let (step, next) = next_step(alloc, boards, indexes, client, number, text, so_far)?;
        so_far = next;
        if let Some(step) = step {
            steps.push(step)?;
        }
    }
    Ok((Steps::from_vec(steps), so_far))
}

/// The steps of all clients.
fn all_steps(
    alloc: Global,
    boards: &[BoardSpec],
    indexes: &[Index],
    scripts: &[Script],
) -> Result<Vec<Steps>, ScriptRefusal>
    requires few { length boards.now ≤ MAX_BOARDS }
    requires clients { length scripts.now ≤ MAX_CLIENTS }
    ensures run { IfOk result (λ all. run_all boards.now indexes.now 1 nothing scripts.now ≡ Ok all.items) }
    ensures packed { IfOk result (λ all. AllByRecursion (AllByRecursion CanBePacked) all.items) }
    ensures stopped { IfErr result (StopsAs (run_all boards.now indexes.now 1 nothing scripts.now)) }
{
    let mut all = Vec::with_capacity(alloc, scripts.len())?;
    let mut tally = Tally {
        lines: 0,
        operations: 0,
        words: 0,
    };
    for (i, script) in scripts.iter().enumerate() {
        let client = i as u32 + 1;
        let (steps, next) = script_steps(alloc, boards, indexes, client, script.as_slice(), tally)?;
        tally = next;
        all.push(steps)?;
    }
    Ok(all)
}
