//! What a policy says of the steps of clients: the rules of a client on each board are found once.

ghost use Rattle.std.specs.Prelude.{◌≡◌, ◌≤◌, Some, length, map, IfOk, OnOk};
ghost use Rattle.script_lang.specs.declared.refusal.TheConstants.{MAX_CLIENTS};
ghost use Rattle.access_policy.specs.Candidates as of;
ghost use Rattle.access_policy.specs.Decisions as spec;

use crate::candidates::Candidate;
use crate::deciding::{client_matches, needs_of};
use crate::judging::Judge;
use crate::matching::board_matches;
use crate::policy::{Policy, Rule};
use board_specs::BoardSpec;
use ipb_base::NoMemory;
use script_lang::Session;
use script_steps::{Decision, RegOp, Step, Steps};
use std::alloc::Global;

/// What a policy says of the steps of a client of a session (profile), step by step: a dispatch is allowed, and an
/// operation that was denied before is judged as if it were not.
pub fn permit(
    alloc: Global,
    policy: &Policy,
    client: u32,
    session: &Session,
    steps: &[Step],
) -> Result<Vec<Decision>, NoMemory>
    ensures { let boards = spec.names_of session.now.boards in
        IfOk result (λ said. said.items ≡ spec.decisions policy.now client boards steps.now) }
{
    let mut judges = judges_of_boards(alloc, policy, client, session.boards.as_slice())?;
    let mut said = Vec::with_capacity(alloc, steps.len())?;
    for step in steps {
        said.push(step_decision(alloc, &mut judges, step)?)?;
    }
    Ok(said)
}

/// Puts the steps of each client of a session, client 1 first, under a policy (profile). Where there is not enough
/// memory, the steps of some clients may be under it.
#[tactic(auto, using(crate::proofs::RuledScripts::ruled_to_the_end))]
pub fn rule_scripts(
    alloc: Global,
    policy: &Policy,
    session: &Session,
    scripts: &mut [Steps],
) -> Result<(), NoMemory>
    requires clients { length scripts.old ≤ MAX_CLIENTS }
    ensures { let boards = spec.names_of session.now.boards in
        OnOk result (scripts.new ≡ spec.ruled_scripts (Some policy.now) boards scripts.old) }
{
    for i in 0..scripts.len() {
        let script = &mut scripts[i];
        let said = permit(alloc, policy, i as u32 + 1, session, script.as_slice())?;
        script.rule(said.as_slice());
    }
    Ok(())
}

/// The rules that speak of a client, for each board.
fn judges_of_boards<'a>(
    alloc: Global,
    policy: &'a Policy,
    client: u32,
    boards: &[BoardSpec],
) -> Result<Vec<Judge<'a>>, NoMemory>
    ensures { IfOk result (λ judges. judges.items
        ≡ map (of.candidates_from 1 policy.now client) (spec.names_of boards.now)) }
{
    let mut all = Vec::with_capacity(alloc, boards.len())?;
    for board in boards {
        all.push(judge_of(alloc, policy, client, board.name.as_str())?)?;
    }
    Ok(all)
}

/// The rules that speak of a client and a board.
fn judge_of<'a>(
    alloc: Global,
    policy: &'a Policy,
    client: u32,
    board: &str,
) -> Result<Judge<'a>, NoMemory>
    ensures { IfOk result (λ judge. judge ≡ of.candidates_from 1 policy.now client board.now) }
{
    let mut items = Vec::new(alloc);
    for (i, rule) in policy.as_slice().iter().enumerate() {
        if concerns(rule, client, board) {
            items.push(Candidate {
                number: i as u32 + 1,
                rule,
            })?;
        }
    }
    Ok(Judge::of(alloc, items))
}

/// Whether a rule speaks of a client and a board.
fn concerns(rule: &Rule, client: u32, board: &str) -> bool
    ensures { result ≡ of.concerns client board.now rule.now }
{
    client_matches(rule.client, client) && board_matches(&rule.pattern.board, board)
}

fn step_decision<'a>(
    alloc: Global,
    judges: &mut [Judge<'a>],
    step: &'a Step,
) -> Result<Decision, NoMemory>
    ensures same { judges.new ≡ judges.old }
    ensures said { IfOk result (λ decision. decision ≡ of.step_said judges.old step.now) }
{
    match step {
        Step::Do(op) => op_decision(alloc, judges, op),
        Step::Denied { rule: _, op } => op_decision(alloc, judges, op),
        Step::Dispatch => Ok(Decision::Allowed),
    }
}

fn op_decision<'a>(
    alloc: Global,
    judges: &mut [Judge<'a>],
    op: &'a RegOp,
) -> Result<Decision, NoMemory>
    ensures same { judges.new ≡ judges.old }
    ensures said { IfOk result (λ decision. decision ≡ of.op_said judges.old op.now) }
{
    let board = op.board as usize;
    if board >= judges.len() {
        return Ok(Decision::Denied { rule: 0 });
    }
    let judge = &mut judges[board];
    judge.says(alloc, op.name.as_str(), needs_of(op.verb))
}
