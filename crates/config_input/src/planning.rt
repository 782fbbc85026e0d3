//! The steps of a script that a command makes.

ghost use Rattle.std.specs.Prelude.{◌≡◌, ◌≤◌, [], ◌∷◌, IfOk, IfErr, OnOk, length};
ghost use Rattle.std.specs.List.{AllByRecursion};
ghost use Rattle.access_policy.specs.Decisions.{names_of, ruled_scripts};
ghost use Rattle.script_lang.specs.Limits.{IsWithin};
ghost use Rattle.script_lang.specs.Scripts.{script_faults, steps_of};
ghost use Rattle.script_lang.specs.declared.refusal.TheConstants.{MAX_BOARDS};
ghost use Rattle.script_lang.specs.declared.script_refusal.TheConstants.{MAX_LINES};
ghost use Rattle.script_steps.specs.Packing.{AreWithinLimits, CanBePacked, HaveFewPieces};
ghost use Rattle.session_input.specs.Deserved.{TellsLine};
ghost use Rattle.config_input.specs.Deserved as spec;

use crate::refusal::ConfigUnread;
use access_policy::Policy;
use ipb_base::{NoMemory, Text};
use node_tree::Index;
use script_lang::{Script, ScriptRefusal, Scripts, Session, compile_scripts};
use script_steps::Steps;
use script_steps::laws::what_is_denied_asks_for_less;
use session_input::{Runnable, compiled, under_policy};
use std::alloc::Global;

/// The scripts of one client with these lines.
fn one_script(alloc: Global, lines: Vec<Text>) -> Result<Scripts, NoMemory>
    ensures { IfOk result (λ scripts. scripts ≡ lines.items ∷ []) }
{
    let mut scripts = Vec::new(alloc);
    scripts.push(Script::from_vec(lines))?;
    Ok(Scripts::from_vec(scripts))
}

/// A session, and the steps of these lines in place of its scripts. No line has a fault.
fn steps_of_lines(
    alloc: Global,
    session: Session,
    indexes: &[Index],
    lines: Vec<Text>,
) -> Result<Runnable, NoMemory>
    requires boards { length session.boards ≤ MAX_BOARDS }
    requires faultless { script_faults session.boards indexes.now (lines.items ∷ []) ≡ [] }
    ensures session { IfOk result (λ read. read.session ≡ session) }
    ensures meant { IfOk result (λ read. read.steps.items ≡ steps_of session.boards indexes.now (lines.items ∷ [])) }
    ensures alone { IfOk result (λ read. length read.steps.items ≡ 1) }
    ensures packed { IfOk result (λ read. AllByRecursion (AllByRecursion CanBePacked) read.steps.items) }
    ensures few { IfOk result (λ read. AllByRecursion HaveFewPieces read.steps.items) }
    ensures limits { IfOk result (λ read. AreWithinLimits read.steps.items) }
    ensures short { IfOk result (λ read. AllByRecursion (λ steps. length steps ≤ MAX_LINES) read.steps.items) }
{
    let Session {
        settings,
        tables,
        boards,
        scripts: own,
    } = session;
    let scripts = one_script(alloc, lines)?;
    let asked = Session {
        settings,
        tables,
        boards,
        scripts,
    };
    match compile_scripts(alloc, &asked, indexes) {
        Ok(steps) => {
            let Session {
                settings,
                tables,
                boards,
                ..
            } = asked;
            let session = Session {
                settings,
                tables,
                boards,
                scripts: own,
            };
            Ok(Runnable { session, steps })
        }
        Err(ScriptRefusal::At { .. }) => unreachable!(),
        Err(ScriptRefusal::NoMemory) => Err(NoMemory),
    }
}

/// A session, and under its policy the steps of these lines in place of its scripts, which are judged too. Refused is
/// the first faulty line of its own scripts; of these lines none has a fault.
pub(crate) fn planned(
    alloc: Global,
    session: Session,
    policy: Option<Policy>,
    indexes: &[Index],
    lines: Vec<Text>,
) -> Result<Runnable, ConfigUnread>
    requires within { IsWithin session }
    requires faultless { script_faults session.boards indexes.now (lines.items ∷ []) ≡ [] }
    ensures session { IfOk result (λ read. read.session ≡ session) }
    ensures own { OnOk result (script_faults session.boards indexes.now session.scripts ≡ []) }
    ensures meant { IfOk result (λ read. read.steps.items ≡ ruled_scripts policy (names_of session.boards)
        (steps_of session.boards indexes.now (lines.items ∷ []))) }
    ensures refused { IfErr result (spec.Tells
        (spec.TellsSession (TellsLine (script_faults session.boards indexes.now session.scripts)))) }
    ensures alone { IfOk result (λ read. length read.steps.items ≡ 1) }
    ensures packed { IfOk result (λ read. AllByRecursion (AllByRecursion CanBePacked) read.steps.items) }
    ensures few { IfOk result (λ read. AllByRecursion HaveFewPieces read.steps.items) }
    ensures limits { IfOk result (λ read. AreWithinLimits read.steps.items) }
    ensures short { IfOk result (λ read. AllByRecursion (λ steps. length steps ≤ MAX_LINES) read.steps.items) }
{
    what_is_denied_asks_for_less();
    compiled(alloc, &session, indexes)?;
    let Runnable { session, steps } = steps_of_lines(alloc, session, indexes, lines)?;
    let steps = under_policy(alloc, &session, policy, steps)?;
    Ok(Runnable { session, steps })
}
