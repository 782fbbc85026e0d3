//! The value of a policy, as a document writes it.

ghost use Rattle.std.specs.Prelude.{◌≡◌, ◌≤◌, [], ◌∷◌, List, length, map, IfOk, IfErr, OnOk};
ghost use Rattle.toml.specs.View.{view};
ghost use Rattle.script_lang.specs.Fields.{tables_in};
ghost use Rattle.script_lang.specs.Paths.{path};
ghost use Rattle.script_lang.specs.Walk.{Way, below, here};
ghost use Rattle.script_lang.specs.declared.steps.PathStep.TheVariants.{Key, Item};
ghost use Rattle.access_policy.specs.Cutting.{TellsFirst, refusal_of};
ghost use Rattle.access_policy.specs.Reading as spec;
ghost use Rattle.access_policy.specs.declared.limits.TheConstants.{MAX_RULES as MAX};

use crate::policy::{Policy, Rule};
use crate::refusal::PolicyRefusal;
use crate::rule_keys::{Misfit, check_rule, rule_of};
use crate::{MAX_RULES, NoMemory, Text};
use std::alloc::Global;
use toml::Value;

/// Reads the value of the key `policy` of a session document (profile): the rules that it stands for, or the path of
/// its first fault.
pub fn read_policy(alloc: Global, value: &Value) -> Result<Policy, PolicyRefusal>
    ensures policy { IfOk result (λ policy. policy ≡ spec.policy_of (view value.now)) }
    ensures faultless { OnOk result (spec.policy_faults (view value.now) ≡ []) }
    ensures refused { IfErr result (spec.TellsShape (spec.policy_faults (view value.now))) }
{
    let Some(items) = value.as_array() else {
        return Err(refused_whole(alloc));
    };
    let items = items.as_slice();
    if items.len() > MAX_RULES {
        return Err(refused_whole(alloc));
    }
    read_rules(alloc, items)
}

/// The policy of few enough values.
fn read_rules(alloc: Global, items: &[Value]) -> Result<Policy, PolicyRefusal>
    requires few { length items.now ≤ MAX }
    ensures policy { IfOk result (λ policy. policy ≡ tables_in spec.rule_of (map view items.now)) }
    ensures faultless { OnOk result (spec.rules_faults 0 (map view items.now) ≡ []) }
    ensures refused { IfErr result (spec.TellsShape (spec.rules_faults 0 (map view items.now))) }
{
    check_rules(alloc, items)?;
    Ok(Policy::from_vec(rules(alloc, items)?))
}

/// A refusal of the policy as a whole.
fn refused_whole(alloc: Global) -> PolicyRefusal
    ensures { spec.TellsShape here result }
{
    PolicyRefusal::Shape {
        path: Text::from_string(String::new(alloc)),
    }
}

/// A refusal of the rule at a position.
fn refused_at(alloc: Global, position: u64, misfit: Misfit) -> PolicyRefusal
    ensures { (ways : List Way) → TellsFirst ways misfit → spec.TellsShape (below (Item position) ways) result }
{
    match misfit {
        Misfit::AtRule => refusal(rule_path(alloc, position)),
        Misfit::AtKey(key) => refusal(key_path(alloc, position, key.as_str())),
        Misfit::NoMemory => PolicyRefusal::NoMemory,
    }
}

/// A refusal at a path.
fn refusal(path: Result<Text, NoMemory>) -> PolicyRefusal
    ensures { result ≡ refusal_of path }
{
    match path {
        Ok(path) => PolicyRefusal::Shape { path },
        Err(NoMemory) => PolicyRefusal::NoMemory,
    }
}

/// The path of the rule at a position.
fn rule_path(alloc: Global, position: u64) -> Result<Text, NoMemory>
    ensures { IfOk result (λ text. text ≡ path (Item position ∷ [])) }
{
    Ok(Text::from_string(format!(in alloc; "{position}")?))
}

/// The path of a key of the rule at a position.
fn key_path(alloc: Global, position: u64, key: &str) -> Result<Text, NoMemory>
    ensures { IfOk result (λ text. text ≡ path (Item position ∷ Key key.now ∷ [])) }
{
    Ok(Text::from_string(format!(in alloc; "{position}.{key}")?))
}

/// The first fault of the rules.
fn check_rules(alloc: Global, items: &[Value]) -> Result<(), PolicyRefusal>
    ensures none { OnOk result (spec.rules_faults 0 (map view items.now) ≡ []) }
    ensures first { IfErr result (spec.TellsShape (spec.rules_faults 0 (map view items.now))) }
{
    for (i, item) in items.iter().enumerate() {
        match check_rule(alloc, item) {
            Ok(()) => {}
            Err(misfit) => return Err(refused_at(alloc, i as u64, misfit)),
        }
    }
    Ok(())
}

/// The rules of values without faults.
fn rules(alloc: Global, items: &[Value]) -> Result<Vec<Rule>, NoMemory>
    ensures rules { IfOk result (λ rules. rules.items ≡ tables_in spec.rule_of (map view items.now)) }
    ensures few { IfOk result (λ rules. length rules.items ≤ length items.now) }
{
    let mut rules = Vec::with_capacity(alloc, items.len())?;
    for item in items {
        if let Some(members) = item.as_table() {
            rules.push(rule_of(alloc, members)?)?;
        }
    }
    Ok(rules)
}
