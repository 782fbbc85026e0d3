//! The keys of a rule: what is wrong with them, and what they say.

ghost use Rattle.std.specs.Prelude.{◌≡◌, [], ◌∷◌, codes, Some, slice_get, IfOk, IfErr, OnOk, MatchOption};
ghost use Rattle.std.specs.Prelude.{option_and_then, option_map};
ghost use Rattle.std.specs.Option.{unwrap_or};
ghost use Rattle.address_table.specs.Numbers.{number as number_of};
ghost use Rattle.toml.specs.Data.{get_member};
ghost use Rattle.toml.specs.View.{view, table_view};
ghost use Rattle.script_lang.specs.Fields.{text_at as text_there};
ghost use Rattle.script_lang.specs.declared.steps.PathStep.TheVariants.{Key};
ghost use Rattle.access_policy.specs.Cutting.{TellsFirst};
ghost use Rattle.access_policy.specs.Spelling.{pattern_of};
ghost use Rattle.access_policy.specs.Reading as spec;

use crate::patterns::pattern_in;
use crate::policy::{BoardPattern, Effect, ItemPatterns, Pattern, Rule};
use address_table::{Permission, number};
use ipb_base::{NoMemory, Text};
use script_lang::MAX_CLIENTS;
use std::alloc::Global;
use toml::{Table, Value};

/// Why a value is no rule: its first fault.
#[derive(Drop)]
pub(crate) enum Misfit {
    /// It is no table.
    AtRule,
    /// The value under this key, a key that no rule has, or one that is left out.
    AtKey(Text),
    NoMemory,
}

impl From<NoMemory> for Misfit {
    ghost use Rattle.access_policy.specs.declared.rule_keys.Misfit.TheVariants.{NoMemory as no_memory};

    ghost from_gives = { λ _ e. e ≡ no_memory };

    fn from(_error: NoMemory) -> Misfit {
        Misfit::NoMemory
    }
}

/// The effect of a word.
fn effect_named(word: &str) -> Option<Effect>
    ensures { result ≡ spec.effect_named word.now }
{
    if word == "allow" {
        Some(Effect::Allow)
    } else if word == "deny" {
        Some(Effect::Deny)
    } else {
        None
    }
}

/// The accesses of a word.
fn access_named(word: &str) -> Option<Permission>
    ensures { result ≡ spec.access_named word.now }
{
    if word == "r" {
        Some(Permission::R)
    } else if word == "w" {
        Some(Permission::W)
    } else if word == "rw" {
        Some(Permission::Rw)
    } else {
        None
    }
}

fn is_effect(value: &Value) -> bool
    ensures { result ≡ spec.is_effect (view value.now) }
{
    match value.as_str() {
        Some(word) => effect_named(word).is_some(),
        None => false,
    }
}

fn is_access(value: &Value) -> bool
    ensures { result ≡ spec.is_access (view value.now) }
{
    match value.as_str() {
        Some(word) => access_named(word).is_some(),
        None => false,
    }
}

fn is_client(value: &Value) -> bool
    ensures { result ≡ spec.is_client (view value.now) }
{
    match number(value) {
        Some(client) => 1 <= client && client <= MAX_CLIENTS as u32,
        None => false,
    }
}

fn is_pattern(alloc: Global, value: &Value) -> Result<bool, NoMemory>
    ensures { IfOk result (λ is. is ≡ spec.is_pattern (view value.now)) }
{
    match value.as_str() {
        Some(text) => Ok(pattern_in(alloc, text)?.is_some()),
        None => Ok(false),
    }
}

/// Whether a value may stand under a key of a rule.
fn may_stand(alloc: Global, key: &str, value: &Value) -> Result<bool, NoMemory>
    ensures { IfOk result (λ may. may ≡ spec.may_stand key.now (view value.now)) }
{
    if key == "access" {
        Ok(is_access(value))
    } else if key == "client" {
        Ok(is_client(value))
    } else if key == "effect" {
        Ok(is_effect(value))
    } else if key == "name" {
        is_pattern(alloc, value)
    } else {
        Ok(false)
    }
}

/// A fault at a key.
fn misfit_at(alloc: Global, key: &str) -> Misfit
    ensures { TellsFirst ((Key key.now ∷ []) ∷ []) result }
{
    match Text::copy_of(alloc, key) {
        Ok(key) => Misfit::AtKey(key),
        Err(NoMemory) => Misfit::NoMemory,
    }
}

/// The keys that are there.
fn check_keys(alloc: Global, members: &Table) -> Result<(), Misfit>
    ensures none { OnOk result (spec.keys_faults (table_view members.now) ≡ []) }
    ensures first { IfErr result (TellsFirst (spec.keys_faults (table_view members.now))) }
{
    for (key, value) in members.iter() {
        if !may_stand(alloc, key.as_str(), value)? {
            return Err(misfit_at(alloc, key.as_str()));
        }
    }
    Ok(())
}

/// The value under a key.
fn value_at<'a>(members: &'a Table, key: &str) -> Option<&'a Value>
    ensures { option_map (λ value. view value.now) result ≡ get_member key.now (table_view members.now) }
{
    members.get(key)
}

/// The first needed key that a rule does not have.
fn first_absent(members: &Table) -> Option<&'static str>
    ensures { let lacking = spec.absent_keys spec.needed_keys (table_view members.now) in
        MatchOption result (lacking ≡ []) (λ key. slice_get lacking 0 ≡ Some (Key key.now ∷ [])) }
{
    if value_at(members, "access").is_none() {
        return Some("access");
    }
    if value_at(members, "effect").is_none() {
        return Some("effect");
    }
    if value_at(members, "name").is_none() {
        return Some("name");
    }
    None
}

fn check_absent(alloc: Global, members: &Table) -> Result<(), Misfit>
    ensures none { OnOk result (spec.absent_keys spec.needed_keys (table_view members.now) ≡ []) }
    ensures first { IfErr result (TellsFirst (spec.absent_keys spec.needed_keys (table_view members.now))) }
{
    match first_absent(members) {
        Some(key) => Err(misfit_at(alloc, key)),
        None => Ok(()),
    }
}

/// The first fault of a value in the place of a rule.
pub(crate) fn check_rule(alloc: Global, value: &Value) -> Result<(), Misfit>
    ensures none { OnOk result (spec.rule_faults (view value.now) ≡ []) }
    ensures first { IfErr result (TellsFirst (spec.rule_faults (view value.now))) }
{
    let Some(members) = value.as_table() else {
        return Err(Misfit::AtRule);
    };
    check_keys(alloc, members)?;
    check_absent(alloc, members)
}

/// The text under a key, empty where it is left out.
fn text_at<'a>(members: &'a Table, key: &str) -> &'a str
    ensures { result.now ≡ text_there key.now (table_view members.now) }
{
    match value_at(members, key) {
        Some(value) => value.as_str().unwrap_or(""),
        None => "",
    }
}

/// The pattern of a rule.
fn pattern_at(alloc: Global, members: &Table) -> Result<Pattern, NoMemory>
    ensures { IfOk result (λ pattern. pattern
        ≡ unwrap_or (pattern_of (text_there (codes "name") (table_view members.now))) spec.no_pattern) }
{
    match pattern_in(alloc, text_at(members, "name"))? {
        Some(pattern) => Ok(pattern),
        None => Ok(Pattern {
            board: BoardPattern::Any,
            items: ItemPatterns::from_vec(Vec::new(alloc)),
            rest: false,
        }),
    }
}

/// The client of a rule.
fn client_at(members: &Table) -> Option<u32>
    ensures { result ≡ option_and_then number_of (get_member (codes "client") (table_view members.now)) }
{
    number(value_at(members, "client")?)
}

/// The rule that a table without faults stands for.
pub(crate) fn rule_of(alloc: Global, members: &Table) -> Result<Rule, NoMemory>
    ensures { IfOk result (λ rule. rule ≡ spec.rule_of (table_view members.now)) }
{
    Ok(Rule {
        effect: effect_named(text_at(members, "effect")).unwrap_or(Effect::Deny),
        access: access_named(text_at(members, "access")).unwrap_or(Permission::Rw),
        pattern: pattern_at(alloc, members)?,
        client: client_at(members),
    })
}
