//! Rules by an id that their patterns ask for, so that a name is compared with few of many.

ghost use Rattle.std.specs.Prelude.{◌≡◌, ℕ, List, [], ◌∷◌, ◌++◌, if◌then◌else◌, option_map, IfOk, OnOk};
ghost use Rattle.std.specs.BTreeMap.{get_by};
ghost use Rattle.std.specs.Cmp.Lexicographic.{slice_cmp};
ghost use Rattle.std.specs.Option.{option_map_or};
ghost use Rattle.std.specs.Ordering.{nat_cmp};
ghost use Rattle.std.specs.Str.{bytes_eq};
ghost use Rattle.std.specs.List.{filter};
ghost use Rattle.access_policy.specs.ById as spec;
ghost use Rattle.access_policy.specs.Candidates as of;

use crate::candidates::{Candidate, first_of_cut, is_of_cut};
use crate::deciding::said;
use crate::names::NamePart;
use crate::policy::{Access, ItemPattern};
use ipb_base::NoMemory;
use script_steps::Decision;
use std::alloc::Global;
use std::collections::BTreeMap;

/// Rules by the id that their patterns ask for at one place, and the others, which ask for none there.
#[derive(Drop)]
pub(crate) struct RulesById<'a> {
    place: usize,
    by_id: BTreeMap<&'a str, Vec<Candidate<'a>>>,
    others: Vec<Candidate<'a>>,
}

/// The id that the pattern of a rule asks for at a place.
fn id_at<'a>(candidate: &Candidate<'a>, place: usize) -> Option<&'a str>
    ensures { option_map (λ id. id.now) result ≡ spec.id_at place candidate.now }
{
    let rule = candidate.rule;
    match rule.pattern.items.as_slice().get(place) {
        Some(ItemPattern::Id(id)) => Some(id.as_str()),
        Some(ItemPattern::Indexed { id, index: _ }) => Some(id.as_str()),
        Some(ItemPattern::AnyIndex(id)) => Some(id.as_str()),
        Some(ItemPattern::Any) => None,
        None => None,
    }
}

/// Keeps a rule behind those that ask for its id.
fn keep_under<'a>(
    alloc: Global,
    by_id: &mut BTreeMap<&'a str, Vec<Candidate<'a>>>,
    id: &'a str,
    candidate: Candidate<'a>,
) -> Result<(), NoMemory>
    ensures { OnOk result ((asked : List ℕ)
        → option_map_or (λ found. found.items) (get_by (λ key. slice_cmp nat_cmp asked key.now) by_id.new) []
        ≡ option_map_or (λ found. found.items) (get_by (λ key. slice_cmp nat_cmp asked key.now) by_id.old) []
        ++ (if bytes_eq asked id.now then candidate.entry ∷ [] else [])) }
{
    by_id.entry(id)?.or_insert(Vec::new(alloc)).push(candidate)?;
    Ok(())
}

/// Some rules by the id that they ask for at a place.
fn by_id_at<'a>(
    alloc: Global,
    rules: &[Candidate<'a>],
    place: usize,
) -> Result<RulesById<'a>, NoMemory>
    ensures { IfOk result (spec.AreById rules.now) }
{
    let mut by_id = BTreeMap::new(alloc);
    let mut others = Vec::new(alloc);
    for candidate in rules {
        let copy = candidate.copy();
        match id_at(candidate, place) {
            Some(id) => keep_under(alloc, &mut by_id, id, copy)?,
            None => others.push(copy)?,
        }
    }
    Ok(RulesById {
        place,
        by_id,
        others,
    })
}

/// How many rules ask for another id than this at its place.
fn apart_at(rules: &[Candidate<'_>], place: usize, part: &NamePart<'_>) -> usize {
    let mut count: usize = 0;
    for candidate in rules {
        if let Some(id) = id_at(candidate, place)
            && id != part.id()
        {
            count = count.saturating_add(1);
        }
    }
    count
}

/// The place at which most rules ask for another id than a name has.
fn telling_place(rules: &[Candidate<'_>], parts: &[NamePart<'_>]) -> usize {
    let mut most: usize = 0;
    let mut best: usize = 0;
    for (place, part) in parts.iter().enumerate() {
        let count = apart_at(rules, place, part);
        if count > most {
            most = count;
            best = place;
        }
    }
    best
}

/// Some rules by the id that they ask for where most of them ask for another than this name has.
pub(crate) fn by_id_for<'a>(
    alloc: Global,
    rules: &[Candidate<'a>],
    parts: &[NamePart<'_>],
) -> Result<RulesById<'a>, NoMemory>
    ensures { IfOk result (spec.AreById rules.now) }
{
    by_id_at(alloc, rules, telling_place(rules, parts))
}

/// The first of some rules that speaks of an access.
fn found_in<'a>(
    rules: &[Candidate<'a>],
    parts: &[NamePart<'_>],
    access: Access,
) -> Option<Candidate<'a>>
    ensures { result ≡ spec.found_in access parts.now rules.now }
{
    for candidate in rules {
        if is_of_cut(candidate.rule, parts, access) {
            return Some(candidate.copy());
        }
    }
    None
}

/// The rule of the lower number.
fn lower<'a>(one: Option<Candidate<'a>>, other: Option<Candidate<'a>>) -> Option<Candidate<'a>>
    ensures { result ≡ spec.lower one.entry other.entry }
{
    match (one, other) {
        (None, other) => other,
        (Some(one), None) => Some(one),
        (Some(one), Some(other)) => {
            if other.number < one.number {
                Some(other)
            } else {
                Some(one)
            }
        }
    }
}

fn saying(found: Option<Candidate<'_>>) -> Decision
    ensures { result ≡ spec.saying found.entry }
{
    match found {
        Some(candidate) => said(candidate.number, candidate.rule.effect),
        None => Decision::Denied { rule: 0 },
    }
}

/// The first of the rules that ask for this id that speaks of an access.
fn own_found<'a>(
    sorted: &RulesById<'a>,
    id: &str,
    parts: &[NamePart<'_>],
    access: Access,
) -> Option<Candidate<'a>>
    ensures { (rules : List of.Numbered) → spec.AreById rules sorted.now
        → result ≡ spec.found_in access parts.now (filter (spec.asks_for sorted.now.place id.now) rules) }
{
    match sorted.by_id.get(id) {
        Some(own) => found_in(own.as_slice(), parts, access),
        None => None,
    }
}

/// What the first of rules that stand by their ids says that speaks of an access.
pub(crate) fn first_by_id(
    sorted: &RulesById<'_>,
    rules: &[Candidate<'_>],
    parts: &[NamePart<'_>],
    access: Access,
) -> Decision
    requires rising { spec.IsRisingFrom 1 rules.now }
    requires sorted { spec.AreById rules.now sorted.now }
    ensures { result ≡ of.first_of access parts.now rules.now }
{
    let Some(part) = parts.get(sorted.place) else {
        return first_of_cut(rules, parts, access);
    };
    let own = own_found(sorted, part.id(), parts, access);
    let other = found_in(sorted.others.as_slice(), parts, access);
    saying(lower(own, other))
}
