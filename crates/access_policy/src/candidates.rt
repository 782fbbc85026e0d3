//! Rules with their numbers, and the first of them that speaks of an access.

ghost use Rattle.std.specs.Prelude.{◌≡◌};
ghost use Rattle.access_policy.specs.Candidates as of;
ghost use Rattle.access_policy.specs.Names.{items_of};

use crate::deciding::{has_access, said};
use crate::matching::{name_matches, parts_match};
use crate::names::NamePart;
use crate::policy::{Access, Rule};
use script_steps::Decision;
use std::marker::Model;

/// A rule and its number.
#[derive(Drop)]
pub(crate) struct Candidate<'a> {
    pub(crate) number: u32,
    pub(crate) rule: &'a Rule,
}

impl<'a> Model for Candidate<'a> {
    ghost use Rattle.access_policy.specs.Candidates.{Numbered};

    ghost Value = { Numbered };

    ghost view = { λ candidate. record { number = candidate.number; rule = candidate.rule.now } };
}

impl<'a> Candidate<'a> {
    pub(crate) fn copy(&self) -> Candidate<'a>
        ensures { result ≡ self.now }
    {
        Candidate {
            number: self.number,
            rule: self.rule,
        }
    }
}

/// The first rule whose pattern fits a name as it is written, and what it decides of this access.
pub(crate) fn first_of_written(rules: &[Candidate<'_>], name: &str, access: Access) -> Decision
    ensures { result ≡ of.first_of access (items_of name.now) rules.now }
{
    for candidate in rules {
        let rule = candidate.rule;
        if is_of_written(rule, name, access) {
            return said(candidate.number, rule.effect);
        }
    }
    Decision::Denied { rule: 0 }
}

/// The first rule whose pattern fits a name that is cut into parts, and what it decides of this access.
pub(crate) fn first_of_cut(
    rules: &[Candidate<'_>],
    parts: &[NamePart<'_>],
    access: Access,
) -> Decision
    ensures { result ≡ of.first_of access parts.now rules.now }
{
    for candidate in rules {
        let rule = candidate.rule;
        if is_of_cut(rule, parts, access) {
            return said(candidate.number, rule.effect);
        }
    }
    Decision::Denied { rule: 0 }
}

/// Whether a rule speaks of an access to a register, by its name as it is written.
fn is_of_written(rule: &Rule, name: &str, access: Access) -> bool
    ensures { result ≡ of.is_of access (items_of name.now) rule.now }
{
    let pattern = &rule.pattern;
    has_access(rule.access, access) && name_matches(pattern.items.as_slice(), pattern.rest, name)
}

/// Whether a rule fits a name that is cut into parts, and speaks of this access.
pub(crate) fn is_of_cut(rule: &Rule, parts: &[NamePart<'_>], access: Access) -> bool
    ensures { result ≡ of.is_of access parts.now rule.now }
{
    let pattern = &rule.pattern;
    has_access(rule.access, access) && parts_match(pattern.items.as_slice(), pattern.rest, parts)
}
