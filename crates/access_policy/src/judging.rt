//! What the rules of a client on a board say of names. The names of a script mostly come again: each is judged once for
//! each access, and what was said is kept. Where there are many rules, a name is cut once for all of them.

ghost use Rattle.std.specs.Prelude.{◌≡◌, List, IfOk, IfSome};
ghost use Rattle.access_policy.specs.KnownNames.{AreKnown};
ghost use Rattle.access_policy.specs.declared.policy.Access.{Access as AccessValue};
ghost use Rattle.access_policy.specs.ById.{AreById, IsRisingFrom};
ghost use Rattle.access_policy.specs.Candidates as of;
ghost use Rattle.access_policy.specs.Names.{items_of};
ghost use Rattle.access_policy.specs.declared.policy.Access.TheVariants as access;

use crate::candidates::{Candidate, first_of_cut, first_of_written};
use crate::names::{NamePart, cut_name};
use crate::policy::Access;
use crate::rules_by_id::{RulesById, by_id_for, first_by_id};
use address_table::Permission;
use ipb_base::NoMemory;
use script_steps::Decision;
use std::alloc::Global;
use std::collections::BTreeMap;
use std::marker::Model;

/// So many rules are compared with a name as it is written, and nothing is kept of it: that takes no memory. Each of
/// them cuts as much of the name as it has items.
const FEW_RULES: usize = 4;

/// What was said of names: of the first of each number by that number, which is compared faster, and of others by the
/// names.
#[derive(Drop)]
struct Known<'a> {
    by_number: BTreeMap<u64, (&'a str, Decision)>,
    by_name: BTreeMap<&'a str, Decision>,
}

/// A number that few names share (FNV-1a of their bytes).
fn number_of(name: &str) -> u64 {
    let mut number: u64 = 0xcbf2_9ce4_8422_2325;
    for byte in name.as_bytes() {
        number = (number ^ u64::from(*byte)).wrapping_mul(0x100_0000_01b3);
    }
    number
}

impl<'a> Known<'a> {
    /// Nothing. It takes no memory.
    fn new(alloc: Global) -> Known<'a>
        ensures { (access : AccessValue) (rules : List of.Numbered) → AreKnown access rules result }
    {
        Known {
            by_number: BTreeMap::new(alloc),
            by_name: BTreeMap::new(alloc),
        }
    }

    /// What was said of a name.
    fn get(&self, number: u64, name: &str) -> Option<Decision>
        ensures { (access : AccessValue) (rules : List of.Numbered) → AreKnown access rules self.now
            → IfSome result (λ decision. decision ≡ of.first_of access (items_of name.now) rules) }
    {
        if let Some((other, decision)) = self.by_number.get(&number)
            && *other == name
        {
            return Some(*decision);
        }
        self.by_name.get(name).copied()
    }

    /// Keeps what was said of a name.
    fn insert(&mut self, number: u64, name: &'a str, decision: Decision) -> Result<(), NoMemory>
        ensures { (access : AccessValue) (rules : List of.Numbered) → AreKnown access rules self.old
            → decision ≡ of.first_of access (items_of name.now) rules → AreKnown access rules self.new }
    {
        if self.by_number.contains_key(&number) {
            self.by_name.insert(name, decision)?;
        } else {
            self.by_number.insert(number, (name, decision))?;
        }
        Ok(())
    }
}

/// The rules that speak of a client and a board, in order, and what they said of names. Contracts see the rules.
#[derive(Drop)]
pub(crate) struct Judge<'a> {
    rules: Vec<Candidate<'a>>,
    sorted: Option<RulesById<'a>>,
    reading: Known<'a>,
    writing: Known<'a>,
}

impl<'a> Model for Judge<'a> {
    ghost use Rattle.std.specs.Prelude.{List, IfSome};
    ghost use Rattle.access_policy.specs.ById.{AreById, IsRisingFrom};
    ghost use Rattle.access_policy.specs.Candidates.{Numbered};
    ghost use Rattle.access_policy.specs.KnownNames.{AreKnown};
    ghost use Rattle.access_policy.specs.declared.policy.Access.TheVariants.{Reading, Writing};

    ghost Value = { List Numbered };

    ghost view = { λ judge. judge.rules.items };

    ghost invariant = { λ judge. IsRisingFrom 1 judge.rules.items
        × (IfSome judge.sorted (AreById judge.rules.items)
        × (AreKnown Reading judge.rules.items judge.reading
        × AreKnown Writing judge.rules.items judge.writing)) };
}

impl<'a> Judge<'a> {
    /// The judge of some rules, which knows no name. It takes no memory.
    pub(crate) fn of(alloc: Global, rules: Vec<Candidate<'a>>) -> Judge<'a>
        requires { IsRisingFrom 1 rules.items }
        ensures { result ≡ rules.entry.items }
    {
        Judge {
            rules,
            sorted: None,
            reading: Known::new(alloc),
            writing: Known::new(alloc),
        }
    }

    /// What the rules say of a use of a register.
    pub(crate) fn says(
        &mut self,
        alloc: Global,
        name: &'a str,
        needs: Permission,
    ) -> Result<Decision, NoMemory>
        ensures same { self.new ≡ self.old }
        ensures said { IfOk result (λ decision. decision ≡ of.said_of self.old (items_of name.now) needs) }
    {
        match needs {
            Permission::R => self.says_of_reading(alloc, name),
            Permission::W => self.says_of_writing(alloc, name),
            Permission::Rw => match self.says_of_reading(alloc, name)? {
                Decision::Allowed => self.says_of_writing(alloc, name),
                Decision::Denied { rule } => Ok(Decision::Denied { rule }),
            },
        }
    }

    fn says_of_reading(&mut self, alloc: Global, name: &'a str) -> Result<Decision, NoMemory>
        ensures same { self.new ≡ self.old }
        ensures said { IfOk result (λ decision.
            decision ≡ of.first_of access.Reading (items_of name.now) self.old) }
    {
        let rules = self.rules.as_slice();
        judged(
            alloc,
            rules,
            &mut self.sorted,
            &mut self.reading,
            name,
            Access::Reading,
        )
    }

    fn says_of_writing(&mut self, alloc: Global, name: &'a str) -> Result<Decision, NoMemory>
        ensures same { self.new ≡ self.old }
        ensures said { IfOk result (λ decision.
            decision ≡ of.first_of access.Writing (items_of name.now) self.old) }
    {
        let rules = self.rules.as_slice();
        judged(
            alloc,
            rules,
            &mut self.sorted,
            &mut self.writing,
            name,
            Access::Writing,
        )
    }
}

/// What the first of some rules says that speaks of an access to a register: what is known of its name, or else what is
/// found now, and known from then on.
fn judged<'a>(
    alloc: Global,
    rules: &[Candidate<'a>],
    sorted: &mut Option<RulesById<'a>>,
    known: &mut Known<'a>,
    name: &'a str,
    access: Access,
) -> Result<Decision, NoMemory>
    requires rising { IsRisingFrom 1 rules.now }
    requires sorted { IfSome sorted.old (AreById rules.now) }
    requires known { AreKnown access rules.now known.old }
    ensures sorted { IfSome sorted.new (AreById rules.now) }
    ensures known { AreKnown access rules.now known.new }
    ensures said { IfOk result (λ decision. decision ≡ of.first_of access (items_of name.now) rules.now) }
{
    if rules.len() <= FEW_RULES {
        return Ok(first_of_written(rules, name, access));
    }
    let number = number_of(name);
    if let Some(decision) = known.get(number, name) {
        return Ok(decision);
    }
    let parts = cut_name(alloc, name)?;
    let decision = said_by_many(alloc, rules, sorted, parts.as_slice(), access)?;
    known.insert(number, name, decision)?;
    Ok(decision)
}

/// What the first of many rules says that speaks of an access to a register. The first name that is judged decides by
/// which of their ids the rules are sorted.
fn said_by_many<'a>(
    alloc: Global,
    rules: &[Candidate<'a>],
    sorted: &mut Option<RulesById<'a>>,
    parts: &[NamePart<'_>],
    access: Access,
) -> Result<Decision, NoMemory>
    requires rising { IsRisingFrom 1 rules.now }
    requires sorted { IfSome sorted.old (AreById rules.now) }
    ensures sorted { IfSome sorted.new (AreById rules.now) }
    ensures said { IfOk result (λ decision. decision ≡ of.first_of access parts.now rules.now) }
{
    if let Some(sorted) = &*sorted {
        return Ok(first_by_id(sorted, rules, parts, access));
    }
    let now = by_id_for(alloc, rules, parts)?;
    let decision = first_by_id(&now, rules, parts, access);
    *sorted = Some(now);
    Ok(decision)
}
