//! What an access policy is: rules, each with the accesses of which it speaks.

ghost use Rattle.std.specs.Prelude.{◌≡◌, ◌≤◌, length};

use crate::MAX_RULES;
use address_table::Permission;
use ipb_base::Text;
use std::marker::Model;

/// What becomes of an access of which a rule speaks.
#[derive(Clone, Copy, PartialEq, Eq)]
pub enum Effect {
    Allow,
    Deny,
}

/// One use of a register.
#[derive(Clone, Copy, PartialEq, Eq)]
pub enum Access {
    Reading,
    Writing,
}

/// The boards of which a rule speaks.
#[derive(Drop)]
pub enum BoardPattern {
    /// `*`: each board.
    Any,
    /// The board of this name.
    Named(Text),
}

/// What an item of a pattern matches in the name of a register.
#[derive(Drop)]
pub enum ItemPattern {
    /// `*`: any id, whether it has an index or not.
    Any,
    /// `id`: this id without an index.
    Id(Text),
    /// `id[n]`: this id with this index, 0 to `MAX_INDEX`.
    Indexed { id: Text, index: u32 },
    /// `id[*]`: this id with any index.
    AnyIndex(Text),
}

/// The items of a pattern, in order. Contracts see that list.
#[derive(Drop)]
pub struct ItemPatterns {
    items: Vec<ItemPattern>,
}

impl Model for ItemPatterns {
    ghost use Rattle.std.specs.Prelude.{List};
    ghost use Rattle.access_policy.specs.declared.policy.ItemPattern.{ItemPattern};

    ghost Value = { List ItemPattern };

    ghost view = { λ patterns. patterns.items.items };
}

impl ItemPatterns {
    /// The items of a vector, in its order. It takes no memory.
    pub fn from_vec(items: Vec<ItemPattern>) -> ItemPatterns
        ensures { result ≡ items.items }
    {
        ItemPatterns { items }
    }

    /// The items, in order.
    pub fn as_slice(&self) -> &[ItemPattern]
        ensures { result.now ≡ self.now }
    {
        self.items.as_slice()
    }
}

/// The registers of which a rule speaks, such as `b0:ctrl.*`.
#[derive(Drop)]
pub struct Pattern {
    pub board: BoardPattern,
    pub items: ItemPatterns,
    /// Whether `**` stands behind the items: any further ids, at least one.
    pub rest: bool,
}

/// A rule of a policy (profile).
#[derive(Drop)]
pub struct Rule {
    pub effect: Effect,
    /// The accesses of which it speaks: `Rw` is both.
    pub access: Permission,
    pub pattern: Pattern,
    /// The number of the client of which it speaks, from 1; each client where there is none.
    pub client: Option<u32>,
}

/// An access policy: at most `MAX_RULES` rules, numbered from 1 (profile). Contracts see the list of its rules.
#[derive(Drop)]
pub struct Policy {
    rules: Vec<Rule>,
}

impl Model for Policy {
    ghost use Rattle.std.specs.Prelude.{List, ◌≤◌, length};
    ghost use Rattle.access_policy.specs.declared.policy.Rule.{Rule};
    ghost use Rattle.access_policy.specs.declared.limits.TheConstants.{MAX_RULES};

    ghost Value = { List Rule };

    ghost view = { λ policy. policy.rules.items };

    ghost invariant = { λ policy. length policy.rules.items ≤ MAX_RULES };
}

impl Policy {
    /// The policy of a vector of rules, in its order. It takes no memory.
    pub fn from_vec(rules: Vec<Rule>) -> Policy
        requires { length rules.items ≤ MAX_RULES }
        ensures { result ≡ rules.items }
    {
        Policy { rules }
    }

    /// The rules, in order.
    pub fn as_slice(&self) -> &[Rule]
        ensures rules { result.now ≡ self.now }
        ensures few { length self.now ≤ MAX_RULES }
    {
        self.rules.as_slice()
    }
}
