//! Whether the pattern of a rule matches a board and a register.

ghost use Rattle.std.specs.Prelude.{◌≡◌, ◌==◌, ◌≤◌, Bool, false, length};
ghost use Rattle.address_table.specs.Rules.{holds_of};
ghost use Rattle.access_policy.specs.Cutting.{fits};
ghost use Rattle.access_policy.specs.Names.{items_of};
ghost use Rattle.access_policy.specs.Patterns as spec;

use crate::names::{NamePart, first_part, name_part};
use crate::policy::{BoardPattern, ItemPattern};

/// Whether a pattern speaks of the board of a name.
pub(crate) fn board_matches(pattern: &BoardPattern, board: &str) -> bool
    ensures { result ≡ spec.board_matches pattern.now board.now }
{
    match pattern {
        BoardPattern::Any => true,
        BoardPattern::Named(name) => name.as_str() == board,
    }
}

fn has_index(part: &NamePart<'_>, index: u32) -> bool
    ensures { result ≡ holds_of (λ i. i == index) part.now.index }
{
    match part.index() {
        Some(found) => found == index,
        None => false,
    }
}

/// Whether an item of a pattern matches an id of a name.
fn item_matches(pattern: &ItemPattern, part: &NamePart<'_>) -> bool
    ensures { result ≡ spec.item_matches pattern.now part.now }
{
    match pattern {
        ItemPattern::Any => true,
        ItemPattern::Id(id) => id.as_str() == part.id() && part.index().is_none(),
        ItemPattern::Indexed { id, index } => id.as_str() == part.id() && has_index(part, *index),
        ItemPattern::AnyIndex(id) => id.as_str() == part.id() && part.index().is_some(),
    }
}

/// Whether the items of a pattern match the ids of a name that is cut.
pub(crate) fn parts_match(patterns: &[ItemPattern], rest: bool, parts: &[NamePart<'_>]) -> bool
    ensures { result ≡ spec.items_match patterns.now rest parts.now }
{
    if !has_length(patterns.len(), rest, parts.len()) {
        return false;
    }
    // Patterns often differ in their last items alone.
    if !last_matches(patterns, parts) {
        return false;
    }
    for i in 0..patterns.len() {
        if !item_matches(&patterns[i], &parts[i]) {
            return false;
        }
    }
    true
}

/// Whether the last item of a pattern matches the id at its place.
fn last_matches(patterns: &[ItemPattern], parts: &[NamePart<'_>]) -> bool
    requires long { length patterns.now ≤ length parts.now }
    ensures { result ≡ false → (rest : Bool) → spec.items_match patterns.now rest parts.now ≡ false }
{
    if patterns.is_empty() {
        return true;
    }
    let last = patterns.len() - 1;
    item_matches(&patterns[last], &parts[last])
}

/// Whether a name of so many ids is as long as so many items and what follows them ask for.
fn has_length(patterns: usize, rest: bool, parts: usize) -> bool
    ensures { result ≡ fits rest patterns parts }
{
    if rest {
        patterns < parts
    } else {
        patterns == parts
    }
}

/// Whether the items of a pattern match a name, which is cut as it is read. It takes no memory.
pub(crate) fn name_matches(patterns: &[ItemPattern], rest: bool, name: &str) -> bool
    ensures { result ≡ spec.items_match patterns.now rest (items_of name.now) }
{
    let mut left = Some(name);
    for pattern in patterns {
        let Some(text) = left else {
            return false;
        };
        let (part, behind) = first_part(text);
        if !item_matches(pattern, &name_part(part)) {
            return false;
        }
        left = behind;
    }
    rest == left.is_some()
}
