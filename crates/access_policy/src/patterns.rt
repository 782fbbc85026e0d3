//! Patterns as texts write them.

ghost use Rattle.std.specs.Prelude.{◌≡◌, option_copied, IfOk};
ghost use Rattle.access_policy.specs.Cutting.{parts_left};
ghost use Rattle.access_policy.specs.Spelling as spec;

use crate::names::{bracketed, cut_at, first_part, index_in};
use crate::policy::{BoardPattern, ItemPattern, ItemPatterns, Pattern};
use address_table::is_id;
use ipb_base::{NoMemory, Text};
use std::alloc::Global;

/// `*` or the name of a board.
fn board_in(alloc: Global, text: &str) -> Result<Option<BoardPattern>, NoMemory>
    ensures { IfOk result (λ board. board ≡ spec.board_in text.now) }
{
    if text == "*" {
        return Ok(Some(BoardPattern::Any));
    }
    if !is_id(text.as_bytes()) {
        return Ok(None);
    }
    Ok(Some(BoardPattern::Named(Text::copy_of(alloc, text)?)))
}

/// An id with what brackets behind it hold: `*` or an index.
fn index_pattern(alloc: Global, id: &str, inside: &str) -> Result<Option<ItemPattern>, NoMemory>
    ensures { IfOk result (λ item. item ≡ spec.index_pattern id.now inside.now) }
{
    if inside == "*" {
        return Ok(Some(ItemPattern::AnyIndex(Text::copy_of(alloc, id)?)));
    }
    let Some(index) = index_in(inside) else {
        return Ok(None);
    };
    let id = Text::copy_of(alloc, id)?;
    Ok(Some(ItemPattern::Indexed { id, index }))
}

/// `id[n]` or `id[*]`.
#[tactic(auto, unfolding(crate::specs::Spelling::indexed_in))]
fn indexed_in(alloc: Global, text: &str) -> Result<Option<ItemPattern>, NoMemory>
    ensures { IfOk result (λ item. item ≡ spec.indexed_in text.now) }
{
    let Some((id, inside)) = bracketed(text) else {
        return Ok(None);
    };
    if !is_id(id.as_bytes()) {
        return Ok(None);
    }
    index_pattern(alloc, id, inside)
}

/// `*`, `id`, `id[n]` or `id[*]`.
fn item_in(alloc: Global, text: &str) -> Result<Option<ItemPattern>, NoMemory>
    ensures { IfOk result (λ item. item ≡ spec.item_in text.now) }
{
    if text == "*" {
        return Ok(Some(ItemPattern::Any));
    }
    if is_id(text.as_bytes()) {
        return Ok(Some(ItemPattern::Id(Text::copy_of(alloc, text)?)));
    }
    indexed_in(alloc, text)
}

/// Whether a part with this behind it is a last `**`.
fn is_rest(part: &str, behind: Option<&str>) -> bool
    ensures { result ≡ spec.is_rest part.now (parts_left (option_copied behind.entry)) }
{
    match behind {
        None => part == "**",
        Some(_) => false,
    }
}

/// The items that a text writes, and whether a last `**` stands behind them.
fn items_in(alloc: Global, text: &str) -> Result<Option<(ItemPatterns, bool)>, NoMemory>
    ensures { IfOk result (λ items. items ≡ spec.items_in text.now) }
{
    let mut items = Vec::new(alloc);
    let mut left = Some(text);
    'part: while let Some(text) = left {
        let (part, behind) = first_part(text);
        if is_rest(part, behind) {
            return Ok(Some((ItemPatterns::from_vec(items), true)));
        }
        let Some(item) = item_in(alloc, part)? else {
            return Ok(None);
        };
        items.push(item)?;
        left = behind;
    }
    Ok(Some((ItemPatterns::from_vec(items), false)))
}

/// The pattern that a text writes: what its first `:` cuts off is the board, and `.` parts the items.
#[tactic(auto, unfolding(crate::specs::Spelling::pattern_of))]
pub(crate) fn pattern_in(alloc: Global, text: &str) -> Result<Option<Pattern>, NoMemory>
    ensures { IfOk result (λ pattern. pattern ≡ spec.pattern_of text.now) }
{
    let Some((board, items)) = cut_at(':', text) else {
        return Ok(None);
    };
    let Some(board) = board_in(alloc, board)? else {
        return Ok(None);
    };
    let Some((items, rest)) = items_in(alloc, items)? else {
        return Ok(None);
    };
    Ok(Some(Pattern { board, items, rest }))
}
