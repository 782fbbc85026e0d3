//! Whether each address is in one register at most, as in most tables: then no two registers overlap.
ghost use Rattle.std.specs.Prelude.{◌≡◌, ◌+◌, ◌≤◌, ℕ, IfOk, IsTrue};
ghost use Rattle.std.specs.List.{sum_by};
ghost use Rattle.node_tree.specs.Spans.{AreApart, takes_at, register_takes};

use super::{Entry, takes_words};
use crate::walking::words_of;
use crate::{NoMemory, Register};
use std::alloc::Global;

/// The addresses of a register, from the first to the one before the end.
type Span = (u64, u64);

/// Whether no two of the entries share an address. Where it says so, that is so; the order in which the spans are
/// sorted is looked at, and not relied on.
pub(super) fn are_apart(alloc: Global, entries: &[Entry]) -> Result<bool, NoMemory>
    ensures { IfOk result (λ apart. IsTrue apart → AreApart entries.now) }
{
    let mut spans = spans_of(alloc, entries)?;
    spans.sort_unstable();
    Ok(follow_one_another(&spans))
}

/// The spans of the entries that take words.
fn spans_of(alloc: Global, entries: &[Entry]) -> Result<Vec<Span>, NoMemory>
    ensures { IfOk result (λ spans. (address : ℕ)
        → sum_by (takes_at address) spans.items ≡ sum_by (λ e. register_takes address e.1) entries.now) }
{
    let mut spans = Vec::with_capacity(alloc, entries.len())?;
    for entry in entries {
        push_span(&mut spans, &entry.1)?;
    }
    Ok(spans)
}

/// Adds the span of a register, unless it is hierarchical.
fn push_span(spans: &mut Vec<Span>, register: &Register) -> Result<(), NoMemory>
    ensures { IfOk result (λ _. (address : ℕ) → sum_by (takes_at address) spans.new.items
        ≡ sum_by (takes_at address) spans.old.items + register_takes address register.now) }
{
    if takes_words(register.mode) {
        let first = register.address as u64;
        let end = first + words_of(register.mode, register.size) as u64;
        spans.push((first, end))?;
    }
    Ok(())
}

/// Whether each span ends where the next one begins, or before.
fn follow_one_another(spans: &[Span]) -> bool
    ensures { IsTrue result → (address : ℕ) → sum_by (takes_at address) spans.now ≤ 1 }
{
    let mut last_end = 0;
    for (first, end) in spans {
        if *first < last_end || *end < *first {
            return false;
        }
        last_end = *end;
    }
    true
}
