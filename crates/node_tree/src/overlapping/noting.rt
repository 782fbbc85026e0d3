//! The first places that entries overlap, as far as they are found.
ghost use Rattle.std.specs.Prelude.{◌≡◌, ◌<◌, ◌≤◌, length, string_bytes};
ghost use Rattle.std.specs.List.{All};
ghost use Rattle.node_tree.specs.Named.{named_entries};
ghost use Rattle.node_tree.specs.Overlaps as spec;
ghost use Rattle.node_tree.specs.OverlapSearch.{Lowers, IsSettled, IsNoted, with_lowered};

use super::{Entry, overlap};

/// Compares an entry with earlier ones.
pub(super) fn note_each(entries: &[Entry], earlier: &[usize], later: usize, firsts: &mut [usize])
    requires lengths { length firsts.old ≡ length entries.now }
    requires before { All (λ place. place < later) earlier.now }
    requires within { later < length entries.now }
    ensures { IsNoted (named_entries entries.now) firsts.old firsts.new earlier.now later }
{
    for place in earlier {
        note(entries, *place, later, firsts);
    }
}

/// Keeps an entry for a later one that overlaps it, unless one before it is kept.
fn note(entries: &[Entry], earlier: usize, later: usize, firsts: &mut [usize])
    requires lengths { length firsts.old ≡ length entries.now }
    requires before { earlier < later }
    requires within { later < length entries.now }
    ensures lowers { Lowers (named_entries entries.now) firsts.old firsts.new }
    ensures settled { IsSettled (named_entries entries.now) firsts.new earlier later }
{
    if overlap_entries(&entries[earlier], &entries[later]) {
        lower(firsts, later, earlier);
    }
}

fn overlap_entries(a: &Entry, b: &Entry) -> bool
    ensures { result ≡ spec.overlap (string_bytes a.now.0, a.now.1) (string_bytes b.now.0, b.now.1) }
{
    overlap(a.0.as_str(), &a.1, b.0.as_str(), &b.1)
}

/// Keeps the lesser of a place that is kept and another.
pub(super) fn lower(firsts: &mut [usize], at: usize, place: usize)
    requires { at < length firsts.old }
    ensures { firsts.new ≡ with_lowered firsts.old at place }
{
    if place < firsts[at] {
        firsts[at] = place;
    }
}
