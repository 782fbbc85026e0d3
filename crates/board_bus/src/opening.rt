//! The pages that a bus opens with.

ghost use Rattle.std.specs.Prelude.{◌≡◌, ◌≤◌, [], OnOk, IfOk, length};
ghost use Rattle.std.specs.List.{All};
ghost use Rattle.board_bus.specs.Ranges.{opening_bus, range_cells};
ghost use Rattle.board_bus.specs.Pages.{IsPaged, cells_of, put_all};

use crate::Range;
use crate::page::{PAGE_WORDS, Page, page_at, put_cell};
use crate::range::Span;
use ipb_base::NoMemory;
use std::alloc::Global;

/// The pages of the words of ranges, which have these spans by rising base. All pages are made first, so that none is
/// made while the words are put.
pub(crate) fn pages_of(
    alloc: Global,
    ranges: &[Range],
    spans: &[Span],
) -> Result<Vec<Page>, NoMemory>
    requires fit { All (λ range. length range.init ≤ range.size) ranges.now }
    ensures paged { IfOk result (λ pages. IsPaged pages.items) }
    ensures cells { IfOk result (λ pages. cells_of pages.items ≡ opening_bus ranges.now) }
{
    let mut pages = blank_pages(alloc, spans)?;
    for i in (0..ranges.len()).rev() {
        put_range(alloc, &mut pages, &ranges[i])?;
    }
    Ok(pages)
}

/// The pages that spans touch, with every address absent. Where the spans stand by rising base each new page stands
/// behind the others, and none is moved.
fn blank_pages(alloc: Global, spans: &[Span]) -> Result<Vec<Page>, NoMemory>
    ensures paged { IfOk result (λ pages. IsPaged pages.items) }
    ensures absent { IfOk result (λ pages. cells_of pages.items ≡ []) }
{
    let mut pages = Vec::new(alloc);
    for span in spans {
        take_pages(alloc, &mut pages, span)?;
    }
    Ok(pages)
}

/// Makes the pages that a span touches, where they are not there.
fn take_pages(alloc: Global, pages: &mut Vec<Page>, span: &Span) -> Result<(), NoMemory>
    requires paged { IsPaged pages.old.items }
    ensures paged { OnOk result (IsPaged pages.new.items) }
    ensures cells { OnOk result (cells_of pages.new.items ≡ cells_of pages.old.items) }
{
    let end = span.end.div_ceil(PAGE_WORDS);
    let mut last = 0;
    for number in span.base / PAGE_WORDS..end {
        last = page_at(alloc, pages, last, number)?;
    }
    Ok(())
}

/// Puts the cells of a range as it opens.
fn put_range(alloc: Global, pages: &mut Vec<Page>, range: &Range) -> Result<(), NoMemory>
    requires fits { length range.now.init ≤ range.now.size }
    requires paged { IsPaged pages.old.items }
    ensures paged { OnOk result (IsPaged pages.new.items) }
    ensures cells { OnOk result (cells_of pages.new.items
        ≡ put_all (range_cells range.now) (cells_of pages.old.items)) }
{
    let base = u64::from(range.base);
    let mut last = 0;
    for i in (0..range.size).rev() {
        let word = range.opening_word(i);
        let address = base + u64::from(i);
        put_cell(alloc, pages, &mut last, address, range.kind, word)?;
    }
    Ok(())
}
