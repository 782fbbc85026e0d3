//! The pages of a bus, by rising number: finding one by halving, finding a cell, and putting one.

ghost use Rattle.std.specs.Prelude.{◌≡◌, ◌/◌, IfOk, OnOk, IfErr, MatchOption, None, Some, replicate};
ghost use Rattle.std.specs.Ordering.{nat_cmp};
ghost use Rattle.std.specs.FinMap.Entries.{find, put};
ghost use Rattle.std.specs.List.{flat_map};
ghost use Rattle.board_bus.specs.Pages.{IsAt, IsCellPlace, IsFull, IsGapFor, IsPaged, IsRising, cells_of};
ghost use Rattle.board_bus.specs.Pages.{kind_of, page_cells};
ghost use Rattle.board_bus.specs.declared.page.AddressKind.TheVariants.{Absent};

use crate::RangeKind;
use ipb_base::NoMemory;
use std::alloc::Global;

/// How many addresses a page has.
pub(crate) const PAGE_WORDS: u64 = 256;

/// Consecutive addresses, from a multiple of `PAGE_WORDS` on.
#[derive(Drop)]
pub(crate) struct Page {
    /// Its first address divided by `PAGE_WORDS`.
    pub(crate) number: u64,
    /// The word at each address.
    pub(crate) words: Vec<u32>,
    /// What each address is.
    pub(crate) kinds: Vec<AddressKind>,
}

/// What an address is: absent, or of the kind of its range. It takes one byte.
#[derive(Clone, Copy)]
pub(crate) enum AddressKind {
    Absent,
    ReadWrite,
    ReadOnly,
    WriteOnly,
    TimesOut,
}

impl AddressKind {
    /// What an address of a range is.
    fn of(kind: RangeKind) -> AddressKind
        ensures { kind_of result ≡ Some kind }
    {
        match kind {
            RangeKind::Rw => AddressKind::ReadWrite,
            RangeKind::Ro => AddressKind::ReadOnly,
            RangeKind::Wo => AddressKind::WriteOnly,
            RangeKind::Slow => AddressKind::TimesOut,
        }
    }

    /// The kind of its range, unless it is absent.
    fn kind(self) -> Option<RangeKind>
        ensures { result ≡ kind_of self }
    {
        match self {
            AddressKind::Absent => None,
            AddressKind::ReadWrite => Some(RangeKind::Rw),
            AddressKind::ReadOnly => Some(RangeKind::Ro),
            AddressKind::WriteOnly => Some(RangeKind::Wo),
            AddressKind::TimesOut => Some(RangeKind::Slow),
        }
    }
}

/// Where the cell at an address stands, and its kind.
#[derive(Clone, Copy)]
pub(crate) struct CellPlace {
    /// Which page it is on.
    pub(crate) page: usize,
    /// Which word of the page it is.
    pub(crate) place: usize,
    pub(crate) kind: RangeKind,
}

impl Page {
    /// A page on which every address is absent.
    fn blank(alloc: Global, number: u64) -> Result<Page, NoMemory>
        ensures number { IfOk result (λ page. page.number ≡ number) }
        ensures kinds { IfOk result (λ page. page.kinds.items ≡ replicate 256 Absent) }
        ensures full { IfOk result IsFull }
    {
        let mut words = Vec::with_capacity(alloc, PAGE_WORDS as usize)?;
        words.resize(PAGE_WORDS as usize, 0)?;
        let mut kinds = Vec::with_capacity(alloc, PAGE_WORDS as usize)?;
        kinds.resize(PAGE_WORDS as usize, AddressKind::Absent)?;
        Ok(Page {
            number,
            words,
            kinds,
        })
    }

    /// A copy of the page, which shares no memory with it.
    fn copy(&self, alloc: Global) -> Result<Page, NoMemory>
        ensures number { IfOk result (λ copied. copied.number ≡ self.now.number) }
        ensures words { IfOk result (λ copied. copied.words.items ≡ self.now.words.items) }
        ensures kinds { IfOk result (λ copied. copied.kinds.items ≡ self.now.kinds.items) }
    {
        Ok(Page {
            number: self.number,
            words: Vec::from_slice(alloc, &self.words)?,
            kinds: Vec::from_slice(alloc, &self.kinds)?,
        })
    }
}

/// Where the page with a number stands, or where it would. The search halves the pages.
fn find_page(pages: &[Page], number: u64) -> Result<usize, usize>
    requires rising { IsRising pages.now }
    ensures found { IfOk result (IsAt pages.now number) }
    ensures absent { IfErr result (IsGapFor pages.now number) }
{
    pages.binary_search_by_key(&number, |page| page.number)
}

/// Where the page with a number stands, or where it would. The place `last` is looked at first, so that words of one
/// page need one search.
fn page_near(pages: &[Page], last: usize, number: u64) -> Result<usize, usize>
    requires rising { IsRising pages.now }
    ensures found { IfOk result (IsAt pages.now number) }
    ensures absent { IfErr result (IsGapFor pages.now number) }
{
    if last < pages.len() {
        let page = &pages[last];
        if page.number == number {
            return Ok(last);
        }
    }
    find_page(pages, number)
}

/// Where the cell at an address stands, unless the address is absent. The page `last` is looked at first, and is then
/// the one of the cell.
pub(crate) fn find_cell(pages: &[Page], last: &mut usize, address: u64) -> Option<CellPlace>
    requires paged { IsPaged pages.now }
    ensures { MatchOption result (find nat_cmp address (cells_of pages.now) ≡ None) (IsCellPlace pages.now address) }
{
    match page_near(pages, *last, address / PAGE_WORDS) {
        Ok(page) => {
            *last = page;
            let place = (address % PAGE_WORDS) as usize;
            let Some(kind) = pages[page].kinds[place].kind() else {
                return None;
            };
            Some(CellPlace { page, place, kind })
        }
        Err(_) => None,
    }
}

/// The place of the page with a number. Where there is none, a blank one is put there. The place `last` is looked at
/// first.
pub(crate) fn page_at(
    alloc: Global,
    pages: &mut Vec<Page>,
    last: usize,
    number: u64,
) -> Result<usize, NoMemory>
    requires paged { IsPaged pages.old.items }
    ensures at { IfOk result (IsAt pages.new.items number) }
    ensures paged { OnOk result (IsPaged pages.new.items) }
    ensures cells { OnOk result (cells_of pages.new.items ≡ cells_of pages.old.items) }
{
    match page_near(pages, last, number) {
        Ok(place) => Ok(place),
        Err(place) => {
            pages.insert(place, Page::blank(alloc, number)?)?;
            Ok(place)
        }
    }
}

/// Puts a cell at an address, in place of what is there. The page `last` is looked at first, and is then the one of the
/// cell.
pub(crate) fn put_cell(
    alloc: Global,
    pages: &mut Vec<Page>,
    last: &mut usize,
    address: u64,
    kind: RangeKind,
    word: u32,
) -> Result<(), NoMemory>
    requires paged { IsPaged pages.old.items }
    ensures paged { OnOk result (IsPaged pages.new.items) }
    ensures cells { OnOk result (cells_of pages.new.items
        ≡ put nat_cmp address (record { kind = kind; word = word }) (cells_of pages.old.items)) }
{
    let place = page_at(alloc, pages, *last, address / PAGE_WORDS)?;
    *last = place;
    let page = &mut pages[place];
    let at = (address % PAGE_WORDS) as usize;
    page.words[at] = word;
    page.kinds[at] = AddressKind::of(kind);
    Ok(())
}

/// Copies of some pages, which share no memory with them.
pub(crate) fn copies_of(alloc: Global, pages: &[Page]) -> Result<Vec<Page>, NoMemory>
    requires paged { IsPaged pages.now }
    ensures paged { IfOk result (λ copies. IsPaged copies.items) }
    ensures cells { IfOk result (λ copies. flat_map page_cells copies.items ≡ flat_map page_cells pages.now) }
{
    let mut copies = Vec::with_capacity(alloc, pages.len())?;
    for page in pages {
        copies.push(page.copy(alloc)?)?;
    }
    Ok(copies)
}
