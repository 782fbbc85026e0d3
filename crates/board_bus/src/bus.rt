ghost use Rattle.std.specs.Prelude.{◌≡◌, ◌≢◌, ℕ, List, IfOk, OnOk, OnErr, IfErr, None, Some};
ghost use Rattle.std.specs.List.{AllByRecursion, AllZip};
ghost use Rattle.ipb_base.specs.Word.{AreWords};
ghost use Rattle.transaction_codec.specs.Answer.{CanAnswer};
ghost use Rattle.board_bus.specs.declared.range.BusRefusal.TheVariants.{NoMemory as no_memory};
ghost use Rattle.board_bus.specs.Cells.{HoldsWords, read_word, write_word};
ghost use Rattle.board_bus.specs.Bodies.{replay, run_body};
ghost use Rattle.board_bus.specs.Ranges.{opening_bus, refusal_of};

use crate::opening::pages_of;
use crate::page::{Page, copies_of, find_cell};
use crate::range::{spans_of_bus, start_with_words};
use crate::reading::requests_are_read;
use crate::{BusFault, BusRefusal, Range};
use ipb_base::NoMemory;
use std::alloc::Global;
use std::marker::Model;

/// The words behind the addresses of a board, on pages of 256 addresses by rising address. Contracts see a finite map:
/// a cell, of a kind and a word, for each address of a range, and none elsewhere.
#[derive(Drop)]
pub struct Bus {
    pages: Vec<Page>,
}

impl Model for Bus {
    ghost use Rattle.board_bus.specs.Cells.{CellMap};

    ghost Value = { CellMap };

    ghost use Rattle.board_bus.specs.Pages.{cells_of};
    ghost use Rattle.board_bus.specs.Kept.{IsKept};

    ghost view = { λ bus. cells_of bus.pages.items };

    ghost invariant = { λ bus. IsKept bus.pages.items };
}

impl Bus {
    /// The bus that these ranges open. The refusals are those of `check_ranges`.
    pub fn new(alloc: Global, ranges: &[Range]) -> Result<Bus, BusRefusal>
        ensures accepted { OnOk result (refusal_of ranges.now ≡ None) }
        ensures opens { IfOk result (λ bus. bus ≡ opening_bus ranges.now) }
        ensures refused { IfErr result (λ refusal. refusal ≢ no_memory → refusal_of ranges.now ≡ Some refusal) }
    {
        let spans = spans_of_bus(alloc, ranges)?;
        start_with_words(ranges);
        Ok(Bus {
            pages: pages_of(alloc, ranges, &spans)?,
        })
    }

    /// A copy of the bus, which shares no memory with it. An error means that memory ran out.
    pub fn copy(&self, alloc: Global) -> Result<Bus, NoMemory>
        ensures { IfOk result (λ copied. copied ≡ self.now) }
    {
        Ok(Bus {
            pages: copies_of(alloc, &self.pages)?,
        })
    }

    /// The word at an address. Code 4 where it is absent or write-only, 6 where it is slow.
    pub fn read(&self, address: u32) -> Result<u32, BusFault>
        ensures { result ≡ read_word self.now address }
    {
        self.read_near(&mut 0, address)
    }

    /// Writes the word at an address. Code 5 where it is absent or read-only, 7 where it is slow: the bus is then as it
    /// was.
    pub fn write(&mut self, address: u32, word: u32) -> Result<(), BusFault>
        ensures written { OnOk result (write_word self.old address word ≡ Ok self.new) }
        ensures refused { IfErr result (λ fault. write_word self.old address word ≡ Err fault) }
        ensures unchanged { OnErr result (self.new ≡ self.old) }
    {
        self.write_near(&mut 0, address, word)
    }
}

impl Bus {
    /// Reads a word. The page `last` is looked at first, and is then the one of the word.
    pub(crate) fn read_near(&self, last: &mut usize, address: u32) -> Result<u32, BusFault>
        ensures { result ≡ read_word self.now address }
    {
        let Some(found) = find_cell(&self.pages, last, u64::from(address)) else {
            return Err(BusFault::ReadError);
        };
        if let Some(fault) = found.kind.read_fault() {
            return Err(fault);
        }
        Ok(self.pages[found.page].words[found.place])
    }

    /// Writes a word. The page `last` is looked at first, and is then the one of the word.
    pub(crate) fn write_near(
        &mut self,
        last: &mut usize,
        address: u32,
        word: u32,
    ) -> Result<(), BusFault>
        ensures written { OnOk result (write_word self.old address word ≡ Ok self.new) }
        ensures refused { IfErr result (λ fault. write_word self.old address word ≡ Err fault) }
        ensures unchanged { OnErr result (self.new ≡ self.old) }
    {
        let Some(found) = find_cell(&self.pages, last, u64::from(address)) else {
            return Err(BusFault::WriteError);
        };
        if let Some(fault) = found.kind.write_fault() {
            return Err(fault);
        }
        self.pages[found.page].words[found.place] = word;
        Ok(())
    }
}

impl Bus {
    /// Every word of a bus has 32 bits. So the reply to a body is one that a board can give to it, and so is that to
    /// each of the bodies that are executed one after another. It does nothing when it runs.
    pub fn answers_bodies(&self)
        ensures words { HoldsWords self.now }
        ensures reply { (body : List ℕ) → AreWords body → CanAnswer body (run_body self.now body).reply }
        ensures replies { (bodies : List (List ℕ)) → AllByRecursion AreWords bodies →
            AllZip CanAnswer bodies (replay self.now bodies).replies }
    {
        requests_are_read();
        let _pages = &self.pages;
    }
}
