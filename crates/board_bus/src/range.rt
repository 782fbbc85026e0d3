ghost use Rattle.std.specs.Prelude.{◌≡◌, ◌≢◌, OnOk, IfOk, IfErr, MatchBool, Some, None, sum_by, map, nat_lt, false};
ghost use Rattle.std.specs.Prelude.{MatchOption, slice_index, true};
ghost use Rattle.std.specs.List.{AllByRecursion, list_any};
ghost use Rattle.std.specs.List.Sorted.{IsNonDecreasingBy, IsPermutation};
ghost use Rattle.ipb_base.specs.Word.{AreWords};
ghost use Rattle.board_bus.specs.declared.range.BusRefusal.TheVariants.{NoMemory as no_memory};
ghost use Rattle.board_bus.specs.Ranges.{any_pair, end_of, is_empty_range, is_init_long, is_past_end, most_words};
ghost use Rattle.board_bus.specs.Ranges.{opening_words, refusal_of, share_address};
ghost use Rattle.board_bus.specs.Spans.{base_of, span_of, SomeMeetsNext, NoneMeetsNext};

use crate::RangeKind;
use ipb_base::{NoMemory, Words};
use std::alloc::Global;
use std::error::Error;
use std::fmt;

/// The most words that the ranges of a bus may have together. Profile.
pub const MAX_WORDS: u64 = 4_194_304;

/// How many addresses there are.
const ADDRESSES: u64 = 1 << 32;

/// Consecutive addresses of one kind. Profile.
#[derive(Drop, PartialEq, Eq)]
pub struct Range {
    /// The address of the first word of the range.
    pub base: u32,
    /// How many addresses there are, each of one word.
    pub size: u32,
    /// What may be done at them.
    pub kind: RangeKind,
    /// The words of the first addresses; those after them start as 0.
    pub init: Words,
}

/// Why a list of ranges is no bus: the first of these rules, in this order, that it breaks. Profile.
#[derive(Clone, Copy, Debug, PartialEq, Eq)]
pub enum BusRefusal {
    /// A range has no address.
    Empty,
    /// A range ends past address 0xffffffff.
    PastEnd,
    /// Two ranges share an address.
    Overlap,
    /// The ranges have more than `MAX_WORDS` words together.
    TooLarge,
    /// A range starts with more words than it has addresses.
    InitLong,
    /// Memory ran out while the bus was made.
    NoMemory,
}

impl From<NoMemory> for BusRefusal {
    ghost from_gives = { λ _ refusal. refusal ≡ no_memory };

    fn from(_error: NoMemory) -> BusRefusal {
        BusRefusal::NoMemory
    }
}

impl fmt::Display for BusRefusal {
    fn fmt<W: fmt::Write>(&self, f: &mut fmt::Formatter<W>) -> fmt::Result {
        f.write_str(match self {
            BusRefusal::Empty => "a range has no address",
            BusRefusal::PastEnd => "a range ends past the last address",
            BusRefusal::Overlap => "two ranges share an address",
            BusRefusal::TooLarge => "the ranges have too many words",
            BusRefusal::InitLong => "a range starts with more words than it has",
            BusRefusal::NoMemory => "out of memory",
        })
    }
}

impl Error for BusRefusal {}

impl Range {
    /// The address after its last one.
    fn end(&self) -> u64
        ensures { result ≡ end_of self.now }
    {
        u64::from(self.base) + u64::from(self.size)
    }

    /// A copy of the range, which shares no memory with it. An error means that memory ran out.
    pub fn copy(&self, alloc: Global) -> Result<Range, NoMemory>
        ensures { IfOk result (λ copied. copied ≡ self.now) }
    {
        Ok(Range {
            base: self.base,
            size: self.size,
            kind: self.kind,
            init: Words::from_vec(self.init.as_slice().to_vec(alloc)?),
        })
    }

    /// The word that the range opens with at a place, from 0: 0 where it names none.
    pub(crate) fn opening_word(&self, place: u32) -> u32
        ensures { result ≡ slice_index (opening_words self.now) place }
    {
        match self.init.as_slice().get(place as usize) {
            Some(word) => *word,
            None => 0,
        }
    }

    /// The words that a range starts with have 32 bits. It does nothing when it runs.
    fn starts_with_words(&self)
        ensures { AreWords self.now.init }
    {
        are_words(self.init.as_slice());
    }
}

/// The words of a slice have 32 bits. It does nothing when it runs.
fn are_words(words: &[u32])
    ensures { AreWords words.now }
{
    let _count = words.len();
}

/// The words that ranges start with have 32 bits. It does nothing when it runs.
pub(crate) fn start_with_words(ranges: &[Range])
    ensures { AllByRecursion (λ range. AreWords range.init) ranges.now }
{
    for range in ranges {
        range.starts_with_words();
    }
}

/// Whether the ranges are the ranges of a bus. A list that breaks several rules is refused by the first of them; want
/// of memory may come instead.
pub fn check_ranges(alloc: Global, ranges: &[Range]) -> Result<(), BusRefusal>
    ensures ok { OnOk result (refusal_of ranges.now ≡ None) }
    ensures refused { IfErr result (λ refusal. refusal ≢ no_memory → refusal_of ranges.now ≡ Some refusal) }
{
    spans_of_bus(alloc, ranges)?;
    Ok(())
}

/// The spans of the ranges of a bus, by rising base. The refusals are those of `check_ranges`.
pub(crate) fn spans_of_bus(alloc: Global, ranges: &[Range]) -> Result<Vec<Span>, BusRefusal>
    ensures ok { OnOk result (refusal_of ranges.now ≡ None) }
    ensures refused { IfErr result (λ refusal. refusal ≢ no_memory → refusal_of ranges.now ≡ Some refusal) }
{
    if any_empty(ranges) {
        return Err(BusRefusal::Empty);
    }
    if any_past_end(ranges) {
        return Err(BusRefusal::PastEnd);
    }
    let Some(spans) = spans_apart(alloc, ranges)? else {
        return Err(BusRefusal::Overlap);
    };
    if is_too_large(ranges) {
        return Err(BusRefusal::TooLarge);
    }
    if any_init_long(ranges) {
        return Err(BusRefusal::InitLong);
    }
    Ok(spans)
}

/// Whether a range has no address.
fn any_empty(ranges: &[Range]) -> bool
    ensures { result ≡ list_any is_empty_range ranges.now }
{
    ranges.iter().any(|range| range.size == 0)
}

/// Whether a range ends past the last address.
fn any_past_end(ranges: &[Range]) -> bool
    ensures { result ≡ list_any is_past_end ranges.now }
{
    ranges.iter().any(|range| range.end() > ADDRESSES)
}

/// Whether a range starts with more words than it has addresses.
fn any_init_long(ranges: &[Range]) -> bool
    ensures { result ≡ list_any is_init_long ranges.now }
{
    ranges
        .iter()
        .any(|range| range.init.len() > range.size as usize)
}

/// The spans of ranges by rising base, unless two ranges share an address.
fn spans_apart(alloc: Global, ranges: &[Range]) -> Result<Option<Vec<Span>>, NoMemory>
    requires { list_any is_empty_range ranges.now ≡ false }
    ensures { IfOk result (λ apart. MatchOption apart (any_pair share_address ranges.now ≡ true)
        (λ _. any_pair share_address ranges.now ≡ false)) }
{
    let spans = spans_in_order(alloc, ranges)?;
    if any_meets_next(&spans) {
        return Ok(None);
    }
    Ok(Some(spans))
}

/// Whether the ranges have more words than a bus may have.
fn is_too_large(ranges: &[Range]) -> bool
    ensures { result ≡ nat_lt most_words (sum_by (λ range. range.size) ranges.now) }
{
    let mut left = MAX_WORDS;
    for range in ranges {
        let size = u64::from(range.size);
        if size > left {
            return true;
        }
        left -= size;
    }
    false
}

/// The addresses of a range: from `base` to the one before `end`.
#[derive(Clone, Copy)]
pub(crate) struct Span {
    pub(crate) base: u64,
    pub(crate) end: u64,
}

/// The spans of ranges, by rising base.
fn spans_in_order(alloc: Global, ranges: &[Range]) -> Result<Vec<Span>, NoMemory>
    ensures same { IfOk result (λ spans. IsPermutation (map span_of ranges.now) spans.items) }
    ensures rising { IfOk result (λ spans. IsNonDecreasingBy base_of spans.items) }
{
    let mut spans = spans_of(alloc, ranges)?;
    spans.sort_unstable_by_key(|span| span.base);
    Ok(spans)
}

fn spans_of(alloc: Global, ranges: &[Range]) -> Result<Vec<Span>, NoMemory>
    ensures { IfOk result (λ spans. spans.items ≡ map span_of ranges.now) }
{
    let spans = ranges
        .iter()
        .map(|range| Span {
            base: u64::from(range.base),
            end: range.end(),
        })
        .collect(alloc)?;
    Ok(spans)
}

/// Whether a span ends past the beginning of the next.
fn any_meets_next(spans: &[Span]) -> bool
    ensures { MatchBool result (SomeMeetsNext spans.now) (NoneMeetsNext spans.now) }
{
    for i in 1..spans.len() {
        if spans[i - 1].end > spans[i].base {
            return true;
        }
    }
    false
}
