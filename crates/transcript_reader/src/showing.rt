//! Reading what the line of an operation shows, more leniently than it is written.

ghost use Rattle.std.specs.Prelude.{◌≡◌, ◌^◌, ◌++◌, codes, IfOk, IfSome, OnOk};
ghost use Rattle.std.specs.List.{AllByRecursion};
ghost use Rattle.ipb_base.specs.Word.{AreWords, IsWord};
ghost use Rattle.transcript.specs.Claims.{IsPrinted, IsPrintedLate, IsPrintedPlace};
ghost use Rattle.transcript_reader.specs.Walks.{IsPrintedShowing};
ghost use Rattle.ipb_base.specs.Fronts as front;
ghost use Rattle.ipb_base.specs.Fronts.{Finds, all_of};
ghost use Rattle.transcript_reader.specs.Reading as spec;
ghost use Rattle.transcript_reader.specs.Reading.{next_place_at, next_word_at};

use crate::front::behind;
use crate::number::read_number;
use crate::shown::ShownOp;
use ipb_base::{NoMemory, Words};
use std::alloc::Global;
use transcript::{LateAnswer, LinePlaces, OpResult};

/// Reads a decimal number of 8 bits.
fn read_byte(text: &[u8]) -> Option<(u8, &[u8])>
    ensures { Finds (λ read. (read.0, read.1.now)) result (spec.decimal_at (2 ^ 8) text.now) }
{
    let (number, rest) = read_number(10, text)?;
    if number < 1 << 8 {
        Some((number as u8, rest))
    } else {
        None
    }
}

/// Reads one word of 32 bits at the front of a text, and what stands behind it.
#[tactic(auto, unfolding(crate::specs::Reading::word_at))]
fn read_word(text: &[u8]) -> Option<(u32, &[u8])>
    ensures { Finds (λ read. (read.0, read.1.now)) result (spec.word_at text.now) }
{
    let rest = behind(b"0x", text)?;
    let (number, rest) = read_number(16, rest)?;
    if number < 1 << 32 {
        Some((number as u32, rest))
    } else {
        None
    }
}

/// Reads a space and a word.
#[tactic(auto, unfolding(crate::specs::Reading::next_word_at))]
fn read_next_word(text: &[u8]) -> Option<(u32, &[u8])>
    ensures printed { IfSome result (λ read. IsWord read.0) }
    ensures read { Finds (λ read. (read.0, read.1.now)) result (next_word_at text.now) }
{
    let rest = behind(b" ", text)?;
    read_word(rest)
}

/// Appends the words at the front, and answers the text behind them.
fn read_words<'a>(out: &mut Vec<u32>, text: &'a [u8]) -> Result<&'a [u8], NoMemory>
    ensures printed { OnOk result (AreWords out.old.items → AreWords out.new.items) }
    ensures words { OnOk result (out.new.items ≡ out.old.items ++ (all_of next_word_at text.now).0) }
    ensures rest { IfOk result (λ rest. rest.now ≡ (all_of next_word_at text.now).1) }
{
    let mut rest = text;
    'words: while let Some((word, more)) = read_next_word(rest) {
        out.push(word)?;
        rest = more;
    }
    Ok(rest)
}

/// Reads the code of an error, and after how many words it came.
#[tactic(auto, unfolding(crate::specs::Reading::fault_at))]
fn read_fault(text: &[u8]) -> Option<((u8, u8), &[u8])>
    ensures { Finds (λ read. (read.0, read.1.now)) result (spec.fault_at text.now) }
{
    let (code, rest) = read_byte(text)?;
    let rest = behind(b" after ", rest)?;
    let (after, rest) = read_byte(rest)?;
    Some(((code, after), rest))
}

/// Reads what a late answer shows beside words that were read.
#[tactic(auto, unfolding(crate::specs::Reading::plain_at))]
fn read_plain(text: &[u8]) -> Option<(LateAnswer, &[u8])>
    ensures printed { IfSome result (λ read. IsPrintedLate read.0) }
    ensures read { Finds (λ read. (read.0, read.1.now)) result (spec.plain_at text.now) }
{
    if let Some(rest) = behind(b"done", text) {
        return Some((LateAnswer::Done, rest));
    }
    if let Some(rest) = behind(b"skipped", text) {
        return Some((LateAnswer::Skipped, rest));
    }
    if let Some(rest) = behind(b"garbled", text) {
        return Some((LateAnswer::Garbled, rest));
    }
    if let Some(rest) = behind(b"was ", text) {
        let (word, rest) = read_word(rest)?;
        return Some((LateAnswer::Was(word), rest));
    }
    let rest = behind(b"error ", text)?;
    let ((code, after), rest) = read_fault(rest)?;
    Some((LateAnswer::Error { code, after }, rest))
}

/// Reads what a late answer shows.
#[tactic(auto, unfolding(crate::specs::Reading::answer_at))]
fn read_answer(alloc: Global, text: &[u8]) -> Result<Option<(LateAnswer, &[u8])>, NoMemory>
    ensures printed { IfOk result (λ found. IfSome found (λ read. IsPrintedLate read.0)) }
    ensures read { IfOk result (λ found. Finds (λ read. (read.0, read.1.now)) found (spec.answer_at text.now)) }
{
    let Some(rest) = behind(b"=", text) else {
        return Ok(read_plain(text));
    };
    let mut words = Vec::new(alloc);
    let rest = read_words(&mut words, rest)?;
    Ok(Some((LateAnswer::Value(Words::from_vec(words)), rest)))
}

/// What came in time and is shown so.
fn in_time(answer: LateAnswer) -> OpResult
    requires { IsPrintedLate answer }
    ensures printed { IsPrinted result }
    ensures value { result ≡ spec.in_time answer }
{
    match answer {
        LateAnswer::Value(words) => OpResult::Value(words),
        LateAnswer::Done => OpResult::Done,
        LateAnswer::Was(word) => OpResult::Was(word),
        LateAnswer::Error { code, after } => OpResult::Error { code, after },
        LateAnswer::Skipped => OpResult::Skipped,
        LateAnswer::Garbled => OpResult::Garbled,
    }
}

/// Reads the rounds of a timeout.
#[tactic(auto, unfolding(crate::specs::Reading::rounds_at))]
fn read_rounds(text: &[u8]) -> Option<(u8, &[u8])>
    ensures { Finds (λ read. (read.0, read.1.now)) result (spec.rounds_at text.now) }
{
    let (rounds, rest) = read_byte(text)?;
    let rest = behind(b" rounds, ", rest)?;
    Some((rounds, rest))
}

/// Reads a timeout behind its first words.
#[tactic(auto, unfolding(crate::specs::Reading::timeout_at))]
fn read_timeout(alloc: Global, text: &[u8]) -> Result<Option<(OpResult, &[u8])>, NoMemory>
    ensures printed { IfOk result (λ found. IfSome found (λ read. IsPrinted read.0)) }
    ensures read { IfOk result (λ found. Finds (λ read. (read.0, read.1.now)) found (spec.timeout_at text.now)) }
{
    let Some((rounds, rest)) = read_rounds(text) else {
        return Ok(None);
    };
    if let Some(rest) = behind(b"execution unknown", rest) {
        return Ok(Some((OpResult::TimedOut { rounds }, rest)));
    }
    let Some(rest) = behind(b"answered late: ", rest) else {
        return Ok(None);
    };
    match read_answer(alloc, rest)? {
        Some((answer, rest)) => Ok(Some((OpResult::Late { rounds, answer }, rest))),
        None => Ok(None),
    }
}

/// Reads what an operation came to that no rule denies.
#[tactic(auto, unfolding(crate::specs::Reading::result_at))]
fn read_result(alloc: Global, text: &[u8]) -> Result<Option<(OpResult, &[u8])>, NoMemory>
    ensures printed { IfOk result (λ found. IfSome found (λ read. IsPrinted read.0)) }
    ensures read { IfOk result (λ found. Finds (λ read. (read.0, read.1.now)) found (spec.result_at text.now)) }
{
    if let Some(rest) = behind(b"timeout after ", text) {
        return read_timeout(alloc, rest);
    }
    if let Some(rest) = behind(b"unsent", text) {
        return Ok(Some((OpResult::Unsent, rest)));
    }
    if let Some(rest) = behind(b"link lost", text) {
        return Ok(Some((OpResult::LinkLost, rest)));
    }
    match read_answer(alloc, text)? {
        Some((answer, rest)) => Ok(Some((in_time(answer), rest))),
        None => Ok(None),
    }
}

/// Reads the place of a body and the number of a transaction in it.
#[tactic(auto, unfolding(crate::specs::Reading::place_at))]
fn read_place(text: &[u8]) -> Option<((u64, u16), &[u8])>
    ensures printed { IfSome result (λ read. IsPrintedPlace read.0) }
    ensures read { Finds (λ read. (read.0, read.1.now)) result (spec.place_at text.now) }
{
    let (place, rest) = read_number(10, text)?;
    let rest = behind(b".", rest)?;
    let (number, rest) = read_number(10, rest)?;
    if number < 1 << 16 {
        Some(((place, number as u16), rest))
    } else {
        None
    }
}

/// Reads a comma and a place.
#[tactic(auto, unfolding(crate::specs::Reading::next_place_at))]
fn read_next_place(text: &[u8]) -> Option<((u64, u16), &[u8])>
    ensures printed { IfSome result (λ read. IsPrintedPlace read.0) }
    ensures read { Finds (λ read. (read.0, read.1.now)) result (next_place_at text.now) }
{
    let rest = behind(b",", text)?;
    read_place(rest)
}

/// Appends the places at the front, each behind a comma.
fn read_more_places(out: &mut Vec<(u64, u16)>, text: &[u8]) -> Result<(), NoMemory>
    ensures printed { OnOk result
        (AllByRecursion IsPrintedPlace out.old.items → AllByRecursion IsPrintedPlace out.new.items) }
    ensures places { OnOk result (out.new.items ≡ out.old.items ++ (all_of next_place_at text.now).0) }
{
    let mut rest = text;
    'places: while let Some((place, more)) = read_next_place(rest) {
        out.push(place)?;
        rest = more;
    }
    Ok(())
}

/// Reads the places of an operation, where it has any.
fn read_places(alloc: Global, text: &[u8]) -> Result<Option<LinePlaces>, NoMemory>
    ensures printed { IfOk result (λ found. IfSome found (AllByRecursion IsPrintedPlace)) }
    ensures read { IfOk result (λ found. Finds (λ places. places) found
        (spec.places_of (front.behind (codes " @") text.now))) }
{
    let Some(rest) = behind(b" @", text) else {
        return Ok(Some(LinePlaces::from_vec(Vec::new(alloc))));
    };
    let Some((first, rest)) = read_place(rest) else {
        return Ok(None);
    };
    // most operations have one place
    let mut places = Vec::with_capacity(alloc, 1)?;
    places.push(first)?;
    read_more_places(&mut places, rest)?;
    Ok(Some(LinePlaces::from_vec(places)))
}

/// Reads what a line shows behind its register.
#[tactic(auto, unfolding(crate::specs::Reading::showing_at))]
pub(crate) fn read_showing(alloc: Global, text: &[u8]) -> Result<Option<ShownOp>, NoMemory>
    ensures printed { IfOk result (λ found. IfSome found IsPrintedShowing) }
    ensures read { IfOk result (λ found. Finds (λ shown. shown) found (spec.showing_at text.now)) }
{
    let Some((result, rest)) = read_result(alloc, text)? else {
        return Ok(None);
    };
    match read_places(alloc, rest)? {
        Some(places) => Ok(Some(ShownOp { result, places })),
        None => Ok(None),
    }
}
