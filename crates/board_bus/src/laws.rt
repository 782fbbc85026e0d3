//! Laws of the definitions. These functions do nothing when they run: their clauses are what is proved.

ghost use Rattle.std.specs.Prelude.{◌≡◌, ◌≢◌, ◌≤◌, ◌+◌, ◌<◌, ◌⊎◌, ◌↔◌, ℕ, false, Ok, Err, None, Some, IsOk};
ghost use Rattle.std.specs.Prelude.{List, [], ◌∷◌, ◌++◌, length, replicate, slice_index, take};
ghost use Rattle.std.specs.List.{AllByRecursion, AllZip, count_by, list_any, slice_get};
ghost use Rattle.std.specs.Ordering.{nat_cmp};
ghost use Rattle.std.specs.FinMap.Entries.{find};
ghost use Rattle.ipb_base.specs.Word.{AreWords};
ghost use Rattle.transaction_codec.specs.declared.request.Op.TheVariants.{Read, ReadPort, Write, WritePort};
ghost use Rattle.transaction_codec.specs.declared.request.Request.{Request};
ghost use Rattle.transaction_codec.specs.Request.{AreRequests, IsRequest, NoRequestAtFront, request_words};
ghost use Rattle.transaction_codec.specs.Request.{requests_words};
ghost use Rattle.transaction_codec.specs.Reply.{reply_words};
ghost use Rattle.transaction_codec.specs.Answer.{CanAnswer, IsReplyTo, bad_header_reply, reply_room};
ghost use Rattle.transaction_codec.specs.declared.info_code.TheConstants.{SUCCESS};
ghost use Rattle.board_bus.specs.declared.fault.BusFault.{BusFault};
ghost use Rattle.board_bus.specs.declared.range.Range.{Range as BusRange};
ghost use Rattle.board_bus.specs.Cells.{Cell, CellMap, HoldsWords, IsInOrder, cell_at};
ghost use Rattle.board_bus.specs.Cells.{read_fault, read_word, unless, write_word};
ghost use Rattle.board_bus.specs.Ranges.{IsOutside, any_pair, holds_address, is_empty_range, share_address};
ghost use Rattle.board_bus.specs.Ranges.{most_words, opening_bus, opening_words, refusal_of};
ghost use Rattle.board_bus.specs.Transactions.{EndsAtRefusal, outcome, transact, written_by};
ghost use Rattle.board_bus.specs.Bodies.{replay, run_body};

use crate::range::start_with_words;
use crate::reading::requests_are_read;
use crate::{MAX_WORDS, Range};

/// The ranges of a bus have at most this many words together (profile).
pub fn the_most_words_of_a_bus()
    ensures { MAX_WORDS ≡ most_words }
{}

/// Of ranges that are not empty two share an address exactly where some address is in two of them.
pub fn an_overlap_is_an_address_in_two_ranges()
    ensures { (ranges : List BusRange) → list_any is_empty_range ranges ≡ false →
        (any_pair share_address ranges ≡ false) ↔ ((address : ℕ) → count_by (holds_address address) ranges ≤ 1) }
{}

/// A bus opens with the cells of its ranges and no others: each address of a range holds the range's opening word
/// there, a read answers it where the kind allows that, and an address in no range is absent.
pub fn a_bus_opens_with_its_ranges()
    ensures within { (front back : List BusRange) (range : BusRange) (place : ℕ) →
        refusal_of (front ++ range ∷ back) ≡ None → place < range.size →
        cell_at (opening_bus (front ++ range ∷ back)) (range.base + place)
        ≡ Some (record { kind = range.kind; word = slice_index (opening_words range) place }) }
    ensures read { (front back : List BusRange) (range : BusRange) (place : ℕ) →
        refusal_of (front ++ range ∷ back) ≡ None → place < range.size →
        read_word (opening_bus (front ++ range ∷ back)) (range.base + place)
        ≡ unless (read_fault range.kind) (slice_index (opening_words range) place) }
    ensures outside { (ranges : List BusRange) (address : ℕ) → refusal_of ranges ≡ None →
        AllByRecursion (IsOutside address) ranges → cell_at (opening_bus ranges) address ≡ None }
{}

/// A write puts its word at its address and keeps the kind there. It changes no other cell.
pub fn a_write_changes_one_word()
    ensures here { (cells after : CellMap) (address word : ℕ) (cell : Cell) →
        write_word cells address word ≡ Ok after → cell_at cells address ≡ Some cell →
        cell_at after address ≡ Some (record { kind = cell.kind; word = word }) }
    ensures elsewhere { (cells after : CellMap) (address other word : ℕ) → write_word cells address word ≡ Ok after →
        (other < address) ⊎ (address < other) → cell_at after other ≡ cell_at cells other }
{}

/// A word that was written is read again at its address, where that may be read. What others give is as before.
pub fn a_written_word_is_read()
    ensures here { (cells after : CellMap) (address word : ℕ) → write_word cells address word ≡ Ok after →
        IsOk (read_word cells address) → read_word after address ≡ Ok word }
    ensures elsewhere { (cells after : CellMap) (address other word : ℕ) → write_word cells address word ≡ Ok after →
        (other < address) ⊎ (address < other) → read_word after other ≡ read_word cells other }
{}

/// A read of words at `base`, `base` + 1, .. answers the word at each address, up to the first one that is refused,
/// whose fault ends it, or all that were asked for.
pub fn a_block_is_read_up_to_the_first_refusal()
    ensures words { (cells : CellMap) (base count place : ℕ) →
        place < length (outcome cells (Read base count)).values →
        read_word cells (base + place) ≡ Ok (slice_index (outcome cells (Read base count)).values place) }
    ensures ends { (cells : CellMap) (base count : ℕ) →
        EndsAtRefusal (λ place. read_word cells (base + place)) count (outcome cells (Read base count)) }
{}

/// A read of words at one address, of a port, answers the word there each time, or is refused at the first.
pub fn a_port_read_repeats_one_word()
    ensures words { (cells : CellMap) (base count word : ℕ) → read_word cells base ≡ Ok word →
        outcome cells (ReadPort base count)
        ≡ record { cells = cells; count = count; fault = None; values = replicate count word } }
    ensures refused { (cells : CellMap) (base count : ℕ) (fault : BusFault) →
        read_word cells base ≡ Err fault → 0 < count →
        outcome cells (ReadPort base count) ≡ record { cells = cells; count = 0; fault = Some fault; values = [] } }
{}

/// A write of words at `base`, `base` + 1, .. leaves each word that was done at its own address and changes no other
/// cell. It is done up to the first address that the bus, as it was before the write, refuses, and that refusal ends
/// it.
pub fn a_block_is_written_up_to_the_first_refusal()
    ensures written { (cells : CellMap) (base place : ℕ) (words : List ℕ) (cell : Cell) →
        place < (outcome cells (Write base words)).count → cell_at cells (base + place) ≡ Some cell →
        cell_at (outcome cells (Write base words)).cells (base + place)
        ≡ Some (record { kind = cell.kind; word = slice_index words place }) }
    ensures elsewhere { (cells : CellMap) (base other : ℕ) (words : List ℕ) →
        (other < base) ⊎ (base + (outcome cells (Write base words)).count ≤ other) →
        cell_at (outcome cells (Write base words)).cells other ≡ cell_at cells other }
    ensures allowed { (cells : CellMap) (base place : ℕ) (words : List ℕ) →
        place < (outcome cells (Write base words)).count →
        IsOk (write_word cells (base + place) (slice_index words place)) }
    ensures ends { (cells : CellMap) (base : ℕ) (words : List ℕ) →
        EndsAtRefusal (λ place. write_word cells (base + place) (slice_index words place)) (length words)
        (outcome cells (Write base words)) }
{}

/// A write of words at one address, of a port, leaves the last of them there where the address may be written, and
/// counts them all. Where it may not, nothing is written.
pub fn a_port_write_leaves_its_last_word()
    ensures done { (cells : CellMap) (base last : ℕ) (words : List ℕ) → IsOk (write_word cells base last) →
        ((outcome cells (WritePort base (words ++ last ∷ []))).count ≡ length words + 1)
        × ((outcome cells (WritePort base (words ++ last ∷ []))).fault ≡ None) }
    ensures last { (cells : CellMap) (base last : ℕ) (words : List ℕ) (cell : Cell) →
        cell_at cells base ≡ Some cell → IsOk (write_word cells base last) →
        cell_at (outcome cells (WritePort base (words ++ last ∷ []))).cells base
        ≡ Some (record { kind = cell.kind; word = last }) }
    ensures refused { (cells : CellMap) (base word : ℕ) (words : List ℕ) (fault : BusFault) →
        write_word cells base word ≡ Err fault →
        outcome cells (WritePort base (word ∷ words))
        ≡ record { cells = cells; count = 0; fault = Some fault; values = [] } }
{}

/// Reads leave the bus as it is, of a block and of a port.
pub fn reads_leave_the_bus()
    ensures block { (cells : CellMap) (tid base count : ℕ) →
        (transact cells (record { tid = tid; op = Read base count })).cells ≡ cells }
    ensures port { (cells : CellMap) (tid base count : ℕ) →
        (transact cells (record { tid = tid; op = ReadPort base count })).cells ≡ cells }
{}

/// A body is executed request by request. Where the first succeeds, its reply stands before that of the rest, which
/// is executed as a body of its own on the bus that the first left; where it fails, its reply is the last and nothing
/// after it is executed.
pub fn a_body_is_executed_in_order()
    ensures success { (cells : CellMap) (request : Request) (rest : List ℕ) → IsRequest request →
        let first = transact cells request in
        first.reply.code ≡ SUCCESS →
        run_body cells (request_words request ++ rest) ≡ record {
          cells = (run_body first.cells rest).cells;
          reply = reply_words first.reply ++ (run_body first.cells rest).reply;
        } }
    ensures failed { (cells : CellMap) (request : Request) (rest : List ℕ) → IsRequest request →
        let first = transact cells request in
        first.reply.code ≢ SUCCESS →
        run_body cells (request_words request ++ rest)
        ≡ record { cells = first.cells; reply = reply_words first.reply } }
{
    requests_are_read();
}

/// A body that begins with no request leaves the bus as it is and is answered by one header: version 2, the
/// identifier in bits 27-16 of its first word, words 0, type 0, code 1. Nothing after that word counts. The empty
/// body has the empty reply.
pub fn a_bad_header_ends_a_body()
    ensures bad_header { (cells : CellMap) (word : ℕ) (after : List ℕ) → AreWords (word ∷ after) →
        NoRequestAtFront (word ∷ after) →
        run_body cells (word ∷ after) ≡ record { cells = cells; reply = reply_words (bad_header_reply word) } }
    ensures empty { (cells : CellMap) → run_body cells [] ≡ record { cells = cells; reply = [] } }
{
    requests_are_read();
}

/// A body leaves each address that none of its requests writes as it was, also where a bad header stands behind them.
pub fn a_body_leaves_what_it_does_not_write()
    ensures { (cells : CellMap) (requests : List Request) (rest : List ℕ) (address : ℕ) → AreRequests requests →
        AreWords rest → NoRequestAtFront rest →
        AllByRecursion (λ request. AllByRecursion (λ written. written ≢ address) (written_by request.op)) requests →
        cell_at (run_body cells (requests_words requests ++ rest)).cells address ≡ cell_at cells address }
{
    requests_are_read();
}

/// The reply to requests is a reply to them in the sense of the transaction grammar. With a bad header after them it
/// is still one that a device can give, and so is the reply to any body.
pub fn a_reply_answers_its_body()
    ensures requests { (cells : CellMap) (requests : List Request) → HoldsWords cells → AreRequests requests →
        IsReplyTo (requests_words requests) (run_body cells (requests_words requests)).reply }
    ensures bad_header { (cells : CellMap) (requests : List Request) (rest : List ℕ) → HoldsWords cells →
        AreRequests requests → AreWords rest → NoRequestAtFront rest →
        CanAnswer (requests_words requests ++ rest) (run_body cells (requests_words requests ++ rest)).reply }
    ensures any { (cells : CellMap) (body : List ℕ) → HoldsWords cells → AreWords body →
        CanAnswer body (run_body cells body).reply }
    ensures each { (cells : CellMap) (bodies : List (List ℕ)) → HoldsWords cells → AllByRecursion AreWords bodies →
        AllZip CanAnswer bodies (replay cells bodies).replies }
{
    requests_are_read();
}

/// The bus that ranges open holds 32-bit words, whatever the ranges. So the reply to each of the bodies, executed one
/// after another, is one that a board can give to it.
pub fn an_opening_bus_answers_bodies(ranges: &[Range])
    ensures words { HoldsWords (opening_bus ranges.now) }
    ensures replies { (bodies : List (List ℕ)) → AllByRecursion AreWords bodies →
        AllZip CanAnswer bodies (replay (opening_bus ranges.now) bodies).replies }
{
    requests_are_read();
    start_with_words(ranges);
}

/// A reply is never longer than the longest answer to its body.
pub fn a_reply_has_room()
    ensures { (cells : CellMap) (body : List ℕ) → length (run_body cells body).reply ≤ reply_room body }
{}

/// A bus that opens with 32-bit words holds them, and still does after any body and after any bodies.
pub fn words_stay_words()
    ensures opening { (ranges : List BusRange) → AllByRecursion (λ range. AreWords range.init) ranges →
        HoldsWords (opening_bus ranges) }
    ensures after { (cells : CellMap) (body : List ℕ) → HoldsWords cells → AreWords body →
        HoldsWords (run_body cells body).cells }
    ensures after_all { (cells : CellMap) (bodies : List (List ℕ)) → HoldsWords cells → AllByRecursion AreWords bodies →
        HoldsWords (replay cells bodies).cells }
{
    requests_are_read();
}

/// A bus is a finite map: its entries stand by rising address as it opens and after any body, and two that stand so
/// and find the same cell at each address are equal.
pub fn a_bus_is_known_by_its_cells()
    ensures opening { (ranges : List BusRange) → IsInOrder (opening_bus ranges) }
    ensures after { (cells : CellMap) (body : List ℕ) → IsInOrder cells → IsInOrder (run_body cells body).cells }
    ensures same { (cells other : CellMap) → IsInOrder cells → IsInOrder other →
        ((address : ℕ) → find nat_cmp address cells ≡ find nat_cmp address other) → cells ≡ other }
{}

/// To replay some bodies and then others is to replay them all, and each body has one reply.
pub fn replay_goes_on()
    ensures bus { (cells : CellMap) (front back : List (List ℕ)) →
        (replay cells (front ++ back)).cells ≡ (replay (replay cells front).cells back).cells }
    ensures replies { (cells : CellMap) (front back : List (List ℕ)) →
        (replay cells (front ++ back)).replies
        ≡ (replay cells front).replies ++ (replay (replay cells front).cells back).replies }
    ensures one_each { (cells : CellMap) (bodies : List (List ℕ)) →
        length (replay cells bodies).replies ≡ length bodies }
{}

/// The reply at each place is that of the body there, on the bus that the bodies before it left.
pub fn each_reply_is_that_of_its_body()
    ensures { (cells : CellMap) (bodies : List (List ℕ)) (place : ℕ) (body : List ℕ) →
        slice_get bodies place ≡ Some body →
        slice_get (replay cells bodies).replies place
        ≡ Some (run_body (replay cells (take place bodies)).cells body).reply }
{}
