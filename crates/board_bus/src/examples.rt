//! Worked examples of the definitions. These functions do nothing when they run: their clauses are what is proved.

ghost use Rattle.std.specs.Prelude.{◌≡◌, [], ◌∷◌, Some, Err};
ghost use Rattle.board_bus.specs.declared.range.BusRefusal.TheVariants.{Overlap, PastEnd};
ghost use Rattle.board_bus.specs.declared.kind.RangeKind.TheVariants.{Rw, Ro, Wo, Slow};
ghost use Rattle.board_bus.specs.declared.fault.BusFault.TheVariants.{WriteError};
ghost use Rattle.board_bus.specs.Cells.{write_word};
ghost use Rattle.board_bus.specs.Ranges.{opening_bus, refusal_of};
ghost use Rattle.board_bus.specs.Bodies.{run_body};

/// A read of address 4 answers the word that the range opens with there.
#[tactic(auto, unfolding(transaction_codec::specs::Request::request_at))]
pub fn an_opening_word_is_read()
    ensures { (run_body (opening_bus
        (record { base = 0; size = 16; kind = Rw; init = 0 ∷ 0 ∷ 0 ∷ 0 ∷ 0xabcd ∷ [] } ∷ []))
        (0x2000010f ∷ 4 ∷ [])).reply ≡ 0x20000100 ∷ 0xabcd ∷ [] }
{}

/// A header of an unknown type after a read ends the reply: one header with its transaction identifier answers it.
/// Type 6 is none of the six.
#[tactic(auto, unfolding(transaction_codec::specs::Request::request_at))]
pub fn an_unknown_type_ends_the_reply()
    ensures { (run_body (opening_bus
        (record { base = 0; size = 16; kind = Rw; init = 0 ∷ 0 ∷ 0 ∷ 0 ∷ 0xabcd ∷ [] } ∷ []))
        (0x2000010f ∷ 4 ∷ 0x2001016f ∷ 0 ∷ [])).reply ≡ 0x20000100 ∷ 0xabcd ∷ 0x20010001 ∷ [] }
{}

/// A request cut short is a bad header too: a masked write has three words after its header, and here is one. The bus
/// is left.
#[tactic(auto, unfolding(transaction_codec::specs::Request::request_at))]
pub fn a_request_cut_short_is_a_bad_header()
    ensures { run_body (opening_bus (record { base = 0; size = 1; kind = Rw; init = 5 ∷ [] } ∷ []))
        (0x2000014f ∷ 0 ∷ [])
        ≡ record { cells = (0, record { kind = Rw; word = 5 }) ∷ []; reply = 0x20000001 ∷ [] } }
{}

/// A read of two words from the last address answers one word and code 4: no address follows 0xffffffff.
#[tactic(auto, unfolding(transaction_codec::specs::Request::request_at))]
pub fn a_block_stops_at_the_last_address()
    ensures block { (run_body (opening_bus (record { base = 0xffffffff; size = 1; kind = Rw; init = 7 ∷ [] } ∷ []))
        (0x2000020f ∷ 0xffffffff ∷ [])).reply ≡ 0x20000104 ∷ 7 ∷ [] }
    ensures absent { write_word (opening_bus
        (record { base = 0xffffffff; size = 1; kind = Rw; init = 7 ∷ [] } ∷ [])) 0 1 ≡ Err WriteError }
{}

/// A masked write sets the top bit of a word, and the body's next request adds 1 modulo 2^32. Both answer the word
/// before.
#[tactic(auto, unfolding(transaction_codec::specs::Request::request_at))]
pub fn a_word_is_masked_and_added_to()
    ensures { (run_body (opening_bus (record { base = 8; size = 1; kind = Rw; init = 0x7fffffff ∷ [] } ∷ []))
        (0x2000014f ∷ 8 ∷ 0x7fffffff ∷ 0x80000000 ∷ 0x2001015f ∷ 8 ∷ 1 ∷ 0x2002010f ∷ 8 ∷ [])).reply
        ≡ 0x20000140 ∷ 0x7fffffff ∷ 0x20010150 ∷ 0xffffffff ∷ 0x20020100 ∷ 0 ∷ [] }
{}

/// A write of two words is refused at the second one: the bus keeps the first word, and the request behind it is not
/// executed. Address 1 is slow.
#[tactic(auto, unfolding(transaction_codec::specs::Request::request_at))]
pub fn a_failing_write_stays_written()
    ensures { run_body (opening_bus (record { base = 0; size = 1; kind = Rw; init = [] }
        ∷ record { base = 1; size = 1; kind = Slow; init = [] } ∷ []))
        (0x2000021f ∷ 0 ∷ 5 ∷ 6 ∷ 0x2001011f ∷ 0 ∷ 9 ∷ [])
        ≡ record {
          cells = (0, record { kind = Rw; word = 5 }) ∷ (1, record { kind = Slow; word = 0 }) ∷ [];
          reply = 0x20000117 ∷ [];
        } }
{}

/// A block is written up to the first address that refuses it. Address 1 is read only.
#[tactic(auto, unfolding(transaction_codec::specs::Request::request_at))]
pub fn a_block_write_stops_at_a_read_only_word()
    ensures { run_body (opening_bus (record { base = 0; size = 1; kind = Rw; init = [] }
        ∷ record { base = 1; size = 1; kind = Ro; init = 3 ∷ [] } ∷ []))
        (0x2000021f ∷ 0 ∷ 5 ∷ 6 ∷ [])
        ≡ record {
          cells = (0, record { kind = Rw; word = 5 }) ∷ (1, record { kind = Ro; word = 3 }) ∷ [];
          reply = 0x20000115 ∷ [];
        } }
{}

/// A write-only word is written.
#[tactic(auto, unfolding(transaction_codec::specs::Request::request_at))]
pub fn a_write_only_word_is_written()
    ensures { run_body (opening_bus (record { base = 0; size = 1; kind = Wo; init = [] } ∷ []))
        (0x2000011f ∷ 0 ∷ 9 ∷ [])
        ≡ record { cells = (0, record { kind = Wo; word = 9 }) ∷ []; reply = 0x20000110 ∷ [] } }
{}

/// A read or a write of no words succeeds, also where nothing is.
#[tactic(auto, unfolding(transaction_codec::specs::Request::request_at))]
pub fn no_words_are_read_and_written_anywhere()
    ensures { (run_body (opening_bus []) (0x2000000f ∷ 0 ∷ 0x2001001f ∷ 0 ∷ [])).reply ≡ 0x20000000 ∷ 0x20010010 ∷ [] }
{}

/// A masked write that is refused counts 0 and carries no word: by its write where the word may be read, and else by
/// its read.
#[tactic(auto, unfolding(transaction_codec::specs::Request::request_at))]
pub fn a_refused_masked_write_carries_no_word()
    ensures read_only { (run_body (opening_bus (record { base = 0; size = 1; kind = Ro; init = [] } ∷ []))
        (0x2000014f ∷ 0 ∷ 1 ∷ 2 ∷ [])).reply ≡ 0x20000045 ∷ [] }
    ensures write_only { (run_body (opening_bus (record { base = 0; size = 1; kind = Wo; init = [] } ∷ []))
        (0x2000014f ∷ 0 ∷ 1 ∷ 2 ∷ [])).reply ≡ 0x20000044 ∷ [] }
    ensures slow { (run_body (opening_bus (record { base = 0; size = 1; kind = Slow; init = [] } ∷ []))
        (0x2000014f ∷ 0 ∷ 1 ∷ 2 ∷ [])).reply ≡ 0x20000046 ∷ [] }
    ensures absent { (run_body (opening_bus []) (0x2000014f ∷ 0 ∷ 1 ∷ 2 ∷ [])).reply ≡ 0x20000044 ∷ [] }
{}

/// Two masked writes of one word, and a read of it: each answers the word that the one before left.
#[tactic(auto, unfolding(transaction_codec::specs::Request::request_at))]
pub fn masked_writes_follow_one_another()
    ensures { (run_body (opening_bus (record { base = 8; size = 1; kind = Rw; init = [] } ∷ []))
        (0x2000014f ∷ 8 ∷ 0x0000ffff ∷ 0x10 ∷ 0x2001014f ∷ 8 ∷ 0xfffffff0 ∷ 1 ∷ 0x2002010f ∷ 8 ∷ [])).reply
        ≡ 0x20000140 ∷ 0 ∷ 0x20010140 ∷ 0x10 ∷ 0x20020100 ∷ 0x11 ∷ [] }
{}

/// A range within another overlaps it, also where the inner one comes first; the first broken rule is the one
/// answered.
pub fn ranges_are_refused_by_the_first_rule()
    ensures within { refusal_of (record { base = 4; size = 1; kind = Ro; init = [] }
        ∷ record { base = 0; size = 16; kind = Rw; init = [] } ∷ []) ≡ Some Overlap }
    ensures first { refusal_of (record { base = 0; size = 1; kind = Ro; init = 1 ∷ 2 ∷ [] }
        ∷ record { base = 0xffffffff; size = 2; kind = Rw; init = [] } ∷ []) ≡ Some PastEnd }
{}
