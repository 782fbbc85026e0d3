//! Laws of the definitions. These functions do nothing when they run: their clauses are what is proved.

ghost use Rattle.std.specs.Prelude.{◌≡◌, ◌↔◌, ℕ, ◌+◌, ◌*◌, ◌<◌, ◌≤◌, List, [], ◌∷◌, length, map, sum_by, Some};
ghost use Rattle.std.specs.Prelude.{slice_get};
ghost use Rattle.std.specs.List.{AllByRecursion, flat_map, range_with_len};
ghost use Rattle.ipb_base.specs.Numbers.{least_payload, greatest_payload};
ghost use Rattle.transaction_codec.specs.declared.request.Op.{Op};
ghost use Rattle.transaction_codec.specs.declared.request.Op.TheVariants.{Read, ReadPort, Write};
ghost use Rattle.transaction_codec.specs.declared.request.Request.{Request};
ghost use Rattle.transaction_codec.specs.Request.{AreRequests, SpellsRequests, op_count, requests_words};
ghost use Rattle.transaction_codec.specs.Answer.{IsLongestAnswer};
ghost use Rattle.mtu_packer.specs.Accesses.{accesses};
ghost use Rattle.mtu_packer.specs.Cutting.{CanBeCut, HasWords, cut_pieces};
ghost use Rattle.mtu_packer.specs.Packing.{
  AreReadable,
  IsPacking,
  body_requests,
  body_words,
  longest_reply,
  parts_of,
};
ghost use Rattle.mtu_packer.specs.Packed.{Contents, HasPiece, IsPacked, packed_contents, piece_at, places_from};
ghost use Rattle.mtu_packer.specs.Packed.{words_with_answer};
ghost use Rattle.mtu_packer.specs.declared.packed.Piece.{Piece};

use crate::cutting::{ADDRESS, HEADERS};
use crate::packing::{MAX_PAYLOAD, MIN_PAYLOAD};
use transaction_codec::laws::one_list_for_words;

/// The payloads for which operations are packed, those of the least and the greatest MTU, and the words of a packet
/// that are not words of a block.
pub fn the_numbers_of_a_payload()
    ensures least { MIN_PAYLOAD ≡ least_payload }
    ensures greatest { MAX_PAYLOAD ≡ greatest_payload }
    ensures headers { HEADERS ≡ 2 }
    ensures address { ADDRESS ≡ 1 }
{}

/// The packing of operations is a function of the operations and the payload, and so is what packing them answers,
/// where every body has requests that a reader accepts.
pub fn packing_is_a_function()
    ensures parts { (ops : List Op) (payload : ℕ) (parts : List (List Op)) → MIN_PAYLOAD ≤ payload →
        (IsPacking ops payload parts ↔ (parts ≡ parts_of payload ops)) }
    ensures contents { (ops : List Op) (payload : ℕ) (contents : Contents) → MIN_PAYLOAD ≤ payload →
        (IsPacked ops payload contents ↔ (AreReadable (parts_of payload ops) × (contents ≡ packed_contents payload ops))) }
{}

/// The bodies are words of requests alone.
pub fn packed_bodies_spell_requests()
    ensures { (ops : List Op) (payload : ℕ) (contents : Contents) → IsPacked ops payload contents →
        AllByRecursion SpellsRequests contents.bodies }
{}

/// The request at the place of a piece asks for that piece, and its identifier is its place in the body: whatever
/// requests the body spells, for piece j of operation k.
pub fn the_request_at_a_place_is_the_piece()
    ensures { (ops : List Op) (payload : ℕ) (contents : Contents) (k j : ℕ) (op piece : Op)
        (places : List Piece) (place : Piece) (requests : List Request) → IsPacked ops payload contents →
        slice_get ops k ≡ Some op → slice_get contents.pieces k ≡ Some places →
        slice_get (cut_pieces payload op) j ≡ Some piece → slice_get places j ≡ Some place →
        AreRequests requests → slice_get contents.bodies place.body ≡ Some (requests_words requests) →
        slice_get requests place.index ≡ Some (record { tid = place.index; op = piece }) }
{
    one_list_for_words();
}

/// Operations that can be packed, and whose addresses and words have 32 bits, are packed by that function: every body
/// has requests that a reader accepts.
pub fn operations_of_words_are_packed()
    ensures { (ops : List Op) (payload : ℕ) → MIN_PAYLOAD ≤ payload → payload ≤ MAX_PAYLOAD →
        AllByRecursion CanBeCut ops → AllByRecursion HasWords ops → IsPacked ops payload (packed_contents payload ops) }
{}

/// Each body has a piece, so none is sent for nothing.
pub fn each_body_has_a_piece()
    ensures packing { (ops : List Op) (payload : ℕ) (contents : Contents) (body : ℕ) → IsPacked ops payload contents →
        body < length contents.bodies → HasPiece body contents.pieces }
    ensures function { (ops : List Op) (payload body : ℕ) → body < length (packed_contents payload ops).bodies →
        HasPiece body (packed_contents payload ops).pieces }
{}

/// Operations have one packing, and so one list of bodies and of places.
pub fn a_packing_is_the_only_one()
    ensures parts { (ops : List Op) (payload : ℕ) (one other : List (List Op)) →
        IsPacking ops payload one → IsPacking ops payload other → one ≡ other }
    ensures contents { (ops : List Op) (payload : ℕ) (one other : Contents) →
        IsPacked ops payload one → IsPacked ops payload other → one ≡ other }
{}

/// The places of all pieces, in order, are where all pieces stand, in order.
pub fn each_piece_stands_at_its_place()
    ensures { (parts : List (List Op)) →
        map (piece_at parts) (places_from 0 parts) ≡ map Some (flat_map (λ part. part) parts) }
{}

/// The longest reply to a body is the longest answer that a board can give to its words.
pub fn the_longest_reply_is_the_longest_answer()
    ensures { (part : List Op) → AreRequests (body_requests part) →
        IsLongestAnswer (body_words part) (longest_reply part) }
{}

/// There are no more pieces than words.
pub fn pieces_are_no_more_than_words()
    ensures { (ops : List Op) (payload : ℕ) → MIN_PAYLOAD ≤ payload →
        length (flat_map (cut_pieces payload) ops) ≤ sum_by op_count ops }
{}

/// A packing has few bodies, and they are short: a piece that is not the last one of its operation has 13 words at
/// least, and what a piece takes in a packet and in its answer beside the words that it reads or writes is 5 words at
/// most.
pub fn packings_are_short()
    ensures bodies { (ops : List Op) (payload : ℕ) (contents : Contents) → MIN_PAYLOAD ≤ payload →
        IsPacked ops payload contents → 13 * length contents.bodies ≤ sum_by op_count ops + 12 * length ops }
    ensures words { (ops : List Op) (payload : ℕ) (contents : Contents) → MIN_PAYLOAD ≤ payload →
        IsPacked ops payload contents → sum_by words_with_answer contents.bodies ≤ 6 * sum_by op_count ops }
{}

/// Three reads of 10, 3 and 2 words at a payload of 16 words. The replies to the first two have 15 words.
pub fn reads_are_packed_by_their_replies()
    ensures { IsPacking (Read 0 10 ∷ Read 64 3 ∷ Read 96 2 ∷ []) 16
        ((Read 0 10 ∷ Read 64 3 ∷ []) ∷ (Read 96 2 ∷ []) ∷ []) }
{}

/// One write of 14 words at a payload of 16 words: 13 of them fill a packet.
pub fn a_long_write_is_cut()
    ensures packing { IsPacking (Write 0x100 (range_with_len 1 14) ∷ []) 16
        ((Write 0x100 (range_with_len 1 13) ∷ []) ∷ (Write 0x10d (14 ∷ []) ∷ []) ∷ []) }
    ensures words { length (body_words (Write 0x100 (range_with_len 1 13) ∷ [])) ≡ 15 }
{}

/// A block read of 600 words at a payload of 368 words, and the same of a port.
pub fn a_block_read_is_cut_by_the_words_field()
    ensures cut { cut_pieces 368 (Read 0x1000 600) ≡ Read 0x1000 255 ∷ Read 0x10ff 255 ∷ Read 0x11fe 90 ∷ [] }
    ensures port { cut_pieces 368 (ReadPort 0x1000 600)
        ≡ ReadPort 0x1000 255 ∷ ReadPort 0x1000 255 ∷ ReadPort 0x1000 90 ∷ [] }
    ensures packing { IsPacking (Read 0x1000 600 ∷ []) 368
        ((Read 0x1000 255 ∷ []) ∷ (Read 0x10ff 255 ∷ Read 0x11fe 90 ∷ []) ∷ []) }
    ensures places { places_from 0 ((Read 0x1000 255 ∷ []) ∷ (Read 0x10ff 255 ∷ Read 0x11fe 90 ∷ []) ∷ [])
        ≡ record { body = 0; index = 0 } ∷ record { body = 1; index = 0 } ∷ record { body = 1; index = 1 } ∷ [] }
{}

/// The pieces of an operation ask, one after the other, for the accesses of the operation.
pub fn the_pieces_ask_for_the_accesses_of_the_operation()
    ensures { (op : Op) (payload : ℕ) → MIN_PAYLOAD ≤ payload →
        flat_map accesses (cut_pieces payload op) ≡ accesses op }
{}
