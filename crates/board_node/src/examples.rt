//! Worked examples of what a board does, by the words of datagrams. These functions do nothing when they run: their
//! clauses are what is proved.
#![tactic(auto, unfolding(world_model::specs::Messages::to_board, packet_codec::specs::Reading::packet_of, packet_codec::specs::Reading::start_of, transaction_codec::specs::Request::request_at))]

ghost use Rattle.std.specs.Prelude.{◌≡◌, [], ◌∷◌, replicate, Some};
ghost use Rattle.ipb_base.specs.Word.{big_endian};
ghost use Rattle.world_model.specs.declared.heard.Heard.TheVariants.{Replied, Resent, Dropped};
ghost use Rattle.world_model.specs.declared.heard.DropCause.TheVariants.{NotPacket, TooLong, OtherId, NotHeld};
ghost use Rattle.world_model.specs.Board.{expected_identifier, hear};
ghost use Rattle.world_model.specs.Examples.{board_with};
ghost use Rattle.world_model.specs.Hearings.{after, heard_of};

/// A read of the word at address 4 is answered in the byte order in which it was asked.
pub fn a_read_is_answered_in_its_order()
    ensures big { (hear (board_with 1500 4 1) (0x20 ∷ 0 ∷ 1 ∷ 0xf0 ∷ 0x20 ∷ 0 ∷ 1 ∷ 0x0f ∷ 0 ∷ 0 ∷ 0 ∷ 4 ∷ [])).answer
        ≡ Some (0x20 ∷ 0 ∷ 1 ∷ 0xf0 ∷ 0x20 ∷ 0 ∷ 1 ∷ 0 ∷ 0 ∷ 0 ∷ 0xab ∷ 0xcd ∷ []) }
    ensures little { (hear (board_with 1500 4 1)
        (0xf0 ∷ 1 ∷ 0 ∷ 0x20 ∷ 0x0f ∷ 1 ∷ 0 ∷ 0x20 ∷ 4 ∷ 0 ∷ 0 ∷ 0 ∷ [])).answer
        ≡ Some (0xf0 ∷ 1 ∷ 0 ∷ 0x20 ∷ 0 ∷ 1 ∷ 0 ∷ 0x20 ∷ 0xcd ∷ 0xab ∷ 0 ∷ 0 ∷ []) }
{}

/// It is executed once: heard again it is dropped, and its reply is sent again where that is asked for. No packet 9 was
/// executed, and the header of a transaction is no packet.
pub fn a_packet_is_executed_once()
    ensures heard { heard_of (board_with 1500 4 1)
        (big_endian (0x200001f0 ∷ 0x2000010f ∷ 4 ∷ []) ∷ big_endian (0x200001f0 ∷ 0x2000010f ∷ 4 ∷ [])
        ∷ big_endian (0x200001f2 ∷ []) ∷ big_endian (0x200009f2 ∷ []) ∷ big_endian (0x20000100 ∷ []) ∷ [])
        ≡ Replied ∷ Dropped OtherId ∷ Resent ∷ Dropped NotHeld ∷ Dropped NotPacket ∷ [] }
    ensures again { (hear (after (board_with 1500 4 1) (big_endian (0x200001f0 ∷ 0x2000010f ∷ 4 ∷ []) ∷ []))
        (big_endian (0x200001f2 ∷ []))).answer ≡ Some (big_endian (0x200001f0 ∷ 0x20000100 ∷ 0xabcd ∷ [])) }
{}

/// A packet of identifier 0 is executed at each arrival: an addition of 1 answers the word before.
pub fn identifier_0_adds_each_time()
    ensures again { (hear
        (after (board_with 1500 4 1) (replicate 2 (big_endian (0x200000f0 ∷ 0x2000015f ∷ 8 ∷ 1 ∷ []))))
        (big_endian (0x200000f0 ∷ 0x2000015f ∷ 8 ∷ 1 ∷ []))).answer
        ≡ Some (big_endian (0x200000f0 ∷ 0x20000150 ∷ 2 ∷ [])) }
    ensures next { expected_identifier (after (board_with 1500 4 1)
        (replicate 3 (big_endian (0x200000f0 ∷ 0x2000015f ∷ 8 ∷ 1 ∷ [])))) ≡ 1 }
{}

/// 1 follows 0xffff, and a status reply tells it.
pub fn one_follows_the_last_identifier()
    ensures heard { heard_of (board_with 1500 4 65535)
        (big_endian (0x20fffff0 ∷ []) ∷ big_endian (0x200001f0 ∷ []) ∷ [])
        ≡ Replied ∷ Replied ∷ [] }
    ensures status { (hear
        (after (board_with 1500 4 65535) (big_endian (0x20fffff0 ∷ []) ∷ big_endian (0x200001f0 ∷ []) ∷ []))
        (big_endian (0x200000f1 ∷ replicate 15 0))).answer
        ≡ Some (big_endian (0x200000f1 ∷ 0x5dc ∷ 4 ∷ 0x200002f0 ∷ replicate 12 0)) }
{}

/// A bad header is answered by one header, and no transactions by the packet header alone.
pub fn bad_headers_and_empty_bodies_are_answered()
    ensures type_six { (hear (board_with 1500 4 1)
        (big_endian (0x200001f0 ∷ 0x2000010f ∷ 4 ∷ 0x2001016f ∷ 0 ∷ []))).answer
        ≡ Some (big_endian (0x200001f0 ∷ 0x20000100 ∷ 0xabcd ∷ 0x20010001 ∷ [])) }
    ensures cut_short { (hear (board_with 1500 4 1) (big_endian (0x200001f0 ∷ 0x2000010f ∷ []))).answer
        ≡ Some (big_endian (0x200001f0 ∷ 0x20000001 ∷ [])) }
    ensures empty { (hear (board_with 1500 4 1) (big_endian (0x200001f0 ∷ []))).answer
        ≡ Some (big_endian (0x200001f0 ∷ [])) }
{}

/// A read of 255 words is too long for the least MTU. No bytes, three bytes, a header of an unknown type and a status
/// header alone are no packet.
pub fn what_is_too_long_and_what_is_no_packet()
    ensures too_long { (hear (board_with 92 4 1) (big_endian (0x200001f0 ∷ 0x2000ff0f ∷ 0 ∷ []))).heard
        ≡ Dropped TooLong }
    ensures no_packet { heard_of (board_with 1500 4 1)
        ([] ∷ (0x20 ∷ 0 ∷ 1 ∷ []) ∷ big_endian (0x200001f3 ∷ []) ∷ big_endian (0x200000f1 ∷ []) ∷ [])
        ≡ replicate 4 (Dropped NotPacket) }
{}
