//! Worked examples of the definitions. These functions do nothing when they run: their clauses are what is proved, by
//! computing the definitions.

ghost use Rattle.std.specs.Prelude.{◌≡◌, false, [], ◌∷◌, replicate, Some, Ok, Err};
ghost use Rattle.ipb_base.specs.Word.{big_endian};
ghost use Rattle.world_model.specs.declared.heard.Heard.TheVariants.{Dropped};
ghost use Rattle.world_model.specs.declared.heard.DropCause.TheVariants.{OtherId};
ghost use Rattle.world_model.specs.declared.moves.WorldMove.TheVariants.{Offer, Quiet, HubHears, BoardHears};
ghost use Rattle.world_model.specs.declared.moves.WorldEnd.TheVariants.{NotThere};
ghost use Rattle.world_model.specs.declared.offered.Fate.TheVariants.{Replied, TimedOut};
ghost use Rattle.world_model.specs.Board.{hear};
ghost use Rattle.world_model.specs.Examples.{after, board_with, read_four, four_read, add_one, one_added};

/// The first packet to a fresh board, in both byte orders, each answered in its own.
#[tactic(auto, unfolding(crate::specs::Messages::to_board, crate::specs::Messages::to_hub, packet_codec::specs::Reading::packet_of, packet_codec::specs::Reading::start_of, transaction_codec::specs::Request::request_at))]
pub fn a_control_packet_is_answered_in_its_order()
    ensures big { (hear (board_with 1500 16 1) (big_endian (0x200001f0 ∷ 0x2000010f ∷ 4 ∷ []))).answer
        ≡ Some (big_endian (0x200001f0 ∷ 0x20000100 ∷ 0xabcd ∷ [])) }
    ensures little { (hear (board_with 1500 16 1) (big_endian (0xf0010020 ∷ 0x0f010020 ∷ 0x04000000 ∷ []))).answer
        ≡ Some (big_endian (0xf0010020 ∷ 0x00010020 ∷ 0xcdab0000 ∷ [])) }
{}

/// A packet that comes again is dropped, and executed once.
#[tactic(auto, unfolding(crate::specs::Messages::to_board, crate::specs::Messages::to_hub, packet_codec::specs::Reading::packet_of, packet_codec::specs::Reading::start_of, transaction_codec::specs::Request::request_at))]
pub fn a_repeated_packet_is_dropped()
    ensures { let first = hear (board_with 1500 16 1) (big_endian (0x200001f0 ∷ 0x2000010f ∷ 4 ∷ [])) in
        (hear first.board (big_endian (0x200001f0 ∷ 0x2000010f ∷ 4 ∷ []))).heard ≡ Dropped OtherId }
{}

/// The identifiers 65535 and 1, both in the window, and the replies heard in the other order.
#[tactic(auto, unfolding(crate::specs::Messages::to_board, crate::specs::Messages::to_hub, packet_codec::specs::Reading::packet_of, packet_codec::specs::Reading::start_of, transaction_codec::specs::Request::request_at))]
pub fn replies_heard_in_the_other_order()
    ensures { after 2 8 (board_with 1500 16 65535) (Offer 7 read_four ∷ Offer 8 add_one ∷ BoardHears 0 ∷ BoardHears 1
        ∷ HubHears 3 ∷ HubHears 2 ∷ [])
        ≡ Ok (record {
          executed_bodies = read_four ∷ add_one ∷ [];
          fates = (8, Replied 2 one_added) ∷ (7, Replied 1 four_read) ∷ [];
          lates = [];
          open_places = [];
          air = big_endian (0x20fffff0 ∷ read_four) ∷ big_endian (0x200001f0 ∷ add_one)
              ∷ big_endian (0x20fffff0 ∷ four_read) ∷ big_endian (0x200001f0 ∷ one_added) ∷ [];
        }) }
{}

/// A packet that the board hears twice is executed once.
#[tactic(auto, unfolding(crate::specs::Messages::to_board, crate::specs::Messages::to_hub, packet_codec::specs::Reading::packet_of, packet_codec::specs::Reading::start_of, transaction_codec::specs::Request::request_at))]
pub fn one_packet_heard_twice()
    ensures { after 16 8 (board_with 1500 16 1) (Offer 0 read_four ∷ BoardHears 0 ∷ BoardHears 0 ∷ HubHears 1 ∷ [])
        ≡ Ok (record {
          executed_bodies = read_four ∷ [];
          fates = (0, Replied 1 four_read) ∷ [];
          lates = [];
          open_places = [];
          air = big_endian (0x200001f0 ∷ read_four) ∷ big_endian (0x200001f0 ∷ four_read) ∷ [];
        }) }
{}

/// Nothing is in the air at first.
#[tactic(auto, unfolding(crate::specs::Messages::to_board, crate::specs::Messages::to_hub, packet_codec::specs::Reading::packet_of, packet_codec::specs::Reading::start_of, transaction_codec::specs::Request::request_at))]
pub fn nothing_to_hear_at_first()
    ensures { after 16 8 (board_with 1500 16 1) (HubHears 0 ∷ []) ≡ Err (NotThere 0) }
{}

/// The reply is lost: a status reply tells that the packet was executed, and the reply is asked for again.
#[tactic(auto, unfolding(crate::specs::Messages::to_board, crate::specs::Messages::to_hub, packet_codec::specs::Reading::packet_of, packet_codec::specs::Reading::start_of, transaction_codec::specs::Request::request_at))]
pub fn a_lost_reply_is_sent_again()
    ensures { after 16 8 (board_with 1500 16 1)
        (Offer 0 read_four ∷ BoardHears 0 ∷ Quiet ∷ BoardHears 2 ∷ HubHears 3 ∷ BoardHears 4 ∷ HubHears 5 ∷ [])
        ≡ Ok (record {
          executed_bodies = read_four ∷ [];
          fates = (0, Replied 1 four_read) ∷ [];
          lates = [];
          open_places = [];
          air = big_endian (0x200001f0 ∷ read_four) ∷ big_endian (0x200001f0 ∷ four_read)
              ∷ big_endian (0x200000f1 ∷ replicate 15 0)
              ∷ big_endian (0x200000f1 ∷ 1500 ∷ 16 ∷ 0x200002f0 ∷ replicate 12 0)
              ∷ big_endian (0x200001f2 ∷ []) ∷ big_endian (0x200001f0 ∷ four_read) ∷ [];
        }) }
{}

/// The request is lost: a status reply tells that the packet is still expected, and it is sent again.
#[tactic(auto, unfolding(crate::specs::Messages::to_board, crate::specs::Messages::to_hub, packet_codec::specs::Reading::packet_of, packet_codec::specs::Reading::start_of, transaction_codec::specs::Request::request_at))]
pub fn a_lost_request_is_sent_again()
    ensures { after 16 8 (board_with 1500 16 1)
        (Offer 0 read_four ∷ Quiet ∷ BoardHears 1 ∷ HubHears 2 ∷ BoardHears 3 ∷ HubHears 4 ∷ [])
        ≡ Ok (record {
          executed_bodies = read_four ∷ [];
          fates = (0, Replied 1 four_read) ∷ [];
          lates = [];
          open_places = [];
          air = big_endian (0x200001f0 ∷ read_four) ∷ big_endian (0x200000f1 ∷ replicate 15 0)
              ∷ big_endian (0x200000f1 ∷ 1500 ∷ 16 ∷ 0x200001f0 ∷ replicate 12 0)
              ∷ big_endian (0x200001f0 ∷ read_four) ∷ big_endian (0x200001f0 ∷ four_read) ∷ [];
        }) }
{}

/// After two rounds without a reply the hub gives up. The late reply closes the place, and is kept as its late answer.
#[tactic(auto, unfolding(crate::specs::Messages::to_board, crate::specs::Messages::to_hub, packet_codec::specs::Reading::packet_of, packet_codec::specs::Reading::start_of, transaction_codec::specs::Request::request_at))]
pub fn a_reply_after_two_rounds_is_a_late_answer()
    ensures given_up { after 16 2 (board_with 1500 16 1) (Offer 0 read_four ∷ Quiet ∷ Quiet ∷ Quiet ∷ [])
        ≡ Ok (record {
          executed_bodies = [];
          fates = (0, TimedOut 1 2) ∷ [];
          lates = [];
          open_places = record { place = 1; waited = false; resend = false; control = false } ∷ [];
          air = big_endian (0x200001f0 ∷ read_four) ∷ big_endian (0x200000f1 ∷ replicate 15 0)
              ∷ big_endian (0x200000f1 ∷ replicate 15 0) ∷ [];
        }) }
    ensures late { after 16 2 (board_with 1500 16 1)
        (Offer 0 read_four ∷ Quiet ∷ Quiet ∷ Quiet ∷ BoardHears 0 ∷ HubHears 3 ∷ [])
        ≡ Ok (record {
          executed_bodies = read_four ∷ [];
          fates = (0, TimedOut 1 2) ∷ [];
          lates = (1, four_read) ∷ [];
          open_places = [];
          air = big_endian (0x200001f0 ∷ read_four) ∷ big_endian (0x200000f1 ∷ replicate 15 0)
              ∷ big_endian (0x200000f1 ∷ replicate 15 0) ∷ big_endian (0x200001f0 ∷ four_read) ∷ [];
        }) }
{}

/// With one round the second quiet receive gives up, and a reply that comes after it is a late answer.
#[tactic(auto, unfolding(crate::specs::Messages::to_board, crate::specs::Messages::to_hub, packet_codec::specs::Reading::packet_of, packet_codec::specs::Reading::start_of, transaction_codec::specs::Request::request_at))]
pub fn a_reply_after_one_round_is_a_late_answer()
    ensures { after 16 1 (board_with 1500 16 1) (Offer 0 read_four ∷ Quiet ∷ Quiet ∷ BoardHears 0 ∷ HubHears 2 ∷ [])
        ≡ Ok (record {
          executed_bodies = read_four ∷ [];
          fates = (0, TimedOut 1 1) ∷ [];
          lates = (1, four_read) ∷ [];
          open_places = [];
          air = big_endian (0x200001f0 ∷ read_four) ∷ big_endian (0x200000f1 ∷ replicate 15 0)
              ∷ big_endian (0x200001f0 ∷ four_read) ∷ [];
        }) }
{}
