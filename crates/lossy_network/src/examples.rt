//! Worked examples: how a simulated link stands after each of some calls, and what becomes of datagrams. These
//! functions do nothing when they run: their clauses are what is proved.
//!
//! A datagram has the place in the air at which it was sent, from 0. The board has 16 words and expects the
//! identifier 1.

ghost use Rattle.std.specs.Prelude.{◌≡◌, [], ◌∷◌, codes};
ghost use Rattle.board_specs.specs.declared.spec.Fates.TheVariants.{Text, Noise};
ghost use Rattle.lossy_network.specs.declared.fates.DatagramFate.TheVariants.{Delivered, Lost, Repeated, Delayed};
ghost use Rattle.lossy_network.specs.Calls.{Receive};
ghost use Rattle.lossy_network.specs.Examples.{fates_to, four_asked, resend_asked, stands, status_asked, stood};

/// `ddr`: the control packet is repeated. Its second copy is not executed, and not answered.
#[tactic(auto, unfolding(crate::specs::Network::network_receipt, world_model::specs::Messages::to_board, packet_codec::specs::Reading::packet_of, packet_codec::specs::Reading::start_of, transaction_codec::specs::Request::request_at))]
pub fn a_repeated_packet_is_executed_once()
    ensures { stands (codes "ddr")
        (status_asked ∷ Receive ∷ four_asked ∷ Receive ∷ Receive ∷ [])
        ≡ stood (0 ∷ []) [] [] 0 0 0
        ∷ stood [] [] (1 ∷ []) 0 0 0
        ∷ stood (2 ∷ 2 ∷ []) [] (1 ∷ []) 0 0 0
        ∷ stood [] [] (1 ∷ 3 ∷ []) 0 0 1
        ∷ stood [] [] (1 ∷ 3 ∷ []) 0 1 1
        ∷ [] }
{}

/// `r`: the status request is repeated, and answered twice.
#[tactic(auto, unfolding(crate::specs::Network::network_receipt, world_model::specs::Messages::to_board, packet_codec::specs::Reading::packet_of, packet_codec::specs::Reading::start_of, transaction_codec::specs::Request::request_at))]
pub fn a_repeated_status_request_is_answered_twice()
    ensures { stands (codes "r")
        (status_asked ∷ Receive ∷ Receive ∷ Receive ∷ [])
        ≡ stood (0 ∷ 0 ∷ []) [] [] 0 0 0
        ∷ stood (2 ∷ []) [] (1 ∷ []) 0 0 0
        ∷ stood [] [] (1 ∷ 2 ∷ []) 0 0 0
        ∷ stood [] [] (1 ∷ 2 ∷ []) 0 1 0
        ∷ [] }
{}

/// `dddl`: the reply is lost. It is sent again where that is asked for, and nothing is executed again.
#[tactic(auto, unfolding(crate::specs::Network::network_receipt, world_model::specs::Messages::to_board, packet_codec::specs::Reading::packet_of, packet_codec::specs::Reading::start_of, transaction_codec::specs::Request::request_at))]
pub fn a_lost_reply_is_sent_again()
    ensures { stands (codes "dddl")
        (status_asked ∷ Receive ∷ four_asked ∷ Receive ∷ resend_asked ∷ Receive ∷ [])
        ≡ stood (0 ∷ []) [] [] 0 0 0
        ∷ stood [] [] (1 ∷ []) 0 0 0
        ∷ stood (2 ∷ []) [] (1 ∷ []) 0 0 0
        ∷ stood [] [] (1 ∷ []) 1 1 1
        ∷ stood (4 ∷ []) [] (1 ∷ []) 1 1 1
        ∷ stood [] [] (1 ∷ 5 ∷ []) 1 1 1
        ∷ [] }
{}

/// `ddl`: the control packet is lost. It is executed when it is sent again.
#[tactic(auto, unfolding(crate::specs::Network::network_receipt, world_model::specs::Messages::to_board, packet_codec::specs::Reading::packet_of, packet_codec::specs::Reading::start_of, transaction_codec::specs::Request::request_at))]
pub fn a_lost_packet_is_sent_again()
    ensures { stands (codes "ddl")
        (status_asked ∷ Receive ∷ four_asked ∷ Receive ∷ four_asked ∷ Receive ∷ [])
        ≡ stood (0 ∷ []) [] [] 0 0 0
        ∷ stood [] [] (1 ∷ []) 0 0 0
        ∷ stood [] [] (1 ∷ []) 1 0 0
        ∷ stood [] [] (1 ∷ []) 1 1 0
        ∷ stood (3 ∷ []) [] (1 ∷ []) 1 1 0
        ∷ stood [] [] (1 ∷ 4 ∷ []) 1 1 1
        ∷ [] }
{}

/// `dd2`: the control packet comes two datagrams late, behind the reply to a status request. Sent again meanwhile, it
/// is executed once.
#[tactic(auto, unfolding(crate::specs::Network::network_receipt, world_model::specs::Messages::to_board, packet_codec::specs::Reading::packet_of, packet_codec::specs::Reading::start_of, transaction_codec::specs::Request::request_at))]
pub fn a_late_packet_is_executed_once()
    ensures { stands (codes "dd2")
        (status_asked ∷ Receive ∷ four_asked ∷ Receive ∷ status_asked ∷ Receive ∷ four_asked ∷ Receive ∷ [])
        ≡ stood (0 ∷ []) [] [] 0 0 0
        ∷ stood [] [] (1 ∷ []) 0 0 0
        ∷ stood [] (2 ∷ []) (1 ∷ []) 1 0 0
        ∷ stood [] (2 ∷ []) (1 ∷ []) 1 1 0
        ∷ stood (3 ∷ []) (2 ∷ []) (1 ∷ []) 1 1 0
        ∷ stood (2 ∷ []) [] (1 ∷ 4 ∷ []) 1 1 0
        ∷ stood (2 ∷ 5 ∷ []) [] (1 ∷ 4 ∷ []) 1 1 0
        ∷ stood [] [] (1 ∷ 4 ∷ 6 ∷ []) 1 1 1
        ∷ [] }
{}

/// `ll`: both status requests are lost, and the board is never heard.
#[tactic(auto, unfolding(crate::specs::Network::network_receipt, world_model::specs::Messages::to_board, packet_codec::specs::Reading::packet_of, packet_codec::specs::Reading::start_of, transaction_codec::specs::Request::request_at))]
pub fn a_board_is_silent_where_all_is_lost()
    ensures { stands (codes "ll")
        (status_asked ∷ Receive ∷ status_asked ∷ Receive ∷ [])
        ≡ stood [] [] [] 1 0 0
        ∷ stood [] [] [] 1 1 0
        ∷ stood [] [] [] 2 1 0
        ∷ stood [] [] [] 2 2 0
        ∷ [] }
{}

/// `1`: what is delayed waits through a quiet receive, and comes right behind the next datagram.
#[tactic(auto, unfolding(crate::specs::Network::network_receipt, world_model::specs::Messages::to_board, packet_codec::specs::Reading::packet_of, packet_codec::specs::Reading::start_of, transaction_codec::specs::Request::request_at))]
pub fn a_delayed_datagram_waits_for_others()
    ensures { stands (codes "1")
        (status_asked ∷ Receive ∷ status_asked ∷ [])
        ≡ stood [] (0 ∷ []) [] 1 0 0
        ∷ stood [] (0 ∷ []) [] 1 1 0
        ∷ stood (1 ∷ 0 ∷ []) [] [] 1 1 0
        ∷ [] }
{}

/// A fate of each kind, and past the end of the text each datagram is delivered.
pub fn fates_of_a_text_end_with_deliveries()
    ensures each_kind { fates_to 7 (Text (codes "dlr19")) ≡ Delivered ∷ Lost ∷ Repeated ∷ Delayed 1 ∷ Delayed 9
        ∷ Delivered ∷ Delivered ∷ [] }
    ensures delivered { fates_to 2 (Text (codes "d")) ≡ Delivered ∷ Delivered ∷ [] }
    ensures lost { fates_to 2 (Text (codes "l")) ≡ Lost ∷ Delivered ∷ [] }
    ensures repeated { fates_to 2 (Text (codes "r")) ≡ Repeated ∷ Delivered ∷ [] }
    ensures delayed { fates_to 2 (Text (codes "5")) ≡ Delayed 5 ∷ Delivered ∷ [] }
    ensures none { fates_to 2 (Text []) ≡ Delivered ∷ Delivered ∷ [] }
{}

/// The first forty fates of the noise 7.
#[tactic(auto, unfolding(rand_core::specs::Steps::first_words))]
pub fn the_first_fates_of_noise_7()
    ensures { fates_to 40 (Noise 7)
        ≡ Delivered ∷ Repeated ∷ Repeated ∷ Delivered ∷ Delivered ∷ Delayed 5 ∷ Delayed 2 ∷ Delivered
        ∷ Delivered ∷ Lost ∷ Delivered ∷ Delivered ∷ Delayed 2 ∷ Delivered ∷ Delivered ∷ Delivered
        ∷ Delivered ∷ Lost ∷ Delivered ∷ Delivered ∷ Delivered ∷ Delivered ∷ Lost ∷ Delivered ∷ Delivered
        ∷ Repeated ∷ Delivered ∷ Delayed 5 ∷ Delivered ∷ Repeated ∷ Repeated ∷ Delayed 2 ∷ Delivered
        ∷ Delivered ∷ Repeated ∷ Delayed 2 ∷ Lost ∷ Delivered ∷ Delivered ∷ Lost ∷ [] }
{}
