//! Laws of a board, for every list of datagrams that it hears. These functions do nothing when they run: their clauses
//! are what is proved.

ghost use Rattle.std.specs.Prelude.{◌≡◌, ◌≢◌, ℕ, ◌+◌, ◌<◌, ◌≤◌, false, List, length};
ghost use Rattle.std.specs.Prelude.{map, replicate, Some};
ghost use Rattle.std.specs.List.{AllByRecursion};
ghost use Rattle.packet_codec.specs.declared.packet.Order.{Order};
ghost use Rattle.packet_ids.specs.Identifier.{identifier_at, IsIdentifier};
ghost use Rattle.packet_ids.specs.declared.places.TheConstants.{IDENTIFIERS};
ghost use Rattle.status_packet.specs.Range.{IsBufferCount};
ghost use Rattle.board_bus.specs.Bodies.{replay};
ghost use Rattle.world_model.specs.declared.heard.Heard.TheVariants.{Replied, Resent};
ghost use Rattle.world_model.specs.declared.heard.DropCause.TheVariants.{OtherId, NotHeld};
ghost use Rattle.world_model.specs.declared.heard.LogEntry.{LogEntry as Entry};
ghost use Rattle.world_model.specs.Messages.{ControlPacket, ResendRequest, to_board};
ghost use Rattle.world_model.specs.Board.{Board as BoardValue, body_of, hearing_dropped, bodies_executed, expected_identifier, hear, is_too_long};
ghost use Rattle.world_model.specs.Board.{numbered_count, present_bus};
ghost use Rattle.world_model.specs.Hearings.{after, grown, heard_of, AreInTurn, IsAmongLast, IsQuestion};

/// Whatever a board hears, nothing of it changes but the log, which grows at its end.
pub fn the_log_only_grows()
    ensures { (board : BoardValue) (datagrams : List (List ℕ)) → (later : List Entry)
        × (after board datagrams ≡ grown board later) }
{}

/// The present bus is the opening bus on which the bodies of the log were executed one after another. So it is the bus
/// before on which the later bodies were executed.
pub fn the_bus_is_the_replay_of_the_log()
    ensures whole { (board : BoardValue) (datagrams : List (List ℕ)) → present_bus (after board datagrams)
        ≡ (replay board.opening (bodies_executed (after board datagrams))).cells }
    ensures later { (board : BoardValue) (datagrams : List (List ℕ)) (later : List Entry) →
        after board datagrams ≡ grown board later →
        present_bus (after board datagrams) ≡ (replay (present_bus board) (map body_of later)).cells }
{}

/// The expected identifier is that of the place after the numbered entries of the log. A packet with another identifier
/// than 0 is executed only where it has the expected one, and then makes one numbered entry.
pub fn the_numbered_entries_make_the_expected_identifier()
    ensures expected { (board : BoardValue) (datagrams : List (List ℕ)) → expected_identifier (after board datagrams)
        ≡ identifier_at board.first (numbered_count (after board datagrams).log + 1) }
    ensures in_turn { (board : BoardValue) (datagram : List ℕ) (order : Order) (id : ℕ) (body : List ℕ) →
        to_board datagram ≡ Some (ControlPacket order id body) → id ≢ 0 → (hear board datagram).heard ≡ Replied →
        (id ≡ expected_identifier board) × (numbered_count (hear board datagram).board.log ≡ numbered_count board.log + 1) }
{}

/// A control packet that was executed under a number is dropped each time that it is heard again, whatever was heard
/// in between, as long as its number does not come round: until 65,535 packets were numbered, itself counted. So no
/// datagram is executed twice under one number.
pub fn a_repeated_packet_changes_nothing()
    ensures { (board : BoardValue) (datagram : List ℕ) (between : List (List ℕ)) (order : Order) (id : ℕ)
        (body : List ℕ) →
        IsIdentifier board.first → to_board datagram ≡ Some (ControlPacket order id body) → id ≢ 0 →
        (hear board datagram).heard ≡ Replied →
        let later = after (hear board datagram).board between in
        numbered_count later.log < numbered_count board.log + IDENTIFIERS → hear later datagram ≡ hearing_dropped later OtherId }
{}

/// Status requests and re-send requests change nothing.
pub fn questions_change_nothing()
    ensures { (board : BoardValue) (datagrams : List (List ℕ)) → AllByRecursion IsQuestion datagrams →
        after board datagrams ≡ board }
{}

/// A re-send request for a numbered packet is answered by exactly the bytes that answered it first, whatever was heard
/// in between, while no more packets were numbered than the board has buffers, itself counted.
pub fn a_reply_is_sent_again_as_it_was()
    ensures { (board : BoardValue) (datagram : List ℕ) (between : List (List ℕ)) (order : Order) (id : ℕ)
        (body request : List ℕ) → IsIdentifier board.first → IsBufferCount board.buffers →
        to_board datagram ≡ Some (ControlPacket order id body) → id ≢ 0 → (hear board datagram).heard ≡ Replied →
        to_board request ≡ Some (ResendRequest id) →
        let later = after (hear board datagram).board between in
        numbered_count later.log ≤ numbered_count board.log + board.buffers →
        hear later request ≡ record { heard = Resent; answer = (hear board datagram).answer; board = later } }
{}

/// A re-send request is answered exactly where one of the last numbered packets, as many as there are buffers, has the
/// identifier that it names.
pub fn the_last_replies_alone_are_held()
    ensures held { (board : BoardValue) (request : List ℕ) (id place : ℕ) →
        to_board request ≡ Some (ResendRequest id) → IsAmongLast board place → identifier_at board.first place ≡ id →
        (hear board request).heard ≡ Resent }
    ensures not_held { (board : BoardValue) (request : List ℕ) (id : ℕ) → to_board request ≡ Some (ResendRequest id) →
        ((place : ℕ) → IsAmongLast board place → identifier_at board.first place ≢ id) →
        hear board request ≡ hearing_dropped board NotHeld }
{}

/// A control packet of identifier 0 that is not too long is executed at each arrival, each time on the bus that the
/// last one left, and leaves the expected identifier.
pub fn identifier_0_is_executed_at_each_arrival()
    ensures replied { (board : BoardValue) (datagram : List ℕ) (order : Order) (body : List ℕ) (times : ℕ) →
        to_board datagram ≡ Some (ControlPacket order 0 body) → is_too_long board body ≡ false →
        heard_of board (replicate times datagram) ≡ replicate times Replied }
    ensures log { (board : BoardValue) (datagram : List ℕ) (order : Order) (body : List ℕ) (times : ℕ) →
        to_board datagram ≡ Some (ControlPacket order 0 body) → is_too_long board body ≡ false →
        after board (replicate times datagram)
        ≡ grown board (replicate times (record { numbered = false; order = order; body = body })) }
    ensures next { (board : BoardValue) (datagram : List ℕ) (order : Order) (body : List ℕ) (times : ℕ) →
        to_board datagram ≡ Some (ControlPacket order 0 body) → is_too_long board body ≡ false →
        expected_identifier (after board (replicate times datagram)) ≡ expected_identifier board }
{}

/// Control packets with the identifiers in turn, none too long, are all executed and answered, however many they are:
/// past 0xffff, which 1 follows, and past any number of such rounds.
pub fn packets_in_turn_are_all_executed()
    ensures replied { (board : BoardValue) (datagrams : List (List ℕ)) →
        AreInTurn board (numbered_count board.log + 1) datagrams →
        heard_of board datagrams ≡ replicate (length datagrams) Replied }
    ensures executed { (board : BoardValue) (datagrams : List (List ℕ)) →
        AreInTurn board (numbered_count board.log + 1) datagrams →
        length (bodies_executed (after board datagrams)) ≡ length (bodies_executed board) + length datagrams }
    ensures next { (board : BoardValue) (datagrams : List (List ℕ)) →
        AreInTurn board (numbered_count board.log + 1) datagrams →
        expected_identifier (after board datagrams) ≡ identifier_at board.first (numbered_count board.log + length datagrams + 1) }
{}
