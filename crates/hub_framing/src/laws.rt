//! Laws of the definitions. These functions do nothing when they run: their clauses are what is proved.

ghost use Rattle.std.specs.Prelude.{◌≡◌, ℕ, ◌+◌, ◌*◌, List, [], ◌∷◌, ◌++◌};
ghost use Rattle.std.specs.List.{AllByRecursion, flat_map};
ghost use Rattle.ipb_base.specs.Numbers.{greatest_payload};
ghost use Rattle.hub_framing.specs.declared.frame.TheConstants.{MIN_FRAME_LENGTH, MAX_FRAME_LENGTH, MAX_PACKET_BYTES};
ghost use Rattle.hub_framing.specs.Frames.{RequestFrame, IsFrame, IsFrameStream, frame_bytes, frames_bytes};
ghost use Rattle.hub_framing.specs.Frames.{least_length, greatest_length, most_packet_bytes};
ghost use Rattle.hub_framing.specs.Frames.{IsTooLong, IsTooShort, IsBegun};
ghost use Rattle.hub_framing.specs.Frames.{ReplyFrame, IsReplyFrame, reply_bytes};
ghost use Rattle.hub_framing.specs.Calls.{FramerCall, Steps, fed_bytes, handed_out};

/// The lengths of frames, and the most bytes of a packet, which are those of the most words.
pub fn the_numbers_of_a_frame()
    ensures least { MIN_FRAME_LENGTH ≡ least_length }
    ensures greatest { MAX_FRAME_LENGTH ≡ greatest_length }
    ensures packet { MAX_PACKET_BYTES ≡ most_packet_bytes }
    ensures longest { greatest_length ≡ 4 + most_packet_bytes }
    ensures words { most_packet_bytes ≡ 4 * greatest_payload }
{}

/// A stream has one list of frames and one rest.
pub fn a_stream_is_read_in_one_way()
    ensures { (bytes : List ℕ) (frames others : List RequestFrame) (rest left : List ℕ)
        → IsFrameStream bytes frames rest → IsFrameStream bytes others left → (frames ≡ others) × (rest ≡ left) }
{}

/// Whatever pieces a framer was fed, and whenever frames were taken from it: what was fed is the frames that were
/// handed out and what it holds.
pub fn what_was_fed_is_handed_out_or_held()
    ensures { (calls : List FramerCall) (held : List ℕ) → Steps calls [] held
        → AllByRecursion IsFrame (handed_out calls) × (fed_bytes calls ≡ frames_bytes (handed_out calls) ++ held) }
{}

/// How a stream is cut into pieces makes no difference: two framers that were fed the same bytes, and from which all
/// whole frames were taken, handed out the same frames and hold the same rest.
pub fn frames_do_not_depend_on_the_pieces()
    ensures { (calls others : List FramerCall) (held left : List ℕ) → Steps calls [] held → Steps others [] left
        → fed_bytes calls ≡ fed_bytes others → IsFrameStream held [] held → IsFrameStream left [] left
        → (handed_out calls ≡ handed_out others) × (held ≡ left) }
{}

/// Where `next` hands out no frame, what a framer holds is the rest of its stream.
pub fn what_is_held_without_a_frame_is_the_rest()
    ensures begun { (held : List ℕ) → IsBegun held → IsFrameStream held [] held }
    ensures too_long { (held : List ℕ) → IsTooLong held → IsFrameStream held [] held }
    ensures too_short { (held : List ℕ) → IsTooShort held → IsFrameStream held [] held }
{}

/// A length field out of range stays so, whatever comes after it.
pub fn a_bad_length_stays()
    ensures too_long { (held piece : List ℕ) → IsTooLong held → IsTooLong (held ++ piece) }
    ensures too_short { (held piece : List ℕ) → IsTooShort held → IsTooShort (held ++ piece) }
{}

/// Reply frames one behind the other are the spelling of no other list of reply frames.
pub fn replies_are_read_in_one_way()
    ensures { (replies others : List ReplyFrame)
        → AllByRecursion IsReplyFrame replies → AllByRecursion IsReplyFrame others
        → flat_map reply_bytes replies ≡ flat_map reply_bytes others → replies ≡ others }
{}

/// Frames byte by byte: a request to board 1 with a packet of one word, and the answer to it with code 6.
pub fn frames_byte_by_byte()
    ensures request { frame_bytes (record { board = 1; packet = 0x20 ∷ 0 ∷ 1 ∷ 0xf0 ∷ [] })
        ≡ 0 ∷ 0 ∷ 0 ∷ 8 ∷ 0 ∷ 0 ∷ 0 ∷ 1 ∷ 0x20 ∷ 0 ∷ 1 ∷ 0xf0 ∷ [] }
    ensures reply { reply_bytes (record { board = 1; code = 6; packet = [] })
        ≡ 0 ∷ 0 ∷ 0 ∷ 8 ∷ 0 ∷ 0 ∷ 0 ∷ 1 ∷ 0 ∷ 6 ∷ 0 ∷ 0 ∷ [] }
{}

/// The length fields at both ends of the range, and those next to them.
pub fn length_fields_at_the_ends()
    ensures too_short { IsTooShort (0 ∷ 0 ∷ 0 ∷ 7 ∷ []) }
    ensures least { IsBegun (0 ∷ 0 ∷ 0 ∷ 8 ∷ []) }
    ensures greatest { IsBegun (0 ∷ 0 ∷ 0x23 ∷ 0x10 ∷ []) }
    ensures too_long { IsTooLong (0 ∷ 0 ∷ 0x23 ∷ 0x11 ∷ []) }
    ensures not_come { IsBegun (0xff ∷ 0xff ∷ 0xff ∷ []) }
{}
