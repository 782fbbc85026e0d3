ghost use Rattle.world_model.specs.Below.{Below};

use board_bus::laws::{
    a_reply_answers_its_body, a_reply_has_room, replay_goes_on, words_stay_words,
};
use packet_codec::laws::{reading_is_the_grammar, whole_words_are_written_back};

/// What the crates below say of packets and of buses, for the proofs here. It does nothing when it runs.
pub(crate) fn laws_below()
    ensures { Below }
{
    reading_is_the_grammar();
    whole_words_are_written_back();
    words_stay_words();
    a_reply_answers_its_body();
    a_reply_has_room();
    replay_goes_on();
}
