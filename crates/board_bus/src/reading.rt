ghost use Rattle.board_bus.specs.Reading.{ReadsRequests};

use transaction_codec::laws::{
    longest_answer_of_a_body, read_is_spelled_so, replies_are_what_boards_answer,
    written_is_read_again,
};

/// What `transaction_codec` says of requests and of answers, for the proofs here. It does nothing when it runs.
pub(crate) fn requests_are_read()
    ensures { ReadsRequests }
{
    written_is_read_again();
    read_is_spelled_so();
    longest_answer_of_a_body();
    replies_are_what_boards_answer();
}
