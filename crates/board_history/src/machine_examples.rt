//! The run of the machine of a live board, worked by hand over a link that does not tell. This function does nothing when
//! it runs: its clauses are what is proved.

ghost use Rattle.board_history.specs.Machine.{IsMachineBoard};
ghost use Rattle.board_history.specs.MachineExamples.{both_replied, exchanged_replies, own_replies, usual_limits};

use crate::machine_laws::first_sends_are_the_order_of_a_board;

/// Two clients read one register each, and both replies came: each is shown its own reply and place. Where each is shown
/// those of the other, no run of the machine carried what passed over the link.
pub fn the_reply_of_another_client_is_refused()
    ensures own { IsMachineBoard usual_limits 368 own_replies both_replied }
    ensures exchanged { IsMachineBoard usual_limits 368 exchanged_replies both_replied → ⊥ }
{
    first_sends_are_the_order_of_a_board();
}
