//! A hub and a link that tells: the joint fact, and what keeps it.

ghost use Rattle.std.specs.Prelude.{◌≡◌, ◌≤◌, ◌*◌, ℕ, List, ◌∷◌, ◌++◌, length, min, Some};
ghost use Rattle.ipb_base.specs.Lists.{IsPrefix};
ghost use Rattle.world_model.specs.declared.datagram.Datagram.{Datagram};
ghost use Rattle.world_model.specs.declared.offered.Fate.{Fate};
ghost use Rattle.world_model.specs.declared.offered.Offered.{Offered};
ghost use Rattle.packet_codec.specs.declared.packet.TheConstants.{MAX_PACKET_WORDS};
ghost use Rattle.packet_codec.specs.Packet.{packet_bytes};
ghost use Rattle.status_packet.specs.Packets.{status_request};
ghost use Rattle.world_model.specs.declared.heard.LogEntry.{LogEntry};
ghost use Rattle.world_model.specs.Messages.{StatusReply, to_hub};
ghost use Rattle.world_model.specs.Board.{Board, bodies_executed, replies};
ghost use Rattle.world_model.specs.Hub.{Hub, offer, take_message, hear_quiet, new_hub};
ghost use Rattle.world_model.specs.Sends.{Next, next_send, bytes_to_send};
ghost use Rattle.world_model.specs.Facts.{IsSendable, IsSound, IsStart, AreLateReplies, AreRight, bodies_of};
ghost use Rattle.world_model.specs.Links.{Told, IsJoined, IsHeard, IsHanded, sent_on, together};

use crate::below::laws_below;

/// A hub that knows a fresh board and has sent nothing, and a link that carried a greeting, or nothing, are joined.
pub fn a_greeting_joins()
    ensures { (window rounds : ℕ) (board : Board) (air : List Datagram) → IsStart window board air
        → IsJoined (new_hub board.first (min window board.buffers) rounds) (record { board = board; air = air }) }
{
    laws_below();
}

/// Each event of the hub and each call of the link keeps the joint fact: an offer, a send that the link carried, what
/// the board heard in one receive, a datagram that was handed out, a quiet receive, and a fate or a late answer that
/// was handed out.
pub fn each_event_keeps_them_joined()
    ensures offered { (hub : Hub) (told : Told) (offered : Offered) → IsJoined hub told → IsSendable offered.body
        → IsJoined (offer hub offered) told }
    ensures sent { (hub : Hub) (told : Told) (next : Next) → IsJoined hub told → next_send hub ≡ Some next
        → IsJoined next.hub (sent_on told (bytes_to_send next.hub next.send)) }
    ensures heard { (hub : Hub) (old new : Told) → IsJoined hub old → IsHeard old new → IsJoined hub new }
    ensures handed { (hub : Hub) (told : Told) (bytes : List ℕ) → IsJoined hub told → IsHanded told bytes
        → IsJoined (take_message hub (to_hub bytes)) told }
    ensures quiet { (hub : Hub) (told : Told) → IsJoined hub told → IsJoined (hear_quiet hub) told }
    ensures handed_out { (hub : Hub) (told : Told) (fate : ℕ × Fate) (fates : List (ℕ × Fate)) → IsJoined hub told
        → hub.fates ≡ fate ∷ fates → IsJoined (record hub { fates = fates }) told }
    ensures late { (hub : Hub) (told : Told) (late : ℕ × List ℕ) (lates : List (ℕ × List ℕ)) → IsJoined hub told
        → hub.lates ≡ late ∷ lates → IsJoined (record hub { lates = lates }) told }
{
    laws_below();
}

/// What joined ones tell: the executed bodies are the front of those sent, each fate is that of its place, and each
/// late answer is the reply at its place.
pub fn joined_ones_tell_the_truth()
    ensures executed { (hub : Hub) (told : Told) → IsJoined hub told
        → IsPrefix (bodies_executed told.board) (bodies_of hub.sent) }
    ensures fates { (hub : Hub) (told : Told) → IsJoined hub told
        → AreRight hub.sent (replies told.board) hub.fates }
    ensures lates { (hub : Hub) (told : Told) → IsJoined hub told → AreLateReplies (replies told.board) hub.lates }
{
    laws_below();
}

/// A greeting goes on: a status request that is sent and whatever the board hears of it leave a board and an air where
/// a run can begin, and what is handed out is the status of that board.
pub fn a_greeting_goes_on()
    ensures sent { (window : ℕ) (told : Told) → IsStart window told.board told.air
        → IsStart window told.board (sent_on told (packet_bytes status_request)).air }
    ensures heard { (window : ℕ) (old new : Told) → IsStart window old.board old.air → IsHeard old new
        → IsStart window new.board new.air × (new.board ≡ old.board) }
    ensures handed { (window : ℕ) (told : Told) (bytes : List ℕ) (mtu buffers next : ℕ)
        → IsStart window told.board told.air → IsHanded told bytes
        → to_hub bytes ≡ Some (StatusReply mtu buffers next)
        → (mtu ≡ told.board.mtu) × (buffers ≡ told.board.buffers) × (next ≡ told.board.first) }
{
    laws_below();
}

/// What a link heard stays: its board executes more and its air holds more, and nothing that was is changed.
pub fn a_link_forgets_nothing()
    ensures log { (old new : Told) → IsHeard old new → IsPrefix {T = LogEntry} old.board.log new.board.log }
    ensures air { (old new : Told) → IsHeard old new → IsPrefix {T = Datagram} old.air new.air }
    ensures replies { (old new : Told) → IsHeard old new
        → IsPrefix {T = List ℕ} (replies old.board) (replies new.board) }
    ensures board { (old new : Told) → IsHeard old new
        → record new.board { log = old.board.log } ≡ old.board }
{
    laws_below();
}

/// A fate that is right stays right while bodies are sent and replies are given.
pub fn right_fates_stay_right()
    ensures { (sent more : List Offered) (answers later : List (List ℕ)) (fates : List (ℕ × Fate))
        → AreRight sent answers fates → AreRight (sent ++ more) (answers ++ later) fates }
{
    laws_below();
}

/// A send that the link refused is counted by the hub and never joins the air: the world is still sound. A send is
/// never longer than a packet can be.
pub fn a_send_may_be_refused()
    ensures refused { (hub : Hub) (told : Told) (next : Next) → IsJoined hub told → next_send hub ≡ Some next
        → IsSound (together next.hub told) }
    ensures length { (hub : Hub) (told : Told) (next : Next) → IsJoined hub told → next_send hub ≡ Some next
        → length (bytes_to_send next.hub next.send) ≤ 4 * MAX_PACKET_WORDS }
{
    laws_below();
}
