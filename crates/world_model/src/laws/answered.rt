//! No reply that a hub took is lost.

ghost use Rattle.world_model.specs.Hub.{HandedOut, Hub};
ghost use Rattle.world_model.specs.LateAnswers.{AreOfTimedOut};
ghost use Rattle.world_model.specs.Answered.{AreAllAnswered};

/// Each place that a hub sent is open, or was replied, or has a late answer. It follows from what a new hub begins with
/// and each event of a hub keeps, over any link (`a_late_answer_is_of_a_timed_out_body`).
pub fn each_sent_place_is_open_or_answered()
    ensures { (before : HandedOut) (hub : Hub) → AreOfTimedOut before hub → AreAllAnswered before hub }
{}
