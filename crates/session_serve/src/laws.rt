//! Laws of what serving leaves. This function does nothing when it runs: its clause is what is proved.

ghost use Rattle.std.specs.Prelude.{◌≡◌, ℕ, List, []};
ghost use Rattle.std.specs.List.{AllByRecursion};
ghost use Rattle.hub_framing.specs.Frames.{RequestFrame};
ghost use Rattle.board_history.specs.Links.{IsUntouched, LinkReport};
ghost use Rattle.session_serve.specs.Executed.{HasExecutedOnly, bodies_for};

/// A board for which no frame of any connection had a body executed nothing, where its link tells.
pub fn a_board_without_frames_executes_nothing()
    ensures { (position : ℕ) (connections : List (List RequestFrame)) (link : LinkReport)
        → HasExecutedOnly position connections link
        → AllByRecursion (λ frames. bodies_for position frames ≡ []) connections → IsUntouched link }
{}
