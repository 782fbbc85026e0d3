//! Records of two clients and of two connections, and their boards, worked by hand. These functions do nothing when
//! they run: their clauses are what is proved.

ghost use Rattle.std.specs.Prelude.{◌≢◌, ◌++◌, ℕ, List, ◌≡◌, [], ◌∷◌, map};
ghost use Rattle.lane_record.specs.declared.outcome.Outcome.{Outcome};
ghost use Rattle.client_history.specs.Clients.{AskAll, LeftByClients, sealed_plans};
ghost use Rattle.client_history.specs.ClientExamples.{client_1_alone, one_after_another, side_by_side, two_bodies};
ghost use Rattle.client_history.specs.ClientExamples.{two_plans, two_results};
ghost use Rattle.board_specs.specs.declared.spec.BoardSpec.{BoardSpec};
ghost use Rattle.board_history.specs.Examples.{read_body, seven};
ghost use Rattle.script_plans.specs.declared.greeting.Greeting.TheVariants.{Live};
ghost use Rattle.transcript.specs.declared.line.BoardLine.TheVariants as board_lines;
ghost use Rattle.transcript.specs.Lines.{board_line};
ghost use Rattle.board_history.specs.Records.{IsRecordOf};
ghost use Rattle.client_history.specs.Boards.{run_of};
ghost use Rattle.client_history.specs.Connections.{submitted_bodies, dispatches_of};
ghost use Rattle.client_history.specs.ConnectionExamples.{alternating, one_timed_out_at, two_connections};
ghost use Rattle.client_history.specs.Shown.{IsReplyAt, PlacesDiffer};

/// Two clients leave what each asked and took, side by side as one after another.
pub fn two_clients_leave_what_each_took()
    ensures asked { (a b : List ℕ) → AskAll 0 two_plans (two_bodies a b) }
    ensures side_by_side { (a b : List ℕ) (one other : Outcome) → LeftByClients 0 two_plans (two_results one other)
        (two_bodies a b) (sealed_plans (two_bodies a b) ++ side_by_side one other) }
    ensures one_after_another { (a b : List ℕ) (one other : Outcome) → LeftByClients 0 two_plans
        (two_results one other) (two_bodies a b) (sealed_plans (two_bodies a b) ++ one_after_another one other) }
{}

/// They do not leave a record in which client 1 took another outcome than its result shows, nor one in which client 2
/// has no entry.
pub fn other_records_are_not_left_by_two_clients()
    ensures exchanged { (a b : List ℕ) (one other : Outcome) → one ≢ other → LeftByClients 0 two_plans
        (two_results other one) (two_bodies a b) (sealed_plans (two_bodies a b) ++ side_by_side one other) → ⊥ }
    ensures left_out { (a b : List ℕ) (one other : Outcome) → LeftByClients 0 two_plans (two_results one other)
        (two_bodies a b) (sealed_plans (two_bodies a b) ++ client_1_alone one) → ⊥ }
{}

/// Two connections whose entries alternate leave what each submitted. The same record is of no connections of which the
/// first took what became of the body of the second, and of none that submitted a body less.
pub fn two_connections_leave_what_each_submitted()
    ensures alternating { (a b c : List ℕ) (first second other : Outcome) → IsRecordOf
        (map submitted_bodies (two_connections a b c first second other))
        (map dispatches_of (two_connections a b c first second other)) (alternating a b c first second other) }
    ensures exchanged { (a b c : List ℕ) (first second other : Outcome) → first ≢ other → IsRecordOf
        (map submitted_bodies (two_connections a b c other second first))
        (map dispatches_of (two_connections a b c other second first)) (alternating a b c first second other) → ⊥ }
    ensures left_out { (a b c : List ℕ) (first second other : Outcome) → IsRecordOf ((a ∷ []) ∷ (c ∷ []) ∷ [])
        (((first ∷ []) ∷ []) ∷ ((other ∷ []) ∷ []) ∷ []) (alternating a b c first second other) → ⊥ }
{}

/// A connection was answered at place 1 of a board, and the body of another was timed out at place 2: the line of the
/// board tells two first sends.
pub fn a_board_line_of_two_connections()
    ensures { (spec : BoardSpec) (word : ℕ) → board_line (run_of spec (record {
      told = Live 368;
      connections = one_timed_out_at 2 read_body word;
    }))
        ≡ board_lines.Live spec.name 2 1 1 0 }
{}

/// No two connections are shown one place, and none the reply of a body that the board did not execute, nor that of
/// another bus than the one that opens with 7.
pub fn wrong_boards_are_refused()
    ensures two_at_one_place { (word : ℕ) → PlacesDiffer (one_timed_out_at 1 read_body word) → ⊥ }
    ensures never_executed { IsReplyAt seven [] read_body 1 (0x20000100 ∷ 7 ∷ []) → ⊥ }
    ensures another_body { IsReplyAt seven ((0x2000011f ∷ 0 ∷ 5 ∷ []) ∷ []) read_body 1 (0x20000100 ∷ 7 ∷ []) → ⊥ }
    ensures another_bus { IsReplyAt seven (read_body ∷ []) read_body 1 (0x20000100 ∷ 8 ∷ []) → ⊥ }
{}
