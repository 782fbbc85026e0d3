//! Sessions worked by hand. These functions do nothing when they run: their clauses are what is proved, by computing
//! the definitions.

ghost use Rattle.std.specs.Prelude.{◌≡◌, ℕ, ◌∷◌, ◌++◌, [], Some, None, codes, replicate};
ghost use Rattle.lane_record.specs.declared.outcome.Outcome.TheVariants.{Replied, TimedOut, Unsent, LinkLost};
ghost use Rattle.script_plans.specs.declared.greeting.Greeting.TheVariants.{Silent, Down};
ghost use Rattle.script_steps.specs.declared.operation.Step.TheVariants.{Dispatch};
ghost use Rattle.std.specs.List.{flat_map};
ghost use Rattle.transcript.specs.Listing.{named_text};
ghost use Rattle.transcript.specs.Lines.{run_status};
ghost use Rattle.transcript.specs.Session.{transcript};
ghost use Rattle.transcript.specs.Examples.{
  printed_text,
  printed_late,
  answered_late,
  fates_told,
  told_late,
  live,
  narrow,
  read_id,
  read_mem,
  write_a,
  read_a,
  sum_a,
  write_top,
  read_top,
  zeros_read,
  every_step,
  every_outcome,
  every_late,
  denied_write,
  channel_registers,
  overlapping_registers,
};

/// One read of one word.
pub fn one_read()
    ensures text { printed_text (read_id ∷ []) live ((Replied 1 (0x20000100 ∷ 0xabcd ∷ []) ∷ []) ∷ [])
        ≡ codes "client 1\n1 read b0:sys.id = 0x0000abcd @1.1\nboard b0 places 1 replied 1 timeout 0 lost 0\n" }
    ensures status { run_status (transcript ((read_id ∷ []) ∷ [])
        (fates_told live ((Replied 1 (0x20000100 ∷ 0xabcd ∷ []) ∷ []) ∷ []))).clients ≡ 0 }
{}

/// A field of one bit is written, and read as the whole word and under its mask.
pub fn a_masked_write_and_a_masked_read()
    ensures { printed_text (write_top ∷ read_a ∷ read_top ∷ []) live
        ((Replied 1 (0x20000140 ∷ 0 ∷ 0x20010100 ∷ 0x80000000 ∷ 0x20020100 ∷ 0x80000000 ∷ []) ∷ []) ∷ [])
        ≡ codes "client 1\n1 write b0:a.top done @1.1\n2 read b0:a = 0x80000000 @1.2\n"
        ++ codes "3 read b0:a.top = 0x00000001 @1.3\nboard b0 places 1 replied 1 timeout 0 lost 0\n" }
{}

/// A block read of 20 words at a payload of 16 words: two bodies, whose places another client's stands between.
pub fn pieces_have_places_of_their_own()
    ensures { printed_text (read_mem 20 ∷ []) narrow
        ((Replied 1 (zeros_read 0x20000e00 14) ∷ Replied 3 (zeros_read 0x20000600 6) ∷ []) ∷ [])
        ≡ codes "client 1\n1 readblock b0:mem ="
        ++ (codes " 0x00000000 0x00000000 0x00000000 0x00000000 0x00000000 0x00000000 0x00000000 0x00000000"
        ++ (codes " 0x00000000 0x00000000 0x00000000 0x00000000 0x00000000 0x00000000 0x00000000 0x00000000"
        ++ (codes " 0x00000000 0x00000000 0x00000000 0x00000000 @1.1,3.1\n"
        ++ codes "board b0 places 2 replied 2 timeout 0 lost 0\n"))) }
{}

/// A block read that ends past the last word of its range, the read behind it, and one in a later body.
pub fn a_fault_skips_the_rest_of_its_body()
    ensures text { printed_text (read_mem 10 ∷ read_id ∷ Dispatch ∷ read_id ∷ []) live
        ((Replied 1 (zeros_read 0x20000804 8) ∷ []) ∷ (Replied 2 (0x20000100 ∷ 0xabcd ∷ []) ∷ []) ∷ [])
        ≡ codes "client 1\n1 readblock b0:mem error 4 after 8 @1.1\n2 read b0:sys.id skipped @1.2\n"
        ++ codes "3 read b0:sys.id = 0x0000abcd @2.1\nboard b0 places 2 replied 2 timeout 0 lost 0\n" }
    ensures status { run_status (transcript ((read_mem 10 ∷ read_id ∷ Dispatch ∷ read_id ∷ []) ∷ [])
        (fates_told live ((Replied 1 (zeros_read 0x20000804 8) ∷ []) ∷ (Replied 2 (0x20000100 ∷ 0xabcd ∷ []) ∷ []) ∷ []))
        ).clients ≡ 1 }
{}

/// A window of one body: the first times out, and the one behind it is never sent.
pub fn a_timeout_and_what_waits_behind_it()
    ensures { printed_text (read_mem 14 ∷ read_id ∷ []) narrow ((TimedOut 1 2 ∷ Unsent ∷ []) ∷ [])
        ≡ codes "client 1\n1 readblock b0:mem timeout after 2 rounds, execution unknown @1.1\n"
        ++ codes "2 read b0:sys.id unsent\nboard b0 places 1 replied 0 timeout 1 lost 0\n" }
{}

/// A write that was executed although its reply never came: the next dispatch reads it.
pub fn a_timeout_that_was_executed()
    ensures { printed_text (write_a ∷ Dispatch ∷ read_a ∷ []) live
        ((TimedOut 1 2 ∷ []) ∷ (Replied 2 (0x20000100 ∷ 1 ∷ []) ∷ []) ∷ [])
        ≡ codes "client 1\n1 write b0:a timeout after 2 rounds, execution unknown @1.1\n"
        ++ codes "2 read b0:a = 0x00000001 @2.1\nboard b0 places 2 replied 1 timeout 1 lost 0\n" }
{}

/// What came late stands behind the timeout, shown by the verb: a write, a block, a field of one bit, and the word
/// before a read-modify-write.
pub fn late_answers()
    ensures write { answered_late (write_a ∷ []) (0x20000110 ∷ [])
        ≡ codes "client 1\n1 write b0:a timeout after 2 rounds, answered late: done @1.1\n"
        ++ codes "board b0 places 1 replied 0 timeout 1 lost 0\n" }
    ensures block { answered_late (read_mem 2 ∷ []) (zeros_read 0x20000200 2)
        ≡ codes "client 1\n1 readblock b0:mem timeout after 2 rounds, answered late:"
        ++ codes " = 0x00000000 0x00000000 @1.1\nboard b0 places 1 replied 0 timeout 1 lost 0\n" }
    ensures masked { answered_late (read_top ∷ []) (0x20000100 ∷ 0x80000000 ∷ [])
        ≡ codes "client 1\n1 read b0:a.top timeout after 2 rounds, answered late: = 0x00000001 @1.1\n"
        ++ codes "board b0 places 1 replied 0 timeout 1 lost 0\n" }
    ensures sum { answered_late (sum_a ∷ []) (0x20000150 ∷ 1 ∷ [])
        ≡ codes "client 1\n1 rmwsum b0:a timeout after 2 rounds, answered late: was 0x00000001 @1.1\n"
        ++ codes "board b0 places 1 replied 0 timeout 1 lost 0\n" }
    ensures status { run_status (transcript ((write_a ∷ []) ∷ [])
        (told_late live ((TimedOut 1 2 ∷ []) ∷ []) (Some (0x20000110 ∷ []) ∷ []))).clients ≡ 1 }
{}

/// A late answer that failed: a block read that ends past the last word of its range, the read behind it in its body,
/// and words that are no reply to the body.
pub fn late_answers_that_failed()
    ensures failed { answered_late (read_mem 10 ∷ read_id ∷ []) (zeros_read 0x20000804 8)
        ≡ codes "client 1\n1 readblock b0:mem timeout after 2 rounds, answered late: error 4 after 8 @1.1\n"
        ++ (codes "2 read b0:sys.id timeout after 2 rounds, answered late: skipped @1.2\n"
        ++ codes "board b0 places 1 replied 0 timeout 1 lost 0\n") }
    ensures garbled { answered_late (read_id ∷ []) (0x20010100 ∷ 0xabcd ∷ [])
        ≡ codes "client 1\n1 read b0:sys.id timeout after 2 rounds, answered late: garbled @1.1\n"
        ++ codes "board b0 places 1 replied 0 timeout 1 lost 0\n" }
{}

/// A block read of 20 words in two bodies, the second of which was answered late: its words alone are shown. Where the
/// first was timed out too and has no late answer, that of the second is not shown. Words beside a body that was
/// replied to count for nothing.
pub fn the_first_piece_that_is_not_done_is_shown()
    ensures second { printed_late (read_mem 20 ∷ []) narrow
        ((Replied 1 (zeros_read 0x20000e00 14) ∷ TimedOut 3 2 ∷ []) ∷ []) (None ∷ Some (zeros_read 0x20000600 6) ∷ [])
        ≡ codes "client 1\n1 readblock b0:mem timeout after 2 rounds, answered late:"
        ++ (codes " = 0x00000000 0x00000000 0x00000000 0x00000000 0x00000000 0x00000000 @1.1,3.1\n"
        ++ codes "board b0 places 2 replied 1 timeout 1 lost 0\n") }
    ensures first { printed_late (read_mem 20 ∷ []) narrow ((TimedOut 1 2 ∷ TimedOut 2 2 ∷ []) ∷ [])
        (None ∷ Some (zeros_read 0x20000600 6) ∷ [])
        ≡ codes "client 1\n1 readblock b0:mem timeout after 2 rounds, execution unknown @1.1,2.1\n"
        ++ codes "board b0 places 2 replied 0 timeout 2 lost 0\n" }
    ensures replied { printed_late (read_id ∷ []) live ((Replied 1 (0x20000100 ∷ 0xabcd ∷ []) ∷ []) ∷ [])
        (Some (0x20000100 ∷ 0 ∷ []) ∷ [])
        ≡ codes "client 1\n1 read b0:sys.id = 0x0000abcd @1.1\nboard b0 places 1 replied 1 timeout 0 lost 0\n" }
{}

/// A write that a policy denies has its number and nothing else: the reads around it are all that the board is asked.
/// It is denied also where the board does not answer, and by rule 0 where no rule decides.
pub fn a_denied_write_between_two_reads()
    ensures text { printed_text (denied_write 1) live
        ((Replied 1 (0x20000100 ∷ 0 ∷ 0x20010100 ∷ 0xabcd ∷ []) ∷ []) ∷ [])
        ≡ codes "client 1\n1 read b0:a = 0x00000000 @1.1\n2 write b0:a denied by rule 1\n"
        ++ codes "3 read b0:sys.id = 0x0000abcd @1.2\nboard b0 places 1 replied 1 timeout 0 lost 0\n" }
    ensures status { run_status (transcript (denied_write 1 ∷ [])
        (fates_told live ((Replied 1 (0x20000100 ∷ 0 ∷ 0x20010100 ∷ 0xabcd ∷ []) ∷ []) ∷ []))).clients ≡ 1 }
    ensures silent { printed_text (denied_write 0) Silent []
        ≡ codes "client 1\n1 read b0:a unsent\n2 write b0:a denied by rule 0\n"
        ++ codes "3 read b0:sys.id unsent\nboard b0 silent\n" }
{}

/// A board that does not answer, one whose link fails in the greeting, and one whose link fails later.
pub fn boards_that_do_not_answer()
    ensures silent { printed_text (read_id ∷ []) Silent [] ≡ codes "client 1\n1 read b0:sys.id unsent\nboard b0 silent\n" }
    ensures down { printed_text (read_id ∷ []) Down [] ≡ codes "client 1\n1 read b0:sys.id link lost\nboard b0 down\n" }
    ensures lost { printed_text (read_id ∷ []) live ((LinkLost (Some 1) ∷ []) ∷ [])
        ≡ codes "client 1\n1 read b0:sys.id link lost @1.1\nboard b0 places 1 replied 0 timeout 0 lost 1\n" }
    ensures before { printed_text (read_id ∷ []) live ((LinkLost None ∷ []) ∷ [])
        ≡ codes "client 1\n1 read b0:sys.id link lost\nboard b0 places 0 replied 0 timeout 0 lost 0\n" }
{}

/// Words that are no reply to the body, and a client without operations.
pub fn garbled_words_and_an_empty_script()
    ensures garbled { printed_text (read_id ∷ []) live ((Replied 1 (0x20010100 ∷ 0xabcd ∷ []) ∷ []) ∷ [])
        ≡ codes "client 1\n1 read b0:sys.id garbled @1.1\nboard b0 places 1 replied 1 timeout 0 lost 0\n" }
    ensures empty { printed_text [] live []
        ≡ codes "client 1\nboard b0 places 0 replied 0 timeout 0 lost 0\n" }
{}

/// A block read of 600 words: three pieces, of which two share the second body.
pub fn three_pieces_in_two_bodies()
    ensures { printed_text (read_mem 600 ∷ []) live ((Replied 1 (zeros_read 0x2000ff00 255)
        ∷ Replied 2 (zeros_read 0x2000ff00 255 ++ zeros_read 0x20015a00 90) ∷ []) ∷ [])
        ≡ codes "client 1\n1 readblock b0:mem =" ++ (flat_map (λ (word : ℕ). codes " 0x00000000") (replicate 600 0)
        ++ codes " @1.1,2.1,2.2\nboard b0 places 2 replied 2 timeout 0 lost 0\n") }
{}

/// What every operation of a session came to, each in another way.
pub fn every_result()
    ensures text { printed_late every_step live every_outcome every_late
        ≡ codes "client 1\n1 read b0:sys.id = 0x0000abcd @1.1\n2 write b0:a done @1.2\n"
        ++ (codes "3 rmwsum b0:a was 0x00000001 @1.3\n4 readblock b0:mem error 4 after 8 @1.4\n"
        ++ (codes "5 read b0:sys.id skipped @1.5\n6 read b0:sys.id garbled @2.1\n"
        ++ (codes "7 read b0:sys.id timeout after 2 rounds, execution unknown @3.1\n"
        ++ (codes "8 read b0:sys.id timeout after 2 rounds, answered late: = 0x0000abcd @4.1\n"
        ++ (codes "9 read b0:sys.id unsent\n10 read b0:sys.id link lost @5.1\n"
        ++ (codes "11 write b0:a denied by rule 3\n" ++ codes "board b0 places 5 replied 2 timeout 2 lost 1\n")))))) }
    ensures status { run_status (transcript (every_step ∷ []) (told_late live every_outcome every_late)).clients ≡ 1 }
{}

/// The registers of an acquisition channel, and two registers that share a bit of one word.
pub fn listings()
    ensures channel { named_text channel_registers
        ≡ codes "buffer 0x00000010 0xffffffff rw block 16\nctrl 0x00000000 0xffffffff rw single 1\n"
        ++ (codes "ctrl.enable 0x00000000 0x00000001 rw single 1\nctrl.gain 0x00000000 0x000000f0 rw single 1\n"
        ++ codes "status 0x00000001 0xffffffff r single 1\n") }
    ensures overlapping { named_text overlapping_registers
        ≡ codes "x 0x00000000 0x000000ff rw single 1\ny 0x00000000 0x00000001 rw single 1\noverlap x y\n" }
{}
