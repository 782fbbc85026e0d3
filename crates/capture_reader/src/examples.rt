//! Worked examples of the definitions. These functions do nothing when they run: their clauses are what is proved.

ghost use Rattle.std.specs.Prelude.{◌≡◌, ℕ, [], ◌∷◌, ◌++◌, true, false, codes, replicate};
ghost use Rattle.ipb_base.specs.Word.{big_endian};
ghost use Rattle.packet_codec.specs.declared.packet.Order.TheVariants.{Big, Little};
ghost use Rattle.transaction_codec.specs.declared.request.Op.TheVariants.{Read, WritePort, RmwBits, RmwSum};
ghost use Rattle.capture_reader.specs.declared.refusal.CaptureWhy.TheVariants.{First};
ghost use Rattle.capture_reader.specs.CaptureText.{capture_text};
ghost use Rattle.capture_reader.specs.Faults.{IsFirstFault};
ghost use Rattle.capture_reader.specs.Proved.{IsProved};
ghost use Rattle.capture_reader.specs.Rows.{row_text, StatusRequest, Status, Resend, Requests, Replies};
ghost use Rattle.capture_reader.specs.Rows.{request_text, reply_text};
ghost use Rattle.capture_reader.specs.Description.{IsDescription};
ghost use Rattle.capture_reader.specs.Examples.{one_read, one_empty};

/// The lines of a capture in which one word is read: the text.
pub fn the_text_of_a_capture()
    ensures empty { capture_text one_empty ≡ codes "first 1\n> -\n" }
    ensures bytes { capture_text (record { first = 65535; items = record { sent = false; bytes = 0 ∷ 0xaf ∷ [] } ∷ [] })
        ≡ codes "first 65535\n< 00af\n" }
{}

/// The rows of a capture in which one word is read, and of a request to send its reply again.
pub fn the_rows_of_a_capture()
    ensures status_request { row_text StatusRequest ≡ codes "> status request\n" }
    ensures status { row_text (Status 1500 16 1) ≡ codes "< status 1500 16 1\n" }
    ensures requests { row_text (Requests Big 1 (record { tid = 0; op = Read 4 1 } ∷ []))
        ≡ codes "> control 1 big\n  0 read 0x00000004 1\n" }
    ensures replies { row_text (Replies Big 1
        (record { tid = 0; kind = 0; count = 1; code = 0; values = 0xabcd ∷ [] } ∷ []))
        ≡ codes "< control 1 big\n  0 read 0 1 0x0000abcd\n" }
    ensures resend { row_text (Resend 7) ≡ codes "> resend 7\n" }
    ensures empty { row_text (Replies Little 0 []) ≡ codes "< control 0 little\n" }
{}

/// The lines of other requests and replies.
pub fn the_lines_of_requests_and_replies()
    ensures write { request_text (record { tid = 4095; op = WritePort 0xff (1 ∷ 2 ∷ []) })
        ≡ codes "  4095 writeport 0x000000ff 0x00000001 0x00000002\n" }
    ensures rmw_bits { request_text (record { tid = 3; op = RmwBits 5 0xfffffffe 1 })
        ≡ codes "  3 rmwbits 0x00000005 0xfffffffe 0x00000001\n" }
    ensures rmw_sum { request_text (record { tid = 3; op = RmwSum 5 9 })
        ≡ codes "  3 rmwsum 0x00000005 0x00000009\n" }
    ensures failed { reply_text (record { tid = 9; kind = 1; count = 2; code = 5; values = [] })
        ≡ codes "  9 write 5 2\n" }
{}

/// Line 1 has no identifier 0.
pub fn a_first_line_that_is_refused()
    ensures { IsFirstFault (codes "first 0\n") 1 First }
{}

/// A capture in which one word is read proves the place of its packet.
pub fn one_word_is_read()
    ensures proved { IsProved one_read 1 }
    ensures description { IsDescription one_read (codes "first 1\n> status request\n< status 1500 16 1\n> control 1 big\n  0 read 0x00000004 1\n< control 1 big\n  0 read 0 1 0x0000abcd\nproved 1\n") }
{}

/// A datagram of no bytes is described by its bytes.
pub fn no_bytes()
    ensures proved { IsProved one_empty 0 }
    ensures description { IsDescription one_empty (codes "first 1\n> raw -\nproved 0\n") }
{}
