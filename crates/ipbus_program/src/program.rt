//! The program's one call: words and an input in, a text and a status out.

ghost use Rattle.std.specs.Prelude.{◌≡◌, ◌≢◌, ◌⊎◌, ◌≤◌, ℕ, List, length, Some, None, Err, IfErr, IfNone};
ghost use Rattle.std.specs.Prelude.{IfOk, IfSome, IsOkAnd};
ghost use Rattle.ipb_base.specs.Faults.{Rose};
ghost use Rattle.ipb_outside.specs.Doors.{Listens};
ghost use Rattle.ipb_outside.specs.Pairs.{GivesBack};
ghost use Rattle.ipb_outside.specs.Told.{TakesAtMost, TakesCount};
ghost use Rattle.board_greeting.specs.Links.{Keeps};
ghost use Rattle.session_serve.specs.Executed.{CameInFrames};
ghost use Rattle.command_words.specs.declared.command.Command.{Command as Asked};
ghost use Rattle.command_words.specs.declared.command.Command.TheVariants.{Load, Serve};
ghost use Rattle.ipb_base.specs.Numbers.{most_operations};
ghost use Rattle.ipb_outside.specs.Faults.{RisesExactlyIf};
ghost use Rattle.command_terms.specs.Numbers.{IsDoneStatus, usage_status, refused_status};
ghost use Rattle.command_terms.specs.Numbers.{read_fault_status, write_fault_status};
ghost use Rattle.command_terms.specs.Numbers.{no_memory_status, rack_fault_status, door_fault_status};
ghost use Rattle.command_terms.specs.Terms.{Reads, most_bytes};
ghost use Rattle.ipbus_program.specs.Commands.{terms_of};
ghost use Rattle.ipbus_program.specs.Ended.{AreNoReader, CallsNoDoor, Ended, IsCalm, IsTextless, IsWhole, MakesNoLink};
ghost use Rattle.ipbus_program.specs.Ended.{RefusesWith};
ghost use Rattle.ipbus_program.specs.Outputs.{Delivers};
ghost use Rattle.ipbus_program.specs.Owed.{AreCommand, AreNoCommand, HasInput};
ghost use Rattle.ipbus_program.specs.Steps.{InputLeaves, IsFailure, IsInputOf, IsTooLong, LeavesAlone};

use crate::answering::{answer_to, limit_of, terms_are_terms, too_long};
use crate::no_answer::NoAnswer;
use client_threads::Gate;
use command_terms::{Answer, NO_MEMORY, USAGE, WRITE_FAULT};
use command_words::laws::a_load_has_a_bound;
use command_words::{Command, USAGE_LINE, command_of};
use ipb_base::NoMemory;
use ipb_outside::{Door, ReadEnd, Sink, Source, read_all, write_whole};
use links::Rack;
use note_lines::Notes;
use std::alloc::Global;
use std::marker::Sync;
use std::sync::Wait;
use std::thread::Threads;

/// The bytes of a command's input, all of them, or `None` where it has more than the command reads at most. A command
/// that reads no input leaves it alone, and gets no bytes.
fn input_for<S: Source>(
    alloc: Global,
    command: &Command,
    input: &mut S,
) -> Result<Option<Vec<u8>>, NoAnswer>
    ensures whole { IfOk result (λ read. IfSome read
        (λ bytes. IsInputOf (terms_of command.now) (S.left input.old) (S.left input.new) bytes.items)) }
    ensures too_long { IfOk result (λ read. IfNone read
        (IsTooLong (terms_of command.now) (S.left input.old) (S.left input.new))) }
    ensures taken { TakesAtMost (most_bytes (terms_of command.now)) (S.left input.old) (S.left input.new) }
    ensures reads { result ≡ Err NoAnswer.ReadFault → Reads (terms_of command.now) }
    ensures no_failure { IfErr result (λ why. IsFailure why → ⊥) }
    ensures faults { RisesExactlyIf (result ≡ Err NoAnswer.ReadFault) (S.faults input.old) (S.faults input.new) }
    ensures unread { (terms_of command.now).limit ≡ None → input.new ≡ input.old }
{
    let Some(limit) = limit_of(command) else {
        return Ok(Some(Vec::new(alloc)));
    };
    match read_all(alloc, input, limit) {
        Ok(bytes) => Ok(Some(bytes)),
        Err(ReadEnd::TooLong) => Ok(None),
        Err(ReadEnd::Failed) => Err(NoAnswer::ReadFault),
        Err(ReadEnd::NoMemory) => Err(NoAnswer::NoMemory),
    }
}

/// What a command answers.
fn answer_command<S: Source, R: Rack, D: Door, T: Threads + Wait + Sync, G: Gate>(
    rt: &T,
    alloc: Global,
    command: &Command,
    input: &mut S,
    rack: &mut R,
    door: &mut D,
    gate: &G,
) -> Result<Answer, NoAnswer>
    requires { (count : ℕ) → command.now ≡ Load count → count ≤ most_operations }
    ensures leaves { Keeps R.Rack R.L.Link rack.old rack.new
        (λ links. GivesBack D.Door D.Incoming.Source D.Outgoing.Sink door.old door.new
        (λ came back. InputLeaves (terms_of command.now) (S.left input.old) (S.left input.new) (R.made rack.old)
        (R.made rack.new) result (record { links = links; came = came; back = back }))) }
    ensures input_faults { RisesExactlyIf (result ≡ Err NoAnswer.ReadFault) (S.faults input.old) (S.faults input.new) }
    ensures rack_faults { RisesExactlyIf (result ≡ Err NoAnswer.RackFault) (R.faults rack.old) (R.faults rack.new) }
    ensures door_faults { RisesExactlyIf (result ≡ Err NoAnswer.DoorFault) (D.faults door.old) (D.faults door.new) }
    ensures in_frames { (port count : ℕ) → command.now ≡ Serve port count
        → Keeps R.Rack R.L.Link rack.old rack.new
        (λ links. GivesBack D.Door D.Incoming.Source D.Outgoing.Sink door.old door.new (CameInFrames links)) }
    ensures alone { LeavesAlone (terms_of command.now) result rack.old rack.new door.old door.new }
    ensures none_out { D.out door.new ≡ D.out door.old }
    ensures listens { (port count : ℕ) → command.now ≡ Serve port count
        → Listens port (IsOkAnd result (λ answer. answer.status ≢ refused_status)) (D.ports door.old)
        (D.ports door.new) }
    ensures unread { (terms_of command.now).limit ≡ None → input.new ≡ input.old }
{
    terms_are_terms();
    match input_for(alloc, command, input)? {
        Some(bytes) => answer_to(rt, alloc, command, &bytes, rack, door, gate),
        None => Ok(too_long(alloc, command)?),
    }
}

/// Says lines beside what is written, one behind another.
fn say_all<O: Sink>(out: &mut O, lines: &[String])
    ensures written_kept { O.written out.new ≡ O.written out.old }
    ensures faults_kept { O.faults out.new ≡ O.faults out.old }
    ensures ended_kept { O.ended out.new ≡ O.ended out.old }
{
    for line in lines {
        out.note(line.as_str());
    }
}

/// Writes a text whole, and answers its status where that succeeds.
fn write_text<O: Sink>(out: &mut O, text: &[u8], status: u8) -> u8
    ensures delivers { Delivers status text.now (O.written out.old) (O.written out.new)
        (O.faults out.old) (O.faults out.new) result }
    ensures later { O.faults out.old ≤ O.faults out.new }
    ensures unfaulted { result ≢ write_fault_status → O.faults out.new ≡ O.faults out.old }
    ensures ended_kept { O.ended out.new ≡ O.ended out.old }
{
    match write_whole(out, text) {
        Ok(()) => status,
        Err(_) => WRITE_FAULT,
    }
}

/// Writes a text whole, and answers its status where that succeeds. Behind the text its notes are said; where it could not
/// be written, those on what was done.
fn deliver<O: Sink>(out: &mut O, text: &[u8], status: u8, notes: &Notes) -> u8
    ensures delivers { Delivers status text.now (O.written out.old) (O.written out.new)
        (O.faults out.old) (O.faults out.new) result }
    ensures later { O.faults out.old ≤ O.faults out.new }
    ensures unfaulted { result ≢ write_fault_status → O.faults out.new ≡ O.faults out.old }
    ensures ended_kept { O.ended out.new ≡ O.ended out.old }
{
    let ended = write_text(out, text, status);
    let lines = match ended {
        WRITE_FAULT => notes.lines_of_deeds(),
        _ => notes.lines(),
    };
    say_all(out, lines);
    ended
}

/// Does what the words ask. `run` reads a session document to its end, makes a link for each of its boards by the rack,
/// runs its scripts over these links, each client in a thread of its own that calls the gate, gives each link back and
/// writes the transcript. `serve PORT COUNT` reads one, makes a link for each of its boards, lets so many connections
/// in by the door at that port, serves each in a thread of its own, gives each pair and each link back and writes a
/// line for each connection and each board. `check TABLE` reads one and lists the registers of that table. `load COUNT`
/// reads nothing: it runs the generated session of so many operations and writes its summary. `record` runs the scripts
/// of a document as `run` does, on its one board, and writes the capture of its datagrams; `describe` reads the text of
/// a capture and writes its description, and `undescribe` the other way round. `save` reads the kept registers of the
/// boards of a document and writes their values, and `apply` writes the values that a document has first. `audit` reads
/// a document and a transcript, and writes whether the one fits the other. Other words are answered by the usage line.
/// The text of an answer is handed to the output once. The result is the status: `DONE`, `NOT_ALL_DONE`, `USAGE`,
/// `REFUSED`, `READ_FAULT`, `WRITE_FAULT`, `NO_MEMORY`, `RACK_FAULT` or `DOOR_FAULT`.
pub fn control<S: Source, O: Sink, R: Rack, D: Door, T: Threads + Wait + Sync, G: Gate>(
    rt: &T,
    alloc: Global,
    words: &[String],
    input: &mut S,
    out: &mut O,
    rack: &mut R,
    door: &mut D,
    gate: &G,
) -> u8
    // Whatever the status, links were made of the specs of the first boards of the session, each link was given back,
    // board by board, and each pair that came was served and given back, in order. What was written is tied by the
    // status to the words, the input, these links and pairs. With 0 and 1 what passed over each link on which a board
    // told its status is what the hub's machine does with the bodies of clients (`over_any_link`).
    ensures ended { Keeps R.Rack R.L.Link rack.old rack.new
        (λ links. GivesBack D.Door D.Incoming.Source D.Outgoing.Sink door.old door.new
        (λ came back. Ended words.now (record {
          left = S.left input.old;
          left_now = S.left input.new;
          written = O.written out.old;
          written_now = O.written out.new;
          made = R.made rack.old;
          made_now = R.made rack.new;
          given_back = record { links = links; came = came; back = back };
        }) result)) }

    // Where the words ask for a server: whatever the status, over a link that tells no board executed a body that no
    // frame of a connection had for it.
    ensures in_frames { (port count : ℕ) → AreCommand words.now (Serve port count)
        → Keeps R.Rack R.L.Link rack.old rack.new
        (λ links. GivesBack D.Door D.Incoming.Source D.Outgoing.Sink door.old door.new (CameInFrames links)) }

    // Each of these statuses has its cause, and no fault is passed over.

    // The status is 4 exactly where the input met a fault in this call.
    ensures input_faults { RisesExactlyIf (result ≡ read_fault_status) (S.faults input.old) (S.faults input.new) }
    // The status is 5 exactly where the output met a fault in this call.
    ensures output_faults { RisesExactlyIf (result ≡ write_fault_status) (O.faults out.old) (O.faults out.new) }
    // The status is 7 exactly where the rack met a fault in this call: a link could not be made.
    ensures rack_faults { RisesExactlyIf (result ≡ rack_fault_status) (R.faults rack.old) (R.faults rack.new) }
    // The status is 8 exactly where the door met a fault in this call: it could not listen or accept.
    ensures door_faults { RisesExactlyIf (result ≡ door_fault_status) (D.faults door.old) (D.faults door.new) }

    // What is left alone, whether input, output, rack and door tell what they carry or not.

    // Words that ask for no command with an input leave the input as it was.
    ensures unread { AreNoReader words.now → input.new ≡ input.old }
    // With status 4, 6, 7 and 8 nothing is written, and with no status is the output ended.
    ensures unwritten { (IsTextless result → out.new ≡ out.old) × (O.ended out.new ≡ O.ended out.old) }
    // Words that ask for no links, and status 2, 3 and 4, leave the rack as it was.
    ensures unmade { MakesNoLink words.now result → rack.new ≡ rack.old }
    // Words that ask for no server, and status 2, 3, 4 and 7, leave the door as it was; with any status each connection
    // that it let in goes back to it.
    ensures shut { (CallsNoDoor words.now result → door.new ≡ door.old) × (D.out door.new ≡ D.out door.old) }

    // Where the words ask for a server, the door listens on the port that they name: with 0 and 1 on this one more, with
    // any other status on this one more or on none. By `shut` it listens on no more for other words.
    ensures listens { (port count : ℕ) → AreCommand words.now (Serve port count)
        → Listens port (IsDoneStatus result) (D.ports door.old) (D.ports door.new) }

    // Other words get the usage line, or the output met a fault, want of memory aside.
    ensures other_words { AreNoCommand words.now
        → (result ≡ usage_status) ⊎ (result ≡ write_fault_status) ⊎ (result ≡ no_memory_status) }
    // What an input that tells its bytes comes to, where no count of faults rose.

    // Bytes that break no rule of the command are done whole, want of memory aside. A command that reads no input is done
    // whole, whatever the input.
    ensures unbroken { (command : Asked) (bytes : List ℕ)
        → AreCommand words.now command → HasInput (terms_of command).limit (S.left input.old) bytes
        → ((line : List ℕ) → ¬ (terms_of command).Refuses bytes line) → ¬ Rose (O.faults out.old) (O.faults out.new)
        → IsCalm (terms_of command) (S.faults input.old) (S.faults input.new) (R.faults rack.old) (R.faults rack.new)
        (D.faults door.old) (D.faults door.new)
        → IsWhole result }
    // Bytes that stand for what the command asks are done whole, want of memory aside.
    ensures right { (command : Asked) (bytes : List ℕ)
        → AreCommand words.now command → HasInput (terms_of command).limit (S.left input.old) bytes
        → (terms_of command).Right bytes → ¬ Rose (O.faults out.old) (O.faults out.new)
        → IsCalm (terms_of command) (S.faults input.old) (S.faults input.new) (R.faults rack.old) (R.faults rack.new)
        (D.faults door.old) (D.faults door.new)
        → IsWhole result }
    // Bytes that break a rule of the command get the line of that refusal and status 3, want of memory aside.
    ensures deserved { (command : Asked) (bytes line : List ℕ)
        → AreCommand words.now command → S.left input.old ≡ Some bytes → (terms_of command).Refuses bytes line
        → ¬ Rose (S.faults input.old) (S.faults input.new) → ¬ Rose (O.faults out.old) (O.faults out.new)
        → RefusesWith line result (O.written out.old) (O.written out.new) }
    // Of an input that is too long as much is taken as the command reads at most.
    ensures too_long { (command : Asked) (bytes : List ℕ)
        → AreCommand words.now command → S.left input.old ≡ Some bytes → most_bytes (terms_of command) ≤ length bytes
        → result ≡ refused_status → TakesCount (most_bytes (terms_of command)) (S.left input.old) (S.left input.new) }
{
    terms_are_terms();
    a_load_has_a_bound();
    let command = match command_of(alloc, words) {
        Ok(Some(command)) => command,
        Ok(None) => return deliver(out, USAGE_LINE.as_bytes(), USAGE, &Notes::new(alloc)),
        Err(NoMemory) => return NO_MEMORY,
    };
    match answer_command(rt, alloc, &command, input, rack, door, gate) {
        Ok(answer) => deliver(out, answer.text.as_slice(), answer.status, &answer.notes),
        Err(why) => why.status(),
    }
}
