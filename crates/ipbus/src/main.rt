//! `ipbus`: reads a session document from standard input and runs its scripts on its boards, records the traffic of such
//! a run, serves TCP connections at its boards, saves or applies their configuration, or lists the registers of one of its
//! tables; or judges a transcript by its session; or reads a capture or its description; or runs a session that it generates. The exit status is that of
//! `control`; beside some of them lines on standard error say what happened.
#![tactic(auto)]

mod provenance;
mod turns;

use ipbus_program::{NO_MEMORY, control};
use net_edges::{
    Console, KeptSink, KeptSource, NotedSink, Progress, RealRack, StdinSource, StdoutSink, TcpDoor,
};
use operator_notes::{
    Command, Ending, MEMORY_NOTE, Provenance, asks_version, closing_notes, command_of, most_given,
    most_written, provenance_notes,
};
use provenance::read_provenance;
use std::alloc::{AllocError, Global};
use std::io::{ErrorKind, Stderr};
use std::process::ExitCode;
use std::rt::Env;
use std::{env, thread};
use turns::Turns;

/// The most clients of a session.
const MOST_CLIENTS: usize = 64;

/// The words after the program's name. Words that are not UTF-8 are none that the program knows, as no words are.
fn words<R: Env + AllocGlobal>(rt: &R) -> Result<Vec<String>, AllocError> {
    let alloc: Global = rt.alloc();
    let mut words = Vec::new(alloc);
    let arguments = match env::args(rt) {
        Ok(arguments) => arguments,
        Err(error) => {
            if error.kind() == ErrorKind::OutOfMemory {
                return Err(AllocError);
            }
            return Ok(words);
        }
    };
    for word in arguments.skip(1) {
        words.push(word)?;
    }
    Ok(words)
}

/// Says a line on standard error. Where that cannot be written either, the status says it alone.
fn say(to: Stderr, line: &str) {
    let _ = eprintln!(to; "ipbus: {line}");
}

fn say_all(to: Stderr, lines: &[String]) {
    for line in lines {
        say(to, line.as_str());
    }
}

/// Says what is to be said at the end. Without memory for its words the status says it alone.
fn say_closing(to: Stderr, alloc: Global, ending: Ending<'_>) {
    if let Ok(notes) = closing_notes(alloc, ending) {
        say_all(to, notes.as_slice());
    }
}

/// Says what was proved of the program, as the file says that was made with it.
fn say_provenance(host: HostRuntime) {
    let alloc: Global = host.alloc();
    let read = read_provenance(host);
    let told = match &read {
        Ok(read) => read.provenance(),
        Err(_) => Provenance::Unread,
    };
    if let Ok(notes) = provenance_notes(alloc, told) {
        say_all(host.stderr(), notes.as_slice());
    }
}

/// How many connections a command serves, if it serves any.
fn connections_of(command: Option<&Command>) -> Option<u32> {
    match command {
        Some(Command::Serve { port: _, count }) => Some(*count),
        _ => None,
    }
}

/// What is said of a run while it goes on, if the command runs scripts on boards.
fn progress_of(alloc: Global, command: Option<&Command>, console: Console) -> Option<Progress> {
    match command {
        Some(Command::Run | Command::Save | Command::Apply | Command::Record) => {
            Progress::new(alloc, console, MOST_CLIENTS)
        }
        _ => None,
    }
}

/// Does what the words ask, over the real outside, and ends with the status.
fn main(rt: HostRuntime) -> ExitCode {
    let alloc: Global = rt.alloc();
    let to = rt.stderr();
    let Ok(words) = words(&rt) else {
        say(to, MEMORY_NOTE);
        return ExitCode::from(NO_MEMORY);
    };
    let command = command_of(alloc, &words).unwrap_or(None);
    let mut input = KeptSource::new(alloc, StdinSource::new(&rt), most_given(command.as_ref()));
    let console = Console::new(rt, matches!(command, Some(Command::Run)));
    let noted = NotedSink::new(StdoutSink::new(&rt), console.again());
    let mut out = KeptSink::new(alloc, noted, most_written(command.as_ref()));
    let progress = progress_of(alloc, command.as_ref(), console.again());
    let mut rack = RealRack::with_notes(&rt, console.again());
    let mut door = match connections_of(command.as_ref()) {
        Some(connections) => TcpDoor::with_notes(&rt, console, connections),
        None => TcpDoor::new(&rt),
    };
    let watcher = match progress.as_ref().and_then(Progress::watch) {
        Some(watch) => thread::spawn(&rt, move || watch.keep(&rt)).ok(),
        None => None,
    };
    let gate = Turns {
        progress: progress.as_ref(),
    };
    let status = control(
        &rt, alloc, &words, &mut input, &mut out, &mut rack, &mut door, &gate,
    );
    if let (Some(progress), Some(watcher)) = (&progress, watcher) {
        progress.end();
        watcher.join(&rt);
        progress.clear();
    }
    let ending = Ending {
        status,
        words: &words,
        command: command.as_ref(),
        given: input.given(),
        written: out.taken(),
    };
    say_closing(to, alloc, ending);
    if asks_version(&ending) {
        say_provenance(rt);
    }
    ExitCode::from(status)
}
