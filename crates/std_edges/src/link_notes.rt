//! What is said of a link to a board, for whoever runs the program: a line each.

use crate::console::Console;
use crate::pace::{Line, Pace};
use crate::silence::Silence;
use crate::steps::{Steps, Told};
use packet_codec::{PacketKind, read_head};
use packet_ids::Id;
use status_packet::{Status, is_status_request, read_status_reply};
use std::alloc::Global;
use std::io;
use std::net::SocketAddr;

/// Who speaks of a link: standard error, and what a user calls its board.
#[derive(Drop)]
pub struct Voice {
    console: Console,
    name: String,
    // its name and its address
    called: String,
}

impl Voice {
    /// The voice of the next link, to this board at this address. `None` where memory ran out.
    pub(crate) fn new(console: &Console, name: &str, board: SocketAddr) -> Option<Voice> {
        let alloc: Global = console.host().alloc();
        let called = format!(in alloc; "{name} ({board})").ok()?;
        if let Ok(again) = called.clone() {
            console.begin_greeting(again);
        }
        Some(Voice {
            console: console.again(),
            name: String::from_str(alloc, name).ok()?,
            called,
        })
    }

    /// The voice of another link to its board. `None` where memory ran out.
    fn again(&self) -> Option<Voice> {
        let alloc: Global = self.console.host().alloc();
        Some(Voice {
            console: self.console.again(),
            name: String::from_str(alloc, self.name.as_str()).ok()?,
            called: String::from_str(alloc, self.called.as_str()).ok()?,
        })
    }

    fn says_reason(&self, error: io::Error) {
        let called = self.called.as_str();
        self.console.say(format_args!("{called}: {error}"));
    }

    fn says_silence(&self, line: Line) {
        let called = self.called.as_str();
        let what = if line.is_silent {
            "does not answer"
        } else {
            "answers again"
        };
        let left_out = line.left_out;
        let console = &self.console;
        match left_out {
            0 => console.say(format_args!("{called} {what}")),
            1 => console.say(format_args!("{called} {what}; 1 line was left out")),
            _ => console.say(format_args!("{called} {what}; {left_out} lines were left out")),
        }
    }

    fn says_greeting(&self, status: &Status) {
        let name = self.name.as_str();
        let mtu = status.mtu;
        let buffers = status.buffers;
        let next = status.next.get();
        self.console.say(format_args!("{name}: MTU {mtu}, {buffers} buffers, next {next}"));
    }

    fn says_out_of_step(&self, expected: Id, next: Id) {
        let name = self.name.as_str();
        let expected = expected.get();
        let next = next.get();
        self.console.say(format_args!(
            "{name} expects {expected} where {next} is next: it was reset, or another hub is at it; start this hub anew"
        ));
    }
}

/// What is said of a link to a board: what it told at its greeting, its first error, that it does not answer, that it
/// does again, and that it is out of step. Of one that is out of step nothing is said behind that.
#[derive(Drop)]
pub(crate) struct LinkNotes {
    voice: Option<Voice>,
    silence: Silence,
    pace: Pace,
    steps: Steps,
    has_failed: bool,
    is_out_of_step: bool,
}

impl LinkNotes {
    /// Of a link that was not used yet.
    pub(crate) fn new(voice: Option<Voice>) -> LinkNotes {
        let mut pace = Pace::new();
        // a greeting that is over within a second has one line
        if let Some(voice) = &voice
            && let Some(now) = voice.console.now()
        {
            pace.hold(now);
        }
        LinkNotes {
            voice,
            silence: Silence::new(),
            pace,
            steps: Steps::new(),
            has_failed: false,
            is_out_of_step: false,
        }
    }

    /// Of another link to its board, which was not used yet. Where memory ran out that one says nothing.
    pub(crate) fn again(&self) -> LinkNotes {
        match &self.voice {
            Some(voice) => LinkNotes::new(voice.again()),
            None => LinkNotes::new(None),
        }
    }

    /// A datagram was sent. The greetings of all boards are over where it is a control packet.
    pub(crate) fn sent(&mut self, bytes: &[u8]) {
        if let Some(voice) = &self.voice {
            if is_status_request(bytes) {
                self.steps.ask();
            } else if let Some(id) = control_in(bytes) {
                voice.console.end_greetings();
                self.steps.send(id);
            }
        }
    }

    /// An error: the first one of the link is said.
    pub(crate) fn failed(&mut self, error: io::Error) {
        if self.has_failed {
            return;
        }
        self.has_failed = true;
        if let Some(voice) = &self.voice {
            voice.says_reason(error);
        }
    }

    /// The link cannot be used any more: its greeting is over.
    pub(crate) fn down(&mut self) {
        if let Some(voice) = &self.voice
            && !self.steps.is_greeted()
        {
            voice.console.end_greeting();
        }
    }

    /// A receive was quiet.
    pub(crate) fn quiet(&mut self) {
        if self.silence.quiet() {
            self.pace.change(true);
        }
        self.say_silence();
    }

    /// A datagram of the board was received.
    pub(crate) fn got(&mut self, bytes: &[u8]) {
        if self.silence.ended() {
            self.pace.change(false);
        }
        match read_status_reply(bytes) {
            Ok(status) => self.got_status(&status),
            Err(_) => {
                if let Some(id) = control_in(bytes) {
                    self.steps.reply(id);
                }
            }
        }
        self.say_silence();
    }

    /// The link is given back: what was not said yet is said.
    pub(crate) fn finish(&mut self) {
        if self.is_out_of_step || !self.steps.is_greeted() {
            return;
        }
        if let Some(voice) = &self.voice
            && let Some(line) = self.pace.last_line()
        {
            voice.says_silence(line);
        }
    }

    fn got_status(&mut self, status: &Status) {
        let told = self.steps.status(status.next);
        let Some(voice) = &self.voice else {
            return;
        };
        match told {
            Told::First => {
                voice.console.end_greeting();
                self.pace.release();
                if voice.console.tells_greetings() {
                    voice.says_greeting(status);
                }
            }
            Told::InStep => {}
            Told::OutOfStep { next } => {
                self.is_out_of_step = true;
                voice.says_out_of_step(status.next, next);
            }
        }
    }

    // Says that the board does not answer, or that it answers again, where that is due.
    fn say_silence(&mut self) {
        if self.is_out_of_step || !self.pace.has_news() {
            return;
        }
        if let Some(voice) = &self.voice
            && let Some(now) = voice.console.now()
            && let Some(line) = self.pace.due(now)
        {
            voice.says_silence(line);
        }
    }
}

// The identifier of a control packet.
fn control_in(bytes: &[u8]) -> Option<Id> {
    let head = read_head(bytes).ok()?;
    if head.kind == PacketKind::Control {
        Id::new(head.id)
    } else {
        None
    }
}
