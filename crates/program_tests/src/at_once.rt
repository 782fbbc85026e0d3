//! Two connections that are served at once.

ghost use Rattle.std.specs.Prelude.{◌≡◌, ◌≤◌, None, Some, option_to_list};
ghost use Rattle.ipb_base.specs.Faults.{one_more};

use crate::fixtures::{FIRST, NOTHING_FAILS, answer_at};
use crate::serving::ASKED;
use ipb_base::NoMemory;
use ipb_outside::{Door, Failed, MemSink, MemSource, Sink, Source};
use ipbus_program::DONE;
use std::alloc::Global;
use std::sync::atomic::{AtomicU64, Ordering};
use std::test::Fail;
use std::thread::yield_now;

/// How often a source looks whether the other connection was answered.
const TURNS: u64 = 10_000_000;

const BOTH: &str =
    "connection 1 frames 1 closed\nconnection 2 frames 1 closed\nboard b0 places 2 replied 2 timeout 0 lost 0\n";

/// What two connections tell each other: whether the second was answered, and whether the first has spent its turns.
#[derive(Drop)]
struct Told {
    answered: AtomicU64,
    turns_spent: AtomicU64,
}

/// A source that may hold each read until the other connection was answered, for so many turns at most.
#[derive(Drop)]
struct HeldSource<'a> {
    source: MemSource,
    until: Option<&'a Told>,
}

fn wait_for(told: &Told) {
    for _ in 0..TURNS {
        if told.answered.load(Ordering::SeqCst) != 0 {
            return;
        }
        yield_now();
    }
    told.turns_spent.store(1, Ordering::SeqCst);
}

impl<'a> Source for HeldSource<'a> {
    ghost left = { λ held. Some held.source.left };

    ghost faults = { λ held. held.source.calls.faults };

    fn read(&mut self, buf: &mut [u8]) -> Result<usize, Failed> {
        if let Some(told) = self.until {
            wait_for(told);
        }
        self.source.read(buf)
    }
}

/// A sink that may tell that it was written to.
#[derive(Drop)]
struct TellingSink<'a> {
    sink: MemSink,
    tells: Option<&'a Told>,
}

impl<'a> Sink for TellingSink<'a> {
    ghost written = { λ telling. Some telling.sink.written };

    ghost faults = { λ telling. telling.sink.calls.faults };

    ghost ended = { λ telling. telling.sink.ended };

    fn write(&mut self, bytes: &[u8]) -> Result<usize, Failed> {
        if let Some(told) = self.tells {
            told.answered.store(1, Ordering::SeqCst);
        }
        self.sink.write(bytes)
    }

    fn end(&mut self) {
        self.sink.end();
    }
}

/// A door through which pairs come, the last one first. It does not tell them.
#[derive(Drop)]
struct PairsDoor<'a> {
    waiting: Vec<(HeldSource<'a>, TellingSink<'a>)>,
    port: Option<u16>,
    out: u64,
    faults: u64,
}

impl<'a> PairsDoor<'a> {
    fn count_fault(&mut self) -> Failed
        ensures counted { self.new.faults ≡ one_more self.old.faults }
        ensures out { self.new.out ≡ self.old.out }
        ensures port { self.new.port ≡ self.old.port }
        ensures later { self.old.faults ≤ self.new.faults }
    {
        self.faults = self.faults.saturating_add(1);
        Failed
    }
}

impl<'a> Door for PairsDoor<'a> {
    type Incoming = HeldSource<'a>;

    type Outgoing = TellingSink<'a>;

    ghost coming = { λ _. None };

    ghost kept = { λ _. None };

    ghost out = { λ door. door.out };

    ghost ports = { λ door. option_to_list door.port };

    ghost faults = { λ door. door.faults };

    fn listen(&mut self, port: u16) -> Result<(), Failed> {
        if self.port.is_some() {
            return Err(self.count_fault());
        }
        self.port = Some(port);
        Ok(())
    }

    fn accept(&mut self) -> Result<(HeldSource<'a>, TellingSink<'a>), Failed> {
        let Some(out) = self.out.checked_add(1) else {
            return Err(self.count_fault());
        };
        let Some(pair) = self.waiting.pop() else {
            return Err(self.count_fault());
        };
        self.out = out;
        Ok(pair)
    }

    fn keep(&mut self, incoming: HeldSource<'a>, outgoing: TellingSink<'a>) {
        drop(incoming);
        drop(outgoing);
        self.out -= 1;
    }
}

/// A source and a sink of a connection that asks once.
fn pair<'a>(
    alloc: Global,
    until: Option<&'a Told>,
    tells: Option<&'a Told>,
) -> Result<(HeldSource<'a>, TellingSink<'a>), NoMemory> {
    let source = MemSource::new(ASKED.to_vec(alloc)?, 20, Vec::new(alloc));
    let sink = MemSink::new(alloc, 24, Vec::new(alloc))?;
    Ok((HeldSource { source, until }, TellingSink { sink, tells }))
}

/// A door through which a connection comes that waits for the other one, and then the other one.
fn door_of<'a>(alloc: Global, told: &'a Told) -> Result<PairsDoor<'a>, NoMemory> {
    let mut waiting = Vec::new(alloc);
    waiting.push(pair(alloc, None, Some(told))?)?;
    waiting.push(pair(alloc, Some(told), None)?)?;
    Ok(PairsDoor {
        waiting,
        port: None,
        out: 0,
        faults: 0,
    })
}

/// A server that serves one connection after another would leave the first waiting until its turns are spent.
#[test]
fn connections_are_served_at_once(rt: HostRuntime) -> Result<(), Fail> {
    let told = Told {
        answered: AtomicU64::new(0),
        turns_spent: AtomicU64::new(0),
    };
    let mut door = door_of(rt.alloc(), &told)?;
    let line = "serve 5000 2";
    let came = answer_at(&rt, rt.alloc(), line, FIRST, NOTHING_FAILS, &mut door)?;
    assert!(rt; came.is(DONE, BOTH));
    assert!(rt; told.turns_spent.load(Ordering::SeqCst) == 0);
    Ok(())
}
