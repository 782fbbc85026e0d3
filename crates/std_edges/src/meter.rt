//! How far a run is, and how long the rest of it takes, as a line says it.

ghost use Rattle.std.specs.Prelude.{◌≡◌};
ghost use Rattle.std_edges.specs.Pace.{rest_of};

use std::fmt;

/// The pace is that of the last 8 seconds at least, in milliseconds (profile).
const PACE_OVER: u64 = 8000;

/// How many things are done of all.
#[derive(Clone, Copy, PartialEq, Eq)]
pub struct Share {
    pub done: u64,
    pub all: u64,
}

/// How far a run is: how many operations and packets are done, and how many boards did not answer the last packet. Of
/// the operations of a dispatch that is under way as large a part is done as of its packets.
#[derive(Clone, Copy, PartialEq, Eq)]
pub struct Counts {
    pub operations: Share,
    pub packets: Share,
    pub silent: u32,
}

/// How long `left` things take where `done` of them took so long. `None` where none is done, and past 64 bits.
pub fn rest_at(left: u64, done: u64, took: u64) -> Option<u64>
    ensures { result ≡ rest_of left done took }
{
    if done == 0 {
        return None;
    }
    match left.checked_mul(took) {
        Some(all) => Some(all / done),
        None => None,
    }
}

/// What was done by a time.
#[derive(Clone, Copy)]
struct Mark {
    time: u64,
    done: u64,
}

/// The pace of a run. Times are milliseconds of a clock that never goes back.
#[derive(Clone, Copy)]
pub struct Meter {
    older: Mark,
    newer: Mark,
}

impl Meter {
    /// Of a run of which so much is done by this time.
    pub fn new(time: u64, done: u64) -> Meter {
        let mark = Mark { time, done };
        Meter {
            older: mark,
            newer: mark,
        }
    }

    /// The milliseconds that the rest takes at the pace of late. `None` where nothing was done of late.
    pub fn rest(&mut self, time: u64, share: Share) -> Option<u64> {
        if time.saturating_sub(self.newer.time) >= PACE_OVER && share.done > self.newer.done {
            self.older = self.newer;
            self.newer = Mark {
                time,
                done: share.done,
            };
        }
        let left = share.all.saturating_sub(share.done);
        let done = share.done.saturating_sub(self.older.done);
        rest_at(left, done, time.saturating_sub(self.older.time))
    }
}

/// How far a run is, as a line says it, and the milliseconds that the rest takes, if that is known.
#[derive(Clone, Copy)]
pub struct Row {
    pub counts: Counts,
    pub rest: Option<u64>,
}

impl fmt::Display for Row {
    fn fmt<W: fmt::Write>(&self, f: &mut fmt::Formatter<W>) -> fmt::Result {
        let Share { done, all } = self.counts.operations;
        write!(f, "{done} of {all} operations")?;
        let silent = self.counts.silent;
        match silent {
            0 => {}
            1 => f.write_str(", 1 board does not answer")?,
            _ => write!(f, ", {silent} boards do not answer")?,
        }
        match self.rest {
            Some(rest) => {
                let rest = Span(rest);
                write!(f, ", about {rest} left")
            }
            None => Ok(()),
        }
    }
}

/// A client whose first dispatches were not answered, and what they and the others take, in milliseconds.
#[derive(Clone, Copy)]
pub struct LongWait {
    pub client: u32,
    pub waited: u32,
    pub took: u64,
    pub left: u64,
    pub rest: u64,
}

impl fmt::Display for LongWait {
    fn fmt<W: fmt::Write>(&self, f: &mut fmt::Formatter<W>) -> fmt::Result {
        let LongWait {
            client,
            waited,
            took,
            left,
            rest,
        } = *self;
        let took = Span(took);
        let rest = Span(rest);
        write!(
            f,
            "client {client} waited {took} in its first {waited} dispatches for a board that does not answer; the {left} others take about {rest} at this pace"
        )
    }
}

/// Some milliseconds, as a sentence says them: in seconds, minutes or hours.
#[derive(Clone, Copy)]
pub struct Span(pub u64);

impl fmt::Display for Span {
    fn fmt<W: fmt::Write>(&self, f: &mut fmt::Formatter<W>) -> fmt::Result {
        let seconds = self.0.div_ceil(1000);
        let minutes = seconds / 60;
        let hours = minutes / 60;
        if minutes == 0 {
            return write!(f, "{seconds} s");
        }
        if hours == 0 {
            let seconds = seconds % 60;
            return write!(f, "{minutes} min {seconds} s");
        }
        let minutes = minutes % 60;
        write!(f, "{hours} h {minutes} min")
    }
}
