//! The real outside: UDP links to boards and what a rack knows of them, TCP connections and a port that lets them in, and
//! standard input and output.
//!
//! Each is a thin layer over the calls of std, proved against its trait. It stands on any socket, listener or output: of
//! one that tells its calls contracts see what it was handed and what it handed on. Std's own meet these traits in a line
//! a call, and tell nothing: of them contracts see counts, which stand still at the end of 64 bits. Links and doors may
//! say on standard error what befalls them; no contract speaks of that.
#![tactic(auto)]

mod board_locks;
mod bound;
mod console;
mod copying;
mod counting;
mod door_notes;
mod errors;
mod heard;
mod kept_sink;
mod kept_source;
pub mod laws;
mod link_notes;
mod link_socket;
mod listener;
mod meter;
mod noted_sink;
mod pace;
mod places;
mod progress;
mod rack_notes;
mod reply_codes;
mod silence;
mod std_streams;
mod steps;
mod tally;
mod tcp;
mod tcp_door;
mod udp_link;

pub use console::Console;
pub use errors::{SendOutcome, is_passing};
pub use ipb_base::NoMemory;
pub use ipb_outside::{Door, Failed, Sink, Source};
pub use kept_sink::KeptSink;
pub use kept_source::KeptSource;
pub use link_notes::Voice;
pub use link_socket::LinkSocket;
pub use links::{Link, LinkFault, Rack, RackFault, Received};
pub use listener::{ClientStream, Listener};
pub use meter::{Counts, LongWait, Meter, Row, Share, Span, rest_at};
pub use noted_sink::NotedSink;
pub use pace::{Line, Pace, SECONDS_BETWEEN};
pub use progress::{Progress, Watch};
pub use rack_notes::RackNotes;
pub use reply_codes::{OVERFULL, ReplyCodes};
pub use silence::{SILENT_AFTER, Silence};
pub use std_streams::{Output, Printed, StandardOutput, StdinSource, StdoutSink};
pub use steps::{OUT_OF_STEP_AFTER, Steps, Told};
pub use tally::{DEAF_AFTER, Deaf, Taken, Tally};
pub use tcp::{EndWriting, TcpSink, TcpSource};
pub use tcp_door::TcpDoor;
pub use udp_link::UdpLink;
