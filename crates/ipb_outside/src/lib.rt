//! The outside of the hub: sources of bytes, sinks for bytes, doors through which connections of the two come, their
//! versions in memory, and reading and writing whole.
//! Everything above speaks to the world through these traits, so it runs over memory in a test as it does over a pipe.
#![tactic(auto)]

mod calm_sink;
mod calm_source;
mod copying;
mod door;
mod failed;
pub mod laws;
mod mem_door;
mod mem_sink;
mod mem_source;
mod numbered_calls;
mod reading;
mod sink;
mod source;
mod writing;

pub use calm_sink::CalmSink;
pub use calm_source::CalmSource;
pub use door::Door;
pub use failed::Failed;
pub use ipb_base::NoMemory;
pub use mem_door::MemDoor;
pub use mem_sink::{MEM_SINK_ROOM, MemSink};
pub use mem_source::MemSource;
pub use reading::{ReadEnd, read_all};
pub use sink::Sink;
pub use source::Source;
pub use writing::write_whole;
