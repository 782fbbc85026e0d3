//! The command `record`: the scripts of a session document on its one simulated board, and the capture of the datagrams
//! that its hub sent and received.
//!
//! What it promises is `IsRecordOf` of `specs/Headline`; `record_terms` of `specs/Terms` says all that it owes to its
//! input. `TapLink` is a tap of a link: what a hub sends on the link and receives from it, kept in the order of the
//! calls, so that it can be written as a capture once the link is done with; the hub over a tap cannot tell it from the
//! link itself. `capture_laws` say what a capture shows of a board: the packets that were sent for the first time are
//! those of the hub, in order, and no more places are proved than were executed.
#![tactic(auto)]

mod below;
pub mod capture_laws;
mod keeping;
pub mod laws;
pub mod record;
mod tap;
mod taps;

pub use record::record_document;
pub use tap::TapLink;
