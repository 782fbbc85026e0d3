//! IPbus 2.0 transactions: requests and replies as 32-bit words, both ways.
//!
//! A body is the word list of a control packet without its packet header. It is read as a list of requests or of
//! replies and written from one. `first_request` and `first_reply` read one at the front of a body and take no memory.
#![tactic(auto)]

mod first;
mod header_word;
pub mod info_code;
pub mod laws;
mod op_ref;
mod reading;
mod refusal;
mod reply;
mod request;
mod room;
pub mod transaction_type;
mod writing;

pub use first::{FirstReply, FirstRequest, first_reply, first_request};
pub use header_word::{MAX_COUNT, bad_header_reply, code_of, count_of, header};
pub use ipb_base::{NoMemory, Words};
pub use op_ref::OpRef;
pub use reading::{read_replies, read_requests};
pub use refusal::{BadWords, Why};
pub use reply::Reply;
pub use request::{Op, Request};
pub use room::{LONGEST_BODY, reply_room};
pub use writing::{put_request, write_replies, write_requests};
