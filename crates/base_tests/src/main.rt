//! Tests of the lower crates: packets, transactions, the bus, tables, documents, scripts, the outside and frames. What
//! their clauses cannot say is run here: that calls succeed where memory is there, what errors say, and that what is
//! refused is refused again. The documents under `examples` show what is read, and what it comes to.
#![tactic(auto)]

#[cfg(test)]
mod board_bus_tests;
#[cfg(test)]
mod ipb_outside_tests;
#[cfg(test)]
mod messages;
#[cfg(test)]
mod mtu_packer_tests;
#[cfg(test)]
mod packet_codec_tests;
#[cfg(test)]
mod refused_documents_tests;
#[cfg(test)]
mod refused_twice_tests;
#[cfg(test)]
mod reply_join_tests;
#[cfg(test)]
mod transaction_codec_tests;

/// There is nothing to run but the tests.
fn main() {}
