//! Tests of the real outside: sockets over the loopback interface, and standard input and output by runtimes that stand in
//! for them. Each wait ends by itself.
#![tactic(auto)]

#[cfg(test)]
mod bytes;
#[cfg(test)]
#[cfg(test)]
mod kept_tests;
#[cfg(test)]
mod notes_tests;
#[cfg(test)]
mod progress_tests;
#[cfg(test)]
mod rack_tests;
#[cfg(test)]
mod std_stream_tests;
#[cfg(test)]
mod tcp_tests;
#[cfg(test)]
mod udp_tests;
#[cfg(test)]
mod waiter_tests;

/// There is nothing to run but the tests.
fn main() {}
