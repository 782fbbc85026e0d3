//! Tests of what the commands print and refuse, over sources, sinks and links in memory, and of what is said on standard
//! error at the end; and of sessions and connections whose links, writes and allocations fail, whose boards answer anything
//! or nothing, and whose clients are there at once. Each wait ends by itself. What sessions print and what is refused is
//! shown by the documents under `examples` too.
#![tactic(auto)]

#[cfg(test)]
mod any_answers;
#[cfg(test)]
mod any_memory;
#[cfg(test)]
mod at_once;
#[cfg(test)]
mod clients;
#[cfg(test)]
mod failing_links;
#[cfg(test)]
mod fixtures;
#[cfg(test)]
mod notes_tests;
#[cfg(test)]
mod program;
#[cfg(test)]
mod refused_again;
#[cfg(test)]
mod serving;

/// There is nothing to run but the tests.
fn main() {}
