//! Masked fields of registers. A node of an address table may have a mask, and then stands for the bits of its
//! register under that mask, moved down so that the lowest of them is bit 0 (uHAL).
//!
//! A field is read out of a word by [`extract`], and written by the terms of one read-modify-write transaction,
//! which [`terms`] gives.
#![tactic(auto)]

mod fields;
pub mod laws;

pub use fields::{BitsOutside, extract, shift_of, terms};
