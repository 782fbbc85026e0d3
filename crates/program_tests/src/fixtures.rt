//! What tests of the program share: session documents, and `control` on them with sources, sinks and doors in memory.

mod calls;
mod captures;
mod documents;

pub(crate) use calls::{
    Came, Fails, NOTHING_FAILS, answer, answer_at, calm, over_links, run_over, shut_door,
    wide_sink, words_of,
};
pub(crate) use captures::{DESCRIBED, ONE_READ};
pub(crate) use documents::{
    APPLIED, DOCUMENT, DOCUMENT_TRANSCRIPT, FIRST, FIRST_TRANSCRIPT, LENGTH, NOT_KEPT, POLICY,
    VALUE, document_with,
};
