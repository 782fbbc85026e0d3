//! What `check` makes of the bytes of a document.

ghost use Rattle.std.specs.Prelude.{◌≡◌, [], IfOk};
ghost use Rattle.transcript.specs.Listing.{listing_text as listed};
ghost use Rattle.command_terms.specs.Outside.{no_pairs};
ghost use Rattle.command_terms.specs.Terms.{Owes};
ghost use Rattle.ipbus_program.specs.CheckTerms as spec;

use command_terms::{Answer, done_status, refused};
use ipb_base::NoMemory;
use node_tree::Index;
use session_input::{Unread, read_for_check};
use std::alloc::Global;
use transcript::Listing;

/// Lists the registers of a table of a session document (profile), with 0 where none of them overlap, and else with 1. A
/// document that breaks a rule is answered by the line of the first, with 3. No range and no script is looked at.
pub fn check_document(alloc: Global, bytes: &[u8], table: &str) -> Result<Answer, NoMemory>
    ensures owed { IfOk result
        (λ answer. Owes (spec.check_terms table.now) bytes.now (no_pairs []) answer.status answer.text.items) }
{
    match read_for_check(alloc, bytes, table) {
        Ok(index) => listing(alloc, &index),
        Err(Unread::Refused(refusal)) => refused(alloc, refusal),
        Err(Unread::NoMemory) => Err(NoMemory),
    }
}

/// The listing of an index, and the status that goes with it.
fn listing(alloc: Global, index: &Index) -> Result<Answer, NoMemory>
    ensures text { IfOk result (λ answer. answer.text.items ≡ listed index.now) }
    ensures status { IfOk result (λ answer. answer.status ≡ spec.listing_status index.now) }
{
    let Listing { text, overlaps } = Listing::of(alloc, index)?;
    Ok(Answer::new(alloc, done_status(overlaps == 0), text))
}
