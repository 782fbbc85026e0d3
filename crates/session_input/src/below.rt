//! Laws of the crates below, put together. These functions do nothing when they run.

ghost use Rattle.session_input.specs.Below.{DocumentLaws, TableLaws};

use node_tree::laws::{
    a_refusal_is_the_only_one, an_index_is_determined_by_tables_and_root,
    tables_that_are_the_same_compile_alike, tables_that_keep_the_rules_are_not_refused,
};
use script_lang::laws::a_document_stands_for_one_session;

/// Bytes are the text of one document, which stands for one session.
pub fn document_laws()
    ensures { DocumentLaws }
{
    a_document_stands_for_one_session();
}

/// Tables compile into one index or are refused in one way.
pub fn table_laws()
    ensures { TableLaws }
{
    tables_that_keep_the_rules_are_not_refused();
    a_refusal_is_the_only_one();
    an_index_is_determined_by_tables_and_root();
    tables_that_are_the_same_compile_alike();
}
