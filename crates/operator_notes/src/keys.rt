//! What stands under a key of a document.

use crate::unread::found;
use note_lines::Notes;
use script_lang::{parse_document, take_key};
use toml::Value;

/// The value under a key of a document, if it is TOML and has the key.
pub(crate) fn value_of(notes: &mut Notes, bytes: &[u8], key: &str) -> Option<Value> {
    let mut document = found(parse_document(notes.alloc, bytes), notes)?;
    take_key(&mut document, key)
}
