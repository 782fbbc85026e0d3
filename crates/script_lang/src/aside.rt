//! A key of a document that is read by itself.

ghost use Rattle.std.specs.Prelude.{◌≡◌, option_map};
ghost use Rattle.toml.specs.Data.{get_member};
ghost use Rattle.toml.specs.View.{view, table_view};
ghost use Rattle.script_lang.specs.Aside.{without};

use toml::{Table, Value};

/// Takes a key out of a document (profile), with the value that stands under it. It takes no memory.
pub fn take_key(document: &mut Table, key: &str) -> Option<Value>
    ensures taken { option_map view result ≡ get_member key.now (table_view document.old) }
    ensures left { table_view document.new ≡ without key.now (table_view document.old) }
{
    document.remove(key)
}
