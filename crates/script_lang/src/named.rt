//! Tables of names.

ghost use Rattle.std.specs.Prelude.{◌≡◌, map};
ghost use Rattle.ipb_base.specs.Lists.{first_named};

/// The value that stands first under a name.
pub(crate) fn value_named<T: Copy>(table: &[(&str, T)], name: &str) -> Option<T>
    ensures { result ≡ first_named (map (λ entry. (entry.0.now, entry.1)) table.now) name.now }
{
    for (its_name, value) in table {
        if *its_name == name {
            return Some(*value);
        }
    }
    None
}
