ghost use Rattle.std.specs.Prelude.{◌≡◌, ◌++◌, ◌∷◌, [], ◌<◌, ◌≤◌, ◌+◌};
ghost use Rattle.std.specs.Vec.{vec_len, vec_capacity};

/// Appends a word for which room was taken before.
pub(crate) fn push_within(out: &mut Vec<u32>, word: u32)
    requires { vec_len out.old < vec_capacity out.old }
    ensures items { out.new.items ≡ out.old.items ++ word ∷ [] }
    ensures len { vec_len out.new ≡ vec_len out.old + 1 }
    ensures capacity { vec_capacity out.old ≤ vec_capacity out.new }
{
    out.push(word).unwrap();
}
