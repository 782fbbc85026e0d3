ghost use Rattle.std.specs.Prelude.{◌≡◌};
ghost use Rattle.std.specs.List.{list_any};
ghost use Rattle.std.specs.Str.{bytes_eq};
ghost use Rattle.address_table.specs.Kinds as spec;

/// Who may use a register: for reading, for writing, or for both.
#[derive(Clone, Copy, PartialEq, Eq)]
pub enum Permission {
    R,
    W,
    Rw,
}

/// How a register is used (uHAL): one word, a block of words at rising addresses, a port whose words all go through one
/// address, or a node that is there for its children alone.
#[derive(Clone, Copy, PartialEq, Eq)]
pub enum Mode {
    Single,
    Block,
    Port,
    Hierarchical,
}

/// The words for the permission to read.
const READ: [&str; 2] = ["r", "read"];

/// The words for the permission to write.
const WRITE: [&str; 2] = ["w", "write"];

/// The words for the permission to do both.
const BOTH: [&str; 4] = ["rw", "wr", "readwrite", "writeread"];

/// The words for a block.
const BLOCK: [&str; 3] = ["block", "incremental", "inc"];

/// The words for a port.
const PORT: [&str; 3] = ["port", "non-incremental", "non-inc"];

/// Whether a word is one of these.
pub(crate) fn is_one_of(words: &[&str], word: &str) -> bool
    ensures { result ≡ list_any (λ w. bytes_eq word.now w.now) words.now }
{
    words.iter().any(|known| word == *known)
}

/// The permission that a word of a document names.
pub(crate) fn permission_named(word: &str) -> Option<Permission>
    ensures { result ≡ spec.permission_named word.now }
{
    if is_one_of(&READ, word) {
        Some(Permission::R)
    } else if is_one_of(&WRITE, word) {
        Some(Permission::W)
    } else if is_one_of(&BOTH, word) {
        Some(Permission::Rw)
    } else {
        None
    }
}

/// The mode that a word of a document names.
pub(crate) fn mode_named(word: &str) -> Option<Mode>
    ensures { result ≡ spec.mode_named word.now }
{
    if word == "single" {
        Some(Mode::Single)
    } else if is_one_of(&BLOCK, word) {
        Some(Mode::Block)
    } else if is_one_of(&PORT, word) {
        Some(Mode::Port)
    } else if word == "hierarchical" {
        Some(Mode::Hierarchical)
    } else {
        None
    }
}
