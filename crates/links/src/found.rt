//! What a waiter finds beside its link, and the one word in which both keep it.

ghost use Rattle.std.specs.Prelude.{◌≡◌, ℕ, ◌+◌, ◌<◌, ◌^◌};
ghost use Rattle.links.specs.declared.found.Found.TheVariants.{Nothing, Arrival, Silence};
ghost use Rattle.links.specs.Waits as spec;

/// What was found of the next datagram of a link.
#[derive(Clone, Copy)]
pub enum Found {
    /// Nothing that a receive may rest on.
    Nothing,
    /// A datagram of the board, or an error that the link's receive meets too.
    Arrival,
    /// None came in a whole wait, which began after so many sends of the link.
    Silence { sends: u64 },
}

/// The word of `Found::Nothing`.
const NOTHING: u64 = 0;

/// The word of `Found::Arrival`.
const ARRIVAL: u64 = u64::MAX;

impl Found {
    /// Whether it is a silence that no send has broken, where the link has sent so many datagrams.
    pub fn is_silence(self, sends: u64) -> bool
        ensures { result ≡ spec.is_silence self sends }
    {
        match self {
            Found::Silence { sends: before } => before == sends,
            Found::Nothing | Found::Arrival => false,
        }
    }

    /// Whether the next receive of a link that has sent so many datagrams can answer at once: there is an arrival, or a
    /// silence that no send has broken.
    pub fn is_ready(self, sends: u64) -> bool
        ensures { result ≡ spec.is_ready self sends }
    {
        match self {
            Found::Arrival => true,
            Found::Nothing | Found::Silence { sends: _ } => self.is_silence(sends),
        }
    }

    /// The word in which link and waiter keep it. Of a silence after 2^64 - 2 sends or more the word is another's.
    pub fn word(self) -> u64
        ensures { result ≡ spec.word_of self }
    {
        match self {
            Found::Nothing => NOTHING,
            Found::Arrival => ARRIVAL,
            Found::Silence { sends } => sends.wrapping_add(1),
        }
    }

    /// What a word stands for.
    pub fn of(word: u64) -> Found
        ensures { result ≡ spec.found_in word }
    {
        match word {
            NOTHING => Found::Nothing,
            ARRIVAL => Found::Arrival,
            _ => Found::Silence { sends: word - 1 },
        }
    }
}

/// What link or waiter keeps in the word, the other reads there. This function does nothing when it runs.
pub fn what_was_found_is_read_back()
    ensures nothing { spec.found_in (spec.word_of Nothing) ≡ Nothing }
    ensures arrival { spec.found_in (spec.word_of Arrival) ≡ Arrival }
    ensures silence { (sends : ℕ) → sends + 2 < 2 ^ 64 → spec.found_in (spec.word_of (Silence sends)) ≡ Silence sends }
{}
