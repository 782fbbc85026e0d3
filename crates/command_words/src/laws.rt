//! Laws of the words. These functions do nothing when they run: their clauses are what is proved.

ghost use Rattle.std.specs.Prelude.{◌≡◌, ◌≤◌, ◌∷◌, ℕ, List, [], true, codes, Some, None};
ghost use Rattle.clap.specs.Words.{takes, fault_of};
ghost use Rattle.ipb_base.specs.Numbers.{greatest_port, most_connections, most_operations};
ghost use Rattle.command_words.specs.App.{ipbus};
ghost use Rattle.command_words.specs.Commands.{command_of, usage_text};
ghost use Rattle.command_words.specs.Forms.{Form, words_of, ArePlain, IsNamed};
ghost use Rattle.command_words.specs.declared.command.TheConstants.{MAX_CONNECTIONS, MAX_OPERATIONS, MAX_PORT};
ghost use Rattle.command_words.specs.declared.command.TheConstants.{USAGE_LINE};
ghost use Rattle.command_words.specs.declared.command.Command.TheVariants.{Run, Check, Serve, Load, Audit};
ghost use Rattle.command_words.specs.declared.command.Command.TheVariants.{Record, Describe, Undescribe, Save, Apply};

/// The numbers of the commands are those of the definitions.
pub fn the_numbers_of_the_commands()
    ensures port { MAX_PORT ≡ greatest_port }
    ensures connections { MAX_CONNECTIONS ≡ most_connections }
    ensures operations { MAX_OPERATIONS ≡ most_operations }
{}

/// The line for words that are no command is that of the definitions.
pub fn the_usage_line_is_its_text()
    ensures { USAGE_LINE.now ≡ usage_text }
{}

/// The words of a command are taken by clap.
pub fn the_words_of_a_command_are_taken()
    ensures { (s : Form) → IsNamed s → ArePlain (words_of s) → takes ipbus (words_of s) ≡ true }
{}

/// Words in which clap finds no fault are those of a command.
pub fn words_without_a_fault_are_those_of_a_command()
    ensures { (ws : List (List ℕ)) → ArePlain ws → fault_of ipbus ws ≡ [] → (s : Form) × IsNamed s × (ws ≡ words_of s) }
{}

/// A load is of at most so many operations.
pub fn a_load_has_a_bound()
    ensures { (words : List (List ℕ)) (count : ℕ) → command_of words ≡ Some (Load count) → count ≤ most_operations }
{}

/// Words worked by hand.
#[tactic(auto, unfolding(ipb_base::specs::Digits::digit_value))]
pub fn words_by_hand()
    ensures run { command_of (codes "run" ∷ []) ≡ Some Run }
    ensures check { command_of (codes "check" ∷ codes "main" ∷ []) ≡ Some (Check (codes "main")) }
    ensures serve { command_of (codes "serve" ∷ codes "50001" ∷ codes "64" ∷ []) ≡ Some (Serve 50001 64) }
    ensures load { command_of (codes "load" ∷ codes "100000" ∷ []) ≡ Some (Load 100000) }
    ensures audit { command_of (codes "audit" ∷ []) ≡ Some Audit }
    ensures record_ { command_of (codes "record" ∷ []) ≡ Some Record }
    ensures describe { command_of (codes "describe" ∷ []) ≡ Some Describe }
    ensures undescribe { command_of (codes "undescribe" ∷ []) ≡ Some Undescribe }
    ensures save { command_of (codes "save" ∷ []) ≡ Some Save }
    ensures apply { command_of (codes "apply" ∷ []) ≡ Some Apply }
    ensures no_load { command_of (codes "load" ∷ codes "0" ∷ []) ≡ None }
    ensures too_much_load { command_of (codes "load" ∷ codes "100001" ∷ []) ≡ None }
    ensures no_words { command_of [] ≡ None }
    ensures a_word_more { command_of (codes "run" ∷ codes "x" ∷ []) ≡ None }
    ensures no_help { command_of (codes "--help" ∷ []) ≡ None }
    ensures port_0 { command_of (codes "serve" ∷ codes "0" ∷ codes "1" ∷ []) ≡ None }
    ensures port_too_high { command_of (codes "serve" ∷ codes "65536" ∷ codes "1" ∷ []) ≡ None }
    ensures leading_zero { command_of (codes "serve" ∷ codes "05000" ∷ codes "1" ∷ []) ≡ Some (Serve 5000 1) }
    ensures ten_digits { command_of (codes "load" ∷ codes "0000000007" ∷ []) ≡ Some (Load 7) }
    ensures eleven_digits { command_of (codes "load" ∷ codes "00000000007" ∷ []) ≡ None }
    ensures hexadecimal { command_of (codes "serve" ∷ codes "0x1388" ∷ codes "1" ∷ []) ≡ None }
    ensures sign { command_of (codes "serve" ∷ codes "5000" ∷ codes "+1" ∷ []) ≡ None }
    ensures no_connections { command_of (codes "serve" ∷ codes "5000" ∷ codes "0" ∷ []) ≡ None }
    ensures too_many_connections { command_of (codes "serve" ∷ codes "5000" ∷ codes "65" ∷ []) ≡ None }
{}
