//! Laws of the definitions, and worked examples of them. These functions do nothing when they run: their clauses are
//! what is proved.

ghost use Rattle.std.specs.Prelude.{◌≡◌, ◌≢◌, ℕ, List, length, [], ◌∷◌, Some, None, codes};
ghost use Rattle.ipb_base.specs.Numbers.{most_boards, most_clients, most_lines, most_window};
ghost use Rattle.script_lang.specs.Document as spec;
ghost use Rattle.std.specs.List.{AllByRecursion, AllZip};
ghost use Rattle.toml.specs.Data.{Members, get_member};
ghost use Rattle.script_lang.specs.Aside.{without};
ghost use Rattle.board_specs.specs.declared.spec.BoardSpec.{BoardSpec};
ghost use Rattle.node_tree.specs.Maps.{RegisterMap};
ghost use Rattle.node_tree.specs.Names.{IsIndexOf};
ghost use Rattle.node_tree.specs.Refusals.{KeepsRules};
ghost use Rattle.board_specs.specs.OpeningWords.{OpensOnWords};
ghost use Rattle.script_steps.specs.Executable.{AreExecutable};
ghost use Rattle.script_lang.specs.Scripts.{steps_of};
ghost use Rattle.script_lang.specs.Limits.{IsWithin};
ghost use Rattle.script_lang.specs.OnBoards.{StepsAreOn};
ghost use Rattle.script_lang.specs.OwnNames.{HaveOwnNames};
ghost use Rattle.script_lang.specs.Paths.{path};
ghost use Rattle.script_lang.specs.Texts.{endpoint};
ghost use Rattle.script_lang.specs.declared.refusal.SessionRefusal.{SessionRefusal as Refusal};
ghost use Rattle.script_lang.specs.declared.refusal.SessionRefusal.TheVariants.{NoMemory as no_memory};
ghost use Rattle.world_model.specs.declared.settings.TheConstants.{MAX_WINDOW};
ghost use Rattle.script_lang.specs.declared.refusal.TheConstants.{MAX_BOARDS, MAX_CLIENTS};
ghost use Rattle.script_lang.specs.declared.script_refusal.TheConstants.{MAX_LINES};
ghost use Rattle.script_lang.specs.declared.session.Session.{Session};
ghost use Rattle.script_lang.specs.declared.steps.PathStep.TheVariants.{Key, Item};

/// A document stands for at most one session, and bytes are the text of at most one document.
pub fn a_document_stands_for_one_session()
    ensures document { (document : Members) (s t : Session)
        → spec.IsSession document s → spec.IsSession document t → spec.SameSession s t }
    ensures bytes { (bytes : List ℕ) (s t : Session)
        → spec.StandsFor bytes s → spec.StandsFor bytes t → spec.SameSession s t }
    ensures text { (bytes : List ℕ) (one other : Members)
        → spec.IsToml bytes one → spec.IsToml bytes other → one ≡ other }
{}

/// Bytes that stand for a session have no refusal but want of memory.
pub fn a_read_document_is_not_refused()
    ensures { (bytes : List ℕ) (session : Session) (refusal : Refusal)
        → spec.StandsFor bytes session → spec.IsRefusal bytes refusal → refusal ≡ no_memory }
{}

/// Bytes have at most one first fault, and bytes that are no TOML have none.
#[tactic(auto, using(crate::proofs::OneAnswer::one_fault))]
pub fn a_first_fault_is_the_only_one()
    ensures one { (bytes : List ℕ) (f g : spec.Fault)
        → spec.HasFirstFault bytes f → spec.HasFirstFault bytes g → f ≡ g }
    ensures of_toml { (bytes : List ℕ) (f : spec.Fault) → spec.HasFirstFault bytes f → ¬ spec.IsNotToml bytes }
{}

/// The numbers of a session lie in the ranges of their keys, and its boards and clients within the limits of a session.
pub fn a_session_keeps_its_limits()
    ensures { (document : Members) (session : Session) → spec.IsSession document session → IsWithin session }
{}

/// No two boards of a session have one name.
pub fn the_boards_of_a_session_have_their_own_names()
    ensures { (document : Members) (session : Session) → spec.IsSession document session
        → HaveOwnNames session.boards }
{}

/// What the scripts of a session mean can be executed: each operation can be packed for any board, its address and its
/// words have 32 bits, and it is one that its verb asks for.
pub fn scripts_ask_what_can_be_executed()
    ensures { (document : Members) (session : Session) (indexes : List RegisterMap) → spec.IsSession document session
        → AllByRecursion (λ (b : BoardSpec). KeepsRules session.tables b.table) session.boards
        → AllZip (λ (b : BoardSpec) (index : RegisterMap). IsIndexOf session.tables b.table index)
        session.boards indexes
        → AllByRecursion AreExecutable (steps_of session.boards indexes session.scripts) }
{}

/// Each operation that scripts mean is on one of the boards.
pub fn scripts_ask_of_boards_that_are_there()
    ensures { (boards : List BoardSpec) (indexes : List RegisterMap) (scripts : List (List (List ℕ)))
        → AllByRecursion (StepsAreOn (length boards)) (steps_of boards indexes scripts) }
{}

/// The words that the ranges of a session's boards name have 32 bits.
pub fn the_ranges_of_a_session_name_words()
    ensures { (document : Members) (session : Session) → spec.IsSession document session
        → AllByRecursion OpensOnWords session.boards }
{}

/// A document without a key finds every other key as before, and that key no more; a document that does not have the
/// key is the same without it.
pub fn a_key_taken_out_leaves_the_others()
    ensures others { (key other : List ℕ) (document : Members) → other ≢ key
        → get_member other (without key document) ≡ get_member other document }
    ensures gone { (key : List ℕ) (document : Members) → get_member key (without key document) ≡ None }
    ensures unchanged { (key : List ℕ) (document : Members) → get_member key document ≡ None
        → without key document ≡ document }
{}

/// The limits of a session.
pub fn limits()
    ensures boards { MAX_BOARDS ≡ most_boards }
    ensures clients { MAX_CLIENTS ≡ most_clients }
    ensures window { MAX_WINDOW ≡ most_window }
    ensures lines { MAX_LINES ≡ most_lines }
{}

/// The way to the MTU of the first board.
pub fn paths_are_dotted()
    ensures { path (Key (codes "board") ∷ Item 0 ∷ Key (codes "mtu") ∷ []) ≡ codes "board.0.mtu" }
{}

/// Addresses with ports: the limits of each number, no leading zeros, and just four of them.
#[tactic(auto, unfolding(crate::specs::Texts::endpoint))]
pub fn addresses_with_ports()
    ensures read { endpoint (codes "10.0.255.1:65535") ≡ Some (10 ∷ 0 ∷ 255 ∷ 1 ∷ [], 65535) }
    ensures large { endpoint (codes "10.0.256.1:1") ≡ None }
    ensures zero { endpoint (codes "10.0.0.1:0") ≡ None }
    ensures leading_zero { endpoint (codes "10.0.0.01:1") ≡ None }
    ensures five { endpoint (codes "1.2.3.4.5:1") ≡ None }
    ensures three { endpoint (codes "1.2.3:1") ≡ None }
    ensures hexadecimal { endpoint (codes "0x1.2.3.4:1") ≡ None }
    ensures no_port { endpoint (codes "1.2.3.4") ≡ None }
{}
