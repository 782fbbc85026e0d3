//! Laws of the definitions. This function does nothing when it runs: its clauses are what is proved.

ghost use Rattle.std.specs.Prelude.{◌≡◌};
ghost use Rattle.command_terms.specs.declared.answer.TheConstants.{DONE, NOT_ALL_DONE, USAGE, REFUSED, READ_FAULT};
ghost use Rattle.command_terms.specs.declared.answer.TheConstants.{WRITE_FAULT, NO_MEMORY, RACK_FAULT, DOOR_FAULT};
ghost use Rattle.command_terms.specs.Numbers.{done_status, not_all_done_status, usage_status, refused_status};
ghost use Rattle.command_terms.specs.Numbers.{read_fault_status, write_fault_status, no_memory_status};
ghost use Rattle.command_terms.specs.Numbers.{rack_fault_status, door_fault_status};

/// The numbers that a user sees are those of the definitions.
pub fn the_statuses_of_the_program()
    ensures done { DONE ≡ done_status }
    ensures not_all_done { NOT_ALL_DONE ≡ not_all_done_status }
    ensures usage { USAGE ≡ usage_status }
    ensures refused { REFUSED ≡ refused_status }
    ensures read_fault { READ_FAULT ≡ read_fault_status }
    ensures write_fault { WRITE_FAULT ≡ write_fault_status }
    ensures no_memory { NO_MEMORY ≡ no_memory_status }
    ensures rack_fault { RACK_FAULT ≡ rack_fault_status }
    ensures door_fault { DOOR_FAULT ≡ door_fault_status }
{}
