//! A listing worked by hand. This function does nothing when it runs: its clause is what is proved, by computing the
//! definition.

ghost use Rattle.std.specs.Prelude.{◌≡◌, ◌++◌, codes};
ghost use Rattle.transcript.specs.Listing.{named_text};
ghost use Rattle.ipbus_program.specs.CheckExamples.{crate_registers};

/// A field of a word, a block, and a register below a hierarchical one. None of them overlaps another.
pub fn a_listing()
    ensures { named_text crate_registers
        ≡ codes "a 0x00000008 0xffffffff rw single 1\na.top 0x00000008 0x80000000 rw single 1\n"
        ++ (codes "mem 0x00000100 0xffffffff rw block 600\nsys 0x00000000 0xffffffff rw hierarchical 1\n"
        ++ codes "sys.id 0x00000004 0xffffffff r single 1\n") }
{}
