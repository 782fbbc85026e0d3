//! What each refusal means. `docs/FORMATS.md` has the same sentences.

use address_table::TableWhy;
use board_bus::BusRefusal;
use capture_commands::CaptureWhy;
use config_store::StoreWhy;
use node_tree::CompileWhy;
use script_lang::{DocWhy, ScriptWhy};

pub(crate) const TOO_LONG: &str = "the document has more than 16777216 bytes";

pub(crate) const POLICY: &str =
    "a policy lists at most 1024 rules, each with effect allow or deny, access r, w or rw, a pattern as its name, and at most a client from 1 to 64";

pub(crate) const NOT_SERVED: &str =
    "a policy binds scripts and no connections, so a document that has one is not served";

pub(crate) const NOT_ONE_BOARD: &str =
    "a capture is of one board, so a document with several is not recorded";

pub(crate) const NOT_SIMULATED: &str =
    "it is on a network, and only the traffic of a simulated board is recorded";

pub(crate) const NO_LENGTH: &str =
    "the first line is no length of a document in 1 to 8 digits, or fewer bytes follow it";

pub(crate) const LONG_AUDIT: &str =
    "the document has more than 16777216 bytes, or the whole input more than 134217728";

pub(crate) const NOT_AUDITED: &str =
    "it is on a network, and only runs of simulated boards are audited";

pub(crate) const LONG_CAPTURE: &str = "the capture has more than 134217728 bytes";

pub(crate) const LONG_DESCRIPTION: &str = "the description has more than 134217728 bytes";

pub(crate) const NO_DESCRIPTION: &str = "no capture has this description";

pub(crate) fn of_capture(why: CaptureWhy) -> &'static str {
    match why {
        CaptureWhy::First => "the first line is the word first and an identifier from 1 to 65535",
        CaptureWhy::Form => {
            "a line has > or <, a space, and two digits 0 to 9 or a to f for each byte, or - for none"
        }
        CaptureWhy::Long => "a datagram has at most 9000 bytes",
    }
}

pub(crate) fn of_state(why: StoreWhy) -> &'static str {
    match why {
        StoreWhy::Shape => {
            "under state each board has a table, and in it each register a number, by its name in quotes"
        }
        StoreWhy::Overlap => "an earlier register that is kept shares a bit with this one",
        StoreWhy::TooMany => "the boards keep more than 50000 registers",
        StoreWhy::UnknownBoard => "no board has this name",
        StoreWhy::UnknownName => "the table of the board has no such register",
        StoreWhy::NotKept => {
            "the register is not one word that is read and written, or others stand below its name"
        }
        StoreWhy::BitsOutside => "the value does not fit the mask of the register",
    }
}

pub(crate) fn of_document(why: DocWhy) -> &'static str {
    match why {
        DocWhy::NotToml => "the document is no TOML",
        DocWhy::Shape => {
            "a value of another kind or range, a key that does not belong there, or a key that is missing"
        }
        DocWhy::NoBoards => "the document has no board",
        DocWhy::ManyBoards => "the document has more than 16 boards",
        DocWhy::ManyClients => "the document has more than 64 clients",
        DocWhy::DuplicateBoard => "an earlier board has this name",
    }
}

pub(crate) fn of_table(why: TableWhy) -> &'static str {
    match why {
        TableWhy::Shape => {
            "a table lists nodes in an array, each with values of the right kinds, and with module or nodes, not both"
        }
        TableWhy::UnknownKey =>
            "no node of this format has this key; count and stride want format = 2",
        TableWhy::MissingId => "a node has an id",
        TableWhy::BadId => "an id is 1 to 64 letters, digits, _ and -",
        TableWhy::BadNumber => "address, mask, size, count and stride are numbers of 32 bits",
        TableWhy::BadMask => "a mask has at least one bit",
        TableWhy::BadPermission => "a permission is r, w or rw",
        TableWhy::BadMode => {
            "a mode is single, block, port or hierarchical, and block and port have the full mask"
        }
        TableWhy::BadSize => {
            "a size is 1 to 4194304, and 1 where the mode is single or hierarchical"
        }
        TableWhy::BadCount => {
            "a count is 1 to 65536; a stride is at least 1, and wants a count beside it"
        }
    }
}

pub(crate) fn of_compiling(why: CompileWhy) -> &'static str {
    match why {
        CompileWhy::UnknownModule => "the document has no table of a name that is used",
        CompileWhy::ModuleCycle => "the modules of the table lead back to it",
        CompileWhy::TooMany => "the table has more than 65536 names, those of its modules with it",
        CompileWhy::TooDeep => "a name has more than 16 ids",
        CompileWhy::Duplicate => "an earlier node at the same place has this id",
        CompileWhy::AddressPastEnd => "an address is past 0xffffffff",
    }
}

pub(crate) fn of_board(why: BusRefusal) -> &'static str {
    match why {
        BusRefusal::Empty => "a range has a size of 0",
        BusRefusal::PastEnd => "a range goes past the address 0xffffffff",
        BusRefusal::Overlap => "two ranges share an address",
        BusRefusal::TooLarge => "the ranges have more than 4194304 words together",
        BusRefusal::InitLong => "init has more words than its range",
        BusRefusal::NoMemory => "memory ran out",
    }
}

pub(crate) fn of_script(why: ScriptWhy) -> &'static str {
    match why {
        ScriptWhy::BadLine => "this is no line of a script",
        ScriptWhy::UnknownBoard => "no board has this name",
        ScriptWhy::UnknownName => "the table of the board has no such register",
        ScriptWhy::NoPermission => "the permission of the register does not allow this",
        ScriptWhy::WrongMode => {
            "the register is hierarchical, a group that is not read or written"
        }
        ScriptWhy::PastSize => "the block has more words than the register",
        ScriptWhy::BitsOutside => "the value does not fit the mask of the register",
        ScriptWhy::NotWhole => "the register has a mask, which read and write alone take",
        ScriptWhy::TooMany => {
            "with this line there are more than 200000 lines, 100000 operations or 1048576 words in blocks"
        }
    }
}
