//! The names of the rules.

ghost use Rattle.std.specs.Prelude.{◌≡◌};
ghost use Rattle.session_input.specs.Names as spec;

use address_table::TableWhy;
use board_bus::BusRefusal;
use node_tree::CompileWhy;
use script_lang::{DocWhy, ScriptWhy};

pub(crate) fn document_rule(why: DocWhy) -> &'static str
    ensures { result.now ≡ spec.document_rule why }
{
    match why {
        DocWhy::NotToml => "NotToml",
        DocWhy::Shape => "Shape",
        DocWhy::NoBoards => "NoBoards",
        DocWhy::ManyBoards => "ManyBoards",
        DocWhy::ManyClients => "ManyClients",
        DocWhy::DuplicateBoard => "DuplicateBoard",
    }
}

pub(crate) fn table_rule(why: TableWhy) -> &'static str
    ensures { result.now ≡ spec.table_rule why }
{
    match why {
        TableWhy::Shape => "Shape",
        TableWhy::UnknownKey => "UnknownKey",
        TableWhy::MissingId => "MissingId",
        TableWhy::BadId => "BadId",
        TableWhy::BadNumber => "BadNumber",
        TableWhy::BadMask => "BadMask",
        TableWhy::BadPermission => "BadPermission",
        TableWhy::BadMode => "BadMode",
        TableWhy::BadSize => "BadSize",
        TableWhy::BadCount => "BadCount",
    }
}

pub(crate) fn compile_rule(why: CompileWhy) -> &'static str
    ensures { result.now ≡ spec.compile_rule why }
{
    match why {
        CompileWhy::UnknownModule => "UnknownModule",
        CompileWhy::ModuleCycle => "ModuleCycle",
        CompileWhy::TooMany => "TooMany",
        CompileWhy::TooDeep => "TooDeep",
        CompileWhy::Duplicate => "Duplicate",
        CompileWhy::AddressPastEnd => "AddressPastEnd",
    }
}

pub(crate) fn bus_rule(why: BusRefusal) -> &'static str
    ensures { result.now ≡ spec.bus_rule why }
{
    match why {
        BusRefusal::Empty => "Empty",
        BusRefusal::PastEnd => "PastEnd",
        BusRefusal::Overlap => "Overlap",
        BusRefusal::TooLarge => "TooLarge",
        BusRefusal::InitLong => "InitLong",
        BusRefusal::NoMemory => "NoMemory",
    }
}

pub(crate) fn script_rule(why: ScriptWhy) -> &'static str
    ensures { result.now ≡ spec.script_rule why }
{
    match why {
        ScriptWhy::BadLine => "BadLine",
        ScriptWhy::UnknownBoard => "UnknownBoard",
        ScriptWhy::UnknownName => "UnknownName",
        ScriptWhy::NoPermission => "NoPermission",
        ScriptWhy::WrongMode => "WrongMode",
        ScriptWhy::PastSize => "PastSize",
        ScriptWhy::BitsOutside => "BitsOutside",
        ScriptWhy::NotWhole => "NotWhole",
        ScriptWhy::TooMany => "TooMany",
    }
}
