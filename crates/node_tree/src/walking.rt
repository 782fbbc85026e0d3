//! The walk through the nodes of a table and of its modules.
ghost use Rattle.std.specs.Prelude.{◌≡◌, ◌≤◌, ◌-◌, ◌+◌, ◌++◌, ◌||◌, if◌then◌else◌, false, List, [], Ok, Err, OnOk, IfOk, IfErr, SomeIff, ◌<◌};
ghost use Rattle.std.specs.Prelude.{◌^◌, string_bytes};
ghost use Rattle.std.specs.FinMap.{contains_key, insert};
ghost use Rattle.address_table.specs.declared.nodes.Node.{Node as Nod, out-Node};
ghost use Rattle.node_tree.specs.Limits.{most_ids};
ghost use Rattle.node_tree.specs.Maps.{nodes_of as table_nodes};
ghost use Rattle.node_tree.specs.Names.{children_of, name_below, last_index, index_text, address_at, register_at};
ghost use Rattle.node_tree.specs.Names.{plain_name, name_at};
ghost use Rattle.node_tree.specs.Walk as spec;
ghost use Rattle.node_tree.specs.Walk.{twin_text};
ghost use Rattle.node_tree.specs.Run.{each_index, visit_next, run, IsStop};

use crate::name_map::NameMap;
use crate::{CompileWhy, MAX_IDS, MAX_NODES, Register, Tables};
use address_table::{Mode, NoMemory, Node, Text};
use std::alloc::Global;

/// The registers that the walk has found, and how many nodes it came to.
#[derive(Drop)]
pub(crate) struct Found {
    pub names: NameMap<Register>,
    pub count: usize,
}

/// Why the walk stopped: at a node, by its name and the first rule that it breaks.
#[derive(Drop)]
pub(crate) enum Fault {
    At { name: Text, why: CompileWhy },
    NoMemory,
}

impl From<NoMemory> for Fault {
    ghost use Rattle.node_tree.specs.declared.walking.Fault.TheVariants.{NoMemory};

    ghost from_gives = { λ _ e. e ≡ NoMemory };

    fn from(_error: NoMemory) -> Fault {
        Fault::NoMemory
    }
}

/// Where nodes stand: the address that theirs are counted from, and how many ids their names have.
#[derive(Clone, Copy)]
pub(crate) struct Level {
    pub base: u32,
    pub ids: u32,
}

/// The name of the node at hand and that of its twin, in memory that it shares with its siblings.
#[derive(Drop)]
struct Names {
    name: String,
    twin: String,
}

/// A walk through nodes, with what it has found.
#[derive(Drop)]
pub(crate) struct Walker {
    pub alloc: Global,
    pub found: Found,
}

impl Names {
    /// The name of an index of a node, and the first name that another node of the id would have, with a count where
    /// this one has none, or without.
    fn set(&mut self, above: &str, node: &Node, index: u32) -> Result<(), NoMemory>
        ensures name { OnOk result (string_bytes self.new.name ≡ name_at above.now node.now index) }
        ensures twin { let text = plain_name above.now node.now ++ twin_text (out-Node node.now).count in
            OnOk result (string_bytes self.new.twin ≡ text) }
    {
        let id = node.id.as_str();
        set_plain(&mut self.name, above, id)?;
        push_index(&mut self.name, node, index)?;
        set_plain(&mut self.twin, above, id)?;
        push_twin(&mut self.twin, node)
    }
}

impl Walker {
    /// Goes through nodes with all that is below them. The last ids of their names stand after the name `above`.
    #[cycle(walk)]
    pub(crate) fn walk(
        &mut self,
        tables: &Tables,
        nodes: &[Node],
        above: &str,
        level: Level,
    ) -> Result<(), Fault>
        requires { level.ids ≤ most_ids + 1 }
        ensures walked { let below = spec.walk tables.now (most_ids + 1 - level.ids) (level.ids + 1) in
            let visits = spec.siblings below tables.now level.ids above.now level.base [] nodes.now in
            IfOk result (λ _. run visits self.old.found ≡ Ok self.new.found) }
        ensures stopped { let below = spec.walk tables.now (most_ids + 1 - level.ids) (level.ids + 1) in
            let visits = spec.siblings below tables.now level.ids above.now level.base [] nodes.now in
            IfErr result (λ fault. IsStop (run visits self.old.found) fault) }
    {
        let mut names = Names {
            name: String::new(self.alloc),
            twin: String::new(self.alloc),
        };
        for node in nodes {
            self.walk_node(tables, node, above, level, &mut names)?;
        }
        Ok(())
    }

    /// Goes through the indexes of one node, each with all that is below it.
    #[cycle(walk)]
    fn walk_node(
        &mut self,
        tables: &Tables,
        node: &Node,
        above: &str,
        level: Level,
        names: &mut Names,
    ) -> Result<(), Fault>
        requires { level.ids ≤ most_ids + 1 }
        ensures walked { let visits = each_index tables.now level.ids above.now level.base node.now in
            IfOk result (λ _. (earlier : List Nod) → run (visits earlier) self.old.found ≡ Ok self.new.found) }
        ensures stopped { let visits = each_index tables.now level.ids above.now level.base node.now in
            IfErr result (λ fault. (earlier : List Nod) → IsStop (run (visits earlier) self.old.found) fault) }
    {
        for index in 0..index_count(node) {
            names.set(above, node, index)?;
            let name = names.name.as_str();
            let address = self.visit(name, names.twin.as_str(), level, node, index)?;
            let below = children(tables, node);
            let deeper = Level {
                base: address,
                ids: level.ids + 1,
            };
            self.walk(tables, below, name, deeper)?;
        }
        Ok(())
    }

    /// Keeps the register of an index of a node under its name, or tells the first rule that it breaks. Answers its
    /// address.
    fn visit(
        &mut self,
        name: &str,
        twin: &str,
        level: Level,
        node: &Node,
        index: u32,
    ) -> Result<u32, Fault>
        ensures shallow { OnOk result (level.ids ≤ most_ids) }
        ensures address { IfOk result (λ address. address ≡ address_at level.base node.now index) }
        ensures visited { let register = register_at level.base node.now index in
            let next = visit_next self.old.found name.now twin.now level.ids register in
            OnOk result (next ≡ Ok self.new.found) }
        ensures stopped { let register = register_at level.base node.now index in
            let next = visit_next self.old.found name.now twin.now level.ids register in
            IfErr result (λ fault. IsStop next fault) }
    {
        if self.found.count >= MAX_NODES {
            return Err(fault_at(self.alloc, name, CompileWhy::TooMany));
        }
        if level.ids > MAX_IDS {
            return Err(fault_at(self.alloc, name, CompileWhy::TooDeep));
        }
        let Some(register) = register(level.base, node, index) else {
            return Err(fault_at(self.alloc, name, self.why_past_end(name, twin)));
        };
        if self.is_taken(name, twin, register)? {
            return Err(fault_at(self.alloc, name, CompileWhy::Duplicate));
        }
        self.found.count += 1;
        Ok(register.address)
    }

    /// Keeps a register under its name, and answers whether one of two names was there before. The name is looked for
    /// where it is kept, and not before.
    fn is_taken(&mut self, name: &str, twin: &str, register: Register) -> Result<bool, NoMemory>
        ensures taken { let names = self.old.found.names in
            IfOk result (λ taken. taken ≡ (contains_key names name.now || contains_key names twin.now)) }
        ensures kept { IfOk result (λ taken.
            taken ≡ false → self.new.found.names ≡ insert self.old.found.names name.now register) }
        ensures count { self.new.found.count ≡ self.old.found.count }
    {
        if self.found.names.contains(twin) {
            return Ok(true);
        }
        let was = self.found.names.replace(self.alloc, name, register)?;
        Ok(was.is_some())
    }

    /// The rule that a node breaks whose register ends past the last address, by its names: another one comes first.
    fn why_past_end(&self, name: &str, twin: &str) -> CompileWhy
        ensures { let names = self.now.found.names in
            result ≡ (if contains_key names name.now || contains_key names twin.now
            then CompileWhy.Duplicate else CompileWhy.AddressPastEnd) }
    {
        if self.has_either(name, twin) {
            CompileWhy::Duplicate
        } else {
            CompileWhy::AddressPastEnd
        }
    }

    /// Whether one of two names is there already.
    fn has_either(&self, name: &str, twin: &str) -> bool
        ensures { let names = self.now.found.names in
            result ≡ (contains_key names name.now || contains_key names twin.now) }
    {
        self.found.names.contains(name) || self.found.names.contains(twin)
    }
}

/// The register of an index of a node, unless it is past the last address.
fn register(base: u32, node: &Node, index: u32) -> Option<Register>
    ensures { let register = register_at base node.now index in
        SomeIff result (spec.last_address register < 2 ^ 32) register }
{
    let address = base as u64 + node.address as u64 + index as u64 * node.stride as u64;
    if address > u32::MAX as u64 {
        return None;
    }
    let last = address + words_of(node.mode, node.size).saturating_sub(1) as u64;
    if last > u32::MAX as u64 {
        return None;
    }
    Some(Register {
        address: address as u32,
        mask: node.mask,
        permission: node.permission,
        mode: node.mode,
        size: node.size,
    })
}

/// The addresses that a register takes.
pub(crate) fn words_of(mode: Mode, size: u32) -> u32
    ensures { result ≡ spec.words_of mode size }
{
    match mode {
        Mode::Block => size,
        Mode::Single | Mode::Port | Mode::Hierarchical => 1,
    }
}

/// The fault of a node, by its name.
fn fault_at(alloc: Global, name: &str, why: CompileWhy) -> Fault
    ensures { IsStop (Err (name.now, why)) result }
{
    match Text::copy_of(alloc, name) {
        Ok(name) => Fault::At { name, why },
        Err(NoMemory) => Fault::NoMemory,
    }
}

/// Makes a text the name of an id below a name.
fn set_plain(text: &mut String, above: &str, id: &str) -> Result<(), NoMemory>
    ensures { OnOk result (string_bytes text.new ≡ name_below above.now id.now) }
{
    text.clear();
    text.push_str(above)?;
    if !above.is_empty() {
        text.push_str(".")?;
    }
    Ok(text.push_str(id)?)
}

/// How many indexes a node has, from 0 on; one where it has no count.
fn index_count(node: &Node) -> u32
    ensures { result ≡ last_index node.now + 1 }
{
    match node.count {
        Some(count) => count.saturating_sub(1) + 1,
        None => 1,
    }
}

/// Adds the index of a node in brackets, if the node has a count.
fn push_index(text: &mut String, node: &Node, index: u32) -> Result<(), NoMemory>
    ensures { OnOk result (string_bytes text.new ≡ string_bytes text.old ++ index_text (out-Node node.now).count index) }
{
    match node.count {
        Some(_) => Ok(write!(text, "[{index}]")?),
        None => Ok(()),
    }
}

/// Adds the first index in brackets, if the node has no count.
fn push_twin(text: &mut String, node: &Node) -> Result<(), NoMemory>
    ensures { OnOk result (string_bytes text.new ≡ string_bytes text.old ++ twin_text (out-Node node.now).count) }
{
    match node.count {
        Some(_) => Ok(()),
        None => Ok(text.push_str("[0]")?),
    }
}

/// The nodes of a table; none where there is no such table.
pub(crate) fn nodes_of<'a>(tables: &'a Tables, name: &str) -> &'a [Node]
    ensures { result.now ≡ table_nodes tables.now name.now }
{
    match tables.get(name) {
        Some(table) => table.nodes.as_slice(),
        None => &[],
    }
}

/// The children of a node: the nodes of its module, or else its own.
fn children<'a>(tables: &'a Tables, node: &'a Node) -> &'a [Node]
    ensures { result.now ≡ children_of tables.now node.now }
{
    match &node.module {
        Some(name) => nodes_of(tables, name.as_str()),
        None => node.nodes.as_slice(),
    }
}
