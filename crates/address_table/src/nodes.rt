use crate::{Mode, Permission, Text};

/// A node of a table (uHAL): a register, and what is below it; or an array of these, one for each index.
#[derive(Drop)]
pub struct Node {
    /// Letters, digits, `_` and `-`, at least 1 and at most `MAX_ID_BYTES`.
    pub id: Text,
    /// Where the node, or its index 0, stands from its parent, in words.
    pub address: u32,
    /// The bits of the word that the register has; not 0.
    pub mask: u32,
    /// Whether the register may be read and written.
    pub permission: Permission,
    /// How the register is used.
    pub mode: Mode,
    /// The words of a block or a port, 1 to `MAX_WORDS`; 1 for the other modes.
    pub size: u32,
    /// How many registers the node names by indexes from 0, 1 to `MAX_INDEXES`. Without it the node names one register,
    /// and no index.
    pub count: Option<u32>,
    /// The words from the register of an index to that of the next, at least 1; 1 where there is no `count`.
    pub stride: u32,
    /// The table whose nodes are the children. The node then has none of its own.
    pub module: Option<Text>,
    /// Words about the node, kept as they stand; empty where they are left out.
    pub tags: Text,
    /// A description of the node, kept as it stands; empty where it is left out.
    pub description: Text,
    /// The children that stand in the node itself.
    pub nodes: Vec<Node>,
}

/// A table of nodes.
#[derive(Drop)]
pub struct Table {
    pub nodes: Vec<Node>,
}
