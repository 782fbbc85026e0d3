use address_table::{Mode, Permission};

/// What a name of an index stands for (uHAL).
#[derive(Clone, Copy, PartialEq, Eq)]
pub struct Register {
    /// The sum of the addresses of the nodes that lead to it, and of index times stride of each that has a count, in
    /// words.
    pub address: u32,
    /// The bits of the word that the register has; not 0.
    pub mask: u32,
    /// Whether it may be read and written.
    pub permission: Permission,
    /// How it is used.
    pub mode: Mode,
    /// The words of a block or a port; 1 for the other modes.
    pub size: u32,
}
