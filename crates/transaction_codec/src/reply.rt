use ipb_base::Words;

/// A reply: the fields of its header and the words after it.
#[derive(Drop, PartialEq, Eq)]
pub struct Reply {
    /// The transaction identifier, at most 4095.
    pub tid: u16,
    /// The type, of `transaction_type`.
    pub kind: u8,
    /// The words that were done.
    pub count: u8,
    /// The info code, of `info_code`.
    pub code: u8,
    /// The words that were read.
    pub values: Words,
}
