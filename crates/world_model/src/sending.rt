use packet_ids::Id;

/// What a hub sends next.
#[derive(Clone, Copy, PartialEq, Eq)]
pub enum Sending {
    /// A status request (IPbus 2.0, status packet).
    Status,
    /// A request to send the reply to this control packet again.
    Resend { id: Id },
    /// The control packet of a place, for the first time or again.
    Control { place: u64, id: Id },
}
