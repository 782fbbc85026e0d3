ghost use Rattle.std.specs.Prelude.{◌≡◌, ◌↔◌, ◌≤◌, IsNone, IfSome};
ghost use Rattle.packet_ids.specs.Identifier.{IsIdentifier};

use std::marker::Model;

/// The identifier of a packet in the order: 1 to 0xffff. Contracts see it as that number.
#[derive(Clone, Copy, PartialEq, Eq)]
pub struct Id {
    number: u16,
}

impl Model for Id {
    ghost use Rattle.std.specs.Prelude.{ℕ, ◌≤◌};

    ghost Value = { ℕ };

    ghost view = { λ id. id.number };

    ghost invariant = { λ id. 1 ≤ id.number };

    ghost inverse = { λ n. record { number = n } };
}

impl Id {
    /// The identifier with this number, or `None` for 0, which is no number in the order.
    pub fn new(n: u16) -> Option<Id>
        ensures none { IsNone result ↔ (n ≡ 0) }
        ensures value { IfSome result (λ id. id ≡ n) }
    {
        if n == 0 { None } else { Some(Id { number: n }) }
    }

    /// The identifier with this number, which is known not to be 0.
    pub(crate) fn numbered(n: u16) -> Id
        requires { 1 ≤ n }
        ensures { result ≡ n }
    {
        Id { number: n }
    }

    /// The number, 1 to 0xffff.
    pub fn get(self) -> u16
        ensures value { result ≡ self }
        ensures range { IsIdentifier self }
    {
        self.number
    }
}
