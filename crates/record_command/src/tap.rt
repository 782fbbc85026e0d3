//! A link whose datagrams are kept.

ghost use Rattle.std.specs.Prelude.{◌≡◌, ◌≢◌, ◌≤◌, ◌++◌, ◌∷◌, [], length, IfSome, IfOk, OnOk, OnErr, Ok, Err};
ghost use Rattle.ipb_base.specs.Faults.{Rose};
ghost use Rattle.links.specs.Traffic.{received_after, sent_after};
ghost use Rattle.links.specs.Telling.{gots_after, IfTelling, IsCarried, IsSent, quiets_after, Receives};
ghost use Rattle.record_command.specs.Passing.{sent_item};
ghost use Rattle.record_command.specs.Traffic.{HasCaught, IsUnused, caught_after};

use crate::keeping::{keep, sent, take_room};
use capture_reader::{Capture, Caught, Id, Items};
use links::laws::a_receive_goes_step_by_step;
use links::{Link, LinkFault, MAX_DATAGRAM, Received, Waiter};
use std::alloc::Global;
use std::marker::Model;
use world_model::laws::links::a_link_forgets_nothing;

/// A link, and all datagrams that were sent on it and received from it, in the order of the calls. Contracts see both.
///
/// It does what the link does, and takes the memory for a datagram before it asks the link: a call that changed the link
/// never fails behind that. A send or a receive for which there is no such memory is one for which memory ran out, and
/// changes nothing. It costs the link's call and a copy of the datagram.
#[derive(Drop)]
pub struct TapLink<L: Link> {
    alloc: Global,
    link: L,
    caught: Vec<Caught>,
    spare: Vec<u8>,
}

impl<L: Link> Model for TapLink<L> {
    ghost use Rattle.std.specs.Prelude.{◌≡◌, []};
    ghost use Rattle.record_command.specs.Traffic.{HasCaught, Tapped};

    ghost Value = { Tapped L };

    ghost view = { λ tap. record { link = tap.link; caught = tap.caught.items } };

    ghost invariant = { λ tap.
        HasCaught (L.telling tap.link) (L.traffic tap.link) tap.caught.items × (tap.spare.items ≡ []) };
}

impl<L: Link> TapLink<L> {
    /// A tap of a link over which nothing has passed yet. Of one that tells, nothing is in the air either.
    pub fn new(alloc: Global, link: L) -> TapLink<L>
        requires traffic { L.traffic link ≡ [] }
        requires told { IfSome (L.telling link) IsUnused }
        ensures { result ≡ record { link = link; caught = [] } }
    {
        TapLink {
            alloc,
            link,
            caught: Vec::new(alloc),
            spare: Vec::new(alloc),
        }
    }

    /// The link beneath the tap.
    pub fn link(&self) -> &L
        ensures { result.now ≡ self.now.link }
    {
        &self.link
    }

    /// The datagrams so far.
    pub fn caught(&self) -> &[Caught]
        ensures { result.now ≡ self.now.caught }
    {
        self.caught.as_slice()
    }

    /// What holds of the datagrams of every tap. It does nothing when it runs.
    pub fn is_sound(&self)
        ensures { HasCaught (L.telling self.now.link) (L.traffic self.now.link) self.now.caught }
    {
        let _caught = &self.caught;
    }

    /// The link, given back, and the capture of its datagrams, of at most `MAX_DATAGRAM` bytes each. It takes no memory.
    pub fn into_parts(self, first: Id) -> (L, Capture)
        ensures link { result.0 ≡ self.link }
        ensures capture { result.1 ≡ record { first = first; items = self.caught } }
        ensures caught { HasCaught (L.telling result.0) (L.traffic result.0) result.1.items }
    {
        let TapLink { link, caught, .. } = self;
        let items = Items::from_vec(caught);
        (link, Capture { first, items })
    }

    /// Sends a datagram on the link, and keeps it where the link took it.
    pub fn send(&mut self, bytes: &[u8]) -> Result<(), LinkFault>
        requires { length bytes.now ≤ MAX_DATAGRAM }
        ensures caught { OnOk result (self.new.caught ≡ self.old.caught ++ sent_item bytes.now ∷ []) }
        ensures uncaught { OnErr result (self.new.caught ≡ self.old.caught) }
        ensures sent { OnOk result (IfTelling (L.telling self.old.link) (L.telling self.new.link)
            (IsSent bytes.now (L.held self.old.link) (L.held self.new.link))) }
        ensures refused { OnErr result (L.telling self.new.link ≡ L.telling self.old.link) }
        ensures failed { result ≡ Err LinkFault.Failed → Rose (L.faults self.old.link) (L.faults self.new.link) }
        ensures unfaulted { IfSome (L.telling self.old.link) (λ _.
            result ≢ Err LinkFault.Failed → L.faults self.new.link ≡ L.faults self.old.link) }
        ensures faults { L.faults self.old.link ≤ L.faults self.new.link }
        ensures quiets { L.quiets self.new.link ≡ L.quiets self.old.link }
        ensures gots { L.gots self.new.link ≡ L.gots self.old.link }
        ensures traffic { L.traffic self.new.link ≡ sent_after result bytes.now (L.traffic self.old.link) }
        ensures number { L.number self.new.link ≡ L.number self.old.link }
        ensures held { L.held self.old.link ≤ L.held self.new.link }
    {
        let item = sent(self.alloc, &mut self.caught, bytes)?;
        self.link.send(bytes)?;
        self.caught.push_reserved(item);
        Ok(())
    }

    /// Receives a datagram from the link, and keeps it where one came. `into` is empty where none did.
    pub fn receive(&mut self, into: &mut Vec<u8>) -> Result<Received, LinkFault>
        ensures caught { self.new.caught ≡ self.old.caught ++ caught_after result into.new.items }
        ensures datagram { IsCarried result into.new.items }
        ensures received { IfTelling (L.telling self.old.link) (L.telling self.new.link)
            (Receives result into.new.items (L.held self.old.link) (L.held self.new.link)) }
        ensures failed { result ≡ Err LinkFault.Failed → Rose (L.faults self.old.link) (L.faults self.new.link) }
        ensures unfaulted { IfSome (L.telling self.old.link) (λ _.
            result ≢ Err LinkFault.Failed → L.faults self.new.link ≡ L.faults self.old.link) }
        ensures faults { L.faults self.old.link ≤ L.faults self.new.link }
        ensures quiets { L.quiets self.new.link ≡ quiets_after result (L.quiets self.old.link) }
        ensures quiets_rise { L.quiets self.old.link ≤ L.quiets self.new.link }
        ensures gots { L.gots self.new.link ≡ gots_after result (L.gots self.old.link) }
        ensures gots_rise { L.gots self.old.link ≤ L.gots self.new.link }
        ensures traffic { L.traffic self.new.link ≡ received_after result into.new.items (L.traffic self.old.link) }
        ensures number { L.number self.new.link ≡ L.number self.old.link }
        ensures held { L.held self.old.link ≤ L.held self.new.link }
    {
        a_receive_goes_step_by_step();
        a_link_forgets_nothing();
        into.clear();
        take_room(&mut self.spare, &mut self.caught)?;
        let came = self.link.receive(into);
        keep(self.alloc, &mut self.spare, &mut self.caught, &came, into);
        came
    }
}

impl<L: Link> Link for TapLink<L> {
    ghost telling = { λ tap. L.telling tap.link };

    ghost faults = { λ tap. L.faults tap.link };

    ghost quiets = { λ tap. L.quiets tap.link };

    ghost gots = { λ tap. L.gots tap.link };

    ghost held = { λ tap. L.held tap.link };

    ghost traffic = { λ tap. L.traffic tap.link };

    ghost number = { λ tap. L.number tap.link };

    fn send(&mut self, bytes: &[u8]) -> Result<(), LinkFault> {
        TapLink::send(self, bytes)
    }

    fn receive(&mut self, into: &mut Vec<u8>) -> Result<Received, LinkFault> {
        TapLink::receive(self, into)
    }

    fn waiter(&mut self, alloc: Global) -> Option<Waiter> {
        self.link.waiter(alloc)
    }
}
