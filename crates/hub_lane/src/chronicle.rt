//! A lane as a value with a record, and what it is worth.

ghost use Rattle.std.specs.Prelude.{◌≡◌, ◌⊎◌, false, IfSome};
ghost use Rattle.world_model.specs.Facts.{bodies_of};
ghost use Rattle.links.specs.Receives.{receives_in};
ghost use Rattle.lane_record.specs.Claims.{IsFinished};
ghost use Rattle.lane_record.specs.Outcomes.{AreSettled};
ghost use Rattle.hub_lane.specs.Truth.{HasEachLate, IsTrueTo, IsWhole};

use crate::lane::Lane;
use crate::laws::{
    a_finished_lane_is_whole, a_lane_over_a_link_that_tells_is_true,
    a_timed_out_body_has_its_late_answer,
};
use links::Link;
use turn_pass::Chronicle;

impl<L: Link> Chronicle for Lane<L> {
    ghost use Rattle.hub_lane.specs.Records.{record_shown};

    ghost entries = { λ lane.
        record_shown lane.number lane.settings lane.status (L.telling lane.link) lane.items };

    fn count(&self) -> u64 {
        self.entries().len() as u64
    }
}

impl<L: Link> Lane<L> {
    /// What a lane over a link that tells is worth at any time. It does nothing when it runs.
    pub fn is_true(&self)
        ensures { IfSome (L.telling self.now.link)
            (λ t. IsTrueTo t (bodies_of self.now.hub.sent) self.now.outcomes self.now.lates) }
    {
        a_lane_over_a_link_that_tells_is_true();
        self.is_sound();
    }

    /// Which late answers a lane over a link that tells has: each that the link handed out for a body that was timed
    /// out, unless memory ran out. It does nothing when it runs.
    pub fn has_each_late(&self)
        ensures { (self.now.spent ≡ false) ⊎ AreSettled self.now.outcomes
            → IfSome (L.telling self.now.link) (λ t. HasEachLate t self.now.outcomes self.now.lates) }
    {
        a_timed_out_body_has_its_late_answer();
        self.is_sound();
    }

    /// What any lane is worth once each asked body was taken. It does nothing when it runs.
    pub fn is_whole(&self)
        requires { IsFinished self.now.items }
        ensures { IsWhole self.now.items self.now.lates self.now.hub.sent self.now.hub.window self.now.hub.rounds
            self.now.give_ups (L.faults self.now.link) (L.quiets self.now.link) self.now.status
            (receives_in (L.traffic self.now.link)) (L.telling self.now.link) }
    {
        a_finished_lane_is_whole();
        self.is_sound();
        self.has_listened();
    }
}
