ghost use Rattle.hub_lane.specs.Below.{LateLaws, RoundLaws, WayLaws};
ghost use Rattle.hub_lane.specs.PumpLaws.{PumpLaws};
ghost use Rattle.hub_lane.specs.RecoveryBelow.{RecoveryLaws};
ghost use Rattle.hub_lane.specs.RunLaws.{HandingOutLaws};

use crate::laws::recovery::{
    a_round_goes_on_unless_datagrams_are_held, give_ups_are_paid_by_datagrams_held,
};
use board_bus::laws::{a_reply_answers_its_body, a_reply_has_room, words_stay_words};
use lane_record::laws::book::outcomes_go_into_the_book;
use lane_record::laws::offers::{
    a_failed_link_loses_what_waits, a_send_settles_nothing, what_a_hub_hears_settles_asks,
};
use links::laws::a_send_leaves_the_fates;
use packet_codec::laws::reading_is_the_grammar;
use reliable_engine::laws::machine_runs::handing_out_changes_no_run;
use world_model::laws::boards::the_last_replies_alone_are_held;
use world_model::laws::late_answers::a_late_answer_is_of_a_timed_out_body;
use world_model::laws::links::{a_link_forgets_nothing, each_event_keeps_them_joined};
use world_model::laws::sends::only_an_offer_makes_more_bodies;

/// What the laws of rounds say, for the proofs here. It does nothing when it runs.
pub(crate) fn laws_of_rounds()
    ensures { RoundLaws }
{
    give_ups_are_paid_by_datagrams_held();
}

/// What they say of what is under way in a round. It does nothing when it runs.
pub(crate) fn laws_of_ways()
    ensures { WayLaws }
{
    a_round_goes_on_unless_datagrams_are_held();
}

/// What the laws of late answers say. It does nothing when it runs.
pub(crate) fn laws_of_late_answers()
    ensures { LateLaws }
{
    a_late_answer_is_of_a_timed_out_body();
}

/// What the law of runs says of hubs that differ in what they handed out. It does nothing when it runs.
pub(crate) fn laws_of_runs()
    ensures { HandingOutLaws }
{
    handing_out_changes_no_run();
}

/// What the laws say of a hub in a pump. It does nothing when it runs.
pub(crate) fn laws_of_pumps()
    ensures { PumpLaws }
{
    a_send_leaves_the_fates();
    only_an_offer_makes_more_bodies();
    a_send_settles_nothing();
    what_a_hub_hears_settles_asks();
    a_failed_link_loses_what_waits();
    outcomes_go_into_the_book();
    laws_of_late_answers();
}

/// What the crates below say of packets, boards and links, for the proofs of the recovery. It does nothing when it runs.
pub(crate) fn laws_of_recovery()
    ensures { RecoveryLaws }
{
    reading_is_the_grammar();
    words_stay_words();
    a_reply_answers_its_body();
    a_reply_has_room();
    the_last_replies_alone_are_held();
    each_event_keeps_them_joined();
    a_link_forgets_nothing();
}
