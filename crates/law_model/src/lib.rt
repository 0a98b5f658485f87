//! The medium, the step of the world and its replay, as definitions over plain data, and the laws that say what they
//! mean.
//!
//! `specs/` defines what a tap senses of the bus (`sensed`, `marks_between`), the step of the world (`step`) and its
//! replay (`replay`). The turn of a station is in law_turn. This crate has no code that runs: its functions have empty
//! bodies, and their contracts are laws.
#![tactic(auto)]

mod examples;
mod medium_laws;
mod refusals;
mod world_laws;

pub use examples::{
    a_damaged_reply_is_asked_for_again, a_master_alone_keeps_the_token,
    a_stopped_speaker_is_heard_damaged, damage_alone_makes_no_second_holder,
    noise_lasts_to_the_later_end, two_masters_form_a_ring, what_is_lost_at_a_tap_makes_two_holders,
};
pub use medium_laws::{
    a_tap_does_not_hear_itself, only_a_pass_opens_a_burst, stretches_that_overlap_are_one_burst,
    stretches_that_touch_stay_apart, telegrams_of_one_instant_are_not_heard,
    what_has_ended_matters_no_more, whole_telegrams_fill_their_bursts_alone,
};
pub use refusals::{
    a_full_trace_takes_no_more, a_tap_hears_from_its_start_to_its_stop,
    a_world_has_taps_with_addresses, an_event_needs_a_tap_that_may_do_it,
    only_what_is_in_the_air_is_damaged, time_passes_within_its_bounds,
};
pub use world_laws::{
    a_refused_event_changes_nothing, marks_stand_in_order_of_time, the_clock_never_falls,
    what_a_pass_tells_a_tap, what_is_over_may_be_let_go,
};
