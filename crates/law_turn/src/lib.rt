//! The turn of a station, as definitions over plain data, and its laws. This crate has no code that runs.
#![tactic(auto)]

mod activity;
mod laws;
mod rules;

pub use activity::{
    a_holder_gives_way, a_mark_is_due_when_it_is_delivered,
    a_reply_to_the_question_goes_into_the_list,
    only_the_question_for_the_status_is_answered_by_one_that_listens,
    the_bus_is_quiet_since_the_latest_end, what_a_station_knows_outlasts_a_begin,
    what_a_station_knows_outlasts_its_replies, what_characters_bring,
    what_is_no_telegram_tells_nothing,
};
pub use laws::{
    a_busy_station_says_nothing, a_busy_station_waits,
    a_first_token_is_taken_from_the_previous_station, a_mark_comes_before_a_timer_at_its_moment,
    a_slot_counts_from_the_end, a_station_that_is_due_speaks, a_turn_keeps_the_address,
    a_turn_leaves_the_due_later, nothing_due_changes_nothing, one_that_listens_takes_no_token,
    only_a_holder_initiates, the_tables_stand_for_what_was_heard_asked_and_received,
    what_a_station_keeps_can_be_said, who_is_offline_says_nothing,
    who_waits_for_a_reply_has_an_open_request,
};
pub use rules::{
    a_claim_is_two_tokens, a_claim_waits_for_a_time_out, a_foreign_request_takes_the_token_away,
    a_namesake_is_given_way, a_passive_station_only_replies, a_refused_token_is_remembered,
    a_reply_is_dropped_where_activity_begins, a_reply_is_the_outcome, a_reply_waits_for_its_delay,
    a_request_is_sent_again_after_its_slot, a_request_waits_behind_those_of_its_priority,
    a_round_is_due_some_rotations_after_the_last, a_station_stands_between_its_neighbours,
    a_station_that_is_skipped_twice_listens, a_token_is_passed_again_after_its_slot,
    a_token_is_tried_three_times, activity_ends_the_check,
    an_answer_takes_the_place_of_a_reply_that_waits, one_station_is_asked_per_receipt,
    requests_go_by_priority, what_a_master_says_of_itself, what_is_only_told_waits_for_no_answer,
    what_tokens_and_questions_are, without_an_answer_the_next_request_is_a_first_one,
    without_holding_time_one_high_request_is_sent,
};
