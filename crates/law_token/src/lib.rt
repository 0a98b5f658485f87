//! The token theorem: in every run that keeps the premises at most one station may initiate, the trace names
//! it, and each telegram that only a holder sends is legal after the one before it.
//!
//! `specs/` states the invariant of every world in such a run, for every lag and every cable delay that the bus
//! parameters leave time for. This crate has no code that runs: its functions have empty bodies, and their contracts
//! are laws.
#![tactic(auto)]

mod actions;
mod events;
mod examples;
mod runs;
mod silence;
mod theorem;

pub use actions::{
    a_change_of_data_keeps_the_invariant, no_master_is_left_in_silence_whatever_the_data,
    the_token_is_exclusive_whatever_the_data,
};
pub use events::{
    a_loss_breaks_a_premise, a_new_world_has_the_invariant, a_pass_keeps_the_invariant,
    a_request_keeps_the_invariant, a_start_keeps_the_invariant, a_stop_keeps_the_invariant,
    a_turn_keeps_the_invariant, damage_keeps_the_invariant, noise_keeps_the_invariant,
};
pub use examples::{
    a_bit_beyond_is_too_late, after_noise_the_token_is_claimed, each_premise_is_needed,
    the_premises_can_be_met,
};
pub use runs::{
    a_run_keeps_its_bus, a_stopped_station_is_offline, no_holder_keeps_a_reply,
    premises_are_kept_by_beginnings, runs_append, the_data_to_reply_stays,
};
pub use silence::{no_master_is_left_in_silence, the_silence_bound_is_reached};
pub use theorem::{
    a_run_leaves_one_token, the_invariant_allows_one_holder, the_token_is_exclusive,
};
