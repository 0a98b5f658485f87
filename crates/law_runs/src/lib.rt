//! Definitions and laws of runs, none of which runs: the premises, which telegrams are legal and who is named; the run
//! of a scenario on one thread, and histories with the turns of an instant in any order. Functions have empty bodies; their
//! contracts are the laws.
#![tactic(auto)]

mod examples;
mod laws;
mod turns;
mod worked;

pub use examples::{
    events_of_worked_scenarios, outlooks_of_worked_worlds, runs_of_worked_scenarios,
};
pub use laws::{
    a_history_in_instants_is_the_run, a_run_ends, a_run_is_a_history_in_instants,
    a_turn_leaves_when_others_are_due, due_taps_may_be_found_one_by_one, due_taps_take_one_turn,
    steps_happen_at_their_moments, the_events_of_a_run_lead_to_its_end,
};
pub use turns::turns_of_one_instant_commute;
pub use worked::{
    a_stopped_tap_has_no_part, scenarios_that_break_a_premise, scenarios_that_keep_the_premises,
    traces_are_judged, traces_name_a_station,
};
