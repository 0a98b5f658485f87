//! Runs of any length: the run of a scenario within a number of entries, what a stream of it has, and why what is over may
//! be let go.
//!
//! This crate has no code that runs: its functions have empty bodies, and their contracts are laws.
#![tactic(auto)]

mod laws;

pub use laws::{
    a_greater_limit_changes_nothing, a_judge_hears_a_ring, a_judge_needs_no_trace,
    a_run_is_within_its_limit, a_stream_has_the_run, an_audit_is_of_the_run,
    runs_go_on_without_their_past, what_is_over_may_be_let_go_at_any_event,
};
