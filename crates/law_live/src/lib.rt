//! Liveness: the bus is never dead. In every run that keeps the premises of the token theorem, the next token telegram
//! comes within a stated time, with any damage, starts, stops and requests.
//!
//! `specs/NeverDead.antt` states it. This crate has no code that runs: its functions have empty bodies, and their
//! contracts are laws.
#![tactic(auto)]

mod actions;
mod examples;
mod holding;
mod promises;
mod theorem;

pub use actions::{actions_keep_their_promises, the_bus_is_never_dead_whatever_the_data};
pub use examples::{the_bound_is_reached, three_premises_are_needed};
pub use holding::{a_holder_keeps_within_its_time, a_holder_speaks_in_time};
pub use promises::a_run_keeps_its_promises;
pub use theorem::the_bus_is_never_dead;
