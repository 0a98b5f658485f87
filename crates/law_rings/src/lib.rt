//! Bounded rotation: how long a station of a ring waits for the token.
//!
//! `specs/Rotation.antt` states it, `specs/Actions.antt` where data change between events; `specs/Settled.antt` says when
//! a ring is settled. This crate has no code that runs: its functions have empty bodies, and their contracts are laws.
#![tactic(auto)]

mod actions;
mod examples;
mod lists;
mod theorem;

pub use actions::{
    a_rotation_is_bounded_whatever_the_data, a_settled_ring_stays_whatever_the_data,
};
pub use examples::{calm_events_are_needed, the_bound_is_almost_reached};
pub use lists::a_token_to_the_next_station_keeps_the_list;
pub use theorem::{a_rotation_is_bounded, a_settled_ring_stays};
