//! What a listener's alarms mean for the runs of a bus: while the premises are kept, it raises none.
//!
//! This crate has no code that runs: its functions have empty bodies, and their contracts are laws.
#![tactic(auto)]

mod actions;
mod examples;
mod naming;
mod runs;
mod taps;

pub use actions::{
    a_tap_hears_a_capture_whatever_the_data, runs_are_timely_whatever_the_data,
    runs_raise_no_alarm_anywhere_whatever_the_data, runs_raise_no_alarm_whatever_the_data,
    telegrams_name_their_speakers_whatever_the_data,
    the_holder_is_named_or_nobody_whatever_the_data,
};
pub use examples::{
    holders_are_named, listeners_beside_a_station_hear_a_ring, passive_taps_capture_a_ring,
};
pub use naming::the_holder_is_named_or_nobody;
pub use runs::{
    runs_are_timely, runs_raise_no_alarm, runs_raise_no_alarm_anywhere,
    runs_raise_no_alarm_of_legality, telegrams_name_their_speakers,
};
pub use taps::a_tap_hears_a_capture;
