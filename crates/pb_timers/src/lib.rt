//! The times of a bus: the parameters that all stations of a segment share, moments, and how long octets take.
//!
//! All times are whole bit times. No call takes memory.
#![tactic(auto)]

mod durations;
mod moments;
mod params;

pub use durations::{CHARACTER_BITS, bits};
pub use moments::{ClockFull, Moment};
pub use params::{BusParams, NamedParams, ParamFault};
