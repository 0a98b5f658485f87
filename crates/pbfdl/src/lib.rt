//! The data link layer for C: telegrams, parameters, a station at a line, a bus, and a monitor. `include/pbfdl.h` has
//! the declarations.
//!
//! Each call answers a code: 0, or the first fault that applies. A call with a fault changes nothing but what it says.
//! Codes, lengths and ranges are checked here; what is proved of a call stands on the call of pb_port, pb_telegram,
//! pb_timers or pb_world that it makes. Which lines pb_monitor says of a capture, and which of its counts are told, has no
//! contract here: of a monitor it is proved which of its text comes, and when.
#![tactic(auto)]

mod bus_codes;
mod bus_entries;
mod bus_handles;
mod bus_indications;
mod bus_readings;
mod buses;
mod codes;
mod indications;
mod listeners;
mod monitor_codes;
mod monitor_handles;
mod monitor_options;
mod monitor_readings;
mod monitors;
mod params;
mod ports;
mod readings;
mod receivers;
mod taps;
mod telegrams;
