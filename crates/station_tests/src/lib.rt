//! Tests of the calls of pb_telegram, pb_decode, pb_timers, pb_rotation, pb_ring, pb_tokenfsm and pb_cycles, the
//! parts of a station, of a port, and of the monitor. The crate has only tests. Message cycles on whole buses are
//! tested by event lists.
#![tactic(auto)]

#[cfg(test)]
mod tests;
