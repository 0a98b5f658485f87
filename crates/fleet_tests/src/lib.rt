//! Tests of a bus for many threads, and of the workers that play on it.
#![tactic(auto)]

#[cfg(test)]
mod fleets;
#[cfg(test)]
mod segments;
#[cfg(test)]
mod tickets;
