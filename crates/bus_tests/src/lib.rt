//! Tests of one bus, its audit, scenario files, their bounds and streams.
#![tactic(auto)]

#[cfg(test)]
mod scenarios;
#[cfg(test)]
mod tests;
#[cfg(test)]
mod texts;
