//! What the program writes for a scenario file, as values: traces, audits, the numbers of proved bounds, the lines of
//! faults, and hints for people. Contracts name the bytes, but those of hints.
#![tactic(auto)]

mod air_hints;
mod audit_hints;
mod audits;
mod bounds;
mod captures;
mod documents;
mod entries;
mod explaining;
mod faults;
mod file_hints;
mod file_values;
mod files;
mod json;
mod key_hints;
mod names;
mod near_words;
mod numbers;
mod param_hints;
mod plays;
mod run_hints;
mod shown;
mod stream_hints;
mod tails;
mod texts;
mod warnings;

pub use audit_hints::explain_audit;
pub use audits::{push_legality, push_premise};
pub use bounds::{
    is_round_long, lag_margin, masters_of, never_asks, reply_margin, shortest_rotation,
    silence_bound, take_margin,
};
pub use captures::{Capture, no_tap_line};
pub use explaining::{MOST_EVENTS, explain, explain_bus, explain_settling};
pub use faults::{new_line, refused_line};
pub use files::{audited, described, described_stream, refused_file};
pub use json::bounds_json;
pub use pb_scenario::{Reasons, Scenario, StreamScenario};
pub use plays::traced;
pub use shown::Shown;
pub use texts::bounds_text;
pub use warnings::{warn, warn_of_stream};
