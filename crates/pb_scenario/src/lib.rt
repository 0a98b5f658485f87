//! Scenarios: files that describe a bus with named taps and what happens on it from outside; the instants of a run, and
//! which taps take their turns in each; the run on one thread, as a list of events or judged as they happen; the text
//! of a trace; and whether a history with its outlooks is the run of a scenario, by a walk over both that applies no event.
#![tactic(auto)]

mod advancing;
mod agendas;
mod coming;
mod courses;
mod deeds;
mod faults;
mod fields;
mod files;
mod instants;
mod keys;
mod laws;
mod plays;
mod reading;
mod recorded;
mod repeated_steps;
mod repeats;
mod reports;
mod reviews;
mod rounds;
mod runs;
mod scenarios;
mod stages;
mod steps;
mod stream_files;
mod stream_scenarios;
mod stream_walks;
mod taps;
mod texts;
mod traces;
mod turning;
mod versions;
mod walks;
mod words;

pub use courses::{Course, course_of};
pub use deeds::{Deed, Step, When};
pub use faults::{RunFault, ScenarioFault};
pub use files::{read, read_bus};
pub use keys::{Key, Path, Section, UnknownKey};
pub use laws::{a_step_repeats_evenly, files_without_repeats_mean_the_same};
pub use pb_faults::NoMemory;
pub use pb_medium::Entry;
pub use pb_taps::{Event, Kind, NewFault, TapSpec, WorldFault};
pub use pb_world::{Audit, Cause, Illegal, Reasons, Rule, UsualEvents};
pub use repeats::Repeat;
pub use reports::{Look, Report};
pub use reviews::is_run;
pub use runs::{audit_of, events_of, reasons_of};
pub use scenarios::Scenario;
pub use stream_files::read_stream;
pub use stream_scenarios::StreamScenario;
pub use stream_walks::StreamWalk;
pub use texts::{push_number, push_trace, trace_text};
pub use traces::{Traced, trace_of};
pub use walks::Walk;
