//! The taps of one bus: what each is, its station with the unread marks, events, and why they are refused. All times
//! are in bit times.
#![tactic(auto)]

mod events;
mod faults;
mod glancing;
mod making;
mod queueing;
mod taps;
mod turning;

pub use events::{Event, Reply};
pub use faults::{NewFault, WorldFault};
pub use glancing::{fits, fits_decided, glance};
pub use making::{TAP_LIMIT, check_taps, new_taps};
pub use queueing::{check_queue, queue};
pub use taps::{Kind, Tap, TapSpec};
pub use turning::{Replaced, check_running, take_decided, take_turn, would_speak};
