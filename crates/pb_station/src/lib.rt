//! One turn of a station.
//!
//! A [`Station`] hears the bus through marks. When it is [`due`], it takes its turn: it reads the marks and its timers
//! in order of time, and speaks if its moment has come. [`decide`] computes that turn as a [`Decision`], and changes
//! nothing.
#![tactic(auto)]

mod decisions;
mod inboxes;
mod indications;
mod mailboxes;
mod marks;
mod notes;
mod reading;
mod spares;
mod standing;
mod stations;
mod turns;

pub use decisions::{Decided, Decision, Glance, decide, decide_in, due};
pub use inboxes::{Inbox, MARK_LIMIT};
pub use indications::Indication;
pub use mailboxes::Mailbox;
pub use marks::Mark;
pub use pb_faults::NoMemory;
pub use pb_transitions::SendBuffer;
pub use spares::Spares;
pub use standing::Standing;
pub use stations::Station;
