//! One bus for many threads: a world under a lock, and the history of its events. The world is the replay of that
//! history. The seats, one for each tap and one for the conductor, keep receipts of their events; at the end receipts
//! and history are compared.
#![tactic(auto)]

mod blocks;
mod closing;
mod drafts;
mod faults;
mod histories;
mod known;
mod locked;
mod making;
mod notes;
mod origins;
mod outlooks;
mod receipts;
mod reports;
mod seats;
mod segments;
mod turns;

pub use drafts::{Closed, Draft};
pub use faults::{CloseFault, CommitFault, GlanceFault};
pub use histories::History;
pub use outlooks::{Dues, Outlook};
pub use pb_world::{Entry, Event, NewFault, World, WorldFault};
pub use receipts::Receipt;
pub use reports::Report;
pub use seats::{ConductorSeat, TapSeat};
pub use segments::{CloseRefused, SharedSegment};
