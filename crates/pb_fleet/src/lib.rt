//! Workers in threads of their own that play a scenario on one segment, and the tickets that they draw.
#![tactic(auto)]

mod conductors;
mod drawers;
mod faults;
mod fleets;
mod gates;
mod pools;
mod reviewing;
mod rules;
mod seats;
mod tickets;
mod workers;

pub use faults::FleetFault;
pub use fleets::run_fleet;
pub use gates::Gate;
pub use pb_segment::{CloseFault, CommitFault};
pub use seats::TicketSeat;
pub use tickets::Tickets;
