//! A station for the driver of a line.
//!
//! A [`Port`] is a station with the marks of what it has heard and not read yet. A driver starts it, lets requests
//! wait at it, tells it when activity of others begins and ends, and has it take its turn when it is
//! [`due`](Port::due). All moments are bit times since the driver's clock began. A call whose conditions aren't met is
//! refused by name ([`PortFault`]) and changes nothing. A [`Feed`] makes the marks of single characters, as a UART
//! gives them. A [`Handle`] keeps a port behind a pointer, for C.
#![tactic(auto)]

mod faults;
mod feeds;
mod handles;
mod ports;

pub use faults::PortFault;
pub use feeds::{Feed, FeedFault, FeedMark};
pub use handles::Handle;
pub use pb_station::Indication;
pub use ports::Port;
