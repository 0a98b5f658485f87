//! The states of a station that passes a token, as types.
//!
//! Each state is a type of its own, and each transition consumes the state that it leaves: a station is in one state,
//! and only a [`Holding`] can send an initiator telegram. [`Phase`] is the enum of the states. No call takes memory.
#![tactic(auto)]

mod laws;
mod phases;
mod states;
mod waiting;

pub use laws::states_seen_alike_are_equal;
pub use phases::Phase;
pub use states::{AwaitData, AwaitStatus, Checking, Claim, Holding, Pass, TRIES, Use};
pub use waiting::{Idle, Listening, Offline, PassiveIdle};
