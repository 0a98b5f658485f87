//! The result of an audit, and why there is none.

use pb_taps::{NewFault, WorldFault};
use pb_timers::Moment;
use thiserror::Error;

/// What an audit finds in a run.
#[derive(Clone, Copy, Debug, PartialEq, Eq)]
pub struct Audit {
    /// The number of the first premise that broke, 1 to 4, with the clock after the event that broke it. If an event
    /// breaks several, it is the lowest number.
    pub premise: Option<(u8, Moment)>,
    /// The index in the trace of the first illegal initiator record.
    pub illegal: Option<usize>,
}

/// Why there is no audit.
#[derive(Clone, Copy, Debug, PartialEq, Eq, Error)]
pub enum AuditFault {
    /// The bus is refused.
    #[error("New {0}")]
    New(NewFault),
    /// The event with this index, from 0, is refused.
    #[error("At {0} {1}")]
    At(usize, WorldFault),
}
