//! The codes that calls at a monitor answer.

/// The handle has no monitor.
pub(crate) const NO_MONITOR: u32 = 91;

/// The handle has a monitor already.
pub(crate) const MONITOR_IN_USE: u32 = 92;

/// There is no such form of a capture or of a summary.
pub(crate) const BAD_FORM: u32 = 93;

/// The capture has ended, or memory was refused in the middle of it.
pub(crate) const FINISHED: u32 = 94;
