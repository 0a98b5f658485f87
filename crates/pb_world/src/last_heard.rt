//! The last initiator record that a judge has heard.

ghost use Rattle.std.specs.Prelude.{◌≤◌};
ghost use Rattle.pb_timers.specs.Timers.{last_moment};

use crate::initiators::Meaning;
use pb_taps::TAP_LIMIT;

/// The last initiator record, as far as it decides what may follow.
#[derive(Clone, Copy, Debug)]
pub(crate) struct LastHeard {
    pub(crate) tap: usize,
    pub(crate) end: u64,
    pub(crate) meaning: Meaning,
    /// Whether nothing was active at its speaker so far in the slot after it.
    pub(crate) silent: bool,
    /// The taps that received it whole.
    pub(crate) whole: [bool; TAP_LIMIT],
    ghost ends: { end ≤ last_moment },
}
