//! The last initiator record of a trace.

ghost use Rattle.std.specs.Prelude.{◌≡◌};
ghost use Rattle.law_runs.specs.Initiators.{telegram_of};
ghost use Rattle.pb_medium.specs.Entries.{record_of};
ghost use Rattle.pb_world.specs.Meanings.{meaning_of};

use crate::initiators::Meaning;
use pb_medium::Record;

/// The last initiator record before an entry.
#[derive(Clone, Copy, Debug)]
pub(crate) struct LastInitiator<'a> {
    pub(crate) telegram: &'a Record,
    pub(crate) meaning: Meaning,
    /// Whether nothing was active at its speaker so far in the slot after it.
    pub(crate) silent: bool,
    ghost means: { meaning ≡ meaning_of (telegram_of (record_of telegram.now)) },
}
