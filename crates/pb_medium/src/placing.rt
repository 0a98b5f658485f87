//! The position of a new entry in the trace.

ghost use Rattle.std.specs.Prelude.{◌≡◌, ◌≤◌, length, map};
ghost use Rattle.pb_medium.specs.Entries.{entry_of};
ghost use Rattle.pb_medium.specs.Traces.{place_of};

use crate::entries::Entry;

/// The index at which an entry is inserted: before the first entry that it precedes, else at the end.
pub(crate) fn place_among(others: &[Entry], entry: &Entry) -> usize
    ensures bound { result ≤ length others.now }
    ensures place { result ≡ place_of (entry_of entry.now) (map entry_of others.now) }
{
    for (place, other) in others.iter().enumerate() {
        if entry.goes_before(other) {
            return place;
        }
    }
    others.len()
}
