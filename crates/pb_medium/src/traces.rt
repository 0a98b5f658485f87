//! The trace of a medium, and its memory.

ghost use Rattle.std.specs.Prelude.{◌≡◌, ◌≤◌, ◌<◌, length, vec_capacity};
ghost use Rattle.std.specs.List.{insert};

use crate::entries::Entry;
use crate::placing::place_among;
use pb_taps::WorldFault;
use std::alloc::Global;

/// The most entries of a trace.
pub const TRACE_LIMIT: usize = 100_000;

/// How many entries are reserved at first; later, three times the present number are added. Without reserved memory the
/// entries would be moved, and a turn would first be tested for whether it sends. Reserved memory that is not used is
/// not touched.
const FIRST_ROOM: usize = 16_384;

/// All entries of a medium, in order: those that had ended before all others began, and the recent ones.
#[derive(Drop)]
pub struct Trace {
    pub(crate) entries: Vec<Entry>,
    /// How many entries had ended before all others began.
    pub(crate) over: usize,
    /// How many entries there may be.
    pub(crate) limit: usize,
    ghost within: { over ≤ length entries.items },
}

impl Trace {
    ghost use Rattle.std.specs.Prelude.{◌≡◌, ◌≤◌, ◌+◌, [], nat_le, IsTrue, ◌↔◌, IfErr, OnOk, length, map};
    ghost use Rattle.std.specs.List.{insert};
    ghost use Rattle.law_model.specs.Trace.{with_entry};
    ghost use Rattle.pb_medium.specs.Entries.{entry_of};
    ghost use Rattle.pb_medium.specs.Traces.{entries_of, limit_of, over_of, place_of, recent_of};
    ghost use Rattle.pb_medium.specs.Traces.{HasRoom, RecentBecomes, RefusesRoom, StaysAs};

    /// A trace without entries.
    pub fn new(alloc: Global, limit: usize) -> Trace
        ensures limit { limit_of result ≡ limit }
        ensures empty { entries_of result ≡ [] }
        ensures over { over_of result ≡ 0 }
    {
        Trace {
            entries: Vec::new(alloc),
            over: 0,
            limit,
        }
    }

    /// All entries, in order.
    pub fn entries(&self) -> &[Entry]
        ensures { map entry_of result.now ≡ entries_of self.entry.now }
    {
        &self.entries
    }

    /// Consumes the trace and returns all entries, in order.
    pub fn into_entries(self) -> Vec<Entry>
        ensures { map entry_of result.items ≡ entries_of self }
    {
        self.entries
    }

    /// The recent entries: those after the ones that are over.
    pub fn recent(&self) -> &[Entry]
        ensures { map entry_of result.now ≡ recent_of self.entry.now }
    {
        &self.entries[self.over..]
    }

    /// Whether it takes one more entry without allocating.
    pub fn has_room(&self) -> bool
        ensures { IsTrue result ↔ HasRoom self.now }
    {
        self.entries.len() < self.entries.capacity().min(self.limit)
    }

    /// Whether it has the most entries that a trace may have.
    pub fn is_full(&self) -> bool
        ensures { result ≡ nat_le (limit_of self.entry.now) (length (entries_of self.entry.now)) }
    {
        self.entries.len() >= self.limit
    }

    /// Reserves memory for one more entry.
    ///
    /// Faults, the first that applies: `TraceFull`; `NoMemory`.
    pub fn make_room(&mut self) -> Result<(), WorldFault>
        ensures same { StaysAs self.old self.new }
        ensures ok { OnOk result (HasRoom self.new) }
        ensures fault { IfErr result (RefusesRoom self.old) }
    {
        if self.has_room() {
            return Ok(());
        }
        if self.is_full() {
            return Err(WorldFault::TraceFull);
        }
        let count = self.entries.len();
        let more = count
            .saturating_mul(3)
            .max(FIRST_ROOM)
            .min(self.limit - count);
        self.entries.reserve(more)?;
        Ok(())
    }

    /// Inserts an entry among the recent ones, and returns its index among all entries.
    #[inline(always)]
    pub(crate) fn put(&mut self, entry: Entry) -> usize
        requires { HasRoom self.old }
        ensures becomes { RecentBecomes (with_entry (entry_of entry)) self.old self.new }
        ensures place { result ≡ over_of self.old + place_of (entry_of entry) (recent_of self.old) }
        ensures entries { entries_of self.new ≡ insert (entries_of self.old) result (entry_of entry) }
        ensures bound { result ≤ length (entries_of self.old) }
    {
        let place = self.over + place_among(self.recent(), &entry);
        insert(&mut self.entries, place, entry);
        place
    }
}

/// Inserts an entry at an index, within the reserved memory. It is nearly always appended, and then written in place.
#[inline(always)]
fn insert(entries: &mut Vec<Entry>, place: usize, entry: Entry)
    requires place { place ≤ length entries.old.items }
    requires room { length entries.old.items < vec_capacity entries.old }
    ensures { entries.new.items ≡ insert entries.old.items place entry }
{
    if place == entries.len() {
        entries.push_reserved(entry);
    } else {
        insert_before(entries, place, entry);
    }
}

/// Slow path of `insert`, kept out of line: the entry goes before another.
#[inline(never)]
fn insert_before(entries: &mut Vec<Entry>, place: usize, entry: Entry)
    requires place { place ≤ length entries.old.items }
    requires room { length entries.old.items < vec_capacity entries.old }
    ensures { entries.new.items ≡ insert entries.old.items place entry }
{
    entries.insert(place, entry).unwrap();
}
