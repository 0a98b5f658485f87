//! Lets entries go that are over, so that a trace takes no more memory than what is on the bus.

use crate::entries::Entry;
use crate::traces::Trace;

impl Trace {
    ghost use Rattle.std.specs.Prelude.{◌≡◌, ◌≤◌, length, map};
    ghost use Rattle.pb_medium.specs.Entries.{entry_of};
    ghost use Rattle.pb_medium.specs.LettingGo.{gone_of, past_of, LetsGo};
    ghost use Rattle.pb_medium.specs.Traces.{entries_of, limit_of};

    /// The entries that [`let_go`](Trace::let_go) removes: those that are over, in order.
    pub fn past(&self) -> &[Entry]
        ensures { map entry_of result.now ≡ past_of self.entry.now }
    {
        &self.entries[..self.gone()]
    }

    /// Removes the entries that are over, and lowers the limit by their number. The reserved memory stays.
    pub fn let_go(&mut self)
        ensures { LetsGo self.old self.new }
    {
        let gone = self.gone();
        let left = self.entries.len() - gone;
        self.entries.rotate_left(gone);
        self.entries.truncate(left);
        self.over -= gone;
        self.limit -= gone;
    }

    /// How many entries can be removed: all that are over, if there may be as many.
    fn gone(&self) -> usize
        ensures count { result ≡ gone_of self.entry.now }
        ensures few { result ≤ length (entries_of self.entry.now) }
        ensures room { result ≤ limit_of self.entry.now }
    {
        if self.over <= self.limit {
            self.over
        } else {
            0
        }
    }
}
