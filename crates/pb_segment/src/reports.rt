//! The report of a closed segment.

use crate::closing::audit;
use crate::histories::History;
use crate::locked::Locked;
use crate::origins::Origin;
use crate::outlooks::Outlook;
use crate::seats::{ConductorSeat, TapSeat};
use pb_world::Entry;
use std::marker::Model;
use std::sync::ledger::Ledger;

/// What has happened on a closed segment: its history, the trace of the history's replay, how many turns each tap took,
/// and the conductor's outlooks. Only [`close`](crate::SharedSegment::close) and
/// [`close_beside`](crate::SharedSegment::close_beside) make one.
#[derive(Drop)]
pub struct Report {
    origin: Origin,
    trace: Vec<Entry>,
    history: History,
    turns: Vec<usize>,
    outlooks: Vec<Outlook>,
}

impl Model for Report {
    ghost use Rattle.std.specs.Prelude.{map};
    ghost use Rattle.pb_medium.specs.Entries.{entry_of};
    ghost use Rattle.pb_segment.specs.Reports.{ReportView, IsReport, report_of};

    ghost Value = { ReportView };

    ghost view = { λ r. report_of r.origin (map entry_of r.trace.items) r.history r.turns.items
        r.outlooks.items };

    ghost invariant = { λ r. IsReport (report_of r.origin (map entry_of r.trace.items) r.history r.turns.items
        r.outlooks.items) };
}

impl Report {
    ghost use Rattle.std.specs.Prelude.{◌≡◌, map};
    ghost use Rattle.pb_medium.specs.Entries.{entry_of};

    /// The trace of the bus after all events.
    pub fn trace(&self) -> &[Entry]
        ensures { map entry_of result.now ≡ self.now.trace }
    {
        &self.trace
    }

    /// All accepted events, each with its reply, in order.
    pub fn history(&self) -> &History
        ensures { result.now ≡ self.now.history }
    {
        &self.history
    }

    /// How many of them are turns of each tap.
    pub fn turns(&self) -> &[usize]
        ensures { result.now ≡ self.now.turns }
    {
        &self.turns
    }

    /// The conductor's outlooks, in order.
    pub fn outlooks(&self) -> &[Outlook]
        ensures { result.now ≡ self.now.outlooks }
    {
        &self.outlooks
    }
}

impl<L: Ledger> Locked<L> {
    ghost use Rattle.std.specs.Prelude.{◌≡◌, ◌+◌, length, map, sum};
    ghost use Rattle.pb_segment.specs.Reports.{IsReport};
    ghost use Rattle.pb_segment.specs.Seats.{accepted};

    /// Makes the report, given all seats. Together they had all events accepted.
    pub(crate) fn into_report(self, conductor: ConductorSeat<L>, seats: Vec<TapSeat<L>>) -> Report
        requires { length seats.items ≡ length self.turns }
        ensures report { IsReport result }
        ensures origin { result.origin ≡ self.origin }
        ensures history { result.history ≡ self.history }
        ensures turns { result.turns ≡ self.turns }
        ensures trace { result.trace ≡ self.world.trace }
        ensures outlooks { result.outlooks ≡ self.outlooks }
        ensures all { length result.history ≡ length conductor.receipts + sum (map accepted seats.items) }
    {
        let Locked {
            world,
            origin,
            history,
            known: _,
            turns,
            drives: _,
            outlooks,
            limit: _,
            mut book,
        } = self;
        audit(&mut book, conductor, seats);
        Report {
            origin,
            trace: world.into_trace(),
            history: History::of(history),
            turns,
            outlooks,
        }
    }
}
