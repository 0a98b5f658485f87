//! One bus for many threads: a world and its history under one lock.

ghost use Rattle.std.specs.Prelude.{◌≡◌, ◌<◌, ◌++◌, ◌∷◌, [], List, length};
ghost use Rattle.pb_segment.specs.Histories as specs;

use crate::drafts::{Closed, Draft};
use crate::faults::{CloseFault, CommitFault, GlanceFault};
use crate::locked::Locked;
use crate::origins::Origin;
use crate::outlooks::Outlook;
use crate::receipts::{KeptReceipt, Receipt};
use crate::reports::Report;
use crate::seats::{ConductorSeat, TapSeat};
use pb_station::{Decided, Decision, Glance, SendBuffer};
use pb_world::Event;
use std::alloc::Global;
use std::hint::spin_loop;
use std::sync::ledger::Ledger;
use std::sync::{Mutex, MutexGuard, Wait};
use std::thread::Threads;

/// How many times the lock is tried before the thread sleeps: some microseconds, as long as one or two calls hold it.
const LOOKS: u32 = 1000;

/// One bus for many threads: a world and its history under one lock. The type parameter names the ledger of all events
/// that its seats had accepted, so seats of another segment have another type.
#[derive(Drop)]
pub struct SharedSegment<L: Ledger> {
    pub(crate) state: Mutex<Locked<L>>,
    /// The definition of its first world.
    pub(crate) origin: Origin,
}

/// A segment that was not closed, and all that was passed in.
#[derive(Drop)]
pub struct CloseRefused<L: Ledger> {
    /// Why it was not closed.
    pub fault: CloseFault,
    /// The segment.
    pub segment: SharedSegment<L>,
    /// The conductor's seat.
    pub conductor: ConductorSeat<L>,
    /// The tap seats.
    pub seats: Vec<TapSeat<L>>,
}

impl<L: Ledger> SharedSegment<L> {
    ghost use Rattle.std.specs.Prelude.{◌≡◌, ◌≢◌, ◌+◌, ◌++◌, ◌∷◌, [], All, Err, ◌↔◌, IsTrue};
    ghost use Rattle.std.specs.Prelude.{IfOk, IfErr, OnErr, OnOk, length, map, sum};
    ghost use Rattle.pb_world.specs.Glances.{CanBeDecided};
    ghost use Rattle.pb_taps.specs.Events.{event_of};
    ghost use Rattle.pb_segment.specs.declared.faults.CommitFault.TheVariants.{WrongTap};
    ghost use Rattle.pb_segment.specs.Closing.{IsClosed, IsMissing};
    ghost use Rattle.pb_segment.specs.Drafts.{DraftView, draft_of};
    ghost use Rattle.pb_segment.specs.Histories.{is_driven, is_turn, told};
    ghost use Rattle.pb_segment.specs.Reports.{IsReport};
    ghost use Rattle.pb_segment.specs.Seats.{Agrees, Answers, CountsTurns, IsOfPresent, IsSilent, IsTold, accepted};

    /// A glance at the tap of a seat, after all turns that the seat had accepted: its station, its unread marks and the
    /// clock. It may block on the lock.
    ///
    /// Faults, the first that applies: `Disagree` if the segment has accepted another number of the tap's turns than
    /// the seat has receipts; `NoMemory`.
    pub fn glance(
        &self,
        rt: &impl Wait,
        alloc: Global,
        seat: &TapSeat<L>,
    ) -> Result<Glance, GlanceFault>
        ensures tap { IfOk result (λ g. g.tap ≡ seat.now.tap) }
        ensures turn { IfOk result CanBeDecided }
    {
        self.locked(rt).glance(alloc, seat)
    }

    /// The tap takes a decided turn, if the decision was computed from the present state of the tap. The seat gets a
    /// receipt, whose reply has the decision's clock and octets. It may block on the lock. A refused turn changes
    /// nothing.
    ///
    /// Faults, the first that applies: `WrongTap` if the decision is for another tap; `Disagree` if the segment has
    /// accepted another number of the tap's turns than the seat has receipts; `Stale` if the tap's station, its unread
    /// marks or the clock are not the decision's, with the number of turns that the seat had accepted; `World` with the
    /// world's fault; `HistoryFull`; `World(NoMemory)`.
    #[inline(always)]
    pub fn commit(
        &self,
        rt: &impl Wait,
        alloc: Global,
        seat: &mut TapSeat<L>,
        decision: Decision,
    ) -> Result<Receipt, CommitFault>
        ensures told { IfOk result
            (λ r. seat.new ≡ record seat.old { receipts = seat.old.receipts ++ r ∷ [] }) }
        ensures reply { IfOk result (λ r. Answers decision r.reply) }
        ensures same { OnErr result (seat.new ≡ seat.old) }
        ensures wrong { (result ≡ Err WrongTap) ↔ (decision.tap ≢ seat.old.tap) }
        ensures turns { IfErr result (CountsTurns (length seat.old.receipts)) }
    {
        let mut octets = None;
        self.commit_decided(rt, alloc, seat, decision.lend(&mut octets))?;
        Ok(last_told(&seat.receipts))
    }

    /// The tap takes a turn that was decided with a borrowed buffer, as in [`commit`](SharedSegment::commit), with the
    /// same receipt and the same faults in order. Only the seat gets the receipt. It may block on the lock. A refused
    /// turn changes nothing.
    #[inline(always)]
    pub fn commit_decided(
        &self,
        rt: &impl Wait,
        alloc: Global,
        seat: &mut TapSeat<L>,
        decided: Decided<'_>,
    ) -> Result<(), CommitFault>
        ensures told { OnOk result
            (IsTold seat.old.receipts seat.new.receipts (Answers decided.entry)) }
        ensures tap { seat.new.tap ≡ seat.old.tap }
        ensures same { OnErr result (seat.new ≡ seat.old) }
        ensures wrong { (result ≡ Err WrongTap) ↔ (decided.entry.tap ≢ seat.old.tap) }
        ensures turns { IfErr result (CountsTurns (length seat.old.receipts)) }
    {
        self.locked(rt).commit(alloc, seat, decided)
    }

    /// The tap takes its turn, decided and taken while the lock is held: the same as a glance, a decision and a commit with
    /// nothing between them, in less time, and in place: the station is not copied. The seat gets a receipt. `out` is a buffer
    /// for octets, which the call may overwrite. It may block on the lock. A refused turn changes nothing but the buffer.
    ///
    /// Faults, the first that applies: `Disagree` if the segment has accepted another number of the tap's turns than the
    /// seat has receipts; `World` with the world's fault; `HistoryFull`. `World(NoMemory)` may come before the last two.
    #[inline(always)]
    pub fn turn(
        &self,
        rt: &impl Wait,
        alloc: Global,
        seat: &mut TapSeat<L>,
        out: &mut SendBuffer,
    ) -> Result<(), CommitFault>
        ensures told { OnOk result (IsTold seat.old.receipts seat.new.receipts (λ _. Unit {0})) }
        ensures tap { seat.new.tap ≡ seat.old.tap }
        ensures same { OnErr result (seat.new ≡ seat.old) }
        ensures present { IfErr result IsOfPresent }
    {
        self.locked(rt).turn(alloc, seat, out)
    }

    /// Applies an event that is no turn. The conductor's seat gets a receipt without octets. It may block on the lock.
    /// A refused event changes nothing.
    ///
    /// Faults, the first that applies: `WrongTap` for a turn; `Disagree` if the segment has accepted another number of
    /// such events than the seat has receipts; `World` with the world's fault; `HistoryFull`; `World(NoMemory)`.
    #[inline(always)]
    pub fn drive(
        &self,
        rt: &impl Wait,
        alloc: Global,
        seat: &mut ConductorSeat<L>,
        event: Event,
    ) -> Result<Receipt, CommitFault>
        ensures told { IfOk result
            (λ r. seat.new ≡ record seat.old { receipts = seat.old.receipts ++ r ∷ [] }) }
        ensures silent { IfOk result (λ r. IsSilent r.reply) }
        ensures same { OnErr result (seat.new ≡ seat.old) }
        ensures wrong { (result ≡ Err WrongTap) ↔ IsTrue (is_turn (event_of event)) }
    {
        self.locked(rt).drive(alloc, seat, event)?;
        Ok(last_told(&seat.receipts))
    }

    /// The outlook after all events accepted so far, including all of the conductor's own: the clock, when each tap is
    /// due, and when something else changes. The segment and the seat keep it until the segment is closed. It may block
    /// on the lock.
    ///
    /// Faults, the first that applies: `Disagree` if the segment has accepted another number of the conductor's events
    /// than the seat has receipts; `NoMemory`. A refused call changes nothing.
    pub fn outlook(
        &self,
        rt: &impl Wait,
        alloc: Global,
        seat: &mut ConductorSeat<L>,
    ) -> Result<Outlook, GlanceFault>
        ensures seen { IfOk result
            (λ o. seat.new ≡ record seat.old { outlooks = seat.old.outlooks ++ o ∷ [] }) }
        ensures same { OnErr result (seat.new ≡ seat.old) }
    {
        self.locked(rt).outlook(alloc, seat)
    }

    /// Closes the segment. The receipts of each seat are then the indices of its events in the history, with the
    /// replies there, and each outlook is that of the world after the events before it. The trace is that of a world
    /// with one token, if the events of the history break no premise; and with no master in silence, as it hears the
    /// bus, for longer than its time-out and the lag, if none of them loses a telegram or lets a turn be late; and of a
    /// bus that is never dead, if they break no premise. It does not block, and allocates nothing.
    ///
    /// Faults, the first that applies, with all that was passed in: `MissingSeat` if there are more or fewer tap seats
    /// than taps; `Disagree` if receipts or outlooks of the seats differ from those of the history, or the history
    /// began with another world.
    pub fn close(
        self,
        conductor: ConductorSeat<L>,
        seats: Vec<TapSeat<L>>,
    ) -> Result<Report, CloseRefused<L>>
        ensures report { IfOk result IsReport }
        ensures origin { IfOk result (λ r. r.origin ≡ self.origin) }
        ensures conductor { IfOk result (λ r. told is_driven r.history ≡ conductor.receipts) }
        ensures outlooks { IfOk result (λ r. r.outlooks ≡ conductor.outlooks) }
        ensures seats { IfOk result (λ r. All (Agrees r.history) seats.items) }
        ensures taps { IfOk result (λ r. length r.turns ≡ length seats.items) }
        ensures all { IfOk result
            (λ r. length r.history ≡ length conductor.receipts + sum (map accepted seats.items)) }
        ensures full { OnOk result (length seats.items + 1 ≡ L.parts) }
        ensures missing { IfErr result (λ e. IsMissing e.fault (length seats.items + 1 ≡ L.parts)) }
        ensures back { IfErr result
            (λ e. (e.conductor ≡ conductor) × (e.seats ≡ seats) × (e.segment ≡ self)) }
    {
        let SharedSegment { state, origin } = self;
        let locked = state.into_inner();
        match locked.closing_fault(&origin, &conductor, &seats) {
            None => Ok(locked.into_report(conductor, seats)),
            Some(fault) => Err(refused(fault, locked, origin, conductor, seats)),
        }
    }

    /// Closes the segment as [`close`](SharedSegment::close) does, and returns what `look` finds in the draft of the
    /// report. `look` is called once, unless a seat is missing. For thousands of events and a crew of more than one, up
    /// to three threads work concurrently: this one, and others that end before the call returns. It takes no lock, and
    /// allocates memory only for threads. If no thread can be spawned, this thread does all.
    ///
    /// Faults, the first that applies, with all that was passed in: `MissingSeat` and `Disagree`, as for `close`.
    pub fn close_beside<R: Threads + Sync, T: Send + Drop, F: FnOnce(Draft<'_>) -> T + Send>(
        self,
        rt: &R,
        crew: usize,
        conductor: ConductorSeat<L>,
        seats: Vec<TapSeat<L>>,
        look: F,
    ) -> Result<Closed<T>, CloseRefused<L>>
        requires look { (draft : DraftView) → F.pre look draft }
        ensures closed { IfOk result (λ c. IsClosed self.origin conductor seats.items c.report) }
        ensures found { IfOk result (λ c. F.post look (draft_of c.report) c.found) }
        ensures full { OnOk result (length seats.items + 1 ≡ L.parts) }
        ensures missing { IfErr result (λ e. IsMissing e.fault (length seats.items + 1 ≡ L.parts)) }
        ensures back { IfErr result
            (λ e. (e.conductor ≡ conductor) × (e.seats ≡ seats) × (e.segment ≡ self)) }
    {
        let SharedSegment { state, origin } = self;
        let locked = state.into_inner();
        match locked.looked_at(rt, crew, &origin, &conductor, &seats, look) {
            Ok(found) => Ok(Closed {
                report: locked.into_report(conductor, seats),
                found,
            }),
            Err(fault) => Err(refused(fault, locked, origin, conductor, seats)),
        }
    }

    /// Takes the lock.
    #[inline(always)]
    fn locked(&self, rt: &impl Wait) -> MutexGuard<'_, Locked<L>> {
        match self.state.try_lock() {
            Some(guard) => guard,
            None => self.locked_at_last(rt),
        }
    }

    /// Slow path of `locked`: the lock is held. It is tried again for a while before the thread sleeps.
    #[inline(never)]
    fn locked_at_last(&self, rt: &impl Wait) -> MutexGuard<'_, Locked<L>> {
        for _ in 0..LOOKS {
            if let Some(guard) = self.state.try_lock() {
                return guard;
            }
            spin_loop();
        }
        self.state.lock(rt)
    }
}

/// The last receipt of a seat. The caller ensures that there is one.
#[inline(always)]
fn last_told(receipts: &Vec<KeptReceipt>) -> Receipt
    requires { 0 < length receipts.now.items }
    ensures { (before : List specs.Receipt) (r : specs.Receipt)
        → receipts.entry.now.items ≡ before ++ r ∷ [] → result ≡ r }
{
    receipts[receipts.len() - 1].told()
}

/// A segment that is not closed, with all that was passed in.
fn refused<L: Ledger>(
    fault: CloseFault,
    locked: Locked<L>,
    origin: Origin,
    conductor: ConductorSeat<L>,
    seats: Vec<TapSeat<L>>,
) -> CloseRefused<L>
    ensures fault { result.fault ≡ fault }
    ensures back { (result.conductor ≡ conductor) × (result.seats ≡ seats)
        × (result.segment.origin ≡ origin) }
{
    let segment = SharedSegment {
        state: Mutex::new(locked),
        origin,
    };
    CloseRefused {
        fault,
        segment,
        conductor,
        seats,
    }
}
