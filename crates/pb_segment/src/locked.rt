//! The state under the lock: a world, and the history that led to it.

ghost use Rattle.std.specs.Prelude.{◌≡◌, ◌+◌, ◌<◌, ◌++◌, ◌∷◌, [], ℕ, length, slice_index, vec_len, vec_capacity};
ghost use Rattle.pb_taps.specs.Events.{event_of};
ghost use Rattle.pb_segment.specs.Blocks.{HasRoom, happened_in};
ghost use Rattle.pb_segment.specs.Counts.{counted, counted_drives};

use crate::blocks::Blocks;
use crate::faults::{CommitFault, GlanceFault};
use crate::histories::Happened;
use crate::known::Known;
use crate::notes::{Note, make_room, note_event, note_turn, refused, turn_refused};
use crate::origins::Origin;
use crate::outlooks::Outlook;
use crate::receipts::{KeptReceipt, is_turn};
use crate::seats::{ConductorSeat, TapSeat};
use crate::turns::take_turn;
use pb_station::{Decided, Glance, SendBuffer, decide_in};
use pb_world::{Event, World, WorldFault};
use std::alloc::Global;
use std::marker::Model;
use std::sync::ledger::{Book, Ledger, Share};

/// A world, and the events that led to it from the new one.
#[derive(Drop)]
pub(crate) struct Locked<L: Ledger> {
    pub(crate) world: World,
    /// The definition of the new world.
    pub(crate) origin: Origin,
    /// The accepted events, in order.
    pub(crate) history: Blocks,
    /// The events and replies that the history shares.
    pub(crate) known: Known,
    /// How many turns of each tap were accepted.
    pub(crate) turns: Vec<usize>,
    /// How many other events were accepted.
    pub(crate) drives: usize,
    pub(crate) outlooks: Vec<Outlook>,
    /// The most events of the history.
    pub(crate) limit: usize,
    pub(crate) book: Book<L>,
}

impl<L: Ledger> Model for Locked<L> {
    ghost use Rattle.std.specs.Prelude.{◌≡◌, ◌+◌, length};
    ghost use Rattle.pb_segment.specs.Blocks.{happened_in};
    ghost use Rattle.pb_segment.specs.Locked.{LockedView, IsKept, view_of};

    ghost Value = { LockedView };

    ghost view = { λ l. view_of l.world l.origin (happened_in l.history) l.turns.items l.drives
        l.outlooks.items l.limit };

    ghost invariant = { λ l. IsKept (view_of l.world l.origin (happened_in l.history) l.turns.items l.drives
        l.outlooks.items l.limit)
        × (l.book.total ≡ length (happened_in l.history)) × (L.parts ≡ length l.turns.items + 1) };
}

impl<L: Ledger> Locked<L> {
    ghost use Rattle.std.specs.Prelude.{◌≡◌, ◌++◌, ◌∷◌, [], false, IfOk, IfErr, OnOk, OnErr, length};
    ghost use Rattle.law_model.specs.World.{Turn};
    ghost use Rattle.pb_taps.specs.Events.{event_of};
    ghost use Rattle.pb_world.specs.Glances.{CanBeDecided, Fits, IsGlance};
    ghost use Rattle.pb_segment.specs.Histories.{is_turn};
    ghost use Rattle.pb_segment.specs.Locked.{AppendsTo, IsAllowed, IsPresent, KnowsDrives, KnowsTurns};
    ghost use Rattle.pb_segment.specs.Locked.{RefusesDecision, RefusesEvent, RefusesToKeep, RefusesToShow};
    ghost use Rattle.pb_segment.specs.Locked.{RefusesToTake, RefusesTurn};
    ghost use Rattle.pb_segment.specs.Outlooks.{ShowsWorld};
    ghost use Rattle.pb_segment.specs.Seats.{Answers, CountsTurns, IsSilent, IsTold};

    /// A glance at the tap of a seat.
    pub(crate) fn glance(&mut self, alloc: Global, seat: &TapSeat<L>) -> Result<Glance, GlanceFault>
        ensures shows { IfOk result (IsGlance self.old.world seat.now.tap) }
        ensures turn { IfOk result CanBeDecided }
        ensures known { OnOk result (KnowsTurns self.old seat.now) }
        ensures err { IfErr result (RefusesToShow (KnowsTurns self.old seat.now)) }
        ensures same { self.new ≡ self.old }
    {
        if self.turns[seat.tap] != seat.receipts.len() {
            return Err(GlanceFault::Disagree);
        }
        let glance = self.world.glance_in_room(alloc, seat.tap)?;
        Ok(glance)
    }

    /// Takes a decided turn, if the decision was computed from the present state.
    #[inline(always)]
    pub(crate) fn commit(
        &mut self,
        alloc: Global,
        seat: &mut TapSeat<L>,
        decided: Decided<'_>,
    ) -> Result<(), CommitFault>
        ensures ok { OnOk result
            (AppendsTo self.old self.new (Turn seat.old.tap) seat.old.receipts seat.new.receipts) }
        ensures present { OnOk result (IsPresent self.old seat.old decided.entry) }
        ensures told { OnOk result (seat.new ≡ record seat.old { receipts = seat.new.receipts }) }
        ensures reply { OnOk result
            (IsTold seat.old.receipts seat.new.receipts (Answers decided.entry)) }
        ensures err { IfErr result (RefusesDecision self.old seat.old decided.entry) }
        ensures turns { IfErr result (CountsTurns (length seat.old.receipts)) }
        ensures same { OnErr result ((self.new ≡ self.old) × (seat.new ≡ seat.old)) }
    {
        if decided.tap != seat.tap {
            return Err(CommitFault::WrongTap);
        }
        let turns = self.turns[seat.tap];
        if turns != seat.receipts.len() {
            return Err(CommitFault::Disagree);
        }
        if !self.world.fits_decided(&decided) {
            let now = self.world.now().get();
            return Err(CommitFault::Stale { turns, now });
        }
        self.keep_turn(alloc, decided, &mut seat.receipts, &mut seat.share)
    }

    /// Takes the turn of a seat's tap in place. `out` is a buffer for what the tap would send, where there is no room for
    /// the turn.
    #[inline(always)]
    #[tactic(auto, using(crate::proofs::Noting::refused_turn))]
    pub(crate) fn turn(
        &mut self,
        alloc: Global,
        seat: &mut TapSeat<L>,
        out: &mut SendBuffer,
    ) -> Result<(), CommitFault>
        ensures ok { OnOk result
            (AppendsTo self.old self.new (Turn seat.old.tap) seat.old.receipts seat.new.receipts) }
        ensures known { OnOk result (KnowsTurns self.old seat.old) }
        ensures told { OnOk result (seat.new ≡ record seat.old { receipts = seat.new.receipts }) }
        ensures err { IfErr result (RefusesTurn self.old seat.old) }
        ensures same { OnErr result ((self.new ≡ self.old) × (seat.new ≡ seat.old)) }
    {
        if self.turns[seat.tap] != seat.receipts.len() {
            return Err(CommitFault::Disagree);
        }
        if self.history.len() >= self.limit {
            return Err(self.full_for_turn(alloc, seat.tap, out));
        }
        self.take_turn(alloc, seat.tap, &mut seat.receipts, &mut seat.share)
    }

    /// Applies an event that is no turn.
    #[inline(always)]
    pub(crate) fn drive(
        &mut self,
        alloc: Global,
        seat: &mut ConductorSeat<L>,
        event: Event,
    ) -> Result<(), CommitFault>
        ensures ok { OnOk result
            (AppendsTo self.old self.new (event_of event) seat.old.receipts seat.new.receipts) }
        ensures allowed { OnOk result (IsAllowed self.old seat.old (event_of event)) }
        ensures told { OnOk result (seat.new ≡ record seat.old { receipts = seat.new.receipts }) }
        ensures reply { OnOk result (IsTold seat.old.receipts seat.new.receipts IsSilent) }
        ensures err { IfErr result (RefusesEvent self.old seat.old (event_of event)) }
        ensures same { OnErr result ((self.new ≡ self.old) × (seat.new ≡ seat.old)) }
    {
        if is_turn(&event) {
            return Err(CommitFault::WrongTap);
        }
        if self.drives != seat.receipts.len() {
            return Err(CommitFault::Disagree);
        }
        self.keep_event(alloc, event, &mut seat.receipts, &mut seat.share)
    }

    /// An outlook, which the segment and the conductor's seat both keep.
    pub(crate) fn outlook(
        &mut self,
        alloc: Global,
        seat: &mut ConductorSeat<L>,
    ) -> Result<Outlook, GlanceFault>
        ensures shows { IfOk result (ShowsWorld self.old.world) }
        ensures place { IfOk result (λ o. o.place ≡ length self.old.history) }
        ensures known { OnOk result (KnowsDrives self.old seat.old) }
        ensures kept { IfOk result
            (λ o. self.new ≡ record self.old { outlooks = self.old.outlooks ++ o ∷ [] }) }
        ensures seen { IfOk result
            (λ o. seat.new ≡ record seat.old { outlooks = seat.old.outlooks ++ o ∷ [] }) }
        ensures err { IfErr result (RefusesToShow (KnowsDrives self.old seat.old)) }
        ensures same { OnErr result ((self.new ≡ self.old) × (seat.new ≡ seat.old)) }
    {
        if self.drives != seat.receipts.len() {
            return Err(GlanceFault::Disagree);
        }
        self.outlooks.reserve(1)?;
        seat.outlooks.reserve(1)?;
        let place = self.history.len();
        let shown = Outlook::of(alloc, &self.world, self.turns.len(), place)?;
        let kept = shown.copy()?;
        let seen = shown.copy()?;
        self.outlooks.push_reserved(kept);
        seat.outlooks.push_reserved(seen);
        Ok(shown)
    }

    /// Takes a decided turn that fits, and keeps event and receipt. All memory is reserved before anything changes.
    #[inline(always)]
    fn keep_turn(
        &mut self,
        alloc: Global,
        decided: Decided<'_>,
        receipts: &mut Vec<KeptReceipt>,
        share: &mut Share<L>,
    ) -> Result<(), CommitFault>
        requires fits { Fits self.old.world decided }
        requires part { share.old.parts ≡ 1 }
        ensures ok { OnOk result
            (AppendsTo self.old self.new (Turn decided.entry.tap) receipts.old.items receipts.new.items) }
        ensures counted { OnOk result (share.new.amount ≡ share.old.amount + 1) }
        ensures part { share.new.parts ≡ 1 }
        ensures err { IfErr result (RefusesToKeep self.old (Turn decided.entry.tap)) }
        ensures same { OnErr result ((self.new ≡ self.old)
            × (receipts.new.items ≡ receipts.old.items) × (share.new.amount ≡ share.old.amount)) }
    {
        let note = match note_turn(
            alloc,
            &self.world,
            &decided,
            &mut self.known,
            &mut self.history,
            receipts,
            self.limit,
        ) {
            Ok(note) => note,
            Err(fault) => return Err(turn_refused(&self.world, &decided, fault)),
        };
        self.world.take_decided(alloc, decided)?;
        count(&mut self.turns, &mut self.drives, &note.happened);
        keep(note, &mut self.history, &mut self.book, receipts, share);
        Ok(())
    }

    /// Why a turn is refused by a full history: the world's fault comes first. Kept out of line: it is rare, and decides
    /// the turn to find out whether anything would be sent.
    #[inline(never)]
    #[tactic(auto, using(crate::proofs::Noting::full_refused))]
    fn full_for_turn(&mut self, alloc: Global, tap: usize, out: &mut SendBuffer) -> CommitFault
        requires there { tap < length self.old.world.taps }
        requires full { length self.old.history ≡ self.old.limit }
        ensures fault { RefusesToTake self.old (Turn tap) result }
        ensures same { self.new ≡ self.old }
    {
        let Ok(glance) = self.world.glance_in_room(alloc, tap) else {
            return CommitFault::World(WorldFault::NoMemory);
        };
        let Ok(decided) = decide_in(alloc, glance, out) else {
            return CommitFault::World(WorldFault::NoMemory);
        };
        turn_refused(&self.world, &decided, CommitFault::HistoryFull)
    }

    /// Takes a tap's turn in place, and keeps event and receipt. All memory is reserved before anything changes.
    #[inline(always)]
    fn take_turn(
        &mut self,
        alloc: Global,
        tap: usize,
        receipts: &mut Vec<KeptReceipt>,
        share: &mut Share<L>,
    ) -> Result<(), CommitFault>
        requires inside { length self.old.history < self.old.limit }
        requires part { share.old.parts ≡ 1 }
        ensures ok { OnOk result
            (AppendsTo self.old self.new (Turn tap) receipts.old.items receipts.new.items) }
        ensures counted { OnOk result (share.new.amount ≡ share.old.amount + 1) }
        ensures part { share.new.parts ≡ 1 }
        ensures err { IfErr result (RefusesToTake self.old (Turn tap)) }
        ensures same { OnErr result ((self.new ≡ self.old)
            × (receipts.new.items ≡ receipts.old.items) × (share.new.amount ≡ share.old.amount)) }
    {
        make_room(alloc, &mut self.history, receipts, self.limit)?;
        let before = self.history.len();
        let note = take_turn(alloc, &mut self.world, tap, &mut self.known, before)?;
        count(&mut self.turns, &mut self.drives, &note.happened);
        keep(note, &mut self.history, &mut self.book, receipts, share);
        Ok(())
    }

    /// Applies an event that is no turn, and keeps event and receipt. All memory is reserved before anything changes.
    #[inline(always)]
    fn keep_event(
        &mut self,
        alloc: Global,
        event: Event,
        receipts: &mut Vec<KeptReceipt>,
        share: &mut Share<L>,
    ) -> Result<(), CommitFault>
        requires driven { is_turn (event_of event) ≡ false }
        requires part { share.old.parts ≡ 1 }
        ensures ok { OnOk result
            (AppendsTo self.old self.new (event_of event) receipts.old.items receipts.new.items) }
        ensures counted { OnOk result (share.new.amount ≡ share.old.amount + 1) }
        ensures part { share.new.parts ≡ 1 }
        ensures err { IfErr result (RefusesToKeep self.old (event_of event)) }
        ensures same { OnErr result ((self.new ≡ self.old)
            × (receipts.new.items ≡ receipts.old.items) × (share.new.amount ≡ share.old.amount)) }
    {
        let note = match note_event(
            alloc,
            &self.world,
            &event,
            &mut self.known,
            &mut self.history,
            receipts,
            self.limit,
        ) {
            Ok(note) => note,
            Err(fault) => return Err(refused(&self.world, &event, false, fault)),
        };
        self.world.apply(alloc, event)?;
        count(&mut self.turns, &mut self.drives, &note.happened);
        keep(note, &mut self.history, &mut self.book, receipts, share);
        Ok(())
    }
}

/// Keeps an applied event in the history, and its receipt at the seat, within the reserved memory.
#[inline(always)]
fn keep<L: Ledger>(
    note: Note,
    history: &mut Blocks,
    book: &mut Book<L>,
    receipts: &mut Vec<KeptReceipt>,
    share: &mut Share<L>,
)
    requires room { HasRoom history.old }
    requires room_receipts { vec_len receipts.old < vec_capacity receipts.old }
    requires part { 0 < share.old.parts }
    ensures happened { happened_in history.new ≡ happened_in history.old ++ note.happened ∷ [] }
    ensures booked { book.new.total ≡ book.old.total + 1 }
    ensures receipts { receipts.new.items ≡ receipts.old.items ++ note.kept ∷ [] }
    ensures counted { share.new.amount ≡ share.old.amount + 1 }
    ensures part { share.new.parts ≡ share.old.parts }
{
    let Note { happened, kept } = note;
    history.push_reserved(happened);
    book.add(share, 1);
    receipts.push_reserved(kept);
}

/// Counts an event that has happened.
fn count(turns: &mut Vec<usize>, drives: &mut usize, happened: &Happened)
    requires turns { (tap : ℕ) → tap < length turns.old.items → slice_index turns.old.items tap < 1000000 }
    requires drives { drives.old < 1000000 }
    ensures turns { turns.new.items ≡ counted turns.old.items happened.now.event }
    ensures drives { drives.new ≡ counted_drives drives.old happened.now.event }
{
    count_event(turns, drives, &happened.event);
}

/// Counts an accepted event.
fn count_event(turns: &mut Vec<usize>, drives: &mut usize, event: &Event)
    requires turns { (tap : ℕ) → tap < length turns.old.items → slice_index turns.old.items tap < 1000000 }
    requires drives { drives.old < 1000000 }
    ensures turns { turns.new.items ≡ counted turns.old.items (event_of event.now) }
    ensures drives { drives.new ≡ counted_drives drives.old (event_of event.now) }
{
    match event {
        Event::Turn(tap) => {
            if *tap < turns.len() {
                turns[*tap] += 1;
            }
        }
        _ => *drives += 1,
    }
}
