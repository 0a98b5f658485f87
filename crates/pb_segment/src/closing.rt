//! Closes a segment: compares what the seats keep with the history.

ghost use Rattle.std.specs.Prelude.{◌≡◌, ◌+◌, ◌<◌, ◌↔◌, ℕ, All, IsTrue, length, map, slice_index, sum};
ghost use Rattle.pb_segment.specs.Blocks.{happened_in};
ghost use Rattle.pb_segment.specs.Histories.{StandsFrom, is_of, is_turn_of, told};
ghost use Rattle.pb_segment.specs.Seats.{Agrees, accepted};

use crate::blocks::Blocks;
use crate::drafts::Draft;
use crate::faults::CloseFault;
use crate::locked::Locked;
use crate::origins::Origin;
use crate::outlooks::Outlook;
use crate::receipts::{KeptReceipt, Owner, is_of};
use crate::seats::{ConductorSeat, TapSeat};
use std::sync::ledger::{Book, Ledger};
use std::thread::{Threads, join};

/// Below this many events, comparing in one thread is cheaper than spawning threads.
const MANY: usize = 4096;

/// The results of comparing the outlooks and of reading the draft.
#[derive(Drop)]
struct Seen<T> {
    /// Whether the conductor's outlooks equal those that the segment keeps.
    is_shown: bool,
    /// What the caller found in the draft.
    found: T,
}

impl<L: Ledger> Locked<L> {
    ghost use Rattle.std.specs.Prelude.{◌≡◌, ◌↔◌, IsTrue, MatchOption, IfOk, IfErr, OnOk, length};
    ghost use Rattle.pb_segment.specs.Closing.{AgreesWith, CanClose, HasTold, RefusesToClose};
    ghost use Rattle.pb_segment.specs.Drafts.{draft_in};

    /// What the caller finds in the draft of the history if it can be closed with these seats, else why it cannot. For
    /// a long history and a crew of three, three threads work concurrently: one reads the draft, one compares the
    /// outlooks, and one compares the receipts.
    pub(crate) fn looked_at<R: Threads + Sync, T: Send + Drop, F: FnOnce(Draft<'_>) -> T + Send>(
        &self,
        rt: &R,
        crew: usize,
        origin: &Origin,
        conductor: &ConductorSeat<L>,
        seats: &Vec<TapSeat<L>>,
        look: F,
    ) -> Result<T, CloseFault>
        requires { F.pre look (draft_in self.now) }
        ensures can { OnOk result
            (CanClose self.entry.now origin.entry.now conductor.entry.now seats.entry.now.items) }
        ensures found { IfOk result (F.post look (draft_in self.entry.now)) }
        ensures fault { IfErr result
            (RefusesToClose self.entry.now origin.entry.now conductor.entry.now seats.entry.now.items) }
    {
        if !self.has_all(seats) {
            return Err(CloseFault::MissingSeat);
        }
        let hands = if self.history.len() < MANY { 1 } else { crew };
        let draft = Draft::of(&self.history, &self.outlooks);
        let (kept, shown) = (&self.outlooks, &conductor.outlooks);
        let (seen, has_told) = both(
            rt,
            hands > 1,
            move || -> Seen<T>
                requires { F.pre look draft }
                ensures shown { IsTrue result.is_shown ↔ (kept.entry.now.items ≡ shown.entry.now.items) }
                ensures found { F.post look draft.entry result.found }
            { see(rt, hands > 2, kept, shown, draft, look) },
            || -> bool
                ensures { IsTrue result
                    ↔ HasTold self.entry.now origin.entry.now conductor.entry.now seats.entry.now.items }
            { self.has_told(origin, conductor, seats) },
        );
        if !seen.is_shown || !has_told {
            return Err(CloseFault::Disagree);
        }
        Ok(seen.found)
    }

    /// Why it cannot be closed with these seats and the origin that was kept outside the lock; `None` if it can.
    /// Receipts and outlooks are each read once, and nothing is allocated.
    pub(crate) fn closing_fault(
        &self,
        origin: &Origin,
        conductor: &ConductorSeat<L>,
        seats: &Vec<TapSeat<L>>,
    ) -> Option<CloseFault>
        ensures { MatchOption result (CanClose self.now origin.now conductor.now seats.now.items)
            (RefusesToClose self.now origin.now conductor.now seats.now.items) }
    {
        if !self.has_all(seats) {
            return Some(CloseFault::MissingSeat);
        }
        if !self.agrees_with(origin, conductor, seats) {
            return Some(CloseFault::Disagree);
        }
        None
    }

    /// Whether there are as many tap seats as taps.
    fn has_all(&self, seats: &Vec<TapSeat<L>>) -> bool
        ensures { IsTrue result ↔ (length seats.now.items ≡ length self.now.turns) }
    {
        seats.len() == self.turns.len()
    }

    /// Whether it began with the new world of `origin`, and has exactly what the seats keep as receipts and outlooks.
    fn agrees_with(
        &self,
        origin: &Origin,
        conductor: &ConductorSeat<L>,
        seats: &Vec<TapSeat<L>>,
    ) -> bool
        ensures { IsTrue result ↔ AgreesWith self.now origin.now conductor.now seats.now.items }
    {
        if !are_same(&self.outlooks, &conductor.outlooks) {
            return false;
        }
        self.has_told(origin, conductor, seats)
    }

    /// Whether it began with the new world of `origin`, and has exactly what the seats keep as receipts.
    fn has_told(
        &self,
        origin: &Origin,
        conductor: &ConductorSeat<L>,
        seats: &Vec<TapSeat<L>>,
    ) -> bool
        ensures { IsTrue result ↔ HasTold self.now origin.now conductor.now seats.now.items }
    {
        if !self.origin.is_same(origin) {
            return false;
        }
        if !agree(
            &self.history,
            Owner::Conductor,
            self.drives,
            &conductor.receipts,
        ) {
            return false;
        }
        all_agree(&self.history, &self.turns, seats)
    }
}

/// Compares the outlooks that the segment keeps with those that the conductor keeps, and reads the draft.
fn see<R: Threads, T: Send + Drop, F: FnOnce(Draft<'_>) -> T + Send>(
    rt: &R,
    apart: bool,
    kept: &Vec<Outlook>,
    shown: &Vec<Outlook>,
    draft: Draft<'_>,
    look: F,
) -> Seen<T>
    requires { F.pre look draft }
    ensures shown { IsTrue result.is_shown ↔ (kept.entry.now.items ≡ shown.entry.now.items) }
    ensures found { F.post look draft.entry result.found }
{
    let (found, is_shown) = both(
        rt,
        apart,
        move || -> T
            requires { F.pre look draft }
            ensures { F.post look draft.entry result }
        { look(draft) },
        || -> bool
            ensures { IsTrue result ↔ (kept.entry.now.items ≡ shown.entry.now.items) }
        { are_same(kept, shown) },
    );
    Seen { is_shown, found }
}

/// The results of two calls, in two threads if `apart`.
fn both<R: Threads, F: FnOnce() -> A + Send, G: FnOnce() -> B, A: Send, B>(
    rt: &R,
    apart: bool,
    one: F,
    other: G,
) -> (A, B)
    requires { F.pre one × G.pre other }
    ensures one { F.post one result.0 }
    ensures other { G.post other result.1 }
{
    if apart {
        return join(rt, one, other);
    }
    let first = one();
    let second = other();
    (first, second)
}

/// Whether receipts are those of an owner's events in a history. `count` is the number of these events.
fn agree(history: &Blocks, owner: Owner, count: usize, receipts: &Vec<KeptReceipt>) -> bool
    requires { count ≡ length (told (is_of owner) (happened_in history.now)) }
    ensures { IsTrue result ↔ (told (is_of owner) (happened_in history.now) ≡ receipts.now.items) }
{
    if receipts.len() != count {
        return false;
    }
    let events = history.len();
    let mut from: usize = 0;
    for next in 0..receipts.len() {
        let receipt = &receipts[next];
        if receipt.place >= events || !stands(history, owner, from, receipt) {
            return false;
        }
        from = receipt.place + 1;
    }
    true
}

/// Whether a receipt is that of an owner's event, at index `from` or later.
fn stands(history: &Blocks, owner: Owner, from: usize, receipt: &KeptReceipt) -> bool
    ensures { IsTrue result ↔ StandsFrom (is_of owner) (happened_in history.now) from receipt.now }
{
    let Some(happened) = history.get(receipt.place) else {
        return false;
    };
    from <= receipt.place && is_of(owner, &happened.event) && receipt.reply.is_same(&happened.reply)
}

/// Whether the receipts of each tap seat are those of the tap's turns, given the number of turns of each tap.
fn all_agree<L: Ledger>(history: &Blocks, turns: &Vec<usize>, seats: &Vec<TapSeat<L>>) -> bool
    requires parts { L.parts ≡ length turns.now.items + 1 }
    requires counts { (tap : ℕ) → tap < length turns.now.items
        → slice_index turns.now.items tap ≡ length (told (is_turn_of tap) (happened_in history.now)) }
    ensures { IsTrue result ↔ All (Agrees (happened_in history.now)) seats.now.items }
{
    for place in 0..seats.len() {
        if !seat_agrees(history, turns, &seats[place]) {
            return false;
        }
    }
    true
}

fn seat_agrees<L: Ledger>(history: &Blocks, turns: &Vec<usize>, seat: &TapSeat<L>) -> bool
    requires parts { L.parts ≡ length turns.now.items + 1 }
    requires counts { (tap : ℕ) → tap < length turns.now.items
        → slice_index turns.now.items tap ≡ length (told (is_turn_of tap) (happened_in history.now)) }
    ensures { IsTrue result ↔ Agrees (happened_in history.now) seat.now }
{
    agree(
        history,
        Owner::Tap(seat.tap),
        turns[seat.tap],
        &seat.receipts,
    )
}

fn are_same(one: &Vec<Outlook>, other: &Vec<Outlook>) -> bool
    ensures { IsTrue result ↔ (one.now.items ≡ other.now.items) }
{
    if one.len() != other.len() {
        return false;
    }
    for place in 0..one.len() {
        if !one[place].is_same(&other[place]) {
            return false;
        }
    }
    true
}

/// All seats together had all events accepted, by the ledger.
pub(crate) fn audit<L: Ledger>(
    book: &mut Book<L>,
    conductor: ConductorSeat<L>,
    seats: Vec<TapSeat<L>>,
)
    requires { length seats.items + 1 ≡ L.parts }
    ensures { book.old.total ≡ length conductor.receipts + sum (map accepted seats.items) }
{
    let ConductorSeat {
        receipts: _,
        outlooks: _,
        share: mut all,
    } = conductor;
    for seat in seats {
        let TapSeat {
            tap: _,
            receipts: _,
            share,
        } = seat;
        all.merge(share);
    }
    book.audit(&mut all);
}
