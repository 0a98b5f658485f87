//! How turns are offered, and how the conductor and the helpers wait for each other.

ghost use Rattle.std.specs.Prelude.{◌<◌};

use pb_segment::TapSeat;
use std::alloc::{AllocError, Global};
use std::hint::spin_loop;
use std::sync::atomic::{AtomicBool, AtomicU64, AtomicUsize, Ordering};
use std::sync::ledger::Ledger;
use std::sync::{Mutex, Wait};
use std::thread::Parker;
use std::time::Duration;

/// How many times the conductor looks whether it may continue before it sleeps: a few microseconds, less than a wake-up
/// takes.
const LOOKS: u32 = 1000;

/// How long the watching helper sleeps before it looks again, in microseconds.
const WATCH: u64 = 100;

/// If at least this many turns were taken in that time, the active workers are faster than waking another one.
const FEW: u64 = 8;

/// How many taps are packed in a word, in eight bits each: a store costs as much as dozens of other instructions.
const NAMED: usize = 8;

/// The most offers of a run: a history has at most as many events.
pub(crate) const MOST_OFFERS: u64 = 1_000_000;

/// Not the number of an offer.
const NONE: u64 = u64::MAX;

/// The offers of a run, numbered from 0: each is a moment, and a tap whose turn it is. Those of an instant are
/// published together. An offer lends the seat of its tap.
#[derive(Drop)]
pub(crate) struct Pool<L: Ledger> {
    /// The seat of each tap.
    seats: Vec<Mutex<TapSeat<L>>>,
    /// The taps of the instant's offers, in ascending order, [`NAMED`] in a word.
    taps: Vec<AtomicU64>,
    /// The instant, in bit times.
    now: AtomicU64,
    /// The number of the instant's first offer.
    first: AtomicU64,
    /// How many offers were published so far.
    published: AtomicU64,
    /// How many of the instant's offers are not served yet.
    open: AtomicUsize,
    /// Whether an offer was served with a fault.
    failed: AtomicBool,
    /// Whether no more offers come.
    ended: AtomicBool,
    conductor: Parker,
    /// Where each helper waits.
    helpers: Vec<HelperState>,
    /// How many helpers wait for any offer.
    idle: AtomicUsize,
    /// Whether one of these helpers watches.
    watched: AtomicBool,
    /// How many helpers wait for the offer with the number that they have drawn.
    holding: AtomicUsize,
}

/// Where a helper waits.
#[derive(Drop)]
struct HelperState {
    helper: Parker,
    /// Whether the helper waits for any offer.
    is_idle: AtomicBool,
    /// The number of the only offer for which it waits, or `NONE`.
    number: AtomicU64,
}

impl HelperState {
    fn new() -> HelperState {
        HelperState {
            helper: Parker::new(),
            is_idle: AtomicBool::new(false),
            number: AtomicU64::new(NONE),
        }
    }
}

/// An offer: a tap's turn at a moment.
#[derive(Clone, Copy, Debug)]
pub(crate) struct Offer {
    /// The moment, in bit times.
    pub(crate) now: u64,
    /// The index of the tap, from 0.
    pub(crate) tap: usize,
}

impl<L: Ledger> Pool<L> {
    /// A pool without offers, with the seats of the taps and places for this many helpers.
    ///
    /// Fault: memory was refused.
    pub(crate) fn new(
        alloc: Global,
        seats: Vec<TapSeat<L>>,
        helpers: usize,
    ) -> Result<Pool<L>, AllocError> {
        let words = seats.len().div_ceil(NAMED);
        let mut taps = Vec::with_capacity(alloc, words)?;
        for _ in 0..words {
            taps.push(AtomicU64::new(0))?;
        }
        let mut lent = Vec::with_capacity(alloc, seats.len())?;
        for seat in seats {
            lent.push(Mutex::new(seat))?;
        }
        let mut states = Vec::with_capacity(alloc, helpers)?;
        for _ in 0..helpers {
            states.push(HelperState::new())?;
        }
        Ok(Pool {
            seats: lent,
            taps,
            now: AtomicU64::new(0),
            first: AtomicU64::new(0),
            published: AtomicU64::new(0),
            open: AtomicUsize::new(0),
            failed: AtomicBool::new(false),
            ended: AtomicBool::new(false),
            conductor: Parker::new(),
            helpers: states,
            idle: AtomicUsize::new(0),
            watched: AtomicBool::new(false),
            holding: AtomicUsize::new(0),
        })
    }

    /// Publishes the turns of some taps at a moment, together, after all offers before were served. Returns false, and
    /// does nothing, if the run would have too many offers.
    pub(crate) fn publish(&self, now: u64, turns: &[usize]) -> bool {
        let first = self.published.load(Ordering::SeqCst);
        let published = first.saturating_add(turns.len() as u64);
        if published > MOST_OFFERS {
            return false;
        }
        for (word, named) in self.taps.iter().zip(turns.chunks(NAMED)) {
            word.store(names(named), Ordering::SeqCst);
        }
        self.now.store(now, Ordering::SeqCst);
        self.first.store(first, Ordering::SeqCst);
        self.open.store(turns.len(), Ordering::SeqCst);
        self.published.store(published, Ordering::SeqCst);
        self.wake_holders(published);
        true
    }

    /// The published offer with this number.
    pub(crate) fn offer(&self, number: u64) -> Option<Offer> {
        let place = number.saturating_sub(self.first.load(Ordering::SeqCst)) as usize;
        let word = self.taps.get(place / NAMED)?;
        Some(Offer {
            now: self.now.load(Ordering::SeqCst),
            tap: named_at(word.load(Ordering::SeqCst), place % NAMED),
        })
    }

    /// The seat of a tap.
    pub(crate) fn seat(&self, tap: usize) -> Option<&Mutex<TapSeat<L>>> {
        self.seats.get(tap)
    }

    /// Whether the offer with this number is published.
    pub(crate) fn is_published(&self, number: u64) -> bool {
        number < self.published.load(Ordering::SeqCst)
    }

    /// An offer was served; `failed` is whether with a fault.
    pub(crate) fn served(&self, failed: bool) {
        if failed {
            self.failed.store(true, Ordering::SeqCst);
        }
        if self.open.fetch_sub(1, Ordering::SeqCst) == 1 {
            self.conductor.unpark();
        }
    }

    /// The conductor waits until all offers of the instant are served. Returns false if one was served with a fault.
    pub(crate) fn wait_until_served<R: Wait>(&self, rt: &R) -> bool {
        for _ in 0..LOOKS {
            if self.is_served() {
                break;
            }
            spin_loop();
        }
        for _ in rt.forever() {
            if self.is_served() {
                break;
            }
            self.conductor.park(rt);
        }
        !self.failed.load(Ordering::SeqCst)
    }

    fn is_served(&self) -> bool {
        self.open.load(Ordering::SeqCst) == 0
    }

    /// A helper waits until one more worker is needed. Returns false if no more offers come. One of the waiting helpers
    /// watches: it looks from time to time whether the active workers make progress or are held by the gate, and before
    /// it leaves it wakes another one to watch. The others stay parked, so the hot path never issues a wake-up.
    pub(crate) fn wait_for_any<R: Wait>(&self, rt: &R, helper: usize) -> bool {
        let Some(state) = self.helpers.get(helper) else {
            return false;
        };
        self.mark_idle(state);
        let mut watches = false;
        let mut taken = self.taken();
        for _ in rt.forever() {
            if self.has_ended() || watches && self.is_one_wanted(taken) {
                break;
            }
            watches = watches || !self.watched.swap(true, Ordering::SeqCst);
            taken = self.taken();
            if watches {
                state.helper.park_timeout(rt, Duration::from_micros(WATCH));
            } else {
                state.helper.park(rt);
            }
        }
        self.mark_busy(state);
        if watches {
            self.watched.store(false, Ordering::SeqCst);
            self.wake_one();
        }
        !self.has_ended()
    }

    /// A helper waits until the offer with the number that it has drawn is published. Returns false if no more offers
    /// come.
    pub(crate) fn wait_for<R: Wait>(&self, rt: &R, helper: usize, number: u64) -> bool {
        if self.is_published(number) {
            return true;
        }
        let Some(state) = self.helpers.get(helper) else {
            return false;
        };
        self.holding.fetch_add(1, Ordering::SeqCst);
        state.number.store(number, Ordering::SeqCst);
        for _ in rt.forever() {
            if self.is_published(number) || self.has_ended() {
                break;
            }
            state.helper.park(rt);
        }
        state.number.store(NONE, Ordering::SeqCst);
        self.holding.fetch_sub(1, Ordering::SeqCst);
        self.is_published(number)
    }

    /// Releases all helpers: no more offers come.
    pub(crate) fn end(&self) {
        self.ended.store(true, Ordering::SeqCst);
        for state in &self.helpers {
            state.helper.unpark();
        }
    }

    /// The seats of all taps, in their order.
    ///
    /// Fault: memory was refused.
    pub(crate) fn into_seats(self, alloc: Global) -> Result<Vec<TapSeat<L>>, AllocError> {
        let mut seats = Vec::with_capacity(alloc, self.seats.len())?;
        for seat in self.seats {
            seats.push(seat.into_inner())?;
        }
        Ok(seats)
    }

    /// How many workers of the crew do not wait for an offer.
    fn awake(&self) -> usize {
        let crew = self.helpers.len().saturating_add(1);
        crew.saturating_sub(self.idle.load(Ordering::SeqCst))
            .saturating_sub(self.holding.load(Ordering::SeqCst))
    }

    /// Whether no more offers come.
    fn has_ended(&self) -> bool {
        self.ended.load(Ordering::SeqCst)
    }

    /// Whether there are more open offers than active workers, and few turns were taken since their number was `taken`.
    fn is_one_wanted(&self, taken: u64) -> bool {
        self.open.load(Ordering::SeqCst) > self.awake() && self.taken() < taken.saturating_add(FEW)
    }

    /// How many turns were taken so far.
    fn taken(&self) -> u64 {
        let open = self.open.load(Ordering::SeqCst) as u64;
        self.published.load(Ordering::SeqCst).saturating_sub(open)
    }

    /// Marks a helper as waiting for any offer.
    fn mark_idle(&self, state: &HelperState) {
        self.idle.fetch_add(1, Ordering::SeqCst);
        state.is_idle.store(true, Ordering::SeqCst);
    }

    /// Marks a helper as no longer waiting for any offer.
    fn mark_busy(&self, state: &HelperState) {
        state.is_idle.store(false, Ordering::SeqCst);
        self.idle.fetch_sub(1, Ordering::SeqCst);
    }

    /// Wakes one helper that waits for any offer, if there is one.
    fn wake_one(&self) {
        for state in &self.helpers {
            if state.is_idle.load(Ordering::SeqCst) {
                state.helper.unpark();
                return;
            }
        }
    }

    /// Wakes the helpers whose own offers are now published.
    fn wake_holders(&self, published: u64) {
        if self.holding.load(Ordering::SeqCst) == 0 {
            return;
        }
        for state in &self.helpers {
            if state.number.load(Ordering::SeqCst) < published {
                state.helper.unpark();
            }
        }
    }
}

/// The indices of some taps, packed in one word.
fn names(taps: &[usize]) -> u64 {
    let mut word = 0;
    for tap in taps.iter().rev() {
        word = word << 8 | (*tap & 0xff) as u64;
    }
    word
}

/// The tap at a place of a word.
fn named_at(word: u64, place: usize) -> usize
    requires { place < 8 }
{
    usize::from(word.to_le_bytes()[place])
}
