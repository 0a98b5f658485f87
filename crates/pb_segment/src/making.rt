//! Makes a segment and its seats.

ghost use Rattle.std.specs.Prelude.{◌≡◌, ◌+◌, ◌<◌, ◌≤◌, [], ℕ, IfOk, OnOk, Some, length, replicate, slice_get};
ghost use Rattle.pb_segment.specs.Locked.{view_of};
ghost use Rattle.pb_segment.specs.Origins.{IsNew, origin_of};

use crate::blocks::Blocks;
use crate::known::Known;
use crate::locked::Locked;
use crate::origins::Origin;
use crate::seats::{ConductorSeat, TapSeat};
use crate::segments::SharedSegment;
use pb_faults::NoMemory;
use pb_world::World;
use std::alloc::{AllocError, Global};
use std::sync::Mutex;
use std::sync::ledger::{Blank, Book, Ledger, Share};

/// The most events of a history.
const MOST_EVENTS: usize = 1_000_000;

impl<L: Ledger> SharedSegment<L> {
    ghost use Rattle.std.specs.Prelude.{◌≡◌, ◌+◌, ◌<◌, ◌≤◌, [], ℕ, IfOk, Some, length, slice_get};
    ghost use Rattle.pb_segment.specs.Origins.{IsNew, origin_of};

    /// A segment around a new world, with an empty history of at most 1,000,000 events; the conductor's seat; and a
    /// seat for each tap, in the order of the taps. The caller ensures that the world is new, and that the blank ledger
    /// has one part for each tap and one more.
    ///
    /// Fault: `NoMemory` if memory was refused. World and blank ledger are dropped.
    pub fn new(
        alloc: Global,
        blank: Blank,
        world: World,
    ) -> Result<(SharedSegment<L>, ConductorSeat<L>, Vec<TapSeat<L>>), NoMemory>
        requires name { blank.name ≡ L.name }
        requires parts { blank.parts ≡ L.parts }
        requires one_each { blank.parts ≡ length world.taps + 1 }
        requires new { IsNew world }
        ensures origin { IfOk result (λ r. r.0.origin ≡ origin_of world) }
        ensures conductor { IfOk result (λ r. r.1 ≡ record { receipts = []; outlooks = [] }) }
        ensures seats { IfOk result (λ r. (tap : ℕ) → tap < length world.taps
            → slice_get r.2.items tap ≡ Some (record { tap = tap; receipts = [] })) }
        ensures each { IfOk result (λ r. length r.2.items ≡ length world.taps) }
    {
        SharedSegment::with_history(alloc, blank, world, MOST_EVENTS)
    }

    /// The same with a history of at most `limit` events. The caller ensures that `limit` is 1 to 1,000,000.
    pub fn with_history(
        alloc: Global,
        blank: Blank,
        world: World,
        limit: usize,
    ) -> Result<(SharedSegment<L>, ConductorSeat<L>, Vec<TapSeat<L>>), NoMemory>
        requires name { blank.name ≡ L.name }
        requires parts { blank.parts ≡ L.parts }
        requires one_each { blank.parts ≡ length world.taps + 1 }
        requires new { IsNew world }
        requires some { 0 < limit }
        requires most { limit ≤ 1000000 }
        ensures origin { IfOk result (λ r. r.0.origin ≡ origin_of world) }
        ensures conductor { IfOk result (λ r. r.1 ≡ record { receipts = []; outlooks = [] }) }
        ensures seats { IfOk result (λ r. (tap : ℕ) → tap < length world.taps
            → slice_get r.2.items tap ≡ Some (record { tap = tap; receipts = [] })) }
        ensures each { IfOk result (λ r. length r.2.items ≡ length world.taps) }
    {
        let origin = Origin::of(alloc, &world)?;
        let taps = world.taps();
        let (book, mut rest) = blank.open::<L>();
        let seats = tap_seats(alloc, &mut rest, taps)?;
        let state = Mutex::new(opened(alloc, world, limit, book)?);
        let segment = SharedSegment { state, origin };
        Ok((segment, conductor_seat(alloc, rest), seats))
    }
}

/// The first state under the lock: a new world, and an empty history of at most `limit` events.
///
/// Fault: memory was refused.
fn opened<L: Ledger>(
    alloc: Global,
    world: World,
    limit: usize,
    book: Book<L>,
) -> Result<Locked<L>, AllocError>
    requires new { IsNew world }
    requires most { limit ≤ 1000000 }
    requires one_each { L.parts ≡ length world.taps + 1 }
    requires empty { book.total ≡ 0 }
    ensures { IfOk result (λ locked. locked
        ≡ view_of world (origin_of world) [] (replicate (length world.taps) 0) 0 [] limit) }
{
    let taps = world.taps();
    let known = Known::new(alloc, world.now())?;
    Ok(Locked {
        origin: Origin::of(alloc, &world)?,
        world,
        history: Blocks::new(alloc),
        known,
        turns: no_turns(alloc, taps)?,
        drives: 0,
        outlooks: Vec::new(alloc),
        limit,
        book,
    })
}

/// No turns of any tap.
///
/// Fault: memory was refused.
fn no_turns(alloc: Global, taps: usize) -> Result<Vec<usize>, AllocError>
    ensures { IfOk result (λ turns. turns.items ≡ replicate taps 0) }
{
    Ok(vec![in alloc; 0; taps]?)
}

/// The conductor's seat, with the last part of the ledger.
fn conductor_seat<L: Ledger>(alloc: Global, rest: Share<L>) -> ConductorSeat<L>
    requires part { rest.parts ≡ 1 }
    requires empty { rest.amount ≡ 0 }
    ensures { result ≡ record { receipts = []; outlooks = [] } }
{
    ConductorSeat {
        receipts: Vec::new(alloc),
        outlooks: Vec::new(alloc),
        share: rest,
    }
}

/// The seats of the taps, each with one part of the ledger. One part is left.
///
/// Fault: memory was refused.
fn tap_seats<L: Ledger>(
    alloc: Global,
    rest: &mut Share<L>,
    taps: usize,
) -> Result<Vec<TapSeat<L>>, AllocError>
    requires parts { L.parts ≡ taps + 1 }
    requires all { rest.old.parts ≡ L.parts }
    requires empty { rest.old.amount ≡ 0 }
    ensures each { IfOk result (λ seats. length seats.items ≡ taps) }
    ensures seats { IfOk result (λ seats. (tap : ℕ) → tap < taps
        → slice_get seats.items tap ≡ Some (record { tap = tap; receipts = [] })) }
    ensures left { OnOk result (rest.new.parts ≡ 1) }
    ensures none { OnOk result (rest.new.amount ≡ 0) }
{
    let mut seats = Vec::new(alloc);
    for tap in 0..taps {
        let seat = TapSeat {
            tap,
            receipts: Vec::new(alloc),
            share: rest.split_off(1, 0),
        };
        seats.push(seat)?;
    }
    Ok(seats)
}
