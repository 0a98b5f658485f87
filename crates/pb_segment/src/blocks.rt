//! A list of events in blocks, so that appending never moves earlier events.

ghost use Rattle.std.specs.Prelude.{◌≡◌, ◌≤◌, Some, None, MatchOption, length, slice_get};

use crate::histories::Happened;
use std::alloc::{AllocError, Global};
use std::mem;

/// How many events a block holds.
const ROOM: usize = 1024;

/// A full block of events.
#[derive(Debug, Drop)]
pub(crate) struct Block {
    happened: Vec<Happened>,
    ghost full: { length happened.items ≡ 1024 },
}

/// Events in order, in blocks. Appending moves none of those that are stored.
#[derive(Debug, Drop)]
pub(crate) struct Blocks {
    full: Vec<Block>,
    last: Vec<Happened>,
    ghost few: { length full.items ≤ 976 },
    ghost fits: { length last.items ≤ 1024 },
}

impl Blocks {
    ghost use Rattle.std.specs.Prelude.{◌≡◌, ◌<◌, ◌∷◌, ◌++◌, [], OnOk, length};
    ghost use Rattle.std.specs.Prelude.{Some, None, MatchOption, slice_get};
    ghost use Rattle.pb_segment.specs.Blocks.{HasRoom, happened_in};

    /// No events.
    pub(crate) fn new(alloc: Global) -> Blocks
        ensures { happened_in result ≡ [] }
    {
        Blocks {
            full: Vec::new(alloc),
            last: Vec::new(alloc),
        }
    }

    /// The number of events.
    pub(crate) fn len(&self) -> usize
        ensures { result ≡ length (happened_in self.now) }
    {
        self.full.len() * ROOM + self.last.len()
    }

    /// The event with this index, from 0.
    pub(crate) fn get(&self, place: usize) -> Option<&Happened>
        ensures { MatchOption result (slice_get (happened_in self.entry.now) place ≡ None)
            (λ h. slice_get (happened_in self.entry.now) place ≡ Some h.now) }
    {
        match self.full.get(place / ROOM) {
            Some(block) => at(&block.happened, place % ROOM),
            None => at(&self.last, place - self.full.len() * ROOM),
        }
    }

    /// Reserves memory for one more event, of at most 1,000,000.
    ///
    /// Fault: memory was refused.
    pub(crate) fn reserve(&mut self, alloc: Global) -> Result<(), AllocError>
        requires { length (happened_in self.old) < 1000000 }
        ensures same { happened_in self.new ≡ happened_in self.old }
        ensures room { OnOk result (HasRoom self.new) }
    {
        if self.last.len() < self.last.capacity().min(ROOM) {
            return Ok(());
        }
        self.add_room(alloc)
    }

    /// Slow path of `reserve`, kept out of line: memory is nearly always reserved already.
    #[inline(never)]
    fn add_room(&mut self, alloc: Global) -> Result<(), AllocError>
        requires { length (happened_in self.old) < 1000000 }
        ensures same { happened_in self.new ≡ happened_in self.old }
        ensures room { OnOk result (HasRoom self.new) }
    {
        if self.last.len() < ROOM {
            return self.last.reserve_exact(ROOM - self.last.len());
        }
        self.full.reserve(1)?;
        let next = Vec::with_capacity(alloc, ROOM)?;
        let happened = mem::replace(&mut self.last, next);
        self.full.push_reserved(Block { happened });
        Ok(())
    }

    /// Appends one more event, for which memory is reserved.
    pub(crate) fn push_reserved(&mut self, happened: Happened)
        requires { HasRoom self.old }
        ensures { happened_in self.new ≡ happened_in self.old ++ happened ∷ [] }
    {
        self.last.push_reserved(happened);
    }
}

/// The event with this index in a block.
fn at(happened: &Vec<Happened>, place: usize) -> Option<&Happened>
    ensures { MatchOption result (slice_get happened.entry.now.items place ≡ None)
        (λ h. slice_get happened.entry.now.items place ≡ Some h.now) }
{
    let here = happened.get(place)?;
    Some(here)
}
