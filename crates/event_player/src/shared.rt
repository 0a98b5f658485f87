//! Lists in which equal events share memory. An event is as large as the longest request, and most events are turns or
//! short passes of time.

use pb_world::Event;
use std::alloc::{AllocError, Global};

/// The taps whose turns are shared: as many as a bus may have.
const TURNS: usize = 127;

/// Passes of fewer bit times are shared.
const BITS: u64 = 4_096;

/// Events that occur often, each once: the turn of each tap, and short passes of time.
#[derive(Drop)]
pub struct Usual {
    turns: Vec<Event>,
    passes: Vec<Event>,
}

impl Usual {
    /// All shared events.
    ///
    /// Fault: memory was refused.
    pub fn new(alloc: Global) -> Result<Usual, AllocError> {
        let mut turns = Vec::with_capacity(alloc, TURNS)?;
        for tap in 0..TURNS {
            turns.push(Event::Turn(tap))?;
        }
        let mut passes = Vec::new(alloc);
        for bits in 0..BITS {
            passes.push(Event::Pass(bits))?;
        }
        Ok(Usual { turns, passes })
    }

    /// References to events equal to these, in order: to shared ones where there are any.
    ///
    /// Fault: memory was refused.
    pub fn share<'a>(
        &'a self,
        alloc: Global,
        events: &'a [Event],
    ) -> Result<Vec<&'a Event>, AllocError> {
        let mut shared = Vec::with_capacity(alloc, events.len())?;
        for event in events {
            shared.push(self.equal_to(event).unwrap_or(event))?;
        }
        Ok(shared)
    }

    /// The shared event that is equal to this one, if there is one.
    fn equal_to(&self, event: &Event) -> Option<&Event> {
        match event {
            Event::Turn(tap) => self.turns.get(*tap),
            Event::Pass(bits) => self.passes.get(usize::try_from(*bits).ok()?),
            _ => None,
        }
    }
}
