//! A stage that records the events of a run.

ghost use Rattle.std.specs.Prelude.{◌≡◌, []};

use crate::stages::Stage;
use pb_taps::{Event, WorldFault};
use pb_world::Bus;
use std::alloc::Global;

/// A bus, and the events that have happened on it.
#[derive(Drop)]
pub(crate) struct Recorded {
    pub(crate) bus: Bus,
    pub(crate) events: Vec<Event>,
}

impl Recorded {
    /// A bus on which nothing has happened.
    pub(crate) fn new(alloc: Global, bus: Bus) -> Recorded
        ensures bus { result.bus ≡ bus }
        ensures events { result.events.items ≡ [] }
    {
        Recorded {
            bus,
            events: Vec::new(alloc),
        }
    }
}

impl Stage for Recorded {
    ghost use Rattle.pb_scenario.specs.Recording.{recorded_view};

    ghost view = { recorded_view };

    fn apply(&mut self, alloc: Global, event: &Event) -> Result<(), WorldFault> {
        self.bus.apply(alloc, event)?;
        match self.events.push(event.copy()) {
            Ok(()) => Ok(()),
            Err(_) => Err(WorldFault::NoMemory),
        }
    }

    fn apply_in_time(&mut self, alloc: Global, event: &Event) -> Result<(), WorldFault> {
        self.apply(alloc, event)
    }

    fn bus(&self) -> &Bus {
        &self.bus
    }
}
