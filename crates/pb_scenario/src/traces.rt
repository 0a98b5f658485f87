//! The trace of a scenario's run on one thread.

ghost use Rattle.std.specs.Prelude.{◌≡◌, List, Some, Ok, IfOk, IfErr, length, map};
ghost use Rattle.law_model.specs.World as model;
ghost use Rattle.law_runs.specs.Judging.{StandsFrom};
ghost use Rattle.law_runs.specs.Scenarios as runs;
ghost use Rattle.pb_medium.specs.Entries.{entry_of};
ghost use Rattle.pb_scenario.specs.Faults.{EndsBy};

use crate::faults::RunFault;
use crate::plays::play;
use crate::scenarios::Scenario;
use crate::stages::Stage;
use law_runs::the_events_of_a_run_lead_to_its_end;
use pb_medium::Entry;
use pb_taps::{Event, WorldFault};
use pb_world::{Bus, new_bus};
use std::alloc::Global;

/// The trace of a run, and the number of its events.
#[derive(Drop)]
pub struct Traced {
    /// All that was sent, in order of begin.
    pub entries: Vec<Entry>,
    /// How many events the run has.
    pub events: u64,
}

/// The trace of the run of a scenario on one thread, and how many events it has. Each event is applied once, and none is
/// stored.
///
/// Faults: those of [`events_of`](crate::events_of).
pub fn trace_of(alloc: Global, scenario: &Scenario) -> Result<Traced, RunFault>
    ensures trace { IfOk result
        (λ traced. runs.trace_of scenario.now.scenario ≡ Some (Ok (map entry_of traced.entries.items))) }
    ensures order { IfOk result (λ traced. StandsFrom 0 (map entry_of traced.entries.items)) }
    ensures events { IfOk result (λ traced. (events : List model.Event)
        × (runs.events_of scenario.now.scenario ≡ Some (Ok events)) × (traced.events ≡ length events)) }
    ensures fault { IfErr result (EndsBy scenario.now.scenario) }
{
    the_events_of_a_run_lead_to_its_end();
    let bus = match new_bus(alloc, *scenario.params(), scenario.taps()) {
        Ok(bus) => bus,
        Err(fault) => return Err(RunFault::New(fault)),
    };
    let mut counted = Counted { bus, events: 0 };
    play(alloc, scenario, &mut counted)?;
    let Counted { bus, events } = counted;
    let Bus { trace, .. } = bus;
    Ok(Traced {
        entries: trace.into_entries(),
        events,
    })
}

/// A bus, and how many events have happened on it.
#[derive(Drop)]
pub(crate) struct Counted {
    pub(crate) bus: Bus,
    pub(crate) events: u64,
}

impl Stage for Counted {
    ghost use Rattle.pb_scenario.specs.Counting.{counted_view};

    ghost view = { counted_view };

    fn apply(&mut self, alloc: Global, event: &Event) -> Result<(), WorldFault> {
        self.bus.apply(alloc, event)?;
        match self.events.checked_add(1) {
            Some(events) => {
                self.events = events;
                Ok(())
            }
            None => Err(WorldFault::NoMemory),
        }
    }

    fn apply_in_time(&mut self, alloc: Global, event: &Event) -> Result<(), WorldFault> {
        self.apply(alloc, event)
    }

    fn bus(&self) -> &Bus {
        &self.bus
    }
}
