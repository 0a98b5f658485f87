//! Why an event would be refused, without applying it.

use crate::buses::Bus;
use crate::clocks::passes_to;
use crate::starting::check_start;
use pb_cycles::Request;
use pb_medium::Hit;
use pb_taps::{Event, WorldFault, check_queue, check_running};

impl Bus {
    ghost use Rattle.std.specs.Prelude.{◌≡◌};
    ghost use Rattle.law_model.specs.Step.{step};
    ghost use Rattle.law_model.specs.World as events;
    ghost use Rattle.pb_taps.specs.Events.{event_of};
    ghost use Rattle.pb_world.specs.Buses.{world_of, IsKept};
    ghost use Rattle.pb_world.specs.Refusals.{fault_of, Judges, Speaks, TellsSpeech};

    /// Why an event would be refused, apart from memory. For a turn, `speaks` is whether the station would send
    /// anything.
    pub fn refusal(&self, event: &Event, speaks: bool) -> Option<WorldFault>
        requires kept { IsKept self.now }
        requires speaks { TellsSpeech (world_of self.now) (event_of event.now) speaks }
        ensures { result ≡ fault_of (step (world_of self.entry.now) (event_of event.now)) }
    {
        self.check(event, speaks).err()
    }

    fn check(&self, event: &Event, speaks: bool) -> Result<(), WorldFault>
        requires kept { IsKept self.now }
        requires speaks { TellsSpeech (world_of self.now) (event_of event.now) speaks }
        ensures { Judges (world_of self.entry.now) (event_of event.now) result }
    {
        match event {
            Event::Turn(tap) => self.check_turn(*tap, speaks),
            Event::Pass(bits) => self.check_pass(*bits),
            Event::Damage {
                tap,
                speaker,
                place,
            } => self.check_damage(
                *speaker,
                Hit {
                    tap: *tap,
                    place: *place,
                },
            ),
            Event::Start(tap) => self.check_start(*tap),
            Event::Stop(tap) => self.check_stop(*tap),
            Event::Queue { tap, request } => self.check_queue(*tap, request),
            Event::Noise(bits) => self.check_noise(*bits),
            Event::Unheard { tap, speaker } => self.check_unheard(*tap, *speaker),
        }
    }

    fn check_turn(&self, tap: usize, speaks: bool) -> Result<(), WorldFault>
        requires kept { IsKept self.now }
        requires speaks { Speaks (world_of self.now) tap speaks }
        ensures { Judges (world_of self.entry.now) (events.Turn tap) result }
    {
        check_running(&self.taps, tap)?;
        if speaks && self.trace.is_full() {
            return Err(WorldFault::TraceFull);
        }
        Ok(())
    }

    fn check_pass(&self, bits: u64) -> Result<(), WorldFault>
        requires kept { IsKept self.now }
        ensures { Judges (world_of self.entry.now) (events.Pass bits) result }
    {
        passes_to(
            self.trace.recent(),
            self.params.ttd(),
            &self.taps,
            self.now,
            bits,
        )?;
        Ok(())
    }

    fn check_damage(&self, speaker: usize, hit: Hit) -> Result<(), WorldFault>
        requires kept { IsKept self.now }
        ensures { Judges (world_of self.entry.now) (events.Damage hit.tap speaker hit.place) result }
    {
        if hit.tap >= self.taps.len() || speaker >= self.taps.len() {
            return Err(WorldFault::NoSuchTap);
        }
        if !self
            .trace
            .can_hit(self.params.ttd(), speaker, self.now, hit)
        {
            return Err(WorldFault::NothingInAir);
        }
        Ok(())
    }

    fn check_start(&self, tap: usize) -> Result<(), WorldFault>
        requires kept { IsKept self.now }
        ensures { Judges (world_of self.entry.now) (events.Start tap) result }
    {
        check_start(
            self.trace.recent(),
            self.params.ttd(),
            &self.taps,
            tap,
            self.now,
        )
    }

    fn check_stop(&self, tap: usize) -> Result<(), WorldFault>
        requires kept { IsKept self.now }
        ensures { Judges (world_of self.entry.now) (events.Stop tap) result }
    {
        check_running(&self.taps, tap)
    }

    fn check_queue(&self, tap: usize, request: &Request) -> Result<(), WorldFault>
        requires kept { IsKept self.now }
        ensures { Judges (world_of self.entry.now) (events.Queue tap request.now) result }
    {
        check_queue(&self.taps, tap, request)
    }

    fn check_noise(&self, bits: u32) -> Result<(), WorldFault>
        requires kept { IsKept self.now }
        ensures { Judges (world_of self.entry.now) (events.Noise bits) result }
    {
        if bits == 0 {
            return Err(WorldFault::ZeroTime);
        }
        if self.trace.is_full() && !self.trace.has_noise(self.now) {
            return Err(WorldFault::TraceFull);
        }
        Ok(())
    }

    fn check_unheard(&self, tap: usize, speaker: usize) -> Result<(), WorldFault>
        requires kept { IsKept self.now }
        ensures { Judges (world_of self.entry.now) (events.Unheard tap speaker) result }
    {
        if tap >= self.taps.len() || speaker >= self.taps.len() {
            return Err(WorldFault::NoSuchTap);
        }
        if self.trace.has_nothing_to_lose(tap, speaker, self.now) {
            return Err(WorldFault::NothingInAir);
        }
        Ok(())
    }
}
